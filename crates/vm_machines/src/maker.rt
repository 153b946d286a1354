// What makes the machines of a configuration.

use crate::machines;
use gate_base::OutOfMemory;
use gate_config::Config;
use std::alloc::Global;
use vm_factory::MakesHost;
use vm_host::Vms;

/// Makes the machines of a configuration: that of each VM, of its module and with its pages and its fuel. It takes the configurations whose
/// modules are filters.
#[derive(Clone, Copy)]
pub struct Machines;

impl MakesHost<Vms> for Machines {
    ghost use Rattle.std.specs.Prelude.{All};
    ghost use Rattle.vm_machines.specs.Making.{slots_from, HasFilter};

    ghost takes = { λ maker config. All HasFilter config.vms };

    ghost made = { λ maker config. record { slots = slots_from 0 config.vms } };

    fn make(&self, alloc: Global, config: &Config) -> Result<Vms, OutOfMemory> {
        machines(alloc, config.vms.as_slice())
    }
}
