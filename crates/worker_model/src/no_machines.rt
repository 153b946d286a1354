// A worker without machines.
ghost use Rattle.std.specs.Prelude.{false};
ghost use Rattle.worker_model.specs.NoCalls.{no_calling};

use contexts::Contexts;
use filter_host::{Answer, Callback, CallbackEnd, Host};
use gate_base::{Members, OutOfMemory, VmNo};
use std::alloc::Global;
use store_model::Shared;

/// The machines of a configuration without VMs: none. Each callback is one that is missing.
#[derive(Clone, Copy)]
pub struct NoMachines {
    /// What a worker takes for its machines.
    pub none: bool,
}

impl Host for NoMachines {
    ghost needs = { λ host. 0 };

    ghost exported = { λ host vm name. false };

    ghost registering = { λ host vm. false };

    ghost calling = { no_calling };

    fn exports(&self, _vm: VmNo, _name: Callback) -> bool {
        false
    }

    fn registers(&self, _vm: VmNo) -> bool {
        false
    }

    fn callback<S: Shared>(
        &mut self,
        alloc: Global,
        _vm: VmNo,
        _name: Callback,
        _context: u32,
        _first: u32,
        _second: u32,
        _now: u64,
        _contexts: &mut Contexts,
        _shared: &mut S,
    ) -> Result<Answer, OutOfMemory> {
        Ok(Answer {
            end: CallbackEnd::Returned { value: None },
            lines: Members::new(alloc),
        })
    }
}
