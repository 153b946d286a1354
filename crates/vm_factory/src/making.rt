// How the machines of a worker are made.
ghost use Rattle.std.specs.Prelude.{◌≡◌, ◌≤◌, length, IfOk};
ghost use Rattle.gate_config.specs.declared.config.Config.{Config};

use filter_host::Host;
use gate_base::OutOfMemory;
use gate_config::Config;
use std::alloc::Global;

/// Makes all machines of a worker. What it makes is a function of the configuration, so that two workers, and two lives of one, begin
/// alike.
pub trait MakesHost<H: Host> {
    /// The configurations of which it makes machines.
    ghost takes: { Self → Config → Type 0 };

    /// The machines of a configuration, on which nothing has run.
    ghost made: { Self → Config → H };

    /// The machines of a configuration. They use no store but those of its VMs.
    fn make(&self, alloc: Global, config: &Config) -> Result<H, OutOfMemory>
        requires { takes self.now config.now }
        ensures made { IfOk result (λ host. host ≡ made self.now config.now) }
        ensures needs { IfOk result (λ host. H.needs host ≤ length config.now.vms) };
}
