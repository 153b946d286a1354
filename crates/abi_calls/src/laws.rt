// Isolation of every host call, as the contract of a function.
ghost use Rattle.abi_calls.specs.Isolation.{HostCallsAreIsolated};

/// Two hosts that agree on what the effective context reaches and on what all contexts of its VM have in common: every host call
/// asks the stores the same, and for equal replies gives the guest the same, writes the same lines and changes the same.
pub fn every_host_call_is_isolated()
    ensures { HostCallsAreIsolated }
{}
