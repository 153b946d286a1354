//! The machines of filters: guests, the calls of their host, and callbacks.
#![tactic(auto)]

mod calls;
mod dispatch;
mod ended;
mod fitting;
pub mod laws;
mod machine_guest;
mod roles;
mod slots;
mod vm;

pub use calls::{CallEnd, Calls, RunEnd, run};
pub use dispatch::Dispatcher;
pub use ended::LastRunEnd;
pub use fitting::{FitEnd, exported, fits, fits_function};
pub use machine_guest::MachineGuest;
pub use roles::{ROLES, Role, gives_number, role_name, role_named, role_place, role_row};
pub use slots::{Slot, Vms};
pub use vm::{Counts, Numbers, Ran, Vm};
