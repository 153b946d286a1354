//! Any host call of the table, by its name.
#![tactic(auto)]

mod host;
mod laws;
mod wasi;

pub use host::host_call;
pub use laws::every_host_call_is_isolated;
pub use wasi::wasi_call;
