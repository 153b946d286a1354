//! What the gateway is told to do: its workers, its VMs, its plug-ins and its routes.
#![tactic(auto)]

mod adds;
mod config;
mod copies;
mod entries;
mod laws;
mod plain;

pub use adds::RouteEnd;
pub use config::Config;
pub use entries::{PluginEntry, PluginList, PluginNos, RouteEntry, RouteList, VmEntry, VmList};
pub use laws::{plain_routes_begin_with_a_slash, worked_routes};
