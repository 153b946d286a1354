//! The VMs and the plug-ins of a configuration by their names.
#![tactic(auto)]

mod names;

pub use names::{has_plugin, has_vm, plugin_place, vm_place};
