// The names that are there so far.
ghost use Rattle.std.specs.Prelude.{◌≡◌, ◌<◌, IfSome, length, bytes_eq, position};
ghost use Rattle.gate_config.specs.Given.{given};
ghost use Rattle.config_names.specs.Names.{has_vm, has_plugin, vm_number, plugin_number};

use gate_config::Config;

/// Whether a VM has this name.
pub fn has_vm(config: &Config, name: &str) -> bool
    ensures { result ≡ has_vm (given config.now) name.now }
{
    config
        .vms
        .as_slice()
        .iter()
        .any(|vm| vm.name.as_str() == name)
}

/// Whether a plug-in has this name.
pub fn has_plugin(config: &Config, name: &str) -> bool
    ensures { result ≡ has_plugin (given config.now) name.now }
{
    config
        .plugins
        .as_slice()
        .iter()
        .any(|plugin| plugin.name.as_str() == name)
}

/// The place of the VM of this name, and 0 where there is none.
#[tactic(auto, unfolding(crate::specs::Names::vm_number))]
pub fn vm_place(config: &Config, name: &str) -> usize
    ensures { result ≡ vm_number (given config.now) name.now }
{
    match find_vm(config, name) {
        Some(place) => place,
        None => 0,
    }
}

/// The place of the VM of this name.
fn find_vm(config: &Config, name: &str) -> Option<usize>
    ensures { result ≡ position (λ vm. bytes_eq vm.name name.now) config.now.vms }
{
    config
        .vms
        .as_slice()
        .iter()
        .position(|vm| vm.name.as_str() == name)
}

/// The place of the plug-in of this name, and 0 where there is none.
#[tactic(auto, unfolding(crate::specs::Names::plugin_number))]
pub fn plugin_place(config: &Config, name: &str) -> usize
    ensures place { result ≡ plugin_number (given config.now) name.now }
    ensures small { result < 64 }
{
    match find_plugin(config, name) {
        Some(place) => place,
        None => 0,
    }
}

/// The place of the plug-in of this name.
fn find_plugin(config: &Config, name: &str) -> Option<usize>
    ensures first { result ≡ position (λ plugin. bytes_eq plugin.name name.now) config.now.plugins }
    ensures within { IfSome result (λ place. place < length config.now.plugins) }
{
    config
        .plugins
        .as_slice()
        .iter()
        .position(|plugin| plugin.name.as_str() == name)
}
