// What of the effective context the calls here read.
ghost use Rattle.std.specs.Prelude.{◌≡◌, ◌≤◌, ◌<◌, ◌==◌, length, option_copied, slice_get};
ghost use Rattle.contexts.specs.Keyed.{first_of_number};
ghost use Rattle.contexts.specs.Reached.{seen, vm_in, context_no};

use contexts::{Context, Contexts, Plugin};
use gate_base::{ContextId, VmNo};

/// The configuration of a VM.
pub(crate) fn vm_configuration(contexts: &Contexts, vm: VmNo) -> &[u8]
    requires { vm < length contexts.now.vms }
    ensures bytes { result.now ≡ (seen contexts.now vm).reach.vm_configuration }
    ensures short { length result.now ≤ 65536 }
{
    contexts.vms.get(vm.get() as usize).configuration.as_slice()
}

/// The context of an id.
fn context_at(contexts: &[Context], id: ContextId) -> Option<&Context>
    ensures { option_copied result ≡ first_of_number context_no id contexts.now }
{
    contexts.iter().find(|c| c.id == id)
}

/// The plug-in at a place.
fn plugin_at(plugins: &[Plugin], place: u16) -> Option<&Plugin>
    ensures { option_copied result ≡ slice_get plugins.now place }
{
    plugins.get(place as usize)
}

/// The plug-in of the effective context.
pub(crate) fn plugin(contexts: &Contexts, vm: VmNo) -> Option<&Plugin>
    requires { vm < length contexts.now.vms }
    ensures { option_copied result ≡ (seen contexts.now vm).reach.plugin }
{
    let id = contexts.effective(vm);
    let own = contexts.vms.get(vm.get() as usize);
    match context_at(own.contexts.as_slice(), id) {
        Some(c) => plugin_at(contexts.plugins.as_slice(), c.plugin),
        None => None,
    }
}
