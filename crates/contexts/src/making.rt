// The contexts of a worker are made, before any context is drawn.
ghost use Rattle.std.specs.Prelude.{◌≡◌, [], ◌∷◌, ◌++◌, ◌<◌, length, OnOk, OnErr};
ghost use Rattle.contexts.specs.Making.{no_contexts, with_vm, with_plugin};

use crate::{Calls, Configuration, Contexts, Plugin, Roster, ShortName, VmContexts};
use gate_base::{ContextId, Level, Members, OutOfMemory, VmNo};
use std::alloc::Global;

impl Contexts {
    /// No VMs and no plug-ins. `level` is the least that is logged, `key` that of the random stream. It takes no memory.
    pub fn new(alloc: Global, level: Level, key: [u8; 32]) -> Self
        ensures { result ≡ no_contexts level key }
    {
        Contexts {
            level,
            plugins: Members::new(alloc),
            vms: Members::new(alloc),
            exchanges: Members::new(alloc),
            effects: Members::new(alloc),
            random_key: key,
            random_place: 0,
            calls: Calls {
                under_way: 0,
                last: 0,
            },
            is_tcp: false,
        }
    }

    /// Adds a VM after the others.
    pub fn add_vm(
        &mut self,
        alloc: Global,
        name: ShortName,
        configuration: Configuration,
    ) -> Result<(), OutOfMemory>
        ensures ok { OnOk result (self.new ≡ with_vm name configuration self.old) }
        ensures err { OnErr result (self.new ≡ self.old) }
    {
        self.vms.push(VmContexts {
            name,
            configuration,
            effective: ContextId::new(0),
            last: ContextId::new(0),
            waiting: Roster::new(alloc),
            contexts: Roster::new(alloc),
        })
    }

    /// Adds a plug-in of a VM after the others.
    pub fn add_plugin(
        &mut self,
        vm: VmNo,
        name: ShortName,
        configuration: Configuration,
    ) -> Result<(), OutOfMemory>
        ensures ok { OnOk result (self.new ≡ with_plugin vm name configuration self.old) }
        ensures err { OnErr result (self.new ≡ self.old) }
    {
        self.plugins.push(Plugin {
            name,
            configuration,
            vm,
            root: None,
        })
    }
}
