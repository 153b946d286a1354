// The lists of a configuration.
use gate_base::{Members, Octets, Text, VmNo};
use wasm_syntax::ValidModule;

/// One VM: an instance of a module in each worker.
#[derive(Drop)]
pub struct VmEntry {
    /// The name, of at most 32 bytes, which no other VM has.
    pub name: Text,
    /// The path of the module's file.
    pub module: Text,
    /// The bytes that the VM is given when it starts, at most 65,536.
    pub configuration: Octets,
    /// The fuel of one callback, 1 to 10^12.
    pub fuel: u64,
    /// The pages that its memory may have, 1 to 256.
    pub pages: u32,
    /// The module of the file, once it was read and validated.
    pub code: Option<ValidModule>,
}

/// One plug-in: a filter that a VM runs.
#[derive(Drop)]
pub struct PluginEntry {
    /// The name, of at most 32 bytes, which no other plug-in has.
    pub name: Text,
    /// The VM that runs it.
    pub vm: VmNo,
    /// The bytes that the plug-in is given when it starts, at most 65,536.
    pub configuration: Octets,
    /// Whether messages pass it once its VM is dead. They are answered 503 where they do not.
    pub fail_open: bool,
}

/// One route: the filters of the requests whose path matches.
#[derive(Drop)]
pub struct RouteEntry {
    /// The path, as `matchit` reads it.
    pub path: Text,
    /// The plug-ins by their places, in order, at most 16 and each once.
    pub filters: PluginNos,
}

/// A list of VMs.
pub type VmList = Members<VmEntry>;

/// A list of plug-ins.
pub type PluginList = Members<PluginEntry>;

/// A list of routes.
pub type RouteList = Members<RouteEntry>;

/// A list of plug-ins by their places.
pub type PluginNos = Members<u16>;
