//! What an imported function is.

ghost use Rattle.std.specs.Prelude.{◌≡◌, bytes_eq, codes, nat_eq};
ghost use Rattle.std.specs.List.{starts_with};
ghost use Rattle.abi_links.specs.Judging.{other_named as other_of, env_target as env_of, wasi_target as wasi_of, is_wasi as is_wasi_of, target_of};

use abi_model::{HostCall, WasiCall, call_named, wasi_call_named};

/// What a name that a module imports stands for.
#[derive(Clone, Copy)]
pub enum ImportTarget {
    /// A call of the table of host calls.
    Proxy(HostCall),
    /// Another call whose name begins with `proxy_`: it answers that it is not implemented.
    OtherProxy,
    /// `emscripten_notify_memory_growth`, which does nothing.
    MemoryGrowth,
    /// A call of the table of WASI.
    Wasi(WasiCall),
    /// Another call of a WASI module: it answers that there is no such call.
    OtherWasi,
}

/// What a name of the module `env` stands for that is none of the table's.
fn other_named(name: &[u8]) -> Option<ImportTarget>
    ensures { result ≡ other_of name.now }
{
    if name == b"emscripten_notify_memory_growth".as_slice() {
        Some(ImportTarget::MemoryGrowth)
    } else if name.starts_with(b"proxy_") {
        Some(ImportTarget::OtherProxy)
    } else {
        None
    }
}

/// What a name of the module `env` stands for.
fn env_target(name: &[u8]) -> Option<ImportTarget>
    ensures { result ≡ env_of name.now }
{
    match call_named(name) {
        Some(call) => Some(ImportTarget::Proxy(call)),
        None => other_named(name),
    }
}

/// What a name of a WASI module stands for.
fn wasi_target(name: &[u8]) -> Option<ImportTarget>
    ensures { result ≡ wasi_of name.now }
{
    match wasi_call_named(name) {
        Some(call) => Some(ImportTarget::Wasi(call)),
        None => Some(ImportTarget::OtherWasi),
    }
}

/// Whether that is the name of a WASI module.
fn is_wasi(home: &[u8]) -> bool
    ensures { result ≡ is_wasi_of home.now }
{
    home == b"wasi_snapshot_preview1".as_slice() || home == b"wasi_unstable".as_slice()
}

/// What a name that is imported from a module stands for (the profile's tables of host calls and of WASI), and none
/// where the host has nothing of that name.
#[tactic(auto, unfolding(crate::specs::Judging::target_of))]
pub fn target_named(home: &[u8], name: &[u8]) -> Option<ImportTarget>
    ensures { result ≡ target_of home.now name.now }
{
    if home == b"env".as_slice() {
        env_target(name)
    } else if is_wasi(home) {
        wasi_target(name)
    } else {
        None
    }
}
