//! The plain configuration and its routes.

ghost use Rattle.std.specs.List.{list_all};
ghost use Rattle.std.specs.Prelude.{◌≡◌, nat_lt};

use gate_base::OutOfMemory;
use gate_config::Config;
use std::alloc::Global;
use test_rows::{number, word};

/// The plain configuration of the number of VMs that a word has.
fn config_of(alloc: Global, word: &str) -> Result<Config, OutOfMemory> {
    Config::plain(alloc, number(word).min(16) as u8)
}

/// How much a configuration has, and the name of the last plug-in.
fn counts(alloc: Global, config: &Config) -> Result<String, OutOfMemory> {
    let vms = config.vms.len();
    let plugins = config.plugins.len();
    let last = match config.plugins.as_slice().last() {
        Some(plugin) => plugin.name.as_str(),
        None => "none",
    };
    format!(in alloc; "{vms} VMs, {plugins} plug-ins, the last {last}")
}

/// `plain N`: how many VMs and plug-ins the plain configuration of so many VMs has, and the name of the last plug-in.
pub fn plain(alloc: Global, words: &str) -> Result<String, OutOfMemory> {
    let config = config_of(alloc, words)?;
    counts(alloc, &config)
}

/// Whether all bytes are ASCII.
fn is_ascii(bytes: &[u8]) -> bool
    ensures { result ≡ list_all (λ b. nat_lt b 128) bytes.now }
{
    bytes.iter().all(|b| *b < 128)
}

/// The place of a path's route.
fn place(config: &Config, path: &[u8]) -> Option<u16> {
    if is_ascii(path) {
        config.route(path)
    } else {
        None
    }
}

/// The place of a path's route in the plain configuration of the number of VMs that a word has.
fn place_in(alloc: Global, vms: &str, path: &str) -> Result<Option<u16>, OutOfMemory> {
    let config = config_of(alloc, vms)?;
    Ok(place(&config, path.as_bytes()))
}

/// `route N PATH`: the place of the route that a path matches in the plain configuration of so many VMs.
pub fn routed(alloc: Global, words: &str) -> Result<String, OutOfMemory> {
    let (vms, path) = word(words);
    match place_in(alloc, vms, path)? {
        Some(place) => format!(in alloc; "{place}"),
        None => String::from_str(alloc, "none"),
    }
}
