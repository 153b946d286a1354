// Why a table is refused: the first of its keys that is.
ghost use Rattle.std.specs.Prelude.{◌≡◌, IfOk, option_map, map, not, bytes_eq};
ghost use Rattle.std.specs.List.{list_any};
ghost use Rattle.toml.specs.Data.{as_integer, as_str};
ghost use Rattle.toml.specs.View.{view, table_view};
ghost use Rattle.gate_config.specs.Given.{given};
ghost use Rattle.config_reader.specs.Judge.{natural, number_fault, text_fault, address_fault, level_fault, choice_fault, name_fault, path_fault, value_fault, missing_fault, fault_of, first_fault, is_key, unknown_key, table_fault};
ghost use Rattle.config_names.specs.Names.{has_vm, has_plugin};
ghost use Rattle.config_reader.specs.Rows.{absence_of, row_of};

use crate::address::is_address;
use crate::keys::{Absent, Key, KeyKind};
use crate::names::{filters_fault, tcp_fault};
use crate::values::{member, name_in, natural};
use crate::words::level_of;
use config_names::{has_plugin, has_vm};
use gate_base::OutOfMemory;
use gate_config::Config;
use toml::{Table, Value};

/// Why a value is refused, beside what was read before it.
fn value_fault(kind: KeyKind, config: &Config, value: &Value) -> Result<Option<u8>, OutOfMemory>
    ensures { IfOk result (λ fault. fault ≡ value_fault kind (given config.now) (view value.now)) }
{
    match kind {
        KeyKind::Number { least, most } => Ok(number_fault(least, most, value)),
        KeyKind::Text { least, most } => Ok(text_fault(least, most, value)),
        KeyKind::Address => Ok(address_fault(value)),
        KeyKind::Level => Ok(level_fault(value)),
        KeyKind::OpenOrClosed => Ok(choice_fault(value)),
        KeyKind::NewVm => Ok(new_vm_fault(config, value)),
        KeyKind::NewPlugin => Ok(new_plugin_fault(config, value)),
        KeyKind::SomeVm => Ok(some_vm_fault(config, value)),
        KeyKind::Path => path_fault(config, value),
        KeyKind::Filters => Ok(filters_fault(config, value)),
        KeyKind::Streams { has_routes } => Ok(tcp_fault(has_routes, value)),
        KeyKind::Tables => Ok(None),
    }
}

/// Why a value is no number within bounds.
fn number_fault(least: u64, most: u64, value: &Value) -> Option<u8>
    ensures { result ≡ number_fault least most (natural (as_integer (view value.now))) }
{
    match natural(value) {
        Some(n) => {
            if least <= n && n <= most {
                None
            } else {
                Some(4)
            }
        }
        None => Some(4),
    }
}

/// Why a value is no text of so many bytes.
fn text_fault(least: usize, most: usize, value: &Value) -> Option<u8>
    ensures { result ≡ text_fault least most (as_str (view value.now)) }
{
    match value.as_str() {
        Some(s) => {
            if least <= s.len() && s.len() <= most {
                None
            } else {
                Some(4)
            }
        }
        None => Some(4),
    }
}

/// Why a value is no address.
fn address_fault(value: &Value) -> Option<u8>
    ensures { result ≡ address_fault (as_str (view value.now)) }
{
    match value.as_str() {
        Some(s) => {
            if is_address(s.as_bytes()) {
                None
            } else {
                Some(4)
            }
        }
        None => Some(4),
    }
}

/// Why a value is no word of a level.
fn level_fault(value: &Value) -> Option<u8>
    ensures { result ≡ level_fault (as_str (view value.now)) }
{
    match value.as_str() {
        Some(s) => { if level_of(s).is_some() { None } else { Some(4) } }
        None => Some(4),
    }
}

/// Why a value is neither `closed` nor `open`.
fn choice_fault(value: &Value) -> Option<u8>
    ensures { result ≡ choice_fault (as_str (view value.now)) }
{
    match value.as_str() {
        Some(s) => {
            if s == "closed" || s == "open" {
                None
            } else {
                Some(4)
            }
        }
        None => Some(4),
    }
}

/// Why a value is no name of a new VM.
fn new_vm_fault(config: &Config, value: &Value) -> Option<u8>
    ensures { result ≡ name_fault 8 (has_vm (given config.now)) (as_str (view value.now)) }
{
    match name_in(value) {
        Some(s) => { if has_vm(config, s) { Some(8) } else { None } }
        None => Some(4),
    }
}

/// Why a value is no name of a new plug-in.
fn new_plugin_fault(config: &Config, value: &Value) -> Option<u8>
    ensures { result ≡ name_fault 8 (has_plugin (given config.now)) (as_str (view value.now)) }
{
    match name_in(value) {
        Some(s) => { if has_plugin(config, s) { Some(8) } else { None } }
        None => Some(4),
    }
}

/// Why a value is no name of a VM.
fn some_vm_fault(config: &Config, value: &Value) -> Option<u8>
    ensures { result ≡ name_fault 5 (λ s. not (has_vm (given config.now) s)) (as_str (view value.now)) }
{
    match name_in(value) {
        Some(s) => { if has_vm(config, s) { None } else { Some(5) } }
        None => Some(4),
    }
}

/// Why a value is no path of one more route.
fn path_fault(config: &Config, value: &Value) -> Result<Option<u8>, OutOfMemory>
    ensures { IfOk result (λ fault. fault ≡ path_fault (given config.now) (as_str (view value.now))) }
{
    match value.as_str() {
        Some(s) => {
            if config.path_fits(s)? {
                Ok(None)
            } else {
                Ok(Some(6))
            }
        }
        None => Ok(Some(4)),
    }
}

/// Why a key may not be missing.
fn missing_fault(absent: Absent) -> Option<u8>
    ensures { result ≡ missing_fault (absence_of absent) }
{
    match absent {
        Absent::Refused => Some(2),
        Absent::Number { .. } | Absent::Text { .. } | Absent::NoNames => None,
    }
}

/// Why a key of a table is refused.
fn fault_of(key: &Key, config: &Config, table: &Table) -> Result<Option<u8>, OutOfMemory>
    ensures { IfOk result (λ fault. fault ≡ fault_of (row_of key.now) (given config.now) (table_view table.now)) }
{
    match member(table, key.name) {
        Some(value) => value_fault(key.kind, config, value),
        None => Ok(missing_fault(key.absent)),
    }
}

/// The first refusal of these keys, with the key's name.
fn first_fault(
    keys: &[Key],
    config: &Config,
    table: &Table,
) -> Result<Option<(u8, &'static str)>, OutOfMemory>
    ensures { IfOk result (λ fault. option_map (λ f. (f.0, f.1.now)) fault ≡ first_fault (map row_of keys.now) (given config.now) (table_view table.now)) }
{
    for key in keys {
        if let Some(number) = fault_of(key, config, table)? {
            return Ok(Some((number, key.name)));
        }
    }
    Ok(None)
}

/// Whether a name is one of these keys.
fn is_key(keys: &[Key], name: &str) -> bool
    ensures { result ≡ is_key (map row_of keys.now) name.now }
{
    has_name(keys, name)
}

/// The same, said of the keys themselves.
fn has_name(keys: &[Key], name: &str) -> bool
    ensures { result ≡ list_any (λ key. bytes_eq key.name.now name.now) keys.now }
{
    keys.iter().any(|key| key.name == name)
}

/// The least key of the table that is none of these.
pub(crate) fn unknown_key<'a>(keys: &[Key], table: &'a Table) -> Option<&'a str>
    ensures { option_map (λ s. s.now) result ≡ unknown_key (map row_of keys.now) (table_view table.now) }
{
    'members: for (name, _value) in table.iter() {
        if !is_key(keys, name.as_str()) {
            return Some(name.as_str());
        }
    }
    None
}

/// The first refusal of a table, with the key's name.
pub(crate) fn table_fault<'a>(
    keys: &[Key],
    config: &Config,
    table: &'a Table,
) -> Result<Option<(u8, &'a str)>, OutOfMemory>
    ensures { IfOk result (λ fault. option_map (λ f. (f.0, f.1.now)) fault ≡ table_fault (map row_of keys.now) (given config.now) (table_view table.now)) }
{
    match unknown_key(keys, table) {
        Some(key) => Ok(Some((3, key))),
        None => first_fault(keys, config, table),
    }
}
