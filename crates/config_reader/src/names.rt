// Lists of names.
ghost use Rattle.std.specs.Prelude.{◌≡◌, map, bytes_eq};
ghost use Rattle.std.specs.List.{list_all, list_any};
ghost use Rattle.toml.specs.Data.{as_array, as_str};
ghost use Rattle.toml.specs.View.{view};
ghost use Rattle.gate_config.specs.Given.{given};
ghost use Rattle.config_reader.specs.Judge.{filters_fault, is_a_name, is_among, names_fault, repeats, streams_fault, streams_form, tcp_fault, text_of};
ghost use Rattle.config_names.specs.Names.{has_plugin};

use crate::values::{name_in, text_in};
use config_names::has_plugin;
use gate_config::Config;
use toml::Value;

/// Why a value is no list of filters.
pub(crate) fn filters_fault(config: &Config, value: &Value) -> Option<u8>
    ensures { result ≡ filters_fault (given config.now) (as_array (view value.now)) }
{
    match value.as_array() {
        Some(items) => names_fault(config, items.as_slice()),
        None => Some(4),
    }
}

/// Why values are no list of filters: one is no name, they are too many, one comes twice, or one is the name of no plug-in.
fn names_fault(config: &Config, items: &[Value]) -> Option<u8>
    ensures { result ≡ names_fault (given config.now) (map view items.now) }
{
    if !are_names(items) {
        return Some(4);
    }
    if items.len() > 16 {
        return Some(7);
    }
    if repeats(items) {
        return Some(8);
    }
    if !are_plugins(config, items) {
        return Some(5);
    }
    None
}

/// Why a value is none of the plug-ins of streams, whether or not there are routes.
pub(crate) fn tcp_fault(has_routes: bool, value: &Value) -> Option<u8>
    ensures { result ≡ tcp_fault has_routes (as_array (view value.now)) }
{
    if has_routes {
        Some(4)
    } else {
        streams_fault(value)
    }
}

/// Why a value is no list of names of the plug-ins of streams.
fn streams_fault(value: &Value) -> Option<u8>
    ensures { result ≡ streams_fault (as_array (view value.now)) }
{
    match value.as_array() {
        Some(items) => streams_form(items.as_slice()),
        None => Some(4),
    }
}

/// Why values are no list of names: there is none, one is no name, they are too many, or one comes twice.
fn streams_form(items: &[Value]) -> Option<u8>
    ensures { result ≡ streams_form (map view items.now) }
{
    if !are_names(items) {
        return Some(4);
    }
    if items.len() < 1 {
        return Some(4);
    }
    if 16 < items.len() {
        return Some(7);
    }
    if repeats(items) {
        return Some(8);
    }
    None
}

/// Whether all values are names.
fn are_names(items: &[Value]) -> bool
    ensures { result ≡ list_all is_a_name (map view items.now) }
{
    each_is_a_name(items)
}

/// The same, said of the values themselves.
fn each_is_a_name(items: &[Value]) -> bool
    ensures { result ≡ list_all (λ v. is_a_name (view v)) items.now }
{
    items.iter().all(|item| is_a_name(item))
}

/// Whether a value is a name.
fn is_a_name(item: &Value) -> bool
    ensures { result ≡ is_a_name (view item.now) }
{
    match name_in(item) {
        Some(_) => true,
        None => false,
    }
}

/// Whether one of the names comes twice.
fn repeats(items: &[Value]) -> bool
    ensures { result ≡ repeats (map view items.now) }
{
    for (place, item) in items.iter().enumerate() {
        if is_among(item, &items[place + 1..]) {
            return true;
        }
    }
    false
}

/// Whether a name is among these.
fn is_among(item: &Value, others: &[Value]) -> bool
    ensures { result ≡ is_among (view item.now) (map view others.now) }
{
    is_one_of(text_in(item), others)
}

/// The same, said of the values themselves.
fn is_one_of(name: &str, others: &[Value]) -> bool
    ensures { result ≡ list_any (λ v. bytes_eq (text_of (view v)) name.now) others.now }
{
    others.iter().any(|other| text_in(other) == name)
}

/// Whether all values are names of plug-ins.
pub(crate) fn are_plugins(config: &Config, items: &[Value]) -> bool
    ensures { result ≡ list_all (λ d. has_plugin (given config.now) (text_of d)) (map view items.now) }
{
    each_is_a_plugin(config, items)
}

/// The same, said of the values themselves.
fn each_is_a_plugin(config: &Config, items: &[Value]) -> bool
    ensures { result ≡ list_all (λ v. has_plugin (given config.now) (text_of (view v))) items.now }
{
    items.iter().all(|item| has_plugin(config, text_in(item)))
}
