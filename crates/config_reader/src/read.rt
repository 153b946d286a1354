// A configuration from a text.
ghost use Rattle.std.specs.Prelude.{◌≡◌, ◌≤◌, ◌<◌, ◌++◌, [], IfOk, IfErr, OnOk, None, Some, Ok, Err, ℕ, string_bytes, length, map, codes, true, is_some, option_map};
ghost use Rattle.std.specs.List.{list_all};
ghost use Rattle.toml.specs.Data.{as_array, as_table, no_members};
ghost use Rattle.toml.specs.View.{view, table_view};
ghost use Rattle.gate_config.specs.Given.{given};
ghost use Rattle.config_reader.specs.Judge.{table_fault, number_at, places_in};
ghost use Rattle.config_reader.specs.Rows.{gateway_keys, workers, deadline_ms};
ghost use Rattle.config_reader.specs.Whole.{Answers, Ends, Judged, Refuses, and_then, config_of, given_with_entry, entry_front, gateway_at, gateway_of, has_routes, judge, judge_array, judge_arrays, judge_entries, judge_gateway, judge_items, judge_list, judge_names, judge_streams, judge_tcp, keys_of, length_of, level_at, most_of, routes_in, tcp_at, tcp_in, unless, with_tcp};

use crate::checks::{table_fault, unknown_key};
use crate::entries::{add_entry, places_in};
use crate::keys::{DEADLINE_MS, LISTEN, LOG_LEVEL, UPSTREAM, WORKERS, gateway_keys, top_keys};
use crate::names::are_plugins;
use crate::section::TableArray;
use crate::values::{member, number_at, text_at};
use crate::words::level_of;
use gate_base::{Level, OutOfMemory, Text};
use gate_config::Config;
use itoa::Buffer;
use std::alloc::Global;
use toml::{Table, Value};

/// How many bytes a configuration has at most: 1 MiB.
const MAX_CONFIG: usize = 1048576;

/// Why a text gives no configuration.
#[derive(Drop)]
pub enum ConfigEnd {
    /// It is refused, with this number, 1 to 8, at this key.
    Refused { number: u8, key: Text },
    /// Memory ran out.
    OutOfMemory,
}

/// The configuration of a text, or its first refusal.
pub fn read_config(alloc: Global, text: &[u8]) -> Result<Config, ConfigEnd>
    ensures { Answers (config_of text.now) result }
{
    if text.len() > MAX_CONFIG {
        return Err(refuse(alloc, 7, "", "-"));
    }
    let Ok(text) = std::str::from_utf8(text) else {
        return Err(refuse(alloc, 1, "", "-"));
    };
    match toml::table_from_str(alloc, text) {
        Ok(table) => read_tables(alloc, &table),
        Err(e) => {
            if e.is_memory() {
                Err(ConfigEnd::OutOfMemory)
            } else {
                Err(refuse(alloc, 1, "", "-"))
            }
        }
    }
}

/// Reads the tables at the top.
fn read_tables(alloc: Global, table: &Table) -> Result<Config, ConfigEnd>
    ensures { Answers (judge (Some (table_view table.now))) result }
{
    if let Some(key) = unknown_key(top_keys(), table) {
        return Err(refuse(alloc, 3, "", key));
    }
    let mut config = match read_gateway_at(alloc, table) {
        Ok(config) => config,
        Err(end) => return Err(end),
    };
    match read_after_gateway(alloc, table, &mut config) {
        Ok(()) => Ok(config),
        Err(end) => {
            drop(config);
            Err(end)
        }
    }
}

/// Reads `gateway`, where it is there.
fn read_gateway_at(alloc: Global, table: &Table) -> Result<Config, ConfigEnd>
    ensures { Answers (gateway_at (table_view table.now)) result }
{
    let routes = has_routes(table);
    match member(table, "gateway") {
        Some(value) => match value.as_table() {
            Some(gateway) => read_gateway(alloc, routes, gateway),
            None => Err(refuse(alloc, 4, "", "gateway")),
        },
        None => read_gateway(alloc, routes, &Table::new(alloc)),
    }
}

/// Whether there is a `[[route]]`.
fn has_routes(table: &Table) -> bool
    ensures { result ≡ has_routes (table_view table.now) }
{
    match member(table, "route") {
        Some(value) => has_entries(value),
        None => false,
    }
}

/// Whether a value is an array with an entry.
fn has_entries(value: &Value) -> bool
    ensures { result ≡ routes_in (Some (as_array (view value.now))) }
{
    match value.as_array() {
        Some(items) => items.as_slice().len() > 0,
        None => false,
    }
}

/// Reads the table `gateway`, whether or not there are routes.
fn read_gateway(alloc: Global, routes: bool, table: &Table) -> Result<Config, ConfigEnd>
    ensures { Answers (judge_gateway routes (table_view table.now)) result }
{
    let Ok(fault) = gateway_fault(alloc, routes, table) else {
        return Err(ConfigEnd::OutOfMemory);
    };
    if let Some((number, key)) = fault {
        return Err(refuse(alloc, number, "gateway.", key));
    }
    match gateway_of(alloc, table) {
        Ok(config) => Ok(config),
        Err(_) => Err(ConfigEnd::OutOfMemory),
    }
}

/// The first refusal of the table `gateway`, with the key's name.
fn gateway_fault<'a>(
    alloc: Global,
    routes: bool,
    table: &'a Table,
) -> Result<Option<(u8, &'a str)>, OutOfMemory>
    ensures { IfOk result (λ fault. option_map (λ f. (f.0, f.1.now)) fault ≡ table_fault (gateway_keys routes) (gateway_of no_members) (table_view table.now)) }
{
    let bare = bare_config(alloc)?;
    let fault = table_fault(gateway_keys(routes), &bare, table);
    drop(bare);
    fault
}

/// The configuration of a table `gateway` without keys.
fn bare_config(alloc: Global) -> Result<Config, OutOfMemory>
    ensures { IfOk result (λ c. given c ≡ gateway_of no_members) }
{
    gateway_of(alloc, &Table::new(alloc))
}

/// The configuration of a table `gateway`, without VMs, plug-ins and routes.
fn gateway_of(alloc: Global, table: &Table) -> Result<Config, OutOfMemory>
    requires workers { (1 ≤ number_at workers (table_view table.now)) × (number_at workers (table_view table.now) ≤ 8) }
    requires deadline { number_at deadline_ms (table_view table.now) ≤ 3600000 }
    ensures { IfOk result (λ c. given c ≡ gateway_of (table_view table.now)) }
{
    let listen = Text::of(alloc, text_at(&LISTEN, table))?;
    let upstream = Text::of(alloc, text_at(&UPSTREAM, table))?;
    Ok(Config::new(
        alloc,
        number_at(&WORKERS, table) as u8,
        listen,
        upstream,
        number_at(&DEADLINE_MS, table) as u32,
        level_at(table),
    ))
}

/// The level of a table `gateway`.
fn level_at(table: &Table) -> Level
    ensures { result ≡ level_at (table_view table.now) }
{
    level_of(text_at(&LOG_LEVEL, table)).unwrap_or(Level::Info)
}

/// Reads the arrays, where they are there, and then the plug-ins of streams, into a configuration that has no entries yet.
fn read_after_gateway(alloc: Global, table: &Table, config: &mut Config) -> Result<(), ConfigEnd>
    requires vms { config.old.vms ≡ [] }
    requires plugins { config.old.plugins ≡ [] }
    requires routes { config.old.routes ≡ [] }
    ensures { Ends (and_then (judge_arrays (table_view table.now) (given config.old)) (judge_tcp (table_view table.now))) result (given config.new) }
{
    match read_arrays(alloc, table, config) {
        Ok(()) => read_tcp(alloc, table, config),
        Err(end) => Err(end),
    }
}

/// Reads `tcp` of `gateway`, where it is there.
fn read_tcp(alloc: Global, table: &Table, config: &mut Config) -> Result<(), ConfigEnd>
    ensures { Ends (judge_tcp (table_view table.now) (given config.old)) result (given config.new) }
{
    match tcp_at(table) {
        Some(value) => read_streams(alloc, value, config),
        None => Ok(()),
    }
}

/// What stands at `tcp` of `gateway`.
fn tcp_at(table: &Table) -> Option<&Value>
    ensures { option_map (λ v. view v.now) result ≡ tcp_at (table_view table.now) }
{
    match member(table, "gateway") {
        Some(value) => tcp_in(value),
        None => None,
    }
}

/// What stands at `tcp` of a value, if that is a table.
fn tcp_in(value: &Value) -> Option<&Value>
    ensures { option_map (λ v. view v.now) result ≡ tcp_in (Some (as_table (view value.now))) }
{
    match value.as_table() {
        Some(gateway) => member(gateway, "tcp"),
        None => None,
    }
}

/// Reads a value as the names of the plug-ins of streams.
fn read_streams(alloc: Global, value: &Value, config: &mut Config) -> Result<(), ConfigEnd>
    ensures { Ends (judge_streams (given config.old) (as_array (view value.now))) result (given config.new) }
{
    let Some(items) = value.as_array() else {
        return Err(refuse(alloc, 4, "", "gateway.tcp"));
    };
    read_names(alloc, items.as_slice(), config)
}

/// Reads the names of the plug-ins of streams: plug-ins have them.
fn read_names(alloc: Global, items: &[Value], config: &mut Config) -> Result<(), ConfigEnd>
    ensures { Ends (judge_names (given config.old) (map view items.now)) result (given config.new) }
{
    if !are_plugins(config, items) {
        return Err(refuse(alloc, 5, "", "gateway.tcp"));
    }
    set_streams(alloc, items, config)
}

/// The plug-ins of these names are those of streams.
#[tactic(auto, using(crate::proofs::Stepping::places_seen))]
fn set_streams(alloc: Global, items: &[Value], config: &mut Config) -> Result<(), ConfigEnd>
    ensures { Ends (Ok (with_tcp (places_in (given config.old) (map view items.now)) (given config.old))) result (given config.new) }
{
    match places_in(alloc, config, items) {
        Ok(places) => {
            config.tcp = places;
            Ok(())
        }
        Err(_) => Err(ConfigEnd::OutOfMemory),
    }
}

/// Reads the arrays, where they are there, into a configuration that has no entries yet.
fn read_arrays(alloc: Global, table: &Table, config: &mut Config) -> Result<(), ConfigEnd>
    requires vms { config.old.vms ≡ [] }
    requires plugins { config.old.plugins ≡ [] }
    requires routes { config.old.routes ≡ [] }
    ensures { Ends (judge_arrays (table_view table.now) (given config.old)) result (given config.new) }
{
    match read_array(alloc, TableArray::Vm, table, config) {
        Ok(()) => read_filters(alloc, table, config),
        Err(end) => Err(end),
    }
}

/// Reads the plug-ins and then the routes, where they are there.
fn read_filters(alloc: Global, table: &Table, config: &mut Config) -> Result<(), ConfigEnd>
    requires plugins { config.old.plugins ≡ [] }
    requires routes { config.old.routes ≡ [] }
    ensures { Ends (and_then (judge_array TableArray.Plugin (table_view table.now) (given config.old)) (judge_array TableArray.Route (table_view table.now))) result (given config.new) }
{
    match read_array(alloc, TableArray::Plugin, table, config) {
        Ok(()) => read_array(alloc, TableArray::Route, table, config),
        Err(end) => Err(end),
    }
}

/// Reads an array of the top table, where it is there.
fn read_array(
    alloc: Global,
    section: TableArray,
    table: &Table,
    config: &mut Config,
) -> Result<(), ConfigEnd>
    requires { length_of section (given config.old) ≡ 0 }
    ensures { Ends (judge_array section (table_view table.now) (given config.old)) result (given config.new) }
{
    match member(table, section.name()) {
        Some(value) => read_list(alloc, section, value, config),
        None => Ok(()),
    }
}

/// Reads a value as an array.
fn read_list(
    alloc: Global,
    section: TableArray,
    value: &Value,
    config: &mut Config,
) -> Result<(), ConfigEnd>
    requires { length_of section (given config.old) ≡ 0 }
    ensures { Ends (judge_list section (given config.old) (as_array (view value.now))) result (given config.new) }
{
    let Some(items) = value.as_array() else {
        return Err(refuse(alloc, 4, "", section.name()));
    };
    read_items(alloc, section, items.as_slice(), config)
}

/// Reads the members of an array: first their form and their count.
fn read_items(
    alloc: Global,
    section: TableArray,
    items: &[Value],
    config: &mut Config,
) -> Result<(), ConfigEnd>
    requires { length_of section (given config.old) ≡ 0 }
    ensures { Ends (judge_items section (given config.old) (map view items.now)) result (given config.new) }
{
    if !are_tables(items) {
        return Err(refuse(alloc, 4, "", section.name()));
    }
    if items.len() > section.most() {
        return Err(refuse(alloc, 7, "", section.name()));
    }
    read_entries(alloc, section, items, config)
}

/// Whether all of these are tables.
fn are_tables(items: &[Value]) -> bool
    ensures { result ≡ list_all (λ d. is_some (as_table d)) (map view items.now) }
{
    each_is_table(items)
}

/// The same, said of the values themselves.
fn each_is_table(items: &[Value]) -> bool
    ensures { result ≡ list_all (λ v. is_some (as_table (view v))) items.now }
{
    items.iter().all(|item| item.is_table())
}

/// Reads the entries of an array, which are tables.
fn read_entries(
    alloc: Global,
    section: TableArray,
    items: &[Value],
    config: &mut Config,
) -> Result<(), ConfigEnd>
    requires tables { list_all (λ d. is_some (as_table d)) (map view items.now) ≡ true }
    requires count { length items.now ≤ most_of section }
    requires none { length_of section (given config.old) ≡ 0 }
    ensures { Ends (judge_entries section 0 (map view items.now) (given config.old)) result (given config.new) }
{
    for (place, item) in items.iter().enumerate() {
        let Some(table) = item.as_table() else {
            unreachable!()
        };
        match read_entry(alloc, section, place, table, config) {
            Ok(()) => (),
            Err(end) => return Err(end),
        }
    }
    Ok(())
}

/// Reads one entry.
fn read_entry(
    alloc: Global,
    section: TableArray,
    place: usize,
    table: &Table,
    config: &mut Config,
) -> Result<(), ConfigEnd>
    requires { length_of section (given config.old) < most_of section }
    ensures good { OnOk result (table_fault (keys_of section) (given config.old) (table_view table.now) ≡ None) }
    ensures ok { OnOk result (given config.new ≡ given_with_entry section (table_view table.now) (given config.old)) }
    ensures err { IfErr result (λ e. (judged : Judged) → Ends (unless (entry_front section place) (table_fault (keys_of section) (given config.old) (table_view table.now)) judged) (Err e) (given config.new)) }
{
    let Ok(fault) = table_fault(section.keys(), config, table) else {
        return Err(ConfigEnd::OutOfMemory);
    };
    if let Some((number, key)) = fault {
        return Err(refuse_entry(alloc, section, place, number, key));
    }
    match add_entry(alloc, section, table, config) {
        Ok(()) => Ok(()),
        Err(_) => Err(ConfigEnd::OutOfMemory),
    }
}

/// A refusal at a key of an entry.
fn refuse_entry(
    alloc: Global,
    section: TableArray,
    place: usize,
    number: u8,
    key: &str,
) -> ConfigEnd
    ensures { Refuses number (entry_front section place ++ key.now) result }
{
    match entry_front(alloc, section, place) {
        Ok(front) => refuse(alloc, number, front.as_str(), key),
        Err(_) => ConfigEnd::OutOfMemory,
    }
}

/// What stands before a key of an entry.
fn entry_front(alloc: Global, section: TableArray, place: usize) -> Result<String, OutOfMemory>
    ensures { IfOk result (λ s. string_bytes s ≡ entry_front section place) }
{
    let mut text = String::from_str(alloc, section.name())?;
    text.push_str(".")?;
    text.push_str(Buffer::new().format(place))?;
    text.push_str(".")?;
    Ok(text)
}

/// A refusal at a key.
fn refuse(alloc: Global, number: u8, front: &str, key: &str) -> ConfigEnd
    ensures { Refuses number (front.now ++ key.now) result }
{
    match joined(alloc, front, key) {
        Ok(key) => ConfigEnd::Refused { number, key },
        Err(_) => ConfigEnd::OutOfMemory,
    }
}

/// Two texts in one.
fn joined(alloc: Global, front: &str, key: &str) -> Result<Text, OutOfMemory>
    ensures { IfOk result (λ t. t ≡ front.now ++ key.now) }
{
    let mut text = String::from_str(alloc, front)?;
    text.push_str(key)?;
    Text::of(alloc, text.as_str())
}
