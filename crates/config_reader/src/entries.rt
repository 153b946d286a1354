// The entries of the arrays, put into the configuration.
ghost use Rattle.std.specs.Prelude.{◌≡◌, ◌<◌, ◌≤◌, ◌≢◌, IfOk, OnOk, None, true, false, length, map, All};
ghost use Rattle.std.specs.List.{AllPairs};
ghost use Rattle.matchit.specs.Route.{parse_route};
ghost use Rattle.toml.specs.Data.{as_array};
ghost use Rattle.toml.specs.View.{view, table_view};
ghost use Rattle.gate_config.specs.Given.{given};
ghost use Rattle.gate_config.specs.Kept.{IsVm, IsPlugin};
ghost use Rattle.gate_config.specs.Routes.{fits, table_of};
ghost use Rattle.config_reader.specs.Judge.{table_fault, text_of, places_of, filters_at, text_at};
ghost use Rattle.config_names.specs.Names.{has_vm, has_plugin, plugin_number, vm_number};
ghost use Rattle.config_reader.specs.Rows.{row_of, vm_keys, plugin_keys, route_keys, path, filters};
ghost use Rattle.config_reader.specs.Whole.{given_with_entry, keys_of, length_of, most_of, plugin_of, route_of, vm_of};

use crate::keys::{
    CONFIGURATION, FAIL, FILTERS, FUEL, Key, MODULE, PAGES, PATH, PLUGIN_NAME, PLUGIN_VM, VM_NAME,
};
use crate::section::TableArray;
use crate::values::{member, number_at, text_at, text_in};
use config_names::{plugin_place, vm_place};
use gate_base::{Members, Octets, OutOfMemory, Text, VmNo};
use gate_config::{Config, PluginEntry, PluginNos, RouteEnd, VmEntry};
use std::alloc::{AllocError, Global};
use toml::{Table, Value};

/// Puts the entry of a table at the end of its list.
pub(crate) fn add_entry(
    alloc: Global,
    section: TableArray,
    table: &Table,
    config: &mut Config,
) -> Result<(), OutOfMemory>
    requires good { table_fault (keys_of section) (given config.old) (table_view table.now) ≡ None }
    requires room { length_of section (given config.old) < most_of section }
    ensures { OnOk result (given config.new ≡ given_with_entry section (table_view table.now) (given config.old)) }
{
    match section {
        TableArray::Vm => add_vm(alloc, table, config),
        TableArray::Plugin => add_plugin(alloc, table, config),
        TableArray::Route => add_route(alloc, table, config),
    }
}

/// Puts the VM of a table at the end.
fn add_vm(alloc: Global, table: &Table, config: &mut Config) -> Result<(), OutOfMemory>
    requires good { table_fault vm_keys (given config.old) (table_view table.now) ≡ None }
    requires room { length config.old.vms < 16 }
    ensures { OnOk result (given config.new ≡ given_with_entry TableArray.Vm (table_view table.now) (given config.old)) }
{
    let entry = vm_of(alloc, table)?;
    match config.add_vm(entry) {
        Ok(_) => Ok(()),
        Err(end) => Err(end),
    }
}

/// The VM of a table.
fn vm_of(alloc: Global, table: &Table) -> Result<VmEntry, OutOfMemory>
    requires { IsVm (vm_of (table_view table.now)) }
    ensures { IfOk result (λ vm. vm ≡ vm_of (table_view table.now)) }
{
    Ok(VmEntry {
        name: Text::of(alloc, text_at(&VM_NAME, table))?,
        module: Text::of(alloc, text_at(&MODULE, table))?,
        configuration: Octets::from_slice(alloc, text_at(&CONFIGURATION, table).as_bytes())?,
        fuel: number_at(&FUEL, table),
        pages: number_at(&PAGES, table) as u32,
        code: None,
    })
}

/// Puts the plug-in of a table at the end.
fn add_plugin(alloc: Global, table: &Table, config: &mut Config) -> Result<(), OutOfMemory>
    requires good { table_fault plugin_keys (given config.old) (table_view table.now) ≡ None }
    requires room { length config.old.plugins < 64 }
    ensures { OnOk result (given config.new ≡ given_with_entry TableArray.Plugin (table_view table.now) (given config.old)) }
{
    let entry = plugin_of(alloc, config, table)?;
    match config.add_plugin(entry) {
        Ok(_) => Ok(()),
        Err(end) => Err(end),
    }
}

/// The plug-in of a table.
fn plugin_of(alloc: Global, config: &Config, table: &Table) -> Result<PluginEntry, OutOfMemory>
    requires { IsPlugin (length config.now.vms) (plugin_of (given config.now) (table_view table.now)) }
    ensures { IfOk result (λ plugin. plugin ≡ plugin_of (given config.now) (table_view table.now)) }
{
    Ok(PluginEntry {
        name: Text::of(alloc, text_at(&PLUGIN_NAME, table))?,
        vm: vm_at(config, &PLUGIN_VM, table),
        configuration: Octets::from_slice(alloc, text_at(&CONFIGURATION, table).as_bytes())?,
        fail_open: text_at(&FAIL, table) == "open",
    })
}

/// The VM whose name stands at a key.
fn vm_at(config: &Config, key: &Key, table: &Table) -> VmNo
    requires { vm_number (given config.now) (text_at (row_of key.now) (table_view table.now)) < length config.now.vms }
    ensures { result ≡ vm_number (given config.now) (text_at (row_of key.now) (table_view table.now)) }
{
    let place = vm_place(config, text_at(key, table));
    let Some(vm) = VmNo::new(place as u8) else {
        unreachable!()
    };
    vm
}

/// Puts the route of a table at the end.
fn add_route(alloc: Global, table: &Table, config: &mut Config) -> Result<(), OutOfMemory>
    requires good { table_fault route_keys (given config.old) (table_view table.now) ≡ None }
    requires room { length config.old.routes < 256 }
    ensures { OnOk result (given config.new ≡ given_with_entry TableArray.Route (table_view table.now) (given config.old)) }
{
    let places = route_places(alloc, config, table)?;
    match config.add_route(alloc, route_path(table), &places) {
        Ok(()) => Ok(()),
        Err(RouteEnd::Conflict) => unreachable!(),
        Err(RouteEnd::OutOfMemory) => Err(AllocError),
    }
}

/// The path of a route.
fn route_path(table: &Table) -> &str
    ensures { result.now ≡ text_at path (table_view table.now) }
{
    text_at(&PATH, table)
}

/// The places of a route's plug-ins.
fn route_places(alloc: Global, config: &Config, table: &Table) -> Result<PluginNos, OutOfMemory>
    ensures { IfOk result (λ places. places ≡ filters_at filters (given config.now) (table_view table.now)) }
{
    filters_at(alloc, config, &FILTERS, table)
}

/// The places of the plug-ins whose names stand at a key.
fn filters_at(
    alloc: Global,
    config: &Config,
    key: &Key,
    table: &Table,
) -> Result<PluginNos, OutOfMemory>
    ensures { IfOk result (λ places. places ≡ filters_at (row_of key.now) (given config.now) (table_view table.now)) }
{
    match member(table, key.name) {
        Some(value) => places_of(alloc, config, value),
        None => Ok(Members::new(alloc)),
    }
}

/// The places of the plug-ins of a list of names.
fn places_of(alloc: Global, config: &Config, value: &Value) -> Result<PluginNos, OutOfMemory>
    ensures { IfOk result (λ places. places ≡ places_of (given config.now) (as_array (view value.now))) }
{
    match value.as_array() {
        Some(items) => places_in(alloc, config, items.as_slice()),
        None => Ok(Members::new(alloc)),
    }
}

/// The places of the plug-ins of these names.
pub(crate) fn places_in(
    alloc: Global,
    config: &Config,
    items: &[Value],
) -> Result<PluginNos, OutOfMemory>
    ensures { IfOk result (λ places. places ≡ map (λ v. plugin_number (given config.now) (text_of (view v))) items.now) }
{
    let mut places = Members::new(alloc);
    for item in items {
        places.push(place_of(config, text_in(item)))?;
    }
    Ok(places)
}

/// The place of the plug-in of a name.
fn place_of(config: &Config, name: &str) -> u16
    ensures { result ≡ plugin_number (given config.now) name.now }
{
    plugin_place(config, name) as u16
}
