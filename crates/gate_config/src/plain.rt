// The plain configuration.
ghost use Rattle.std.specs.Prelude.{◌≡◌, ◌≤◌, ◌<◌, IsTrue, IfOk, OnOk};
ghost use Rattle.matchit.specs.Route.{parse_route};
ghost use Rattle.gate_config.specs.Routes.{fits, table_of, with_route};
ghost use Rattle.gate_config.specs.Plain.{IsPlain, first_n, name_of, places, plain_plugin, plain_route, plain_routes, plain_vm};

use crate::{Config, PluginEntry, PluginList, PluginNos, RouteEntry, RouteList, VmEntry, VmList};
use gate_base::{Level, Members, Octets, OutOfMemory, Text, VmNo};
use matchit::{InsertError, Router};
use std::alloc::{AllocError, Global};

impl Config {
    /// One worker, log level info, no deadline, so many VMs `m1`, `m2` and so on with a plug-in of the same name each,
    /// and the routes `/` and `/{*rest}` through all of them.
    pub fn plain(alloc: Global, vms: u8) -> Result<Config, OutOfMemory>
        requires { vms ≤ 16 }
        ensures { IfOk result (IsPlain vms) }
    {
        let routes = plain_route_list(alloc, vms)?;
        Ok(Config {
            workers: 1,
            listen: Text::of(alloc, "127.0.0.1:8080")?,
            upstream: Text::of(alloc, "127.0.0.1:9000")?,
            deadline_ms: 0,
            log_level: Level::Info,
            vms: plain_vm_list(alloc, vms)?,
            plugins: plain_plugin_list(alloc, vms)?,
            router: plain_router(alloc)?,
            routes,
            tcp: Members::new(alloc),
        })
    }
}

/// So many VMs.
fn plain_vm_list(alloc: Global, n: u8) -> Result<VmList, OutOfMemory>
    requires { n ≤ 16 }
    ensures { IfOk result (λ vms. vms ≡ first_n plain_vm n) }
{
    let mut vms = Members::new(alloc);
    for k in 0..n {
        vms.push(VmEntry {
            name: Text::of(alloc, plain_name(k))?,
            module: Text::of(alloc, "")?,
            configuration: Octets::new(alloc),
            fuel: 10_000_000,
            pages: 128,
            code: None,
        })?;
    }
    Ok(vms)
}

/// A plug-in for each of so many VMs.
fn plain_plugin_list(alloc: Global, n: u8) -> Result<PluginList, OutOfMemory>
    requires { n ≤ 16 }
    ensures { IfOk result (λ plugins. plugins ≡ first_n plain_plugin n) }
{
    let mut plugins = Members::new(alloc);
    for k in 0..n {
        let Some(vm) = VmNo::new(k) else {
            unreachable!()
        };
        plugins.push(PluginEntry {
            name: Text::of(alloc, plain_name(k))?,
            vm,
            configuration: Octets::new(alloc),
            fail_open: false,
        })?;
    }
    Ok(plugins)
}

/// The two routes.
fn plain_route_list(alloc: Global, n: u8) -> Result<RouteList, OutOfMemory>
    ensures { IfOk result (λ routes. routes ≡ plain_routes n) }
{
    let mut routes = Members::new(alloc);
    routes.push(plain_entry(alloc, "/", n)?)?;
    routes.push(plain_entry(alloc, "/{*rest}", n)?)?;
    Ok(routes)
}

/// A route through so many plug-ins.
fn plain_entry(alloc: Global, path: &str, n: u8) -> Result<RouteEntry, OutOfMemory>
    ensures { IfOk result (λ route. route ≡ plain_route path.now n) }
{
    Ok(RouteEntry {
        path: Text::of(alloc, path)?,
        filters: first_places(alloc, n)?,
    })
}

/// The router of the two routes.
fn plain_router(alloc: Global) -> Result<Router<u16>, OutOfMemory>
    ensures { IfOk result (λ router. router ≡ table_of (plain_routes 0)) }
{
    let mut router = Router::new(alloc);
    insert(&mut router, "/", 0)?;
    insert(&mut router, "/{*rest}", 1)?;
    Ok(router)
}

/// Gives a router one more route, which it takes.
fn insert(router: &mut Router<u16>, path: &str, place: u16) -> Result<(), OutOfMemory>
    requires { IsTrue (fits (parse_route path.now) router.old) }
    ensures { OnOk result (router.new ≡ with_route path.now place router.old) }
{
    match router.insert(path, place) {
        Ok(()) => Ok(()),
        Err(InsertError::OutOfMemory) => Err(AllocError),
        Err(InsertError::Conflict { .. })
        | Err(InsertError::InvalidParamSegment)
        | Err(InsertError::InvalidParam)
        | Err(InsertError::InvalidCatchAll) => unreachable!(),
    }
}

/// The first places, in order.
fn first_places(alloc: Global, n: u8) -> Result<PluginNos, OutOfMemory>
    ensures { IfOk result (λ filters. filters ≡ places n) }
{
    let mut filters = Members::new(alloc);
    for k in 0..n {
        filters.push(u16::from(k))?;
    }
    Ok(filters)
}

/// The name of a VM of the plain configuration and of its plug-in.
fn plain_name(k: u8) -> &'static str
    requires { k < 16 }
    ensures { result.now ≡ name_of k }
{
    match k {
        0 => "m1",
        1 => "m2",
        2 => "m3",
        3 => "m4",
        4 => "m5",
        5 => "m6",
        6 => "m7",
        7 => "m8",
        8 => "m9",
        9 => "m10",
        10 => "m11",
        11 => "m12",
        12 => "m13",
        13 => "m14",
        14 => "m15",
        15 => "m16",
        _ => unreachable!(),
    }
}
