// What is put into a configuration: VMs, plug-ins, routes and modules.
ghost use Rattle.std.specs.Prelude.{◌≡◌, ◌≢◌, ◌≤◌, ◌<◌, true, false, length, IfOk, OnOk, OnErr, All, Err};
ghost use Rattle.std.specs.List.{AllPairs};
ghost use Rattle.matchit.specs.Route.{parse_route};
ghost use Rattle.gate_config.specs.Given.{bare, given, with_code, with_entry, with_plugin, with_vm, route_with};
ghost use Rattle.gate_config.specs.Kept.{IsVm, IsPlugin};
ghost use Rattle.gate_config.specs.Routes.{fits, table_of, with_route};

use crate::copies::{copy_numbers, copy_router};
use crate::{Config, PluginEntry, PluginNos, RouteEntry, VmEntry};
use gate_base::{Level, Members, OutOfMemory, Text, VmNo};
use matchit::{InsertError, Router};
use std::alloc::{AllocError, Global};
use wasm_syntax::ValidModule;

/// Why a route is not put in.
#[derive(Clone, Copy, PartialEq, Eq)]
pub enum RouteEnd {
    /// The router refuses the path.
    Conflict,
    /// Memory ran out.
    OutOfMemory,
}

impl Config {
    /// A configuration without VMs, plug-ins and routes. It takes no memory.
    pub fn new(
        alloc: Global,
        workers: u8,
        listen: Text,
        upstream: Text,
        deadline_ms: u32,
        log_level: Level,
    ) -> Config
        requires { (1 ≤ workers) × (workers ≤ 8) }
        ensures { given result ≡ bare workers listen upstream deadline_ms log_level }
    {
        Config {
            workers,
            listen,
            upstream,
            deadline_ms,
            log_level,
            vms: Members::new(alloc),
            plugins: Members::new(alloc),
            routes: Members::new(alloc),
            tcp: Members::new(alloc),
            router: Router::new(alloc),
        }
    }

    /// Puts a VM at the end, and answers its number.
    pub fn add_vm(&mut self, entry: VmEntry) -> Result<VmNo, OutOfMemory>
        requires count { length self.old.vms < 16 }
        requires bounds { IsVm entry }
        requires fresh { All (λ vm. vm.name ≢ entry.name) self.old.vms }
        ensures ok { OnOk result (given self.new ≡ with_vm entry (given self.old)) }
        ensures number { IfOk result (λ number. number ≡ length self.old.vms) }
        ensures err { OnErr result (self.new ≡ self.old) }
    {
        let Some(number) = VmNo::new(self.vms.len() as u8) else {
            unreachable!()
        };
        self.vms.push(entry)?;
        Ok(number)
    }

    /// Puts a plug-in at the end, and answers its place.
    pub fn add_plugin(&mut self, entry: PluginEntry) -> Result<u16, OutOfMemory>
        requires count { length self.old.plugins < 64 }
        requires bounds { IsPlugin (length self.old.vms) entry }
        requires fresh { All (λ plugin. plugin.name ≢ entry.name) self.old.plugins }
        ensures ok { OnOk result (given self.new ≡ with_plugin entry (given self.old)) }
        ensures place { IfOk result (λ place. place ≡ length self.old.plugins) }
        ensures err { OnErr result (self.new ≡ self.old) }
    {
        let place = self.plugins.len() as u16;
        self.plugins.push(entry)?;
        Ok(place)
    }

    /// Gives a VM the module that it is to run. It takes no memory.
    pub fn hold(&mut self, vm: VmNo, code: ValidModule)
        requires { vm < length self.old.vms }
        ensures { given self.new ≡ with_code vm code (given self.old) }
    {
        let entry = self.vms.get_mut(usize::from(vm.get()));
        entry.code = Some(code);
    }

    /// Whether the router takes a path as one more route, as it would be read by `add_route`.
    pub fn path_fits(&self, path: &str) -> Result<bool, OutOfMemory>
        ensures { IfOk result (λ b. b ≡ fits (parse_route path.now) (table_of self.now.routes)) }
    {
        let mut router = copy_router(&self.router)?;
        match insert_route(&mut router, path, 0) {
            Ok(()) => Ok(true),
            Err(RouteEnd::Conflict) => Ok(false),
            Err(RouteEnd::OutOfMemory) => Err(AllocError),
        }
    }

    /// Puts a route at the end.
    pub fn add_route(
        &mut self,
        alloc: Global,
        path: &str,
        filters: &PluginNos,
    ) -> Result<(), RouteEnd>
        requires count { length self.old.routes < 256 }
        requires few { length filters.now ≤ 16 }
        requires there { All (λ filter. filter < length self.old.plugins) filters.now }
        requires differ { AllPairs (λ a b. a ≢ b) filters.now }
        ensures ok { OnOk result (given self.new ≡ with_entry (route_with path.now filters.now) (given self.old)) }
        ensures err { OnErr result (self.new ≡ self.old) }
        ensures fits { OnOk result (fits (parse_route path.now) (table_of self.old.routes) ≡ true) }
        ensures conflict { result ≡ Err RouteEnd.Conflict → fits (parse_route path.now) (table_of self.old.routes) ≡ false }
    {
        let Ok(entry) = route_entry(alloc, path, filters) else {
            return Err(RouteEnd::OutOfMemory);
        };
        let place = self.routes.len() as u16;
        if self.routes.push(entry).is_err() {
            return Err(RouteEnd::OutOfMemory);
        }
        match insert_route(&mut self.router, path, place) {
            Ok(()) => Ok(()),
            Err(end) => {
                let _ = self.routes.pop();
                Err(end)
            }
        }
    }
}

/// Gives a router one more route.
fn insert_route(router: &mut Router<u16>, path: &str, place: u16) -> Result<(), RouteEnd>
    ensures ok { OnOk result ((fits (parse_route path.now) router.old ≡ true) × (router.new ≡ with_route path.now place router.old)) }
    ensures err { OnErr result (router.new ≡ router.old) }
    ensures conflict { result ≡ Err RouteEnd.Conflict → fits (parse_route path.now) router.old ≡ false }
{
    match router.insert(path, place) {
        Ok(()) => Ok(()),
        Err(InsertError::OutOfMemory) => Err(RouteEnd::OutOfMemory),
        Err(InsertError::Conflict { .. })
        | Err(InsertError::InvalidParamSegment)
        | Err(InsertError::InvalidParam)
        | Err(InsertError::InvalidCatchAll) => Err(RouteEnd::Conflict),
    }
}

fn route_entry(alloc: Global, path: &str, filters: &PluginNos) -> Result<RouteEntry, OutOfMemory>
    ensures { IfOk result (λ e. e ≡ route_with path.now filters.now) }
{
    Ok(RouteEntry {
        path: Text::of(alloc, path)?,
        filters: copy_numbers(alloc, filters)?,
    })
}
