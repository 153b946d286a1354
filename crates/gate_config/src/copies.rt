// Copies of configurations.
ghost use Rattle.std.specs.Prelude.{◌≡◌, IfOk};

use crate::{Config, PluginEntry, PluginList, PluginNos, RouteEntry, RouteList, VmEntry, VmList};
use gate_base::{Members, OutOfMemory};
use matchit::Router;
use std::alloc::{AllocError, Global};
use wasm_copy::copy_module;
use wasm_syntax::ValidModule;

impl Config {
    /// A copy.
    pub fn copy(&self, alloc: Global) -> Result<Config, OutOfMemory>
        ensures { IfOk result (λ c. c ≡ self.now) }
    {
        Ok(Config {
            workers: self.workers,
            listen: self.listen.copy(alloc)?,
            upstream: self.upstream.copy(alloc)?,
            deadline_ms: self.deadline_ms,
            log_level: self.log_level,
            vms: copy_vms(alloc, &self.vms)?,
            plugins: copy_plugins(alloc, &self.plugins)?,
            routes: copy_routes(alloc, &self.routes)?,
            tcp: copy_numbers(alloc, &self.tcp)?,
            router: copy_router(&self.router)?,
        })
    }
}

/// A copy of a list of places.
pub(crate) fn copy_numbers(alloc: Global, numbers: &PluginNos) -> Result<PluginNos, OutOfMemory>
    ensures { IfOk result (λ copy. copy ≡ numbers.now) }
{
    let mut copy = Members::new(alloc);
    for number in numbers.as_slice() {
        copy.push(*number)?;
    }
    Ok(copy)
}

/// A copy of a list of VMs.
fn copy_vms(alloc: Global, vms: &VmList) -> Result<VmList, OutOfMemory>
    ensures { IfOk result (λ copy. copy ≡ vms.now) }
{
    let mut copy = Members::new(alloc);
    for vm in vms.as_slice() {
        copy.push(VmEntry {
            name: vm.name.copy(alloc)?,
            module: vm.module.copy(alloc)?,
            configuration: vm.configuration.copy(alloc)?,
            fuel: vm.fuel,
            pages: vm.pages,
            code: copy_code(alloc, &vm.code)?,
        })?;
    }
    Ok(copy)
}

/// A copy of a list of plug-ins.
fn copy_plugins(alloc: Global, plugins: &PluginList) -> Result<PluginList, OutOfMemory>
    ensures { IfOk result (λ copy. copy ≡ plugins.now) }
{
    let mut copy = Members::new(alloc);
    for plugin in plugins.as_slice() {
        copy.push(PluginEntry {
            name: plugin.name.copy(alloc)?,
            vm: plugin.vm,
            configuration: plugin.configuration.copy(alloc)?,
            fail_open: plugin.fail_open,
        })?;
    }
    Ok(copy)
}

/// A copy of a list of routes.
fn copy_routes(alloc: Global, routes: &RouteList) -> Result<RouteList, OutOfMemory>
    ensures { IfOk result (λ copy. copy ≡ routes.now) }
{
    let mut copy = Members::new(alloc);
    for route in routes.as_slice() {
        copy.push(RouteEntry {
            path: route.path.copy(alloc)?,
            filters: copy_numbers(alloc, &route.filters)?,
        })?;
    }
    Ok(copy)
}

/// A copy of a router: the same routes in their order.
pub(crate) fn copy_router(router: &Router<u16>) -> Result<Router<u16>, AllocError>
    ensures { IfOk result (λ copy. copy ≡ router.now) }
{
    router.clone()
}

/// A copy of a module, where there is one.
fn copy_code(alloc: Global, code: &Option<ValidModule>) -> Result<Option<ValidModule>, OutOfMemory>
    ensures { IfOk result (λ copy. copy ≡ code.now) }
{
    match code {
        Some(module) => Ok(Some(copy_module(alloc, module)?)),
        None => Ok(None),
    }
}
