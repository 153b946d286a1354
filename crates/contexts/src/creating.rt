// Contexts are made, wait, and are taken away.
ghost use Rattle.std.specs.Prelude.{◌≡◌, ◌<◌, ◌↔◌, ◌&&◌, [], length, is_ok, is_none, Err, IfOk, OnOk, OnErr, IsTrue, ◌==◌};
ghost use Rattle.std.specs.List.{list_any, position};
ghost use Rattle.contexts.specs.Keyed.{without_first};
ghost use Rattle.contexts.specs.Reached.{vm_in, context_in, context_no, exchange_of, seen, contains, put, no_changes};
ghost use Rattle.contexts.specs.Creating.{IsDrawnOut, next_id, no_stage, no_own, plugin_in, root_created, is_root, is_root_at, plugin_at, open_place, is_open_on, stream_created, await_done_of, done_with, delete_id, refers_to, is_referred, itself, with_new, without_context, root_context, stream_context};
ghost use Rattle.contexts.specs.declared.creating.ContextEnd.TheVariants as end;

use crate::reached::place_of;
use crate::{Context, Contexts, ExchangeEntry, Own, Properties, Roster, StageBuffer};
use body_buffers::Body;
use gate_base::{ContextId, LineNo, OutOfMemory, VmNo};
use std::alloc::{AllocError, Global};

/// Why a context is not made.
#[derive(Clone, Copy, PartialEq, Eq)]
pub enum ContextEnd {
    /// The VM's greatest id, 4,294,967,295, was drawn.
    NoIds,
    /// Memory ran out.
    OutOfMemory,
}

impl From<AllocError> for ContextEnd {
    ghost use Rattle.contexts.specs.declared.creating.ContextEnd.TheVariants.{OutOfMemory};

    ghost from_gives = { λ _ e. e ≡ OutOfMemory };

    fn from(_: AllocError) -> Self {
        ContextEnd::OutOfMemory
    }
}

/// The VM has no such context, or it does not wait.
#[derive(Clone, Copy, PartialEq, Eq)]
pub struct UnknownContext;

impl StageBuffer {
    /// Nothing is held.
    pub fn new(alloc: Global) -> Self
        ensures { result ≡ no_stage }
    {
        StageBuffer {
            held: Body::new(alloc),
            is_asked: false,
            has_end: false,
        }
    }
}

impl Own {
    /// Of a context that is new.
    pub fn new(alloc: Global) -> Self
        ensures { result ≡ no_own }
    {
        Own {
            request: StageBuffer::new(alloc),
            response: StageBuffer::new(alloc),
            properties: Properties::new(alloc),
            answer: None,
        }
    }
}

/// A root context that is new.
fn root_context(alloc: Global, id: ContextId, plugin: u16) -> Context
    ensures { result ≡ root_context id plugin }
{
    Context {
        id,
        plugin,
        root: id,
        exchange: None,
        own: Own::new(alloc),
        tick: None,
    }
}

/// A stream context that is new.
fn stream_context(
    alloc: Global,
    id: ContextId,
    plugin: u16,
    root: ContextId,
    exchange: Option<usize>,
) -> Context
    ensures { result ≡ stream_context id plugin root exchange }
{
    Context {
        id,
        plugin,
        root,
        exchange,
        own: Own::new(alloc),
        tick: None,
    }
}

/// Whether an exchange is open on a line.
fn is_open_on(line: LineNo, exchange: &Option<ExchangeEntry>) -> bool
    ensures { result ≡ is_open_on line exchange.now }
{
    match exchange {
        Some(x) => x.line == line && !x.view.has_ended,
        None => false,
    }
}

/// Where an id stands.
fn id_place(ids: &[ContextId], id: ContextId) -> Option<usize>
    ensures { result ≡ position (λ other. itself other == id) ids.now }
{
    ids.iter().position(|other| *other == id)
}

/// Takes the first of these ids out.
fn remove_id(ids: &mut Roster<ContextId>, id: ContextId)
    ensures { ids.new ≡ without_first itself id ids.old }
{
    if let Some(at) = id_place(ids.as_slice(), id) {
        ids.remove(at);
    }
}

/// Takes the first context of an id out.
fn remove_context(contexts: &mut Roster<Context>, id: ContextId)
    ensures { contexts.new ≡ without_first context_no id contexts.old }
{
    if let Some(at) = place_of(contexts.as_slice(), id) {
        contexts.remove(at);
    }
}

impl Contexts {
    /// The id that a VM draws next; there is none where its greatest was drawn.
    fn draw(&self, vm: VmNo) -> Result<ContextId, ContextEnd>
        requires { vm < length self.now.vms }
        ensures ok { IfOk result (λ id. id ≡ next_id self.now vm) }
        ensures no_ids { (result ≡ Err end.NoIds) ↔ IsDrawnOut self.now vm }
    {
        let last = self.vms.get(vm.get() as usize).last.get();
        if last == u32::MAX {
            return Err(ContextEnd::NoIds);
        }
        Ok(ContextId::new(last + 1))
    }

    /// Where the exchange stands that is open on a line.
    pub fn open_place(&self, line: LineNo) -> Option<usize>
        ensures { result ≡ open_place line self.now.exchanges }
    {
        self.exchanges
            .as_slice()
            .iter()
            .position(|x| is_open_on(line, x))
    }

    /// Whether a context is there and is a root.
    pub fn is_root(&self, vm: VmNo, id: ContextId) -> bool
        requires { vm < length self.now.vms }
        ensures { result ≡ is_root self.now vm id }
    {
        match self.context_of(vm, id) {
            Some(c) => c.root == id && c.exchange.is_none(),
            None => false,
        }
    }

    /// The plug-in of a context.
    fn plugin_of(&self, vm: VmNo, id: ContextId) -> u16
        requires { vm < length self.now.vms }
        ensures { result ≡ plugin_at (context_in self.now vm id) }
    {
        match self.context_of(vm, id) {
            Some(c) => c.plugin,
            None => 0,
        }
    }

    /// Puts a new context at the end of those of a VM, under the id that was drawn for it.
    fn add(&mut self, vm: VmNo, context: Context) -> Result<(), OutOfMemory>
        requires { vm < length self.old.vms }
        ensures ok { OnOk result (self.new ≡ with_new vm context self.old) }
        ensures err { OnErr result (self.new ≡ self.old) }
    {
        let id = context.id;
        let v = self.vms.get_mut(vm.get() as usize);
        v.contexts.push(context)?;
        v.last = id;
        Ok(())
    }

    /// Makes the root context of a plug-in of the VM.
    pub fn create_root(
        &mut self,
        alloc: Global,
        vm: VmNo,
        plugin: u16,
    ) -> Result<ContextId, ContextEnd>
        requires vm { vm < length self.old.vms }
        requires plugin { plugin < length self.old.plugins }
        requires own { (plugin_in self.old plugin).vm ≡ vm }
        ensures id { IfOk result (λ id. id ≡ next_id self.old vm) }
        ensures ok { OnOk result (self.new ≡ root_created vm plugin self.old) }
        ensures no_ids { (result ≡ Err end.NoIds) ↔ IsDrawnOut self.old vm }
        ensures err { OnErr result (self.new ≡ self.old) }
    {
        let id = self.draw(vm)?;
        self.add(vm, root_context(alloc, id, plugin))?;
        self.plugins.get_mut(plugin as usize).root = Some(id);
        Ok(id)
    }

    /// Makes a stream context of a root, in the exchange that is open on the line.
    pub fn create_stream(
        &mut self,
        alloc: Global,
        vm: VmNo,
        root: ContextId,
        line: LineNo,
    ) -> Result<ContextId, ContextEnd>
        requires vm { vm < length self.old.vms }
        requires root { IsTrue (is_root self.old vm root) }
        ensures id { IfOk result (λ id. id ≡ next_id self.old vm) }
        ensures ok { OnOk result (self.new ≡ stream_created vm root line self.old) }
        ensures no_ids { (result ≡ Err end.NoIds) ↔ IsDrawnOut self.old vm }
        ensures err { OnErr result (self.new ≡ self.old) }
    {
        let id = self.draw(vm)?;
        let exchange = self.open_place(line);
        let plugin = self.plugin_of(vm, root);
        self.add(vm, stream_context(alloc, id, plugin, root, exchange))?;
        Ok(id)
    }

    /// Makes a context of a VM the effective one.
    pub fn set_effective(&mut self, vm: VmNo, id: ContextId) -> Result<(), UnknownContext>
        requires { vm < length self.old.vms }
        ensures ok { OnOk result (self.new ≡ put (record no_changes { effective = Some id }) vm self.old) }
        ensures known { is_ok result ≡ contains id (seen self.old vm).common.ids }
        ensures err { OnErr result (self.new ≡ self.old) }
    {
        if !self.has(vm, id) {
            return Err(UnknownContext);
        }
        self.vms.get_mut(vm.get() as usize).effective = id;
        Ok(())
    }

    /// A context waits for `proxy_done` from here on.
    pub fn wait_for_done(&mut self, vm: VmNo, id: ContextId) -> Result<(), OutOfMemory>
        requires { vm < length self.old.vms }
        ensures ok { OnOk result (self.new ≡ await_done_of vm id self.old) }
        ensures err { OnErr result (self.new ≡ self.old) }
    {
        self.vms.get_mut(vm.get() as usize).waiting.push(id)
    }

    /// Whether a context waits for `proxy_done`.
    pub fn waits(&self, vm: VmNo, id: ContextId) -> bool
        requires { vm < length self.now.vms }
        ensures { result ≡ contains id (vm_in self.now vm).waiting }
    {
        self.vm(vm).waiting.as_slice().iter().any(|w| *w == id)
    }

    /// A context waits no longer.
    pub fn done(&mut self, vm: VmNo, id: ContextId) -> Result<(), UnknownContext>
        requires { vm < length self.old.vms }
        ensures ok { OnOk result (self.new ≡ done_with vm id self.old) }
        ensures known { is_ok result ≡ (contains id (seen self.old vm).common.ids && contains id (vm_in self.old vm).waiting) }
        ensures err { OnErr result (self.new ≡ self.old) }
    {
        if !self.has(vm, id) || !self.waits(vm, id) {
            return Err(UnknownContext);
        }
        let v = self.vms.get_mut(vm.get() as usize);
        remove_id(&mut v.waiting, id);
        Ok(())
    }

    /// The place of a context's exchange.
    fn exchange_place_of(&self, vm: VmNo, id: ContextId) -> Option<usize>
        requires { vm < length self.now.vms }
        ensures { result ≡ exchange_of (context_in self.now vm id) }
    {
        match self.context_of(vm, id) {
            Some(c) => c.exchange,
            None => None,
        }
    }

    /// Takes a context out of those of its VM and of those that wait.
    fn remove(&mut self, vm: VmNo, id: ContextId)
        requires { vm < length self.old.vms }
        ensures { self.new ≡ without_context vm id self.old }
    {
        let v = self.vms.get_mut(vm.get() as usize);
        remove_id(&mut v.waiting, id);
        remove_context(&mut v.contexts, id);
    }

    /// Deletes a context. What an exchange that has ended holds goes with the last of its contexts.
    pub fn delete(&mut self, vm: VmNo, id: ContextId) -> Result<(), UnknownContext>
        requires { vm < length self.old.vms }
        ensures ok { OnOk result (self.new ≡ delete_id vm id self.old) }
        ensures known { is_ok result ≡ contains id (seen self.old vm).common.ids }
        ensures err { OnErr result (self.new ≡ self.old) }
    {
        if !self.has(vm, id) {
            return Err(UnknownContext);
        }
        let place = self.exchange_place_of(vm, id);
        self.remove(vm, id);
        if let Some(place) = place {
            self.free(place);
        }
        Ok(())
    }
}
