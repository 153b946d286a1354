// Contexts are made, and exchanges begin.
ghost use Rattle.worker_model.specs.Plan.{plan_of};
ghost use Rattle.std.specs.Prelude.{◌≡◌, [], ◌∷◌, ◌++◌, ◌==◌, ◌<◌, ◌+◌, length, position, OnOk, IfOk, Some, None, is_none, IsSome};
ghost use Rattle.contexts.specs.Creating.{plugin_in};
ghost use Rattle.contexts.specs.Reached.{vm_in, tick_in};
ghost use Rattle.h1_head.specs.Seen.{seen_head};
ghost use Rattle.worker_model.specs.Rooms.{on_number};
ghost use Rattle.worker_model.specs.Steps.{root_jobs, may_root, may_stream, is_drawn_out, create_root, create_stream, create_context, enter_stages, free_place, begin_exchange_on, tick_root, next_tick, with_tick};

use crate::room::Room;
use contexts::{Context, Contexts, ExchangeEntry as Marked, Tick};
use exchange::{Filter, path_route};
use filter_host::Death;
use gate_base::{ContextId, LineNo, OutOfMemory, VmNo};
use gate_queue::Queue;
use h1_head::Head;
use std::alloc::{AllocError, Global};
use worker_lines::new_exchange;
use worker_model::{Job, NewContext, Rules};

/// Whether the last id of a VM was drawn.
pub fn is_drawn_out(h: &Contexts, vm: VmNo) -> bool
    ensures { result ≡ is_drawn_out vm h.now }
{
    match h.vms.as_slice().get(vm.get() as usize) {
        None => false,
        Some(v) => v.last.get() == u32::MAX,
    }
}

/// Whether the root of a plug-in may be made.
pub fn may_root(h: &Contexts, vm: VmNo, plugin: usize) -> bool
    ensures { result ≡ may_root vm plugin h.now }
{
    if (vm.get() as usize) >= h.vms.len() || plugin > u16::MAX as usize {
        return false;
    }
    match h.plugins.as_slice().get(plugin) {
        None => false,
        Some(p) => p.vm == vm,
    }
}

/// What comes after the making of a root.
fn root_jobs(
    alloc: Global,
    vm: VmNo,
    root: ContextId,
    plugin: usize,
    first: bool,
) -> Result<Queue<Job>, OutOfMemory>
    ensures { IfOk result (λ jobs. jobs ≡ root_jobs vm root plugin first) }
{
    let mut jobs = Queue::new(alloc);
    if first {
        jobs.push(Job::Start { vm, root })?;
    }
    jobs.push(Job::Configure { vm, root, plugin })?;
    Ok(jobs)
}

/// The root of a plug-in.
pub fn root_of(h: &Contexts, plugin: u16) -> Option<ContextId>
    ensures { result ≡ (plugin_in h.now plugin).root }
{
    match h.plugins.as_slice().get(plugin as usize) {
        None => None,
        Some(p) => p.root,
    }
}

/// Whether a stream may be made of a root.
pub fn may_stream(h: &Contexts, vm: VmNo, root: ContextId) -> bool
    ensures { result ≡ may_stream vm root h.now }
{
    if (vm.get() as usize) >= h.vms.len() {
        return false;
    }
    h.is_root(vm, root)
}

/// The first place that is free.
fn first_free(exchanges: &[Option<Marked>]) -> Option<usize>
    ensures { result ≡ position is_none exchanges.now }
{
    exchanges.iter().position(|x| x.is_none())
}

/// The first place that is free, or the next one.
fn free_place(h: &Contexts) -> usize
    ensures { result ≡ free_place h.now }
{
    match first_free(h.exchanges.as_slice()) {
        None => h.exchanges.len(),
        Some(place) => place,
    }
}

/// A root is called again then.
fn set_tick(h: &mut Contexts, vm: VmNo, root: ContextId, t: Tick)
    requires { vm < length h.old.vms }
    ensures { IsSome (tick_in (vm_in h.old vm).contexts root) → h.new ≡ with_tick vm root t h.old }
{
    let _ = h.set_effective(vm, root);
    h.set_tick(vm, Some(t));
}

/// When a root is called next.
fn next_tick(now: u64, t: Tick) -> Tick
    ensures { result ≡ next_tick now t }
{
    Tick {
        period: t.period,
        due: now.saturating_add(t.period),
    }
}

/// The tick of a root, if there is such a context.
fn tick_of(contexts: &[Context], root: ContextId) -> Option<Option<Tick>>
    ensures { result ≡ tick_in contexts.now root }
{
    match contexts.iter().find(|c| c.id == root) {
        None => None,
        Some(c) => Some(c.tick),
    }
}

/// The same by the VM.
fn tick_in(h: &Contexts, vm: VmNo, root: ContextId) -> Option<Option<Tick>>
    ensures { result ≡ tick_in (vm_in h.now vm).contexts root }
{
    match h.vms.as_slice().get(vm.get() as usize) {
        None => None,
        Some(v) => tick_of(v.contexts.as_slice(), root),
    }
}

impl Room {
    /// The root of a plug-in is made; where no id is left, the VM is dead.
    pub fn make_root(
        &mut self,
        alloc: Global,
        vm: VmNo,
        plugin: usize,
        first: bool,
    ) -> Result<Option<NewContext>, OutOfMemory>
        ensures { IfOk result (λ c. create_root vm plugin first self.old ≡ (c, self.new)) }
    {
        if self.is_dead(vm) || !may_root(&self.hub.contexts, vm, plugin) {
            return Ok(None);
        }
        if is_drawn_out(&self.hub.contexts, vm) {
            self.die(alloc, vm, Death::Ids)?;
            return Ok(None);
        }
        // An id is left.
        let Ok(context) = self.hub.contexts.create_root(alloc, vm, plugin as u16) else {
            return Err(AllocError);
        };
        let jobs = root_jobs(alloc, vm, context, plugin, first)?;
        self.put_in_front(alloc, jobs)?;
        let root = ContextId::new(0);
        Ok(Some(NewContext { vm, context, root }))
    }

    /// The context of a filter is made, of this root; where no id is left, the VM is dead.
    fn make_stream(
        &mut self,
        alloc: Global,
        number: LineNo,
        k: usize,
        f: Filter,
        root: ContextId,
    ) -> Result<Option<NewContext>, OutOfMemory>
        ensures { IfOk result (λ c. create_stream number k f (Some root) self.old ≡ (c, self.new)) }
    {
        let vm = f.vm;
        if self.is_dead(vm) || !may_stream(&self.hub.contexts, vm, root) {
            return Ok(None);
        }
        if is_drawn_out(&self.hub.contexts, vm) {
            self.die(alloc, vm, Death::Ids)?;
            return Ok(None);
        }
        // An id is left.
        let Ok(context) = self.hub.contexts.create_stream(alloc, vm, root, number) else {
            return Err(AllocError);
        };
        let f = Filter {
            created: true,
            context,
            ..f
        };
        self.lines.note_filter(number, k, f);
        Ok(Some(NewContext { vm, context, root }))
    }

    /// The context of a filter is made, unless its exchange has ended or was answered.
    pub fn make_context(
        &mut self,
        alloc: Global,
        number: LineNo,
        k: usize,
    ) -> Result<Option<NewContext>, OutOfMemory>
        ensures { IfOk result (λ c. create_context number k self.old ≡ (c, self.new)) }
    {
        let Some(f) = self.lines.filter_at(number, k) else {
            return Ok(None);
        };
        match root_of(&self.hub.contexts, f.plugin) {
            None => Ok(None),
            Some(root) => self.make_stream(alloc, number, k, f, root),
        }
    }

    /// The stages of an exchange are made.
    pub fn enter(&mut self, alloc: Global, number: LineNo) -> Result<(), OutOfMemory>
        ensures { OnOk result (self.new ≡ on_number (enter_stages self.old.dead) number self.old) }
    {
        let place = self.lines.place_in(number);
        self.lines
            .enter(alloc, &mut self.hub, place, self.dead.as_slice())
    }

    /// An exchange begins with the head of its request.
    pub(crate) fn begin_exchange(
        &mut self,
        alloc: Global,
        rules: &Rules,
        number: LineNo,
        head: Head,
    ) -> Result<(), OutOfMemory>
        ensures { OnOk result (self.new ≡ begin_exchange_on (plan_of rules.now) number (seen_head head) self.old) }
    {
        let route = path_route(&rules.config, &head.fields);
        let moment = self.hub.moment;
        let place = free_place(&self.hub.contexts);
        let x = new_exchange(
            alloc,
            rules,
            place,
            moment,
            self.dead.as_slice(),
            &head,
            route,
        )?;
        self.hub.contexts.open_exchange(number, head.fields)?;
        self.lines.begin(number, x);
        Ok(())
    }

    /// Whether a root is due, which is due again one period from now then.
    pub fn tick(&mut self, vm: VmNo, root: ContextId) -> bool
        ensures { tick_root vm root self.old ≡ (result, self.new) }
    {
        let Some(Some(t)) = tick_in(&self.hub.contexts, vm, root) else {
            return false;
        };
        if t.due > self.hub.moment || (vm.get() as usize) >= self.hub.contexts.vms.len() {
            return false;
        }
        let next = next_tick(self.hub.moment, t);
        set_tick(&mut self.hub.contexts, vm, root, next);
        true
    }
}
