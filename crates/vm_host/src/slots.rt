//! All VMs of a worker.

ghost use Rattle.std.specs.Prelude.{◌≡◌, ◌≤◌, ◌<◌, ◌++◌, [], ◌∷◌, length, None, IfOk, OnOk, OnErr, slice_index_or, slice_set};
ghost use Rattle.store_model.specs.Program.{Ends};
ghost use Rattle.vm_host.specs.Fits.{fit_fault};
ghost use Rattle.vm_host.specs.HostStates.{host_state};
ghost use Rattle.vm_host.specs.RoleTypes.{functions_for};
ghost use Rattle.vm_host.specs.Targets.{is_register as is_register_of, registers_in, targets_of};
ghost use Rattle.vm_host.specs.Vms.{ran};
ghost use Rattle.vm_host.specs.Slots.{role_of, first_slot, no_slot, exports_role as exports_role_in, end_of, came, by_role, calling_live, is_at_home as is_at_home_in, has_work as has_work_in, calling_slot};

use crate::ended::LastRunEnd;
use crate::roles::Role;
use crate::vm::{Numbers, Ran, Vm, function, functions, import_targets};
use abi_links::ImportTarget;
use abi_model::HostCall;
use contexts::Contexts;
use filter_host::{Answer, Callback, CallbackEnd, Death, Host};
use gate_base::{Members, OutOfMemory, VmNo};
use gate_io::SentList;
use std::alloc::Global;
use std::mem;
use store_model::Shared;
use wasm_syntax::{Module, ValidModule};

/// A VM of a worker, and what is known of its module, also when it is no more.
#[derive(Drop)]
pub struct Slot {
    /// The functions that its module exports, by their roles.
    pub functions: Members<Option<u32>>,
    /// Whether its module registers queues.
    pub registers: bool,
    /// Its machine, while it lives.
    pub live: Option<Vm>,
}

/// The VMs of a worker, by their numbers.
#[derive(Drop)]
pub struct Vms {
    /// Each in its place; a VM that is never started has a place too.
    pub slots: Members<Slot>,
}

/// What comes of a callback, and what is left of the VM.
#[derive(Drop)]
struct Outcome {
    answer: Answer,
    vm: Option<Vm>,
}

/// The role of a callback.
fn role(name: Callback) -> Option<Role>
    ensures { result ≡ role_of name }
{
    match name {
        Callback::Begin => None,
        Callback::ContextCreate => Some(Role::ContextCreate),
        Callback::VmStart => Some(Role::VmStart),
        Callback::Configure => Some(Role::Configure),
        Callback::Tick => Some(Role::Tick),
        Callback::QueueReady => Some(Role::QueueReady),
        Callback::RequestHeaders => Some(Role::RequestHeaders),
        Callback::RequestBody => Some(Role::RequestBody),
        Callback::RequestTrailers => Some(Role::RequestTrailers),
        Callback::ResponseHeaders => Some(Role::ResponseHeaders),
        Callback::ResponseBody => Some(Role::ResponseBody),
        Callback::ResponseTrailers => Some(Role::ResponseTrailers),
        Callback::Done => Some(Role::Done),
        Callback::Log => Some(Role::Log),
        Callback::Delete => Some(Role::Delete),
        Callback::CallAnswered => Some(Role::CallAnswered),
        Callback::NewConnection => Some(Role::NewConnection),
        Callback::DownstreamData => Some(Role::DownstreamData),
        Callback::UpstreamData => Some(Role::UpstreamData),
        Callback::DownstreamClose => Some(Role::DownstreamClose),
        Callback::UpstreamClose => Some(Role::UpstreamClose),
    }
}

/// Whether a target registers queues.
fn is_register(target: ImportTarget) -> bool
    ensures { result ≡ is_register_of target }
{
    match target {
        ImportTarget::Proxy(HostCall::RegisterSharedQueue) => true,
        _ => false,
    }
}

/// Whether some target does.
fn registers(targets: &[ImportTarget]) -> bool
    ensures { result ≡ registers_in targets.now }
{
    targets.iter().any(|t| is_register(*t))
}

/// Whether a function of a role is exported.
fn exports_role(functions: &[Option<u32>], role: Option<Role>) -> bool
    ensures { result ≡ exports_role_in functions.now role }
{
    match role {
        Some(r) => function(functions, r).is_some(),
        None => false,
    }
}

/// How a callback ended, as the worker is told.
fn told(end: LastRunEnd) -> CallbackEnd
    ensures { result ≡ end_of end }
{
    match end {
        LastRunEnd::Returned { value } => CallbackEnd::Returned { value },
        LastRunEnd::Trapped { cause } => CallbackEnd::Died {
            death: Death::Trapped { cause },
        },
        LastRunEnd::FuelSpent => CallbackEnd::Died {
            death: Death::FuelSpent,
        },
    }
}

/// Whether the contexts of a VM are there, and no more VMs than so many.
fn is_at_home(most: usize, place: VmNo, contexts: &Contexts) -> bool
    ensures { result ≡ is_at_home_in most place contexts.now }
{
    (place.get() as usize) < contexts.vms.len() && contexts.vms.len() <= most
}

/// Whether a callback of a VM runs something: the VM lives, and has a function of the role, or the callback begins it.
fn has_work(live: &Option<Vm>, role: Option<Role>) -> bool
    ensures { result ≡ has_work_in live.now role }
{
    match live {
        Some(vm) => match role {
            Some(r) => vm.has_role(r),
            None => true,
        },
        None => false,
    }
}

/// Whether a callback of the VM at a place does.
fn is_called(slots: &[Slot], at: usize, name: Callback) -> bool
    ensures { result ≡ has_work_in (slice_index_or slots.now at no_slot).live (role_of name) }
{
    match slots.get(at) {
        Some(slot) => has_work(&slot.live, role(name)),
        None => false,
    }
}

/// Nothing was done.
fn silence(alloc: Global) -> Answer
    ensures end { result.end ≡ CallbackEnd.Returned None }
    ensures lines { result.lines ≡ [] }
{
    Answer {
        end: CallbackEnd::Returned { value: None },
        lines: SentList::new(alloc),
    }
}

/// Runs a callback of a VM, whose lines go after others.
fn run_role<S: Shared>(
    vm: Vm,
    alloc: Global,
    role: Option<Role>,
    numbers: Numbers,
    now: u64,
    contexts: &mut Contexts,
    lines: &mut SentList,
    shared: &mut S,
) -> Result<Ran, OutOfMemory>
    requires there { vm.calls.place < length contexts.old.vms }
    requires stores { length contexts.old.vms ≤ S.stores shared.old }
    ensures run { Ends S.performs shared.old (by_role role vm now numbers.context numbers.first numbers.second (host_state contexts.old lines.old)) (λ r. ran r.end r.vm (host_state contexts.new lines.new)) result shared.new }
    ensures stores { S.stores shared.new ≡ S.stores shared.old }
{
    match role {
        Some(r) => vm.call_role(alloc, contexts, lines, shared, now, r, numbers),
        None => vm.begin(alloc, contexts, lines, shared, now),
    }
}

/// Calls a callback of a VM that lives.
fn call_live<S: Shared>(
    vm: Vm,
    alloc: Global,
    name: Callback,
    numbers: Numbers,
    now: u64,
    contexts: &mut Contexts,
    shared: &mut S,
) -> Result<Outcome, OutOfMemory>
    requires there { vm.calls.place < length contexts.old.vms }
    requires stores { length contexts.old.vms ≤ S.stores shared.old }
    ensures run { Ends S.performs shared.old (calling_live vm name numbers.context numbers.first numbers.second now contexts.old) (λ o. came o.answer.end o.answer.lines o.vm contexts.new) result shared.new }
    ensures stores { S.stores shared.new ≡ S.stores shared.old }
{
    let mut lines = SentList::new(alloc);
    match run_role(
        vm,
        alloc,
        role(name),
        numbers,
        now,
        contexts,
        &mut lines,
        shared,
    ) {
        Ok(ran) => Ok(Outcome {
            answer: Answer {
                end: told(ran.end),
                lines,
            },
            vm: ran.vm,
        }),
        Err(e) => Err(e),
    }
}

/// Calls a callback of a VM, where it lives and its contexts are there.
fn call_slot<S: Shared>(
    live: Option<Vm>,
    alloc: Global,
    most: usize,
    name: Callback,
    numbers: Numbers,
    now: u64,
    contexts: &mut Contexts,
    shared: &mut S,
) -> Result<Outcome, OutOfMemory>
    requires stores { most ≤ S.stores shared.old }
    ensures run { Ends S.performs shared.old (calling_slot most live name numbers.context numbers.first numbers.second now contexts.old) (λ o. came o.answer.end o.answer.lines o.vm contexts.new) result shared.new }
    ensures stores { S.stores shared.new ≡ S.stores shared.old }
{
    match live {
        None => Ok(Outcome {
            answer: silence(alloc),
            vm: None,
        }),
        Some(vm) => {
            if is_at_home(most, vm.place(), contexts) {
                match call_live(vm, alloc, name, numbers, now, contexts, shared) {
                    Ok(outcome) => Ok(outcome),
                    Err(e) => Err(e),
                }
            } else {
                Ok(Outcome {
                    answer: silence(alloc),
                    vm: Some(vm),
                })
            }
        }
    }
}

/// What is known of a module: the functions that it exports, by their roles, and whether it registers queues.
fn known_of(alloc: Global, m: &Module) -> Result<(Members<Option<u32>>, bool), OutOfMemory>
    ensures functions { IfOk result (λ k. k.0 ≡ functions_for m.now.exports) }
    ensures registers { IfOk result (λ k. k.1 ≡ registers_in (targets_of m.now.imports)) }
{
    let targets = import_targets(alloc, m.imports.as_slice())?;
    let functions = functions(alloc, m.exports.as_slice())?;
    Ok((functions, registers(targets.as_slice())))
}

impl Slot {
    /// The VM of a number, whose module fits with so many pages, with so much fuel for each run. Nothing is run.
    pub fn new(
        alloc: Global,
        place: VmNo,
        code: ValidModule,
        pages: u32,
        fuel: u64,
    ) -> Result<Slot, OutOfMemory>
        requires fits { fit_fault code pages ≡ None }
        requires pages { pages ≤ 256 }
        ensures { IfOk result (λ s. s ≡ first_slot place code pages fuel) }
    {
        let (functions, registers) = match known_of(alloc, code.module()) {
            Ok(known) => known,
            Err(end) => {
                drop(code);
                return Err(end);
            }
        };
        let vm = Vm::new(alloc, place, code, pages, fuel)?;
        Ok(Slot {
            functions,
            registers,
            live: Some(vm),
        })
    }

    /// The place of a VM that is never started. It takes no memory.
    pub fn empty(alloc: Global) -> Slot
        ensures { result ≡ no_slot }
    {
        Slot {
            functions: Members::new(alloc),
            registers: false,
            live: None,
        }
    }
}

impl Vms {
    /// No VM. It takes no memory.
    pub fn new(alloc: Global) -> Vms
        ensures { result.slots ≡ [] }
    {
        Vms {
            slots: Members::new(alloc),
        }
    }

    /// One more, of the next number.
    pub fn push(&mut self, slot: Slot) -> Result<(), OutOfMemory>
        ensures ok { OnOk result (self.new.slots ≡ self.old.slots ++ slot ∷ []) }
        ensures err { OnErr result (self.new ≡ self.old) }
    {
        self.slots.push(slot)
    }
}

/// Takes the machine of a VM out of its place.
fn taken(slots: &mut Members<Slot>, at: usize) -> Option<Vm>
    requires { at < length slots.old }
    ensures live { result ≡ (slice_index_or slots.old at no_slot).live }
    ensures slots { slots.new ≡ slice_set slots.old at (record (slice_index_or slots.old at no_slot) { live = None }) }
{
    slots.get_mut(at).live.take()
}

/// Puts it back.
fn put_back(slots: &mut Members<Slot>, at: usize, live: Option<Vm>)
    requires { at < length slots.old }
    ensures { slots.new ≡ slice_set slots.old at (record (slice_index_or slots.old at no_slot) { live = live }) }
{
    drop(mem::replace(&mut slots.get_mut(at).live, live));
}

impl Host for Vms {
    ghost use Rattle.vm_host.specs.Slots.{exported_in, registering_in, calling, needs_of};

    ghost needs = { needs_of };

    ghost exported = { exported_in };

    ghost registering = { registering_in };

    ghost calling = { calling };

    fn exports(&self, vm: VmNo, name: Callback) -> bool {
        match self.slots.as_slice().get(vm.get() as usize) {
            Some(slot) => exports_role(slot.functions.as_slice(), role(name)),
            None => exports_role(&[], role(name)),
        }
    }

    fn registers(&self, vm: VmNo) -> bool {
        match self.slots.as_slice().get(vm.get() as usize) {
            Some(slot) => slot.registers,
            None => false,
        }
    }

    fn callback<S: Shared>(
        &mut self,
        alloc: Global,
        vm: VmNo,
        name: Callback,
        context: u32,
        first: u32,
        second: u32,
        now: u64,
        contexts: &mut Contexts,
        shared: &mut S,
    ) -> Result<Answer, OutOfMemory> {
        let at = vm.get() as usize;
        let most = self.slots.len();
        if at >= most {
            return Ok(silence(alloc));
        }
        if !is_called(self.slots.as_slice(), at, name) {
            return Ok(silence(alloc));
        }
        let live = taken(&mut self.slots, at);
        let numbers = Numbers {
            context,
            first,
            second,
        };
        match call_slot(live, alloc, most, name, numbers, now, contexts, shared) {
            Ok(outcome) => {
                put_back(&mut self.slots, at, outcome.vm);
                Ok(outcome.answer)
            }
            Err(e) => Err(e),
        }
    }
}
