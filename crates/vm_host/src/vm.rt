//! The machine of a VM.

ghost use Rattle.std.specs.Prelude.{◌≡◌, ◌≢◌, ◌≤◌, ◌<◌, Option, [], ◌∷◌, length, take, None, Some, IfOk, IfSome, IsErr, IsOkAnd, is_some, unwrap_or};
ghost use Rattle.gate_base.specs.declared.cause.Cause.{Cause as Causes};
ghost use Rattle.wasm_syntax.specs.declared.types.Value.{Value as Values};
ghost use Rattle.std.specs.Option.{option_or};
ghost use Rattle.wasm_store.specs.Linking.{link_fault};
ghost use Rattle.abi_links.specs.Judging.{judged_of, target_of};
ghost use Rattle.wasm_machine.specs.Machines.{Takes};
ghost use Rattle.store_model.specs.Program.{Ends};
ghost use Rattle.vm_host.specs.Fits.{fit_fault};
ghost use Rattle.vm_host.specs.HostStates.{host_state};
ghost use Rattle.vm_host.specs.Roles.{role_row as row_of};
ghost use Rattle.vm_host.specs.RoleTypes.{functions_by, functions_for, function_for, allocator_in, beginner_in, counts_in as counts_in_of, counts_at as counts_at_of, third_for, numbers_for, HasRole, TakesNothing};
ghost use Rattle.vm_host.specs.Targets.{targets_of, closings_of, closing_of as closing_for, import_target as target_for};
ghost use Rattle.vm_host.specs.Vms.{ran, number_of, first_vm, running, running_if, beginning, calling_role, made_effective, IsFirst, IsOutline, IsVm};
ghost use Rattle.vm_host.specs.Seeing.{guest_at};

use crate::calls::{RunEnd, run};
use crate::dispatch::Dispatcher;
use crate::ended::LastRunEnd;
use crate::fitting::exported;
use crate::machine_guest::MachineGuest;
use crate::roles::{ROLES, Role, role_name, role_place, role_row};
use abi_links::{ImportTarget, ProxyLinks, target_named};
use abi_model::WasiCall;
use abi_types::Closing;
use contexts::{CallAnswer, Contexts};
use gate_base::{ContextId, Members, OutOfMemory, VmNo};
use gate_io::SentList;
use std::alloc::{AllocError, Global};
use std::marker::Model;
use store_model::Shared;
use wasm_machine::Machine;
use wasm_store::Instance;
use wasm_syntax::{Export, Import, Module, ValidModule, Value};

/// What a VM is made of. It stands after a pointer, which alone is moved where a callback takes the VM out of its place.
#[derive(Drop)]
struct Parts {
    guest: MachineGuest,
    calls: Dispatcher,
    functions: Members<Option<u32>>,
    start: Option<u32>,
    budget: u64,
}

/// The machine of a VM that lives. Clauses see its guest as host calls do, what its imports stand for, the functions that
/// it exports by their roles, the start function, and the fuel of each run.
#[derive(Drop)]
pub struct Vm {
    parts: Box<Parts>,
}

impl Model for Vm {
    ghost use Rattle.vm_host.specs.Vms.{VmAt, IsVm};
    ghost use Rattle.vm_host.specs.Seeing.{guest_at};
    ghost use Rattle.std.specs.Coded.{codes};
    ghost use Rattle.vm_host.specs.Codes.{nested_code, thread_code};

    ghost Value = { VmAt };

    ghost coded = { Prim.hlevel (codes, nested_code, thread_code) };

    ghost view = { λ a. record { guest = guest_at a.parts.value.guest; calls = a.parts.value.calls; functions = a.parts.value.functions; start = a.parts.value.start; budget = a.parts.value.budget } };

    ghost invariant = { λ a. IsVm a.parts.value.guest a.parts.value.calls a.parts.value.functions a.parts.value.start };
}

/// What has become of a VM.
#[derive(Drop)]
pub struct Ran {
    /// How its last run ended.
    pub end: LastRunEnd,
    /// The VM, where it lives.
    pub vm: Option<Vm>,
}

impl Numbers {
    /// All that a callback may be given: its context and two numbers more, or its context, one more and the counts.
    fn values(self, role: Role, counts: Counts) -> [Value; 5]
        ensures { result ≡ Value.I32 self.context ∷ Value.I32 self.first ∷ Value.I32 (third_for role self.second counts) ∷ Value.I32 counts.bytes ∷ Value.I32 counts.trailers ∷ [] }
    {
        [
            Value::I32(self.context),
            Value::I32(self.first),
            Value::I32(third(role, self.second, counts)),
            Value::I32(counts.bytes),
            Value::I32(counts.trailers),
        ]
    }
}

/// What a callback is given after its context and the first number.
fn third(role: Role, second: u32, counts: Counts) -> u32
    ensures { result ≡ third_for role second counts }
{
    if role_place(role) == role_place(Role::CallAnswered) {
        counts.fields
    } else {
        second
    }
}

/// How much came back for a callout.
fn counts_in(answer: &Option<CallAnswer>) -> Counts
    ensures { result ≡ counts_in_of answer.now }
{
    match answer {
        None => Counts {
            fields: 0,
            bytes: 0,
            trailers: 0,
        },
        Some(a) => Counts {
            fields: a.fields.len() as u32,
            bytes: a.body.len() as u32,
            trailers: a.trailers.len() as u32,
        },
    }
}

/// How much came back for the callout of which a context is told.
fn counts_at(contexts: &Contexts, place: VmNo, context: u32) -> Counts
    requires { place < length contexts.now.vms }
    ensures { result ≡ counts_at_of place context contexts.now }
{
    match contexts.own_of(place, ContextId::new(context)) {
        Some(own) => counts_in(&own.answer),
        None => counts_in(&None),
    }
}

/// As many of five values as a role takes.
fn first_of(all: &[Value; 5], role: Role) -> &[Value]
    ensures { result.now ≡ take (length (row_of role)) all.now }
{
    &all[..role_row(role).len()]
}

/// What two names stand for, where they are linked.
fn target_or(home: &[u8], name: &[u8]) -> ImportTarget
    ensures { result ≡ unwrap_or (target_of home.now name.now) ImportTarget.OtherProxy }
{
    match target_named(home, name) {
        Some(target) => target,
        None => ImportTarget::OtherProxy,
    }
}

/// What a callback is given: its context, and two numbers more.
#[derive(Clone, Copy)]
pub struct Numbers {
    pub context: u32,
    pub first: u32,
    pub second: u32,
}

/// How much came back for the callout of which a context is told, where it is told of one: fields, bytes and trailers.
#[derive(Clone, Copy)]
pub struct Counts {
    pub fields: u32,
    pub bytes: u32,
    pub trailers: u32,
}

/// What an import stands for.
fn import_target(i: &Import) -> ImportTarget
    ensures { result ≡ target_for i.now }
{
    target_or(i.module.as_str().as_bytes(), i.name.as_str().as_bytes())
}

/// What all imports stand for.
pub(crate) fn import_targets(
    alloc: Global,
    imports: &[Import],
) -> Result<Members<ImportTarget>, OutOfMemory>
    ensures { IfOk result (λ ts. ts ≡ targets_of imports.now) }
{
    let mut targets = Members::new(alloc);
    for i in imports {
        targets.push(import_target(i))?;
    }
    Ok(targets)
}

/// What a target answers while the host is closed.
fn closing(target: ImportTarget) -> Closing
    ensures { result ≡ closing_for target }
{
    match target {
        ImportTarget::Proxy(_) | ImportTarget::OtherProxy => Closing::Status { number: 10 },
        ImportTarget::MemoryGrowth => Closing::Nothing,
        ImportTarget::Wasi(WasiCall::ProcExit) => Closing::Exit,
        ImportTarget::Wasi(_) | ImportTarget::OtherWasi => Closing::Status { number: 52 },
    }
}

/// What all targets answer while the host is closed.
fn closings(alloc: Global, targets: &[ImportTarget]) -> Result<Members<Closing>, OutOfMemory>
    ensures { IfOk result (λ cs. cs ≡ closings_of targets.now) }
{
    let mut closed = Members::new(alloc);
    for t in targets {
        closed.push(closing(*t))?;
    }
    Ok(closed)
}

/// The functions that are exported, by these roles.
fn functions_by(
    alloc: Global,
    roles: &[Role],
    exports: &[Export],
) -> Result<Members<Option<u32>>, OutOfMemory>
    ensures { IfOk result (λ fs. fs ≡ functions_by roles.now exports.now) }
{
    let mut found = Members::new(alloc);
    for r in roles {
        found.push(exported(role_name(*r), exports))?;
    }
    Ok(found)
}

/// The functions that are exported, by their roles.
pub(crate) fn functions(
    alloc: Global,
    exports: &[Export],
) -> Result<Members<Option<u32>>, OutOfMemory>
    ensures { IfOk result (λ fs. fs ≡ functions_for exports.now) }
{
    functions_by(alloc, &ROLES, exports)
}

/// A number that was returned.
fn number(value: Option<Value>) -> Option<u32>
    ensures { result ≡ number_of value }
{
    match value {
        Some(Value::I32(n)) => Some(n),
        Some(Value::I64(_)) => None,
        None => None,
    }
}

/// The first of two.
fn either(a: Option<u32>, b: Option<u32>) -> Option<u32>
    ensures { result ≡ option_or a b }
{
    match a {
        Some(x) => Some(x),
        None => b,
    }
}

/// The function of a role.
pub(crate) fn function(functions: &[Option<u32>], role: Role) -> Option<u32>
    ensures { result ≡ function_for functions.now role }
{
    match functions.get(role_place(role)) {
        Some(f) => *f,
        None => None,
    }
}

/// The function that allocates.
fn allocator(functions: &[Option<u32>]) -> Option<u32>
    ensures { result ≡ allocator_in functions.now }
{
    either(
        function(functions, Role::MemoryAllocate),
        function(functions, Role::Malloc),
    )
}

/// The function that begins, after the module's start function.
fn beginner(functions: &[Option<u32>]) -> Option<u32>
    ensures { result ≡ beginner_in functions.now }
{
    either(
        function(functions, Role::Initialize),
        function(functions, Role::Start),
    )
}

/// The machine of the instance of a module.
fn machine_of(alloc: Global, code: ValidModule, pages: u32) -> Result<Machine, OutOfMemory>
    requires none { link_fault judged_of code pages ≡ None }
    requires pages { pages ≤ 256 }
    ensures { IfOk result (IsFirst code pages) }
{
    match Instance::new(alloc, code, &ProxyLinks, pages) {
        Ok(i) => Machine::new(alloc, i),
        Err(_) => Err(AllocError),
    }
}

/// What a module tells of its calls.
#[derive(Drop)]
struct Outline {
    targets: Members<ImportTarget>,
    closed: Members<Closing>,
    functions: Members<Option<u32>>,
    start: Option<u32>,
}

/// The outline of a module.
fn outline_of(alloc: Global, m: &Module) -> Result<Outline, OutOfMemory>
    ensures { IfOk result (λ o. IsOutline m.now o.targets o.closed o.functions o.start) }
{
    let targets = import_targets(alloc, m.imports.as_slice())?;
    let closed = closings(alloc, targets.as_slice())?;
    let functions = functions(alloc, m.exports.as_slice())?;
    Ok(Outline {
        targets,
        closed,
        functions,
        start: m.start,
    })
}

/// What is told of a run that did not return: its VM is no more.
fn gone(end: RunEnd) -> Result<Ran, OutOfMemory>
    requires { (value : Option Values) → end ≢ RunEnd.Returned value }
    ensures trapped { (cause : Causes) → end ≡ RunEnd.Trapped cause → IsOkAnd result (λ r. (r.end ≡ LastRunEnd.Trapped cause) × (r.vm ≡ None)) }
    ensures spent { end ≡ RunEnd.FuelSpent → IsOkAnd result (λ r. (r.end ≡ LastRunEnd.FuelSpent) × (r.vm ≡ None)) }
    ensures memory { end ≡ RunEnd.OutOfMemory → IsErr result }
    ensures none { IfOk result (λ r. r.vm ≡ None) }
{
    match end {
        RunEnd::Returned { .. } => unreachable!(),
        RunEnd::Trapped { cause } => Ok(Ran {
            end: LastRunEnd::Trapped { cause },
            vm: None,
        }),
        RunEnd::FuelSpent => Ok(Ran {
            end: LastRunEnd::FuelSpent,
            vm: None,
        }),
        RunEnd::OutOfMemory => Err(AllocError),
    }
}

/// What is told of a run that returned: its VM lives.
fn alive(value: Option<Value>, parts: Box<Parts>) -> Ran
    requires { IsVm parts.value.guest parts.value.calls parts.value.functions parts.value.start }
    ensures end { result.end ≡ LastRunEnd.Returned (number_of value) }
    ensures vm { result.vm ≡ Some (record { guest = guest_at parts.value.guest; calls = parts.value.calls; functions = parts.value.functions; start = parts.value.start; budget = parts.value.budget }) }
{
    Ran {
        end: LastRunEnd::Returned {
            value: number(value),
        },
        vm: Some(Vm { parts }),
    }
}

/// Makes a context of a VM the effective one, where the VM has it.
fn make_effective(contexts: &mut Contexts, place: VmNo, context: u32)
    requires { place < length contexts.old.vms }
    ensures effective { contexts.new ≡ made_effective place context contexts.old }
    ensures vms { length contexts.new.vms ≡ length contexts.old.vms }
{
    let _ = contexts.set_effective(place, ContextId::new(context));
}

impl Vm {
    /// The VM of a number, whose module fits with so many pages, with so much fuel for each run. Nothing is run.
    pub fn new(
        alloc: Global,
        place: VmNo,
        code: ValidModule,
        pages: u32,
        fuel: u64,
    ) -> Result<Vm, OutOfMemory>
        requires fits { fit_fault code pages ≡ None }
        requires pages { pages ≤ 256 }
        ensures { IfOk result (λ v. v ≡ first_vm place code pages fuel) }
    {
        let outline = match outline_of(alloc, code.module()) {
            Ok(outline) => outline,
            Err(end) => {
                drop(code);
                return Err(end);
            }
        };
        let machine = machine_of(alloc, code, pages)?;
        let allocator = allocator(outline.functions.as_slice());
        let parts = Box::new(
            alloc,
            Parts {
                guest: MachineGuest {
                    machine,
                    allocator,
                    closed: outline.closed,
                    fuel,
                },
                calls: Dispatcher {
                    place,
                    targets: outline.targets,
                },
                functions: outline.functions,
                start: outline.start,
                budget: fuel,
            },
        )?;
        Ok(Vm { parts })
    }

    /// Its number.
    pub(crate) fn place(&self) -> VmNo
        ensures { result ≡ self.now.calls.place }
    {
        self.parts.calls.place
    }

    /// The function of a role, which takes what the role says.
    fn function_of(&self, role: Role) -> Option<u32>
        ensures is { result ≡ function_for self.now.functions role }
        ensures typed { IfSome result (HasRole self.now.guest.program role) }
    {
        function(self.parts.functions.as_slice(), role)
    }

    /// Whether it has a function of a role.
    pub(crate) fn has_role(&self, role: Role) -> bool
        ensures { result ≡ is_some (function_for self.now.functions role) }
    {
        self.function_of(role).is_some()
    }

    /// Runs a function with the whole budget.
    fn run<S: Shared>(
        self,
        alloc: Global,
        contexts: &mut Contexts,
        lines: &mut SentList,
        shared: &mut S,
        now: u64,
        func: u32,
        args: &[Value],
    ) -> Result<Ran, OutOfMemory>
        requires there { self.calls.place < length contexts.old.vms }
        requires stores { length contexts.old.vms ≤ S.stores shared.old }
        requires takes { Takes self.guest.program func args.now }
        ensures run { Ends S.performs shared.old (running self now func args.now (host_state contexts.old lines.old)) (λ r. ran r.end r.vm (host_state contexts.new lines.new)) result shared.new }
        ensures kept { IfOk result (λ r. IfSome r.vm (λ v. v.calls ≡ self.calls)) }
        ensures vms { IfOk result (λ r. IfSome r.vm (λ _. length contexts.new.vms ≡ length contexts.old.vms)) }
        ensures stores { S.stores shared.new ≡ S.stores shared.old }
    {
        let Vm { mut parts } = self;
        let p = &mut *parts;
        p.guest.fuel = p.budget;
        let end = run(
            alloc,
            &mut p.guest,
            &p.calls,
            contexts,
            lines,
            shared,
            now,
            func,
            args,
        );
        let RunEnd::Returned { value } = end else {
            drop(parts);
            return gone(end);
        };
        Ok(alive(value, parts))
    }

    /// Runs a function that takes nothing, where there is one.
    fn run_if<S: Shared>(
        self,
        alloc: Global,
        contexts: &mut Contexts,
        lines: &mut SentList,
        shared: &mut S,
        now: u64,
        func: Option<u32>,
    ) -> Result<Ran, OutOfMemory>
        requires there { self.calls.place < length contexts.old.vms }
        requires stores { length contexts.old.vms ≤ S.stores shared.old }
        requires takes { TakesNothing self.guest.program func }
        ensures run { Ends S.performs shared.old (running_if self now func [] (host_state contexts.old lines.old)) (λ r. ran r.end r.vm (host_state contexts.new lines.new)) result shared.new }
        ensures kept { IfOk result (λ r. IfSome r.vm (λ v. v.calls ≡ self.calls)) }
        ensures vms { IfOk result (λ r. IfSome r.vm (λ _. length contexts.new.vms ≡ length contexts.old.vms)) }
        ensures stores { S.stores shared.new ≡ S.stores shared.old }
    {
        match func {
            Some(f) => self.run(alloc, contexts, lines, shared, now, f, &[]),
            None => Ok(Ran {
                end: LastRunEnd::Returned { value: None },
                vm: Some(self),
            }),
        }
    }

    /// Runs the function that begins after the start function, where there is one.
    fn begin_further<S: Shared>(
        self,
        alloc: Global,
        contexts: &mut Contexts,
        lines: &mut SentList,
        shared: &mut S,
        now: u64,
    ) -> Result<Ran, OutOfMemory>
        requires there { self.calls.place < length contexts.old.vms }
        requires stores { length contexts.old.vms ≤ S.stores shared.old }
        ensures run { Ends S.performs shared.old (running_if self now (beginner_in self.functions) [] (host_state contexts.old lines.old)) (λ r. ran r.end r.vm (host_state contexts.new lines.new)) result shared.new }
        ensures stores { S.stores shared.new ≡ S.stores shared.old }
    {
        let func = beginner(self.parts.functions.as_slice());
        self.run_if(alloc, contexts, lines, shared, now, func)
    }

    /// Runs the start function of the module, where there is one.
    fn begin_first<S: Shared>(
        self,
        alloc: Global,
        contexts: &mut Contexts,
        lines: &mut SentList,
        shared: &mut S,
        now: u64,
    ) -> Result<Ran, OutOfMemory>
        requires there { self.calls.place < length contexts.old.vms }
        requires stores { length contexts.old.vms ≤ S.stores shared.old }
        ensures run { Ends S.performs shared.old (running_if self now self.start [] (host_state contexts.old lines.old)) (λ r. ran r.end r.vm (host_state contexts.new lines.new)) result shared.new }
        ensures kept { IfOk result (λ r. IfSome r.vm (λ v. v.calls ≡ self.calls)) }
        ensures vms { IfOk result (λ r. IfSome r.vm (λ _. length contexts.new.vms ≡ length contexts.old.vms)) }
        ensures stores { S.stores shared.new ≡ S.stores shared.old }
    {
        let func = self.parts.start;
        self.run_if(alloc, contexts, lines, shared, now, func)
    }

    /// Begins: runs the start function of the module, and then `_initialize` or else `_start`, where they are there, each
    /// with the whole budget.
    pub(crate) fn begin<S: Shared>(
        self,
        alloc: Global,
        contexts: &mut Contexts,
        lines: &mut SentList,
        shared: &mut S,
        now: u64,
    ) -> Result<Ran, OutOfMemory>
        requires there { self.calls.place < length contexts.old.vms }
        requires stores { length contexts.old.vms ≤ S.stores shared.old }
        ensures run { Ends S.performs shared.old (beginning self now (host_state contexts.old lines.old)) (λ r. ran r.end r.vm (host_state contexts.new lines.new)) result shared.new }
        ensures stores { S.stores shared.new ≡ S.stores shared.old }
    {
        match self.begin_first(alloc, contexts, lines, shared, now) {
            Ok(first) => match first.vm {
                Some(vm) => match vm.begin_further(alloc, contexts, lines, shared, now) {
                    Ok(further) => Ok(further),
                    Err(e) => Err(e),
                },
                None => Ok(Ran {
                    end: first.end,
                    vm: None,
                }),
            },
            Err(e) => Err(e),
        }
    }

    /// Calls the function of a role with its context, which is the effective one then, two numbers more and the counts: it is
    /// given as many of them as it has parameters. One that is not exported does nothing.
    pub(crate) fn call_role<S: Shared>(
        self,
        alloc: Global,
        contexts: &mut Contexts,
        lines: &mut SentList,
        shared: &mut S,
        now: u64,
        role: Role,
        numbers: Numbers,
    ) -> Result<Ran, OutOfMemory>
        requires there { self.calls.place < length contexts.old.vms }
        requires stores { length contexts.old.vms ≤ S.stores shared.old }
        ensures run { Ends S.performs shared.old (calling_role self now role numbers.context numbers.first numbers.second (host_state contexts.old lines.old)) (λ r. ran r.end r.vm (host_state contexts.new lines.new)) result shared.new }
        ensures stores { S.stores shared.new ≡ S.stores shared.old }
    {
        let func = match self.function_of(role) {
            Some(func) => func,
            None => {
                return Ok(Ran {
                    end: LastRunEnd::Returned { value: None },
                    vm: Some(self),
                });
            }
        };
        let counts = counts_at(contexts, self.place(), numbers.context);
        make_effective(contexts, self.place(), numbers.context);
        let all = numbers.values(role, counts);
        let args = first_of(&all, role);
        self.run(alloc, contexts, lines, shared, now, func, args)
    }
}
