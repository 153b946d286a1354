//! The machine.

ghost use Rattle.std.specs.Prelude.{◌≡◌, ◌≤◌, length, drop, None};
ghost use Rattle.wasm_machine.specs.Held.{held};
ghost use Rattle.std.specs.Prelude.{ℕ, IfOk};
ghost use Rattle.wasm_syntax.specs.declared.module.Module.{Module as Modules};
ghost use Rattle.wasm_syntax.specs.ReductionRuns.{run as running};
ghost use Rattle.wasm_syntax.specs.ReductionPrograms.{program_of, called_config};
ghost use Rattle.wasm_store.specs.Linking.{IsLinked};
ghost use Rattle.wasm_machine.specs.Machines.{asking, pending_after, mode_after, program_with, Takes, StopsAs};

use crate::run::{Stop, run};
use crate::stack::Stack;
use crate::state::State;
use gate_base::OutOfMemory;
use std::alloc::Global;
use std::marker::Model;
use wasm_flat::Program;
use wasm_store::{Instance, Memory};
use wasm_syntax::{FunctionType, Value};

/// What may be done with a machine.
#[derive(Clone, Copy, PartialEq, Eq)]
pub enum Mode {
    /// A call goes on.
    Running,
    /// No call is pending, or the topmost one waits for the host's answer.
    Resting,
    /// It trapped or spent its fuel, and is used no more.
    Dead,
}

/// A call from outside that is not finished.
#[derive(Clone, Copy, PartialEq, Eq)]
pub struct Pending {
    /// The function that was called, by its index.
    pub function: u32,
    /// The imported function, by its index, whose result it waits for.
    pub asked: Option<u32>,
}

/// How many calls from outside may be unfinished at once.
pub const MOST_PENDING: usize = 257;

/// A machine that runs the code of an instance. Clauses see the program, the configuration of nested code that it
/// stands for, and the calls from outside that are unfinished. All that it ever needs is reserved at the start.
#[derive(Drop)]
pub struct Machine {
    program: Program,
    state: State,
    pending: Stack<Pending>,
    mode: Mode,
}

impl Model for Machine {
    ghost use Rattle.std.specs.Prelude.{◌≡◌};
    ghost use Rattle.wasm_machine.specs.Machines.{View};
    ghost use Rattle.wasm_machine.specs.Kept.{IsKept};

    ghost Value = { View };

    ghost view = { λ a. record { fixed = a.program; live = a.state; pending = a.pending.members; mode = a.mode } };

    ghost invariant = { λ a. IsKept a.mode a.program a.state a.pending.members × (a.pending.room ≡ 257) };
}

/// The topmost call waits in that function, or in none.
fn set_asked(pending: &mut Stack<Pending>, asked: Option<u32>)
    requires { length pending.old.members ≤ pending.old.room }
    ensures { pending.new ≡ held (asking asked pending.old.members) pending.old.room }
{
    if let Some(p) = pending.pop() {
        pending.push(Pending {
            function: p.function,
            asked,
        });
    }
}

/// What a stop makes of the unfinished calls, and of the machine.
fn settle(stop: &Stop, pending: &mut Stack<Pending>) -> Mode
    requires { length pending.old.members ≤ pending.old.room }
    ensures pending { pending.new ≡ held (pending_after stop.now pending.old.members) pending.old.room }
    ensures mode { result ≡ mode_after stop.now }
{
    match stop {
        Stop::Finished { .. } => {
            pending.pop();
            Mode::Resting
        }
        Stop::HostCall { import, .. } => {
            set_asked(pending, Some(*import));
            Mode::Resting
        }
        Stop::Trap { .. } | Stop::FuelSpent => Mode::Dead,
    }
}

impl Machine {
    ghost use Rattle.std.specs.Prelude.{◌<◌, ◌+◌, ◌↔◌, [], IsTrue, IfSome, IfNone, slice_get};
    ghost use Rattle.wasm_syntax.specs.Memory.{written};
    ghost use Rattle.wasm_syntax.specs.ReductionPrograms.{first_config};
    ghost use Rattle.wasm_syntax.specs.ReductionSteps.{answered_config, invoked_config, idle_config};
    ghost use Rattle.wasm_syntax.specs.ReductionRuns.{enough};
    ghost use Rattle.wasm_machine.specs.Acted.{stores};
    ghost use Rattle.wasm_flat.specs.Holds.{HasType};
    ghost use Rattle.wasm_machine.specs.Machines.{program_at, config_at, CanAnswer, begun, asked_of, pending_after, mode_after, with_memory, stopped_as, StandsBefore, Tells, Lowers};
    ghost use Rattle.wasm_machine.specs.declared.machine.Mode.TheVariants as mode;

    /// The machine of an instance, with no call. A type of more than 65,536 parameters, and a body of 2^32
    /// instructions, have no room.
    pub fn new(alloc: Global, i: Instance) -> Result<Machine, OutOfMemory>
        ensures program { IfOk result (λ m. program_at m ≡ program_with i.of i.memory.most) }
        ensures config { IfOk result (λ m. config_at m ≡ idle_config (stores i.memory.bytes i.table i.globals)) }
        ensures pending { IfOk result (λ m. m.pending ≡ []) }
        ensures mode { IfOk result (λ m. m.mode ≡ mode.Resting) }
        ensures linked { (m : Modules) (pages : ℕ) → IsLinked m pages i → IfOk result (λ k. (program_at k ≡ program_of m pages) × (config_at k ≡ first_config m)) }
    {
        let parts = i.into_parts();
        let program = Program::new(alloc, parts.module)?;
        let none = program.count();
        let state = State::idle(alloc, parts.memory, parts.table, parts.globals, none)?;
        Ok(Machine {
            program,
            state,
            pending: Stack::new(alloc, MOST_PENDING)?,
            mode: Mode::Resting,
        })
    }

    /// Calls a function from outside with arguments of its parameters, in order, on top of the calls that wait.
    pub fn invoke(&mut self, func: u32, args: &[Value])
        requires resting { self.old.mode ≡ mode.Resting }
        requires few { length self.old.pending ≤ 256 }
        requires takes { Takes (program_at self.old) func args.now }
        ensures config { config_at self.new ≡ invoked_config func (slice_get (program_at self.old).functions func) args.now (config_at self.old) }
        ensures program { program_at self.new ≡ program_at self.old }
        ensures pending { self.new.pending ≡ begun func self.old.pending }
        ensures mode { self.new.mode ≡ mode.Running }
    {
        self.state.invoke(&self.program, func, args);
        self.pending.push(Pending {
            function: func,
            asked: None,
        });
        self.mode = Mode::Running;
    }

    /// Runs the topmost call until it stops. The fuel falls by the units that were used. Where it was spent the machine
    /// stands at the configuration whose step needs more than is left, and its memory is that one's: nothing of the step
    /// was done.
    pub fn run(&mut self, fuel: &mut u64) -> Stop
        requires running { self.old.mode ≡ mode.Running }
        ensures run { running (program_at self.old) fuel.old (config_at self.old) ≡ stopped_as result (config_at self.new) fuel.new }
        ensures spent { StandsBefore (program_at self.old) fuel.old (config_at self.old) result fuel.new (config_at self.new) }
        ensures program { program_at self.new ≡ program_at self.old }
        ensures pending { self.new.pending ≡ pending_after result self.old.pending }
        ensures mode { self.new.mode ≡ mode_after result }
        ensures fuel { fuel.new ≤ fuel.old }
        ensures tells { Tells (program_at self.old) self.old.pending result }
        ensures lower { Lowers result (enough fuel.new (config_at self.new)) (enough fuel.old (config_at self.old)) }
    {
        let stop = run(&self.program, &mut self.state, fuel);
        let mode = settle(&stop, &mut self.pending);
        self.mode = mode;
        stop
    }

    /// Calls a function from outside and runs it until it stops.
    pub fn call(&mut self, func: u32, args: &[Value], fuel: &mut u64) -> Stop
        requires resting { self.old.mode ≡ mode.Resting }
        requires few { length self.old.pending ≤ 256 }
        requires takes { Takes (program_at self.old) func args.now }
        ensures run { running (program_at self.old) fuel.old (invoked_config func (slice_get (program_at self.old).functions func) args.now (config_at self.old)) ≡ stopped_as result (config_at self.new) fuel.new }
        ensures spent { StandsBefore (program_at self.old) fuel.old (invoked_config func (slice_get (program_at self.old).functions func) args.now (config_at self.old)) result fuel.new (config_at self.new) }
        ensures program { program_at self.new ≡ program_at self.old }
        ensures pending { self.new.pending ≡ pending_after result (begun func self.old.pending) }
        ensures mode { self.new.mode ≡ mode_after result }
        ensures fuel { fuel.new ≤ fuel.old }
        ensures tells { Tells (program_at self.old) (begun func self.old.pending) result }
    {
        self.invoke(func, args);
        self.run(fuel)
    }

    /// Answers the call that waits with the host's result.
    pub fn resume(&mut self, answer: Option<Value>)
        requires resting { self.old.mode ≡ mode.Resting }
        requires waits { CanAnswer (program_at self.old) self.old.pending answer }
        ensures config { config_at self.new ≡ answered_config answer (config_at self.old) }
        ensures program { program_at self.new ≡ program_at self.old }
        ensures pending { self.new.pending ≡ asking None self.old.pending }
        ensures mode { self.new.mode ≡ mode.Running }
    {
        self.state.answer(answer);
        set_asked(&mut self.pending, None);
        self.mode = Mode::Running;
    }

    /// The type of the function of an index, where it is there.
    pub fn type_of(&self, func: u32) -> Option<&FunctionType>
        ensures some { IfSome result (λ t. HasType (program_at self.now) func t.now) }
        ensures none { IfNone result (slice_get (program_at self.now).functions func ≡ None) }
    {
        self.program.type_of(func)
    }

    /// What may be done with it.
    pub fn mode(&self) -> Mode
        ensures { result ≡ self.now.mode }
    {
        self.mode
    }

    /// How many calls from outside are unfinished.
    pub fn pending(&self) -> usize
        ensures { result ≡ length self.now.pending }
    {
        self.pending.len()
    }

    /// The imported function in which the topmost call waits.
    pub fn waits_in(&self) -> Option<u32>
        ensures { result ≡ asked_of self.now.pending }
    {
        match self.pending.get(0) {
            Some(p) => p.asked,
            None => None,
        }
    }

    /// Whether the function of an index is there and takes these arguments.
    pub fn takes(&self, func: u32, args: &[Value]) -> bool
        ensures { IsTrue result ↔ Takes (program_at self.now) func args.now }
    {
        self.program.takes(func, args)
    }

    /// Whether the topmost call waits for such a result.
    pub fn can_answer(&self, answer: Option<Value>) -> bool
        ensures { IsTrue result ↔ CanAnswer (program_at self.now) self.now.pending answer }
    {
        match self.waits_in() {
            Some(x) => self.program.gives(x, answer),
            None => false,
        }
    }

    /// Its memory: that of the configuration that it stands for, also where it spent its fuel.
    pub fn memory(&self) -> &Memory
        ensures bytes { result.now.bytes ≡ (config_at self.now).store.memory }
        ensures most { result.now.most ≡ (program_at self.now).most }
    {
        self.state.memory()
    }

    /// Writes bytes into its memory from a place on, while it rests: none, with nothing changed, exactly where they
    /// are not all inside.
    pub fn write(&mut self, at: u64, bytes: &[u8]) -> Option<()>
        requires { self.old.mode ≡ mode.Resting }
        ensures some { IfSome result (λ _. (at + length bytes.now ≤ length (config_at self.old).store.memory) × ((config_at self.new) ≡ with_memory (written (config_at self.old).store.memory at bytes.now) (config_at self.old))) }
        ensures none { IfNone result ((length (config_at self.old).store.memory < at + length bytes.now) × ((config_at self.new) ≡ (config_at self.old))) }
        ensures program { program_at self.new ≡ program_at self.old }
        ensures pending { self.new.pending ≡ self.old.pending }
        ensures mode { self.new.mode ≡ mode.Resting }
    {
        self.state.write(at, bytes)
    }
}

/// Makes the machine of an instance, calls one function, and runs it until it stops.
pub fn call_once(
    alloc: Global,
    i: Instance,
    func: u32,
    args: &[Value],
    fuel: &mut u64,
) -> Result<Stop, OutOfMemory>
    requires { Takes (program_with i.of i.memory.most) func args.now }
    ensures { (m : Modules) (pages : ℕ) → IsLinked m pages i → IfOk result (λ stop. StopsAs (running (program_of m pages) fuel.old (called_config m pages func args.now)) stop fuel.new) }
{
    let mut machine = Machine::new(alloc, i)?;
    Ok(machine.call(func, args, fuel))
}
