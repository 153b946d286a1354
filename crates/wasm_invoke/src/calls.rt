//! The call.

ghost use Rattle.std.specs.Prelude.{◌≡◌, ℕ, List, [], Some, slice_get, map, string_bytes, IfOk, IfErr, OnOk};
ghost use Rattle.wasm_syntax.specs.ReductionSteps.{invoked_config};
ghost use Rattle.wasm_syntax.specs.ReductionRuns.{run};
ghost use Rattle.wasm_machine.specs.Machines.{program_at, config_at, Takes};
ghost use Rattle.wasm_machine.specs.declared.machine.Mode.TheVariants.{Resting};
ghost use Rattle.wasm_invoke.specs.Invoking.{Invokes, budget, called, started, went_as};
ghost use Rattle.wasm_invoke.specs.Readied.{IsLinkedModule, EndsAnyhow, IsReadied, AsksNobody, AreGiven, AreRefused, TakesNothing, StartsAs, WentAs};

use crate::arguments::arguments;
use crate::ends::{End, Invoked, Refusal};
use crate::exports::exported;
use std::alloc::Global;
use wasm_machine::{Machine, Stop};
use wasm_reader::read_module;
use wasm_store::{Instance, NoLinks};
use wasm_syntax::Value;
use wasm_validator::validate;

/// The units of fuel that each call has.
const BUDGET: u64 = 10_000_000;

/// How many pages a memory may have.
const PAGES: u32 = 128;

/// A machine on which nothing has run, and the functions of its module that are to be called.
#[derive(Drop)]
struct Ready {
    machine: Machine,
    /// The function that runs at the start.
    start: Option<u32>,
    /// The function that is exported under the name that was asked for.
    function: Option<u32>,
}

/// The instance of the module that bytes spell.
fn linked(alloc: Global, bytes: &[u8]) -> Result<Instance, End>
    ensures linked { IfOk result (IsLinkedModule bytes.now) }
    ensures refused { IfErr result (EndsAnyhow bytes.now) }
{
    let module = read_module(alloc, bytes)?;
    let module = validate(alloc, module)?;
    Ok(Instance::new(alloc, module, &NoLinks, PAGES)?)
}

/// The machine of that instance, and the functions that are to be called.
fn readied(alloc: Global, bytes: &[u8], export: &str) -> Result<Ready, End>
    ensures ready { IfOk result (λ r. IsReadied bytes.now export.now r.start r.function r.machine) }
    ensures refused { IfErr result (EndsAnyhow bytes.now) }
{
    let instance = linked(alloc, bytes)?;
    let module = instance.module();
    let start = module.start;
    let function = exported(export, module.exports.as_slice());
    let machine = Machine::new(alloc, instance)?;
    Ok(Ready {
        machine,
        start,
        function,
    })
}

/// The values that words write as arguments of a function.
fn given(alloc: Global, machine: &Machine, func: u32, words: &[String]) -> Result<Vec<Value>, End>
    ensures are { IfOk result (λ v. AreGiven (program_at machine.now) func (map string_bytes words.now) v.items) }
    ensures refused { IfErr result (AreRefused (program_at machine.now) func (map string_bytes words.now)) }
{
    let Some(of) = machine.type_of(func) else {
        return Err(End::Refused(Refusal::Arguments));
    };
    match arguments(alloc, of.parameters.as_slice(), words)? {
        Some(values) => Ok(values),
        None => Err(End::Refused(Refusal::Arguments)),
    }
}

/// Runs the start function, if there is one, with a budget of its own.
fn run_start(machine: &mut Machine, start: Option<u32>) -> Result<(), End>
    requires resting { machine.old.mode ≡ Resting }
    requires idle { machine.old.pending ≡ [] }
    requires takes { TakesNothing (program_at machine.old) start }
    requires alone { AsksNobody (program_at machine.old) }
    ensures started { StartsAs result (config_at machine.new) (started (program_at machine.old) start (config_at machine.old)) }
    ensures program { program_at machine.new ≡ program_at machine.old }
    ensures idle { OnOk result (machine.new.pending ≡ []) }
    ensures resting { OnOk result (machine.new.mode ≡ Resting) }
{
    let Some(func) = start else {
        return Ok(());
    };
    let mut fuel = BUDGET;
    match machine.call(func, &[], &mut fuel) {
        Stop::Finished { .. } => Ok(()),
        Stop::Trap { cause } => Err(End::Trapped(cause)),
        Stop::FuelSpent => Err(End::FuelSpent),
        Stop::HostCall { .. } => unreachable!(),
    }
}

/// Calls a function with a budget of its own.
fn call(machine: &mut Machine, func: u32, args: &[Value]) -> Result<Invoked, End>
    requires resting { machine.old.mode ≡ Resting }
    requires idle { machine.old.pending ≡ [] }
    requires takes { Takes (program_at machine.old) func args.now }
    requires alone { AsksNobody (program_at machine.old) }
    ensures { WentAs result (went_as (run (program_at machine.old) budget (invoked_config func (slice_get (program_at machine.old).functions func) args.now (config_at machine.old)))) }
{
    let mut fuel = BUDGET;
    match machine.call(func, args, &mut fuel) {
        Stop::Finished { result } => Ok(Invoked {
            result,
            used: BUDGET - fuel,
        }),
        Stop::Trap { cause } => Err(End::Trapped(cause)),
        Stop::FuelSpent => Err(End::FuelSpent),
        Stop::HostCall { .. } => unreachable!(),
    }
}

/// Runs the start function, if there is one, and then calls another.
fn called(
    machine: &mut Machine,
    start: Option<u32>,
    func: u32,
    args: &[Value],
) -> Result<Invoked, End>
    requires resting { machine.old.mode ≡ Resting }
    requires idle { machine.old.pending ≡ [] }
    requires start { TakesNothing (program_at machine.old) start }
    requires takes { Takes (program_at machine.old) func args.now }
    requires alone { AsksNobody (program_at machine.old) }
    ensures { WentAs result (called (program_at machine.old) func args.now (started (program_at machine.old) start (config_at machine.old))) }
{
    run_start(machine, start)?;
    call(machine, func, args)
}

/// Calls the function that was asked for, with the arguments that the words write.
fn answered(alloc: Global, ready: &mut Ready, words: &[String]) -> Result<Invoked, End>
    requires resting { ready.old.machine.mode ≡ Resting }
    requires idle { ready.old.machine.pending ≡ [] }
    requires start { TakesNothing (program_at ready.old.machine) ready.old.start }
    requires alone { AsksNobody (program_at ready.old.machine) }
    ensures { (bytes export : List ℕ) → IsReadied bytes export ready.old.start ready.old.function ready.old.machine → Invokes bytes export (map string_bytes words.now) result }
{
    let Some(func) = ready.function else {
        return Err(End::Refused(Refusal::NoExport));
    };
    let values = given(alloc, &ready.machine, func, words)?;
    called(&mut ready.machine, ready.start, func, values.as_slice())
}

/// Calls the function that the module of these bytes exports under a name, with the arguments that the words write in decimal
/// digits, on a host that offers nothing: the start function runs first, and each of the two has 10,000,000 units of fuel; the
/// memory may have 128 pages. The answer is the result with the units that the exported function used, or why there is none.
pub fn invoke(alloc: Global, bytes: &[u8], export: &str, words: &[String]) -> Result<Invoked, End>
    ensures { Invokes bytes.now export.now (map string_bytes words.now) result }
{
    match readied(alloc, bytes, export) {
        Ok(mut ready) => {
            let answer = answered(alloc, &mut ready, words);
            drop(ready);
            answer
        }
        Err(end) => Err(end),
    }
}
