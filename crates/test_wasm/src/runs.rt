//! Runs of whole modules, from their bytes to how they stop.

use crate::bytes::Around;
use crate::stores::{AnyHost, instance, refused};
use gate_base::{Cause, OutOfMemory};
use std::alloc::Global;
use test_rows::{number, word};
use wasm_machine::{Machine, Mode, Stop};
use wasm_store::Instance;
use wasm_syntax::Value;

/// How a run stopped.
#[derive(Clone, Copy)]
enum End {
    Gives(u32),
    Nothing,
    Asks(u32),
    Traps(Cause),
    Spent,
    NoCall,
}

/// The same of a stop.
fn end_of(stop: &Stop) -> End {
    match stop {
        Stop::Finished {
            result: Some(Value::I32(n)),
        } => End::Gives(*n),
        Stop::Finished { .. } => End::Nothing,
        Stop::HostCall { import, .. } => End::Asks(*import),
        Stop::Trap { cause } => End::Traps(*cause),
        Stop::FuelSpent => End::Spent,
    }
}

/// How a run stopped, and the fuel that it used.
fn told(alloc: Global, end: End, used: u64) -> Result<String, OutOfMemory> {
    match end {
        End::Gives(n) => format!(in alloc; "gives {n}, fuel {used}"),
        End::Nothing => format!(in alloc; "ends, fuel {used}"),
        End::Asks(_) => format!(in alloc; "asks, fuel {used}"),
        End::Traps(cause) => format!(in alloc; "traps {cause:?}, fuel {used}"),
        End::Spent => format!(in alloc; "spent, fuel {used}"),
        End::NoCall => format!(in alloc; "no call"),
    }
}

/// Calls a function of one number, where it may be called.
fn called(m: &mut Machine, function: u32, n: u32, fuel: &mut u64) -> End {
    let args = [Value::I32(n)];
    if m.mode() != Mode::Resting || m.pending() > 256 || !m.takes(function, &args) {
        return End::NoCall;
    }
    end_of(&m.call(function, &args, fuel))
}

/// What the host answers: 7. While its function 0 is waited for, the module's function 3 adds one to 6, with fuel of its
/// own.
fn answer(m: &mut Machine, import: u32) -> End {
    if import != 0 {
        return End::Gives(7);
    }
    let mut fuel = 3;
    match called(m, 3, 6, &mut fuel) {
        End::NoCall => End::Gives(7),
        end => end,
    }
}

/// Goes on with an answer, where one is waited for.
fn resumed(m: &mut Machine, value: Option<Value>, fuel: &mut u64) -> End {
    if m.mode() != Mode::Resting || !m.can_answer(value) {
        return End::NoCall;
    }
    m.resume(value);
    end_of(&m.run(fuel))
}

/// Answers the host's call that waits, if there is one, and goes on.
fn go_on(m: &mut Machine, end: End, fuel: &mut u64) -> End {
    let End::Asks(import) = end else {
        return end;
    };
    match answer(m, import) {
        End::Gives(n) => resumed(m, Some(Value::I32(n)), fuel),
        nested => nested,
    }
}

/// How a call of function 2 stops. The host answers twice at most.
fn stopped(m: &mut Machine, n: u32, fuel: &mut u64) -> End {
    let end = called(m, 2, n, fuel);
    let end = go_on(m, end, fuel);
    go_on(m, end, fuel)
}

/// How a call of function 2 of an instance with a number stops, and the fuel that it used.
fn on_instance(alloc: Global, i: Instance, n: u32, given: u64) -> Result<(End, u64), OutOfMemory> {
    let mut m = Machine::new(alloc, i)?;
    let mut fuel = given;
    let end = stopped(&mut m, n, &mut fuel);
    Ok((end, given.saturating_sub(fuel)))
}

/// `run FUEL N HEX`: how a call of function 2 of the module with that number stops, and the fuel that it used.
pub fn played(alloc: Global, around: &Around, words: &str) -> Result<String, OutOfMemory> {
    let (given, rest) = word(words);
    let (n, digits) = word(rest);
    let n = u32::try_from(number(n)).unwrap_or(0);
    let bytes = around.whole(alloc, digits)?;
    match instance(alloc, bytes.as_slice(), &AnyHost, 1) {
        Ok(i) => {
            let (end, used) = on_instance(alloc, i, n, number(given))?;
            told(alloc, end, used)
        }
        Err(end) => refused(alloc, end),
    }
}
