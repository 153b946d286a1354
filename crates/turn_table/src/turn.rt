// One call, from the turn that is taken to the turn that is given back.
ghost use Rattle.std.specs.Prelude.{◌≡◌, ◌<◌, true, false, [], ◌∷◌, IfOk, IsOk, OnOk, OnErr};
ghost use Rattle.turn_table.specs.Histories.{value_after};
ghost use Rattle.turn_table.specs.Seats.{Called, Refused, HasShape, IsSameSeat, seated};

use crate::Turned;
use crate::seat::Pass;
use crate::steps::{HOME, Top, give, record, take};
use gate_base::{OutOfMemory, WorkerNo};
use gate_io::{Gate, Point};
use std::alloc::Global;
use std::marker::Brand;
use std::sync::Wait;
use store_model::{Call, Reply};

/// Waits for the turn, passes the gate, makes the call, records it where it was answered, and gives the turn back.
pub(crate) fn turn<S: Turned, R: Wait, G: Gate>(
    rt: &R,
    alloc: Global,
    top: &Top<S>,
    pass: &mut Pass<S>,
    who: WorkerNo,
    call: &Call,
    gate: &G,
) -> Result<Reply, OutOfMemory>
    requires table { (pass.old.table_id ≡ top.now.table_id) × HasShape top.now.table_id }
    requires seat { (who ≡ pass.old.me.0.number) × (0 < who) × (pass.old.me.1 ≡ []) }
    ensures idle { (pass.new.me.0.holds ≡ false) × (pass.new.me.1 ≡ []) }
    ensures same { IsSameSeat (seated pass.old.table_id pass.old.me.0) (seated pass.new.table_id pass.new.me.0) }
    ensures done { IfOk result (λ reply. Called S.acts (seated pass.old.table_id pass.old.me.0) (seated pass.new.table_id pass.new.me.0) call.now reply) }
    ensures may { IfOk result (λ reply. S.may call.now reply) }
    ensures sure { ((s : S) → S.acts.sure call.now s ≡ true) → IsOk result }
    ensures err { OnErr result (Refused S.acts (seated pass.old.table_id pass.old.me.0) (seated pass.new.table_id pass.new.me.0) call.now) }
{
    take(rt, top, pass);
    match ask(alloc, top, pass, who, call, gate) {
        Ok(reply) => {
            record::<S, Brand>(top, pass, who, call, &reply);
            give(top, pass);
            Ok(reply)
        }
        Err(refused) => {
            give(top, pass);
            Err(refused)
        }
    }
}

/// Passes the gate, and makes the call on the value, which stays where it is.
fn ask<S: Turned, G: Gate>(
    alloc: Global,
    top: &Top<S>,
    pass: &mut Pass<S>,
    who: WorkerNo,
    call: &Call,
    gate: &G,
) -> Result<Reply, OutOfMemory>
    requires table { (pass.old.table_id ≡ top.now.table_id) × HasShape top.now.table_id }
    requires value { pass.old.me.1 ≡ (0, value_after S.acts pass.old.me.0.vm pass.old.me.0.seen) ∷ [] }
    ensures same { (pass.new.table_id ≡ pass.old.table_id) × (pass.new.id ≡ pass.old.id) × (pass.new.me.0 ≡ pass.old.me.0) }
    ensures reply { IfOk result (λ reply. reply ≡ S.acts.reply who call.now (value_after S.acts pass.old.me.0.vm pass.old.me.0.seen)) }
    ensures after { OnOk result (pass.new.me.1 ≡ (0, S.acts.after who call.now (value_after S.acts pass.old.me.0.vm pass.old.me.0.seen)) ∷ []) }
    ensures may { IfOk result (λ reply. S.may call.now reply) }
    ensures sure { S.acts.sure call.now (value_after S.acts pass.old.me.0.vm pass.old.me.0.seen) ≡ true → IsOk result }
    ensures err { OnErr result (pass.new.me.1 ≡ pass.old.me.1) }
{
    let value = pass.slot_mut(top, HOME);
    gate.at(who, Point::InsideTurn(value.vm()));
    value.apply(alloc, who, call)
}
