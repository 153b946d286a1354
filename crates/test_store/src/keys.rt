//! The calls on the keys of a store.

ghost use Rattle.std.specs.Prelude.{IfOk};
ghost use Rattle.store_model.specs.Limits.{IsWithin};
ghost use Rattle.store_model.specs.Parts.{IsKeyCall};

use gate_base::{OutOfMemory, WorkerNo};
use shared_data::SharedData;
use std::alloc::Global;
use store_model::{Call, Reply, Used};
use test_rows::{from_text, number, shown, word};

/// `get KEY` and `set KEY VALUE NUMBER` as calls.
fn call_of(alloc: Global, operation: &str, words: &str) -> Result<Call, OutOfMemory>
    ensures { IfOk result IsKeyCall }
{
    let (key, rest) = word(words);
    let (value, n) = word(rest);
    let key = from_text(alloc, key)?;
    match operation {
        "get" => Ok(Call::Get { key }),
        _ => Ok(Call::Set {
            key,
            value: from_text(alloc, value)?,
            number: u32::try_from(number(n)).unwrap_or(0),
        }),
    }
}

/// What a reply says.
pub fn told(alloc: Global, reply: &Reply) -> Result<String, OutOfMemory> {
    match reply {
        Reply::Value { value, number } => {
            let value = shown(alloc, value.as_slice())?;
            format!(in alloc; "\"{value}\" under {number}")
        }
        Reply::Done { number } => format!(in alloc; "done {number}"),
        Reply::Id { queue } => format!(in alloc; "id {}", queue.get()),
        Reply::Item { item } => {
            let item = shown(alloc, item.as_slice())?;
            format!(in alloc; "item \"{item}\"")
        }
        Reply::Owed { root, queue } => format!(in alloc; "owed {} {}", root.get(), queue.get()),
        Reply::Absent => format!(in alloc; "absent"),
        Reply::CasMismatch => format!(in alloc; "another number"),
        Reply::Full => format!(in alloc; "full"),
        Reply::Empty => format!(in alloc; "empty"),
        Reply::NoneOwed => format!(in alloc; "none owed"),
    }
}

/// What a call on the keys is answered, beside queues that use so much.
pub fn played(
    alloc: Global,
    data: &mut SharedData,
    operation: &str,
    words: &str,
    other: Used,
) -> Result<String, OutOfMemory>
    requires { IsWithin other }
{
    let Some(who) = WorkerNo::new(1) else {
        return format!(in alloc; "no worker");
    };
    let call = call_of(alloc, operation, words)?;
    let reply = data.apply(alloc, who, &call, other)?;
    told(alloc, &reply)
}
