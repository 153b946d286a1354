//! The calls on the queues of a store, and on the notices that it owes.

ghost use Rattle.std.specs.Prelude.{IfOk};
ghost use Rattle.store_model.specs.Limits.{IsWithin};
ghost use Rattle.store_model.specs.Parts.{IsQueueCall};

use crate::keys::told;
use gate_base::{ContextId, OutOfMemory, QueueId, WorkerNo};
use shared_queues::SharedQueues;
use std::alloc::Global;
use store_model::{Call, Used};
use test_rows::{from_text, number, word};

/// A number of 32 bits, and 0 for any other word.
fn small(word: &str) -> u32 {
    u32::try_from(number(word)).unwrap_or(0)
}

/// `register NAME ROOT`, `resolve NAME`, `enqueue QUEUE ITEM`, `dequeue QUEUE` and `notice` as calls.
fn call_of(alloc: Global, operation: &str, words: &str) -> Result<Call, OutOfMemory>
    ensures { IfOk result IsQueueCall }
{
    let (first, second) = word(words);
    match operation {
        "register" => Ok(Call::Register {
            name: from_text(alloc, first)?,
            root: ContextId::new(small(second)),
        }),
        "resolve" => Ok(Call::Resolve {
            name: from_text(alloc, first)?,
        }),
        "enqueue" => Ok(Call::Enqueue {
            queue: QueueId::new(small(first)),
            item: from_text(alloc, second)?,
        }),
        "dequeue" => Ok(Call::Dequeue {
            queue: QueueId::new(small(first)),
        }),
        _ => Ok(Call::Notice),
    }
}

/// What a worker's call on the queues is answered, beside keys that use so much. The worker's number stands first.
pub fn played(
    alloc: Global,
    queues: &mut SharedQueues,
    operation: &str,
    words: &str,
    other: Used,
) -> Result<String, OutOfMemory>
    requires { IsWithin other }
{
    let (who, rest) = word(words);
    let Some(who) = WorkerNo::new(number(who).min(255) as u8) else {
        return format!(in alloc; "no worker");
    };
    let call = call_of(alloc, operation, rest)?;
    let reply = queues.apply(alloc, who, &call, other)?;
    told(alloc, &reply)
}

/// `items QUEUE`: how many items there are in all queues, and how many in this one.
pub fn items(alloc: Global, queues: &SharedQueues, words: &str) -> Result<String, OutOfMemory> {
    let all = queues.items(alloc, QueueId::new(small(words)))?;
    format!(in alloc; "{} of {}", all.len(), queues.item_count())
}
