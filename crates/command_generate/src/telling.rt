// What a run came to, as text.
ghost use Rattle.std.specs.Prelude.{◌≡◌, ◌++◌, IfOk, OnOk};
ghost use Rattle.workload.specs.Tallies.{tally_of};
ghost use Rattle.command_generate.specs.Generating.{all_received, queue_items, summary};
ghost use Rattle.command_generate.specs.Items.{tally_lines};

use crate::items::{put_item_lines, put_number_line};
use gate_base::{Octets, OutOfMemory, QueueId};
use gate_io::MemWorld;
use shared_queues::OctetsList;
use shared_seats::ClosedTables;
use std::alloc::Global;
use workload::laws::tallies_add_up;
use workload::{Tally, count};

/// The id of the filter's queue, the first one of the first VM.
const QUEUE: u32 = 1;

/// Counts what worlds received.
fn tally_of(alloc: Global, worlds: Vec<MemWorld>) -> Result<Tally, OutOfMemory>
    ensures { IfOk result (λ tally. tally ≡ tally_of (all_received worlds.items)) }
{
    tallies_add_up();
    let mut tally = Tally::new();
    for world in worlds {
        let received = world.into_received(alloc)?;
        tally = tally.plus(count(received.as_slice()));
    }
    Ok(tally)
}

/// The items of the filter's queue.
fn queue_items(alloc: Global, closed: &ClosedTables) -> Result<OctetsList, OutOfMemory>
    ensures { IfOk result (λ items. items ≡ queue_items closed.now.stores) }
{
    closed.items(alloc, QueueId::new(QUEUE))
}

/// Puts the lines of the counts at the end.
fn put_tally(out: &mut Octets, tally: Tally) -> Result<(), OutOfMemory>
    ensures { OnOk result (out.new ≡ out.old ++ tally_lines tally) }
{
    put_number_line(out, b"requests ", tally.connects)?;
    put_number_line(out, b"up ", tally.up)?;
    put_number_line(out, b"down ", tally.down)
}

/// What the worlds received and what is in the filter's queue, as text.
pub fn summary(
    alloc: Global,
    worlds: Vec<MemWorld>,
    closed: &ClosedTables,
) -> Result<Octets, OutOfMemory>
    ensures { IfOk result (λ text. text ≡ summary worlds.items closed.now.stores) }
{
    let tally = tally_of(alloc, worlds)?;
    let items = queue_items(alloc, closed)?;
    let mut text = Octets::new(alloc);
    put_tally(&mut text, tally)?;
    put_item_lines(alloc, &mut text, items.as_slice())?;
    Ok(text)
}
