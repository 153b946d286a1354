// What a worker of streams asks of its world.
ghost use Rattle.std.specs.Prelude.{◌≡◌, OnOk};
ghost use Rattle.gate_io.specs.declared.event.Side.TheVariants.{Down, Up};
ghost use Rattle.streams_model.specs.Wants.{has_room, wants_down, wants_up, down_of, up_of};

use gate_base::OutOfMemory;
use gate_io::{Side, Wants};
use send_queue::Outbox;
use worker_lines::cut;
use worker_model::TcpLine;

/// Whether less than 65,536 bytes wait on a side of a line, looked for near the place of the last one.
fn has_room(outbox: &Outbox, side: Side, l: &TcpLine, near: &mut usize) -> bool
    ensures { result ≡ has_room outbox.now side l.now }
{
    !outbox.is_full_near(l.number, side, near)
}

/// Whether bytes of the sides of a line are taken, its client's and its server's. What waits for it is looked for near that of the last one.
fn are_wanted(outbox: &Outbox, l: &TcpLine, near: &mut usize) -> (bool, bool)
    ensures down { result.0 ≡ wants_down outbox.now l.now }
    ensures up { result.1 ≡ wants_up outbox.now l.now }
{
    let is_open = has_room(outbox, Side::Down, l, near);
    let down = is_open && has_room(outbox, Side::Up, l, near);
    (down, is_open && l.is_up)
}

/// What lines want, each looked at once: of which bytes are taken.
pub fn wants_on(outbox: &Outbox, lines: &[TcpLine], wants: &mut Wants) -> Result<(), OutOfMemory>
    ensures down { OnOk result (wants.new.down ≡ down_of outbox.now lines.now) }
    ensures up { OnOk result (wants.new.up ≡ up_of outbox.now lines.now) }
{
    cut(&mut wants.down, 0);
    cut(&mut wants.up, 0);
    // Lines come in the order of their numbers.
    let mut near = 0;
    for l in lines {
        let wanted = are_wanted(outbox, l, &mut near);
        if wanted.0 {
            wants.down.push(l.number)?;
        }
        if wanted.1 {
            wants.up.push(l.number)?;
        }
    }
    Ok(())
}
