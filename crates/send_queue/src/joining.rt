// Neighbours that are bytes of one line and side, as one member.
ghost use Rattle.std.specs.Prelude.{◌≡◌, IfOk, OnOk};
ghost use Rattle.send_queue.specs.Joined.{behind, join_neighbours};

use crate::member::{are_one, as_one};
use gate_base::OutOfMemory;
use gate_io::Sent;
use std::alloc::Global;

/// Puts a member behind joined ones.
fn put_behind(list: &mut Vec<Sent>, member: Sent) -> Result<(), OutOfMemory>
    ensures { OnOk result (list.new.items ≡ behind list.old.items member) }
{
    let Some(last) = list.pop() else {
        list.push(member)?;
        return Ok(());
    };
    if are_one(&last, &member) {
        list.push(as_one(last, &member)?)?;
    } else {
        list.push(last)?;
        list.push(member)?;
    }
    Ok(())
}

/// The list, in which neighbours that are bytes of one line and side are one member.
pub fn joined(alloc: Global, sent: Vec<Sent>) -> Result<Vec<Sent>, OutOfMemory>
    ensures { IfOk result (λ list. list.items ≡ join_neighbours sent.items) }
{
    let mut list = Vec::new(alloc);
    for member in sent {
        put_behind(&mut list, member)?;
    }
    Ok(list)
}
