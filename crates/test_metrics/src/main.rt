//! Calls stores and asks metrics of VM names: rows of both by three of eight workers, over their seats and over one thread, asks of the 64th metric and
//! of one more, a call that is refused memory, and then eight workers, each in a thread of its own, that count, that raise one number, and that wait
//! for one turn. It writes each reply, and what the stores and metrics came to.
#![tactic(auto)]

mod asks;
mod refused;
mod row;
mod threads;
mod watch;

use std::io;

fn main(rt: HostRuntime) -> io::Result<()> {
    let alloc = rt.alloc();
    let over_seats = row::over_seats(&rt, alloc)?;
    print!(rt; "# over seats\n{over_seats}")?;
    let over_one_thread = row::over_one_thread(alloc)?;
    print!(rt; "# over one thread\n{over_one_thread}")?;
    let past_64 = row::past_64(&rt, alloc)?;
    print!(rt; "# sixty-four over seats\n{past_64}")?;
    let counted = threads::counted(&rt, alloc)?;
    print!(rt; "# eight threads\n{counted}")?;
    let calls = row::calls_over_seats(&rt, alloc)?;
    print!(rt; "# calls over seats\n{calls}")?;
    let calls = row::calls_over_one_thread(alloc)?;
    print!(rt; "# calls over one thread\n{calls}")?;
    let refused = refused::refused(&rt, alloc)?;
    print!(rt; "# a call that is refused memory, and the next one\n{refused}")?;
    let raised = threads::raised(&rt, alloc)?;
    print!(rt; "# eight threads raise one number\n{raised}")?;
    let woken = threads::woken(&rt, alloc)?;
    print!(rt; "# eight threads at one turn, the first held until the others have come\n{woken}")
}
