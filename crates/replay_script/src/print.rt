// What a run sends, printed.
ghost use Rattle.std.specs.Prelude.{◌≡◌, ◌++◌, IfOk, OnOk, OnErr};
ghost use Rattle.replay_script.specs.Prints.{on_line, sent_line, sent_text, printed, level_word};

use crate::words::{print_bytes, print_decimal, print_hex, print_number};
use gate_base::{Level, Octets, OutOfMemory, WorkerNo};
use gate_io::{Sent, Side};
use std::alloc::Global;

/// Puts the line of output of one `Sent` at the end. After a refusal the text is as before.
pub fn print_sent(alloc: Global, out: &mut Octets, sent: &Sent) -> Result<(), OutOfMemory>
    ensures ok { OnOk result (out.new ≡ out.old ++ sent_line sent.now) }
    ensures err { OnErr result (out.new ≡ out.old) }
{
    let mut line = Octets::new(alloc);
    print_text(alloc, &mut line, sent)?;
    line.push(b'\n')?;
    out.extend_from_slice(line.as_slice())
}

/// Puts the line of output at the end that says of which worker what follows is. After a refusal the text is as before.
pub fn print_on(alloc: Global, out: &mut Octets, who: WorkerNo) -> Result<(), OutOfMemory>
    ensures ok { OnOk result (out.new ≡ out.old ++ on_line who) }
    ensures err { OnErr result (out.new ≡ out.old) }
{
    let mut line = Octets::new(alloc);
    print_decimal(&mut line, b"on ", u64::from(who.get()))?;
    line.push(b'\n')?;
    out.extend_from_slice(line.as_slice())
}

/// Puts the line of output of one `Sent`, without its LF, at the end.
fn print_text(alloc: Global, out: &mut Octets, sent: &Sent) -> Result<(), OutOfMemory>
    ensures { OnOk result (out.new ≡ out.old ++ sent_text sent.now) }
{
    match sent {
        Sent::Connect { line } => print_number(out, b"connect ", *line),
        Sent::Bytes {
            line,
            side: Side::Down,
            bytes,
        } => print_bytes(alloc, out, b"down ", *line, bytes.as_slice()),
        Sent::Bytes {
            line,
            side: Side::Up,
            bytes,
        } => print_bytes(alloc, out, b"up ", *line, bytes.as_slice()),
        Sent::Close {
            line,
            side: Side::Down,
        } => print_number(out, b"close ", *line),
        Sent::Close {
            line,
            side: Side::Up,
        } => print_number(out, b"upclose ", *line),
        Sent::Log { level, text } => {
            out.extend_from_slice(b"log ")?;
            out.extend_from_slice(word_of(*level))?;
            out.push(b' ')?;
            print_hex(alloc, out, text.as_slice())
        }
    }
}

/// The word of a level.
fn word_of(level: Level) -> &'static [u8]
    ensures { result.now ≡ level_word level }
{
    match level {
        Level::Trace => b"trace",
        Level::Debug => b"debug",
        Level::Info => b"info",
        Level::Warn => b"warn",
        Level::Error => b"error",
        Level::Critical => b"critical",
    }
}
