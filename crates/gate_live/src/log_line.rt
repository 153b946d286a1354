// The lines of the log.
ghost use Rattle.std.specs.Prelude.{◌≡◌, ◌≤◌, ◌<◌, ◌++◌, IfOk, OnOk};
ghost use Rattle.gate_live.specs.LogLine.{level_word, line_of, shown, shown_all, hex_digit};

use gate_base::{Level, OutOfMemory};
use std::alloc::Global;

/// The word of a level.
fn level_word(level: Level) -> &'static [u8]
    ensures { result.now ≡ level_word level }
{
    match level {
        Level::Trace => b"trace ",
        Level::Debug => b"debug ",
        Level::Info => b"info ",
        Level::Warn => b"warn ",
        Level::Error => b"error ",
        Level::Critical => b"critical ",
    }
}

/// A hexadecimal digit.
fn hex_digit(n: u8) -> u8
    requires { n < 16 }
    ensures { result ≡ hex_digit n }
{
    if n < 10 { b'0' + n } else { b'a' - 10 + n }
}

/// Puts a byte at the end, as it is shown.
fn put_shown(line: &mut Vec<u8>, b: u8) -> Result<(), OutOfMemory>
    ensures { OnOk result (line.new.items ≡ line.old.items ++ shown b) }
{
    if (0x20..=0x7e).contains(&b) {
        line.push(b)?;
        return Ok(());
    }
    let text = [b'\\', b'x', hex_digit(b / 16), hex_digit(b % 16)];
    line.extend_from_slice(&text)
}

/// Puts bytes at the end, as they are shown.
fn put_all(line: &mut Vec<u8>, text: &[u8]) -> Result<(), OutOfMemory>
    ensures { OnOk result (line.new.items ≡ line.old.items ++ shown_all text.now) }
{
    for b in text {
        put_shown(line, *b)?;
    }
    Ok(())
}

/// A line of the log: the level, the text, in which each byte that is not printable ASCII is shown by its number, and LF.
pub fn log_line(alloc: Global, level: Level, text: &[u8]) -> Result<Vec<u8>, OutOfMemory>
    ensures { IfOk result (λ line. line.items ≡ line_of level text.now) }
{
    let mut line = Vec::from_slice(alloc, level_word(level))?;
    put_all(&mut line, text)?;
    line.push(b'\n')?;
    Ok(line)
}
