//! The rows that the driver programs play: words, bytes in hexadecimal digits, and texts with escapes.
#![tactic(auto)]

use gate_base::{Octets, OutOfMemory};
use std::alloc::Global;

/// The first word of a row, and what is after the blank that ends it.
pub fn word(text: &str) -> (&str, &str) {
    match text.split_once(' ') {
        Some((first, rest)) => (first, rest),
        None => (text, ""),
    }
}

/// The number that a word writes in decimal digits, and 0 for any other word.
pub fn number(word: &str) -> u64 {
    match word.parse::<u64>() {
        Ok(n) => n,
        Err(_) => 0,
    }
}

/// The value of a hexadecimal digit.
fn digit(c: u8) -> Option<u8> {
    match c {
        b'0'..=b'9' => Some(c - b'0'),
        b'a'..=b'f' => Some(c - b'a' + 10),
        b'A'..=b'F' => Some(c - b'A' + 10),
        _ => None,
    }
}

/// The bytes that hexadecimal digits write, two each. What is no digit is passed over.
pub fn from_hex(alloc: Global, text: &str) -> Result<Octets, OutOfMemory> {
    let mut out = Octets::new(alloc);
    let mut high = None;
    for c in text.as_bytes() {
        let Some(low) = digit(*c) else {
            continue;
        };
        match high {
            None => high = Some(low),
            Some(h) => {
                out.push((h << 4) | low)?;
                high = None;
            }
        }
    }
    Ok(out)
}

/// The digit of a number below 16.
fn digit_of(n: u8) -> u8 {
    match n {
        0..=9 => b'0' + n,
        10..=15 => b'a' + (n - 10),
        _ => b'?',
    }
}

/// Bytes in hexadecimal digits.
pub fn hex(alloc: Global, bytes: &[u8]) -> Result<String, OutOfMemory> {
    let mut out = String::new(alloc);
    for byte in bytes {
        out.push(char::from(digit_of(byte >> 4)))?;
        out.push(char::from(digit_of(byte & 15)))?;
    }
    Ok(out)
}

/// Where reading stands in a text with escapes.
#[derive(Clone, Copy)]
enum At {
    Plain,
    Escape,
    High,
    Low(u8),
}

/// The byte that an escape of one letter means.
fn meant(c: u8) -> u8 {
    match c {
        b'r' => b'\r',
        b'n' => b'\n',
        b't' => b'\t',
        b'0' => 0,
        b's' => b' ',
        _ => c,
    }
}

/// Puts the bytes of a text with the escapes `\r`, `\n`, `\t`, `\0`, `\s` (a blank), `\\` and `\xHH` at the end.
fn push_text(out: &mut Octets, text: &str) -> Result<(), OutOfMemory> {
    let mut at = At::Plain;
    for c in text.as_bytes() {
        at = match at {
            At::Plain if *c == b'\\' => At::Escape,
            At::Plain => {
                out.push(*c)?;
                At::Plain
            }
            At::Escape if *c == b'x' => At::High,
            At::Escape => {
                out.push(meant(*c))?;
                At::Plain
            }
            At::High => At::Low(digit(*c).unwrap_or(0)),
            At::Low(high) => {
                out.push((high << 4) | digit(*c).unwrap_or(0))?;
                At::Plain
            }
        };
    }
    Ok(())
}

/// Puts a text that is repeated, `N*TEXT`, at the end.
fn push_repeated(out: &mut Octets, text: &str) -> Result<(), OutOfMemory> {
    let (count, unit) = match text.split_once('*') {
        Some(parts) => parts,
        None => ("1", text),
    };
    for _ in 0..number(count) {
        push_text(out, unit)?;
    }
    Ok(())
}

/// The bytes of a text with escapes, in which `{N*TEXT}` stands for so many times this text. Other braces are not taken.
pub fn from_text(alloc: Global, text: &str) -> Result<Octets, OutOfMemory> {
    let mut out = Octets::new(alloc);
    for part in text.split('{') {
        match part.split_once('}') {
            Some((repeated, behind)) => {
                push_repeated(&mut out, repeated)?;
                push_text(&mut out, behind)?;
            }
            None => push_text(&mut out, part)?,
        }
    }
    Ok(out)
}

/// Puts a byte as it stands in a text with escapes at the end.
fn push_byte(out: &mut String, byte: u8) -> Result<(), OutOfMemory> {
    match byte {
        b'\r' => out.push_str("\\r"),
        b'\n' => out.push_str("\\n"),
        b'\t' => out.push_str("\\t"),
        b'\\' => out.push_str("\\\\"),
        32..=126 => out.push(char::from(byte)),
        _ => {
            out.push_str("\\x")?;
            out.push(char::from(digit_of(byte >> 4)))?;
            out.push(char::from(digit_of(byte & 15)))
        }
    }
}

/// Puts bytes as a text with escapes at the end.
fn push_shown(out: &mut String, bytes: &[u8]) -> Result<(), OutOfMemory> {
    for byte in bytes {
        push_byte(out, *byte)?;
    }
    Ok(())
}

/// The bytes as a text with escapes. Of more than 1,000 bytes, the first 60, how many there are, and the last 20.
pub fn shown(alloc: Global, bytes: &[u8]) -> Result<String, OutOfMemory> {
    let mut out = String::new(alloc);
    if bytes.len() <= 1000 {
        push_shown(&mut out, bytes)?;
        return Ok(out);
    }
    push_shown(&mut out, bytes.get(..60).unwrap_or(&[]))?;
    out.push_str(format!(in alloc; "..{}..", bytes.len())?.as_str())?;
    let last = bytes.len().saturating_sub(20);
    push_shown(&mut out, bytes.get(last..).unwrap_or(&[]))?;
    Ok(out)
}
