// The command that a line spells.
ghost use Rattle.std.specs.Prelude.{◌≡◌, ◌≢◌, ◌∷◌, ◌++◌, ◌<◌, ◌^◌, ℕ, List, IfOk, MatchOption, codes, decimal};
ghost use Rattle.std.specs.Option.{ForSome};
ghost use Rattle.hex.specs.Hex.{encode_lower};
ghost use Rattle.replay_script.specs.declared.command.Command.{Command};
ghost use Rattle.replay_script.specs.Commands.{text_of, IsInForm, IsLine, IsPiece, IsWorker, Spells};

use crate::Command;
use crate::command::print_command;
use crate::split::split_once;
use gate_base::{LineNo, Octets, OutOfMemory, WorkerNo};
use hex::FromHexError;
use std::alloc::{AllocError, Global};

/// Most bytes that one line brings.
const MAX_PIECE: usize = 16384;

/// The command that a line without its LF spells, if any.
pub(crate) fn command_of(alloc: Global, line: &[u8]) -> Result<Option<Command>, OutOfMemory>
    ensures { IfOk result (λ found. MatchOption found ((c : Command) → Spells line.now c → ⊥) (Spells line.now)) }
{
    let Some(command) = guess(alloc, line)? else {
        return Ok(None);
    };
    let mut text = Octets::new(alloc);
    print_command(alloc, &mut text, &command)?;
    if text.as_slice() == line {
        Ok(Some(command))
    } else {
        Ok(None)
    }
}

/// The one command that a line can spell, which it need not spell exactly.
fn guess(alloc: Global, line: &[u8]) -> Result<Option<Command>, OutOfMemory>
    ensures in_form { IfOk result (λ found. ForSome found IsInForm) }
    ensures only { IfOk result (λ found. (c : Command) → Spells line.now c → found ≡ Some c) }
{
    if let Some(up) = line.strip_prefix(b"up") {
        from_server(alloc, up)
    } else if let Some(words) = line.strip_prefix(b"bytes ") {
        bytes_of(alloc, words)
    } else if let Some(number) = line.strip_prefix(b"at ") {
        Ok(at_of(number))
    } else if let Some(number) = line.strip_prefix(b"on ") {
        Ok(on_of(number))
    } else if line == b"clock".as_slice() {
        Ok(Some(Command::Clock))
    } else if line == b"stop".as_slice() {
        Ok(Some(Command::Stop))
    } else {
        Ok(numbered(line))
    }
}

/// The command of a word that speaks of a line and brings no bytes.
fn numbered(line: &[u8]) -> Option<Command>
    ensures in_form { ForSome result IsInForm }
    ensures open { (n : ℕ) → IsLine n → line.now ≡ codes "open " ++ decimal n → result ≡ Some (Command.Open n) }
    ensures end { (n : ℕ) → IsLine n → line.now ≡ codes "end " ++ decimal n → result ≡ Some (Command.End n) }
    ensures gone { (n : ℕ) → IsLine n → line.now ≡ codes "gone " ++ decimal n → result ≡ Some (Command.Gone n) }
    ensures joined { (n : ℕ) → IsLine n → line.now ≡ codes "joined " ++ decimal n → result ≡ Some (Command.Joined n) }
    ensures refused { (n : ℕ) → IsLine n → line.now ≡ codes "refused " ++ decimal n → result ≡ Some (Command.Refused n) }
{
    if let Some(number) = line.strip_prefix(b"open ") {
        let line = line_of(number)?;
        Some(Command::Open { line })
    } else if let Some(number) = line.strip_prefix(b"end ") {
        let line = line_of(number)?;
        Some(Command::End { line })
    } else if let Some(number) = line.strip_prefix(b"gone ") {
        let line = line_of(number)?;
        Some(Command::Gone { line })
    } else if let Some(number) = line.strip_prefix(b"joined ") {
        let line = line_of(number)?;
        Some(Command::Joined { line })
    } else if let Some(number) = line.strip_prefix(b"refused ") {
        let line = line_of(number)?;
        Some(Command::Refused { line })
    } else {
        None
    }
}

/// The command of the text after `up`: what comes from the upstream server.
fn from_server(alloc: Global, up: &[u8]) -> Result<Option<Command>, OutOfMemory>
    ensures in_form { IfOk result (λ found. ForSome found IsInForm) }
    ensures bytes { IfOk result (λ found. (n : ℕ) (bytes : List ℕ) → IsLine n → IsPiece bytes → up.now ≡ codes "bytes " ++ (decimal n ++ (32 ∷ encode_lower bytes)) → found ≡ Some (Command.UpBytes n bytes)) }
    ensures end { IfOk result (λ found. (n : ℕ) → IsLine n → up.now ≡ codes "end " ++ decimal n → found ≡ Some (Command.UpEnd n)) }
    ensures gone { IfOk result (λ found. (n : ℕ) → IsLine n → up.now ≡ codes "gone " ++ decimal n → found ≡ Some (Command.UpGone n)) }
{
    if let Some(words) = up.strip_prefix(b"bytes ") {
        up_bytes_of(alloc, words)
    } else if let Some(number) = up.strip_prefix(b"end ") {
        Ok(up_end_of(number))
    } else if let Some(number) = up.strip_prefix(b"gone ") {
        Ok(up_gone_of(number))
    } else {
        Ok(None)
    }
}

/// The command `upend` of a number.
fn up_end_of(number: &[u8]) -> Option<Command>
    ensures in_form { ForSome result IsInForm }
    ensures only { (n : ℕ) → IsLine n → number.now ≡ decimal n → result ≡ Some (Command.UpEnd n) }
{
    let line = line_of(number)?;
    Some(Command::UpEnd { line })
}

/// The command `upgone` of a number.
fn up_gone_of(number: &[u8]) -> Option<Command>
    ensures in_form { ForSome result IsInForm }
    ensures only { (n : ℕ) → IsLine n → number.now ≡ decimal n → result ≡ Some (Command.UpGone n) }
{
    let line = line_of(number)?;
    Some(Command::UpGone { line })
}

/// The command `at` of a number.
fn at_of(number: &[u8]) -> Option<Command>
    ensures in_form { ForSome result IsInForm }
    ensures only { (n : ℕ) → n < 2 ^ 64 → number.now ≡ decimal n → result ≡ Some (Command.At n) }
{
    match str::from_utf8(number) {
        Ok(text) => match text.parse::<u64>() {
            Ok(moment) => Some(Command::At { moment }),
            Err(_) => None,
        },
        Err(_) => None,
    }
}

/// The command `on` of a number.
fn on_of(number: &[u8]) -> Option<Command>
    ensures in_form { ForSome result IsInForm }
    ensures only { (n : ℕ) → IsWorker n → number.now ≡ decimal n → result ≡ Some (Command.On n) }
{
    let worker = worker_of(number)?;
    Some(Command::On { worker })
}

/// The number of a worker that a word spells in decimal.
fn worker_of(word: &[u8]) -> Option<WorkerNo>
    ensures in_form { ForSome result IsWorker }
    ensures only { (n : ℕ) → IsWorker n → word.now ≡ decimal n → result ≡ Some n }
{
    match str::from_utf8(word) {
        Ok(text) => match text.parse::<u8>() {
            Ok(number) => WorkerNo::new(number),
            Err(_) => None,
        },
        Err(_) => None,
    }
}

/// The number of a line that a word spells in decimal.
fn line_of(word: &[u8]) -> Option<LineNo>
    ensures in_form { ForSome result IsLine }
    ensures only { (n : ℕ) → IsLine n → word.now ≡ decimal n → result ≡ Some n }
{
    match str::from_utf8(word) {
        Ok(text) => match text.parse::<u32>() {
            Ok(number) => LineNo::new(number),
            Err(_) => None,
        },
        Err(_) => None,
    }
}

/// The command of the words after `bytes`.
fn bytes_of(alloc: Global, words: &[u8]) -> Result<Option<Command>, OutOfMemory>
    ensures in_form { IfOk result (λ found. ForSome found IsInForm) }
    ensures only { IfOk result (λ found. (n : ℕ) (bytes : List ℕ) → IsLine n → IsPiece bytes → words.now ≡ decimal n ++ (32 ∷ encode_lower bytes) → found ≡ Some (Command.Bytes n bytes)) }
{
    match brought(alloc, words)? {
        Some((line, bytes)) => Ok(Some(Command::Bytes { line, bytes })),
        None => Ok(None),
    }
}

/// The command of the words after `upbytes`.
fn up_bytes_of(alloc: Global, words: &[u8]) -> Result<Option<Command>, OutOfMemory>
    ensures in_form { IfOk result (λ found. ForSome found IsInForm) }
    ensures only { IfOk result (λ found. (n : ℕ) (bytes : List ℕ) → IsLine n → IsPiece bytes → words.now ≡ decimal n ++ (32 ∷ encode_lower bytes) → found ≡ Some (Command.UpBytes n bytes)) }
{
    match brought(alloc, words)? {
        Some((line, bytes)) => Ok(Some(Command::UpBytes { line, bytes })),
        None => Ok(None),
    }
}

/// The line and the bytes that words spell: a number, a space and the bytes.
fn brought(alloc: Global, words: &[u8]) -> Result<Option<(LineNo, Octets)>, OutOfMemory>
    ensures in_form { IfOk result (λ found. ForSome found (λ pair. IsLine pair.0 × IsPiece pair.1)) }
    ensures only { IfOk result (λ found. (n : ℕ) (bytes : List ℕ) → IsLine n → IsPiece bytes → words.now ≡ decimal n ++ (32 ∷ encode_lower bytes) → found ≡ Some (n, bytes)) }
{
    let Some((number, digits)) = split_once(words, b' ') else {
        return Ok(None);
    };
    let Some(line) = line_of(number) else {
        return Ok(None);
    };
    match piece_of(alloc, digits)? {
        Some(bytes) => Ok(Some((line, bytes))),
        None => Ok(None),
    }
}

/// The 1 to 16,384 bytes that hexadecimal digits spell.
fn piece_of(alloc: Global, digits: &[u8]) -> Result<Option<Octets>, OutOfMemory>
    ensures in_form { IfOk result (λ found. ForSome found IsPiece) }
    ensures only { IfOk result (λ found. (bytes : List ℕ) → IsPiece bytes → digits.now ≡ encode_lower bytes → found ≡ Some bytes) }
{
    match hex::decode(alloc, digits) {
        Ok(bytes) => Ok(within_bounds(bytes)),
        Err(refusal) => not_decoded(refusal),
    }
}

/// No bytes, but for want of memory.
fn not_decoded(refusal: FromHexError) -> Result<Option<Octets>, OutOfMemory>
    ensures { IfOk result (λ found. (found ≡ None) × (refusal ≢ FromHexError.OutOfMemory)) }
{
    match refusal {
        FromHexError::OutOfMemory => Err(AllocError),
        _ => Ok(None),
    }
}

/// These bytes, where they are 1 to 16,384.
fn within_bounds(bytes: Vec<u8>) -> Option<Octets>
    ensures in_form { ForSome result IsPiece }
    ensures only { IsPiece bytes.items → result ≡ Some bytes.items }
{
    if bytes.is_empty() || bytes.len() > MAX_PIECE {
        return None;
    }
    Some(Octets::from_vec(bytes))
}
