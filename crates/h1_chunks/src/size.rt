// Size lines.
ghost use Rattle.std.specs.Prelude.{◌≡◌, ◌≤◌, ◌<◌, ◌+◌, true, length, take, MatchOption};
ghost use Rattle.std.specs.List.{list_all, prefix_len};
ghost use Rattle.std.specs.Char.{is_ascii_hexdigit};
ghost use Rattle.httparse.specs.Grammar.{is_ows, skip_ows};
ghost use Rattle.h1_model.specs.Chunks.{front_of, size_line_limit, number_of_digits, is_before_end, is_no_line_end, are_extensions, size_told, line_ended, size_step};
ghost use Rattle.h1_chunks.specs.Seen.{seen_size, SizeWithin};
ghost use Rattle.h1_chunks.specs.Waits.{IsExtending};

use httparse::parse_hex_digit;
use memchr::memchr;

/// How many bytes a size line may have, its CR LF with them.
const LINE_LIMIT: usize = 4096;

/// How many digits a size may have.
const DIGIT_LIMIT: usize = 16;

/// The largest size that has room for one more digit below 2^63.
const ROOM_LIMIT: u64 = 0x07ff_ffff_ffff_ffff;

/// What a text spells where a size line is due.
#[derive(Clone, Copy)]
pub enum SizeStep {
    /// A line with this size, which takes so many bytes.
    Size { size: u64, used: usize },
    /// The front of a line.
    Open,
    /// What no bytes that follow can make a line.
    Malformed,
}

/// How many hexadecimal digits stand at the front of a text.
fn digit_count(text: &[u8]) -> usize
    ensures count { result ≡ prefix_len is_ascii_hexdigit text.now }
    ensures within { result ≤ length text.now }
{
    let mut at = 0;
    while at < text.len() && text[at].is_ascii_hexdigit() {
        at += 1;
    }
    at
}

/// The number that hexadecimal digits write, up to 2^63 - 1.
fn number_of_digits(digits: &[u8]) -> Option<u64>
    requires { list_all is_ascii_hexdigit digits.now ≡ true }
    ensures { result ≡ number_of_digits digits.now }
{
    if digits.is_empty() || digits.len() > DIGIT_LIMIT {
        return None;
    }
    let mut n: u64 = 0;
    for byte in digits {
        let digit = parse_hex_digit(*byte)?;
        if n > ROOM_LIMIT {
            return None;
        }
        n = n * 16 + digit;
    }
    Some(n)
}

/// Whether a byte is a space or a tab.
fn is_blank(byte: u8) -> bool
    ensures { result ≡ is_ows byte }
{
    byte == b' ' || byte == b'\t'
}

/// The bytes from the first that is no blank.
fn skip_blanks(bytes: &[u8]) -> &[u8]
    ensures { result.now ≡ skip_ows bytes.now }
{
    let mut at = 0;
    while at < bytes.len() && is_blank(bytes[at]) {
        at += 1;
    }
    &bytes[at..]
}

/// Whether no byte is an LF.
fn has_no_line_end(bytes: &[u8]) -> bool
    ensures { result ≡ list_all is_no_line_end bytes.now }
{
    bytes.iter().all(|b| *b != b'\n')
}

/// Whether bytes are none, or a `;` and no LF after it.
fn are_extensions(bytes: &[u8]) -> bool
    ensures { result ≡ are_extensions bytes.now }
{
    match bytes {
        [] => true,
        [first, rest @ ..] => *first == b';' && has_no_line_end(rest),
    }
}

/// The size that a line tells whose bytes in front of CR LF these are (RFC 9112 section 7.1).
fn size_told(front: &[u8]) -> Option<u64>
    ensures { result ≡ size_told front.now }
{
    let count = digit_count(front);
    if !are_extensions(skip_blanks(&front[count..])) {
        return None;
    }
    number_of_digits(&front[..count])
}

/// Whether no byte is a CR.
fn has_no_end(bytes: &[u8]) -> bool
    ensures { result ≡ list_all is_before_end bytes.now }
{
    bytes.iter().all(|b| *b != b'\r')
}

/// Whether this is the front of a size line as far as into its extensions, where no byte but CR and LF changes what the line is.
pub fn is_extending(line: &[u8]) -> bool
    ensures { result ≡ true → IsExtending line.now }
{
    if skip_blanks(&line[digit_count(line)..]).is_empty() {
        return false;
    }
    match size_told(line) {
        Some(_) => has_no_end(line),
        None => false,
    }
}

/// How many bytes stand in front of the first CR, or none where they leave no room for CR LF.
fn front_len(text: &[u8]) -> Option<usize>
    ensures { MatchOption result (size_line_limit < length (front_of text.now) + 2)
        (λ len. (len ≤ length text.now) × (front_of text.now ≡ take len text.now) × (len + 2 ≤ size_line_limit)) }
{
    let window = &text[..text.len().min(LINE_LIMIT - 1)];
    match memchr(b'\r', window) {
        Some(at) => Some(at),
        None if window.len() < LINE_LIMIT - 1 => Some(window.len()),
        None => None,
    }
}

/// What stands after `len` bytes that tell a size.
fn line_ended(size: u64, len: usize, behind: &[u8]) -> SizeStep
    requires { len ≤ size_line_limit }
    ensures step { seen_size result ≡ line_ended size len behind.now }
    ensures within { SizeWithin (len + length behind.now) result }
{
    match behind {
        [] | [_] => SizeStep::Open,
        [_, b'\n', ..] => SizeStep::Size {
            size,
            used: len + 2,
        },
        _ => SizeStep::Malformed,
    }
}

/// What a text spells where a size line is due. It reads 4,096 bytes at most.
pub fn size_step(text: &[u8]) -> SizeStep
    ensures step { seen_size result ≡ size_step text.now }
    ensures within { SizeWithin (length text.now) result }
{
    if text.is_empty() {
        return SizeStep::Open;
    }
    let Some(len) = front_len(text) else {
        return SizeStep::Malformed;
    };
    match size_told(&text[..len]) {
        Some(size) => line_ended(size, len, &text[len..]),
        None => SizeStep::Malformed,
    }
}
