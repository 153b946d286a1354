// Which bytes are names and values.
ghost use Rattle.std.specs.List.{list_all};
ghost use Rattle.std.specs.Prelude.{◌≡◌, ◌<◌, ◌==◌, IsTrue, bytes_eq, length, slice_index};
ghost use Rattle.http_header.specs.Token.{lowercase, is_token_byte, is_value_byte};
ghost use Rattle.header_maps.specs.Judged.{is_token_text, is_field_name, is_field_value, is_visible, is_method, is_scheme, is_authority, is_path_byte, is_path, status_of, is_status};
ghost use Rattle.header_maps.specs.Pairs.{is_pseudo};

use http_header::is_token_char;

/// The longest name of a field.
const NAME_LIMIT: usize = 65_535;

/// How many bytes are compared at once.
const BLOCK: usize = 16;

/// Whether two texts may be equal but for the case of letters, by their last bytes: names that are as long as one another often
/// begin alike.
fn ends_alike(a: &[u8], b: &[u8]) -> bool
    ensures { IsTrue (bytes_eq (lowercase a.now) (lowercase b.now)) → IsTrue result }
{
    match (a, b) {
        ([.., x], [.., y]) => x.eq_ignore_ascii_case(y),
        _ => true,
    }
}

/// Whether two blocks are equal but for the case of letters.
fn is_same_block(a: &[u8], b: &[u8]) -> bool
    requires left { length a.now ≡ 16 }
    requires right { length b.now ≡ 16 }
    ensures { result ≡ bytes_eq (lowercase a.now) (lowercase b.now) }
{
    let mut left = [0; BLOCK];
    let mut right = [0; BLOCK];
    left.copy_from_slice(a);
    right.copy_from_slice(b);
    left.make_ascii_lowercase();
    right.make_ascii_lowercase();
    left == right
}

/// Whether two texts of one length are equal but for the case of letters. They are compared in blocks of 16 bytes, for which a compiler knows
/// better code than for any number of bytes.
fn is_same_text(a: &[u8], b: &[u8]) -> bool
    requires { length a.now ≡ length b.now }
    ensures { result ≡ bytes_eq (lowercase a.now) (lowercase b.now) }
{
    let mut left = a;
    let mut right = b;
    while left.len() >= BLOCK {
        let (a_block, a_rest) = left.split_at(BLOCK);
        let (b_block, b_rest) = right.split_at(BLOCK);
        if !is_same_block(a_block, b_block) {
            return false;
        }
        left = a_rest;
        right = b_rest;
    }
    left.eq_ignore_ascii_case(right)
}

/// Whether two texts are equal but for the case of letters. Their lengths are compared where it is called, since most names differ in them.
#[inline(always)]
pub fn is_same_word(a: &[u8], b: &[u8]) -> bool
    ensures { result ≡ bytes_eq (lowercase a.now) (lowercase b.now) }
{
    a.len() == b.len() && ends_alike(a, b) && (a == b || is_same_text(a, b))
}

/// Whether all bytes are such as a token has.
fn has_token_bytes(bytes: &[u8]) -> bool
    ensures { result ≡ list_all is_token_byte bytes.now }
{
    bytes.iter().all(|b| is_token_char(*b))
}

/// Whether bytes are a token (RFC 9110 section 5.6.2).
fn is_token_text(bytes: &[u8]) -> bool
    ensures { result ≡ is_token_text bytes.now }
{
    !bytes.is_empty() && has_token_bytes(bytes)
}

/// Whether bytes are the name of a field, in any case of letters.
pub fn is_field_name(bytes: &[u8]) -> bool
    ensures { result ≡ is_field_name bytes.now }
{
    bytes.len() <= NAME_LIMIT && is_token_text(bytes)
}

/// Whether a byte is one of a value: a tab, or no control byte.
fn is_value_byte(byte: u8) -> bool
    ensures { result ≡ is_value_byte byte }
{
    (byte == b'\t') | ((b' ' <= byte) & (byte != 0x7f))
}

/// Whether bytes are the value of a field (RFC 9110 section 5.5). All are looked at, whatever the first ones are: a compiler knows better code
/// for that.
pub fn is_field_value(bytes: &[u8]) -> bool
    ensures { result ≡ is_field_value bytes.now }
{
    let mut right = true;
    for b in bytes {
        right &= is_value_byte(*b);
    }
    right
}

/// Whether the first byte of a text is this, which is not 0.
fn begins_with(text: &[u8], byte: u8) -> bool
    requires { 0 < byte }
    ensures { result ≡ (slice_index text.now 0 == byte) }
{
    match text {
        [first, ..] => *first == byte,
        [] => false,
    }
}

/// Whether a name begins with `:`.
pub fn is_pseudo(name: &[u8]) -> bool
    ensures { result ≡ is_pseudo name.now }
{
    begins_with(name, b':')
}

/// Whether bytes are a method other than CONNECT.
pub fn is_method(bytes: &[u8]) -> bool
    ensures { result ≡ is_method bytes.now }
{
    is_token_text(bytes) && bytes != b"CONNECT".as_slice()
}

/// Whether bytes are `http` or `https`.
pub fn is_scheme(bytes: &[u8]) -> bool
    ensures { result ≡ is_scheme bytes.now }
{
    bytes == b"http".as_slice() || bytes == b"https".as_slice()
}

/// Whether a byte is one from 21 to 7E.
fn is_visible(byte: u8) -> bool
    ensures { result ≡ is_visible byte }
{
    b' ' < byte && byte < 0x7f
}

/// Whether bytes are an authority: visible ones, possibly none.
pub fn is_authority(bytes: &[u8]) -> bool
    ensures { result ≡ is_authority bytes.now }
{
    let mut right = true;
    for b in bytes {
        right &= is_visible(*b);
    }
    right
}

/// Whether a byte is visible, and no `#`.
fn is_path_byte(byte: u8) -> bool
    ensures { result ≡ is_path_byte byte }
{
    is_visible(byte) && byte != b'#'
}

/// Whether all bytes are visible, and none is a `#`.
fn has_path_bytes(bytes: &[u8]) -> bool
    ensures { result ≡ list_all is_path_byte bytes.now }
{
    let mut right = true;
    for b in bytes {
        right &= is_path_byte(*b);
    }
    right
}

/// Whether bytes are `*`, or `/` and visible bytes without `#`.
pub fn is_path(bytes: &[u8]) -> bool
    ensures { result ≡ is_path bytes.now }
{
    bytes == b"*".as_slice() || (begins_with(bytes, b'/') && has_path_bytes(bytes))
}

/// The number of a status code's three digits (RFC 9112 section 4).
fn status_of(bytes: &[u8]) -> Option<u16>
    ensures { result ≡ status_of bytes.now }
{
    match bytes {
        [a, b, c] if a.is_ascii_digit() && b.is_ascii_digit() && c.is_ascii_digit() => {
            Some(u16::from(*a - b'0') * 100 + u16::from(*b - b'0') * 10 + u16::from(*c - b'0'))
        }
        _ => None,
    }
}

/// Whether bytes are a status code within these bounds.
pub fn is_status(low: u16, high: u16, bytes: &[u8]) -> bool
    ensures { result ≡ is_status low high bytes.now }
{
    match status_of(bytes) {
        Some(status) => low <= status && status <= high,
        None => false,
    }
}
