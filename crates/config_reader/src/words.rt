// Single words of a configuration.
ghost use Rattle.std.specs.Prelude.{◌≡◌};
ghost use Rattle.std.specs.List.{list_all};
ghost use Rattle.config_reader.specs.Words.{is_name, is_name_byte, is_digit, is_decimal, is_between, number_from, level_of};

use gate_base::Level;

/// Whether a text is a name: 1 to 32 bytes of `a` to `z`, `0` to `9`, `_` and `-`.
pub(crate) fn is_name(s: &[u8]) -> bool
    ensures { result ≡ is_name s.now }
{
    1 <= s.len() && s.len() <= 32 && are_name_bytes(s)
}

/// Whether all bytes may stand in a name.
fn are_name_bytes(s: &[u8]) -> bool
    ensures { result ≡ list_all is_name_byte s.now }
{
    s.iter().all(|b| is_name_byte(*b))
}

/// Whether a byte may stand in a name.
fn is_name_byte(b: u8) -> bool
    ensures { result ≡ is_name_byte b }
{
    (97 <= b && b <= 122) || (48 <= b && b <= 57) || b == 95 || b == 45
}

/// Whether a text is a number within these bounds, decimal and with no zero in front of other digits.
pub(crate) fn is_between(least: u32, most: u32, s: &[u8]) -> bool
    ensures { result ≡ is_between least most s.now }
{
    if !is_decimal(s) {
        return false;
    }
    let n = number_of(s);
    least <= n && n <= most
}

/// Whether a text is decimal digits, with no zero in front of others.
fn is_decimal(s: &[u8]) -> bool
    ensures { result ≡ is_decimal s.now }
{
    match s {
        [] => false,
        [only] => is_digit(*only),
        [first, ..] => *first != b'0' && are_digits(s),
    }
}

/// Whether all bytes are decimal digits.
fn are_digits(s: &[u8]) -> bool
    ensures { result ≡ list_all is_digit s.now }
{
    s.iter().all(|b| is_digit(*b))
}

/// Whether a byte is a decimal digit.
fn is_digit(b: u8) -> bool
    ensures { result ≡ is_digit b }
{
    b.is_ascii_digit()
}

/// The number that digits write, and 1,000,000 where it is more.
fn number_of(s: &[u8]) -> u32
    ensures { result ≡ number_from 0 s.now }
{
    let mut n: u32 = 0;
    for b in s {
        n = (n * 10 + u32::from(b.saturating_sub(48))).min(1_000_000);
    }
    n
}

/// The level of a word, in lower case.
pub(crate) fn level_of(word: &str) -> Option<Level>
    ensures { result ≡ level_of word.now }
{
    if word == "trace" {
        Some(Level::Trace)
    } else if word == "debug" {
        Some(Level::Debug)
    } else if word == "info" {
        Some(Level::Info)
    } else if word == "warn" {
        Some(Level::Warn)
    } else if word == "error" {
        Some(Level::Error)
    } else if word == "critical" {
        Some(Level::Critical)
    } else {
        None
    }
}
