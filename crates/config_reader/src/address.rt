// Addresses: four numbers with dots, a colon and a port.
ghost use Rattle.std.specs.Prelude.{◌≡◌, ◌<◌, ◌==◌, IfSome, length, option_map, position};
ghost use Rattle.config_reader.specs.Address.{cut, is_octet, is_pair, is_triple, is_host, is_port, is_address};

use crate::words::is_between;

/// Whether a text is an address.
pub(crate) fn is_address(s: &[u8]) -> bool
    ensures { result ≡ is_address s.now }
{
    match cut(b':', s) {
        Some((host, port)) => is_host(host) && is_port(port),
        None => false,
    }
}

/// Whether a text is four numbers with a dot between two.
fn is_host(s: &[u8]) -> bool
    ensures { result ≡ is_host s.now }
{
    match cut(b'.', s) {
        Some((first, rest)) => is_octet(first) && is_triple(rest),
        None => false,
    }
}

/// The same of three numbers.
fn is_triple(s: &[u8]) -> bool
    ensures { result ≡ is_triple s.now }
{
    match cut(b'.', s) {
        Some((first, rest)) => is_octet(first) && is_pair(rest),
        None => false,
    }
}

/// The same of two numbers.
fn is_pair(s: &[u8]) -> bool
    ensures { result ≡ is_pair s.now }
{
    match cut(b'.', s) {
        Some((first, rest)) => is_octet(first) && is_octet(rest),
        None => false,
    }
}

/// Whether a text is a number up to 255.
fn is_octet(s: &[u8]) -> bool
    ensures { result ≡ is_octet s.now }
{
    is_between(0, 255, s)
}

/// Whether a text is a number from 1 to 65,535.
fn is_port(s: &[u8]) -> bool
    ensures { result ≡ is_port s.now }
{
    is_between(1, 65535, s)
}

/// What stands before the first such byte, and after it.
fn cut(byte: u8, s: &[u8]) -> Option<(&[u8], &[u8])>
    ensures { option_map (λ p. (p.0.now, p.1.now)) result ≡ cut byte s.now }
{
    match place_of(byte, s) {
        Some(at) => Some((&s[..at], &s[at + 1..])),
        None => None,
    }
}

/// The place of the first such byte.
fn place_of(byte: u8, s: &[u8]) -> Option<usize>
    ensures first { result ≡ position (λ x. x == byte) s.now }
    ensures within { IfSome result (λ at. at < length s.now) }
{
    s.iter().position(|b| *b == byte)
}
