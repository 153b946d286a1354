// Values, and the members of a list in a value.
ghost use Rattle.std.specs.Prelude.{◌≡◌, ◌<◌, ◌≤◌, ◌∷◌, ℕ, true, false, length, nat_lt, slice_index, IfSome, option_copied};
ghost use Rattle.h1_model.specs.Fields.{lists, members};
ghost use Rattle.http_header.specs.Token.{lowercase};
ghost use Rattle.httparse.specs.Grammar.{is_ows, trim_ows};
ghost use Rattle.h1_text.specs.Members.{is_comma, rest_members};

use header_maps::is_same_word;

/// Whether a byte is a space or a tab.
fn is_blank(byte: u8) -> bool
    ensures { result ≡ is_ows byte }
{
    byte == b' ' || byte == b'\t'
}

/// The bytes without the blanks at both ends (RFC 9110 section 5.5).
pub fn trim(bytes: &[u8]) -> &[u8]
    ensures { result.now ≡ trim_ows bytes.now }
{
    let mut start = 0;
    let mut end = bytes.len();
    while start < end && is_blank(bytes[start]) {
        start += 1;
    }
    while start < end && is_blank(bytes[end - 1]) {
        end -= 1;
    }
    &bytes[start..end]
}

/// The place of the first comma, and where there is none the length. Most members are so short that a search by words of bytes would be dearer.
pub fn comma_at(list: &[u8]) -> usize
    ensures within { result ≤ length list.now }
    ensures before { (k : ℕ) → k < result → is_comma (slice_index list.now k) ≡ false }
    ensures comma { result < length list.now → is_comma (slice_index list.now result) ≡ true }
{
    let mut at = 0;
    while at < list.len() {
        if list[at] == b',' {
            return at;
        }
        at += 1;
    }
    at
}

/// The first member of a list in a value, and what stands after its comma.
pub fn first_member(list: &[u8]) -> (&[u8], Option<&[u8]>)
    ensures members { members list.now ≡ result.0.now ∷ rest_members (option_copied result.1) }
    ensures shorter { IfSome (option_copied result.1) (λ rest. length rest < length list.now) }
{
    let at = comma_at(list);
    if at < list.len() {
        (trim(&list[..at]), Some(&list[at + 1..]))
    } else {
        (trim(list), None)
    }
}

/// Whether a member of a value is this name, in any case of letters (RFC 9110 section 5.6.1).
pub fn lists(value: &[u8], name: &[u8]) -> bool
    ensures { result ≡ lists (lowercase name.now) value.now }
{
    value
        .split(|b| *b == b',')
        .any(|member| is_same_word(trim(member), name))
}

/// How many members a list has at most that is no long one.
const FEW: usize = 4;

/// Whether a value has more than 4 members. Only the first 4 commas are looked for.
pub fn has_many_members(value: &[u8]) -> bool
    ensures { result ≡ nat_lt 4 (length (members value.now)) }
{
    let mut rest = value;
    let mut count = 0;
    while let (_, Some(after)) = first_member(rest) {
        count += 1;
        if count >= FEW {
            return true;
        }
        rest = after;
    }
    false
}
