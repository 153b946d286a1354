// Lists of pairs of a name and a value, read and changed.
ghost use Rattle.std.specs.Prelude.{◌≡◌, ◌≤◌, ◌<◌, ◌++◌, ◌^◌, true, length, take, drop, map, filter, IfOk, OnOk, OnErr, Some, option_copied};
ghost use Rattle.std.specs.List.{list_all, position, find};
ghost use Rattle.std.specs.Option.{option_map};
ghost use Rattle.http_header.specs.Token.{lowercase};
ghost use Rattle.header_maps.specs.Kept.{is_short};
ghost use Rattle.header_maps.specs.Operations.{without, with_value, size_of};
ghost use Rattle.header_maps.specs.Pairs.{Pair, lowered, is_named, plain_among, plain_count, values_of, joined, joined_behind};

use crate::judged::{is_pseudo, is_same_word};
use crate::texts::Texts;
use gate_base::{Octets, OutOfMemory, Pairs};
use std::alloc::Global;

/// The place of the first field of a name, in any case of letters.
pub fn place_of(items: &Texts, name: &[u8]) -> Option<usize>
    ensures { result ≡ position (is_named (lowercase name.now)) items.now }
{
    for at in 0..items.len() {
        if is_same_word(items.pair(at).0, name) {
            return Some(at);
        }
    }
    None
}

/// Takes the fields of a name out, from a place on.
pub fn drop_from(items: &mut Texts, from: usize, name: &[u8])
    requires { from ≤ length items.old }
    ensures { items.new ≡ take from items.old ++ without (lowercase name.now) (drop from items.old) }
{
    let mut at = from;
    while at < items.len() {
        if is_same_word(items.pair(at).0, name) {
            items.remove(at);
        } else {
            at += 1;
        }
    }
}

/// Puts a value at a place, which is that of the first field of a name, and takes the other fields of that name out.
pub fn put_value(items: &mut Texts, at: usize, name: &[u8], value: &[u8]) -> Result<(), OutOfMemory>
    requires { position (is_named (lowercase name.now)) items.old ≡ Some at }
    ensures ok { OnOk result (items.new ≡ with_value (lowercase name.now) value.now items.old) }
    ensures err { OnErr result (items.new ≡ items.old) }
{
    let _len = items.len();
    items.set_value(at, value)?;
    drop_from(items, at + 1, name);
    Ok(())
}

/// Puts copies of those of the given pairs at the end that have this name, with their names in lower case.
pub fn push_named(
    items: &mut Texts,
    given: &[(Octets, Octets)],
    name: &[u8],
) -> Result<(), OutOfMemory>
    ensures { OnOk result (items.new ≡ items.old ++ map lowered (filter (is_named (lowercase name.now)) given.now)) }
{
    for (field, value) in given {
        if is_same_word(field.as_slice(), name) {
            items.push_lowered(field.as_slice(), value.as_slice())?;
        }
    }
    Ok(())
}

/// Puts copies of those of the given pairs at the end that are no pseudo-headers, with their names in lower case.
pub fn push_plain(items: &mut Texts, given: &[(Octets, Octets)]) -> Result<(), OutOfMemory>
    ensures { OnOk result (items.new ≡ items.old ++ map lowered (plain_among given.now)) }
{
    for (field, value) in given {
        if !is_pseudo(field.as_slice()) {
            items.push_lowered(field.as_slice(), value.as_slice())?;
        }
    }
    Ok(())
}

/// How many of the given pairs are of a name, in any case of letters.
pub fn count_named(given: &[(Octets, Octets)], name: &[u8]) -> usize
    ensures { result ≡ length (filter (is_named (lowercase name.now)) given.now) }
{
    let mut count = 0;
    for (field, _) in given {
        if is_same_word(field.as_slice(), name) {
            count += 1;
        }
    }
    count
}

/// How many of the given pairs are no pseudo-headers.
pub fn count_plain(given: &[(Octets, Octets)]) -> usize
    ensures { result ≡ plain_count given.now }
{
    let mut count = 0;
    for (field, _) in given {
        if !is_pseudo(field.as_slice()) {
            count += 1;
        }
    }
    count
}

/// The values so far with one more behind a comma, or that one alone.
fn joined_with(alloc: Global, joined: Option<Octets>, value: &[u8]) -> Result<Octets, OutOfMemory>
    ensures { IfOk result (λ all. all ≡ joined_behind joined value.now) }
{
    match joined {
        Some(mut joined) => {
            joined.push(b',')?;
            joined.extend_from_slice(value)?;
            Ok(joined)
        }
        None => Octets::from_slice(alloc, value),
    }
}

/// The values of all fields of a name, in any case of letters, joined by one comma each.
pub fn joined_values(
    alloc: Global,
    items: &Texts,
    name: &[u8],
) -> Result<Option<Octets>, OutOfMemory>
    ensures { IfOk result (λ value. value ≡ joined (values_of (lowercase name.now) items.now)) }
{
    let mut joined = None;
    for at in 0..items.len() {
        let (field, value) = items.pair(at);
        if is_same_word(field, name) {
            joined = Some(joined_with(alloc, joined, value)?);
        }
    }
    Ok(joined)
}

/// The value of the first field of a name, in any case of letters.
pub fn first_value<'t>(items: &'t Texts, name: &[u8]) -> Option<&'t [u8]>
    ensures { option_copied result ≡ option_map (λ (f : Pair). f.1) (find (is_named (lowercase name.now)) items.now) }
{
    for at in 0..items.len() {
        let (field, value) = items.pair(at);
        if is_same_word(field, name) {
            return Some(value);
        }
    }
    None
}

/// How many bytes the serialised form of pairs has.
pub fn size_of(items: &Texts) -> usize
    requires few { length items.now ≤ 104 }
    requires short { list_all is_short items.now ≡ true }
    ensures size { result ≡ size_of items.now }
    ensures bound { result < 2 ^ 32 }
{
    let mut size = 4;
    for at in 0..items.len() {
        let (name, value) = items.pair(at);
        size += 10 + name.len() + value.len();
    }
    size
}

/// A copy of pairs, as a list.
pub fn pairs_of(alloc: Global, items: &Texts) -> Result<Pairs, OutOfMemory>
    ensures { IfOk result (λ pairs. pairs ≡ items.now) }
{
    let mut pairs = Pairs::new(alloc);
    for at in 0..items.len() {
        let (name, value) = items.pair(at);
        pairs.push((
            Octets::from_slice(alloc, name)?,
            Octets::from_slice(alloc, value)?,
        ))?;
    }
    Ok(pairs)
}
