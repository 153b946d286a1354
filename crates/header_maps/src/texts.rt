// Pairs of a name and a value, whose bytes stand in one buffer.
ghost use Rattle.std.specs.Prelude.{◌≡◌, ◌<◌, ◌≤◌, ◌+◌, ◌-◌, ◌*◌, ◌^◌, ◌∷◌, ◌++◌, [], All, length, take, drop, min, slice_index_or, ◌↔◌, IsTrue, IfOk, OnOk, OnErr};
ghost use Rattle.std.specs.List.{sum_by};
ghost use Rattle.http_header.specs.Token.{lowercase};
ghost use Rattle.header_maps.specs.Places.{pair_in, pairs_in, put_at, size_at, IsWithin};

use gate_base::OutOfMemory;
use std::alloc::Global;
use std::marker::Model;

/// How many bytes of a buffer may be of no pair, beside as many as its pairs have.
const SPARE_BYTES: usize = 4096;

/// How many bytes are put in lower case at once.
const BLOCK: usize = 8;

/// Where a name and its value stand in a buffer.
#[derive(Clone, Copy)]
pub struct Place {
    name: usize,
    name_end: usize,
    value: usize,
    value_end: usize,
}

/// Pairs in order. All their bytes stand in one buffer, so that a list takes two pieces of memory, and not two for each pair. The bytes of a
/// pair that was taken out, and of a value that another one was put in place of, stay there until `tighten` or `copy`. Clauses see the list
/// of the pairs.
#[derive(Drop)]
pub struct Texts {
    bytes: Vec<u8>,
    places: Vec<Place>,
}

impl Model for Texts {
    ghost use Rattle.std.specs.Prelude.{List, length, All};
    ghost use Rattle.header_maps.specs.Pairs.{Pair};
    ghost use Rattle.header_maps.specs.Places.{pairs_in, IsWithin};

    ghost Value = { List Pair };

    ghost view = { λ t. pairs_in t.bytes.items t.places.items };

    ghost invariant = { λ t. All (IsWithin (length t.bytes.items)) t.places.items };
}

/// Puts the letters of a text in lower case, in blocks of 8 bytes, for which a compiler knows better code than for any number of bytes. The last
/// block may have bytes in common with the one before it.
fn lower(text: &mut [u8])
    ensures { text.new ≡ lowercase text.old }
{
    let len = text.len();
    if len < BLOCK {
        text.make_ascii_lowercase();
        return;
    }
    let last = len - BLOCK;
    let mut at = 0;
    while at < last {
        text[at..at + BLOCK].make_ascii_lowercase();
        at += BLOCK;
    }
    text[last..].make_ascii_lowercase();
}

/// Puts a copy of a text at the end, with its letters in lower case.
fn put_lowered(bytes: &mut Vec<u8>, text: &[u8]) -> Result<(), OutOfMemory>
    ensures ok { OnOk result (bytes.new.items ≡ bytes.old.items ++ lowercase text.now) }
    ensures err { OnErr result (bytes.new.items ≡ bytes.old.items) }
{
    let start = bytes.len();
    bytes.extend_from_slice(text)?;
    lower(bytes.slice_mut(start..));
    Ok(())
}

/// Puts a copy of a value at the end. The name that is named with it stands in front of it, from `name` on.
fn put_value(bytes: &mut Vec<u8>, name: usize, value: &[u8]) -> Result<Place, OutOfMemory>
    requires { name ≤ length bytes.old.items }
    ensures front { take (length bytes.old.items) bytes.new.items ≡ bytes.old.items }
    ensures within { IfOk result (λ place. IsWithin (length bytes.new.items) place) }
    ensures pair { IfOk result (λ place. pair_in bytes.new.items place ≡ (drop name bytes.old.items, value.now)) }
    ensures size { IfOk result (λ place. length bytes.new.items ≡ name + size_at place) }
{
    let name_end = bytes.len();
    bytes.extend_from_slice(value)?;
    Ok(Place {
        name,
        name_end,
        value: name_end,
        value_end: bytes.len(),
    })
}

/// Puts a copy of a name and a value at the end.
fn put_pair(bytes: &mut Vec<u8>, name: &[u8], value: &[u8]) -> Result<Place, OutOfMemory>
    ensures front { take (length bytes.old.items) bytes.new.items ≡ bytes.old.items }
    ensures within { IfOk result (λ place. IsWithin (length bytes.new.items) place) }
    ensures pair { IfOk result (λ place. pair_in bytes.new.items place ≡ (name.now, value.now)) }
    ensures size { IfOk result (λ place. length bytes.new.items ≡ length bytes.old.items + size_at place) }
{
    let start = bytes.len();
    bytes.extend_from_slice(name)?;
    put_value(bytes, start, value)
}

/// Puts a copy of a name, in lower case, and of a value at the end.
fn put_lowered_pair(bytes: &mut Vec<u8>, name: &[u8], value: &[u8]) -> Result<Place, OutOfMemory>
    ensures front { take (length bytes.old.items) bytes.new.items ≡ bytes.old.items }
    ensures within { IfOk result (λ place. IsWithin (length bytes.new.items) place) }
    ensures pair { IfOk result (λ place. pair_in bytes.new.items place ≡ (lowercase name.now, value.now)) }
{
    let start = bytes.len();
    put_lowered(bytes, name)?;
    put_value(bytes, start, value)
}

/// How many bytes the pairs at these places have, as far as a `usize` can count.
fn text_size(places: &[Place]) -> usize
    ensures { result ≡ min (sum_by size_at places.now) (2 ^ 64 - 1) }
{
    let mut size: usize = 0;
    for place in places {
        size = size
            .saturating_add(place.name_end.saturating_sub(place.name))
            .saturating_add(place.value_end.saturating_sub(place.value));
    }
    size
}

/// Whether more bytes of a buffer are of no pair than may be.
fn is_loose(bytes: &[u8], places: &[Place]) -> bool
    ensures { IsTrue result ↔ (2 * sum_by size_at places.now + 4096 < length bytes.now) }
{
    let size = text_size(places);
    bytes.len().saturating_sub(size) > size.saturating_add(SPARE_BYTES)
}

/// Pairs copied into a buffer that has no other bytes, and their places in it.
fn packed(
    alloc: Global,
    bytes: &[u8],
    places: &[Place],
) -> Result<(Vec<u8>, Vec<Place>), OutOfMemory>
    requires { All (IsWithin (length bytes.now)) places.now }
    ensures within { IfOk result (λ own. All (IsWithin (length own.0.items)) own.1.items) }
    ensures pairs { IfOk result (λ own. pairs_in own.0.items own.1.items ≡ pairs_in bytes.now places.now) }
    ensures size { IfOk result (λ own. length own.0.items ≡ sum_by size_at own.1.items) }
{
    let mut own = Vec::with_capacity(alloc, text_size(places))?;
    let mut moved = Vec::with_capacity(alloc, places.len())?;
    for place in places {
        let name = &bytes[place.name..place.name_end];
        let value = &bytes[place.value..place.value_end];
        let at = put_pair(&mut own, name, value)?;
        moved.push(at)?;
    }
    Ok((own, moved))
}

/// Copies the pairs into a buffer that has no other bytes, where more bytes of theirs are of no pair than may be: then a buffer has at most
/// twice the bytes of its pairs, and 4,096 more. Each byte of no pair was put in once and goes with the next copy, which has fewer bytes
/// than go. So all the copies in a list's life have fewer bytes together than were ever put into it, whatever else it holds.
fn tighten(bytes: &mut Vec<u8>, places: &mut Vec<Place>) -> Result<(), OutOfMemory>
    requires { All (IsWithin (length bytes.old.items)) places.old.items }
    ensures within { All (IsWithin (length bytes.new.items)) places.new.items }
    ensures pairs { pairs_in bytes.new.items places.new.items ≡ pairs_in bytes.old.items places.old.items }
    ensures size { OnOk result (length bytes.new.items ≤ 2 * sum_by size_at places.new.items + 4096) }
{
    if is_loose(bytes.as_slice(), places.as_slice()) {
        let (own, moved) = packed(*bytes.allocator(), bytes.as_slice(), places.as_slice())?;
        *bytes = own;
        *places = moved;
    }
    Ok(())
}

impl Texts {
    ghost use Rattle.std.specs.List.{remove};

    /// No pairs. It takes no memory.
    pub fn new(alloc: Global) -> Self
        ensures { result ≡ [] }
    {
        Texts {
            bytes: Vec::new(alloc),
            places: Vec::new(alloc),
        }
    }

    /// No pairs, with room for so many, of so many bytes.
    pub fn with_room(alloc: Global, bytes: usize, pairs: usize) -> Result<Self, OutOfMemory>
        ensures { IfOk result (λ texts. texts ≡ []) }
    {
        let bytes = Vec::with_capacity(alloc, bytes)?;
        Ok(Texts {
            bytes,
            places: Vec::with_capacity(alloc, pairs)?,
        })
    }

    /// How many pairs there are.
    pub fn len(&self) -> usize
        ensures { result ≡ length self.now }
    {
        self.places.len()
    }

    /// Whether there is none.
    pub fn is_empty(&self) -> bool
        ensures { IsTrue result ↔ (self.now ≡ []) }
    {
        self.places.is_empty()
    }

    /// The name and the value of a pair.
    pub fn pair(&self, at: usize) -> (&[u8], &[u8])
        requires { at < length self.now }
        ensures { (result.0.now, result.1.now) ≡ slice_index_or self.now at (result.0.now, result.1.now) }
    {
        let place = self.places[at];
        let bytes = self.bytes.as_slice();
        (
            &bytes[place.name..place.name_end],
            &bytes[place.value..place.value_end],
        )
    }

    /// Puts a pair last, as it is.
    pub fn push(&mut self, name: &[u8], value: &[u8]) -> Result<(), OutOfMemory>
        ensures ok { OnOk result (self.new ≡ self.old ++ (name.now, value.now) ∷ []) }
        ensures err { OnErr result (self.new ≡ self.old) }
    {
        let place = put_pair(&mut self.bytes, name, value)?;
        self.places.push(place)?;
        Ok(())
    }

    /// Puts a pair last, with its name in lower case.
    pub fn push_lowered(&mut self, name: &[u8], value: &[u8]) -> Result<(), OutOfMemory>
        ensures ok { OnOk result (self.new ≡ self.old ++ (lowercase name.now, value.now) ∷ []) }
        ensures err { OnErr result (self.new ≡ self.old) }
    {
        let place = put_lowered_pair(&mut self.bytes, name, value)?;
        self.places.push(place)?;
        Ok(())
    }

    /// Takes a pair out. Its bytes stay in the buffer.
    pub fn remove(&mut self, at: usize)
        requires { at < length self.old }
        ensures { self.new ≡ remove self.old at }
    {
        self.places.remove(at);
    }

    /// Puts a value in place of that of a pair, whose bytes stay in the buffer.
    pub fn set_value(&mut self, at: usize, value: &[u8]) -> Result<(), OutOfMemory>
        requires { at < length self.old }
        ensures ok { OnOk result (self.new ≡ put_at self.old at value.now) }
        ensures err { OnErr result (self.new ≡ self.old) }
    {
        let start = self.bytes.len();
        self.bytes.extend_from_slice(value)?;
        let place = self.places[at];
        self.places[at] = Place {
            name: place.name,
            name_end: place.name_end,
            value: start,
            value_end: self.bytes.len(),
        };
        Ok(())
    }

    /// Copies the pairs into a buffer of their own where the bytes of no pair are more than those of the pairs and 4,096 together. Whoever
    /// takes pairs out or replaces values calls it behind that. Where memory runs out, the buffer stays.
    pub fn tighten(&mut self)
        ensures { self.new ≡ self.old }
    {
        let _ = tighten(&mut self.bytes, &mut self.places);
    }

    /// A copy, whose buffer has bytes of these pairs alone.
    pub fn copy(&self, alloc: Global) -> Result<Self, OutOfMemory>
        ensures { IfOk result (λ texts. texts ≡ self.now) }
    {
        if text_size(self.places.as_slice()) == self.bytes.len() {
            let bytes = Vec::from_slice(alloc, self.bytes.as_slice())?;
            return Ok(Texts {
                bytes,
                places: Vec::from_slice(alloc, self.places.as_slice())?,
            });
        }
        let (bytes, places) = packed(alloc, self.bytes.as_slice(), self.places.as_slice())?;
        Ok(Texts { bytes, places })
    }
}
