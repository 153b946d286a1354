// Pairs in their serialised form, read in place.
ghost use Rattle.std.specs.Prelude.{◌≡◌, ◌≤◌, ◌+◌, ◌*◌, ◌∷◌, ◌↔◌, [], true, length, drop, is_some, IfSome, IfNone, IfOk, IsTrue};
ghost use Rattle.std.specs.List.{list_all};
ghost use Rattle.header_maps.specs.Kept.{byte_limit, is_short};
ghost use Rattle.pair_codec.specs.Reading.{word_in, has_text, has_pair, pair_in, behind_pair, texts_in, counted_in, pairs_in};

use gate_base::{Octets, OutOfMemory, Pairs};
use std::alloc::Global;
use std::marker::Model;

/// Pairs in their serialised form, which was judged to be one. They are read where they stand: none is copied. Clauses see the list of
/// those that were not taken yet.
#[derive(Drop)]
pub struct Serialised<'a> {
    count: usize,
    sizes: &'a [u8],
    texts: &'a [u8],
}

impl<'a> Model for Serialised<'a> {
    ghost use Rattle.std.specs.Prelude.{List};
    ghost use Rattle.header_maps.specs.Pairs.{Pair};

    ghost Value = { List Pair };

    ghost use Rattle.pair_codec.specs.Left.{pairs_left, IsLeft};

    ghost view = { pairs_left };

    ghost invariant = { IsLeft };
}

/// The number of the four bytes at a place.
fn word_at(bytes: &[u8], at: usize) -> u32
    requires { at + 4 ≤ length bytes.now }
    ensures { result ≡ word_in (drop at bytes.now) }
{
    u32::from_le_bytes([bytes[at], bytes[at + 1], bytes[at + 2], bytes[at + 3]])
}

/// Whether so many bytes stand there with a zero byte behind them.
fn has_text(bytes: &[u8], size: usize) -> bool
    ensures { result ≡ has_text size bytes.now }
{
    match bytes.get(size) {
        Some(last) => *last == 0,
        None => false,
    }
}

/// Whether a name and a value of these sizes stand there.
fn has_pair(bytes: &[u8], name: usize, value: usize) -> bool
    ensures { result ≡ has_pair name value bytes.now }
{
    has_text(bytes, name) && has_text(&bytes[name + 1..], value)
}

/// The name and the value of these sizes.
fn pair_at(bytes: &[u8], name: usize, value: usize) -> (&[u8], &[u8])
    requires { has_pair name value bytes.now ≡ true }
    ensures { (result.0.now, result.1.now) ≡ pair_in name value bytes.now }
{
    (&bytes[..name], &bytes[name + 1..name + 1 + value])
}

/// What stands behind a name and a value of these sizes.
fn behind_pair(bytes: &[u8], name: usize, value: usize) -> &[u8]
    requires { has_pair name value bytes.now ≡ true }
    ensures { result.now ≡ behind_pair name value bytes.now }
{
    &bytes[name + 1 + (value + 1)..]
}

/// What stands behind the sizes of a pair.
fn behind_sizes(sizes: &[u8]) -> &[u8]
    requires { 8 ≤ length sizes.now }
    ensures { result.now ≡ drop 8 sizes.now }
{
    &sizes[8..]
}

/// Whether so many pairs stand there, by their sizes and their texts, and nothing else.
fn are_texts(count: usize, sizes: &[u8], texts: &[u8]) -> bool
    requires { 8 * count ≤ length sizes.now }
    ensures { result ≡ is_some (texts_in count sizes.now texts.now) }
{
    let mut rest = texts;
    for k in 0..count {
        let name = word_at(sizes, 8 * k) as usize;
        let value = word_at(sizes, 8 * k + 4) as usize;
        if !has_pair(rest, name, value) {
            return false;
        }
        rest = behind_pair(rest, name, value);
    }
    rest.is_empty()
}

/// The serialised form that bytes are, which are not empty.
#[tactic(auto, using(crate::proofs::Left::some_or_none))]
fn counted(bytes: &[u8]) -> Option<Serialised<'_>>
    ensures { result ≡ counted_in bytes.now }
{
    if bytes.len() < 4 {
        return None;
    }
    let count = word_at(bytes, 0) as usize;
    if 8 * count > bytes.len() - 4 {
        return None;
    }
    let sizes = &bytes[4..];
    let texts = &bytes[4 + 8 * count..];
    if !are_texts(count, sizes, texts) {
        return None;
    }
    Some(Serialised {
        count,
        sizes,
        texts,
    })
}

impl<'a> Serialised<'a> {
    /// The pairs of a serialised form, or of no bytes; none exactly where the bytes are neither. All of it is judged, and nothing is copied.
    /// No name or value is longer than the bytes.
    #[tactic(auto, using(crate::proofs::RoundTrip::short_read))]
    pub fn of(bytes: &'a [u8]) -> Option<Self>
        ensures pairs { result ≡ pairs_in bytes.now }
        ensures short { length bytes.now ≤ byte_limit → IfSome result (λ pairs. list_all is_short pairs ≡ true) }
    {
        if bytes.is_empty() {
            return Some(Serialised {
                count: 0,
                sizes: bytes,
                texts: bytes,
            });
        }
        counted(bytes)
    }

    /// How many pairs are left.
    pub fn len(&self) -> usize
        ensures { result ≡ length self.now }
    {
        self.count
    }

    /// Whether no pair is left.
    pub fn is_empty(&self) -> bool
        ensures { IsTrue result ↔ (self.now ≡ []) }
    {
        self.count == 0
    }

    /// Takes the first pair that is left: its name and its value.
    pub fn pop_first(&mut self) -> Option<(&'a [u8], &'a [u8])>
        ensures first { IfSome result (λ pair. self.old ≡ (pair.0.now, pair.1.now) ∷ self.new) }
        ensures none { IfNone result (self.old ≡ []) }
    {
        if self.count == 0 {
            return None;
        }
        let name = word_at(self.sizes, 0) as usize;
        let value = word_at(self.sizes, 4) as usize;
        let pair = pair_at(self.texts, name, value);
        let texts = behind_pair(self.texts, name, value);
        let sizes = behind_sizes(self.sizes);
        self.count -= 1;
        self.sizes = sizes;
        self.texts = texts;
        Some(pair)
    }

    /// The same pairs once more, to be taken by another.
    pub fn again(&self) -> Serialised<'a>
        ensures { result ≡ self.now }
    {
        Serialised {
            count: self.count,
            sizes: self.sizes,
            texts: self.texts,
        }
    }

    /// A copy of the pairs that are left.
    pub fn to_pairs(&self, alloc: Global) -> Result<Pairs, OutOfMemory>
        ensures { IfOk result (λ pairs. pairs ≡ self.now) }
    {
        let mut pairs = Pairs::new(alloc);
        let mut left = self.again();
        while let Some((name, value)) = left.pop_first() {
            pairs.push((
                Octets::from_slice(alloc, name)?,
                Octets::from_slice(alloc, value)?,
            ))?;
        }
        Ok(pairs)
    }
}
