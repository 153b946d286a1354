// Pairs into bytes.
ghost use Rattle.std.specs.Prelude.{◌≡◌, ◌<◌, ◌^◌, ◌++◌, true, length, OnOk, IfOk};
ghost use Rattle.std.specs.List.{list_all, flat_map};
ghost use Rattle.header_maps.specs.Operations.{size_of};
ghost use Rattle.pair_codec.specs.Serialised.{pairs_bytes, sizes_bytes, texts_bytes, text_bytes, is_sized, are_sized};

use gate_base::{Octets, OutOfMemory, Pairs};
use header_maps::HeaderList;
use std::alloc::Global;

/// Puts the sizes of a name and a value at the end.
fn put_sizes(out: &mut Octets, name: &[u8], value: &[u8]) -> Result<(), OutOfMemory>
    requires { is_sized (name.now, value.now) ≡ true }
    ensures { OnOk result (out.new ≡ out.old ++ sizes_bytes (name.now, value.now)) }
{
    out.extend_from_slice(&(name.len() as u32).to_le_bytes())?;
    out.extend_from_slice(&(value.len() as u32).to_le_bytes())
}

/// Puts a text with a zero byte behind it at the end.
fn put_text(out: &mut Octets, text: &[u8]) -> Result<(), OutOfMemory>
    ensures { OnOk result (out.new ≡ out.old ++ text_bytes text.now) }
{
    out.extend_from_slice(text)?;
    out.push(0)
}

/// Puts the sizes of all names and values at the end.
fn put_all_sizes(out: &mut Octets, pairs: &[(Octets, Octets)]) -> Result<(), OutOfMemory>
    requires { list_all is_sized pairs.now ≡ true }
    ensures { OnOk result (out.new ≡ out.old ++ flat_map sizes_bytes pairs.now) }
{
    for (name, value) in pairs {
        put_sizes(out, name.as_slice(), value.as_slice())?;
    }
    Ok(())
}

/// Puts all names and values at the end.
fn put_all_texts(out: &mut Octets, pairs: &[(Octets, Octets)]) -> Result<(), OutOfMemory>
    ensures { OnOk result (out.new ≡ out.old ++ flat_map texts_bytes pairs.now) }
{
    for (name, value) in pairs {
        put_text(out, name.as_slice())?;
        put_text(out, value.as_slice())?;
    }
    Ok(())
}

/// The bytes of pairs.
fn bytes_of(alloc: Global, pairs: &[(Octets, Octets)]) -> Result<Octets, OutOfMemory>
    requires { are_sized pairs.now ≡ true }
    ensures { IfOk result (λ bytes. bytes ≡ pairs_bytes pairs.now) }
{
    let mut out = Octets::from_slice(alloc, &(pairs.len() as u32).to_le_bytes())?;
    put_all_sizes(&mut out, pairs)?;
    put_all_texts(&mut out, pairs)?;
    Ok(out)
}

/// Puts the sizes of all names and values of a list at the end.
fn put_list_sizes(out: &mut Octets, list: &HeaderList) -> Result<(), OutOfMemory>
    requires { list_all is_sized list.now.pairs ≡ true }
    ensures { OnOk result (out.new ≡ out.old ++ flat_map sizes_bytes list.now.pairs) }
{
    for at in 0..list.len() {
        let (name, value) = list.pair(at);
        put_sizes(out, name, value)?;
    }
    Ok(())
}

/// Puts all names and values of a list at the end.
fn put_list_texts(out: &mut Octets, list: &HeaderList) -> Result<(), OutOfMemory>
    ensures { OnOk result (out.new ≡ out.old ++ flat_map texts_bytes list.now.pairs) }
{
    for at in 0..list.len() {
        let (name, value) = list.pair(at);
        put_text(out, name)?;
        put_text(out, value)?;
    }
    Ok(())
}

/// The bytes of the pairs of a list.
fn bytes_of_list(alloc: Global, list: &HeaderList) -> Result<Octets, OutOfMemory>
    requires { are_sized list.now.pairs ≡ true }
    ensures { IfOk result (λ bytes. bytes ≡ pairs_bytes list.now.pairs) }
{
    let mut out = Octets::from_vec(Vec::with_capacity(alloc, list.byte_size())?);
    out.extend_from_slice(&(list.len() as u32).to_le_bytes())?;
    put_list_sizes(&mut out, list)?;
    put_list_texts(&mut out, list)?;
    Ok(out)
}

/// The serialised form of the pairs of a header list.
#[tactic(auto, using(crate::proofs::RoundTrip::size_is_length))]
pub fn write_list(alloc: Global, list: &HeaderList) -> Result<Octets, OutOfMemory>
    requires { are_sized list.now.pairs ≡ true }
    ensures bytes { IfOk result (λ bytes. bytes ≡ pairs_bytes list.now.pairs) }
    ensures size { IfOk result (λ bytes. length bytes ≡ size_of list.now.pairs) }
{
    match bytes_of_list(alloc, list) {
        Ok(bytes) => Ok(bytes),
        Err(end) => Err(end),
    }
}

/// The serialised form of pairs: a count, then two sizes a pair, then each name and value with a zero byte behind it.
#[tactic(auto, using(crate::proofs::RoundTrip::size_is_length))]
pub fn write_pairs(alloc: Global, pairs: &Pairs) -> Result<Octets, OutOfMemory>
    requires { are_sized pairs.now ≡ true }
    ensures bytes { IfOk result (λ bytes. bytes ≡ pairs_bytes pairs.now) }
    ensures size { IfOk result (λ bytes. length bytes ≡ size_of pairs.now) }
{
    match bytes_of(alloc, pairs.as_slice()) {
        Ok(bytes) => Ok(bytes),
        Err(end) => Err(end),
    }
}
