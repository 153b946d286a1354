// What comes before a call: its ranges and result places, and the bytes that it takes.
ghost use Rattle.std.specs.Prelude.{◌≡◌, ◌≤◌, ◌<◌, ◌^◌, ◌+◌, ◌*◌, true, length, IfOk, IfSome, slice_get, slice_index_or};
ghost use Rattle.abi_model.specs.Rows.{all_inside, ranges, places, bytes_in, input_bytes, places_of, AreInputs};
ghost use Rattle.abi_model.specs.Table.{arg, Are};

use crate::ends::Places;
use crate::table::Param;
use abi_memory::{is_within, take_bytes};
use abi_types::Guest;
use gate_base::{Octets, OutOfMemory};
use std::alloc::{AllocError, Global};

/// The bytes that a call is given, in the order of its ranges; none where it has fewer.
#[derive(Drop)]
pub struct Inputs {
    pub first: Octets,
    pub second: Octets,
    pub third: Octets,
    pub fourth: Octets,
}

/// The argument at a place.
fn arg(args: &[u64], at: usize) -> u64
    ensures { result ≡ arg args.now at }
{
    match args.get(at) {
        Some(n) => *n,
        None => 0,
    }
}

/// Whether each range and each result place of a call is inside.
pub(crate) fn all_inside<G: Guest>(guest: &G, row: &[Param], args: &[u64]) -> bool
    requires { length row.now ≤ 16 }
    ensures { result ≡ all_inside (G.at guest.now).config.store.memory row.now 0 args.now }
{
    inside_from(guest, row, args, 0)
}

/// The same from an argument on.
fn inside_from<G: Guest>(guest: &G, row: &[Param], args: &[u64], at: usize) -> bool
    requires { at + 2 * length row.now ≤ 32 }
    ensures { result ≡ all_inside (G.at guest.now).config.store.memory row.now at args.now }
{
    let Some((first, rest)) = row.split_first() else {
        return true;
    };
    match first {
        Param::Number | Param::Wide => inside_from(guest, rest, args, at + 1),
        Param::Input | Param::Output => {
            is_within(guest, arg(args, at), arg(args, at + 1))
                && inside_from(guest, rest, args, at + 2)
        }
        Param::Result => {
            is_within(guest, arg(args, at), 4) && inside_from(guest, rest, args, at + 1)
        }
        Param::WideResult => {
            is_within(guest, arg(args, at), 8) && inside_from(guest, rest, args, at + 1)
        }
    }
}

/// A range of the arguments from one on, by its number: where it begins, and how many bytes it has.
fn range_from(row: &[Param], args: &[u64], at: usize, number: usize) -> Option<(u64, u64)>
    requires few { at + 2 * length row.now ≤ 32 }
    requires args { Are row.now at args.now }
    ensures range { result ≡ slice_get (ranges row.now at args.now) number }
    ensures fits { IfSome result (λ r. (r.0 < 2 ^ 32) × (r.1 < 2 ^ 32)) }
{
    let Some((first, rest)) = row.split_first() else {
        return None;
    };
    match first {
        Param::Number | Param::Wide | Param::Result | Param::WideResult => {
            range_from(rest, args, at + 1, number)
        }
        Param::Output => range_from(rest, args, at + 2, number),
        Param::Input => {
            if number == 0 {
                Some((arg(args, at), arg(args, at + 1)))
            } else {
                range_from(rest, args, at + 2, number - 1)
            }
        }
    }
}

/// A place for a result among the arguments from one on, by its number; 0 where there are fewer.
fn place_from(row: &[Param], args: &[u64], at: usize, number: usize) -> u64
    requires few { at + 2 * length row.now ≤ 32 }
    requires args { Are row.now at args.now }
    ensures place { result ≡ slice_index_or (places row.now at args.now) number 0 }
    ensures fits { result < 2 ^ 32 }
{
    let Some((first, rest)) = row.split_first() else {
        return 0;
    };
    match first {
        Param::Number | Param::Wide => place_from(rest, args, at + 1, number),
        Param::Input => place_from(rest, args, at + 2, number),
        Param::Result | Param::WideResult => {
            if number == 0 {
                arg(args, at)
            } else {
                place_from(rest, args, at + 1, number - 1)
            }
        }
        Param::Output => {
            if number == 0 {
                arg(args, at)
            } else {
                place_from(rest, args, at + 2, number - 1)
            }
        }
    }
}

/// The bytes of a range.
fn take_range<G: Guest>(
    alloc: Global,
    guest: &G,
    row: &[Param],
    args: &[u64],
    number: usize,
) -> Result<Octets, OutOfMemory>
    requires few { length row.now ≤ 16 }
    requires args { Are row.now 0 args.now }
    requires inside { all_inside (G.at guest.now).config.store.memory row.now 0 args.now ≡ true }
    ensures bytes { IfOk result (λ o. o ≡ bytes_in (G.at guest.now).config.store.memory (slice_get (ranges row.now 0 args.now) number)) }
    ensures short { IfOk result (λ o. length o ≤ 16777216) }
{
    let size = guest.size();
    match range_from(row, args, 0, number) {
        None => Ok(Octets::new(alloc)),
        Some((at, len)) => match take_bytes(alloc, guest, at as u32, len as u32) {
            Ok(bytes) => {
                prove!(bytes.len() as u64 <= size);
                Ok(bytes)
            }
            Err(_) => Err(AllocError),
        },
    }
}

/// The bytes of a call's ranges.
pub(crate) fn take_inputs<G: Guest>(
    alloc: Global,
    guest: &G,
    row: &[Param],
    args: &[u64],
) -> Result<Inputs, OutOfMemory>
    requires few { length row.now ≤ 16 }
    requires args { Are row.now 0 args.now }
    requires inside { all_inside (G.at guest.now).config.store.memory row.now 0 args.now ≡ true }
    ensures taken { IfOk result (λ i. i ≡ input_bytes (G.at guest.now).config.store.memory row.now args.now) }
    ensures short { IfOk result AreInputs }
{
    let first = take_range(alloc, guest, row, args, 0)?;
    let second = take_range(alloc, guest, row, args, 1)?;
    let third = take_range(alloc, guest, row, args, 2)?;
    let fourth = take_range(alloc, guest, row, args, 3)?;
    Ok(Inputs {
        first,
        second,
        third,
        fourth,
    })
}

/// A place for a result, by its number.
fn place_at(row: &[Param], args: &[u64], number: usize) -> u32
    requires few { length row.now ≤ 16 }
    requires args { Are row.now 0 args.now }
    ensures { result ≡ slice_index_or (places row.now 0 args.now) number 0 }
{
    place_from(row, args, 0, number) as u32
}

/// The places for a call's results.
pub(crate) fn places_of(row: &[Param], args: &[u64]) -> Places
    requires few { length row.now ≤ 16 }
    requires args { Are row.now 0 args.now }
    ensures { result ≡ places_of row.now args.now }
{
    Places {
        first: place_at(row, args, 0),
        second: place_at(row, args, 1),
        third: place_at(row, args, 2),
    }
}
