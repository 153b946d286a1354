// The pairs that are given for a whole list: their judgement, and their order in the list.
ghost use Rattle.std.specs.List.{list_all};
ghost use Rattle.std.specs.Prelude.{◌≡◌, IfOk};
ghost use Rattle.header_maps.specs.Faults.{has_each_once, are_names_for, are_values_for};
ghost use Rattle.header_maps.specs.Kinds.{is_name_for};
ghost use Rattle.header_maps.specs.Pairs.{Pair};
ghost use Rattle.header_maps.specs.Operations.{in_order};

use crate::kind::ListKind;
use crate::pairs::{count_named, push_named, push_plain};
use crate::texts::Texts;
use gate_base::{Octets, OutOfMemory};
use std::alloc::Global;

/// Whether each pseudo-header of a list of this kind is given exactly once.
fn has_each_once(kind: ListKind, given: &[(Octets, Octets)]) -> bool
    ensures { result ≡ has_each_once kind given.now }
{
    match kind {
        ListKind::Request => {
            count_named(given, b":method") == 1
                && count_named(given, b":scheme") == 1
                && count_named(given, b":authority") == 1
                && count_named(given, b":path") == 1
        }
        ListKind::Response => count_named(given, b":status") == 1,
        ListKind::Interim => count_named(given, b":status") == 1,
        ListKind::Plain => true,
    }
}

/// Whether a list of this kind may have each of the given names.
fn has_names(kind: ListKind, given: &[(Octets, Octets)]) -> bool
    ensures { result ≡ list_all (λ (f : Pair). is_name_for kind f.0) given.now }
{
    given.iter().all(|field| kind.has_name(field.0.as_slice()))
}

/// Whether the given names are those that a list of this kind may have.
pub fn are_names_for(kind: ListKind, given: &[(Octets, Octets)]) -> bool
    ensures { result ≡ are_names_for kind given.now }
{
    has_names(kind, given) && has_each_once(kind, given)
}

/// Whether the given values are right for their names.
pub fn are_values_for(kind: ListKind, given: &[(Octets, Octets)]) -> bool
    ensures { result ≡ are_values_for kind given.now }
{
    given.iter().all(|field| kind.has_value(field.0.as_slice(), field.1.as_slice()))
}

/// The given pairs with the pseudo-headers in front, in their order, and with names in lower case.
pub fn in_order(
    alloc: Global,
    kind: ListKind,
    given: &[(Octets, Octets)],
) -> Result<Texts, OutOfMemory>
    ensures { IfOk result (λ items. items ≡ in_order kind given.now) }
{
    let mut items = Texts::new(alloc);
    match kind {
        ListKind::Request => {
            push_named(&mut items, given, b":method")?;
            push_named(&mut items, given, b":scheme")?;
            push_named(&mut items, given, b":authority")?;
            push_named(&mut items, given, b":path")?;
        }
        ListKind::Response => push_named(&mut items, given, b":status")?,
        ListKind::Interim => push_named(&mut items, given, b":status")?,
        ListKind::Plain => {}
    }
    push_plain(&mut items, given)?;
    Ok(items)
}
