// Header lists out of serialised forms.
ghost use Rattle.std.specs.Prelude.{◌≡◌, ◌∷◌, true, length, filter, IfOk};
ghost use Rattle.std.specs.List.{list_all};
ghost use Rattle.http_header.specs.Token.{lowercase};
ghost use Rattle.header_maps.specs.declared.kind.ListKind.TheVariants as kinds;
ghost use Rattle.header_maps.specs.Faults.{fault_of, has_each_once, are_names_for, are_values_for, is_few, set_fault};
ghost use Rattle.header_maps.specs.Kept.{is_short};
ghost use Rattle.header_maps.specs.Kinds.{is_name_for};
ghost use Rattle.header_maps.specs.Operations.{all_set};
ghost use Rattle.header_maps.specs.Pairs.{Pair, is_named, is_pseudo};
ghost use Rattle.pair_codec.specs.Lists.{scheme_field, lacks_scheme, with_scheme, has_needed_once, are_needed_names, needed_fault};

use crate::serialised::Serialised;
use gate_base::{Octets, OutOfMemory, Pairs};
use header_maps::{HeaderEnd, HeaderList, ListKind, is_same_word};
use std::alloc::Global;

/// How many fields a list may have, pseudo-headers not counted.
const FIELD_LIMIT: usize = 100;

/// How many pairs a list may have, pseudo-headers included. Where a form has more, it is refused, so that none of them is copied.
const PAIR_LIMIT: usize = 104;

/// Whether a list of this kind may have each of the names.
fn has_names(kind: ListKind, form: &Serialised) -> bool
    ensures { result ≡ list_all (λ (f : Pair). is_name_for kind f.0) form.now }
{
    let mut left = form.again();
    while let Some((name, _)) = left.pop_first() {
        if !kind.has_name(name) {
            return false;
        }
    }
    true
}

/// Whether each value is right for its name.
fn has_values(kind: ListKind, form: &Serialised) -> bool
    ensures { result ≡ are_values_for kind form.now }
{
    let mut left = form.again();
    while let Some((name, value)) = left.pop_first() {
        if !kind.has_value(name, value) {
            return false;
        }
    }
    true
}

/// How many pairs are of a name, in any case of letters.
fn count_named(form: &Serialised, name: &[u8]) -> usize
    ensures { result ≡ length (filter (is_named (lowercase name.now)) form.now) }
{
    let most = form.len();
    let mut count: usize = 0;
    let mut left = form.again();
    while let Some((field, _)) = left.pop_first() {
        if is_same_word(field, name) {
            count += 1;
        }
    }
    count
}

/// Whether each pseudo-header of a list of this kind is given exactly once.
fn has_each_once(kind: ListKind, form: &Serialised) -> bool
    ensures { result ≡ has_each_once kind form.now }
{
    match kind {
        ListKind::Request => {
            count_named(form, b":method") == 1
                && count_named(form, b":scheme") == 1
                && count_named(form, b":authority") == 1
                && count_named(form, b":path") == 1
        }
        ListKind::Response => count_named(form, b":status") == 1,
        ListKind::Interim => count_named(form, b":status") == 1,
        ListKind::Plain => true,
    }
}

/// Whether a name begins with `:`.
fn is_pseudo(name: &[u8]) -> bool
    ensures { result ≡ is_pseudo name.now }
{
    match name {
        [first, ..] => *first == b':',
        [] => false,
    }
}

/// Whether at most 100 pairs are no pseudo-headers. No more of them are looked at than needed.
fn is_few(form: &Serialised) -> bool
    ensures { result ≡ is_few form.now }
{
    let mut count: usize = 0;
    let mut left = form.again();
    while let Some((name, _)) = left.pop_first() {
        if !is_pseudo(name) {
            if count == FIELD_LIMIT {
                return false;
            }
            count += 1;
        }
    }
    true
}

/// Whether the names are those that a list of this kind may have.
fn are_names_for(kind: ListKind, form: &Serialised) -> bool
    ensures { result ≡ are_names_for kind form.now }
{
    has_names(kind, form) && has_each_once(kind, form)
}

/// Judges pairs for a list of this kind where they stand.
fn judge(kind: ListKind, form: &Serialised) -> Result<(), HeaderEnd>
    ensures { fault_of result ≡ set_fault kind form.now }
{
    if !are_names_for(kind, form) {
        return Err(HeaderEnd::BadName);
    }
    if !has_values(kind, form) {
        return Err(HeaderEnd::BadValue);
    }
    if !is_few(form) {
        return Err(HeaderEnd::TooMany);
    }
    Ok(())
}

/// The list of a kind that the pairs of a form make. Its refusals are those of `HeaderList::of`; more pairs than a list may have are judged
/// where they stand.
pub fn list_of(alloc: Global, kind: ListKind, form: &Serialised) -> Result<HeaderList, HeaderEnd>
    requires { list_all is_short form.now ≡ true }
    ensures cause { fault_of result ≡ set_fault kind form.now }
    ensures ok { IfOk result (λ list. list ≡ all_set kind form.now) }
{
    if form.len() > PAIR_LIMIT {
        judge(kind, form)?;
    }
    let Ok(pairs) = form.to_pairs(alloc) else {
        judge(kind, form)?;
        return Err(HeaderEnd::OutOfMemory);
    };
    HeaderList::of(alloc, kind, &pairs)
}

/// Whether no pair is a scheme.
fn lacks_scheme(form: &Serialised) -> bool
    ensures { result ≡ lacks_scheme form.now }
{
    count_named(form, b":scheme") == 0
}

/// Whether each pseudo-header of a request but its scheme is given exactly once.
fn has_needed_once(form: &Serialised) -> bool
    ensures { result ≡ has_needed_once form.now }
{
    count_named(form, b":method") == 1
        && count_named(form, b":authority") == 1
        && count_named(form, b":path") == 1
}

/// Whether the names are those that a request may have, but for its scheme.
fn are_needed_names(form: &Serialised) -> bool
    ensures { result ≡ are_needed_names form.now }
{
    has_names(ListKind::Request, form) && has_needed_once(form)
}

/// Judges the pairs of a request but for its scheme where they stand.
fn judge_needed(form: &Serialised) -> Result<(), HeaderEnd>
    ensures { fault_of result ≡ needed_fault form.now }
{
    if !are_needed_names(form) {
        return Err(HeaderEnd::BadName);
    }
    if !has_values(ListKind::Request, form) {
        return Err(HeaderEnd::BadValue);
    }
    if !is_few(form) {
        return Err(HeaderEnd::TooMany);
    }
    Ok(())
}

/// Judges the pairs of a request without a scheme, with `http` as its scheme.
#[tactic(auto, using(crate::proofs::Schemes::judged_with_scheme))]
fn judge_with_scheme(form: &Serialised) -> Result<(), HeaderEnd>
    requires { lacks_scheme form.now ≡ true }
    ensures { fault_of result ≡ set_fault kinds.Request (scheme_field ∷ form.now) }
{
    judge_needed(form)
}

/// A copy of the pairs of a form behind the scheme `http`.
fn pairs_with_scheme(alloc: Global, form: &Serialised) -> Result<Pairs, OutOfMemory>
    ensures { IfOk result (λ pairs. pairs ≡ scheme_field ∷ form.now) }
{
    let mut pairs = Pairs::new(alloc);
    pairs.push((
        Octets::from_slice(alloc, b":scheme")?,
        Octets::from_slice(alloc, b"http")?,
    ))?;
    let mut left = form.again();
    while let Some((name, value)) = left.pop_first() {
        pairs.push((
            Octets::from_slice(alloc, name)?,
            Octets::from_slice(alloc, value)?,
        ))?;
    }
    Ok(pairs)
}

/// The list that the pairs of a request without a scheme make, with `http` as its scheme.
fn list_with_scheme(alloc: Global, form: &Serialised) -> Result<HeaderList, HeaderEnd>
    requires short { list_all is_short form.now ≡ true }
    requires none { lacks_scheme form.now ≡ true }
    ensures cause { fault_of result ≡ set_fault kinds.Request (scheme_field ∷ form.now) }
    ensures ok { IfOk result (λ list. list ≡ all_set kinds.Request (scheme_field ∷ form.now)) }
{
    if form.len() > PAIR_LIMIT {
        judge_with_scheme(form)?;
    }
    let Ok(pairs) = pairs_with_scheme(alloc, form) else {
        judge_with_scheme(form)?;
        return Err(HeaderEnd::OutOfMemory);
    };
    HeaderList::of(alloc, ListKind::Request, &pairs)
}

/// The list that the pairs of a request make. Where no scheme is given it is `http`.
pub fn request_of(alloc: Global, form: &Serialised) -> Result<HeaderList, HeaderEnd>
    requires { list_all is_short form.now ≡ true }
    ensures cause { fault_of result ≡ set_fault kinds.Request (with_scheme form.now) }
    ensures ok { IfOk result (λ list. list ≡ all_set kinds.Request (with_scheme form.now)) }
{
    if lacks_scheme(form) {
        list_with_scheme(alloc, form)
    } else {
        list_of(alloc, ListKind::Request, form)
    }
}
