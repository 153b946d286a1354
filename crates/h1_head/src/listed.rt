// The fields that a message's Connection lists, taken out of a list.
ghost use Rattle.std.specs.List.{list_all, list_any};
ghost use Rattle.std.specs.Prelude.{◌≡◌, [], ◌∷◌, ◌++◌, true, cond, IfOk, IfSome, OnOk};
ghost use Rattle.header_maps.specs.Kept.{is_kept_field};
ghost use Rattle.http_header.specs.Token.{lowercase};
ghost use Rattle.h1_model.specs.Fields.{lists, members, fields_not_listed};
ghost use Rattle.h1_head.specs.Unnamed.{unnamed};
ghost use Rattle.h1_text.specs.Names.{AreMarked};

use gate_base::{Members, Octets, OutOfMemory};
use h1_text::{ListedNames, NameTree, first_member, has_many_members, lists};
use header_maps::{HeaderEnd, HeaderList};
use std::alloc::Global;

/// How long a value may be that a list takes.
const VALUE_LIMIT: usize = 16_777_216;

/// The list without the fields that the members of a value name.
fn without_members(value: &[u8], fields: HeaderList) -> HeaderList
    requires fields { list_all is_kept_field fields.pairs ≡ true }
    ensures left { result.pairs ≡ unnamed (members value.now) fields.pairs }
    ensures fields { list_all is_kept_field result.pairs ≡ true }
{
    let mut fields = fields;
    let mut rest = Some(value);
    while let Some(list) = rest {
        let (member, after) = first_member(list);
        // A member that can be no field's name names none of them.
        let _ = fields.remove(member);
        rest = after;
    }
    fields
}

/// The list without the fields that one of the values lists, each member looked for among all fields.
fn without_each(connection: &Members<Octets>, fields: HeaderList) -> HeaderList
    requires { list_all is_kept_field fields.pairs ≡ true }
    ensures { result.pairs ≡ fields_not_listed connection.now fields.pairs }
{
    let mut fields = fields;
    for value in connection.as_slice() {
        fields = without_members(value.as_slice(), fields);
    }
    fields
}

/// Whether one of the values lists a name, in any case of letters.
fn is_listed_by(connection: &Members<Octets>, name: &[u8]) -> bool
    ensures { result ≡ list_any (lists (lowercase name.now)) connection.now }
{
    for value in connection.as_slice() {
        if lists(value.as_slice(), name) {
            return true;
        }
    }
    false
}

/// The same, by the marks of names, where it is one of those.
fn is_listed(connection: &Members<Octets>, listed: &ListedNames, name: &[u8]) -> bool
    requires { AreMarked connection.now listed.now }
    ensures { result ≡ list_any (lists (lowercase name.now)) connection.now }
{
    match listed.is_listed(name) {
        Some(is_listed) => is_listed,
        None => is_listed_by(connection, name),
    }
}

/// Marks those names that the values list.
fn note_values(connection: &Members<Octets>, listed: &mut ListedNames)
    ensures { AreMarked [] listed.old → AreMarked connection.now listed.new }
{
    for value in connection.as_slice() {
        listed.note(value.as_slice());
    }
}

/// The names of a list's fields.
fn names_of(alloc: Global, fields: &HeaderList) -> Result<NameTree, OutOfMemory> {
    let mut tree = NameTree::new(alloc);
    for at in 0..fields.len() {
        let (name, _) = fields.pair(at);
        tree.put(alloc, name)?;
    }
    Ok(tree)
}

/// The names of a list's fields, those marked that the values list.
fn listed_names(
    alloc: Global,
    connection: &Members<Octets>,
    fields: &HeaderList,
) -> Result<ListedNames, OutOfMemory>
    ensures { IfOk result (AreMarked connection.now) }
{
    let tree = names_of(alloc, fields)?;
    let mut listed = ListedNames::of(alloc, tree)?;
    note_values(connection, &mut listed);
    Ok(listed)
}

/// Puts a field last that is not listed.
fn put_left(
    left: &mut HeaderList,
    alloc: Global,
    is_listed: bool,
    name: &[u8],
    value: &[u8],
) -> Result<(), HeaderEnd>
    ensures { OnOk result (left.new.pairs ≡ cond is_listed left.old.pairs (left.old.pairs ++ (lowercase name.now, value.now) ∷ [])) }
{
    if is_listed {
        return Ok(());
    }
    if value.len() > VALUE_LIMIT {
        return Err(HeaderEnd::BadValue);
    }
    left.add(alloc, name, value)
}

/// A list of the fields that none of the values lists, by the marks of their names.
fn left_by(
    alloc: Global,
    connection: &Members<Octets>,
    listed: &ListedNames,
    fields: &HeaderList,
) -> Result<HeaderList, HeaderEnd>
    requires kept { list_all is_kept_field fields.now.pairs ≡ true }
    requires marked { AreMarked connection.now listed.now }
    ensures { IfOk result (λ left. left.pairs ≡ fields_not_listed connection.now fields.now.pairs) }
{
    let mut left = HeaderList::new(alloc);
    for at in 0..fields.len() {
        let (name, value) = fields.pair(at);
        let is_listed = is_listed(connection, listed, name);
        put_left(&mut left, alloc, is_listed, name, value)?;
    }
    Ok(left)
}

/// Whether the values may list so many names that looking for each of them among all fields is dear.
fn are_long(connection: &Members<Octets>) -> bool {
    connection.len() > 4
        || connection
            .as_slice()
            .iter()
            .any(|value| has_many_members(value.as_slice()))
}

/// A list of the fields that none of the values lists, where those are long and there is memory for it.
fn left_if_long(
    alloc: Global,
    connection: &Members<Octets>,
    fields: &HeaderList,
) -> Option<HeaderList>
    requires { list_all is_kept_field fields.now.pairs ≡ true }
    ensures { IfSome result (λ left. left.pairs ≡ fields_not_listed connection.now fields.now.pairs) }
{
    if !are_long(connection) {
        return None;
    }
    let listed = listed_names(alloc, connection, fields).ok()?;
    left_by(alloc, connection, &listed, fields).ok()
}

/// The list without the fields that one of these Connection values lists, in any case of letters (RFC 9110 section 7.6.1). It has
/// no pseudo-headers, as trailers have none. Where many names are listed, memory is taken to go through them once; where there is none, each is looked for
/// among all fields.
pub fn without_listed(alloc: Global, connection: &Members<Octets>, fields: HeaderList) -> HeaderList
    requires { list_all is_kept_field fields.pairs ≡ true }
    ensures { result.pairs ≡ fields_not_listed connection.now fields.pairs }
{
    match left_if_long(alloc, connection, &fields) {
        Some(left) => left,
        None => without_each(connection, fields),
    }
}
