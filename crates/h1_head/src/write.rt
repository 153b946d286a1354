// The lines of a head on its way out.
ghost use Rattle.std.specs.List.{list_any};
ghost use Rattle.std.specs.Prelude.{◌≡◌, ◌++◌, ◌||◌, [], codes, bytes_eq, length, take, IfOk, OnOk, OnErr};
ghost use Rattle.header_maps.specs.Pairs.{is_pseudo};
ghost use Rattle.h1_model.specs.Fields.{is_hop_name, is_listed, is_named, values_of};
ghost use Rattle.h1_model.specs.Wire.{field_line, field_lines, is_left_out, sent_fields, pseudo_of, request_line};
ghost use Rattle.http_header.specs.Token.{lowercase};
ghost use Rattle.h1_head.specs.Marked.{IsMarkedIn};
ghost use Rattle.h1_head.specs.Seen.{bare_head};
ghost use Rattle.h1_text.specs.Names.{AreMarked};

use crate::fields::is_hop_name;
use gate_base::{Octets, OutOfMemory};
use h1_text::{ListedNames, NameTree, lists};
use header_maps::{HeaderList, Texts, is_same_word};
use std::alloc::Global;

/// Puts a field line at the end (RFC 9112 section 5). Where memory is out, a front of the line may stand there.
pub fn push_field(out: &mut Octets, name: &[u8], value: &[u8]) -> Result<(), OutOfMemory>
    ensures ok { OnOk result (out.new ≡ out.old ++ field_line (name.now, value.now)) }
    ensures err { OnErr result (take (length out.old) out.new ≡ out.old) }
{
    out.extend_from_slice(name)?;
    out.extend_from_slice(b": ")?;
    out.extend_from_slice(value)?;
    out.extend_from_slice(b"\r\n")
}

/// Whether a Connection field of these lists a name, in any case of letters.
fn is_listed_in(fields: &Texts, name: &[u8]) -> bool
    ensures { result ≡ is_listed (lowercase name.now) fields.now }
{
    for at in 0..fields.len() {
        let (field, value) = fields.pair(at);
        if is_same_word(field, b"connection") && lists(value, name) {
            return true;
        }
    }
    false
}

/// Whether a name begins with `:`.
fn is_pseudo(name: &[u8]) -> bool
    ensures { result ≡ is_pseudo (lowercase name.now) }
{
    name.first() == Some(&b':')
}

/// Whether no field of this name, in any case of letters, goes out, whatever stands beside it.
fn is_never_sent(name: &[u8]) -> bool
    ensures { result ≡ (is_pseudo (lowercase name.now) || (is_hop_name (lowercase name.now) || bytes_eq (lowercase name.now) (codes "content-length"))) }
{
    is_pseudo(name) || is_hop_name(name) || is_same_word(name, b"content-length")
}

/// Whether a field of this name, in any case of letters, does not go out with these fields.
pub fn is_left_out(fields: &Texts, name: &[u8]) -> bool
    ensures { result ≡ is_left_out fields.now (lowercase name.now) }
{
    is_never_sent(name) || is_listed_in(fields, name)
}

/// Whether one of these fields is Connection.
fn has_connection(fields: &Texts) -> bool
    ensures { result ≡ list_any (is_named (codes "connection")) fields.now }
{
    for at in 0..fields.len() {
        let (name, _) = fields.pair(at);
        if is_same_word(name, b"connection") {
            return true;
        }
    }
    false
}

/// The names of these fields.
fn names_of(alloc: Global, fields: &Texts) -> Result<NameTree, OutOfMemory> {
    let mut tree = NameTree::new(alloc);
    for at in 0..fields.len() {
        let (name, _) = fields.pair(at);
        tree.put(alloc, name)?;
    }
    Ok(tree)
}

/// Marks those names that the Connection fields list: each value is gone through once.
fn note_connection(fields: &Texts, listed: &mut ListedNames)
    ensures { AreMarked [] listed.old → AreMarked (values_of (codes "connection") fields.now) listed.new }
{
    for at in 0..fields.len() {
        let (name, value) = fields.pair(at);
        if is_same_word(name, b"connection") {
            listed.note(value);
        }
    }
}

/// The names of these fields, those marked that the Connection fields among them list.
fn marked_names(alloc: Global, fields: &Texts) -> Result<ListedNames, OutOfMemory>
    ensures { IfOk result (AreMarked (values_of (codes "connection") fields.now)) }
{
    let tree = names_of(alloc, fields)?;
    let mut listed = ListedNames::of(alloc, tree)?;
    note_connection(fields, &mut listed);
    Ok(listed)
}

/// The same where there is a Connection field, and none where there is none, which takes no memory.
#[tactic(auto, using(crate::proofs::Marking::none_named))]
fn marked_if_any(alloc: Global, fields: &Texts) -> Result<Option<ListedNames>, OutOfMemory>
    ensures { IfOk result (IsMarkedIn fields.now) }
{
    if has_connection(fields) {
        Ok(Some(marked_names(alloc, fields)?))
    } else {
        Ok(None)
    }
}

/// Whether a Connection field of these lists a name, in any case of letters, by the marks of names. One that is not among those is looked for.
fn is_marked(fields: &Texts, listed: &Option<ListedNames>, name: &[u8]) -> bool
    requires { IsMarkedIn fields.now listed.now }
    ensures { result ≡ is_listed (lowercase name.now) fields.now }
{
    let Some(listed) = listed else {
        return false;
    };
    match listed.is_listed(name) {
        Some(is_listed) => is_listed,
        None => is_listed_in(fields, name),
    }
}

/// The value of a pseudo-header, or nothing where the list has it not.
pub fn pseudo_of<'l>(list: &'l HeaderList, name: &[u8]) -> &'l [u8]
    ensures { result.now ≡ pseudo_of list.now name.now }
{
    list.first(name).unwrap_or(&[])
}

/// Puts the lines of the fields that go out at the end, in order, by the marks of names.
fn push_unmarked(
    out: &mut Octets,
    fields: &Texts,
    listed: &Option<ListedNames>,
) -> Result<(), OutOfMemory>
    requires { IsMarkedIn fields.now listed.now }
    ensures ok { OnOk result (out.new ≡ out.old ++ field_lines (sent_fields fields.now)) }
    ensures err { OnErr result (take (length out.old) out.new ≡ out.old) }
{
    for at in 0..fields.len() {
        let (name, value) = fields.pair(at);
        if !is_never_sent(name) && !is_marked(fields, listed, name) {
            push_field(out, name, value)?;
        }
    }
    Ok(())
}

/// Puts the lines of the fields that go out at the end, in order. Each Connection value is gone through once, however many fields there are.
/// Where memory is out, a front of the lines may stand there.
pub fn push_fields(alloc: Global, out: &mut Octets, fields: &Texts) -> Result<(), OutOfMemory>
    ensures ok { OnOk result (out.new ≡ out.old ++ field_lines (sent_fields fields.now)) }
    ensures err { OnErr result (take (length out.old) out.new ≡ out.old) }
{
    let listed = marked_if_any(alloc, fields)?;
    push_unmarked(out, fields, &listed)
}

/// Puts the request line at the end (RFC 9112 section 3). Where memory is out, a front of the line may stand there.
pub fn push_request_line(out: &mut Octets, fields: &HeaderList) -> Result<(), OutOfMemory>
    ensures ok { OnOk result (out.new ≡ out.old ++ request_line (bare_head fields.now)) }
    ensures err { OnErr result (take (length out.old) out.new ≡ out.old) }
{
    out.extend_from_slice(pseudo_of(fields, b":method"))?;
    out.extend_from_slice(b" ")?;
    out.extend_from_slice(pseudo_of(fields, b":path"))?;
    out.extend_from_slice(b" HTTP/1.1\r\n")
}
