// Which of the names of some fields a Connection among them lists.
ghost use Rattle.std.specs.Prelude.{◌≡◌, [], codes, length, All, IfOk};
ghost use Rattle.h1_model.specs.Fields.{values_of};
ghost use Rattle.httparse.specs.Spans.{IsHeaderWithin, header_bytes};
ghost use Rattle.h1_text.specs.Names.{AreMarked};
ghost use Rattle.h1_text.specs.Spans.{fields_at};

use crate::names::{ListedNames, NameTree};
use gate_base::OutOfMemory;
use header_maps::is_same_word;
use httparse::spans::HeaderSpan;
use std::alloc::Global;

/// The name and the value that a field's spans cover.
fn pair_at<'t>(text: &'t [u8], span: &HeaderSpan) -> (&'t [u8], &'t [u8])
    requires { IsHeaderWithin (length text.now) span.now }
    ensures { (result.0.now, result.1.now) ≡ header_bytes text.now span.now }
{
    (span.name.of(text), span.value.of(text))
}

/// The names of fields, and `close`, for which a Connection is asked too.
fn names_of(alloc: Global, text: &[u8], spans: &[HeaderSpan]) -> Result<NameTree, OutOfMemory>
    requires { All (IsHeaderWithin (length text.now)) spans.now }
{
    let mut tree = NameTree::new(alloc);
    for span in spans {
        let (name, _) = pair_at(text, span);
        tree.put(alloc, name)?;
    }
    tree.put(alloc, b"close")?;
    Ok(tree)
}

/// Marks those names that the Connection fields list: each of them is gone through once.
fn note_listed(text: &[u8], spans: &[HeaderSpan], listed: &mut ListedNames)
    requires { All (IsHeaderWithin (length text.now)) spans.now }
    ensures { AreMarked [] listed.old → AreMarked (values_of (codes "connection") (fields_at text.now spans.now)) listed.new }
{
    for span in spans {
        let (name, value) = pair_at(text, span);
        if is_same_word(name, b"connection") {
            listed.note(value);
        }
    }
}

/// The names of the fields that these spans cover, and `close`, those of them marked that the Connection fields among these list.
pub fn listed_among(
    alloc: Global,
    text: &[u8],
    spans: &[HeaderSpan],
) -> Result<ListedNames, OutOfMemory>
    requires { All (IsHeaderWithin (length text.now)) spans.now }
    ensures { IfOk result (AreMarked (values_of (codes "connection") (fields_at text.now spans.now))) }
{
    let tree = names_of(alloc, text, spans)?;
    let mut listed = ListedNames::of(alloc, tree)?;
    note_listed(text, spans, &mut listed);
    Ok(listed)
}
