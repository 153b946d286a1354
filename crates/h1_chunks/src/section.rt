// The fields of a trailer section.
ghost use Rattle.std.specs.List.{list_any};
ghost use Rattle.std.specs.Prelude.{◌≡◌, ◌≤◌, List, [], None, codes, length, take, drop, bytes_eq, map, All, IfOk, IfSome, IfNone, OnOk, OnErr};
ghost use Rattle.http_header.specs.Token.{lowercase};
ghost use Rattle.h1_model.specs.Fields.{is_listed, is_named, values_of};
ghost use Rattle.h1_model.specs.Lines.{head_limit, whole};
ghost use Rattle.h1_model.specs.Trailers.{trailer_names, kept_trailers, section_cut, IsSection};
ghost use Rattle.httparse.specs.Grammar.{LineEnd, Field, ReadsSection};
ghost use Rattle.httparse.specs.Spans.{IsHeaderWithin, IsSectionAt, header_bytes};
ghost use Rattle.header_maps.specs.Faults.{add_fault};
ghost use Rattle.header_maps.specs.Kept.{byte_limit};
ghost use Rattle.header_maps.specs.Operations.{added};
ghost use Rattle.h1_chunks.specs.Spans.{AreTaken, pairs_if};
ghost use Rattle.h1_text.specs.Names.{AreMarked};

use gate_base::OutOfMemory;
use h1_text::{ListedNames, listed_among, lists};
use header_maps::{HeaderEnd, HeaderList, is_same_word};
use httparse::Status;
use httparse::spans::{EMPTY_HEADER_SPAN, HeaderSpan, parse_headers};
use std::alloc::{AllocError, Global};

/// How many fields a section may have.
const FIELD_LIMIT: usize = 100;

/// The fields of a section: its text, and the spans of their names and values.
#[derive(Clone, Copy)]
pub struct SectionFields<'t> {
    pub text: &'t [u8],
    pub spans: &'t [HeaderSpan],
    pub ghost within: { All (IsHeaderWithin (length text.now)) spans.now },
}

/// Whether a name, in any case of letters, is that of a field that no trailer section hands on.
fn is_trailer_name(name: &[u8]) -> bool
    ensures { result ≡ list_any (bytes_eq (lowercase name.now)) trailer_names }
{
    is_same_word(name, b"connection")
        || is_same_word(name, b"keep-alive")
        || is_same_word(name, b"proxy-connection")
        || is_same_word(name, b"te")
        || is_same_word(name, b"transfer-encoding")
        || is_same_word(name, b"upgrade")
        || is_same_word(name, b"content-length")
}

/// Puts a field last that a list takes, so that it is refused for want of memory alone.
fn put(list: &mut HeaderList, alloc: Global, name: &[u8], value: &[u8]) -> Result<(), OutOfMemory>
    requires taken { add_fault list.old name.now value.now ≡ None }
    requires short { length value.now ≤ byte_limit }
    ensures ok { OnOk result (list.new ≡ added list.old name.now value.now) }
{
    match list.add(alloc, name, value) {
        Ok(()) => Ok(()),
        Err(HeaderEnd::OutOfMemory) => Err(AllocError),
        Err(HeaderEnd::BadName | HeaderEnd::BadValue | HeaderEnd::TooMany) => Err(AllocError),
    }
}

impl<'t> SectionFields<'t> {
    ghost use Rattle.h1_chunks.specs.Held.{fields_of};

    /// The name and the value that a field's spans cover.
    fn pair_at(&self, span: &HeaderSpan) -> (&'t [u8], &'t [u8])
        requires { IsHeaderWithin (length self.now.text.now) span.now }
        ensures { (result.0.now, result.1.now) ≡ header_bytes self.now.text.now span.now }
    {
        (span.name.of(self.text), span.value.of(self.text))
    }

    /// Whether a Connection field lists a name, in any case of letters (RFC 9110 section 7.6.1).
    fn is_listed(&self, name: &[u8]) -> bool
        ensures { result ≡ is_listed (lowercase name.now) (fields_of self.now) }
    {
        for span in self.spans {
            let (field, value) = self.pair_at(span);
            if is_same_word(field, b"connection") && lists(value, name) {
                return true;
            }
        }
        false
    }

    /// Whether one of the fields is Connection.
    fn has_connection(&self) -> bool
        ensures { result ≡ list_any (is_named (codes "connection")) (fields_of self.now) }
    {
        for span in self.spans {
            let (field, _) = self.pair_at(span);
            if is_same_word(field, b"connection") {
                return true;
            }
        }
        false
    }

    /// The names of the fields, those marked that a Connection field lists, where there is one and there is memory for it.
    fn listed_names(&self, alloc: Global) -> Option<ListedNames>
        ensures { IfSome result (AreMarked (values_of (codes "connection") (fields_of self.now))) }
    {
        if self.has_connection() {
            listed_among(alloc, self.text, self.spans).ok()
        } else {
            None
        }
    }

    /// Whether a Connection field lists a name, in any case of letters, by the marks of names, where it is one of those.
    fn is_among(&self, listed: &Option<ListedNames>, name: &[u8]) -> bool
        requires { IfSome listed.now (AreMarked (values_of (codes "connection") (fields_of self.now))) }
        ensures { result ≡ is_listed (lowercase name.now) (fields_of self.now) }
    {
        let Some(listed) = listed else {
            return self.is_listed(name);
        };
        match listed.is_listed(name) {
            Some(is_listed) => is_listed,
            None => self.is_listed(name),
        }
    }

    /// The fields that are kept, in order, with their names in lower case, by the marks of those that Connection lists.
    fn kept_by(
        &self,
        alloc: Global,
        listed: &Option<ListedNames>,
    ) -> Result<HeaderList, OutOfMemory>
        requires taken { AreTaken (fields_of self.now) }
        requires short { length self.now.text.now ≤ head_limit }
        requires listed { IfSome listed.now (AreMarked (values_of (codes "connection") (fields_of self.now))) }
        ensures { IfOk result (λ list. list.pairs ≡ kept_trailers (fields_of self.now)) }
    {
        let mut list = HeaderList::new(alloc);
        for span in self.spans {
            let (name, value) = self.pair_at(span);
            if !is_trailer_name(name) && !self.is_among(listed, name) {
                put(&mut list, alloc, name, value)?;
            }
        }
        Ok(list)
    }

    /// The fields that are kept, in order, with their names in lower case.
    fn kept(&self, alloc: Global) -> Result<HeaderList, OutOfMemory>
        requires taken { AreTaken (fields_of self.now) }
        requires short { length self.now.text.now ≤ head_limit }
        ensures { IfOk result (λ list. list.pairs ≡ kept_trailers (fields_of self.now)) }
    {
        let listed = self.listed_names(alloc);
        self.kept_by(alloc, &listed)
    }
}

/// How many fields the text of a section has, if it is one of at most so many fields as there are spans for.
fn field_count(text: &[u8], headers: &mut [HeaderSpan]) -> Option<usize>
    ensures within { IfSome result (λ count. (count ≤ length headers.new)
        × All (IsHeaderWithin (length text.now)) (take count headers.new)) }
    ensures some { IfSome result (λ count. (fields : List Field) × (last : LineEnd)
        × IsSectionAt text.now 0 headers.new (length text.now) count fields last) }
    ensures none { IfNone result ((fields : List Field) (last : LineEnd) → ReadsSection text.now fields last []
        → length fields ≤ length headers.old → ⊥) }
{
    match parse_headers(text, headers) {
        Ok(Status::Complete((len, count))) if len == text.len() => Some(count),
        _ => None,
    }
}

/// What the whole section gives that takes the first `len` bytes of a text: its trailers, or none where it is malformed.
pub fn trailers(alloc: Global, text: &[u8], len: usize) -> Result<Option<HeaderList>, OutOfMemory>
    requires fits { len ≤ length text.now }
    requires limit { len ≤ head_limit }
    requires cut { section_cut text.now ≡ whole len }
    ensures { IfOk result (λ list. IsSection (take len text.now) (pairs_if list)) }
{
    let front = &text[..len];
    let mut headers = [EMPTY_HEADER_SPAN; FIELD_LIMIT];
    match field_count(front, &mut headers) {
        Some(count) => {
            let fields = SectionFields {
                text: front,
                spans: &headers[..count],
            };
            Ok(Some(fields.kept(alloc)?))
        }
        None => Ok(None),
    }
}
