// The fields of a head, as spans of its text.
ghost use Rattle.std.specs.Prelude.{◌≡◌, ◌≤◌, true, List, ℕ, length, All, IfOk};
ghost use Rattle.h1_model.specs.Fields.{is_listed, is_hop_name, is_response_hop_name, values_of};
ghost use Rattle.h1_model.specs.Lines.{head_limit};
ghost use Rattle.http_header.specs.Token.{lowercase};
ghost use Rattle.httparse.specs.Spans.{IsHeaderWithin, header_bytes};
ghost use Rattle.h1_head.specs.Lengths.{IsBetween, IsConnectionOf};
ghost use Rattle.h1_head.specs.Spans.{AreLines, IsRead};

use crate::lengths::Lengths;
use gate_base::{Members, Octets, OutOfMemory};
use h1_text::{ListedNames, has_many_members, listed_among, lists};
use header_maps::{HeaderEnd, HeaderList, is_same_word};
use httparse::spans::HeaderSpan;
use std::alloc::Global;

/// How many bytes the names of pseudo-headers take with a scheme, at most, and how many pairs they are.
const PSEUDO_BYTES: usize = 64;

const PSEUDO_PAIRS: usize = 4;

/// The field lines of one name: none, one with its value, or more.
#[derive(Clone, Copy)]
pub enum FieldLines<'t> {
    Absent,
    One(&'t [u8]),
    Many,
}

impl<'t> FieldLines<'t> {
    ghost use Rattle.std.specs.Prelude.{◌∷◌, ◌++◌, []};

    /// Whether they may list so many names that going through all of them for each field is dear.
    fn are_long(self) -> bool {
        match self {
            FieldLines::Absent => false,
            FieldLines::One(value) => has_many_members(value),
            FieldLines::Many => true,
        }
    }

    /// These, and one line more after them, of this value.
    fn and(self, value: &'t [u8]) -> Self
        ensures { (values : List (List ℕ)) → AreLines values self.entry → AreLines (values ++ value.now ∷ []) result }
    {
        match self {
            FieldLines::Absent => FieldLines::One(value),
            FieldLines::One(_) => FieldLines::Many,
            FieldLines::Many => FieldLines::Many,
        }
    }
}

/// The lines of those fields that say what a head is: looked up in one walk over its fields.
#[derive(Clone, Copy)]
pub struct Noted<'t> {
    pub host: FieldLines<'t>,
    pub connection: FieldLines<'t>,
    pub lengths: FieldLines<'t>,
    pub codings: FieldLines<'t>,
}

impl<'t> Noted<'t> {
    ghost use Rattle.std.specs.Prelude.{◌∷◌, ◌++◌, []};
    ghost use Rattle.h1_model.specs.Fields.{Pair};
    ghost use Rattle.h1_head.specs.Noted.{AreNoted};

    /// Those of no fields.
    fn none() -> Self
        ensures { AreNoted [] result }
    {
        Noted {
            host: FieldLines::Absent,
            connection: FieldLines::Absent,
            lengths: FieldLines::Absent,
            codings: FieldLines::Absent,
        }
    }

    /// Notes one field more, after those that were noted.
    fn note(&mut self, name: &[u8], value: &'t [u8])
        ensures { (fields : List Pair) → AreNoted fields self.old → AreNoted (fields ++ (name.now, value.now) ∷ []) self.new }
    {
        if is_same_word(name, b"host") {
            self.host = self.host.and(value);
        } else if is_same_word(name, b"connection") {
            self.connection = self.connection.and(value);
        } else if is_same_word(name, b"content-length") {
            self.lengths = self.lengths.and(value);
        } else if is_same_word(name, b"transfer-encoding") {
            self.codings = self.codings.and(value);
        }
    }
}

/// What the Connection fields of a head say, looked up once a head: their lines, and, where they list few names, between which lengths all
/// names lie that they list, else which of the head's own names they list.
#[derive(Drop)]
pub struct ConnectionFields<'t> {
    pub lines: FieldLines<'t>,
    pub lengths: Lengths,
    pub listed: Option<ListedNames>,
}

/// The fields of a head: its text, of 65,536 bytes at most, and the spans of their names and values.
#[derive(Clone, Copy)]
pub struct Fields<'t> {
    pub text: &'t [u8],
    pub spans: &'t [HeaderSpan],
    pub ghost within: { All (IsHeaderWithin (length text.now)) spans.now },
    pub ghost short: { length text.now ≤ head_limit },
    pub ghost read: { All (λ s. IsRead (header_bytes text.now s)) spans.now },
}

/// Whether a name, in any case of letters, is that of a field that never passes.
fn is_response_hop_name(name: &[u8]) -> bool
    ensures { result ≡ is_response_hop_name (lowercase name.now) }
{
    is_same_word(name, b"connection")
        || is_same_word(name, b"keep-alive")
        || is_same_word(name, b"proxy-connection")
        || is_same_word(name, b"te")
        || is_same_word(name, b"transfer-encoding")
        || is_same_word(name, b"upgrade")
}

/// Whether a name, in any case of letters, is that of a field that never passes, or `host`.
pub fn is_hop_name(name: &[u8]) -> bool
    ensures { result ≡ is_hop_name (lowercase name.now) }
{
    is_response_hop_name(name) || is_same_word(name, b"host")
}

impl<'t> Fields<'t> {
    ghost use Rattle.std.specs.Prelude.{codes, IfSome};
    ghost use Rattle.h1_text.specs.Names.{AreMarked};
    ghost use Rattle.h1_model.specs.Listed.{with_fields};
    ghost use Rattle.h1_head.specs.Held.{fields_of};
    ghost use Rattle.h1_head.specs.Noted.{AreNoted};
    ghost use Rattle.h1_head.specs.Seen.{dropped_from, passing_in, IsListed};

    /// The name and the value that a field's spans cover.
    pub fn pair_at(&self, span: &HeaderSpan) -> (&'t [u8], &'t [u8])
        requires within { IsHeaderWithin (length self.now.text.now) span.now }
        requires read { IsRead (header_bytes self.now.text.now span.now) }
        ensures read { IsRead (result.0.now, result.1.now) }
        ensures pair { (result.0.now, result.1.now) ≡ header_bytes self.now.text.now span.now }
        ensures short { length result.1.now ≤ head_limit }
    {
        (span.name.of(self.text), span.value.of(self.text))
    }

    /// For how many bytes and pairs a list needs room that takes these fields: those of the head, and some for its pseudo-headers.
    pub fn room(&self) -> (usize, usize) {
        (
            self.text.len().saturating_add(PSEUDO_BYTES),
            self.spans.len().saturating_add(PSEUDO_PAIRS),
        )
    }

    /// The lines of those fields that say what the head is.
    pub fn noted(&self) -> Noted<'t>
        ensures { AreNoted (fields_of self.now) result }
    {
        let mut noted = Noted::none();
        for span in self.spans {
            let (name, value) = self.pair_at(span);
            noted.note(name, value);
        }
        noted
    }

    /// The values of the field lines of a name, in any case of letters, in order.
    pub fn values_of(&self, alloc: Global, name: &[u8]) -> Result<Members<Octets>, OutOfMemory>
        ensures { IfOk result (λ values. values ≡ values_of (lowercase name.now) (fields_of self.now)) }
    {
        let mut values = Members::new(alloc);
        for span in self.spans {
            let (field, value) = self.pair_at(span);
            if is_same_word(field, name) {
                values.push(Octets::from_slice(alloc, value)?)?;
            }
        }
        Ok(values)
    }

    /// Whether a Connection field lists a name, in any case of letters (RFC 9110 section 7.6.1).
    pub fn is_listed(&self, name: &[u8]) -> bool
        ensures { result ≡ is_listed (lowercase name.now) (fields_of self.now) }
    {
        for span in self.spans {
            let (field, value) = self.pair_at(span);
            if is_same_word(field, b"connection") && lists(value, name) {
                return true;
            }
        }
        false
    }

    /// Lengths between which all names lie that a Connection field lists.
    fn listed_lengths(&self) -> Lengths
        ensures { (name : List ℕ) → is_listed name (fields_of self.now) ≡ true → IsBetween result (length name) }
    {
        let mut lengths = Lengths::none();
        for span in self.spans {
            let (field, value) = self.pair_at(span);
            if is_same_word(field, b"connection") {
                lengths = lengths.with_members(value);
            }
        }
        lengths
    }

    /// Lengths between which all names lie that the Connection fields list, whose lines were looked up.
    fn lengths_by(&self, lines: FieldLines<'t>) -> Lengths
        requires { AreLines (values_of (codes "connection") (fields_of self.now)) lines }
        ensures { (name : List ℕ) → is_listed name (fields_of self.now) ≡ true → IsBetween result (length name) }
    {
        match lines {
            FieldLines::Absent => Lengths::none(),
            FieldLines::One(value) => Lengths::none().with_members(value),
            FieldLines::Many => self.listed_lengths(),
        }
    }

    /// The names of these fields, and `close`, those marked that the Connection fields list, where the lines are long and there is memory for it.
    fn marked_for(&self, alloc: Global, lines: FieldLines<'t>) -> Option<ListedNames>
        ensures { IfSome result (AreMarked (values_of (codes "connection") (fields_of self.now))) }
    {
        if lines.are_long() {
            listed_among(alloc, self.text, self.spans).ok()
        } else {
            None
        }
    }

    /// What the Connection fields say, whose lines were looked up. Where there is no memory for it, names are looked for as where few are listed.
    pub fn connection(&self, alloc: Global, lines: FieldLines<'t>) -> ConnectionFields<'t>
        requires { AreLines (values_of (codes "connection") (fields_of self.now)) lines }
        ensures { IsConnectionOf (fields_of self.now) result }
    {
        let listed = self.marked_for(alloc, lines);
        let lengths = if listed.is_some() {
            Lengths::none()
        } else {
            self.lengths_by(lines)
        };
        ConnectionFields {
            lines,
            lengths,
            listed,
        }
    }

    /// The values of the Connection fields, in order, whose lines were looked up.
    pub fn connection_values(
        &self,
        alloc: Global,
        lines: FieldLines<'t>,
    ) -> Result<Members<Octets>, OutOfMemory>
        requires { AreLines (values_of (codes "connection") (fields_of self.now)) lines }
        ensures { IfOk result (λ values. values ≡ values_of (codes "connection") (fields_of self.now)) }
    {
        match lines {
            FieldLines::Absent => Ok(Members::new(alloc)),
            FieldLines::One(value) => {
                let mut values = Members::new(alloc);
                values.push(Octets::from_slice(alloc, value)?)?;
                Ok(values)
            }
            FieldLines::Many => self.values_of(alloc, b"connection"),
        }
    }

    /// Whether a Connection field lists a name, in any case of letters, by the lines of these fields.
    fn is_listed_by(&self, lines: FieldLines<'t>, name: &[u8]) -> bool
        requires { AreLines (values_of (codes "connection") (fields_of self.now)) lines }
        ensures { result ≡ is_listed (lowercase name.now) (fields_of self.now) }
    {
        match lines {
            FieldLines::Absent => false,
            FieldLines::One(value) => lists(value, name),
            FieldLines::Many => self.is_listed(name),
        }
    }

    /// Whether a Connection field lists a name, in any case of letters, by the marks of names, where it is one of those.
    fn is_marked(&self, listed: &ListedNames, lines: FieldLines<'t>, name: &[u8]) -> bool
        requires lines { AreLines (values_of (codes "connection") (fields_of self.now)) lines }
        requires marked { AreMarked (values_of (codes "connection") (fields_of self.now)) listed.now }
        ensures { result ≡ is_listed (lowercase name.now) (fields_of self.now) }
    {
        match listed.is_listed(name) {
            Some(is_listed) => is_listed,
            None => self.is_listed_by(lines, name),
        }
    }

    /// Whether a Connection field lists a name, in any case of letters; one that is shorter or longer than all that they list is looked for no
    /// further.
    #[inline(always)]
    fn is_among_few(&self, lengths: Lengths, lines: FieldLines<'t>, name: &[u8]) -> bool
        requires lines { AreLines (values_of (codes "connection") (fields_of self.now)) lines }
        requires lengths { (name : List ℕ) → is_listed name (fields_of self.now) ≡ true → IsBetween lengths (length name) }
        ensures { result ≡ is_listed (lowercase name.now) (fields_of self.now) }
    {
        if !lengths.has(name.len()) {
            return false;
        }
        self.is_listed_by(lines, name)
    }

    /// Whether a Connection field lists a name, in any case of letters, by what these fields say.
    #[inline(always)]
    pub fn is_among(&self, connection: &ConnectionFields<'t>, name: &[u8]) -> bool
        requires { IsConnectionOf (fields_of self.now) connection.now }
        ensures { result ≡ is_listed (lowercase name.now) (fields_of self.now) }
    {
        match &connection.listed {
            Some(listed) => self.is_marked(listed, connection.lines, name),
            None => self.is_among_few(connection.lengths, connection.lines, name),
        }
    }

    /// Whether a field of this name, in any case of letters, is dropped, by what the Connection fields say; `host` may pass, as
    /// in a response.
    fn is_dropped(&self, host_passes: bool, connection: &ConnectionFields<'t>, name: &[u8]) -> bool
        requires { IsConnectionOf (fields_of self.now) connection.now }
        ensures { result ≡ dropped_from host_passes (fields_of self.now) (lowercase name.now) }
    {
        let is_hop = if host_passes {
            is_response_hop_name(name)
        } else {
            is_hop_name(name)
        };
        is_hop || self.is_among(connection, name)
    }

    /// The list with the fields that pass put last, in order, by what the Connection fields say; `host` may pass, as in a response.
    pub fn passing(
        &self,
        host_passes: bool,
        connection: &ConnectionFields<'t>,
        list: HeaderList,
    ) -> Result<HeaderList, HeaderEnd>
        requires { IsConnectionOf (fields_of self.now) connection.now }
        ensures { IsListed (with_fields list (passing_in host_passes (fields_of self.now))) result }
    {
        let mut list = list;
        for span in self.spans {
            let (name, value) = self.pair_at(span);
            if !self.is_dropped(host_passes, connection, name) {
                list.add_read(name, value)?;
            }
        }
        Ok(list)
    }
}
