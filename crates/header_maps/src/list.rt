// The fields of a message, with its pseudo-headers.
ghost use Rattle.std.specs.Prelude.{◌≡◌, ◌≤◌, ◌<◌, ◌↔◌, [], ◌++◌, ◌^◌, true, IsTrue, length, take, drop, filter, map, IfOk, OnOk, OnErr, IsOk, IfSome, IfNone, Some, option_copied, slice_index_or};
ghost use Rattle.std.specs.List.{list_all, position};
ghost use Rattle.http_header.specs.Token.{lowercase};
ghost use Rattle.header_maps.specs.Faults.{fault_of, add_fault, replace_fault, remove_fault, set_fault, request_fault, response_fault, has_each_once, are_names_for, are_values_for};
ghost use Rattle.header_maps.specs.Judged.{is_authority, is_field_name, is_field_value, is_path, status_text};
ghost use Rattle.header_maps.specs.Kept.{byte_limit, is_short, IsHeaders};
ghost use Rattle.header_maps.specs.Operations.{no_headers, request_headers, response_headers, get_of, first_of, added, removed, without, replaced, with_value, in_order, all_set, size_of};
ghost use Rattle.header_maps.specs.Pairs.{lowered, is_named, plain_among, plain_count, joined_behind};

use crate::end::HeaderEnd;
use crate::given::{are_names_for, are_values_for, in_order};
use crate::judged::{is_authority, is_field_name, is_field_value, is_method, is_path, is_scheme};
use crate::kind::ListKind;
use crate::pairs::{
    count_plain, drop_from, first_value, joined_values, pairs_of, place_of, put_value, size_of,
};
use crate::texts::Texts;
use gate_base::{Octets, OutOfMemory, Pairs};
use std::alloc::Global;
use std::marker::Model;

/// How many fields a list may have, pseudo-headers not counted.
const FIELD_LIMIT: usize = 100;

/// For how many bytes and pairs a list has room from the start, so that a browser's head takes two pieces of memory.
const FIRST_BYTES: usize = 1024;

const FIRST_PAIRS: usize = 24;

/// The pseudo-headers and the fields of a message, in order. Names are in lower case; pseudo-headers stand first.
/// Clauses see a `Headers`.
#[derive(Drop)]
pub struct HeaderList {
    kind: ListKind,
    items: Texts,
}

impl Model for HeaderList {
    ghost use Rattle.header_maps.specs.Headers.{Headers};
    ghost use Rattle.header_maps.specs.Kept.{IsHeaders};

    ghost Value = { Headers };

    ghost view = { λ l. record { kind = l.kind; pairs = l.items } };

    ghost invariant = { λ l. IsHeaders (record { kind = l.kind; pairs = l.items }) };
}

/// The three digits of a number from 100 to 599.
fn status_text(status: u16) -> [u8; 3]
    requires { status < 1000 }
    ensures { result ≡ status_text status }
{
    [
        b'0' + (status / 100) as u8,
        b'0' + (status / 10 % 10) as u8,
        b'0' + (status % 10) as u8,
    ]
}

impl HeaderList {
    /// No fields, and no pseudo-headers. It takes no memory.
    pub fn new(alloc: Global) -> Self
        ensures { result ≡ no_headers }
    {
        HeaderList {
            kind: ListKind::Plain,
            items: Texts::new(alloc),
        }
    }

    /// The pseudo-headers of a request, without fields. BadValue comes exactly where one of them is not right.
    pub fn request(
        alloc: Global,
        method: &[u8],
        scheme: &[u8],
        authority: &[u8],
        path: &[u8],
    ) -> Result<Self, HeaderEnd>
        requires method { length method.now ≤ byte_limit }
        requires authority { length authority.now ≤ byte_limit }
        requires path { length path.now ≤ byte_limit }
        ensures cause { fault_of result ≡ request_fault method.now scheme.now authority.now path.now }
        ensures ok { IfOk result (λ list. list ≡ request_headers method.now scheme.now authority.now path.now) }
    {
        if !(is_authority(authority) && is_path(path)) {
            return Err(HeaderEnd::BadValue);
        }
        HeaderList::request_read(alloc, method, scheme, authority, path, 0, 0)
    }

    /// The same, of an authority and a path that were judged before, with room for at least so many bytes and pairs in all.
    pub fn request_read(
        alloc: Global,
        method: &[u8],
        scheme: &[u8],
        authority: &[u8],
        path: &[u8],
        bytes: usize,
        pairs: usize,
    ) -> Result<Self, HeaderEnd>
        requires method { length method.now ≤ byte_limit }
        requires authority { length authority.now ≤ byte_limit }
        requires path { length path.now ≤ byte_limit }
        requires judged_authority { is_authority authority.now ≡ true }
        requires judged_path { is_path path.now ≡ true }
        ensures cause { fault_of result ≡ request_fault method.now scheme.now authority.now path.now }
        ensures ok { IfOk result (λ list. list ≡ request_headers method.now scheme.now authority.now path.now) }
    {
        if !(is_method(method) && is_scheme(scheme)) {
            return Err(HeaderEnd::BadValue);
        }
        let mut items = Texts::with_room(alloc, bytes.max(FIRST_BYTES), pairs.max(FIRST_PAIRS))?;
        items.push(b":method", method)?;
        items.push(b":scheme", scheme)?;
        items.push(b":authority", authority)?;
        items.push(b":path", path)?;
        Ok(HeaderList {
            kind: ListKind::Request,
            items,
        })
    }

    /// The pseudo-header of a response, or of an interim head from 100 to 199, without fields. BadValue comes exactly where
    /// the status is not one from 100 to 599.
    pub fn response(alloc: Global, status: u16) -> Result<Self, HeaderEnd>
        ensures cause { fault_of result ≡ response_fault status }
        ensures ok { IfOk result (λ list. list ≡ response_headers status) }
    {
        if status < 100 || 599 < status {
            return Err(HeaderEnd::BadValue);
        }
        let kind = if status < 200 {
            ListKind::Interim
        } else {
            ListKind::Response
        };
        let text = status_text(status);
        let mut items = Texts::with_room(alloc, FIRST_BYTES, FIRST_PAIRS)?;
        items.push(b":status", &text)?;
        Ok(HeaderList { kind, items })
    }

    /// The list of a kind that the given pairs make. Its refusals are those of `set_all`.
    pub fn of(alloc: Global, kind: ListKind, pairs: &Pairs) -> Result<Self, HeaderEnd>
        requires { list_all is_short pairs.now ≡ true }
        ensures cause { fault_of result ≡ set_fault kind pairs.now }
        ensures ok { IfOk result (λ list. list ≡ all_set kind pairs.now) }
    {
        let given = pairs.as_slice();
        if !are_names_for(kind, given) {
            return Err(HeaderEnd::BadName);
        }
        if !are_values_for(kind, given) {
            return Err(HeaderEnd::BadValue);
        }
        if count_plain(given) > FIELD_LIMIT {
            return Err(HeaderEnd::TooMany);
        }
        let items = in_order(alloc, kind, given)?;
        Ok(HeaderList { kind, items })
    }

    /// Which pseudo-headers the list has.
    pub fn kind(&self) -> ListKind
        ensures kind { result ≡ self.now.kind }
        ensures keeps { IsHeaders self.now }
    {
        self.kind
    }

    /// The name and the value of a pair, from 0, pseudo-headers first.
    pub fn pair(&self, at: usize) -> (&[u8], &[u8])
        requires { at < length self.now.pairs }
        ensures pair { (result.0.now, result.1.now) ≡ slice_index_or self.now.pairs at (result.0.now, result.1.now) }
        ensures keeps { IsHeaders self.now }
    {
        self.items.pair(at)
    }

    /// The pairs, pseudo-headers first.
    pub fn texts(&self) -> &Texts
        ensures { result.now ≡ self.now.pairs }
    {
        &self.items
    }

    /// How many pairs there are, pseudo-headers included: at most 104. It takes no memory.
    pub fn len(&self) -> usize
        ensures count { result ≡ length self.now.pairs }
        ensures bound { result ≤ 104 }
    {
        self.items.len()
    }

    /// Whether there is neither a field nor a pseudo-header.
    pub fn is_empty(&self) -> bool
        ensures { IsTrue result ↔ (self.now.pairs ≡ []) }
    {
        self.items.is_empty()
    }

    /// How many fields there are, pseudo-headers not counted: at most 100.
    fn field_count(&self) -> usize
        ensures count { result ≡ plain_count self.now.pairs }
        ensures bound { result ≤ 100 }
    {
        self.items.len() - self.kind.pseudo_count()
    }

    /// How many bytes the serialised form of the pairs has, below 2^32. It takes no memory.
    pub fn byte_size(&self) -> usize
        ensures size { result ≡ size_of self.now.pairs }
        ensures bound { result < 2 ^ 32 }
    {
        size_of(&self.items)
    }

    /// The value of the first field or pseudo-header of a name, in any case of letters. It takes no memory.
    pub fn first(&self, name: &[u8]) -> Option<&[u8]>
        ensures { option_copied result ≡ first_of self.now name.now }
    {
        first_value(&self.items, name)
    }

    /// The values of all fields of a name, in any case of letters, joined by one comma each; none where there is no field.
    pub fn get(&self, alloc: Global, name: &[u8]) -> Result<Option<Octets>, OutOfMemory>
        ensures value { IfOk result (λ value. value ≡ get_of self.now name.now) }
        ensures bound { IfOk result (λ value. IfSome value (λ bytes. length bytes < 2 ^ 32)) }
    {
        joined_values(alloc, &self.items, name)
    }

    /// Puts a field last. A pseudo-header is not added.
    pub fn add(&mut self, _alloc: Global, name: &[u8], value: &[u8]) -> Result<(), HeaderEnd>
        requires { length value.now ≤ byte_limit }
        ensures cause { fault_of result ≡ add_fault self.old name.now value.now }
        ensures ok { OnOk result (self.new ≡ added self.old name.now value.now) }
        ensures err { OnErr result (self.new ≡ self.old) }
    {
        if !is_field_name(name) {
            return Err(HeaderEnd::BadName);
        }
        if !is_field_value(value) {
            return Err(HeaderEnd::BadValue);
        }
        self.add_read(name, value)
    }

    /// Puts a field last that was judged before: its name is one of a field, and its value too.
    pub fn add_read(&mut self, name: &[u8], value: &[u8]) -> Result<(), HeaderEnd>
        requires name { is_field_name name.now ≡ true }
        requires value { is_field_value value.now ≡ true }
        requires short { length value.now ≤ byte_limit }
        ensures cause { fault_of result ≡ add_fault self.old name.now value.now }
        ensures ok { OnOk result (self.new ≡ added self.old name.now value.now) }
        ensures err { OnErr result (self.new ≡ self.old) }
    {
        if self.field_count() >= FIELD_LIMIT {
            return Err(HeaderEnd::TooMany);
        }
        self.items.push_lowered(name, value)?;
        Ok(())
    }

    /// Puts a value at the first field of a name, and takes its other fields out; puts a field last where there is none.
    pub fn replace(&mut self, alloc: Global, name: &[u8], value: &[u8]) -> Result<(), HeaderEnd>
        requires { length value.now ≤ byte_limit }
        ensures cause { fault_of result ≡ replace_fault self.old name.now value.now }
        ensures ok { OnOk result (self.new ≡ replaced self.old name.now value.now) }
        ensures err { OnErr result (self.new ≡ self.old) }
    {
        if !self.kind.has_name(name) {
            return Err(HeaderEnd::BadName);
        }
        if !self.kind.has_value(name, value) {
            return Err(HeaderEnd::BadValue);
        }
        let Some(at) = place_of(&self.items, name) else {
            return self.add(alloc, name, value);
        };
        put_value(&mut self.items, at, name, value)?;
        self.items.tighten();
        Ok(())
    }

    /// Takes all fields of a name out. That there is none is no fault; a pseudo-header is not removed. It never wants for memory.
    pub fn remove(&mut self, name: &[u8]) -> Result<(), HeaderEnd>
        ensures cause { fault_of result ≡ remove_fault name.now }
        ensures ok { OnOk result (self.new ≡ removed self.old name.now) }
        ensures err { OnErr result (self.new ≡ self.old) }
        ensures sure { is_field_name name.now ≡ true → IsOk result }
    {
        if !is_field_name(name) {
            return Err(HeaderEnd::BadName);
        }
        drop_from(&mut self.items, 0, name);
        self.items.tighten();
        Ok(())
    }

    /// Puts the given pairs in place of all pairs. The pseudo-headers of the list are given too, each exactly once, anywhere.
    pub fn set_all(&mut self, alloc: Global, pairs: &Pairs) -> Result<(), HeaderEnd>
        requires { list_all is_short pairs.now ≡ true }
        ensures cause { fault_of result ≡ set_fault self.old.kind pairs.now }
        ensures ok { OnOk result (self.new ≡ all_set self.old.kind pairs.now) }
        ensures err { OnErr result (self.new ≡ self.old) }
    {
        *self = HeaderList::of(alloc, self.kind, pairs)?;
        Ok(())
    }

    /// A copy of the pairs, in order.
    pub fn pairs(&self, alloc: Global) -> Result<Pairs, OutOfMemory>
        ensures { IfOk result (λ pairs. pairs ≡ self.now.pairs) }
    {
        pairs_of(alloc, &self.items)
    }

    /// A copy.
    pub fn copy(&self, alloc: Global) -> Result<Self, OutOfMemory>
        ensures { IfOk result (λ list. list ≡ self.now) }
    {
        Ok(HeaderList {
            kind: self.kind,
            items: self.items.copy(alloc)?,
        })
    }
}
