// The kinds of header lists, and what is a name and a value in one.
ghost use Rattle.std.specs.List.{list_any};
ghost use Rattle.std.specs.Prelude.{◌≡◌, length, bytes_eq};
ghost use Rattle.http_header.specs.Token.{lowercase};
ghost use Rattle.header_maps.specs.Kinds.{pseudo_names, is_name_for, is_status_for, is_pseudo_value, is_value_for};

use crate::judged::{
    is_authority, is_field_name, is_field_value, is_method, is_path, is_pseudo, is_same_word,
    is_scheme, is_status,
};

/// What pseudo-headers a list has.
#[derive(Clone, Copy, PartialEq, Eq)]
pub enum ListKind {
    /// `:method`, `:scheme`, `:authority` and `:path`.
    Request,
    /// `:status`, from 200 to 599.
    Response,
    /// `:status`, from 100 to 199.
    Interim,
    /// None, as of trailers.
    Plain,
}

impl ListKind {
    /// How many pseudo-headers a list of this kind has.
    pub fn pseudo_count(self) -> usize
        ensures { result ≡ length (pseudo_names self) }
    {
        match self {
            ListKind::Request => 4,
            ListKind::Response => 1,
            ListKind::Interim => 1,
            ListKind::Plain => 0,
        }
    }

    /// Whether this is the name of a pseudo-header of a list of this kind, in any case of letters.
    fn has_pseudo(self, name: &[u8]) -> bool
        ensures { result ≡ list_any (bytes_eq (lowercase name.now)) (pseudo_names self) }
    {
        match self {
            ListKind::Request => {
                is_same_word(name, b":method")
                    || is_same_word(name, b":scheme")
                    || is_same_word(name, b":authority")
                    || is_same_word(name, b":path")
            }
            ListKind::Response => is_same_word(name, b":status"),
            ListKind::Interim => is_same_word(name, b":status"),
            ListKind::Plain => false,
        }
    }

    /// Whether a list of this kind may have this name, in any case of letters.
    pub fn has_name(self, name: &[u8]) -> bool
        ensures { result ≡ is_name_for self name.now }
    {
        if is_pseudo(name) {
            self.has_pseudo(name)
        } else {
            is_field_name(name)
        }
    }

    /// Whether this is a status code of a list of this kind.
    fn has_status(self, value: &[u8]) -> bool
        ensures { result ≡ is_status_for self value.now }
    {
        match self {
            ListKind::Request => false,
            ListKind::Response => is_status(200, 599, value),
            ListKind::Interim => is_status(100, 199, value),
            ListKind::Plain => false,
        }
    }

    /// Whether a value is right for a pseudo-header.
    fn has_pseudo_value(self, name: &[u8], value: &[u8]) -> bool
        ensures { result ≡ is_pseudo_value self (lowercase name.now) value.now }
    {
        if is_same_word(name, b":method") {
            is_method(value)
        } else if is_same_word(name, b":scheme") {
            is_scheme(value)
        } else if is_same_word(name, b":authority") {
            is_authority(value)
        } else if is_same_word(name, b":path") {
            is_path(value)
        } else {
            self.has_status(value)
        }
    }

    /// Whether a value is right for a name, in any case of letters.
    pub fn has_value(self, name: &[u8], value: &[u8]) -> bool
        ensures { result ≡ is_value_for self (lowercase name.now) value.now }
    {
        if is_pseudo(name) {
            self.has_pseudo_value(name, value)
        } else {
            is_field_value(value)
        }
    }
}
