// Single values of a table.
ghost use Rattle.std.specs.Prelude.{◌≡◌, option_map};
ghost use Rattle.toml.specs.Data.{get_member, as_integer, as_str};
ghost use Rattle.toml.specs.View.{view, table_view};
ghost use Rattle.config_reader.specs.Judge.{natural, name_in, text_of, number_default, text_default, number_at, text_at};
ghost use Rattle.config_reader.specs.Rows.{absence_of, row_of};

use crate::keys::{Absent, Key};
use crate::words::is_name;
use toml::{Table, Value};

/// The member at a key.
pub(crate) fn member<'a>(table: &'a Table, name: &str) -> Option<&'a Value>
    ensures { option_map (λ v. view v.now) result ≡ get_member name.now (table_view table.now) }
{
    table.get(name)
}

/// The number of a value, where it is one and is not below 0.
pub(crate) fn natural(value: &Value) -> Option<u64>
    ensures { result ≡ natural (as_integer (view value.now)) }
{
    match value.as_integer() {
        Some(n) => { if n < 0 { None } else { Some(n as u64) } }
        None => None,
    }
}

/// The name that a value is.
pub(crate) fn name_in(value: &Value) -> Option<&str>
    ensures { option_map (λ s. s.now) result ≡ name_in (as_str (view value.now)) }
{
    match value.as_str() {
        Some(s) => { if is_name(s.as_bytes()) { Some(s) } else { None } }
        None => None,
    }
}

/// The text of a value, and none where it is no text.
pub(crate) fn text_in(value: &Value) -> &str
    ensures { result.now ≡ text_of (view value.now) }
{
    value.as_str().unwrap_or("")
}

/// The number at a key, or its default.
pub(crate) fn number_at(key: &Key, table: &Table) -> u64
    ensures { result ≡ number_at (row_of key.now) (table_view table.now) }
{
    match member(table, key.name) {
        Some(value) => natural(value).unwrap_or(0),
        None => number_default(key.absent),
    }
}

/// The number that stands for a key that is missing.
fn number_default(absent: Absent) -> u64
    ensures { result ≡ number_default (absence_of absent) }
{
    match absent {
        Absent::Number { number } => number,
        Absent::Refused | Absent::Text { .. } | Absent::NoNames => 0,
    }
}

/// The text at a key, or its default.
pub(crate) fn text_at<'a>(key: &Key, table: &'a Table) -> &'a str
    ensures { result.now ≡ text_at (row_of key.now) (table_view table.now) }
{
    match member(table, key.name) {
        Some(value) => text_in(value),
        None => text_default(key.absent),
    }
}

/// The text that stands for a key that is missing.
fn text_default(absent: Absent) -> &'static str
    ensures { result.now ≡ text_default (absence_of absent) }
{
    match absent {
        Absent::Text { text } => text,
        Absent::Refused | Absent::Number { .. } | Absent::NoNames => "",
    }
}
