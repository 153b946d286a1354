// What requests and responses share: a header list and a length make a head.
ghost use Rattle.std.specs.Option.{option_map};
ghost use Rattle.std.specs.Prelude.{◌≡◌, Option, None, Err, IfOk};
ghost use Rattle.header_maps.specs.Headers.{Headers};
ghost use Rattle.h1_model.specs.Head.{measured};
ghost use Rattle.h1_head.specs.Held.{fields_of};
ghost use Rattle.h1_head.specs.Lengths.{IsConnectionOf};
ghost use Rattle.h1_head.specs.Measures.{seen_measure_result};
ghost use Rattle.h1_head.specs.Seen.{seen_answer, IsListed};
ghost use Rattle.h1_head.specs.Targets.{seen_form};

use crate::fields::{ConnectionFields, Fields};
use crate::head::{Head, TargetForm};
use crate::length::Measure;
use gate_base::OutOfMemory;
use header_maps::{HeaderEnd, HeaderList};
use std::alloc::{AllocError, Global};

/// How many fields a head may have.
pub const FIELD_LIMIT: usize = 100;

/// How many fields a head has at most that has few: their spans are cleared in a third of the time.
pub const FEW_FIELDS: usize = 32;

/// A head that is taken in, or the status of its refusal.
pub type HeadOrStatus = Result<Head, u16>;

/// The status of a refusal where a list was not made, `malformed` but for want of memory.
pub fn refusal_of(end: HeaderEnd, malformed: u16) -> Result<u16, OutOfMemory>
    ensures { (list : Option Headers) → IsListed list (Err end) → IfOk result (λ number. (number ≡ malformed) × (list ≡ None)) }
{
    match end {
        HeaderEnd::BadName | HeaderEnd::BadValue | HeaderEnd::TooMany => Ok(malformed),
        HeaderEnd::OutOfMemory => Err(AllocError),
    }
}

/// The head of a message that has this list, where its length is told rightly.
pub fn measured(
    alloc: Global,
    list: HeaderList,
    form: Option<TargetForm>,
    minor: u8,
    fields: &Fields,
    connection: &ConnectionFields,
    measure: Result<Measure, u16>,
) -> Result<HeadOrStatus, OutOfMemory>
    requires { IsConnectionOf (fields_of fields.now) connection.now }
    ensures { IfOk result (λ answer. seen_answer answer ≡
        measured list (option_map seen_form form) minor (fields_of fields.now) (seen_measure_result measure)) }
{
    let Measure { length, told } = match measure {
        Ok(measure) => measure,
        Err(number) => return Ok(Err(number)),
    };
    let values = fields.connection_values(alloc, connection.lines)?;
    Ok(Ok(Head {
        fields: list,
        tail: HeaderList::new(alloc),
        form,
        minor,
        length,
        told,
        close: fields.is_among(connection, b"close"),
        connection: values,
    }))
}
