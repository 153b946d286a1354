// The length of a message's body.
ghost use Rattle.std.specs.Prelude.{◌≡◌, ◌<◌, ◌∷◌, length, IfSome, option_copied, codes};
ghost use Rattle.h1_model.specs.Fields.{members, values_of};
ghost use Rattle.h1_model.specs.Length.{number_of, told_measure, request_measure, response_measure, measure_of_body};
ghost use Rattle.h1_head.specs.Held.{fields_of};
ghost use Rattle.h1_head.specs.Noted.{AreNoted};
ghost use Rattle.h1_head.specs.Spans.{AreLines};
ghost use Rattle.h1_text.specs.Members.{rest_members};
ghost use Rattle.h1_head.specs.Measures.{agreed_length, AreTold, seen_measure, seen_measure_result};

use crate::fields::{FieldLines, Fields, Noted};
use crate::head::Length;
use h1_text::{first_member, trim};
use header_maps::is_same_word;

/// The largest length that a message may tell, 2^63 - 1.
const LENGTH_LIMIT: u64 = 0x7fff_ffff_ffff_ffff;

/// The length of a body, and the number that Content-Length told.
#[derive(Clone, Copy)]
pub struct Measure {
    pub length: Length,
    pub told: Option<u64>,
}

/// What the Content-Length lines tell.
#[derive(Clone, Copy)]
pub enum Told {
    /// There is none.
    Absent,
    /// All their members write this number.
    Number(u64),
    /// They do not write one number.
    Malformed,
}

/// The number that a member of Content-Length writes, up to 2^63 - 1 (RFC 9110 section 8.6).
fn number(member: &[u8]) -> Option<u64>
    ensures { result ≡ number_of member.now }
{
    if member.is_empty() {
        return None;
    }
    let mut n: u64 = 0;
    for byte in member {
        if !byte.is_ascii_digit() {
            return None;
        }
        let digit = u64::from(*byte - b'0');
        if n > (LENGTH_LIMIT - digit) / 10 {
            return None;
        }
        n = n * 10 + digit;
    }
    Some(n)
}

/// The one number that all members of a value write, and that is `known` where the members before wrote that.
fn agreed(value: &[u8], known: Option<u64>) -> Option<u64>
    ensures { result ≡ agreed_length known (members value.now) }
{
    let mut known = known;
    let mut rest = Some(value);
    while let Some(list) = rest {
        let (member, after) = first_member(list);
        let n = number(member)?;
        if let Some(k) = known
            && n != k
        {
            return None;
        }
        known = Some(n);
        rest = after;
    }
    known
}

/// What the Content-Length lines of a head tell.
fn told_length(fields: &Fields) -> Told
    ensures { AreTold (values_of (codes "content-length") (fields_of fields.now)) result }
{
    let mut told = None;
    for span in fields.spans {
        let (name, value) = fields.pair_at(span);
        if is_same_word(name, b"content-length") {
            told = agreed(value, told);
            if told.is_none() {
                return Told::Malformed;
            }
        }
    }
    match told {
        Some(n) => Told::Number(n),
        None => Told::Absent,
    }
}

/// What the Content-Length lines of a head tell, which were looked up.
fn told_by(fields: &Fields, lines: FieldLines) -> Told
    requires { AreLines (values_of (codes "content-length") (fields_of fields.now)) lines }
    ensures { AreTold (values_of (codes "content-length") (fields_of fields.now)) result }
{
    match lines {
        FieldLines::Absent => Told::Absent,
        FieldLines::One(_) => told_length(fields),
        FieldLines::Many => told_length(fields),
    }
}

/// A body of so many bytes, which is none where they are 0.
fn exact_measure(n: u64) -> Measure
    ensures { told_measure (Some n) ≡ Ok (seen_measure result) }
{
    let length = if n == 0 {
        Length::Nothing
    } else {
        Length::Exactly(n)
    };
    Measure {
        length,
        told: Some(n),
    }
}

/// The length of a request's body, or the number of a refusal (RFC 9112 section 6).
pub fn request_measure(fields: &Fields, noted: &Noted, minor: u8) -> Result<Measure, u16>
    requires { AreNoted (fields_of fields.now) noted.now }
    ensures { seen_measure_result result ≡ request_measure minor
        (values_of (codes "transfer-encoding") (fields_of fields.now))
        (values_of (codes "content-length") (fields_of fields.now)) }
{
    let told = told_by(fields, noted.lengths);
    match (noted.codings, told) {
        (FieldLines::Absent, Told::Absent) => Ok(Measure {
            length: Length::Nothing,
            told: None,
        }),
        (FieldLines::Absent, Told::Number(n)) => Ok(exact_measure(n)),
        (FieldLines::One(coding), Told::Absent) if minor != 0 => {
            if is_same_word(coding, b"chunked") {
                Ok(Measure {
                    length: Length::Chunked,
                    told: None,
                })
            } else {
                Err(501)
            }
        }
        (FieldLines::Many, Told::Absent) if minor != 0 => Err(501),
        _ => Err(400),
    }
}

/// The length of a response's body where its status lets it have one, or the number of a refusal (RFC 9112 section 6).
pub fn response_measure(fields: &Fields, noted: &Noted, minor: u8) -> Result<Measure, u16>
    requires { AreNoted (fields_of fields.now) noted.now }
    ensures { seen_measure_result result ≡ response_measure minor
        (values_of (codes "transfer-encoding") (fields_of fields.now))
        (values_of (codes "content-length") (fields_of fields.now)) }
{
    match request_measure(fields, noted, minor) {
        Ok(
            Measure {
                length: Length::Nothing,
                told: None,
            },
        ) => Ok(Measure {
            length: Length::UntilEnd,
            told: None,
        }),
        Ok(measure) => Ok(measure),
        Err(_) => Err(502),
    }
}

/// A response that has no body whatever its fields tell, where `bare` says so.
pub fn bodied(bare: bool, measure: Result<Measure, u16>) -> Result<Measure, u16>
    ensures { seen_measure_result result ≡ measure_of_body bare (seen_measure_result measure) }
{
    let measure = measure?;
    if bare {
        return Ok(Measure {
            length: Length::Nothing,
            told: measure.told,
        });
    }
    Ok(measure)
}
