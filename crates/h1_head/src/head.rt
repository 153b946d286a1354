// The head of a message.
ghost use Rattle.std.specs.Prelude.{◌≡◌};

use gate_base::{Members, Octets};
use header_maps::HeaderList;

/// What a text is: one side's messages.
#[derive(Clone, Copy, PartialEq, Eq)]
pub enum Kind {
    /// The requests of a client.
    Request,
    /// The response to a request, which may have been a HEAD request.
    Response { to_head: bool },
}

impl Kind {
    ghost use Rattle.h1_head.specs.Seen.{large_number};

    /// The status of a head that has grown too large.
    pub fn large_number(self) -> u16
        ensures { result ≡ large_number self }
    {
        match self {
            Kind::Request => 431,
            Kind::Response { .. } => 502,
        }
    }
}

/// The length of a message's body (RFC 9112 section 6).
#[derive(Clone, Copy, PartialEq, Eq)]
pub enum Length {
    /// No body.
    Nothing,
    /// So many bytes, at least 1.
    Exactly(u64),
    /// The chunked coding.
    Chunked,
    /// All that comes until the line ends, which a response alone may have.
    UntilEnd,
}

/// The form of a request's target (RFC 9112 section 3.2).
#[derive(Clone, Copy, PartialEq, Eq)]
pub enum TargetForm {
    /// `/path?query`.
    Origin,
    /// `scheme://authority/path?query`.
    Absolute,
    /// `*`.
    Asterisk,
}

/// The head of a message, as a gateway takes it in.
#[derive(Drop)]
pub struct Head {
    /// The pseudo-headers, and the fields that pass, in order, with names in lower case.
    pub fields: HeaderList,
    /// The fields that stand after the framing field on the way out. There are none as a head is read.
    pub tail: HeaderList,
    /// The form of a request's target.
    pub form: Option<TargetForm>,
    /// The minor version, 0 or 1.
    pub minor: u8,
    pub length: Length,
    /// The number that Content-Length told, if it did.
    pub told: Option<u64>,
    /// Whether Connection lists `close`.
    pub close: bool,
    /// The values of its Connection fields, as they were received, in order. They name fields that do not pass, trailers too.
    pub connection: Members<Octets>,
}

/// What a text spells where a head is due.
#[derive(Drop)]
pub enum HeadStep {
    /// A head, and how many bytes of the text it uses up, empty lines in front of it included.
    Head { head: Head, used: usize },
    /// Nothing as yet.
    NotYet,
    /// No head: the status of the answer, 400, 431 or 501 for a request and 502 for a response.
    Refused { number: u16 },
}
