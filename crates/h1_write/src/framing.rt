// How a message on its way out says where its body ends.
ghost use Rattle.std.specs.Prelude.{◌≡◌, if◌then◌else◌};
ghost use Rattle.h1_model.specs.Framing.{may_tell, bare_framing, kept_framing, body_framing, for_client, framing_of};
ghost use Rattle.h1_head.specs.Measures.{seen_length};
ghost use Rattle.h1_write.specs.Seen.{seen_framing};

use h1_head::Length;

/// How a message on its way out says where its body ends (RFC 9112 section 6).
#[derive(Clone, Copy, PartialEq, Eq)]
pub enum Framing {
    /// It has no body, and says nothing of one.
    Nothing,
    /// By `content-length`, which tells so many bytes.
    Length(u64),
    /// By the chunked coding.
    Chunked,
    /// By the end of the line, which a response alone may use.
    UntilClose,
}

/// Whether a request, which has no status, or a response of this status may tell a length (RFC 9110 section 8.6).
fn may_tell(status: Option<u16>) -> bool
    ensures { result ≡ may_tell status }
{
    match status {
        None => true,
        Some(status) => !(status < 200 || status == 204),
    }
}

/// The framing of a message without a body, which keeps the length that it told.
fn bare_framing(status: Option<u16>, told: Option<u64>) -> Framing
    ensures { seen_framing result ≡ bare_framing status told }
{
    if !may_tell(status) {
        return Framing::Nothing;
    }
    match told {
        None => Framing::Nothing,
        Some(length) => Framing::Length(length),
    }
}

/// The framing in which a body was received.
fn kept_framing(length: Length) -> Framing
    ensures { seen_framing result ≡ kept_framing (seen_length length) }
{
    match length {
        Length::Nothing => Framing::Nothing,
        Length::Exactly(length) => Framing::Length(length),
        Length::Chunked => Framing::Chunked,
        Length::UntilEnd => Framing::UntilClose,
    }
}

/// The framing of a body, which a filter may change.
fn body_framing(filtered: bool, length: Length) -> Framing
    ensures { seen_framing result ≡ body_framing filtered (seen_length length) }
{
    if filtered {
        Framing::Chunked
    } else {
        kept_framing(length)
    }
}

/// The framing for a client, of which an old one knows no chunks (RFC 9112 section 6.1).
fn for_client(old_client: bool, framing: Framing) -> Framing
    ensures { seen_framing result ≡ for_client old_client (seen_framing framing) }
{
    match framing {
        Framing::Nothing => Framing::Nothing,
        Framing::Length(length) => Framing::Length(length),
        Framing::Chunked if old_client => Framing::UntilClose,
        Framing::Chunked => Framing::Chunked,
        Framing::UntilClose => Framing::UntilClose,
    }
}

/// The framing for a client of any version.
fn open_framing(
    bare: bool,
    filtered: bool,
    status: Option<u16>,
    told: Option<u64>,
    length: Length,
) -> Framing
    ensures { seen_framing result ≡ (if bare then bare_framing status told else body_framing filtered (seen_length length)) }
{
    if bare {
        bare_framing(status, told)
    } else {
        body_framing(filtered, length)
    }
}

/// The framing of a message that goes out. `bare` says that no body follows its head, `filtered` that a filter may change the
/// body, `old_client` that it is a response to a client of HTTP/1.0. `status` is the status that a response was received with,
/// and none of a request; `told` and `length` are what the head that was received says of its body (RFC 9112 section 6).
pub fn framing_of(
    bare: bool,
    filtered: bool,
    old_client: bool,
    status: Option<u16>,
    told: Option<u64>,
    length: Length,
) -> Framing
    ensures { seen_framing result ≡ framing_of bare filtered old_client status told (seen_length length) }
{
    for_client(
        old_client,
        open_framing(bare, filtered, status, told, length),
    )
}
