// The items of a message.

use crate::head::Head;
use gate_base::Octets;
use header_maps::HeaderList;

/// An item of a message, as it was read or as it goes out.
#[derive(Drop)]
pub enum Item {
    /// The head of a request or of a response; `end` says that no body follows.
    Head { head: Head, end: bool },
    /// An interim head, after which the response is still due (RFC 9110 section 15.2).
    Interim { head: Head },
    /// Bytes of the body, as they come; `end` says that the body ends with them and that no trailers follow.
    Piece { bytes: Octets, end: bool },
    /// The trailer fields, of which there is at least one, after the body's end (RFC 9112 section 7.1.2).
    Trailers { fields: HeaderList },
}
