// What went wrong with a connection to the server.
use crate::duplex::Duplex;
use gate_io::What;

/// What went wrong with a connection to the server.
#[derive(Clone, Copy)]
pub enum Fault {
    /// The server refused it.
    Refused,
    /// It could not be made.
    Unreachable,
    /// It ended, or broke off, before the server gave a byte.
    EndedEarly,
    /// It broke off after some bytes.
    BrokeOff,
}

/// What went wrong where this is told of a connection to the server, or what did before.
pub fn fault_of<P: Duplex>(told: &Option<What>, peer: &P, before: Option<Fault>) -> Option<Fault> {
    match told {
        Some(What::Refused { .. }) if peer.is_turned_away() => Some(Fault::Refused),
        Some(What::Refused { .. }) => Some(Fault::Unreachable),
        Some(What::Gone { .. }) if peer.has_given() => Some(Fault::BrokeOff),
        Some(What::Gone { .. } | What::End { .. }) if !peer.has_given() => Some(Fault::EndedEarly),
        _ => before,
    }
}
