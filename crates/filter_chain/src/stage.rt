// One filter of an exchange in one direction.
use crate::{Held, Waiting};
use gate_base::{ContextId, VmNo};

/// One filter of an exchange in one direction. The bytes that it holds are its buffer in its context.
#[derive(Drop)]
pub struct Stage {
    pub vm: VmNo,
    pub context: ContextId,
    /// Of the direction from the upstream.
    pub response: bool,
    /// Not asked about yet.
    pub waiting: Waiting,
    pub held: Held,
    /// It passes everything unasked.
    pub passes: bool,
}
