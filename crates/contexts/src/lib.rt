//! The contexts of all VMs of a worker, and what the effective one reaches.
#![tactic(auto)]

mod creating;
mod exchanges;
mod laws;
mod limits;
mod making;
mod parts;
mod reached;
mod roster;
mod stages;

pub use creating::{ContextEnd, UnknownContext};
pub use laws::{
    all_else_stays, calls_are_isolated, lives_are_apart, put_is_seen, stages_hold_their_own,
    worked_contexts,
};
pub use limits::{Configuration, Properties, PropertyEnd, ShortName};
pub use parts::{
    CallAnswer, Calls, Context, Contexts, Effect, EffectKind, ExchangeEntry, ExchangeView, Maps,
    Own, Plugin, Request, StageBuffer, Tick, VmContexts,
};
pub use roster::Roster;
