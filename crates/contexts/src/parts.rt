// What contexts are made of: plain data, which clauses see as records.

use crate::{Configuration, Properties, Roster, ShortName};
use body_buffers::Body;
use gate_base::{ContextId, Level, LineNo, Members, Octets, VmNo};
use header_maps::HeaderList;

/// What a stage of a filter holds: the buffer of its direction.
#[derive(Drop)]
pub struct StageBuffer {
    /// The bytes held.
    pub held: Body,
    /// Its body callback runs.
    pub is_asked: bool,
    /// The end of the body came with them.
    pub has_end: bool,
}

/// What came back for a callout.
#[derive(Drop)]
pub struct CallAnswer {
    pub fields: HeaderList,
    pub body: Body,
    pub trailers: HeaderList,
}

/// What a context has for itself.
#[derive(Drop)]
pub struct Own {
    /// Of the direction from the client.
    pub request: StageBuffer,
    /// Of the direction from the upstream.
    pub response: StageBuffer,
    pub properties: Properties,
    /// What came back for the callout of which it is told, while that callback runs.
    pub answer: Option<CallAnswer>,
}

/// When a root is to be called, and how often, in nanoseconds.
#[derive(Clone, Copy)]
pub struct Tick {
    pub period: u64,
    pub due: u64,
}

/// One context. A root is its own root and is of no exchange; a stream is of one.
#[derive(Drop)]
pub struct Context {
    pub id: ContextId,
    /// Its plug-in, by its place.
    pub plugin: u16,
    /// Its root's id.
    pub root: ContextId,
    /// Its exchange, by its place.
    pub exchange: Option<usize>,
    pub own: Own,
    /// Of a root that set one.
    pub tick: Option<Tick>,
}

/// The maps of an exchange, each from the arrival of its item on.
#[derive(Drop)]
pub struct Maps {
    pub request: Option<HeaderList>,
    pub request_trailers: Option<HeaderList>,
    pub response: Option<HeaderList>,
    pub response_trailers: Option<HeaderList>,
}

/// What the contexts of one exchange have in common.
#[derive(Drop)]
pub struct ExchangeView {
    pub maps: Maps,
    /// A local response was asked for in the callback that runs.
    pub is_answering: bool,
    /// It was answered.
    pub is_answered: bool,
    /// It has ended.
    pub has_ended: bool,
    /// Its response head went out.
    pub is_head_out: bool,
}

/// An exchange, on its line.
#[derive(Drop)]
pub struct ExchangeEntry {
    pub line: LineNo,
    pub view: ExchangeView,
}

/// A plug-in, and its root context once that was made.
#[derive(Drop)]
pub struct Plugin {
    pub name: ShortName,
    pub configuration: Configuration,
    pub vm: VmNo,
    pub root: Option<ContextId>,
}

/// A request of a filter's own, which goes to the upstream.
#[derive(Drop)]
pub struct Request {
    pub vm: VmNo,
    pub context: ContextId,
    pub fields: HeaderList,
    pub body: Body,
    pub trailers: HeaderList,
    pub timeout_ms: u32,
}

/// How many callouts are under way, and the last id that was drawn for one.
#[derive(Clone, Copy)]
pub struct Calls {
    pub under_way: u32,
    pub last: u32,
}

/// What a callback asks for, which comes when it has returned.
#[derive(Drop)]
pub enum EffectKind {
    /// The stage of this direction passes on what it holds.
    Continue {
        is_response: bool,
    },
    /// Both connections of the exchange are closed.
    Close,
    /// A local response.
    Answer {
        status: u16,
        fields: HeaderList,
        body: Octets,
    },
    /// A callout.
    Call {
        request: Request,
    },
}

/// An effect, with the context that was effective.
#[derive(Drop)]
pub struct Effect {
    pub context: ContextId,
    pub what: EffectKind,
}

/// The contexts of one VM.
#[derive(Drop)]
pub struct VmContexts {
    pub name: ShortName,
    pub configuration: Configuration,
    /// The id of the effective context; 0 before the first.
    pub effective: ContextId,
    /// The last id that was drawn; 0 before the first.
    pub last: ContextId,
    /// The ids of those whose done answered 0, which wait for `proxy_done`.
    pub waiting: Roster<ContextId>,
    pub contexts: Roster<Context>,
}

/// The contexts of all VMs of a worker, with what they stand on.
#[derive(Drop)]
pub struct Contexts {
    /// The least level of log lines that are sent.
    pub level: Level,
    pub plugins: Members<Plugin>,
    pub vms: Members<VmContexts>,
    /// By their places; none where a place is free.
    pub exchanges: Members<Option<ExchangeEntry>>,
    /// Of the callback that runs, in the order of the calls.
    pub effects: Members<Effect>,
    /// The key of the random stream, and the number of the next word in it.
    pub random_key: [u8; 32],
    pub random_place: u64,
    pub calls: Calls,
    /// Its lines are streams of bytes, and not HTTP.
    pub is_tcp: bool,
}
