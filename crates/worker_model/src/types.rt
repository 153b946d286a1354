// What is said between the parts of a worker.
use callouts::CallStep;
use exchange::{Exchange, Filter};
use filter_chain::{Ask, Chain, ChainItem};
use gate_base::{ContextId, LineNo, Octets, QueueId, VmNo};
use gate_config::Config;
use gate_io::What;
use gate_queue::Queue;
use h1_stream::MessageReader;
use header_maps::HeaderList;

/// Which bodies a plug-in filters: whether its VM's module exports the callbacks for them.
#[derive(Clone, Copy)]
pub struct Bodies {
    pub requests: bool,
    pub responses: bool,
}

/// What a worker goes by, which never changes: its configuration; which bodies each plug-in filters, by its place; and whether each VM is
/// told of the items of queues that it registered.
#[derive(Drop)]
pub struct Rules {
    pub config: Config,
    pub bodies: Queue<Bodies>,
    pub registers: Queue<bool>,
}

/// An open line: what has come from its client, and the exchange that is open on it.
#[derive(Drop)]
pub struct Line {
    pub number: LineNo,
    pub requests: MessageReader,
    /// Its client is gone.
    pub is_gone: bool,
    pub exchange: Option<Exchange>,
}

/// A line that was looked for last, if any, and the place where it stands.
#[derive(Clone, Copy)]
pub struct Seen {
    pub number: LineNo,
    pub place: usize,
}

/// What a line wants where nothing waits for its peers: whether bytes of its client and of its server are taken, and when its response is due.
#[derive(Clone, Copy)]
pub struct Wish {
    pub number: LineNo,
    pub down: bool,
    pub up: bool,
    pub due: Option<u64>,
}

/// A side of a line that is being read, and what was read of it.
#[derive(Drop)]
pub struct ReadBatch {
    pub line: LineNo,
    /// It is the server's.
    pub up: bool,
    pub batch: Queue<ChainItem>,
}

/// A context of a VM.
#[derive(Clone, Copy)]
pub struct ContextAt {
    pub vm: VmNo,
    pub context: ContextId,
}

/// An open line whose connections are streams of bytes.
#[derive(Drop)]
pub struct TcpLine {
    pub number: LineNo,
    /// In the order of the list.
    pub filters: Queue<Filter>,
    /// From the client to the server, and back.
    pub down: Chain,
    pub up: Chain,
    /// Its stages were made.
    pub is_entered: bool,
    /// A connection was opened to the server, which is done when New leaves.
    pub is_up: bool,
    /// Which peers sent their last byte, or are gone or refused.
    pub down_ended: bool,
    pub up_ended: bool,
    /// The client's connection is gone.
    pub is_gone: bool,
    /// The end of the connection has come.
    pub has_ended: bool,
}

/// What is done on a line whose connections are streams of bytes.
#[derive(Clone, Copy)]
pub enum TcpStep {
    /// The context of a filter is made.
    Create { line: LineNo, at: usize },
    /// The stages are made, and New comes.
    Enter { line: LineNo },
    /// A filter is told of the end of the connection to the server, and which side ended it.
    UpClose { of: ContextAt, peer: u32 },
    /// A filter is told of the end of the connection of the client.
    DownClose { of: ContextAt, peer: u32 },
    /// The connection of the client is closed.
    Close { line: LineNo },
}

/// What is done for other connections than those of HTTP exchanges.
#[derive(Drop)]
pub enum OtherStep {
    /// For a callout.
    Call { step: CallStep },
    /// On a line whose connections are streams of bytes.
    Tcp { step: TcpStep },
}

/// One thing that is to be done once the chains are at rest.
#[derive(Drop)]
pub enum Job {
    /// A VM begins.
    Begin {
        vm: VmNo,
    },
    /// The root of a plug-in is made, the first one of its VM or a further one.
    Root {
        vm: VmNo,
        plugin: usize,
        first: bool,
    },
    /// A VM starts.
    Start {
        vm: VmNo,
        root: ContextId,
    },
    /// A plug-in is configured.
    Configure {
        vm: VmNo,
        root: ContextId,
        plugin: usize,
    },
    /// A root is called that is due.
    Tick {
        vm: VmNo,
        root: ContextId,
    },
    /// Responses that are due are answered for.
    Expire,
    /// The event happens.
    Happen {
        what: What,
    },
    /// The context of a filter is made, by its place among the filters of the exchange.
    Create {
        line: LineNo,
        at: usize,
    },
    /// The stages of the exchange are made.
    Enter {
        line: LineNo,
    },
    /// What was read comes to a chain.
    Put {
        line: LineNo,
        response: bool,
        items: Queue<ChainItem>,
    },
    /// What was read is refused.
    Refuse {
        line: LineNo,
        status: u16,
    },
    /// A context is done with.
    Done {
        of: ContextAt,
    },
    Log {
        of: ContextAt,
    },
    Delete {
        of: ContextAt,
    },
    /// After an exchange the line stays open, or is closed.
    Close {
        line: LineNo,
        stays: bool,
    },
    /// Notices are taken, so many at most.
    Notice {
        vm: VmNo,
        left: u8,
    },
    /// A root is told of an item in a queue.
    Ready {
        vm: VmNo,
        root: ContextId,
        queue: QueueId,
    },
    /// Something is done for other connections than those of HTTP exchanges.
    Other {
        step: OtherStep,
    },
}

/// What a worker does next.
#[derive(Clone, Copy)]
pub enum Next {
    Read,
    Move { place: usize },
    Work,
    Free { at: usize },
    End { place: usize },
    Begin,
    Rest,
}

/// Whose callback it is: of a stage, by its context and direction, or of none.
#[derive(Clone, Copy)]
pub enum Owner {
    Nobody,
    Stage { context: ContextId, response: bool },
}

/// What is done to an exchange.
#[derive(Drop)]
pub enum Change {
    Resume {
        vm: VmNo,
        context: ContextId,
        response: bool,
    },
    Close,
    Answer {
        status: u16,
        fields: HeaderList,
        body: Octets,
    },
    Act {
        response: bool,
        stage: usize,
        value: u32,
    },
    Refuse {
        status: u16,
    },
    Put {
        response: bool,
        items: Queue<ChainItem>,
    },
}

/// A stage that is asked: its VM, its context and direction, the number of its line, what it is asked, and how many pairs or bytes there are.
#[derive(Clone, Copy)]
pub struct Asked {
    pub vm: VmNo,
    pub context: ContextId,
    pub response: bool,
    pub line: LineNo,
    pub ask: Ask,
    pub count: u32,
}

/// The context of a filter that is made, and its root.
#[derive(Clone, Copy)]
pub struct NewContext {
    pub vm: VmNo,
    pub context: ContextId,
    pub root: ContextId,
}

/// How a turn ended.
#[derive(Clone, Copy)]
pub enum Turn {
    /// An event was taken.
    Went,
    /// The event was Stop.
    Stopped,
    /// The world failed, and gave no event.
    WorldFault,
    /// Memory ran out. The worker is to be used no more.
    OutOfMemory,
}
