// What an exchange is, and what all exchanges of a worker have in common.

use contexts::Contexts;
use filter_chain::Chain;
use gate_base::{ContextId, VmNo};
use gate_io::Sent;
use gate_queue::Queue;
use h1_head::Length;
use h1_stream::MessageReader;
use header_maps::Texts;

/// What all lines of a worker have in common: the moment of the event, in nanoseconds since 1970; the contexts of all VMs, with the maps of
/// the exchanges and the bytes that their stages hold; and what is sent.
#[derive(Drop)]
pub struct Hub {
    pub moment: u64,
    pub contexts: Contexts,
    pub sent: Queue<Sent>,
}

/// What is kept of a request's head, as the client sent it.
#[derive(Clone, Copy)]
pub struct Request {
    /// Its client speaks HTTP/1.0.
    pub old_client: bool,
    /// Its Connection lists `close`.
    pub close: bool,
    /// Its method is HEAD.
    pub is_head: bool,
    /// Its minor version.
    pub minor: u8,
    /// The length of its body.
    pub length: Length,
    /// The number of its Content-Length.
    pub told: Option<u64>,
    /// Its end was read.
    pub whole: bool,
}

/// What is kept of the head of the response that goes down, as the server sent it, or as the gateway or a filter answered.
#[derive(Clone, Copy)]
pub struct Response {
    /// It answers a HEAD request.
    pub to_head: bool,
    /// Its status.
    pub status: Option<u16>,
    /// The length of its body.
    pub length: Length,
    /// The number of its Content-Length.
    pub told: Option<u64>,
}

/// One filter of an exchange.
#[derive(Clone, Copy)]
pub struct Filter {
    /// Its plug-in, by its place.
    pub plugin: u16,
    pub vm: VmNo,
    /// Messages pass it once its VM is dead.
    pub fails_open: bool,
    /// Its context was created; this is it then.
    pub created: bool,
    pub context: ContextId,
}

/// A request of a client and its response.
#[derive(Drop)]
pub struct Exchange {
    /// Its place among the exchanges of the contexts.
    pub place: usize,
    /// The filters of its route in order, but for those whose VM was dead.
    pub filters: Queue<Filter>,
    /// The stages that the request passes on its way up, and those that the response passes on its way down.
    pub request: Chain,
    pub response: Chain,
    /// A filter of its route exports the callback for bodies of requests, of responses.
    pub filters_requests: bool,
    pub filters_responses: bool,
    pub asked: Request,
    pub told: Response,
    /// The status that went down.
    pub out: Option<u16>,
    /// What comes from the server, once there is a connection up.
    pub reader: Option<MessageReader>,
    /// The moment at which the head of the response is due, if there is one.
    pub due: Option<u64>,
    /// The status that it is refused with before any filter sees it: no route takes it, or a VM of its route is dead.
    pub refusal: Option<u16>,
    /// It was sent up as a HEAD request.
    pub is_head_up: bool,
    /// The Connection fields of the request's head as it went up, and of the response's as it went down. No trailer goes out that
    /// they list.
    pub connection_up: Texts,
    pub connection_down: Texts,
    /// The whole response of the server was read.
    pub is_read: bool,
    /// Its stages were made, and what was read of the request was put into them.
    pub is_entered: bool,
    /// The final head of the server's response was read.
    pub is_headed: bool,
    /// It was answered by the gateway or a filter, and the answer passes its response stages.
    pub is_answered: bool,
    /// A response head went down.
    pub is_head_out: bool,
    /// Its end is due.
    pub has_ended: bool,
    /// The line stays open after it.
    pub stays: bool,
    /// Its answer closes the line, whatever the rule of persistence says.
    pub closes: bool,
}
