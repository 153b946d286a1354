//! The functions that a filter's module may export for the gateway (the profile's table of exports).

ghost use Rattle.std.specs.Prelude.{◌≡◌, ◌<◌, ◌≤◌, bytes_eq, length};
ghost use Rattle.std.specs.List.{find};
ghost use Rattle.vm_host.specs.Roles.{role_name as name_of, role_row as row_of, gives_number as gives_of, role_named as named_of, place_of as place_in};

use abi_model::Param;

/// A function that a filter's module may export for the gateway.
#[derive(Clone, Copy)]
pub enum Role {
    /// `_initialize`.
    Initialize,
    /// `_start`.
    Start,
    /// `proxy_on_memory_allocate`.
    MemoryAllocate,
    /// `malloc`.
    Malloc,
    /// `proxy_on_context_create`.
    ContextCreate,
    /// `proxy_on_vm_start`.
    VmStart,
    /// `proxy_on_configure`.
    Configure,
    /// `proxy_on_tick`.
    Tick,
    /// `proxy_on_log`.
    Log,
    /// `proxy_on_delete`.
    Delete,
    /// `proxy_on_queue_ready`.
    QueueReady,
    /// `proxy_on_request_headers`.
    RequestHeaders,
    /// `proxy_on_response_headers`.
    ResponseHeaders,
    /// `proxy_on_request_body`.
    RequestBody,
    /// `proxy_on_response_body`.
    ResponseBody,
    /// `proxy_on_request_trailers`.
    RequestTrailers,
    /// `proxy_on_response_trailers`.
    ResponseTrailers,
    /// `proxy_on_done`.
    Done,
    /// `proxy_on_http_call_response`.
    CallAnswered,
    /// `proxy_on_new_connection`.
    NewConnection,
    /// `proxy_on_downstream_data`.
    DownstreamData,
    /// `proxy_on_upstream_data`.
    UpstreamData,
    /// `proxy_on_downstream_connection_close`.
    DownstreamClose,
    /// `proxy_on_upstream_connection_close`.
    UpstreamClose,
}

/// How many there are.
pub const ROLE_COUNT: usize = 24;

/// All of them.
pub const ROLES: [Role; 24] = [
    Role::Initialize,
    Role::Start,
    Role::MemoryAllocate,
    Role::Malloc,
    Role::ContextCreate,
    Role::VmStart,
    Role::Configure,
    Role::Tick,
    Role::Log,
    Role::Delete,
    Role::QueueReady,
    Role::RequestHeaders,
    Role::ResponseHeaders,
    Role::RequestBody,
    Role::ResponseBody,
    Role::RequestTrailers,
    Role::ResponseTrailers,
    Role::Done,
    Role::CallAnswered,
    Role::NewConnection,
    Role::DownstreamData,
    Role::UpstreamData,
    Role::DownstreamClose,
    Role::UpstreamClose,
];

/// The name under which it is exported.
pub fn role_name(role: Role) -> &'static [u8]
    ensures { result.now ≡ name_of role }
{
    match role {
        Role::Initialize => b"_initialize",
        Role::Start => b"_start",
        Role::MemoryAllocate => b"proxy_on_memory_allocate",
        Role::Malloc => b"malloc",
        Role::ContextCreate => b"proxy_on_context_create",
        Role::VmStart => b"proxy_on_vm_start",
        Role::Configure => b"proxy_on_configure",
        Role::Tick => b"proxy_on_tick",
        Role::Log => b"proxy_on_log",
        Role::Delete => b"proxy_on_delete",
        Role::QueueReady => b"proxy_on_queue_ready",
        Role::RequestHeaders => b"proxy_on_request_headers",
        Role::ResponseHeaders => b"proxy_on_response_headers",
        Role::RequestBody => b"proxy_on_request_body",
        Role::ResponseBody => b"proxy_on_response_body",
        Role::RequestTrailers => b"proxy_on_request_trailers",
        Role::ResponseTrailers => b"proxy_on_response_trailers",
        Role::Done => b"proxy_on_done",
        Role::CallAnswered => b"proxy_on_http_call_response",
        Role::NewConnection => b"proxy_on_new_connection",
        Role::DownstreamData => b"proxy_on_downstream_data",
        Role::UpstreamData => b"proxy_on_upstream_data",
        Role::DownstreamClose => b"proxy_on_downstream_connection_close",
        Role::UpstreamClose => b"proxy_on_upstream_connection_close",
    }
}

/// What it takes.
pub fn role_row(role: Role) -> &'static [Param]
    ensures row { result.now ≡ row_of role }
    ensures short { length result.now ≤ 5 }
{
    match role {
        Role::Initialize => &[],
        Role::Start => &[],
        Role::MemoryAllocate => &[Param::Number],
        Role::Malloc => &[Param::Number],
        Role::ContextCreate => &[Param::Number, Param::Number],
        Role::VmStart => &[Param::Number, Param::Number],
        Role::Configure => &[Param::Number, Param::Number],
        Role::Tick => &[Param::Number],
        Role::Log => &[Param::Number],
        Role::Delete => &[Param::Number],
        Role::QueueReady => &[Param::Number, Param::Number],
        Role::RequestHeaders => &[Param::Number, Param::Number, Param::Number],
        Role::ResponseHeaders => &[Param::Number, Param::Number, Param::Number],
        Role::RequestBody => &[Param::Number, Param::Number, Param::Number],
        Role::ResponseBody => &[Param::Number, Param::Number, Param::Number],
        Role::RequestTrailers => &[Param::Number, Param::Number],
        Role::ResponseTrailers => &[Param::Number, Param::Number],
        Role::Done => &[Param::Number],
        Role::CallAnswered => &[
            Param::Number,
            Param::Number,
            Param::Number,
            Param::Number,
            Param::Number,
        ],
        Role::NewConnection => &[Param::Number],
        Role::DownstreamData => &[Param::Number, Param::Number, Param::Number],
        Role::UpstreamData => &[Param::Number, Param::Number, Param::Number],
        Role::DownstreamClose => &[Param::Number, Param::Number],
        Role::UpstreamClose => &[Param::Number, Param::Number],
    }
}

/// Whether it gives a number; else it gives nothing.
pub fn gives_number(role: Role) -> bool
    ensures { result ≡ gives_of role }
{
    match role {
        Role::MemoryAllocate
        | Role::Malloc
        | Role::VmStart
        | Role::Configure
        | Role::RequestHeaders
        | Role::ResponseHeaders
        | Role::RequestBody
        | Role::ResponseBody
        | Role::RequestTrailers
        | Role::ResponseTrailers
        | Role::Done
        | Role::NewConnection
        | Role::DownstreamData
        | Role::UpstreamData => true,
        Role::Initialize
        | Role::Start
        | Role::ContextCreate
        | Role::Tick
        | Role::Log
        | Role::Delete
        | Role::QueueReady
        | Role::CallAnswered
        | Role::DownstreamClose
        | Role::UpstreamClose => false,
    }
}

/// Its place among all of them.
pub fn role_place(role: Role) -> usize
    ensures is { result ≡ place_in role }
    ensures there { result < 24 }
{
    match role {
        Role::Initialize => 0,
        Role::Start => 1,
        Role::MemoryAllocate => 2,
        Role::Malloc => 3,
        Role::ContextCreate => 4,
        Role::VmStart => 5,
        Role::Configure => 6,
        Role::Tick => 7,
        Role::Log => 8,
        Role::Delete => 9,
        Role::QueueReady => 10,
        Role::RequestHeaders => 11,
        Role::ResponseHeaders => 12,
        Role::RequestBody => 13,
        Role::ResponseBody => 14,
        Role::RequestTrailers => 15,
        Role::ResponseTrailers => 16,
        Role::Done => 17,
        Role::CallAnswered => 18,
        Role::NewConnection => 19,
        Role::DownstreamData => 20,
        Role::UpstreamData => 21,
        Role::DownstreamClose => 22,
        Role::UpstreamClose => 23,
    }
}

/// Whether that is its name.
fn has_name(role: Role, text: &[u8]) -> bool
    ensures { result ≡ bytes_eq (name_of role) text.now }
{
    role_name(role) == text
}

/// The first of some that has a name.
fn find_role(roles: &[Role], text: &[u8]) -> Option<Role>
    ensures { result ≡ find (λ r. bytes_eq (name_of r) text.now) roles.now }
{
    match roles.split_first() {
        None => None,
        Some((r, rest)) => {
            if has_name(*r, text) {
                Some(*r)
            } else {
                find_role(rest, text)
            }
        }
    }
}

/// The one of a name.
#[tactic(auto, unfolding(crate::specs::Roles::role_named))]
pub fn role_named(text: &[u8]) -> Option<Role>
    ensures { result ≡ named_of text.now }
{
    find_role(&ROLES, text)
}
