// The table of host calls: their names, and what their parameters are for.

ghost use Rattle.std.specs.Prelude.{◌≡◌, bytes_eq};
ghost use Rattle.std.specs.List.{find};
ghost use Rattle.abi_model.specs.Table.{name_of, row_of, all_calls, call_named, wasi_name_of, wasi_row_of, all_wasi_calls, wasi_call_named};

/// What a parameter of a host call is for.
#[derive(Clone, Copy)]
pub enum Param {
    /// A number.
    Number,
    /// A number of 64 bits.
    Wide,
    /// Two parameters: where bytes begin, and how many they are.
    Input,
    /// Where a result of four bytes goes.
    Result,
    /// Where a result of eight bytes goes.
    WideResult,
    /// Two parameters: where bytes are written, and how many they are.
    Output,
}

/// A call of the host of the module `env` that does something.
#[derive(Clone, Copy)]
pub enum HostCall {
    Log,
    GetLogLevel,
    GetCurrentTimeNanoseconds,
    SetTickPeriodMilliseconds,
    SetEffectiveContext,
    Done,
    GetBufferBytes,
    GetBufferStatus,
    SetBufferBytes,
    GetHeaderMapPairs,
    SetHeaderMapPairs,
    GetHeaderMapSize,
    GetHeaderMapValue,
    AddHeaderMapValue,
    ReplaceHeaderMapValue,
    RemoveHeaderMapValue,
    ContinueStream,
    CloseStream,
    SendLocalResponse,
    HttpCall,
    GetSharedData,
    SetSharedData,
    RegisterSharedQueue,
    ResolveSharedQueue,
    DequeueSharedQueue,
    EnqueueSharedQueue,
    GetProperty,
    SetProperty,
    DefineMetric,
    IncrementMetric,
    RecordMetric,
    GetMetric,
}

/// All of them.
const ALL_CALLS: [HostCall; 32] = [
    HostCall::Log,
    HostCall::GetLogLevel,
    HostCall::GetCurrentTimeNanoseconds,
    HostCall::SetTickPeriodMilliseconds,
    HostCall::SetEffectiveContext,
    HostCall::Done,
    HostCall::GetBufferBytes,
    HostCall::GetBufferStatus,
    HostCall::SetBufferBytes,
    HostCall::GetHeaderMapPairs,
    HostCall::SetHeaderMapPairs,
    HostCall::GetHeaderMapSize,
    HostCall::GetHeaderMapValue,
    HostCall::AddHeaderMapValue,
    HostCall::ReplaceHeaderMapValue,
    HostCall::RemoveHeaderMapValue,
    HostCall::ContinueStream,
    HostCall::CloseStream,
    HostCall::SendLocalResponse,
    HostCall::HttpCall,
    HostCall::GetSharedData,
    HostCall::SetSharedData,
    HostCall::RegisterSharedQueue,
    HostCall::ResolveSharedQueue,
    HostCall::DequeueSharedQueue,
    HostCall::EnqueueSharedQueue,
    HostCall::GetProperty,
    HostCall::SetProperty,
    HostCall::DefineMetric,
    HostCall::IncrementMetric,
    HostCall::RecordMetric,
    HostCall::GetMetric,
];

/// The name of a call.
pub fn call_name(call: HostCall) -> &'static [u8]
    ensures { result.now ≡ name_of call }
{
    match call {
        HostCall::Log => b"proxy_log",
        HostCall::GetLogLevel => b"proxy_get_log_level",
        HostCall::GetCurrentTimeNanoseconds => b"proxy_get_current_time_nanoseconds",
        HostCall::SetTickPeriodMilliseconds => b"proxy_set_tick_period_milliseconds",
        HostCall::SetEffectiveContext => b"proxy_set_effective_context",
        HostCall::Done => b"proxy_done",
        HostCall::GetBufferBytes => b"proxy_get_buffer_bytes",
        HostCall::GetBufferStatus => b"proxy_get_buffer_status",
        HostCall::SetBufferBytes => b"proxy_set_buffer_bytes",
        HostCall::GetHeaderMapPairs => b"proxy_get_header_map_pairs",
        HostCall::SetHeaderMapPairs => b"proxy_set_header_map_pairs",
        HostCall::GetHeaderMapSize => b"proxy_get_header_map_size",
        HostCall::GetHeaderMapValue => b"proxy_get_header_map_value",
        HostCall::AddHeaderMapValue => b"proxy_add_header_map_value",
        HostCall::ReplaceHeaderMapValue => b"proxy_replace_header_map_value",
        HostCall::RemoveHeaderMapValue => b"proxy_remove_header_map_value",
        HostCall::ContinueStream => b"proxy_continue_stream",
        HostCall::CloseStream => b"proxy_close_stream",
        HostCall::SendLocalResponse => b"proxy_send_local_response",
        HostCall::HttpCall => b"proxy_http_call",
        HostCall::GetSharedData => b"proxy_get_shared_data",
        HostCall::SetSharedData => b"proxy_set_shared_data",
        HostCall::RegisterSharedQueue => b"proxy_register_shared_queue",
        HostCall::ResolveSharedQueue => b"proxy_resolve_shared_queue",
        HostCall::DequeueSharedQueue => b"proxy_dequeue_shared_queue",
        HostCall::EnqueueSharedQueue => b"proxy_enqueue_shared_queue",
        HostCall::GetProperty => b"proxy_get_property",
        HostCall::SetProperty => b"proxy_set_property",
        HostCall::DefineMetric => b"proxy_define_metric",
        HostCall::IncrementMetric => b"proxy_increment_metric",
        HostCall::RecordMetric => b"proxy_record_metric",
        HostCall::GetMetric => b"proxy_get_metric",
    }
}

/// The parameters of a call.
pub fn call_row(call: HostCall) -> &'static [Param]
    ensures { result.now ≡ row_of call }
{
    match call {
        HostCall::Log => &[Param::Number, Param::Input],
        HostCall::GetLogLevel => &[Param::Result],
        HostCall::GetCurrentTimeNanoseconds => &[Param::WideResult],
        HostCall::SetTickPeriodMilliseconds => &[Param::Number],
        HostCall::SetEffectiveContext => &[Param::Number],
        HostCall::Done => &[],
        HostCall::GetBufferBytes => &[
            Param::Number,
            Param::Number,
            Param::Number,
            Param::Result,
            Param::Result,
        ],
        HostCall::GetBufferStatus => &[Param::Number, Param::Result, Param::Result],
        HostCall::SetBufferBytes => &[Param::Number, Param::Number, Param::Number, Param::Input],
        HostCall::GetHeaderMapPairs => &[Param::Number, Param::Result, Param::Result],
        HostCall::SetHeaderMapPairs => &[Param::Number, Param::Input],
        HostCall::GetHeaderMapSize => &[Param::Number, Param::Result],
        HostCall::GetHeaderMapValue => &[Param::Number, Param::Input, Param::Result, Param::Result],
        HostCall::AddHeaderMapValue => &[Param::Number, Param::Input, Param::Input],
        HostCall::ReplaceHeaderMapValue => &[Param::Number, Param::Input, Param::Input],
        HostCall::RemoveHeaderMapValue => &[Param::Number, Param::Input],
        HostCall::ContinueStream => &[Param::Number],
        HostCall::CloseStream => &[Param::Number],
        HostCall::SendLocalResponse => &[
            Param::Number,
            Param::Input,
            Param::Input,
            Param::Input,
            Param::Number,
        ],
        HostCall::HttpCall => &[
            Param::Input,
            Param::Input,
            Param::Input,
            Param::Input,
            Param::Number,
            Param::Result,
        ],
        HostCall::GetSharedData => &[Param::Input, Param::Result, Param::Result, Param::Result],
        HostCall::SetSharedData => &[Param::Input, Param::Input, Param::Number],
        HostCall::RegisterSharedQueue => &[Param::Input, Param::Result],
        HostCall::ResolveSharedQueue => &[Param::Input, Param::Input, Param::Result],
        HostCall::DequeueSharedQueue => &[Param::Number, Param::Result, Param::Result],
        HostCall::EnqueueSharedQueue => &[Param::Number, Param::Input],
        HostCall::GetProperty => &[Param::Input, Param::Result, Param::Result],
        HostCall::SetProperty => &[Param::Input, Param::Input],
        HostCall::DefineMetric => &[Param::Number, Param::Input, Param::Result],
        HostCall::IncrementMetric => &[Param::Number, Param::Wide],
        HostCall::RecordMetric => &[Param::Number, Param::Wide],
        HostCall::GetMetric => &[Param::Number, Param::WideResult],
    }
}

/// Whether that is the name of a call.
fn is_call_named(call: HostCall, text: &[u8]) -> bool
    ensures { result ≡ bytes_eq (name_of call) text.now }
{
    call_name(call) == text
}

/// The first of some calls that has a name.
fn find_call(calls: &[HostCall], text: &[u8]) -> Option<HostCall>
    ensures { result ≡ find (λ c. bytes_eq (name_of c) text.now) calls.now }
{
    match calls.split_first() {
        None => None,
        Some((c, rest)) => {
            if is_call_named(*c, text) {
                Some(*c)
            } else {
                find_call(rest, text)
            }
        }
    }
}

/// The call of a name.
pub fn call_named(text: &[u8]) -> Option<HostCall>
    ensures { result ≡ call_named text.now }
{
    find_call(&ALL_CALLS, text)
}

/// A call of the host of the WASI modules that does something.
#[derive(Clone, Copy)]
pub enum WasiCall {
    FdWrite,
    ClockTimeGet,
    RandomGet,
    EnvironGet,
    ArgsGet,
    EnvironSizesGet,
    ArgsSizesGet,
    ProcExit,
}

/// All of them.
const ALL_WASI_CALLS: [WasiCall; 8] = [
    WasiCall::FdWrite,
    WasiCall::ClockTimeGet,
    WasiCall::RandomGet,
    WasiCall::EnvironGet,
    WasiCall::ArgsGet,
    WasiCall::EnvironSizesGet,
    WasiCall::ArgsSizesGet,
    WasiCall::ProcExit,
];

/// The name of a call.
pub fn wasi_call_name(call: WasiCall) -> &'static [u8]
    ensures { result.now ≡ wasi_name_of call }
{
    match call {
        WasiCall::FdWrite => b"fd_write",
        WasiCall::ClockTimeGet => b"clock_time_get",
        WasiCall::RandomGet => b"random_get",
        WasiCall::EnvironGet => b"environ_get",
        WasiCall::ArgsGet => b"args_get",
        WasiCall::EnvironSizesGet => b"environ_sizes_get",
        WasiCall::ArgsSizesGet => b"args_sizes_get",
        WasiCall::ProcExit => b"proc_exit",
    }
}

/// The parameters of a call.
pub fn wasi_call_row(call: WasiCall) -> &'static [Param]
    ensures { result.now ≡ wasi_row_of call }
{
    match call {
        WasiCall::FdWrite => &[Param::Number, Param::Number, Param::Number, Param::Result],
        WasiCall::ClockTimeGet => &[Param::Number, Param::Wide, Param::WideResult],
        WasiCall::RandomGet => &[Param::Output],
        WasiCall::EnvironGet => &[Param::Number, Param::Number],
        WasiCall::ArgsGet => &[Param::Number, Param::Number],
        WasiCall::EnvironSizesGet => &[Param::Result, Param::Result],
        WasiCall::ArgsSizesGet => &[Param::Result, Param::Result],
        WasiCall::ProcExit => &[Param::Number],
    }
}

/// Whether that is the name of a call.
fn is_wasi_call_named(call: WasiCall, text: &[u8]) -> bool
    ensures { result ≡ bytes_eq (wasi_name_of call) text.now }
{
    wasi_call_name(call) == text
}

/// The first of some calls that has a name.
fn find_wasi_call(calls: &[WasiCall], text: &[u8]) -> Option<WasiCall>
    ensures { result ≡ find (λ c. bytes_eq (wasi_name_of c) text.now) calls.now }
{
    match calls.split_first() {
        None => None,
        Some((c, rest)) => {
            if is_wasi_call_named(*c, text) {
                Some(*c)
            } else {
                find_wasi_call(rest, text)
            }
        }
    }
}

/// The call of a name.
pub fn wasi_call_named(text: &[u8]) -> Option<WasiCall>
    ensures { result ≡ wasi_call_named text.now }
{
    find_wasi_call(&ALL_WASI_CALLS, text)
}
