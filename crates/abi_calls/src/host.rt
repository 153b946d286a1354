// Any host call, by its name.
ghost use Rattle.std.specs.Prelude.{◌≡◌, ◌≤◌, ◌<◌, length};
ghost use Rattle.abi_types.specs.GuestAt.{Keeps, StillWaits};
ghost use Rattle.contexts.specs.Reached.{seen};
ghost use Rattle.abi_model.specs.Calls.{RestsAfterCall};
ghost use Rattle.abi_model.specs.Table.{Are, row_of};
ghost use Rattle.abi_calls.specs.Hosting.{hosting, HostedEnds};

use abi_maps::{
    proxy_add_header_map_value, proxy_close_stream, proxy_continue_stream, proxy_get_buffer_bytes,
    proxy_get_buffer_status, proxy_get_header_map_pairs, proxy_get_header_map_size,
    proxy_get_header_map_value, proxy_remove_header_map_value, proxy_replace_header_map_value,
    proxy_send_local_response, proxy_set_buffer_bytes, proxy_set_header_map_pairs,
};
use abi_model::{HostCall, HostEnd};
use abi_services::{
    proxy_define_metric, proxy_dequeue_shared_queue, proxy_done, proxy_enqueue_shared_queue,
    proxy_get_current_time_nanoseconds, proxy_get_log_level, proxy_get_metric, proxy_get_property,
    proxy_get_shared_data, proxy_http_call, proxy_increment_metric, proxy_log, proxy_record_metric,
    proxy_register_shared_queue, proxy_resolve_shared_queue, proxy_set_effective_context,
    proxy_set_property, proxy_set_shared_data, proxy_set_tick_period_milliseconds,
};
use abi_types::Guest;
use contexts::Contexts;
use gate_base::VmNo;
use gate_io::SentList;
use std::alloc::Global;
use store_model::Shared;

/// Makes the host call of a name of the module `env`. `now` is the event's moment.
pub fn host_call<G: Guest, S: Shared>(
    alloc: Global,
    call: HostCall,
    guest: &mut G,
    contexts: &mut Contexts,
    shared: &mut S,
    logs: &mut SentList,
    vm: VmNo,
    now: u64,
    args: &[u64],
) -> HostEnd
    requires rests { G.rests guest.old }
    requires vm { vm < length contexts.old.vms }
    requires stores { length contexts.old.vms ≤ S.stores shared.old }
    requires args { Are (row_of call) 0 args.now }
    ensures ends { HostedEnds S.performs shared.old (hosting call now vm args.now (G.at guest.old) (seen contexts.old vm)) vm contexts.old result (G.at guest.new) contexts.new logs.old logs.new shared.new }
    ensures rests { RestsAfterCall result (StillWaits (G.rests guest.new) (G.at guest.old) (G.at guest.new)) }
    ensures keeps { Keeps (G.at guest.old) (G.at guest.new) }
    ensures stores { S.stores shared.new ≡ S.stores shared.old }
{
    match call {
        HostCall::Log => proxy_log(alloc, guest, contexts, vm, logs, args),
        HostCall::GetLogLevel => proxy_get_log_level(alloc, guest, contexts, vm, args),
        HostCall::GetCurrentTimeNanoseconds => proxy_get_current_time_nanoseconds(
            alloc, guest, contexts, vm, now, args,
        ),
        HostCall::SetTickPeriodMilliseconds => proxy_set_tick_period_milliseconds(
            alloc, guest, contexts, vm, now, args,
        ),
        HostCall::SetEffectiveContext => proxy_set_effective_context(
            alloc, guest, contexts, vm, args,
        ),
        HostCall::Done => proxy_done(alloc, guest, contexts, vm, args),
        HostCall::GetBufferBytes => proxy_get_buffer_bytes(alloc, guest, contexts, vm, args),
        HostCall::GetBufferStatus => proxy_get_buffer_status(alloc, guest, contexts, vm, args),
        HostCall::SetBufferBytes => proxy_set_buffer_bytes(alloc, guest, contexts, vm, args),
        HostCall::GetHeaderMapPairs => proxy_get_header_map_pairs(alloc, guest, contexts, vm, args),
        HostCall::SetHeaderMapPairs => proxy_set_header_map_pairs(alloc, guest, contexts, vm, args),
        HostCall::GetHeaderMapSize => proxy_get_header_map_size(alloc, guest, contexts, vm, args),
        HostCall::GetHeaderMapValue => proxy_get_header_map_value(alloc, guest, contexts, vm, args),
        HostCall::AddHeaderMapValue => proxy_add_header_map_value(alloc, guest, contexts, vm, args),
        HostCall::ReplaceHeaderMapValue => proxy_replace_header_map_value(
            alloc, guest, contexts, vm, args,
        ),
        HostCall::RemoveHeaderMapValue => proxy_remove_header_map_value(
            alloc, guest, contexts, vm, args,
        ),
        HostCall::ContinueStream => proxy_continue_stream(alloc, guest, contexts, vm, args),
        HostCall::CloseStream => proxy_close_stream(alloc, guest, contexts, vm, args),
        HostCall::SendLocalResponse => proxy_send_local_response(alloc, guest, contexts, vm, args),
        HostCall::HttpCall => proxy_http_call(alloc, guest, contexts, vm, args),
        HostCall::GetSharedData => proxy_get_shared_data(alloc, guest, contexts, shared, vm, args),
        HostCall::SetSharedData => proxy_set_shared_data(alloc, guest, contexts, shared, vm, args),
        HostCall::RegisterSharedQueue => proxy_register_shared_queue(
            alloc, guest, contexts, shared, vm, args,
        ),
        HostCall::ResolveSharedQueue => proxy_resolve_shared_queue(
            alloc, guest, contexts, shared, vm, args,
        ),
        HostCall::DequeueSharedQueue => proxy_dequeue_shared_queue(
            alloc, guest, contexts, shared, vm, args,
        ),
        HostCall::EnqueueSharedQueue => proxy_enqueue_shared_queue(
            alloc, guest, contexts, shared, vm, args,
        ),
        HostCall::GetProperty => proxy_get_property(alloc, guest, contexts, vm, args),
        HostCall::SetProperty => proxy_set_property(alloc, guest, contexts, vm, args),
        HostCall::DefineMetric => proxy_define_metric(alloc, guest, contexts, shared, vm, args),
        HostCall::IncrementMetric => proxy_increment_metric(
            alloc, guest, contexts, shared, vm, args,
        ),
        HostCall::RecordMetric => proxy_record_metric(alloc, guest, contexts, shared, vm, args),
        HostCall::GetMetric => proxy_get_metric(alloc, guest, contexts, shared, vm, args),
    }
}
