//! The host calls on the log, the clock, ticks, contexts, callouts, properties, shared data, queues and metrics, and those of WASI.
#![tactic(auto)]

mod callouts;
mod data;
mod files;
mod laws;
mod local;
mod logging;
mod metrics;
mod properties;
mod queues;
mod wasi;

pub use callouts::proxy_http_call;
pub use data::{proxy_get_shared_data, proxy_set_shared_data};
pub use files::wasi_fd_write;
pub use laws::worked_services;
pub use local::{
    proxy_done, proxy_get_current_time_nanoseconds, proxy_get_log_level,
    proxy_set_effective_context, proxy_set_tick_period_milliseconds,
};
pub use logging::proxy_log;
pub use metrics::{
    proxy_define_metric, proxy_get_metric, proxy_increment_metric, proxy_record_metric,
};
pub use properties::{proxy_get_property, proxy_set_property};
pub use queues::{
    proxy_dequeue_shared_queue, proxy_enqueue_shared_queue, proxy_register_shared_queue,
    proxy_resolve_shared_queue,
};
pub use wasi::{
    wasi_args_get, wasi_args_sizes_get, wasi_clock_time_get, wasi_environ_get,
    wasi_environ_sizes_get, wasi_random_get,
};
