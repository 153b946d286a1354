// What metrics came to, in the order in which it is told.
ghost use Rattle.std.specs.Prelude.{◌≡◌, ◌<◌, ◌≤◌, length, position, IfOk, IfSome, OnOk};
ghost use Rattle.std.specs.Cmp.Lexicographic.{slice_cmp};
ghost use Rattle.std.specs.Ordering.{is_lt, nat_cmp};
ghost use Rattle.metric_lines.specs.Totals.{comes_before, in_order, place_for, put_in, totals_of_all};

use gate_base::{Octets, OutOfMemory};
use metric_seats::MetricsClosed;
use std::alloc::Global;
use store_model::MetricKind;

/// What a metric came to.
#[derive(Drop)]
pub struct MetricTotal {
    pub kind: MetricKind,
    pub name: Octets,
    /// The sum of all workers' words, modulo 2^64.
    pub total: u64,
}

/// What the metrics of a VM name came to: counters first, and those of one kind by the bytes of their names.
pub fn metric_totals(alloc: Global, closed: &MetricsClosed) -> Result<Vec<MetricTotal>, OutOfMemory>
    ensures { IfOk result (λ told. told.items ≡ in_order (totals_of_all closed.now)) }
{
    let names = closed.names.names();
    let mut told = Vec::with_capacity(alloc, names.len())?;
    for place in 0..names.len() {
        let metric = &names[place];
        let total = MetricTotal {
            kind: metric.kind,
            name: metric.name.copy(alloc)?,
            total: closed.total(metric.kind, place as u32 + 1),
        };
        put(&mut told, total)?;
    }
    Ok(told)
}

/// Puts a metric at its place among others.
fn put(told: &mut Vec<MetricTotal>, metric: MetricTotal) -> Result<(), OutOfMemory>
    ensures { OnOk result (told.new.items ≡ put_in metric told.old.items) }
{
    let at = place(told.as_slice(), &metric);
    told.insert(at, metric)?;
    Ok(())
}

/// The place of the first that comes after a metric, or the end.
fn place(told: &[MetricTotal], metric: &MetricTotal) -> usize
    ensures place { result ≡ place_for metric.now told.now }
    ensures within { result ≤ length told.now }
{
    match first_after(told, metric) {
        Some(at) => at,
        None => told.len(),
    }
}

/// The place of the first that comes after a metric, if there is one.
fn first_after(told: &[MetricTotal], metric: &MetricTotal) -> Option<usize>
    ensures place { result ≡ position (comes_before metric.now) told.now }
    ensures within { IfSome result (λ at. at < length told.now) }
{
    told.iter().position(|other| is_before(metric, other))
}

/// Whether a metric is told before another.
fn is_before(metric: &MetricTotal, other: &MetricTotal) -> bool
    ensures { result ≡ comes_before metric.now other.now }
{
    let lesser = is_lesser(metric.name.as_slice(), other.name.as_slice());
    match (metric.kind, other.kind) {
        (MetricKind::Counter, MetricKind::Gauge) => true,
        (MetricKind::Gauge, MetricKind::Counter) => false,
        (MetricKind::Counter, MetricKind::Counter) | (MetricKind::Gauge, MetricKind::Gauge) => {
            lesser
        }
    }
}

/// Whether the bytes of a name come before those of another.
fn is_lesser(name: &[u8], other: &[u8]) -> bool
    ensures { result ≡ is_lt (slice_cmp nat_cmp name.now other.now) }
{
    name.cmp(other).is_lt()
}
