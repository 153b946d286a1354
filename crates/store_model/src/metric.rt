// What a VM may ask of the metrics of its name, and what it is answered.
use gate_base::Octets;

/// The kind of a metric.
#[derive(Clone, Copy, PartialEq, Eq)]
pub enum MetricKind {
    /// It only rises, and stops below 2^64.
    Counter,
    /// It goes up and down, modulo 2^64.
    Gauge,
}

/// What a metric is: a kind and a name.
#[derive(Drop)]
pub struct MetricName {
    pub kind: MetricKind,
    pub name: Octets,
}

/// What one worker has of a metric.
#[derive(Clone, Copy, PartialEq, Eq)]
pub struct Share {
    /// Whether it got the id from a Define.
    pub knows: bool,
    /// Its own word.
    pub word: u64,
}

/// A metric of a VM name: a kind and a name, which together are what it is, and what each worker has of it.
#[derive(Drop)]
pub struct Metric {
    pub kind: MetricKind,
    pub name: Octets,
    /// The shares of workers 1 to 8, in order.
    pub shares: [Share; 8],
}

/// An ask of the metrics of a VM name.
#[derive(Drop)]
pub enum MetricAsk {
    /// The id of the metric of this kind and name, made where there is none.
    Define { kind: MetricKind, name: Octets },
    /// Adds to the caller's own word.
    Add { id: u32, by: i64 },
    /// Adds a value to the caller's own word of a counter, or makes it that of a gauge.
    Put { id: u32, value: u64 },
    /// The sum of all workers' words, modulo 2^64.
    Sum { id: u32 },
}

/// The answer to an ask of the metrics.
#[derive(Debug, Drop)]
pub enum MetricReply {
    /// There are no metrics here.
    NotBuilt,
    /// The caller never got this id from a Define.
    Unknown,
    /// A counter does not fall. Nothing changed.
    BadKind,
    /// A limit would be passed: of metrics, or of the caller's own word of a counter. Nothing changed.
    Full,
    /// The id of a metric, from 1.
    Id { id: u32 },
    /// It is done.
    Done,
    /// The sum of all workers' words, modulo 2^64.
    Total { value: u64 },
}
