// What an Add or a Put makes of a word.
ghost use Rattle.std.specs.Prelude.{◌≡◌};
ghost use Rattle.store_model.specs.Metrics as rules;

use store_model::{MetricKind, MetricReply};

/// Whether two kinds are one.
pub fn is_kind(one: MetricKind, other: MetricKind) -> bool
    ensures { result ≡ rules.is_kind one other }
{
    match (one, other) {
        (MetricKind::Counter, MetricKind::Counter) => true,
        (MetricKind::Gauge, MetricKind::Gauge) => true,
        _ => false,
    }
}

/// A counter's word with so much more, up to 2^64 - 1, and the reply.
fn raised(word: u64, by: u64) -> (u64, MetricReply)
    ensures word { result.0 ≡ rules.raised word by }
    ensures reply { result.1 ≡ rules.raise_reply word by }
{
    if by <= u64::MAX - word {
        (word + by, MetricReply::Done)
    } else {
        (word, MetricReply::Full)
    }
}

/// A word after an Add, and the reply.
pub fn added(kind: MetricKind, word: u64, by: i64) -> (u64, MetricReply)
    ensures word { result.0 ≡ rules.word_added kind word by }
    ensures reply { result.1 ≡ rules.add_reply kind word by }
{
    match kind {
        MetricKind::Counter if by < 0 => (word, MetricReply::BadKind),
        MetricKind::Counter => raised(word, by as u64),
        MetricKind::Gauge => (word.wrapping_add_signed(by), MetricReply::Done),
    }
}

/// A word after a Put, and the reply.
pub fn put(kind: MetricKind, word: u64, value: u64) -> (u64, MetricReply)
    ensures word { result.0 ≡ rules.word_put kind word value }
    ensures reply { result.1 ≡ rules.put_reply kind word value }
{
    match kind {
        MetricKind::Counter => raised(word, value),
        MetricKind::Gauge => (value, MetricReply::Done),
    }
}
