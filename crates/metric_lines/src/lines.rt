// The lines that tell what metrics came to.
ghost use Rattle.std.specs.Prelude.{◌≡◌, ◌∷◌, [], ◌++◌, OnOk, OnErr, decimal};
ghost use Rattle.hex.specs.Hex.{encode_lower};
ghost use Rattle.metric_lines.specs.Lines.{kind_word, metric_line, metric_lines};
ghost use Rattle.metric_lines.specs.Totals.{in_order, totals_of_all};

use crate::{MetricTotal, metric_totals};
use gate_base::{Octets, OutOfMemory};
use itoa::Buffer;
use metric_seats::MetricsClosed;
use std::alloc::Global;
use store_model::MetricKind;

/// Puts the lines of a VM's metrics at the end, each `metric NAME counter HEX TOTAL` or `metric NAME gauge HEX TOTAL`: counters first, and
/// those of one kind by the bytes of their names, which stand in hexadecimal. After a refusal the text is as before.
pub fn put_metric_lines(
    alloc: Global,
    out: &mut Octets,
    vm: &[u8],
    closed: &MetricsClosed,
) -> Result<(), OutOfMemory>
    ensures ok { OnOk result (out.new ≡ out.old ++ metric_lines vm.now (in_order (totals_of_all closed.now))) }
    ensures err { OnErr result (out.new ≡ out.old) }
{
    let told = metric_totals(alloc, closed)?;
    let mut lines = Octets::new(alloc);
    put_lines(alloc, &mut lines, vm, told.as_slice())?;
    out.extend_from_slice(lines.as_slice())
}

/// Puts the lines of some metrics at the end.
fn put_lines(
    alloc: Global,
    out: &mut Octets,
    vm: &[u8],
    told: &[MetricTotal],
) -> Result<(), OutOfMemory>
    ensures { OnOk result (out.new ≡ out.old ++ metric_lines vm.now told.now) }
{
    for place in 0..told.len() {
        put_line(alloc, out, vm, &told[place])?;
    }
    Ok(())
}

/// Puts the line of a metric at the end.
fn put_line(
    alloc: Global,
    out: &mut Octets,
    vm: &[u8],
    metric: &MetricTotal,
) -> Result<(), OutOfMemory>
    ensures { OnOk result (out.new ≡ out.old ++ metric_line vm.now metric.now) }
{
    out.extend_from_slice(b"metric ")?;
    out.extend_from_slice(vm)?;
    out.extend_from_slice(kind_word(metric.kind))?;
    put_values(alloc, out, metric)
}

/// The word of a kind, between blanks.
fn kind_word(kind: MetricKind) -> &'static [u8]
    ensures { result.now ≡ kind_word kind }
{
    match kind {
        MetricKind::Counter => b" counter ",
        MetricKind::Gauge => b" gauge ",
    }
}

/// Puts a metric's name, its total and the end of the line at the end.
fn put_values(alloc: Global, out: &mut Octets, metric: &MetricTotal) -> Result<(), OutOfMemory>
    ensures { OnOk result (out.new ≡ out.old ++ (encode_lower metric.now.name ++ (32 ∷ (decimal metric.now.total ++ 10 ∷ [])))) }
{
    let digits = hex::encode(alloc, metric.name.as_slice())?;
    out.extend_from_slice(digits.as_bytes())?;
    out.push(b' ')?;
    out.extend_from_slice(Buffer::new().format(metric.total).as_bytes())?;
    out.push(b'\n')
}
