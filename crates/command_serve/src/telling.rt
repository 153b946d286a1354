// What the stores and the metrics came to, as text.
ghost use Rattle.std.specs.Prelude.{◌≡◌, ◌<◌, ◌≤◌, ◌++◌, length, IfOk, OnOk, decimal, codes};
ghost use Rattle.shared_seats.specs.Closed.{metrics_at};
ghost use Rattle.shared_store.specs.Closed.{closed_at};
ghost use Rattle.command_serve.specs.Summary.{all_metric_lines, counts_of, lines_of, store_line, store_lines, summary};

use gate_base::{Octets, OutOfMemory, VmNo};
use gate_config::VmEntry;
use itoa::Buffer;
use metric_lines::put_metric_lines;
use shared_seats::ClosedTables;
use std::alloc::Global;

/// Puts a word and a number at the end.
fn put_count(text: &mut Octets, word: &[u8], number: u64) -> Result<(), OutOfMemory>
    ensures { OnOk result (text.new ≡ text.old ++ (word.now ++ decimal number)) }
{
    text.extend_from_slice(word)?;
    text.extend_from_slice(Buffer::new().format(number).as_bytes())
}

/// Puts a name at the end.
fn put_name(text: &mut Octets, name: &[u8]) -> Result<(), OutOfMemory>
    ensures { OnOk result (text.new ≡ text.old ++ (codes "store " ++ name.now)) }
{
    text.extend_from_slice(b"store ")?;
    text.extend_from_slice(name)
}

/// Puts the counts of a store and the end of its line at the end.
fn put_counts(text: &mut Octets, calls: u64, keys: u64, items: u64) -> Result<(), OutOfMemory>
    ensures { OnOk result (text.new ≡ text.old ++ counts_of calls keys items) }
{
    put_count(text, b" calls ", calls)?;
    put_count(text, b" keys ", keys)?;
    put_count(text, b" items ", items)?;
    text.push(b'\n')
}

/// Puts the line of a store at the end.
fn put_store(
    text: &mut Octets,
    name: &[u8],
    closed: &ClosedTables,
    vm: VmNo,
) -> Result<(), OutOfMemory>
    requires { vm < length closed.now.stores }
    ensures { OnOk result (text.new ≡ text.old ++ store_line name.now (closed_at closed.now.stores vm)) }
{
    let (keys, items) = closed.counts(vm);
    put_name(text, name)?;
    put_counts(text, closed.calls(vm), keys, items)
}

/// Puts the lines of a VM's metrics at the end.
fn put_metrics(
    alloc: Global,
    text: &mut Octets,
    name: &[u8],
    closed: &ClosedTables,
    vm: VmNo,
) -> Result<(), OutOfMemory>
    requires { vm < length closed.now.metrics }
    ensures { OnOk result (text.new ≡ text.old ++ lines_of name.now (metrics_at closed.now.metrics vm)) }
{
    put_metric_lines(alloc, text, name, closed.metrics(vm))
}

/// Puts a line for each VM at the end, in order, with what its store came to.
fn put_all_stores(
    text: &mut Octets,
    vms: &[VmEntry],
    closed: &ClosedTables,
) -> Result<(), OutOfMemory>
    requires few { length vms.now ≤ 16 }
    requires as_many { length closed.now.stores ≡ length vms.now }
    ensures { OnOk result (text.new ≡ text.old ++ store_lines vms.now closed.now.stores) }
{
    'vms: for n in 0..vms.len() {
        let vm = VmNo::new(n as u8).unwrap();
        put_store(text, vms[n].name.as_str().as_bytes(), closed, vm)?;
    }
    Ok(())
}

/// Puts the lines of the metrics of each VM at the end, in order.
fn put_all_metrics(
    alloc: Global,
    text: &mut Octets,
    vms: &[VmEntry],
    closed: &ClosedTables,
) -> Result<(), OutOfMemory>
    requires few { length vms.now ≤ 16 }
    requires as_many { length closed.now.metrics ≡ length vms.now }
    ensures { OnOk result (text.new ≡ text.old ++ all_metric_lines vms.now closed.now.metrics) }
{
    'vms: for n in 0..vms.len() {
        let vm = VmNo::new(n as u8).unwrap();
        put_metrics(alloc, text, vms[n].name.as_str().as_bytes(), closed, vm)?;
    }
    Ok(())
}

/// A line for each VM, in order, with what its store came to, and then the lines of the metrics of each.
pub fn summary(alloc: Global, vms: &[VmEntry], closed: &ClosedTables) -> Result<Octets, OutOfMemory>
    requires few { length vms.now ≤ 16 }
    requires stores { length closed.now.stores ≡ length vms.now }
    requires metrics { length closed.now.metrics ≡ length vms.now }
    ensures { IfOk result (λ text. text ≡ summary vms.now closed.now) }
{
    let mut text = Octets::new(alloc);
    put_all_stores(&mut text, vms, closed)?;
    put_all_metrics(alloc, &mut text, vms, closed)?;
    Ok(text)
}
