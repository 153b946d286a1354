// What lines want, as it was last looked at, and what is asked of the world by that.
ghost use Rattle.std.specs.Prelude.{◌≡◌, ◌≤◌, ◌<◌, ℕ, length, true, false, OnOk, Some, slice_get, slice_set};
ghost use Rattle.std.specs.List.{insert, remove};
ghost use Rattle.worker_lines.specs.Wishes.{lines_with, Listed};

use crate::wanted::{first_of, wished_on};
use gate_base::{LineList, LineNo, Members, OutOfMemory};
use gate_io::Wants;
use std::alloc::Global;
use worker_model::Wish;

/// What each line wanted when it was last looked at, and what is asked of the world by that.
#[derive(Drop)]
pub struct Kept {
    pub each: Vec<Wish>,
    /// What is asked for where nothing waits, but for the moment, which is that at which it was last asked.
    pub wants: Wants,
    /// When the first response is due.
    pub first: Option<u64>,
}

impl Kept {
    /// No line is known.
    pub(crate) fn new(alloc: Global) -> Self {
        Kept {
            each: Vec::new(alloc),
            wants: Wants {
                down: Members::new(alloc),
                up: Members::new(alloc),
                due: None,
            },
            first: None,
        }
    }
}

/// A number more, in front of those that stand at a place and after it.
#[tactic(auto, using(crate::proofs::Listing::insert_next, crate::proofs::Listing::insert_end))]
fn put_in(numbers: &mut LineList, place: usize, number: LineNo) -> Result<(), OutOfMemory>
    requires { place ≤ length numbers.old }
    ensures { OnOk result (numbers.new ≡ insert numbers.old place number) }
{
    let mut carried = number;
    for at in place..numbers.len() {
        let next = *numbers.get(at);
        *numbers.get_mut(at) = carried;
        carried = next;
    }
    numbers.push(carried)
}

/// The number at a place is there no more.
#[tactic(auto, using(crate::proofs::Listing::remove_next, crate::proofs::Listing::remove_end))]
fn take_out(numbers: &mut LineList, place: usize)
    requires { place < length numbers.old }
    ensures { numbers.new ≡ remove numbers.old place }
{
    let last = numbers.len() - 1;
    for at in place..last {
        let next = *numbers.get(at + 1);
        *numbers.get_mut(at) = next;
    }
    let _ = numbers.pop();
}

/// Of how many of these lines bytes of the client are taken.
fn count_down(each: &[Wish]) -> usize
    ensures { result ≡ length (lines_with (λ w. w.down) each.now) }
{
    let mut count = 0;
    for wish in each {
        if wish.down {
            count += 1;
        }
    }
    count
}

/// Of how many of these lines bytes of the server are taken.
fn count_up(each: &[Wish]) -> usize
    ensures { result ≡ length (lines_with (λ w. w.up) each.now) }
{
    let mut count = 0;
    for wish in each {
        if wish.up {
            count += 1;
        }
    }
    count
}

/// The lines of which bytes of the client are taken, where one of them wants something else.
#[tactic(auto, using(crate::proofs::Listing::wished_same, crate::proofs::Listing::wished_more, crate::proofs::Listing::wished_less, crate::proofs::Listing::count_up_to, crate::proofs::Listing::count_below))]
fn put_down(
    each: &[Wish],
    at: usize,
    was: Wish,
    is: Wish,
    numbers: &mut LineList,
) -> Result<(), OutOfMemory>
    requires at { at < length each.now }
    requires there { slice_get each.now at ≡ Some was }
    requires number { is.number ≡ was.number }
    requires listed { numbers.old ≡ lines_with (λ w. w.down) each.now }
    ensures { OnOk result (numbers.new ≡ lines_with (λ w. w.down) (slice_set each.now at is)) }
{
    if was.down == is.down {
        return Ok(());
    }
    let place = count_down(&each[..at]);
    if was.down {
        take_out(numbers, place);
        return Ok(());
    }
    put_in(numbers, place, is.number)
}

/// The same of bytes of the server.
#[tactic(auto, using(crate::proofs::Listing::wished_same, crate::proofs::Listing::wished_more, crate::proofs::Listing::wished_less, crate::proofs::Listing::count_up_to, crate::proofs::Listing::count_below))]
fn put_up(
    each: &[Wish],
    at: usize,
    was: Wish,
    is: Wish,
    numbers: &mut LineList,
) -> Result<(), OutOfMemory>
    requires at { at < length each.now }
    requires there { slice_get each.now at ≡ Some was }
    requires number { is.number ≡ was.number }
    requires listed { numbers.old ≡ lines_with (λ w. w.up) each.now }
    ensures { OnOk result (numbers.new ≡ lines_with (λ w. w.up) (slice_set each.now at is)) }
{
    if was.up == is.up {
        return Ok(());
    }
    let place = count_up(&each[..at]);
    if was.up {
        take_out(numbers, place);
        return Ok(());
    }
    put_in(numbers, place, is.number)
}

/// All is listed anew.
pub(crate) fn list_all(kept: &mut Kept) -> Result<(), OutOfMemory>
    ensures each { kept.new.each.items ≡ kept.old.each.items }
    ensures listed { OnOk result (Listed kept.new) }
{
    wished_on(None, kept.each.as_slice(), &mut kept.wants)?;
    kept.first = kept.wants.due;
    Ok(())
}

/// Whether two moments are one, or both none.
pub(crate) fn is_same(a: Option<u64>, b: Option<u64>) -> bool
    ensures { result ≡ true → a ≡ b }
{
    match a {
        None => b.is_none(),
        Some(x) => match b {
            None => false,
            Some(y) => x == y,
        },
    }
}

/// A line wants something else, and what is asked of the world by all is brought up to it.
#[tactic(auto, using(crate::proofs::Listing::due_same))]
pub(crate) fn put(kept: &mut Kept, at: usize, is: Wish) -> Result<(), OutOfMemory>
    requires at { at < length kept.old.each.items }
    requires listed { Listed kept.old }
    ensures each { OnOk result (kept.new.each.items ≡ slice_set kept.old.each.items at is) }
    ensures listed { OnOk result (Listed kept.new) }
{
    let was = kept.each[at];
    if was.number != is.number {
        kept.each[at] = is;
        return list_all(kept);
    }
    put_down(kept.each.as_slice(), at, was, is, &mut kept.wants.down)?;
    put_up(kept.each.as_slice(), at, was, is, &mut kept.wants.up)?;
    kept.each[at] = is;
    if !is_same(was.due, is.due) {
        kept.first = first_of(kept.each.as_slice());
    }
    Ok(())
}
