// The items that wait at a stage.
ghost use Rattle.std.specs.Prelude.{◌≡◌, ◌≤◌, ◌+◌, ◌^◌, [], ◌∷◌, ◌++◌, length, option_copied, slice_get, OnOk, OnErr, MatchOption};
ghost use Rattle.filter_chain.specs.Items.{bytes_in, size};

use crate::ChainItem;
use gate_base::OutOfMemory;
use gate_queue::Queue;
use std::alloc::{AllocError, Global};
use std::collections::VecDeque;
use std::marker::Model;

/// Items that are put behind and taken in front, with how many bytes they have, so that an item costs the same however many wait.
/// Clauses see their list.
#[derive(Drop)]
pub struct Waiting {
    items: VecDeque<ChainItem>,
    /// How many bytes they have.
    bytes: usize,
}

impl Model for Waiting {
    ghost use Rattle.std.specs.Prelude.{List, ◌≡◌};
    ghost use Rattle.filter_chain.specs.declared.item.ChainItem.{ChainItem};
    ghost use Rattle.filter_chain.specs.Items.{size as size_of};

    ghost Value = { List ChainItem };

    ghost view = { λ w. w.items.items };

    ghost invariant = { λ w. w.bytes ≡ size_of w.items.items };
}

/// How many bytes an item has.
pub(crate) fn bytes_len(item: &ChainItem) -> usize
    ensures { result ≡ length (bytes_in item.now) }
{
    match item {
        ChainItem::Head { .. } => 0,
        ChainItem::Piece { bytes, .. } => bytes.len(),
        ChainItem::Trailers => 0,
    }
}

/// So many bytes and those of these items; none where that is too large a number.
#[tactic(auto, using(crate::proofs::Sizes::size_more, crate::proofs::Sizes::size_all))]
fn with_bytes(some: usize, items: &[ChainItem]) -> Option<usize>
    ensures { MatchOption result (2 ^ 64 ≤ some + size items.now) (λ sum. sum ≡ some + size items.now) }
{
    let mut sum = some;
    for item in items {
        match sum.checked_add(bytes_len(item)) {
            None => return None,
            Some(more) => sum = more,
        }
    }
    Some(sum)
}

/// The items of two lists come behind, all of them or none. Where there is no room, the second keeps its own.
fn append_all(
    items: &mut VecDeque<ChainItem>,
    first: Queue<ChainItem>,
    second: &mut VecDeque<ChainItem>,
) -> Result<(), OutOfMemory>
    ensures ok { OnOk result (items.new.items ≡ items.old.items ++ (first ++ second.old.items)) }
    ensures moved { OnOk result (second.new.items ≡ []) }
    ensures err { OnErr result (items.new.items ≡ items.old.items) }
    ensures kept { OnErr result (second.new.items ≡ second.old.items) }
{
    let mut first = VecDeque::from_vec(first.into_vec());
    let Some(many) = first.len().checked_add(second.len()) else {
        return Err(AllocError);
    };
    items.reserve(many)?;
    items.append(&mut first)?;
    items.append(second)
}

impl Waiting {
    /// No items. It takes no memory.
    pub fn new(alloc: Global) -> Self
        ensures { result ≡ [] }
    {
        Waiting {
            items: VecDeque::new(alloc),
            bytes: 0,
        }
    }

    /// How many bytes the items have.
    pub(crate) fn bytes(&self) -> usize
        ensures { result ≡ size self.now }
    {
        self.bytes
    }

    /// The first item, if there is one.
    pub(crate) fn first(&self) -> Option<&ChainItem>
        ensures { option_copied result ≡ slice_get self.now 0 }
    {
        self.items.front()
    }

    /// The items of a queue come behind. They are dropped where there is no room.
    #[tactic(auto, using(crate::proofs::Sizes::size_append))]
    pub(crate) fn append(&mut self, items: Queue<ChainItem>) -> Result<(), OutOfMemory>
        ensures ok { OnOk result (self.new ≡ self.old ++ items) }
        ensures err { OnErr result (self.new ≡ self.old) }
    {
        let Some(bytes) = with_bytes(self.bytes, items.as_slice()) else {
            return Err(AllocError);
        };
        self.items
            .append(&mut VecDeque::from_vec(items.into_vec()))?;
        self.bytes = bytes;
        Ok(())
    }

    /// The items of two lists come behind, all of them or none. Where there is no room, the second keeps its own.
    #[tactic(auto, using(crate::proofs::Sizes::size_append))]
    pub(crate) fn append_both(
        &mut self,
        first: Queue<ChainItem>,
        second: &mut Waiting,
    ) -> Result<(), OutOfMemory>
        ensures ok { OnOk result (self.new ≡ self.old ++ (first ++ second.old)) }
        ensures moved { OnOk result (second.new ≡ []) }
        ensures err { OnErr result (self.new ≡ self.old) }
        ensures kept { OnErr result (second.new ≡ second.old) }
    {
        let Some(some) = with_bytes(self.bytes, first.as_slice()) else {
            return Err(AllocError);
        };
        let Some(bytes) = some.checked_add(second.bytes) else {
            return Err(AllocError);
        };
        append_all(&mut self.items, first, &mut second.items)?;
        self.bytes = bytes;
        second.bytes = 0;
        Ok(())
    }

    /// Takes the first item. There is none exactly where nothing waits.
    pub(crate) fn pop_first(&mut self) -> Option<ChainItem>
        ensures { MatchOption result ((self.old ≡ []) × (self.new ≡ [])) (λ item. self.old ≡ item ∷ self.new) }
    {
        match self.items.pop_front() {
            None => None,
            Some(item) => {
                self.bytes -= bytes_len(&item);
                Some(item)
            }
        }
    }

    /// The items, as a queue.
    pub(crate) fn into_queue(self) -> Queue<ChainItem>
        ensures { result ≡ self }
    {
        Queue::from_vec(self.items.into_vec())
    }
}
