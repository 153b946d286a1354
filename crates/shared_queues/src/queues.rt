// The queues of one store, in the order in which they were made, with a map from their names.
ghost use Rattle.std.specs.Prelude.{◌≡◌, ◌<◌, ◌≤◌, true, length, Some, None, IsOk, IfOk, OnOk, OnErr, IfSome, IfNone};
ghost use Rattle.store_model.specs.Limits.{fits, IsWithin};
ghost use Rattle.store_model.specs.Parts.{IsQueueCall, queues_reply, queues_after, queues_take_no_memory};
ghost use Rattle.store_model.specs.QueueLaws.{items_of};
ghost use Rattle.store_model.specs.Replies.{IsReplyTo, IsRegisterReply, IsResolveReply, IsEnqueueReply, IsDequeueReply, IsNoticeReply};
ghost use Rattle.shared_queues.specs.Seen.{first_of, used_more};
ghost use Rattle.store_model.specs.Queues.{no_queues, item_count_of, named, index_of, id_at, queue_in, used_by_queues, with_new, with_item, registered, has_room_in, owed_more, register_reply, register_after, resolve_reply, enqueue_reply, enqueue_after, dequeue_reply, dequeue_after, notice_reply, notice_after, oldest_for};

use crate::notices::Notices;
use gate_base::{ContextId, Members, Octets, OutOfMemory, QueueId, VmNo, WorkerNo};
use std::alloc::{AllocError, Global};
use std::collections::{BTreeMap, VecDeque};
use std::marker::Model;
use store_model::{Call, MOST_BYTES, MOST_ITEMS, Reply, Used};

/// A list of pieces of bytes.
pub type OctetsList = Members<Octets>;

/// A queue: its name, its registrant, and its items, the first one first.
#[derive(Drop)]
struct Queue {
    name: Octets,
    who: WorkerNo,
    root: ContextId,
    items: VecDeque<Octets>,
}

/// The queues of one store, and the notices that it owes. Clauses see a `Queues` of `store_model`.
#[derive(Drop)]
pub struct SharedQueues {
    vm: VmNo,
    names: BTreeMap<Vec<u8>, u32>,
    queues: Vec<Queue>,
    notices: Notices,
    bytes: u64,
}

impl Model for SharedQueues {
    ghost use Rattle.store_model.specs.Queues.{Queues};
    ghost use Rattle.shared_queues.specs.Seen.{seen_queues, IsKept};

    ghost Value = { Queues };

    ghost view = { λ s. seen_queues s.vm s.queues.items s.notices };

    ghost invariant = { λ s. IsKept (seen_queues s.vm s.queues.items s.notices) s.names.entries s.notices s.bytes };
}

impl SharedQueues {
    /// No queues of the store of this number. It takes no memory.
    pub fn new(alloc: Global, vm: VmNo) -> Self
        ensures { result ≡ no_queues vm }
    {
        SharedQueues {
            vm,
            names: BTreeMap::new(alloc),
            queues: Vec::new(alloc),
            notices: Notices::new(alloc),
            bytes: 0,
        }
    }

    /// How many queues there are, and the bytes of their names and items.
    pub fn used(&self) -> Used
        ensures used { result ≡ used_by_queues self.now }
        ensures within { IsWithin result }
    {
        Used {
            names: self.queues.len() as u64,
            bytes: self.bytes,
        }
    }

    /// How many items there are in all queues.
    pub fn item_count(&self) -> u64
        ensures { result ≡ item_count_of self.now }
    {
        let mut count = 0;
        for queue in &self.queues {
            count += queue.items.len() as u64;
        }
        count
    }

    /// A copy of the items of a queue, the first one first; none for an id that is no queue's.
    pub fn items(&self, alloc: Global, queue: QueueId) -> Result<OctetsList, OutOfMemory>
        ensures { IfOk result (λ items. items ≡ items_of self.now queue) }
    {
        match self.index_of(queue) {
            None => Ok(OctetsList::new(alloc)),
            Some(index) => copy_all(alloc, &self.queues[index].items),
        }
    }

    /// The index of the queue of an id, if it is one of this store.
    fn index_of(&self, queue: QueueId) -> Option<usize>
        ensures index { result ≡ index_of self.now queue }
        ensures within { IfSome result (λ k. k < length self.now.queues) }
    {
        let base = self.vm.get() as u32 * 16_777_216;
        let id = queue.get();
        if base < id && id <= base + self.queues.len() as u32 {
            Some((id - base - 1) as usize)
        } else {
            None
        }
    }

    /// The index of the queue of a name, if there is one.
    fn named(&self, name: &[u8]) -> Option<usize>
        ensures index { result ≡ named self.now name.now }
        ensures within { IfSome result (λ k. k < length self.now.queues) }
    {
        let index = self.names.get(name)?;
        Some(*index as usize)
    }

    /// The id of the queue at an index.
    fn id_at(&self, index: usize) -> QueueId
        requires { index ≤ length self.now.queues }
        ensures { result ≡ id_at self.now index }
    {
        QueueId::new(self.vm.get() as u32 * 16_777_216 + index as u32 + 1)
    }

    /// Makes a call on queues or notices. `other` is what the keys of this store use.
    pub fn apply(
        &mut self,
        alloc: Global,
        who: WorkerNo,
        call: &Call,
        other: Used,
    ) -> Result<Reply, OutOfMemory>
        requires own { IsQueueCall call.now }
        requires other { IsWithin other }
        ensures reply { IfOk result (λ r. r ≡ queues_reply other self.old who call.now) }
        ensures may { IfOk result (IsReplyTo call.now) }
        ensures after { OnOk result (self.new ≡ queues_after other self.old who call.now) }
        ensures err { OnErr result (self.new ≡ self.old) }
        ensures sure { queues_take_no_memory call.now ≡ true → IsOk result }
    {
        match call {
            Call::Register { name, root } => {
                self.register(alloc, who, *root, name.as_slice(), other)
            }
            Call::Resolve { name } => Ok(self.resolve(name.as_slice())),
            Call::Enqueue { queue, item } => self.enqueue(alloc, *queue, item.as_slice(), other),
            Call::Dequeue { queue } => Ok(self.dequeue(*queue)),
            Call::Notice => Ok(self.notice(who)),
            _ => unreachable!(),
        }
    }

    /// The queue of a name, made where there is none and the limits leave room.
    fn register(
        &mut self,
        alloc: Global,
        who: WorkerNo,
        root: ContextId,
        name: &[u8],
        other: Used,
    ) -> Result<Reply, OutOfMemory>
        requires { IsWithin other }
        ensures reply { IfOk result (λ r. r ≡ register_reply other self.old who root name.now (named self.old name.now)) }
        ensures may { IfOk result IsRegisterReply }
        ensures after { OnOk result (self.new ≡ register_after other self.old who root name.now (named self.old name.now)) }
        ensures err { OnErr result (self.new ≡ self.old) }
    {
        if let Some(index) = self.named(name) {
            self.take_over(index, who, root);
            return Ok(Reply::Id {
                queue: self.id_at(index),
            });
        }
        if !self.has_room_with(1, name.len() as u64, other) {
            return Ok(Reply::Full);
        }
        let queue = self.id_at(self.queues.len());
        self.make(alloc, who, root, name)?;
        Ok(Reply::Id { queue })
    }

    /// The id of a name.
    fn resolve(&self, name: &[u8]) -> Reply
        ensures reply { result ≡ resolve_reply self.now (named self.now name.now) }
        ensures may { IsResolveReply result }
    {
        match self.named(name) {
            None => Reply::Absent,
            Some(index) => Reply::Id {
                queue: self.id_at(index),
            },
        }
    }

    /// Makes this worker and root the registrant of a queue.
    fn take_over(&mut self, index: usize, who: WorkerNo, root: ContextId)
        requires { index < length self.old.queues }
        ensures { self.new ≡ registered self.old who root index }
    {
        let queue = &mut self.queues[index];
        queue.who = who;
        queue.root = root;
        self.notices.set(index, who);
    }

    /// Whether the limits leave room for so many more queues and bytes.
    fn has_room_with(&self, names: u64, bytes: u64, other: Used) -> bool
        requires names { names ≤ 1 }
        requires other { IsWithin other }
        ensures { result ≡ fits (used_more (used_by_queues self.now) names bytes) other }
    {
        match self.bytes.checked_add(bytes) {
            None => false,
            Some(bytes) => Used {
                names: self.queues.len() as u64 + names,
                bytes,
            }
            .fits_beside(other),
        }
    }

    /// Makes an empty queue of a new name.
    fn make(
        &mut self,
        alloc: Global,
        who: WorkerNo,
        root: ContextId,
        name: &[u8],
    ) -> Result<(), OutOfMemory>
        requires new { named self.old name.now ≡ None }
        requires room { IsWithin (used_by_queues (with_new self.old who root name.now)) }
        ensures ok { OnOk result (self.new ≡ with_new self.old who root name.now) }
        ensures err { OnErr result (self.new ≡ self.old) }
    {
        let key = Vec::from_slice(alloc, name)?;
        let name = Octets::from_slice(alloc, name)?;
        self.queues.reserve(1)?;
        self.notices.add(alloc, who)?;
        if self.names.insert(key, self.queues.len() as u32).is_err() {
            self.notices.forget_last();
            return Err(AllocError);
        }
        self.bytes += name.len() as u64;
        self.queues.push(Queue {
            name,
            who,
            root,
            items: VecDeque::new(alloc),
        })?;
        Ok(())
    }

    /// Puts an item last into a queue.
    fn enqueue(
        &mut self,
        alloc: Global,
        queue: QueueId,
        item: &[u8],
        other: Used,
    ) -> Result<Reply, OutOfMemory>
        requires { IsWithin other }
        ensures reply { IfOk result (λ r. r ≡ enqueue_reply other self.old item.now (index_of self.old queue)) }
        ensures may { IfOk result IsEnqueueReply }
        ensures after { OnOk result (self.new ≡ enqueue_after other self.old item.now (index_of self.old queue)) }
        ensures err { OnErr result (self.new ≡ self.old) }
    {
        let Some(index) = self.index_of(queue) else {
            return Ok(Reply::Absent);
        };
        if !self.has_room_in(index, item, other) {
            return Ok(Reply::Full);
        }
        self.append(alloc, index, item)?;
        Ok(Reply::Done { number: 0 })
    }

    /// Whether the limits leave room for one more item in a queue.
    fn has_room_in(&self, index: usize, item: &[u8], other: Used) -> bool
        requires index { index < length self.now.queues }
        requires other { IsWithin other }
        ensures { result ≡ has_room_in other self.now index item.now }
    {
        (self.queues[index].items.len() as u64) < MOST_ITEMS
            && self.has_room_with(0, item.len() as u64, other)
    }

    /// Puts an item last into a queue, and owes a notice for it.
    fn append(&mut self, alloc: Global, index: usize, item: &[u8]) -> Result<(), OutOfMemory>
        requires index { index < length self.old.queues }
        requires few { length (queue_in self.old index).items < MOST_ITEMS }
        requires room { IsWithin (used_by_queues (with_item self.old index item.now)) }
        ensures ok { OnOk result (self.new ≡ record (with_item self.old index item.now) { owed = owed_more self.old.owed (id_at self.old index) }) }
        ensures err { OnErr result (self.new ≡ self.old) }
    {
        let item = Octets::from_slice(alloc, item)?;
        let queue = &mut self.queues[index];
        queue.items.reserve(1)?;
        self.notices.owe(index)?;
        self.bytes += item.len() as u64;
        queue.items.push_back(item)?;
        Ok(())
    }

    /// Takes the first item of a queue.
    fn dequeue(&mut self, queue: QueueId) -> Reply
        ensures reply { result ≡ dequeue_reply self.old (index_of self.old queue) }
        ensures may { IsDequeueReply result }
        ensures after { self.new ≡ dequeue_after self.old (index_of self.old queue) }
    {
        let Some(index) = self.index_of(queue) else {
            return Reply::Absent;
        };
        match self.take_first(index) {
            Some(item) => Reply::Item { item },
            None => Reply::Empty,
        }
    }

    /// Takes the first item of the queue at an index, if it has one.
    fn take_first(&mut self, index: usize) -> Option<Octets>
        requires { index < length self.old.queues }
        ensures item { result ≡ first_of (queue_in self.old index).items }
        ensures short { IfSome result (λ item. length item ≤ MOST_BYTES) }
        ensures after { self.new ≡ dequeue_after self.old (Some index) }
    {
        let queue = &mut self.queues[index];
        let item = queue.items.pop_front()?;
        self.bytes -= item.len() as u64;
        Some(item)
    }

    /// Takes the oldest notice for this worker.
    fn notice(&mut self, who: WorkerNo) -> Reply
        ensures reply { result ≡ notice_reply self.old (oldest_for self.old who self.old.owed) }
        ensures may { IsNoticeReply result }
        ensures after { self.new ≡ notice_after self.old who }
    {
        match self.notices.take(who) {
            None => Reply::NoneOwed,
            Some(index) => Reply::Owed {
                root: self.queues[index].root,
                queue: self.id_at(index),
            },
        }
    }
}

/// A copy of some items.
fn copy_all(alloc: Global, items: &VecDeque<Octets>) -> Result<OctetsList, OutOfMemory>
    ensures { IfOk result (λ copies. copies ≡ items.now.items) }
{
    let mut copies = OctetsList::new(alloc);
    for at in 0..items.len() {
        copies.push(items[at].copy(alloc)?)?;
    }
    Ok(copies)
}
