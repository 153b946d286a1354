// The keys of one store, in a map from their bytes.
ghost use Rattle.std.specs.Prelude.{◌≡◌, ℕ, List, length, ◌+◌, ◌≤◌, ◌<◌, ◌==◌, ◌||◌, true, false, IsOk, IfOk, OnOk, OnErr, IfSome, IfNone};
ghost use Rattle.store_model.specs.Keys.{no_keys, held_at, accepts, put, get_reply, set_reply, set_after, used_by_keys};
ghost use Rattle.store_model.specs.Limits.{IsWithin};
ghost use Rattle.store_model.specs.Parts.{IsKeyCall, keys_reply, keys_after, keys_take_no_memory};
ghost use Rattle.store_model.specs.Replies.{IsReplyTo, IsGetReply, IsSetReply};
ghost use Rattle.store_model.specs.Store.{is_bare};
ghost use Rattle.shared_data.specs.Found.{found_of, number_found};

use gate_base::{Octets, OutOfMemory, WorkerNo};
use std::alloc::Global;
use std::collections::BTreeMap;
use std::marker::Model;
use store_model::{Call, MOST_BYTES, MOST_NUMBER, Reply, Used};

/// What is kept under a key.
#[derive(Drop)]
struct Kept {
    value: Octets,
    number: u32,
}

/// What is found under a key: its number, and how many bytes its value has.
#[derive(Clone, Copy)]
struct Found {
    number: u32,
    value_len: u64,
}

/// The keys of one store, each with its value and number. Clauses see a `Keys` of `store_model`.
#[derive(Drop)]
pub struct SharedData {
    map: BTreeMap<Vec<u8>, Kept>,
    next: u64,
    bytes: u64,
}

impl Model for SharedData {
    ghost use Rattle.store_model.specs.Keys.{Keys};
    ghost use Rattle.shared_data.specs.Seen.{seen_keys, IsKept};

    ghost Value = { Keys };

    ghost view = { λ s. seen_keys s.map.entries s.next };

    ghost invariant = { λ s. IsKept (seen_keys s.map.entries s.next) s.bytes };
}

impl SharedData {
    /// No keys. It takes no memory.
    pub fn new(alloc: Global) -> Self
        ensures { result ≡ no_keys }
    {
        SharedData {
            map: BTreeMap::new(alloc),
            next: 1,
            bytes: 0,
        }
    }

    /// How many keys there are, and their bytes with those of their values.
    pub fn used(&self) -> Used
        ensures used { result ≡ used_by_keys self.now }
        ensures within { IsWithin result }
    {
        Used {
            names: self.map.len() as u64,
            bytes: self.bytes,
        }
    }

    /// Makes a Get or a Set. `other` is what the queues of this store use.
    pub fn apply(
        &mut self,
        alloc: Global,
        _who: WorkerNo,
        call: &Call,
        other: Used,
    ) -> Result<Reply, OutOfMemory>
        requires own { IsKeyCall call.now }
        requires other { IsWithin other }
        ensures reply { IfOk result (λ r. r ≡ keys_reply other self.old call.now) }
        ensures may { IfOk result (IsReplyTo call.now) }
        ensures after { OnOk result (self.new ≡ keys_after other self.old call.now) }
        ensures err { OnErr result (self.new ≡ self.old) }
        ensures sure { keys_take_no_memory call.now self.old ≡ true → IsOk result }
    {
        match call {
            Call::Get { key } => self.get(alloc, key.as_slice()),
            Call::Set { key, value, number } => {
                self.set(alloc, key.as_slice(), value.as_slice(), *number, other)
            }
            _ => unreachable!(),
        }
    }

    /// The value of a key.
    fn get(&self, alloc: Global, key: &[u8]) -> Result<Reply, OutOfMemory>
        ensures reply { IfOk result (λ r. r ≡ get_reply self.now key.now) }
        ensures may { IfOk result IsGetReply }
        ensures sure { is_bare (held_at self.now key.now) ≡ true → IsOk result }
    {
        let Some(kept) = self.map.get(key) else {
            return Ok(Reply::Absent);
        };
        let number = kept.number;
        if kept.value.is_empty() {
            return Ok(Reply::Value {
                value: Octets::new(alloc),
                number,
            });
        }
        let value = kept.value.copy(alloc)?;
        Ok(Reply::Value { value, number })
    }

    /// Sets a key, where its number is accepted and the limits leave room.
    fn set(
        &mut self,
        alloc: Global,
        key: &[u8],
        value: &[u8],
        number: u32,
        other: Used,
    ) -> Result<Reply, OutOfMemory>
        requires { IsWithin other }
        ensures reply { IfOk result (λ r. r ≡ set_reply other self.old key.now value.now number) }
        ensures may { IfOk result IsSetReply }
        ensures after { OnOk result (self.new ≡ set_after other self.old key.now value.now number) }
        ensures err { OnErr result (self.new ≡ self.old) }
        ensures sure { accepts self.old key.now number ≡ false → IsOk result }
    {
        let found = self.found(key);
        if !is_accepted(found, number) {
            return Ok(Reply::CasMismatch);
        }
        let Some(used) = self.used_with(key, value, found) else {
            return Ok(Reply::Full);
        };
        if self.next > MOST_NUMBER as u64 || !used.fits_beside(other) {
            return Ok(Reply::Full);
        }
        let number = self.put(alloc, key, value, used)?;
        Ok(Reply::Done { number })
    }

    /// The number of a key and the length of its value, if the key is there.
    fn found(&self, key: &[u8]) -> Option<Found>
        ensures { result ≡ found_of (held_at self.now key.now) }
    {
        let kept = self.map.get(key)?;
        Some(Found {
            number: kept.number,
            value_len: kept.value.len() as u64,
        })
    }

    /// What the keys use but for this one.
    fn used_without(&self, key: &[u8], found: Option<Found>) -> Used
        requires { found ≡ found_of (held_at self.now key.now) }
        ensures names { (value : List ℕ) → (used_by_keys (put self.now key.now value)).names ≡ result.names + 1 }
        ensures bytes { (value : List ℕ) → (used_by_keys (put self.now key.now value)).bytes ≡ result.bytes + (length key.now + length value) }
        ensures within { IsWithin result }
    {
        let names = self.map.len() as u64;
        let bytes = self.bytes;
        match found {
            None => Used { names, bytes },
            Some(found) => Used {
                names: names - 1,
                bytes: bytes - (key.len() as u64 + found.value_len),
            },
        }
    }

    /// What the keys would use with this value under this key; none where that is past all limits.
    fn used_with(&self, key: &[u8], value: &[u8], found: Option<Found>) -> Option<Used>
        requires { found ≡ found_of (held_at self.now key.now) }
        ensures used { IfSome result (λ u. u ≡ used_by_keys (put self.now key.now value.now)) }
        ensures too_large { IfNone result (MOST_BYTES < (used_by_keys (put self.now key.now value.now)).bytes) }
    {
        let rest = self.used_without(key, found);
        let entry_len = (key.len() as u64).checked_add(value.len() as u64)?;
        let bytes = rest.bytes.checked_add(entry_len)?;
        Some(Used {
            names: rest.names + 1,
            bytes,
        })
    }

    /// Puts a value under a key, with the next number, which it answers.
    fn put(
        &mut self,
        alloc: Global,
        key: &[u8],
        value: &[u8],
        used: Used,
    ) -> Result<u32, OutOfMemory>
        requires used { used ≡ used_by_keys (put self.old key.now value.now) }
        requires within { IsWithin used }
        requires number { self.old.next ≤ MOST_NUMBER }
        ensures number { IfOk result (λ n. n ≡ self.old.next) }
        ensures after { OnOk result (self.new ≡ put self.old key.now value.now) }
        ensures err { OnErr result (self.new ≡ self.old) }
    {
        let number = self.next as u32;
        let key = Vec::from_slice(alloc, key)?;
        let value = Octets::from_slice(alloc, value)?;
        self.map.insert(key, Kept { value, number })?;
        self.next += 1;
        self.bytes = used.bytes;
        Ok(number)
    }
}

/// Whether a Set under this number is accepted: 0 always is, another number where it is the key's.
fn is_accepted(found: Option<Found>, number: u32) -> bool
    ensures { result ≡ ((number == 0) || (number == number_found found)) }
{
    match found {
        None => number == 0,
        Some(found) => number == 0 || number == found.number,
    }
}
