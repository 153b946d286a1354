//! Replies of the gateway's own.

use gate_base::{Octets, OutOfMemory};
use header_maps::HeaderList;
use local_reply::local;
use std::alloc::Global;
use test_rows::{from_text, number, word};

/// `reply STATUS TO-HEAD CLOSES NOW BODY`, with `yes` and `no`: the bytes of a reply with the fields of the list.
pub fn replied(alloc: Global, list: &HeaderList, words: &str) -> Result<Octets, OutOfMemory> {
    let (status, rest) = word(words);
    let (to_head, rest) = word(rest);
    let (closes, rest) = word(rest);
    let (now, body) = word(rest);
    let body = from_text(alloc, body)?;
    let status = number(status);
    if status < 200 || status > 599 {
        return Octets::from_slice(alloc, b"no status of a reply");
    }
    local(
        alloc,
        status as u16,
        list,
        body.as_slice(),
        to_head == "yes",
        closes == "yes",
        number(now),
    )
}
