//! Calls of exported functions, by the words of a command.

use crate::bytes::Around;
use crate::numeric::shown;
use gate_base::OutOfMemory;
use std::alloc::Global;
use test_rows::word;
use wasm_invoke::{End, Invoked, Refusal, invoke};
use wasm_store::LinkEnd;

/// The result of a call, and the fuel that it used.
fn answered(alloc: Global, answer: Invoked) -> Result<String, OutOfMemory> {
    match answer.result {
        Some(v) => {
            let value = shown(alloc, v)?;
            format!(in alloc; "{value}, fuel {}", answer.used)
        }
        None => format!(in alloc; "nothing, fuel {}", answer.used),
    }
}

/// Why a module was refused.
fn refused(alloc: Global, refusal: Refusal) -> Result<String, OutOfMemory> {
    match refusal {
        Refusal::Unread { number, place } => format!(in alloc; "fault {number} {place}"),
        Refusal::Invalid => format!(in alloc; "invalid"),
        Refusal::Unlinked(LinkEnd::UnknownImport { index }) => {
            format!(in alloc; "unknown import {index}")
        }
        Refusal::Unlinked(_) => format!(in alloc; "not linked"),
        Refusal::NoExport => format!(in alloc; "no export"),
        Refusal::Arguments => format!(in alloc; "arguments"),
    }
}

/// How a call ended that gave no result.
fn ended(alloc: Global, end: End) -> Result<String, OutOfMemory> {
    match end {
        End::Refused(refusal) => refused(alloc, refusal),
        End::Trapped(cause) => format!(in alloc; "traps {cause:?}"),
        End::FuelSpent => format!(in alloc; "spent"),
        End::OutOfMemory => format!(in alloc; "out of memory"),
    }
}

/// The words after an export's name.
fn words_of(alloc: Global, text: &str) -> Result<Vec<String>, OutOfMemory> {
    let mut words = Vec::new(alloc);
    for word in text.split(' ').skip(1) {
        words.push(String::from_str(alloc, word)?)?;
    }
    Ok(words)
}

/// `invoke HEX EXPORT WORDS`, with a blank for each word after the first: the call of what the module exports under that name.
pub fn called(alloc: Global, around: &Around, words: &str) -> Result<String, OutOfMemory> {
    let (digits, rest) = word(words);
    let (export, _) = word(rest);
    let bytes = around.whole(alloc, digits)?;
    let words = words_of(alloc, rest)?;
    match invoke(alloc, bytes.as_slice(), export, words.as_slice()) {
        Ok(answer) => answered(alloc, answer),
        Err(end) => ended(alloc, end),
    }
}
