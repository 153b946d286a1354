// The reader of a chunked body.
ghost use Rattle.std.specs.Prelude.{◌≡◌, true, ◌≤◌, ◌<◌, ◌↔◌, length, IfOk, OnErr, IsTrue};
ghost use Rattle.h1_model.specs.Chunks.{start, sought, section_at, section_taken, place_taken, run_of};
ghost use Rattle.h1_model.specs.Trailers.{piece_limit};
ghost use Rattle.h1_chunks.specs.Answers.{is_data, seen_run, Answers, IsWithinSection, UsesWithin};
ghost use Rattle.h1_chunks.specs.Seen.{seen_place};
ghost use Rattle.h1_chunks.specs.Waits.{IsWithinSize};

use crate::lines::section_cut;
use crate::place::{ChunkState, Sought};
use crate::section::trailers;
use crate::size::is_extending;
use gate_base::{Octets, OutOfMemory};
use h1_text::Cut;
use header_maps::HeaderList;
use std::alloc::Global;
use std::marker::Model;

/// How many bytes of data come at a time, at most.
const PIECE_LIMIT: usize = 16_384;

/// What a text spells in a chunked body.
#[derive(Drop)]
pub enum ChunkStep {
    /// 1 to 16,384 bytes of data, however many chunks they come in, and how many bytes of the text they use up.
    Data { bytes: Octets, used: usize },
    /// The body's end with its trailers, of which none may be left, and how many bytes of the text it uses up.
    End { trailers: HeaderList, used: usize },
    /// Nothing as yet.
    NotYet,
    /// What is not the coding: the status of the answer, 400.
    Refused { number: u16 },
}

/// Bytes of data, how many bytes of the text they take, and the place after them.
#[derive(Drop)]
pub struct Run {
    pub bytes: Octets,
    pub used: usize,
    pub place: ChunkState,
}

/// Reads a chunked body (RFC 9112 section 7.1). It keeps its place in the coding and no bytes; clauses see the place.
#[derive(Drop)]
pub struct ChunkReader {
    place: ChunkState,
}

impl Model for ChunkReader {
    ghost use Rattle.h1_model.specs.Chunks.{Place};
    ghost use Rattle.h1_chunks.specs.Seen.{seen_place};

    ghost Value = { Place };

    ghost view = { λ r. seen_place r.place };
}

/// How many bytes come next: those that are there, of those that are left in the chunk, of those that there is room for.
fn next_len(there: usize, left: u64, room: usize) -> usize
    ensures there { result ≤ there }
    ensures left { result ≤ left }
    ensures room { result ≤ room }
    ensures some { 0 < there → 0 < left → 0 < room → 0 < result }
{
    let most = there.min(room);
    if left < most as u64 {
        left as usize
    } else {
        most
    }
}

/// The first 16,384 bytes of data that a text carries from a place on, or as many as there are.
fn run_from(alloc: Global, place: ChunkState, text: &[u8]) -> Result<Run, OutOfMemory>
    ensures run { IfOk result (λ run. seen_run run ≡ run_of piece_limit (seen_place place) text.now) }
    ensures within { IfOk result (λ run. run.used ≤ length text.now) }
{
    let mut run = Run {
        bytes: Octets::new(alloc),
        used: 0,
        place,
    };
    while run.bytes.len() < PIECE_LIMIT {
        let rest = &text[run.used..];
        let Sought::Data { at, left } = run.place.sought(rest) else {
            break;
        };
        let len = next_len(rest.len() - at, left, PIECE_LIMIT - run.bytes.len());
        run.bytes.extend_from_slice(&rest[at..at + len])?;
        run.used += at + len;
        run.place = ChunkState::Inside(left - len as u64);
    }
    Ok(run)
}

impl ChunkReader {
    /// The reader of a body of which nothing has come. It takes no memory.
    pub fn new() -> Self
        ensures { result ≡ start }
    {
        ChunkReader {
            place: ChunkState::SizeLine,
        }
    }

    /// A reader at the same place. It takes no memory.
    pub fn copy(&self) -> Self
        ensures { result ≡ self.now }
    {
        ChunkReader { place: self.place }
    }

    /// Whether a byte of data is what a text has next, from the reader's place on. It takes no memory.
    pub fn has_data(&self, text: &[u8]) -> bool
        ensures { result ≡ is_data (sought self.now text.now) }
    {
        matches!(self.place.sought(text), Sought::Data { .. })
    }

    /// Whether a trailer section is due at the front of a text, right where the reader stands, and neither its end nor too much of it has come.
    /// It takes no memory.
    pub fn is_within_section(&self, text: &[u8]) -> bool
        ensures { IsTrue result ↔ IsWithinSection self.now text.now }
    {
        match self.place {
            ChunkState::Section => matches!(section_cut(text), Cut::Unfinished),
            ChunkState::SizeLine | ChunkState::Inside(_) | ChunkState::Over => false,
        }
    }

    /// Whether the extensions of a size line stand at the end of a text, which none but CR and LF ends or refuses, as long as the text has
    /// fewer than 4,095 bytes. Where it answers no, that is not said. It takes no memory.
    #[tactic(auto, using(crate::proofs::Extensions::within_line, crate::proofs::Extensions::within_inside))]
    pub fn is_within_size(&self, text: &[u8]) -> bool
        ensures { result ≡ true → IsWithinSize self.now text.now }
    {
        match self.place {
            ChunkState::SizeLine => is_extending(text),
            ChunkState::Inside(0) => match text {
                [b'\r', b'\n', line @ ..] => is_extending(line),
                _ => false,
            },
            ChunkState::Inside(_) | ChunkState::Section | ChunkState::Over => false,
        }
    }

    /// Reads over what stands in front of a trailer section, the last chunk's line with it, where that section is what a text has next: how
    /// many bytes that takes, and none where something else is next. The reader then stands within the section. It takes no memory.
    pub fn enter_section(&mut self, text: &[u8]) -> usize
        ensures place { self.new ≡ place_taken self.old (sought self.old text.now) }
        ensures used { result ≡ section_taken (sought self.old text.now) }
        ensures within { result ≤ length text.now }
    {
        match self.place.sought(text) {
            Sought::Section { at } => {
                self.place = ChunkState::Section;
                at
            }
            Sought::Data { .. } | Sought::Waiting | Sought::Malformed => 0,
        }
    }

    /// What a text spells from the reader's place on. The text is what follows the bytes that earlier answers used. Data comes
    /// as soon as a byte of it is there. After the body's end the answer is `NotYet`; a refusal comes again.
    pub fn next(&mut self, alloc: Global, text: &[u8]) -> Result<ChunkStep, OutOfMemory>
        ensures ok { IfOk result (λ step. Answers self.old text.now step self.new) }
        ensures within { IfOk result (UsesWithin (length text.now)) }
        ensures err { OnErr result (self.new ≡ self.old) }
    {
        match self.place.sought(text) {
            Sought::Data { .. } => {
                let run = run_from(alloc, self.place, text)?;
                self.place = run.place;
                Ok(ChunkStep::Data {
                    bytes: run.bytes,
                    used: run.used,
                })
            }
            Sought::Section { at } => self.end(alloc, text, at),
            Sought::Waiting => Ok(ChunkStep::NotYet),
            Sought::Malformed => Ok(ChunkStep::Refused { number: 400 }),
        }
    }

    /// What the text spells after the last chunk's line, which ends at a place.
    fn end(&mut self, alloc: Global, text: &[u8], at: usize) -> Result<ChunkStep, OutOfMemory>
        requires sought { sought self.old text.now ≡ section_at at }
        requires within { at ≤ length text.now }
        ensures ok { IfOk result (λ step. Answers self.old text.now step self.new) }
        ensures within { IfOk result (UsesWithin (length text.now)) }
        ensures err { OnErr result (self.new ≡ self.old) }
    {
        let rest = &text[at..];
        match section_cut(rest) {
            Cut::Whole { len, .. } => match trailers(alloc, rest, len)? {
                Some(trailers) => {
                    self.place = ChunkState::Over;
                    Ok(ChunkStep::End {
                        trailers,
                        used: at + len,
                    })
                }
                None => Ok(ChunkStep::Refused { number: 400 }),
            },
            Cut::TooLarge => Ok(ChunkStep::Refused { number: 400 }),
            Cut::Unfinished => Ok(ChunkStep::NotYet),
        }
    }
}
