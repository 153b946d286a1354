//! Modules.

ghost use Rattle.std.specs.Prelude.{◌≡◌, ◌≤◌, ◌-◌, ◌↔◌, ℕ, length, drop, IfOk, IfErr, OnOk, IsErrOf, Ok, Err, []};
ghost use Rattle.wasm_syntax.specs.declared.module.Module.{Module as Modules};
ghost use Rattle.wasm_syntax.specs.Grammar.{Spells, FirstFault, header as header_bytes, header_read, before_all, sections_read, module_made, empty_module, module_read};
ghost use Rattle.wasm_reader.specs.Steps.{GivesModule, made_from, Answers, Refuses, IsFirstFault};

use crate::ends::{Bounds, ReadEnd};
use crate::items::{BAD_SECTION, OVER_LIMIT, cut_off};
use crate::sections::{after, is_complete, put, section};
use gate_base::Members;
use std::alloc::Global;
use wasm_syntax::{Before, Module, module_laws};

/// One of the header's bytes differs.
const BAD_HEADER: u8 = 1;

/// 4 MiB: no module has more bytes.
const MOST_BYTES: usize = 4194304;

/// The magic and the version.
const HEADER: [u8; 8] = [0x00, 0x61, 0x73, 0x6D, 0x01, 0x00, 0x00, 0x00];

/// That the bytes begin with the header, and the place behind it.
fn header(b: &[u8]) -> Result<usize, ReadEnd>
    ensures behind { IfOk result (λ place. (place ≤ length b.now) × (header_read header_bytes b.now ≡ Ok (drop place b.now))) }
    ensures fault { IfErr result (λ e. GivesModule b.now (Err e) (header_read header_bytes b.now)) }
{
    for i in 0..8 {
        if i == b.len() {
            return Err(cut_off(b));
        }
        if b[i] != HEADER[i] {
            return Err(ReadEnd::Refused {
                number: BAD_HEADER,
                place: i,
            });
        }
    }
    Ok(8)
}

/// A module with nothing in it.
fn empty(alloc: Global) -> Module
    ensures { result ≡ empty_module }
{
    Module {
        types: Members::new(alloc),
        imports: Members::new(alloc),
        functions: Members::new(alloc),
        tables: Members::new(alloc),
        memories: Members::new(alloc),
        globals: Members::new(alloc),
        exports: Members::new(alloc),
        start: None,
        elements: Members::new(alloc),
        codes: Members::new(alloc),
        segments: Members::new(alloc),
    }
}

/// That no section is missing whose counterpart has members.
fn complete(b: &[u8], before: Before) -> Result<(), ReadEnd>
    ensures ok { (m : Modules) → OnOk result (made_from m (sections_read 0 before []) ≡ Ok m) }
    ensures err { (m : Modules) → IfErr result (λ e. GivesModule b.now (Err e) (made_from m (sections_read 0 before []))) }
{
    if !is_complete(before) {
        return Err(ReadEnd::Refused {
            number: BAD_SECTION,
            place: b.len(),
        });
    }
    Ok(())
}

/// Reads the sections behind the header into a module that is empty.
fn all_sections(alloc: Global, b: &[u8], at: usize, made: &mut Module) -> Result<(), ReadEnd>
    requires place { at ≤ length b.now }
    requires empty { made.old ≡ empty_module }
    ensures ok { OnOk result (module_made (sections_read (length b.now - at) before_all (drop at b.now)) ≡ Ok made.new) }
    ensures err { IfErr result (λ e. GivesModule b.now (Err e) (module_made (sections_read (length b.now - at) before_all (drop at b.now)))) }
{
    let k = Bounds::Passes { size: b.len() };
    let mut before = Before {
        last: 0,
        functions: None,
        codes: None,
    };
    let mut place = at;
    // Each section takes a byte at least, so there are no more of them than bytes.
    for _ in at..b.len() {
        if place == b.len() {
            return complete(b, before);
        }
        let (section, behind) = section(alloc, b, place, k, before)?;
        before = after(before, &section);
        put(made, section);
        place = behind;
    }
    if place < b.len() {
        return Err(cut_off(b));
    }
    complete(b, before)
}

/// Reads the sections behind the header.
fn sections(alloc: Global, b: &[u8], at: usize) -> Result<Module, ReadEnd>
    requires { at ≤ length b.now }
    ensures { GivesModule b.now result (module_made (sections_read (length b.now - at) before_all (drop at b.now))) }
{
    let mut made = empty(alloc);
    match all_sections(alloc, b, at, &mut made) {
        Ok(()) => Ok(made),
        Err(end) => Err(end),
    }
}

/// Reads the header and the sections.
#[tactic(auto, unfolding(wasm_syntax::specs::Grammar::module_read))]
fn whole(alloc: Global, b: &[u8]) -> Result<Module, ReadEnd>
    ensures { GivesModule b.now result (module_read b.now) }
{
    if b.len() > MOST_BYTES {
        return Err(ReadEnd::Refused {
            number: OVER_LIMIT,
            place: 0,
        });
    }
    let place = header(b)?;
    sections(alloc, b, place)
}

/// The module that the bytes spell, or the first fault in reading order: its row of the table, from 1
/// on, and its place (WebAssembly Core 1.0 chapter 5, with sign extension, `memory.copy` and
/// `memory.fill` of Core 2.0, within the profile). It reads each byte a constant number of times, and no deeper for blocks
/// that are nested.
pub fn read_module(alloc: Global, b: &[u8]) -> Result<Module, ReadEnd>
    // A module is read exactly where the bytes spell it, unless memory runs out.
    ensures read { IfOk result (Spells b.now) }
    ensures spelled { (m : Modules) → Spells b.now m → Answers result m }

    // It is refused exactly at the first fault, unless memory runs out.
    ensures refused { IfErr result (IsFirstFault b.now) }
    ensures faulty { (number place : ℕ) → FirstFault b.now number place → Refuses result number place }
{
    module_laws::read_is_spelled();
    whole(alloc, b)
}
