//! Modules.

ghost use Rattle.std.specs.Prelude.{◌≡◌, ◌⊎◌, ◌<◌, ◌^◌, ℕ, List, IfOk, IfErr, IfSome, IfNone, IsSomeAnd, OnOk};
ghost use Rattle.wasm_syntax.specs.Grammar.{Spells};
ghost use Rattle.wasm_syntax.specs.Spelled.{IsSpelled};
ghost use Rattle.wasm_syntax.specs.Validity.{IsValid, FirstInvalid, turn_of};
ghost use Rattle.wasm_syntax.specs.declared.valid.Part.{Part as Parts};
ghost use Rattle.wasm_validator.specs.declared.module.ValidEnd.TheVariants as end;
ghost use Rattle.wasm_validator.specs.Ends.{IsFound, AllValid, IsFirstInvalid, Accepts, Refuses};
ghost use Rattle.wasm_validator.specs.Parts.{IsLookedAt};
ghost use Rattle.wasm_validator.specs.Scopes.{IsScope};

use crate::code::first_bad_code;
use crate::entries::first_bad;
use crate::export::first_bad_export;
use crate::scope::Scope;
use gate_base::OutOfMemory;
use std::alloc::Global;
use wasm_syntax::{Module, Part, ValidModule, typing_laws};

/// Why a module was not accepted.
#[derive(Clone, Copy)]
pub enum ValidEnd {
    /// The first part that is not valid, the index of its entry from 0, and in a code the place of the
    /// first instruction up to which it cannot be typed. In another part the place is 0.
    Invalid { part: Part, index: u32, place: u32 },
    /// There was no memory to tell.
    OutOfMemory,
}

impl From<OutOfMemory> for ValidEnd {
    ghost use Rattle.wasm_validator.specs.declared.module.ValidEnd.TheVariants as end;

    ghost from_gives = { λ _ e. e ≡ end.OutOfMemory };

    fn from(_e: OutOfMemory) -> ValidEnd {
        ValidEnd::OutOfMemory
    }
}

/// Where a module is not valid.
#[derive(Clone, Copy)]
pub(crate) struct Found {
    pub(crate) part: Part,
    pub(crate) index: usize,
    pub(crate) place: usize,
}

/// The part that is looked at in this turn, before the exports and the codes.
fn part_in(turn: usize) -> Part
    requires { turn < 9 }
    ensures turn { turn_of result ≡ turn }
    ensures looked { IsLookedAt result }
{
    match turn {
        0 => Part::Signature,
        1 => Part::Import,
        2 => Part::Function,
        3 => Part::Table,
        4 => Part::Memory,
        5 => Part::Global,
        6 => Part::Element,
        7 => Part::Segment,
        8 => Part::Start,
        _ => unreachable!(),
    }
}

/// The first entry that is not valid.
fn first_invalid(alloc: Global, m: &Module) -> Result<Option<Found>, OutOfMemory>
    requires { IsSpelled m.now }
    ensures none { IfOk result (λ f. IfNone f (AllValid m.now)) }
    ensures some { IfOk result (λ f. IfSome f (IsFound m.now)) }
{
    let scope = Scope::of(alloc, m)?;
    first_invalid_in(alloc, m, &scope)
}

/// The first entry that is not valid, in the scope of its module.
fn first_invalid_in(alloc: Global, m: &Module, scope: &Scope) -> Result<Option<Found>, OutOfMemory>
    requires spelled { IsSpelled m.now }
    requires scope { IsScope scope.now m.now }
    ensures none { IfOk result (λ f. IfNone f (AllValid m.now)) }
    ensures some { IfOk result (λ f. IfSome f (IsFound m.now)) }
{
    let mut turn = 0;
    while turn < 9 {
        let part = part_in(turn);
        if let Some(index) = first_bad(m, scope, part) {
            return Ok(Some(Found {
                part,
                index,
                place: 0,
            }));
        }
        turn += 1;
    }
    if let Some(index) = first_bad_export(alloc, m, scope)? {
        return Ok(Some(Found {
            part: Part::Export,
            index,
            place: 0,
        }));
    }
    if let Some(f) = first_bad_code(alloc, m, scope)? {
        return Ok(Some(Found {
            part: Part::Code,
            index: f.index,
            place: f.place,
        }));
    }
    Ok(None)
}

/// Why a module is not accepted, where it is not.
fn refusal(alloc: Global, m: &Module) -> Option<ValidEnd>
    requires { IsSpelled m.now }
    ensures valid { IfNone result (AllValid m.now) }
    ensures accepted { IsValid m.now → IfSome result (λ e. e ≡ end.OutOfMemory) }
    ensures refused { IfSome result (IsFirstInvalid m.now) }
    ensures faulty { (p : Parts) (n place : ℕ) → FirstInvalid m.now p n place → IsSomeAnd result (λ e. (e ≡ end.Invalid p n place) ⊎ (e ≡ end.OutOfMemory)) }
{
    typing_laws::one_first_invalid();
    match first_invalid(alloc, m) {
        Ok(None) => None,
        Ok(Some(f)) => Some(ValidEnd::Invalid {
            part: f.part,
            index: f.index as u32,
            place: f.place as u32,
        }),
        Err(_) => Some(ValidEnd::OutOfMemory),
    }
}

/// The module, where it is valid (WebAssembly Core 1.0 chapter 3, and the same of Core 2.0 for sign extension, `memory.copy`
/// and `memory.fill`), or else its first fault. The module is dropped then. It goes over each code once,
/// and no deeper for blocks that are nested.
pub fn validate(alloc: Global, m: Module) -> Result<ValidModule, ValidEnd>
    requires { (b : List ℕ) × Spells b m }

    // A module is accepted exactly where it is valid, unless memory runs out.
    ensures same { IfOk result (λ v. v ≡ m) }
    ensures valid { OnOk result (IsValid m) }
    ensures accepted { IsValid m → Accepts result }

    // It is refused exactly at its first fault, unless memory runs out.
    ensures refused { IfErr result (IsFirstInvalid m) }
    ensures faulty { (p : Parts) (n place : ℕ) → FirstInvalid m p n place → Refuses result p n place }
{
    match refusal(alloc, &m) {
        None => Ok(ValidModule::hold(m)),
        Some(end) => {
            drop(m);
            Err(end)
        }
    }
}
