//! Calls that were worked out by hand. The functions have nothing to do: their contracts are the laws.

ghost use Rattle.std.specs.Prelude.{◌≡◌, [], ◌∷◌, Some, None, Ok, Err, codes as bytes_of};
ghost use Rattle.gate_base.specs.declared.cause.Cause.TheVariants as causes;
ghost use Rattle.wasm_syntax.specs.declared.types.Value.TheVariants as values;
ghost use Rattle.wasm_syntax.specs.declared.types.ValueType.TheVariants as types;
ghost use Rattle.wasm_syntax.specs.ReductionExamples.{call, sum_module, module_of, endless_body, unreachable_body};
ghost use Rattle.wasm_invoke.specs.Arguments.{Fits, AllFit, values_of};
ghost use Rattle.wasm_invoke.specs.Exports.{exported};
ghost use Rattle.wasm_invoke.specs.Invoking.{answered, trapped, spent, went_as, went, Invokes};
ghost use Rattle.wasm_invoke.specs.Laws.{OneAnswer, OneWay, RefusedOrGoes};
ghost use Rattle.wasm_invoke.specs.Examples.{memory_export, some_exports, set_body, starting, bytes_of_sums};
ghost use Rattle.wasm_invoke.specs.declared.ends.End.TheVariants as ends;
ghost use Rattle.wasm_invoke.specs.declared.ends.Refusal.TheVariants as refusals;

/// A call has one answer, but that memory may run out at any time: bytes, a name and words are refused for one cause, or the call goes, in one way, and never both.
pub fn one_answer()
    ensures answer { OneAnswer }
    ensures way { OneWay }
    ensures apart { RefusedOrGoes }
{}

/// A word fits a type where it is decimal digits, zeros in front allowed, of a number below 2^32 or 2^64.
pub fn worked_words()
    ensures zeros { Fits types.I32 (bytes_of "007") }
    ensures greatest { Fits types.I32 (bytes_of "4294967295") }
    ensures too_great { Fits types.I32 (bytes_of "4294967296") → ⊥ }
    ensures longer_type { Fits types.I64 (bytes_of "4294967296") }
    ensures far_too_great { Fits types.I64 (bytes_of "18446744073709551616") → ⊥ }
    ensures plus { Fits types.I32 (bytes_of "+1") → ⊥ }
    ensures minus { Fits types.I32 (bytes_of "-1") → ⊥ }
    ensures nothing { Fits types.I32 [] → ⊥ }
{}

/// There is one word for each type, in order.
pub fn worked_arguments()
    ensures fit { AllFit (types.I32 ∷ types.I64 ∷ []) (bytes_of "7" ∷ bytes_of "4294967296" ∷ []) }
    ensures values { values_of (types.I32 ∷ types.I64 ∷ []) (bytes_of "7" ∷ bytes_of "4294967296" ∷ []) ≡ values.I32 7 ∷ values.I64 4294967296 ∷ [] }
    ensures order { AllFit (types.I64 ∷ types.I32 ∷ []) (bytes_of "7" ∷ bytes_of "4294967296" ∷ []) → ⊥ }
    ensures too_few { AllFit (types.I32 ∷ types.I32 ∷ []) (bytes_of "7" ∷ []) → ⊥ }
    ensures too_many { AllFit (types.I32 ∷ []) (bytes_of "7" ∷ bytes_of "8" ∷ []) → ⊥ }
    ensures none { AllFit [] [] }
{}

/// The function of a name is found by the whole name, and what else has the name is passed over.
pub fn worked_exports()
    ensures found { exported (bytes_of "f") some_exports ≡ Some 3 }
    ensures longer { exported (bytes_of "ff") some_exports ≡ Some 1 }
    ensures of_another_kind { exported (bytes_of "m") some_exports ≡ None }
    ensures missing { exported (bytes_of "g") some_exports ≡ None }
    ensures passed_over { exported (bytes_of "f") (memory_export (bytes_of "f") ∷ some_exports) ≡ Some 3 }
{}

/// How calls go, with the units that they use: the sum of the numbers up to 3 takes 45, endless recursion ends in a trap.
pub fn worked_calls()
    ensures sums { went sum_module 0 (values.I32 3 ∷ []) ≡ answered (Some (values.I32 6)) 45 }
    ensures one_short { went_as (call sum_module 0 (values.I32 3 ∷ []) 44) ≡ spent }
    ensures endless { went (module_of endless_body) 0 [] ≡ trapped causes.Stack }
{}

/// The start function runs first, and its units are not counted; where it traps, nothing else runs.
pub fn worked_starts()
    ensures begun { went (starting set_body) 1 [] ≡ answered (Some (values.I32 5)) 1 }
    ensures without { went (record (starting set_body) { start = None }) 1 [] ≡ answered (Some (values.I32 1)) 1 }
    ensures stopped { went (starting unreachable_body) 1 [] ≡ trapped causes.Unreachable }
{}

/// The whole call, from the bytes of a module: a result, no export of the name, and no arguments.
pub fn worked_invocations()
    ensures called { Invokes bytes_of_sums (bytes_of "f") (bytes_of "3" ∷ []) (Ok (record { result = Some (values.I32 6); used = 45 })) }
    ensures no_export { Invokes bytes_of_sums (bytes_of "g") [] (Err (ends.Refused refusals.NoExport)) }
    ensures no_arguments { Invokes bytes_of_sums (bytes_of "f") [] (Err (ends.Refused refusals.Arguments)) }
{}
