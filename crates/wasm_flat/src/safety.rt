//! Type safety: a valid module never gets stuck. The functions have nothing to do: their contracts are the laws.

ghost use Rattle.std.specs.Prelude.{List, [], ◌∷◌, Some};
ghost use Rattle.wasm_syntax.specs.declared.types.Value.{Value};
ghost use Rattle.wasm_syntax.specs.declared.types.ValueType.{ValueType};
ghost use Rattle.wasm_syntax.specs.declared.types.ValueType.TheVariants.{I32, I64};
ghost use Rattle.wasm_flat.specs.HoldsExamples.{Leaves, LeavesWith, adding, adding_long, branching, half, IsFullStore, word, long, IsCallWith};
ghost use Rattle.wasm_flat.specs.Sound.{ReductionKeepsTypes, StepKeepsTypes, RunKeepsTypes, AnswerKeepsTypes, CallKeepsTypes, HostedIsNeverStuck, FlatStepsFollowTyped, FlatRunsFollowTyped, ModuleIsSound, FirstStoreIsTyped, ModuleIsNeverStuck, FlatModuleFollows};
ghost use Rattle.wasm_flat.specs.Made.{MadeIsSound, MadeHasStep, MadeIsNeverStuck, FlatFollowsMade, AnsweredRuns, NoneChangesNothing};

/// Preservation and progress (WebAssembly Core 1.0, appendix on soundness) of one reduction: it leaves a thread
/// that fits the typing rules, a branch or a `return` with what its label or its function takes, values
/// of the types of the thread, a question to the host with arguments of the function's parameters, or
/// a trap. It is never stuck.
pub fn reductions_keep_types()
    ensures { ReductionKeepsTypes }
{}

/// A configuration that fits has a step while a call is pending that waits for nothing, and no run of it
/// is stuck; what is left fits too, a result has its type, and the host is asked with arguments of the
/// function's parameters. So does what an answer of the type that is waited for, and a call with
/// arguments of the parameters of its function, make of it.
pub fn runs_keep_types()
    ensures step { StepKeepsTypes }
    ensures run { RunKeepsTypes }
    ensures answered { AnswerKeepsTypes }
    ensures called { CallKeepsTypes }
{}

/// With a host that answers each call with a value of the function's result no run is stuck.
pub fn hosted_runs_keep_types<H>()
    ensures { HostedIsNeverStuck H }
{}

/// The flat machine of a configuration that fits follows it in each step and each run.
pub fn flat_runs_follow_typed()
    ensures step { FlatStepsFollowTyped }
    ensures run { FlatRunsFollowTyped }
{}

/// A valid module never gets stuck: its program fits the typing rules, with its first store, where it
/// imports no global, and with any store in which each global has its type and each element is a
/// function. So no run of a call is stuck that has arguments of the function's parameters, and the flat
/// machine follows it.
pub fn modules_never_stick()
    ensures sound { ModuleIsSound }
    ensures first { FirstStoreIsTyped }
    ensures run { ModuleIsNeverStuck }
    ensures flat { FlatModuleFollows }
{}

/// Whatever calls, answers of the type that is waited for, steps and writes of the host make of an
/// instance of a valid module has a step while its topmost call waits for nothing, no run of it is
/// stuck, and the flat machine that stands for it follows it.
pub fn made_of_modules_never_sticks()
    ensures sound { MadeIsSound }
    ensures step { MadeHasStep }
    ensures run { MadeIsNeverStuck }
    ensures flat { FlatFollowsMade }
{}

/// A call that waits in the host's runs once it is answered with a value of the type that it waits for;
/// where it waits for none it stays as it stands.
pub fn answers_go_on()
    ensures runs { AnsweredRuns }
    ensures none { NoneChangesNothing }
{}

/// Threads that were worked out by hand: one of each kind that fits, and two that fit with no types at
/// all.
pub fn worked_threads()
    ensures adds { Leaves adding (I32 ∷ []) }
    ensures adds_no_long { (after : List ValueType) → Leaves adding_long after → ⊥ }
    ensures branches { Leaves branching (I32 ∷ []) }
    ensures waits { LeavesWith (I32 ∷ []) half (I32 ∷ []) }
    ensures waits_for_no_long { (after : List ValueType) → LeavesWith (I64 ∷ []) half after → ⊥ }
{}

/// Stores and calls that were worked out by hand: in a module with two functions and two globals that
/// are words no global may be long and no element the third function; and a function that takes nothing
/// is called with no argument.
pub fn worked_calls()
    ensures words { IsFullStore (Some 1 ∷ Some 0 ∷ []) (word ∷ word ∷ []) }
    ensures no_long { IsFullStore (Some 1 ∷ Some 0 ∷ []) (word ∷ long ∷ []) → ⊥ }
    ensures no_third { IsFullStore (Some 2 ∷ []) (word ∷ word ∷ []) → ⊥ }
    ensures no_arguments { IsCallWith [] }
    ensures one_too_many { (v : Value) → IsCallWith (v ∷ []) → ⊥ }
{}
