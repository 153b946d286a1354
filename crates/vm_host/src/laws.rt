//! What linking and fitting give, for machines and callbacks, and callbacks that were worked out by hand. The functions have
//! nothing to do: their contracts are the laws.

ghost use Rattle.std.specs.Prelude.{◌≡◌, ℕ, [], ◌∷◌, Some, None};
ghost use Rattle.gate_base.specs.declared.cause.Cause.TheVariants as cause;
ghost use Rattle.wasm_syntax.specs.declared.types.Value.TheVariants as value;
ghost use Rattle.wasm_syntax.specs.ReductionExamples.{asking_module, sum_module};
ghost use Rattle.store_model.specs.Program.{done};
ghost use Rattle.abi_types.specs.declared.guest.Closing.TheVariants as closing;
ghost use Rattle.abi_types.specs.GuestAt.{allocating, alloc_gave, alloc_none, alloc_trapped, alloc_spent};
ghost use Rattle.vm_host.specs.Calling.{calling_back, returned, run_spent};
ghost use Rattle.vm_host.specs.Examples.{resting, asking, echoing, summing};
ghost use Rattle.wasm_syntax.specs.declared.module.Module.{Module as Modules};
ghost use Rattle.wasm_syntax.specs.Validity.{IsValid};
ghost use Rattle.wasm_syntax.specs.ReductionPrograms.{program_of};
ghost use Rattle.vm_host.specs.Seeing.{AreClosings, IsAllocator};
ghost use Rattle.vm_host.specs.Targets.{targets_of, AreTargets, closings_of};
ghost use Rattle.vm_host.specs.RoleTypes.{functions_for, AreFunctions, allocator_in, beginner_in, TakesNothing};
ghost use Rattle.vm_host.specs.Fits.{fit_fault};

/// In a module that fits each import has a target of its type, and the answer of the closed host is of that type too.
pub fn imports_have_targets()
    ensures targets { (m : Modules) (pages : ℕ) → fit_fault m pages ≡ None → AreTargets (targets_of m.imports) (program_of m pages) }
    ensures closings { (m : Modules) (pages : ℕ) → fit_fault m pages ≡ None → AreClosings (program_of m pages) (closings_of (targets_of m.imports)) }
{}

/// In a valid module that fits each export of the table is a function of its type: so the allocator takes a size and gives
/// a place, and the functions that begin take nothing.
pub fn exports_have_types()
    ensures functions { (m : Modules) (pages : ℕ) → IsValid m → fit_fault m pages ≡ None → AreFunctions (program_of m pages) (functions_for m.exports) }
    ensures allocator { (m : Modules) (pages : ℕ) → IsValid m → fit_fault m pages ≡ None → IsAllocator (program_of m pages) (allocator_in (functions_for m.exports)) }
    ensures start { (m : Modules) (pages : ℕ) → IsValid m → TakesNothing (program_of m pages) m.start }
    ensures begins { (m : Modules) (pages : ℕ) → IsValid m → fit_fault m pages ≡ None → TakesNothing (program_of m pages) (beginner_in (functions_for m.exports)) }
{}

/// A callback that asks its host once pays the units of its own instructions alone, and with one unit less it spends its fuel
/// after the host's answer.
pub fn worked_callbacks()
    ensures returned { calling_back echoing 1 [] (asking 4) 0 ≡ done (returned (Some (value.I32 11)) (asking 0) 1) }
    ensures one_short { calling_back echoing 1 [] (asking 3) 0 ≡ done (run_spent 0 1) }
    ensures before_the_call { calling_back echoing 1 [] (asking 2) 0 ≡ done (run_spent 0 0) }
    ensures some_left { calling_back echoing 1 [] (asking 1000) 0 ≡ done (returned (Some (value.I32 11)) (asking 996) 1) }
    ensures an_import { calling_back echoing 0 (value.I32 8 ∷ []) (asking 0) 0 ≡ done (returned (Some (value.I32 8)) (asking 0) 1) }
{}

/// An allocator spends of the fuel that is left; its imports are answered while the host is closed, and one of them that is
/// itself the allocator gives that answer for a place.
pub fn worked_allocations()
    ensures gave { allocating 1 (summing 20) ≡ alloc_gave 1 (summing 1) }
    ensures one_short { allocating 1 (summing 18) ≡ alloc_spent 0 }
    ensures none { allocating 1 (resting sum_module None [] 20) ≡ alloc_none (resting sum_module None [] 20) }
    ensures closed { allocating 0 (resting asking_module (Some 1) (closing.Status 10 ∷ []) 4) ≡ alloc_gave 15 (resting asking_module (Some 1) (closing.Status 10 ∷ []) 0) }
    ensures an_import { allocating 0 (resting asking_module (Some 0) (closing.Status 10 ∷ []) 0) ≡ alloc_gave 10 (resting asking_module (Some 0) (closing.Status 10 ∷ []) 0) }
    ensures exits { allocating 0 (resting asking_module (Some 1) (closing.Exit ∷ []) 9) ≡ alloc_trapped cause.Exit 6 }
{}
