//! Laws of nesting, typing and valid modules. The functions have nothing to do: their contracts are the laws.

ghost use Rattle.std.specs.Prelude.{◌≡◌, ◌↔◌, ℕ, ◌<◌, List, [], ◌∷◌, ◌++◌, length, IsTrue};
ghost use Rattle.wasm_syntax.specs.declared.types.ValueType.{ValueType as ValueTypes};
ghost use Rattle.wasm_syntax.specs.declared.instr.Instr.{Instr as Instrs};
ghost use Rattle.wasm_syntax.specs.declared.instr.Instr.TheVariants as instr;
ghost use Rattle.wasm_syntax.specs.declared.instr.BlockType.TheVariants as block_type;
ghost use Rattle.wasm_syntax.specs.declared.module.Code.{Code as Codes};
ghost use Rattle.wasm_syntax.specs.declared.module.Module.{Module as Modules};
ghost use Rattle.wasm_syntax.specs.declared.valid.Part.{Part as Parts};
ghost use Rattle.wasm_syntax.specs.declared.valid.Part.TheVariants as part;
ghost use Rattle.wasm_syntax.specs.Opcodes.{byte_of, opcode_of, shape_of};
ghost use Rattle.wasm_syntax.specs.RowsByBytes.{ranges, form_at, HasRow, ascend_from, cover_from};
ghost use Rattle.wasm_syntax.specs.Nested.{Nested, nothing, choice, Cut, whole, ended, parted, nests, NestsAs, Writes};
ghost use Rattle.wasm_syntax.specs.CutLists.{CutAt};
ghost use Rattle.wasm_syntax.specs.Typing.{Context, Typed, IsTypedBody};
ghost use Rattle.wasm_syntax.specs.Validity.{IsCode, IsBounded, IsValid, CanGoOn, IsFirstUntyped, FirstInvalid};
ghost use Rattle.wasm_syntax.specs.Examples.{example};
ghost use Rattle.wasm_syntax.specs.ValidExamples.{nowhere, with_memory, unreachable_add, branch_in_loop, branch_in_block, branch_with_result, both_branches, one_branch, drop_from_below, load_aligned, copy_words, fill_long, left_over, two_memories, two_imported_memories, memory_beside_import, full_module};

use crate::opcode::OPCODES;

/// The row of each instruction is the one that the standard has for its opcode byte, with what
/// stands behind the byte. The ranges lie apart, and hold the opcodes of the profile alone.
pub fn rows_by_their_bytes()
    ensures rows { (i : Instrs) → HasRow (shape_of (opcode_of i)) (form_at (byte_of (opcode_of i))) i }
    ensures apart { IsTrue (ascend_from 0 ranges) }
    ensures alone { IsTrue (cover_from 0 OPCODES) }
{}

/// How a flat list nests is what it is written from, in both directions, and it nests in one way.
pub fn lists_and_nesting_agree()
    ensures written_ends { (code : Nested) (body rest : List Instrs) → Writes code body → nests (body ++ instr.End ∷ rest) ≡ ended code (nests rest) }
    ensures at_end { (is : List Instrs) (code : Nested) (behind : Cut) → (nests is ≡ ended code behind) ↔ CutAt instr.End code behind is }
    ensures at_else { (is : List Instrs) (code : Nested) (behind : Cut) → (nests is ≡ parted code behind) ↔ CutAt instr.Else code behind is }
    ensures uncut { (is : List Instrs) (code : Nested) → (nests is ≡ whole code) ↔ Writes code is }
    ensures bodies { (is : List Instrs) (code : Nested) → NestsAs is code ↔ ((body : List Instrs) × (is ≡ body ++ instr.End ∷ []) × Writes code body) }
    ensures one_nesting { (is : List Instrs) (c d : Nested) → NestsAs is c → NestsAs is d → c ≡ d }
    ensures one_writer { (is : List Instrs) (c d : Nested) → Writes c is → Writes d is → c ≡ d }
{}

/// A sequence leaves what stands below its operands as it is.
pub fn types_below_stay()
    ensures { (c : Context) (code : Nested) (before after below : List ValueTypes) → Typed c code before after → Typed c code (before ++ below) (after ++ below) }
{}

/// A module has one first fault at most, and a valid one has none.
pub fn one_first_invalid()
    ensures one { (m : Modules) (p q : Parts) (n k place spot : ℕ) → FirstInvalid m p n place → FirstInvalid m q k spot → (p ≡ q) × (n ≡ k) × (place ≡ spot) }
    ensures apart { (m : Modules) (p : Parts) (n place : ℕ) → IsValid m → FirstInvalid m p n place → ⊥ }
{}

/// The first fault of a code stands at one of its instructions, and the code is not valid. One that is
/// typed up to its last instruction is.
pub fn faults_stand_in_their_code()
    ensures bad { (m : Modules) (n : ℕ) (code : Codes) (place : ℕ) → IsFirstUntyped m n code place → IsCode m n code → ⊥ }
    ensures within { (m : Modules) (n : ℕ) (code : Codes) (place : ℕ) → IsBounded code → IsFirstUntyped m n code place → place < length code.body }
    ensures to_the_end { (m : Modules) (n : ℕ) (code : Codes) → IsBounded code → CanGoOn m n code.locals code.body ↔ IsCode m n code }
{}

/// Bodies that can be typed and bodies that cannot, worked out by hand.
pub fn worked_bodies()
    ensures behind_unreachable { IsTypedBody nowhere unreachable_add }
    ensures loop_takes_nothing { IsTypedBody nowhere branch_in_loop }
    ensures block_takes_its_result { IsTypedBody nowhere branch_with_result }
    ensures block_wants_its_result { IsTypedBody nowhere branch_in_block → ⊥ }
    ensures if_and_else { IsTypedBody nowhere both_branches }
    ensures if_alone { IsTypedBody nowhere one_branch → ⊥ }
    ensures no_else_no_result { (c : Context) (t : ValueTypes) (then rest : Nested) (before after : List ValueTypes) → Typed c (choice (block_type.Value t) then nothing rest) before after → ⊥ }
    ensures block_leaves_below { IsTypedBody nowhere drop_from_below → ⊥ }
    ensures aligned { IsTypedBody with_memory (load_aligned 2) }
    ensures aligned_too_far { IsTypedBody with_memory (load_aligned 3) → ⊥ }
    ensures no_memory { IsTypedBody nowhere (load_aligned 2) → ⊥ }
    ensures copies { IsTypedBody with_memory copy_words }
    ensures no_memory_to_copy { IsTypedBody nowhere copy_words → ⊥ }
    ensures length_of_64_bits { IsTypedBody with_memory fill_long → ⊥ }
{}

/// Modules that are valid, and first faults, worked out by hand.
pub fn worked_validity()
    ensures valid { IsValid example }
    ensures each_part { IsValid full_module }
    ensures second_memory { FirstInvalid two_memories part.Memory 1 0 }
    ensures second_import { FirstInvalid two_imported_memories part.Import 1 0 }
    ensures beside_import { FirstInvalid memory_beside_import part.Memory 0 0 }
    ensures left_on_the_stack { FirstInvalid left_over part.Code 0 1 }
{}
