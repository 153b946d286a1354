//! Laws over all numbers and byte lists. The functions have nothing to do: their contracts are the laws.

ghost use Rattle.std.specs.Prelude.{◌≡◌, ◌↔◌, ℕ, ◌<◌, ◌^◌, ◌-◌, ℤ, pos, negsuc, List, [], ◌∷◌, ◌++◌, Ok, Err, FitsSigned, IsTrue, slice_get, slice_index_or, Some};
ghost use Rattle.std.specs.Int.{w32, w64};
ghost use Rattle.wasm_syntax.specs.Kinds.{id_of, byte_of_kind};
ghost use Rattle.wasm_syntax.specs.declared.kinds.SectionKind.{SectionKind as SectionKinds};
ghost use Rattle.wasm_syntax.specs.declared.kinds.ExternalKind.{ExternalKind as ExternalKinds};
ghost use Rattle.wasm_syntax.specs.Opcodes.{byte_of, shape_of, stand_from, MakesOpcode, number_of, said_by};
ghost use Rattle.wasm_syntax.specs.declared.opcode.Prefixed.{Prefixed};
ghost use Rattle.wasm_syntax.specs.declared.opcode.PrefixedNumber.TheVariants as number;
ghost use Rattle.wasm_syntax.specs.declared.opcode.Opcode.{Opcode};
ghost use Rattle.wasm_syntax.specs.declared.opcode.OpcodeByte.TheVariants.{Known, Unknown};
ghost use Rattle.wasm_syntax.specs.declared.leb.LebEnd.TheVariants.{Truncated, TooLong, UnusedBits};
ghost use Rattle.wasm_syntax.specs.Numbers.{IsUnsigned, IsSigned, IsShortest, u32_bytes, s32_bytes, s64_bytes, u32_at, s32_at, s64_at};

use crate::kinds::{EXTERNAL_KINDS, SECTIONS};
use crate::opcode::OPCODES;

/// What spells an unsigned number is read as that number, whatever stands behind it.
pub fn unsigned_is_read_again()
    ensures { (text rest : List ℕ) (v : ℕ) → IsUnsigned 32 text v → u32_at (text ++ rest) ≡ Ok (v, rest) }
{}

/// What spells a signed number is read as that number, whatever stands behind it.
pub fn signed_is_read_again()
    ensures word { (text rest : List ℕ) (v : ℤ) → IsSigned 32 text v → s32_at (text ++ rest) ≡ Ok (v, rest) }
    ensures long { (text rest : List ℕ) (v : ℤ) → IsSigned 64 text v → s64_at (text ++ rest) ≡ Ok (v, rest) }
{}

/// The bytes that are written spell the number, and no fewer bytes do.
pub fn unsigned_bytes_are_shortest()
    ensures { (v : ℕ) → v < 2 ^ 32 → IsShortest (λ text. IsUnsigned 32 text v) (u32_bytes v) }
{}

/// The same of signed numbers of both sizes.
pub fn signed_bytes_are_shortest()
    ensures word { (v : ℤ) → FitsSigned w32 v → IsShortest (λ text. IsSigned 32 text v) (s32_bytes v) }
    ensures long { (v : ℤ) → FitsSigned w64 v → IsShortest (λ text. IsSigned 64 text v) (s64_bytes v) }
{}

/// Each entry of the table stands at the byte of its opcode, each opcode stands in the table, and
/// what its row makes are instructions of that opcode.
pub fn table_is_exact()
    ensures entries { IsTrue (stand_from 0 OPCODES) }
    ensures opcodes { (o : Opcode) → slice_index_or OPCODES (byte_of o) Unknown ≡ Known o }
    ensures rows { (o : Opcode) → MakesOpcode o (shape_of o) }
{}

/// Behind the byte 0xFC each instruction is said by its number, and by no other.
pub fn prefixed_numbers_are_exact()
    ensures said { (x : Prefixed) → said_by (number_of x) ≡ number.Known x }
    ensures alone { (n : ℕ) (x : Prefixed) → said_by n ≡ number.Known x → n ≡ number_of x }
    ensures float { (n : ℕ) → (said_by n ≡ number.Float) ↔ (n < 8) }
{}

/// What is written is read again, whatever stands behind it.
pub fn written_is_read()
    ensures unsigned { (v : ℕ) (rest : List ℕ) → v < 2 ^ 32 → u32_at (u32_bytes v ++ rest) ≡ Ok (v, rest) }
    ensures word { (v : ℤ) (rest : List ℕ) → FitsSigned w32 v → s32_at (s32_bytes v ++ rest) ≡ Ok (v, rest) }
    ensures long { (v : ℤ) (rest : List ℕ) → FitsSigned w64 v → s64_at (s64_bytes v ++ rest) ≡ Ok (v, rest) }
{}

/// Bytes begin with one spelling at most, of one number.
pub fn one_spelling()
    ensures unsigned { (a b x y : List ℕ) (m n : ℕ) → IsUnsigned 32 a m → IsUnsigned 32 b n → a ++ x ≡ b ++ y → (a ≡ b) × (m ≡ n) }
    ensures word { (a b x y : List ℕ) (m n : ℤ) → IsSigned 32 a m → IsSigned 32 b n → a ++ x ≡ b ++ y → (a ≡ b) × (m ≡ n) }
    ensures long { (a b x y : List ℕ) (m n : ℤ) → IsSigned 64 a m → IsSigned 64 b n → a ++ x ≡ b ++ y → (a ≡ b) × (m ≡ n) }
{}

/// Numbers as the standard and other writers spell them.
pub fn worked_numbers()
    ensures three_bytes { u32_at (0xe5 ∷ 0x8e ∷ 0x26 ∷ []) ≡ Ok (624485, []) }
    ensures not_shortest { u32_at (0x83 ∷ 0x80 ∷ 0x00 ∷ 0x07 ∷ []) ≡ Ok (3, 0x07 ∷ []) }
    ensures largest { u32_at (0xff ∷ 0xff ∷ 0xff ∷ 0xff ∷ 0x0f ∷ []) ≡ Ok (2 ^ 32 - 1, []) }
    ensures bit_32 { u32_at (0x80 ∷ 0x80 ∷ 0x80 ∷ 0x80 ∷ 0x10 ∷ []) ≡ Err UnusedBits }
    ensures six_bytes { u32_at (0x80 ∷ 0x80 ∷ 0x80 ∷ 0x80 ∷ 0x80 ∷ 0x00 ∷ []) ≡ Err TooLong }
    ensures cut { u32_at (0xe5 ∷ 0x8e ∷ []) ≡ Err Truncated }
    ensures minus_two { s32_at (0x7e ∷ []) ≡ Ok (negsuc 1, []) }
    ensures minus_two_long { s64_at (0xfe ∷ 0xff ∷ 0x7f ∷ []) ≡ Ok (negsuc 1, []) }
    ensures least { s32_at (0x80 ∷ 0x80 ∷ 0x80 ∷ 0x80 ∷ 0x78 ∷ []) ≡ Ok (negsuc (2 ^ 31 - 1), []) }
    ensures sign_unlike { s32_at (0x83 ∷ 0x80 ∷ 0x80 ∷ 0x80 ∷ 0x3e ∷ []) ≡ Err UnusedBits }
    ensures written { u32_bytes 624485 ≡ 0xe5 ∷ 0x8e ∷ 0x26 ∷ [] }
    ensures written_negative { s32_bytes (negsuc 123455) ≡ 0xc0 ∷ 0xbb ∷ 0x78 ∷ [] }
    ensures written_above_63 { s32_bytes (pos 64) ≡ 0xc0 ∷ 0x00 ∷ [] }
{}

/// Sections and kinds stand in their tables at their ids and bytes.
pub fn kinds_stand_at_their_bytes()
    ensures sections { (k : SectionKinds) → slice_get SECTIONS (id_of k) ≡ Some k }
    ensures kinds { (k : ExternalKinds) → slice_get EXTERNAL_KINDS (byte_of_kind k) ≡ Some k }
{}
