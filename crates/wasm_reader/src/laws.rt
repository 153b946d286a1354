//! Worked spellings. The function has nothing to do: its contract is the law.

ghost use Rattle.std.specs.Prelude.{◌≡◌, [], ◌∷◌};
ghost use Rattle.wasm_syntax.specs.declared.types.Value.TheVariants as value;
ghost use Rattle.wasm_reader.specs.Spellings.{does, leaves, writes};

/// What the bytes of sign extensions, of a copy and of a fill do, each before an `end`: an extension makes of the bits of
/// the sign a negative number, a copy of 3 bytes goes from 0 to 4, and a fill of 3 bytes stands from 2 on. The number behind
/// 0xFC may be spelled long (Core 2.0 sections 5.4.6 and 5.4.7).
pub fn worked_spellings()
    ensures i32_extend8_s { does (0xC0 ∷ 0x0B ∷ []) [] (value.I32 128 ∷ []) ≡ leaves (value.I32 4294967168) }
    ensures i32_extend16_s { does (0xC1 ∷ 0x0B ∷ []) [] (value.I32 32768 ∷ []) ≡ leaves (value.I32 4294934528) }
    ensures i64_extend8_s { does (0xC2 ∷ 0x0B ∷ []) [] (value.I64 128 ∷ []) ≡ leaves (value.I64 18446744073709551488) }
    ensures i64_extend16_s { does (0xC3 ∷ 0x0B ∷ []) [] (value.I64 32768 ∷ []) ≡ leaves (value.I64 18446744073709518848) }
    ensures i64_extend32_s { does (0xC4 ∷ 0x0B ∷ []) [] (value.I64 2147483648 ∷ []) ≡ leaves (value.I64 18446744071562067968) }
    ensures memory_copy { does (0xFC ∷ 0x0A ∷ 0x00 ∷ 0x00 ∷ 0x0B ∷ []) (1 ∷ 2 ∷ 3 ∷ 4 ∷ 5 ∷ 6 ∷ 7 ∷ 8 ∷ []) (value.I32 3 ∷ value.I32 0 ∷ value.I32 4 ∷ []) ≡ writes 0 (1 ∷ 2 ∷ 3 ∷ 4 ∷ 1 ∷ 2 ∷ 3 ∷ 8 ∷ []) }
    ensures memory_fill { does (0xFC ∷ 0x0B ∷ 0x00 ∷ 0x0B ∷ []) (1 ∷ 2 ∷ 3 ∷ 4 ∷ 5 ∷ 6 ∷ 7 ∷ 8 ∷ []) (value.I32 3 ∷ value.I32 171 ∷ value.I32 2 ∷ []) ≡ writes 0 (1 ∷ 2 ∷ 171 ∷ 171 ∷ 171 ∷ 6 ∷ 7 ∷ 8 ∷ []) }
    ensures long_memory_copy { does (0xFC ∷ 0x8A ∷ 0x00 ∷ 0x00 ∷ 0x00 ∷ 0x0B ∷ []) (1 ∷ 2 ∷ 3 ∷ 4 ∷ 5 ∷ 6 ∷ 7 ∷ 8 ∷ []) (value.I32 3 ∷ value.I32 0 ∷ value.I32 4 ∷ []) ≡ writes 0 (1 ∷ 2 ∷ 3 ∷ 4 ∷ 1 ∷ 2 ∷ 3 ∷ 8 ∷ []) }
{}
