//! What each opcode's byte does, worked by hand. The functions have nothing to do: their contracts are the laws.

ghost use Rattle.std.specs.Prelude.{◌≡◌, [], ◌∷◌};
ghost use Rattle.gate_base.specs.declared.cause.Cause.TheVariants as cause;
ghost use Rattle.law_opcodes.specs.Bytes.{combines, compares, floats_from, loads, makes, stores, traps, counts_modulo};
ghost use Rattle.wasm_syntax.specs.declared.opcode.TheConstants.{OPCODES};
ghost use Rattle.wasm_syntax.specs.declared.types.Value.TheVariants as value;

/// What each load reads of nine written-out bytes: at address 0; where they stand one further, by an offset of 1, and at address 1; and where they stand two
/// further, by that offset at that address. It is told how many of them, the lowest first, and whether a first bit that is set makes a negative number (Core
/// 1.0 sections 4.4.4 and 5.4.4).
pub fn loads_by_their_bytes()
    ensures i32_load { loads 0x28 (value.I32 3013775744) }
    ensures i64_load { loads 0x29 (value.I64 17863200012815733120) }
    ensures i32_load8_s { loads 0x2C (value.I32 4294967168) }
    ensures i32_load8_u { loads 0x2D (value.I32 128) }
    ensures i32_load16_s { loads 0x2E (value.I32 4294939008) }
    ensures i32_load16_u { loads 0x2F (value.I32 37248) }
    ensures i64_load8_s { loads 0x30 (value.I64 18446744073709551488) }
    ensures i64_load8_u { loads 0x31 (value.I64 128) }
    ensures i64_load16_s { loads 0x32 (value.I64 18446744073709523328) }
    ensures i64_load16_u { loads 0x33 (value.I64 37248) }
    ensures i64_load32_s { loads 0x34 (value.I64 18446744072428360064) }
    ensures i64_load32_u { loads 0x35 (value.I64 3013775744) }
{}

/// What each store makes of eight bytes 9, in the same four ways: how many bytes of the value it puts there, the lowest first, and that the bytes in front
/// stay (Core 1.0 sections 4.4.4 and 5.4.4).
pub fn stores_by_their_bytes()
    ensures i32_store { stores 0x36 (value.I32 67305985) (1 ∷ 2 ∷ 3 ∷ 4 ∷ 9 ∷ 9 ∷ 9 ∷ 9 ∷ []) }
    ensures i64_store { stores 0x37 (value.I64 578437695752307201) (1 ∷ 2 ∷ 3 ∷ 4 ∷ 5 ∷ 6 ∷ 7 ∷ 8 ∷ []) }
    ensures i32_store8 { stores 0x3A (value.I32 67305985) (1 ∷ 9 ∷ 9 ∷ 9 ∷ 9 ∷ 9 ∷ 9 ∷ 9 ∷ []) }
    ensures i32_store16 { stores 0x3B (value.I32 67305985) (1 ∷ 2 ∷ 9 ∷ 9 ∷ 9 ∷ 9 ∷ 9 ∷ 9 ∷ []) }
    ensures i64_store8 { stores 0x3C (value.I64 578437695752307201) (1 ∷ 9 ∷ 9 ∷ 9 ∷ 9 ∷ 9 ∷ 9 ∷ 9 ∷ []) }
    ensures i64_store16 { stores 0x3D (value.I64 578437695752307201) (1 ∷ 2 ∷ 9 ∷ 9 ∷ 9 ∷ 9 ∷ 9 ∷ 9 ∷ []) }
    ensures i64_store32 { stores 0x3E (value.I64 578437695752307201) (1 ∷ 2 ∷ 3 ∷ 4 ∷ 9 ∷ 9 ∷ 9 ∷ 9 ∷ []) }
{}

/// What each test and comparison of 32 bits says; of -1 and 1, of 1 and 1, of 1 and 2, and of 2 and 1 no two say the same (Core 1.0 sections 4.3.2
/// and 5.4.5).
pub fn i32_comparisons_by_their_bytes()
    ensures eqz_of_zero { makes 0x45 (value.I32 0) (value.I32 1) }
    ensures eqz_of_another { makes 0x45 (value.I32 2147483648) (value.I32 0) }
    ensures eq { compares 0x46 value.I32 4294967295 0 1 0 0 }
    ensures ne { compares 0x47 value.I32 4294967295 1 0 1 1 }
    ensures lt_s { compares 0x48 value.I32 4294967295 1 0 1 0 }
    ensures lt_u { compares 0x49 value.I32 4294967295 0 0 1 0 }
    ensures gt_s { compares 0x4A value.I32 4294967295 0 0 0 1 }
    ensures gt_u { compares 0x4B value.I32 4294967295 1 0 0 1 }
    ensures le_s { compares 0x4C value.I32 4294967295 1 1 1 0 }
    ensures le_u { compares 0x4D value.I32 4294967295 0 1 1 0 }
    ensures ge_s { compares 0x4E value.I32 4294967295 0 1 0 1 }
    ensures ge_u { compares 0x4F value.I32 4294967295 1 1 0 1 }
{}

/// The same of 64 bits.
pub fn i64_comparisons_by_their_bytes()
    ensures eqz_of_zero { makes 0x50 (value.I64 0) (value.I32 1) }
    ensures eqz_of_another { makes 0x50 (value.I64 9223372036854775808) (value.I32 0) }
    ensures eq { compares 0x51 value.I64 18446744073709551615 0 1 0 0 }
    ensures ne { compares 0x52 value.I64 18446744073709551615 1 0 1 1 }
    ensures lt_s { compares 0x53 value.I64 18446744073709551615 1 0 1 0 }
    ensures lt_u { compares 0x54 value.I64 18446744073709551615 0 0 1 0 }
    ensures gt_s { compares 0x55 value.I64 18446744073709551615 0 0 0 1 }
    ensures gt_u { compares 0x56 value.I64 18446744073709551615 1 0 0 1 }
    ensures le_s { compares 0x57 value.I64 18446744073709551615 1 1 1 0 }
    ensures le_u { compares 0x58 value.I64 18446744073709551615 0 1 1 0 }
    ensures ge_s { compares 0x59 value.I64 18446744073709551615 0 1 0 1 }
    ensures ge_u { compares 0x5A value.I64 18446744073709551615 1 1 0 1 }
{}

/// What each operation of 32 bits makes: of 3840, which has four bits from the ninth on, or of -10 and 3, of which no two make the same (Core 1.0 sections
/// 4.3.2 and 5.4.5).
pub fn i32_operations_by_their_bytes()
    ensures clz { makes 0x67 (value.I32 3840) (value.I32 20) }
    ensures ctz { makes 0x68 (value.I32 3840) (value.I32 8) }
    ensures popcnt { makes 0x69 (value.I32 3840) (value.I32 4) }
    ensures add { combines 0x6A (value.I32 4294967286) (value.I32 3) (value.I32 4294967289) }
    ensures sub { combines 0x6B (value.I32 4294967286) (value.I32 3) (value.I32 4294967283) }
    ensures mul { combines 0x6C (value.I32 4294967286) (value.I32 3) (value.I32 4294967266) }
    ensures div_s { combines 0x6D (value.I32 4294967286) (value.I32 3) (value.I32 4294967293) }
    ensures div_u { combines 0x6E (value.I32 4294967286) (value.I32 3) (value.I32 1431655762) }
    ensures rem_s { combines 0x6F (value.I32 4294967286) (value.I32 3) (value.I32 4294967295) }
    ensures rem_u { combines 0x70 (value.I32 4294967286) (value.I32 3) (value.I32 0) }
    ensures bits_and { combines 0x71 (value.I32 4294967286) (value.I32 3) (value.I32 2) }
    ensures bits_or { combines 0x72 (value.I32 4294967286) (value.I32 3) (value.I32 4294967287) }
    ensures bits_xor { combines 0x73 (value.I32 4294967286) (value.I32 3) (value.I32 4294967285) }
    ensures shl { combines 0x74 (value.I32 4294967286) (value.I32 3) (value.I32 4294967216) }
    ensures shr_s { combines 0x75 (value.I32 4294967286) (value.I32 3) (value.I32 4294967294) }
    ensures shr_u { combines 0x76 (value.I32 4294967286) (value.I32 3) (value.I32 536870910) }
    ensures rotl { combines 0x77 (value.I32 4294967286) (value.I32 3) (value.I32 4294967223) }
    ensures rotr { combines 0x78 (value.I32 4294967286) (value.I32 3) (value.I32 3758096382) }
{}

/// The same of 64 bits.
pub fn i64_operations_by_their_bytes()
    ensures clz { makes 0x79 (value.I64 3840) (value.I64 52) }
    ensures ctz { makes 0x7A (value.I64 3840) (value.I64 8) }
    ensures popcnt { makes 0x7B (value.I64 3840) (value.I64 4) }
    ensures add { combines 0x7C (value.I64 18446744073709551606) (value.I64 3) (value.I64 18446744073709551609) }
    ensures sub { combines 0x7D (value.I64 18446744073709551606) (value.I64 3) (value.I64 18446744073709551603) }
    ensures mul { combines 0x7E (value.I64 18446744073709551606) (value.I64 3) (value.I64 18446744073709551586) }
    ensures div_s { combines 0x7F (value.I64 18446744073709551606) (value.I64 3) (value.I64 18446744073709551613) }
    ensures div_u { combines 0x80 (value.I64 18446744073709551606) (value.I64 3) (value.I64 6148914691236517202) }
    ensures rem_s { combines 0x81 (value.I64 18446744073709551606) (value.I64 3) (value.I64 18446744073709551615) }
    ensures rem_u { combines 0x82 (value.I64 18446744073709551606) (value.I64 3) (value.I64 0) }
    ensures bits_and { combines 0x83 (value.I64 18446744073709551606) (value.I64 3) (value.I64 2) }
    ensures bits_or { combines 0x84 (value.I64 18446744073709551606) (value.I64 3) (value.I64 18446744073709551607) }
    ensures bits_xor { combines 0x85 (value.I64 18446744073709551606) (value.I64 3) (value.I64 18446744073709551605) }
    ensures shl { combines 0x86 (value.I64 18446744073709551606) (value.I64 3) (value.I64 18446744073709551536) }
    ensures shr_s { combines 0x87 (value.I64 18446744073709551606) (value.I64 3) (value.I64 18446744073709551614) }
    ensures shr_u { combines 0x88 (value.I64 18446744073709551606) (value.I64 3) (value.I64 2305843009213693950) }
    ensures rotl { combines 0x89 (value.I64 18446744073709551606) (value.I64 3) (value.I64 18446744073709551543) }
    ensures rotr { combines 0x8A (value.I64 18446744073709551606) (value.I64 3) (value.I64 16140901064495857662) }
{}

/// What each shift and rotation of -10 makes by as many bits as the number has, and by three more: it is counted modulo the width, so that the one leaves the
/// number and the other is what it makes by three (Core 1.0 section 4.3.2).
pub fn shifts_by_the_width()
    ensures i32_shl { counts_modulo 0x74 value.I32 32 4294967286 4294967216 }
    ensures i32_shr_s { counts_modulo 0x75 value.I32 32 4294967286 4294967294 }
    ensures i32_shr_u { counts_modulo 0x76 value.I32 32 4294967286 536870910 }
    ensures i32_rotl { counts_modulo 0x77 value.I32 32 4294967286 4294967223 }
    ensures i32_rotr { counts_modulo 0x78 value.I32 32 4294967286 3758096382 }
    ensures i64_shl { counts_modulo 0x86 value.I64 64 18446744073709551606 18446744073709551536 }
    ensures i64_shr_s { counts_modulo 0x87 value.I64 64 18446744073709551606 18446744073709551614 }
    ensures i64_shr_u { counts_modulo 0x88 value.I64 64 18446744073709551606 2305843009213693950 }
    ensures i64_rotl { counts_modulo 0x89 value.I64 64 18446744073709551606 18446744073709551543 }
    ensures i64_rotr { counts_modulo 0x8A value.I64 64 18446744073709551606 16140901064495857662 }
{}

/// What has no quotient: a division by 0, signed or not, and its remainder, trap, and so does the signed quotient of the least number by -1; the signed
/// remainder of that is 0, and without a sign it is a division like another (Core 1.0 section 4.3.2).
pub fn divisions_without_quotient()
    ensures i32_div_s_by_zero { traps 0x6D (value.I32 7) (value.I32 0) cause.Divide }
    ensures i32_div_u_by_zero { traps 0x6E (value.I32 7) (value.I32 0) cause.Divide }
    ensures i32_rem_s_by_zero { traps 0x6F (value.I32 7) (value.I32 0) cause.Divide }
    ensures i32_rem_u_by_zero { traps 0x70 (value.I32 7) (value.I32 0) cause.Divide }
    ensures i32_div_s_of_least { traps 0x6D (value.I32 2147483648) (value.I32 4294967295) cause.Overflow }
    ensures i32_div_u_of_least { combines 0x6E (value.I32 2147483648) (value.I32 4294967295) (value.I32 0) }
    ensures i32_rem_s_of_least { combines 0x6F (value.I32 2147483648) (value.I32 4294967295) (value.I32 0) }
    ensures i32_rem_u_of_least { combines 0x70 (value.I32 2147483648) (value.I32 4294967295) (value.I32 2147483648) }
    ensures i64_div_s_by_zero { traps 0x7F (value.I64 7) (value.I64 0) cause.Divide }
    ensures i64_div_u_by_zero { traps 0x80 (value.I64 7) (value.I64 0) cause.Divide }
    ensures i64_rem_s_by_zero { traps 0x81 (value.I64 7) (value.I64 0) cause.Divide }
    ensures i64_rem_u_by_zero { traps 0x82 (value.I64 7) (value.I64 0) cause.Divide }
    ensures i64_div_s_of_least { traps 0x7F (value.I64 9223372036854775808) (value.I64 18446744073709551615) cause.Overflow }
    ensures i64_div_u_of_least { combines 0x80 (value.I64 9223372036854775808) (value.I64 18446744073709551615) (value.I64 0) }
    ensures i64_rem_s_of_least { combines 0x81 (value.I64 9223372036854775808) (value.I64 18446744073709551615) (value.I64 0) }
    ensures i64_rem_u_of_least { combines 0x82 (value.I64 9223372036854775808) (value.I64 18446744073709551615) (value.I64 9223372036854775808) }
{}

/// What each conversion makes of a number that is too wide, or whose first bit is set (Core 1.0 sections 4.3.4 and 5.4.5).
pub fn conversions_by_their_bytes()
    ensures i32_wrap_i64 { makes 0xA7 (value.I64 4294967301) (value.I32 5) }
    ensures i64_extend_i32_s { makes 0xAC (value.I32 2147483648) (value.I64 18446744071562067968) }
    ensures i64_extend_i32_u { makes 0xAD (value.I32 2147483648) (value.I64 2147483648) }
{}

/// Which of the 256 bytes are refused as floating point, and not as no instruction (Core 1.0 section 5.4).
pub fn floats_by_their_bytes()
    ensures floats { floats_from 0 OPCODES ≡ 0x2A ∷ 0x2B ∷ 0x38 ∷ 0x39 ∷ 0x43 ∷ 0x44 ∷ 0x5B ∷ 0x5C ∷ 0x5D ∷ 0x5E ∷ 0x5F ∷ 0x60 ∷ 0x61 ∷ 0x62 ∷ 0x63 ∷ 0x64 ∷ 0x65 ∷ 0x66 ∷ 0x8B ∷ 0x8C ∷ 0x8D ∷ 0x8E ∷ 0x8F ∷ 0x90 ∷ 0x91 ∷ 0x92 ∷ 0x93 ∷ 0x94 ∷ 0x95 ∷ 0x96 ∷ 0x97 ∷ 0x98 ∷ 0x99 ∷ 0x9A ∷ 0x9B ∷ 0x9C ∷ 0x9D ∷ 0x9E ∷ 0x9F ∷ 0xA0 ∷ 0xA1 ∷ 0xA2 ∷ 0xA3 ∷ 0xA4 ∷ 0xA5 ∷ 0xA6 ∷ 0xA8 ∷ 0xA9 ∷ 0xAA ∷ 0xAB ∷ 0xAE ∷ 0xAF ∷ 0xB0 ∷ 0xB1 ∷ 0xB2 ∷ 0xB3 ∷ 0xB4 ∷ 0xB5 ∷ 0xB6 ∷ 0xB7 ∷ 0xB8 ∷ 0xB9 ∷ 0xBA ∷ 0xBB ∷ 0xBC ∷ 0xBD ∷ 0xBE ∷ 0xBF ∷ [] }
{}
