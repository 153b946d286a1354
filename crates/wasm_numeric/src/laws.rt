//! Laws of the operators. The functions have nothing to do: their contracts are the laws.

ghost use Rattle.std.specs.Prelude.{◌≡◌, ◌↔◌, ℕ, suc, ◌<◌, ◌≤◌, ◌+◌, ◌-◌, ◌*◌, ◌/◌, ◌%◌, ◌^◌, ℤ, pos, ◌+ℤ◌, ◌-ℤ◌, ◌*ℤ◌, ◌≤ℤ◌, int_div, int_rem, unsigned_abs, true, false, IsTrue, Ok, Err};
ghost use Rattle.std.specs.Int.{int_div_euclid};
ghost use Rattle.wasm_syntax.specs.declared.types.Value.{Value as Values};
ghost use Rattle.wasm_syntax.specs.declared.types.ValueType.{ValueType as ValueTypes};
ghost use Rattle.wasm_syntax.specs.declared.types.ValueType.TheVariants.{I32, I64};
ghost use Rattle.wasm_syntax.specs.Operators.{size, count, signed, unsigned, ZeroDivisor, Overflow, ieqz, ilt_s, ilt_u, igt_s, ile_s, ige_u, iclz, ictz, ipopcnt, iadd, isub, imul, idiv_u, irem_u, idiv_s, irem_s, iand, ior, ixor, ishl, ishr_u, ishr_s, irotl, irotr, wrap, extend_u, extend_s};
ghost use Rattle.wasm_numeric.specs.declared.op.Op2.{Op2 as Op2s};
ghost use Rattle.wasm_numeric.specs.declared.op.NumTrap.TheVariants as trap;
ghost use Rattle.wasm_numeric.specs.Applied.{number_of, parts_of, value2};
ghost use Rattle.wasm_numeric.specs.Laws.{is_division, is_signed_quotient};

/// Divide comes exactly where a quotient or a remainder has a zero divisor, and Overflow exactly where a
/// signed quotient has the least number by -1.
pub fn traps_are_exact()
    ensures divide { (op : Op2s) (a b : Values) → (value2 op a b ≡ Err trap.Divide) ↔ (IsTrue (is_division (parts_of op).1) × (number_of b ≡ 0)) }
    ensures overflow { (op : Op2s) (a b : Values) → (value2 op a b ≡ Err trap.Overflow) ↔ (IsTrue (is_signed_quotient (parts_of op).1) × (number_of a ≡ 2 ^ (size (parts_of op).0 - 1)) × (number_of b ≡ 2 ^ size (parts_of op).0 - 1)) }
{}

/// The signed reading is two's complement, and each number is that of its reading.
pub fn readings_are_twos_complement()
    ensures low { (t : ValueTypes) (i : ℕ) → i < 2 ^ (size t - 1) → signed t i ≡ pos i }
    ensures high { (t : ValueTypes) (i : ℕ) → 2 ^ (size t - 1) ≤ i → i < 2 ^ size t → signed t i ≡ pos i -ℤ pos (2 ^ size t) }
    ensures back { (t : ValueTypes) (i : ℕ) → i < 2 ^ size t → unsigned t (signed t i) ≡ i }
{}

/// The one quotient that is no signed number of the size, 2 ^ (N - 1), is that of the least number by -1.
pub fn one_quotient_is_too_large()
    ensures { (t : ValueTypes) (i j : ℕ) → i < 2 ^ size t → j < 2 ^ size t → (int_div (signed t i) (signed t j) ≡ pos (2 ^ (size t - 1))) ↔ ((i ≡ 2 ^ (size t - 1)) × (j ≡ 2 ^ size t - 1)) }
{}

/// The highest bit that is set stands below the leading zeros.
pub fn leading_zeros_stand_above_the_highest_bit()
    ensures highest { (t : ValueTypes) (i : ℕ) → 0 < i → i < 2 ^ size t → (top : ℕ) × (iclz t i + suc top ≡ size t) × (2 ^ top ≤ i) × (i < 2 ^ suc top) }
    ensures none { (t : ValueTypes) → iclz t 0 ≡ size t }
{}

/// A number is an odd one, moved to the left by its trailing zeros.
pub fn trailing_zeros_stand_below_the_lowest_bit()
    ensures lowest { (t : ValueTypes) (i : ℕ) → 0 < i → i < 2 ^ size t → (half : ℕ) × (i ≡ (2 * half + 1) * 2 ^ ictz t i) }
    ensures none { (t : ValueTypes) → ictz t 0 ≡ size t }
{}

/// The count of a number's bits is its lowest bit and the count of those above.
pub fn set_bits_are_counted_one_by_one()
    ensures all { (i : ℕ) → ipopcnt i ≡ i % 2 + ipopcnt (i / 2) }
    ensures none { ipopcnt 0 ≡ 0 }
{}

/// A rotation is the bits that stay and, apart from them, those that come in at the other end.
pub fn rotations_keep_all_bits()
    ensures left { (t : ValueTypes) (i j : ℕ) → i < 2 ^ size t → irotl t i j ≡ (i * 2 ^ count t j) % 2 ^ size t + i / 2 ^ (size t - count t j) }
    ensures right { (t : ValueTypes) (i j : ℕ) → i < 2 ^ size t → irotr t i j ≡ i / 2 ^ count t j + (i * 2 ^ (size t - count t j)) % 2 ^ size t }
{}

/// A signed shift to the right divides the reading by a power of two, rounded down.
pub fn signed_shifts_round_down()
    ensures { (t : ValueTypes) (i j : ℕ) → i < 2 ^ size t → signed t (ishr_s t i j) ≡ int_div_euclid (signed t i) (pos (2 ^ count t j)) }
{}

/// A signed quotient is rounded toward zero: the remainder makes up what is missing, is smaller than the
/// divisor, and has the dividend's sign.
pub fn quotients_are_rounded_toward_zero()
    ensures whole { (t : ValueTypes) (i j : ℕ) → int_div (signed t i) (signed t j) *ℤ signed t j +ℤ int_rem (signed t i) (signed t j) ≡ signed t i }
    ensures smaller { (t : ValueTypes) (i j : ℕ) → 0 < unsigned_abs (signed t j) → unsigned_abs (int_rem (signed t i) (signed t j)) < unsigned_abs (signed t j) }
    ensures from_zero_on { (t : ValueTypes) (i j : ℕ) → pos 0 ≤ℤ signed t i → pos 0 ≤ℤ int_rem (signed t i) (signed t j) }
    ensures up_to_zero { (t : ValueTypes) (i j : ℕ) → signed t i ≤ℤ pos 0 → int_rem (signed t i) (signed t j) ≤ℤ pos 0 }
{}

/// Quotients and remainders, worked out by hand.
pub fn worked_quotients()
    ensures least_by_minus_one { idiv_s I32 (2 ^ 31) (2 ^ 32 - 1) ≡ Err Overflow }
    ensures least_by_minus_one_long { idiv_s I64 (2 ^ 63) (2 ^ 64 - 1) ≡ Err Overflow }
    ensures least_leaves_nothing { irem_s I32 (2 ^ 31) (2 ^ 32 - 1) ≡ Ok 0 }
    ensures least_leaves_nothing_long { irem_s I64 (2 ^ 63) (2 ^ 64 - 1) ≡ Ok 0 }
    ensures zero_signed { idiv_s I32 5 0 ≡ Err ZeroDivisor }
    ensures zero_unsigned { idiv_u 5 0 ≡ Err ZeroDivisor }
    ensures zero_remainder { irem_s I64 (2 ^ 63) 0 ≡ Err ZeroDivisor }
    ensures zero_unsigned_remainder { irem_u 0 0 ≡ Err ZeroDivisor }
    ensures toward_zero { idiv_s I32 (2 ^ 32 - 7) 2 ≡ Ok (2 ^ 32 - 3) }
    ensures seven_by_minus_two { idiv_s I32 7 (2 ^ 32 - 2) ≡ Ok (2 ^ 32 - 3) }
    ensures unsigned_quotient { idiv_u (2 ^ 32 - 7) 2 ≡ Ok 2147483644 }
    ensures sign_of_the_dividend { irem_s I32 (2 ^ 32 - 7) 2 ≡ Ok (2 ^ 32 - 1) }
    ensures not_of_the_divisor { irem_s I32 7 (2 ^ 32 - 2) ≡ Ok 1 }
    ensures unsigned_remainder { irem_u (2 ^ 32 - 7) 10 ≡ Ok 9 }
{}

/// Shifts and rotations, worked out by hand.
pub fn worked_shifts()
    ensures modulo_the_size { ishl I32 1 33 ≡ 2 }
    ensures modulo_the_long_size { ishl I64 1 65 ≡ 2 }
    ensures not_modulo { ishl I64 1 33 ≡ 2 ^ 33 }
    ensures whole_size { ishr_u I32 5 32 ≡ 5 }
    ensures high_bits_are_lost { ishl I32 (2 ^ 31 + 1) 1 ≡ 2 }
    ensures zeros_come_in { ishr_u I32 (2 ^ 31) 31 ≡ 1 }
    ensures sign_comes_in { ishr_s I32 (2 ^ 31) 31 ≡ 2 ^ 32 - 1 }
    ensures round_to_the_left { irotl I32 (2 ^ 31 + 1) 1 ≡ 3 }
    ensures round_to_the_right { irotr I32 3 1 ≡ 2 ^ 31 + 1 }
    ensures round_by_none { irotl I64 (2 ^ 63 + 5) 64 ≡ 2 ^ 63 + 5 }
    ensures round_long { irotr I64 1 4 ≡ 2 ^ 60 }
{}

/// The other operators, worked out by hand.
pub fn worked_operators()
    ensures all_leading { iclz I32 0 ≡ 32 }
    ensures all_leading_long { iclz I64 0 ≡ 64 }
    ensures leading { iclz I32 1 ≡ 31 }
    ensures all_trailing { ictz I32 0 ≡ 32 }
    ensures trailing { ictz I64 40 ≡ 3 }
    ensures ones { ipopcnt 11 ≡ 3 }
    ensures is_zero { ieqz 0 ≡ true }
    ensures minus_one_below_zero { ilt_s I32 (2 ^ 32 - 1) 0 ≡ true }
    ensures greatest_not_below_zero { ilt_u (2 ^ 32 - 1) 0 ≡ false }
    ensures least_below_greatest { igt_s I64 (2 ^ 63 - 1) (2 ^ 63) ≡ true }
    ensures at_most_itself { ile_s I64 (2 ^ 63) (2 ^ 63) ≡ true }
    ensures at_least_itself { ige_u 7 7 ≡ true }
    ensures sum_wraps { iadd I32 (2 ^ 32 - 1) 1 ≡ 0 }
    ensures difference_wraps { isub I32 0 1 ≡ 2 ^ 32 - 1 }
    ensures product_wraps { imul I64 (2 ^ 63) 2 ≡ 0 }
    ensures both { iand 12 10 ≡ 8 }
    ensures either { ior 12 10 ≡ 14 }
    ensures one_alone { ixor 12 10 ≡ 6 }
    ensures low_half { wrap (2 ^ 32 + 5) ≡ 5 }
    ensures sign_extended { extend_s (2 ^ 31) ≡ 2 ^ 64 - 2 ^ 31 }
    ensures minus_one_extended { extend_s (2 ^ 32 - 1) ≡ 2 ^ 64 - 1 }
    ensures zero_extended { extend_u (2 ^ 31) ≡ 2 ^ 31 }
{}
