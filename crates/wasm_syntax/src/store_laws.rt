//! Laws of memories, numeric instructions and what instances begin with. The functions have nothing to do: their
//! contracts are the laws.

ghost use Rattle.std.specs.Prelude.{◌≡◌, ◌↔◌, ◌⊎◌, ℕ, ◌+◌, ◌*◌, ◌-◌, ◌%◌, ◌^◌, ◌<◌, ◌≤◌, pos, negsuc, List, [], ◌∷◌, ◌++◌, length, take, drop, replicate, Some, None};
ghost use Rattle.wasm_syntax.specs.declared.types.Value.TheVariants as value;
ghost use Rattle.wasm_syntax.specs.declared.instr.Instr.{Instr as Instrs};
ghost use Rattle.wasm_syntax.specs.declared.instr.Instr.TheVariants as instr;
ghost use Rattle.wasm_syntax.specs.declared.types.ValueType.TheVariants.{I32, I64};
ghost use Rattle.wasm_syntax.specs.Extensions.{ExtendsSign};
ghost use Rattle.wasm_syntax.specs.Memory.{bytes_at, copied, filled, load, store, loads, stores, page, pages_of, most_pages, grow_answer, grown};
ghost use Rattle.wasm_syntax.specs.OperandRows.{AgreesWithRow};
ghost use Rattle.wasm_syntax.specs.Stores.{with_segments, offset_of, initial_stores, growth_bound};
ghost use Rattle.wasm_syntax.specs.StoreExamples.{at_most, no_maximum, four_bytes, two_segments, with_table};

/// Loads and stores, worked out by hand.
pub fn worked_loads_and_stores()
    ensures lowest_first { load four_bytes 0 4 ≡ Some 67305985 }
    ensures inner { load four_bytes 1 2 ≡ Some 770 }
    ensures to_the_end { load four_bytes 3 1 ≡ Some 4 }
    ensures past_the_end { load four_bytes 3 2 ≡ None }
    ensures behind_the_end { load four_bytes 4 1 ≡ None }
    ensures lowest_byte_alone { store four_bytes 1 1 773 ≡ Some (1 ∷ 5 ∷ 3 ∷ 4 ∷ []) }
    ensures two_bytes { store four_bytes 2 2 773 ≡ Some (1 ∷ 2 ∷ 5 ∷ 3 ∷ []) }
    ensures nothing_outside { store four_bytes 3 2 773 ≡ None }
    ensures by_sign { loads (instr.I32Load8S (record { align = 0; offset = 1 })) (0 ∷ 255 ∷ []) 0 ≡ Some (2 ^ 32 - 1) }
    ensures by_long_sign { loads (instr.I64Load8S (record { align = 0; offset = 1 })) (0 ∷ 128 ∷ []) 0 ≡ Some (2 ^ 64 - 128) }
    ensures without_sign { loads (instr.I64Load8U (record { align = 0; offset = 0 })) (0 ∷ 255 ∷ []) 1 ≡ Some 255 }
    ensures without_wrapping { loads (instr.I32Load8U (record { align = 0; offset = 1 })) four_bytes (2 ^ 32 - 1) ≡ None }
    ensures low_half { stores (instr.I64Store16 (record { align = 0; offset = 2 })) four_bytes 0 66564 ≡ Some (1 ∷ 2 ∷ 4 ∷ 4 ∷ []) }
{}

/// What was stored is loaded again, modulo what fits its width. All other bytes stay, and so does the length.
pub fn stored_is_loaded()
    ensures back { (old new : List ℕ) (at width v : ℕ) → store old at width v ≡ Some new → load new at width ≡ Some (v % 2 ^ (8 * width)) }
    ensures length { (old new : List ℕ) (at width v : ℕ) → store old at width v ≡ Some new → length new ≡ length old }
    ensures below { (old new : List ℕ) (at width v : ℕ) → store old at width v ≡ Some new → take at new ≡ take at old }
    ensures above { (old new : List ℕ) (at width v : ℕ) → store old at width v ≡ Some new → drop (at + width) new ≡ drop (at + width) old }
    ensures outside { (old : List ℕ) (at width v : ℕ) → (store old at width v ≡ None) ↔ (load old at width ≡ None) }
{}

/// A copy makes of a range what another range of that length was. All other bytes stay, and so does the length. There is no
/// copy exactly where one of the two is not all inside.
pub fn copies_move_ranges()
    ensures moved { (old new : List ℕ) (to from count : ℕ) → copied old to from count ≡ Some new → bytes_at new to count ≡ bytes_at old from count }
    ensures length { (old new : List ℕ) (to from count : ℕ) → copied old to from count ≡ Some new → length new ≡ length old }
    ensures below { (old new : List ℕ) (to from count : ℕ) → copied old to from count ≡ Some new → take to new ≡ take to old }
    ensures above { (old new : List ℕ) (to from count : ℕ) → copied old to from count ≡ Some new → drop (to + count) new ≡ drop (to + count) old }
    ensures outside { (old : List ℕ) (to from count : ℕ) → (copied old to from count ≡ None) ↔ ((length old < from + count) ⊎ (length old < to + count)) }
{}

/// A fill makes each byte of a range the lowest byte of a number. All other bytes stay, and so does the length. There is no fill
/// exactly where the range is not all inside.
pub fn fills_write_ranges()
    ensures filled { (old new : List ℕ) (at v count : ℕ) → filled old at v count ≡ Some new → bytes_at new at count ≡ replicate count (v % 2 ^ 8) }
    ensures length { (old new : List ℕ) (at v count : ℕ) → filled old at v count ≡ Some new → length new ≡ length old }
    ensures below { (old new : List ℕ) (at v count : ℕ) → filled old at v count ≡ Some new → take at new ≡ take at old }
    ensures above { (old new : List ℕ) (at v count : ℕ) → filled old at v count ≡ Some new → drop (at + count) new ≡ drop (at + count) old }
    ensures outside { (old : List ℕ) (at v count : ℕ) → (filled old at v count ≡ None) ↔ (length old < at + count) }
{}

/// The extension of a sign leaves the low bits where they are below half of what they count, and else adds to them what the
/// size counts less what they count.
pub fn signs_are_extended()
    ensures byte { ExtendsSign instr.I32Extend8S I32 8 }
    ensures half { ExtendsSign instr.I32Extend16S I32 16 }
    ensures byte_to_long { ExtendsSign instr.I64Extend8S I64 8 }
    ensures half_to_long { ExtendsSign instr.I64Extend16S I64 16 }
    ensures word_to_long { ExtendsSign instr.I64Extend32S I64 32 }
{}

/// Growth leaves the old bytes and adds pages of zeros, where the pages may be added, and changes nothing where not.
pub fn growth_adds_pages()
    ensures added { (most : ℕ) (memory : List ℕ) (by : ℕ) → pages_of memory + by ≤ most → (grow_answer most memory by ≡ pages_of memory) × (grown most memory by ≡ memory ++ replicate (page * by) 0) }
    ensures past { (most : ℕ) (memory : List ℕ) (by : ℕ) → most < pages_of memory + by → (grow_answer most memory by ≡ 4294967295) × (grown most memory by ≡ memory) }
{}

/// An instruction has an operator, a load or a store exactly where its row says so, and of the types and the
/// width of its row.
pub fn operands_are_those_of_rows()
    ensures { (i : Instrs) → AgreesWithRow i }
{}

/// Growth, worked out by hand, of a memory of one page that may have three.
pub fn worked_growth()
    ensures bound { most_pages (at_most 3) 128 ≡ 3 }
    ensures host_bound { most_pages (at_most 300) 128 ≡ 128 }
    ensures no_maximum { most_pages no_maximum 128 ≡ 128 }
    ensures old_size { (memory : List ℕ) → length memory ≡ page → grow_answer 3 memory 2 ≡ 1 }
    ensures three_pages { (memory : List ℕ) → length memory ≡ page → length (grown 3 memory 2) ≡ 3 * page }
    ensures past_the_bound { (memory : List ℕ) → length memory ≡ 3 * page → grow_answer 3 memory 1 ≡ 4294967295 }
    ensures by_nothing { (memory : List ℕ) → length memory ≡ 3 * page → grow_answer 3 memory 0 ≡ 3 }
    ensures unchanged { (memory : List ℕ) → length memory ≡ 3 * page → grown 3 memory 1 ≡ memory }
{}

/// What modules begin with, worked out by hand.
pub fn worked_stores()
    ensures later_over_earlier { with_segments (1 ∷ 2 ∷ 3 ∷ 4 ∷ []) two_segments ≡ 7 ∷ 8 ∷ 5 ∷ 6 ∷ [] }
    ensures table { (initial_stores with_table).table ≡ None ∷ Some 2 ∷ Some 1 ∷ None ∷ [] }
    ensures globals { (initial_stores with_table).globals ≡ value.I32 9 ∷ [] }
    ensures no_memory { (initial_stores with_table).memory ≡ [] }
    ensures no_growth { growth_bound with_table 128 ≡ 0 }
    ensures high_offset { offset_of (instr.I32Const (negsuc 0) ∷ instr.End ∷ []) ≡ 2 ^ 32 - 1 }
{}
