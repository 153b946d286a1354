//! Runs that were worked out by hand. The functions have nothing to do: their contracts are the laws.

ghost use Rattle.std.specs.Prelude.{◌≡◌, pos, List, [], ◌∷◌, ◌++◌, replicate, Some};
ghost use Rattle.gate_base.specs.declared.cause.Cause.TheVariants as cause;
ghost use Rattle.wasm_syntax.specs.declared.types.Value.TheVariants as value;
ghost use Rattle.wasm_syntax.specs.ReductionRuns.{has_finished, has_asked, has_trapped, has_spent, ran};
ghost use Rattle.wasm_syntax.specs.declared.instr.Instr.TheVariants as instr;
ghost use Rattle.wasm_syntax.specs.ReductionSteps.{answered_config, idle_config};
ghost use Rattle.wasm_syntax.specs.ReductionRuns.{run};
ghost use Rattle.wasm_syntax.specs.ReductionCases.{pair_module, run_pair, asked_of, calls_pair, calls_element, asks_pair, resumed, called_while, then_resumed, small, run_small, gave, select_body, shift_body, quotient_body, lone_if_body, dropping_body, tee_body, globals_body, load_body, store_body, grow_body, wide, run_wide, copy_body, fill_body, filled_body, left_small, left_wide, extend_body, long_extend_body, standing, none};
ghost use Rattle.wasm_syntax.specs.ReductionLaws.{RunsToItsEnd, HostedRunsToItsEnd, FuelOnlyBounds, CallsBelowStay, AnswersStayAbove, AnswersKeepDepth, EachHasItsRule, SpentByNeed};
ghost use Rattle.wasm_syntax.specs.ReductionPrograms.{first_config, program_of};
ghost use Rattle.wasm_syntax.specs.ReductionExamples.{call, sum_module, run_body, rests, unreachable_body, divide_body, overflow_body, memory_body, element_body, endless_body, if_body, table_body, return_body, asking_module, echo, exit, ask};

/// The function that sums the numbers up to its argument n pays 13 n + 6 units, for 0, 1 and 3;
/// with one unit less the fuel is spent.
pub fn worked_sums()
    ensures sum_of_0 { call sum_module 0 (value.I32 0 ∷ []) 6 ≡ has_finished (Some (value.I32 0)) (first_config sum_module) 0 }
    ensures sum_of_1 { call sum_module 0 (value.I32 1 ∷ []) 19 ≡ has_finished (Some (value.I32 1)) (first_config sum_module) 0 }
    ensures sum_of_3 { call sum_module 0 (value.I32 3 ∷ []) 45 ≡ has_finished (Some (value.I32 6)) (first_config sum_module) 0 }
    ensures one_short { call sum_module 0 (value.I32 3 ∷ []) 44 ≡ has_spent 0 }
    ensures some_left { call sum_module 0 (value.I32 3 ∷ []) 1000 ≡ has_finished (Some (value.I32 6)) (first_config sum_module) 955 }
{}

/// Each trap, and the units up to it: a trapping instruction is paid, and where its unit is not there
/// the fuel is spent.
pub fn worked_traps()
    ensures unreachable { run_body unreachable_body 1 ≡ has_trapped cause.Unreachable 0 }
    ensures divide { run_body divide_body 3 ≡ has_trapped cause.Divide 0 }
    ensures overflow { run_body overflow_body 3 ≡ has_trapped cause.Overflow 0 }
    ensures outside { run_body memory_body 2 ≡ has_trapped cause.Memory 0 }
    ensures past_table { run_body (element_body 2 1) 3 ≡ has_trapped cause.Table 0 }
    ensures never_set { run_body (element_body 1 1) 3 ≡ has_trapped cause.Table 0 }
    ensures other_type { run_body (element_body 0 2) 3 ≡ has_trapped cause.Type 0 }
    ensures stack { run_body endless_body 256 ≡ has_trapped cause.Stack 0 }
    ensures exits { ask exit 1 [] 3 ≡ ran (has_trapped cause.Exit 0) ((value.I32 6 ∷ []) ∷ []) }
    ensures spent_first { run_body unreachable_body 0 ≡ has_spent 0 }
{}

/// Branches, returns and calls, with the units that they pay.
pub fn worked_control()
    ensures if_else { run_body (if_body 2) 3 ≡ has_finished (Some (value.I32 7)) (rests (if_body 2)) 0 }
    ensures if_not { run_body (if_body 0) 3 ≡ has_finished (Some (value.I32 9)) (rests (if_body 0)) 0 }
    ensures table_first { run_body (table_body 0) 9 ≡ has_finished (Some (value.I32 1110)) (rests (table_body 0)) 0 }
    ensures table_second { run_body (table_body 1) 7 ≡ has_finished (Some (value.I32 1010)) (rests (table_body 1)) 0 }
    ensures table_past { run_body (table_body 7) 5 ≡ has_finished (Some (value.I32 10)) (rests (table_body 7)) 0 }
    ensures returns { run_body return_body 6 ≡ has_finished (Some (value.I32 3)) (rests return_body) 0 }
    ensures element { run_body (element_body 0 1) 6 ≡ has_finished (Some (value.I32 42)) (rests (element_body 0 1)) 0 }
    ensures frames { run_body endless_body 255 ≡ has_spent 0 }
{}

/// Calls of the host: in the middle of an expression, and one that is invoked from outside, which is
/// free.
pub fn worked_host_calls()
    ensures asked { ask echo 1 [] 4 ≡ ran (has_finished (Some (value.I32 11)) (first_config asking_module) 0) ((value.I32 6 ∷ []) ∷ []) }
    ensures invoked { ask echo 0 (value.I32 8 ∷ []) 0 ≡ ran (has_finished (Some (value.I32 8)) (first_config asking_module) 0) ((value.I32 8 ∷ []) ∷ []) }
{}

/// Arguments stand in their order, whether a function is called, called by an element, invoked or the
/// host's; and what a call from outside does while the host's answer is waited for leaves the rest as it
/// was.
pub fn worked_orders()
    ensures by_call { run_pair calls_pair 2 [] 6 ≡ has_finished (Some (value.I32 5)) (first_config (pair_module calls_pair)) 0 }
    ensures by_element { run_pair calls_element 2 [] 7 ≡ has_finished (Some (value.I32 5)) (first_config (pair_module calls_element)) 0 }
    ensures from_outside { run_pair calls_pair 1 (value.I32 9 ∷ value.I32 4 ∷ []) 3 ≡ has_finished (Some (value.I32 5)) (first_config (pair_module calls_pair)) 0 }
    ensures host_asked { asked_of (run_pair asks_pair 2 [] 4) ≡ Some (0, value.I32 9 ∷ value.I32 4 ∷ []) }
    ensures host_from_outside { asked_of (run_pair asks_pair 0 (value.I32 9 ∷ value.I32 4 ∷ []) 0) ≡ Some (0, value.I32 9 ∷ value.I32 4 ∷ []) }
    ensures answered { resumed (program_of (pair_module asks_pair) 1) (Some (value.I32 1)) 1 (run_pair asks_pair 2 [] 4) ≡ has_finished (Some (value.I32 99)) (first_config (pair_module asks_pair)) 0 }
    ensures called_meanwhile { then_resumed (program_of (pair_module asks_pair) 1) (Some (value.I32 1)) 1 (called_while (program_of (pair_module asks_pair) 1) 1 (value.I32 9 ∷ value.I32 4 ∷ []) 3 (run_pair asks_pair 2 [] 4)) ≡ has_finished (Some (value.I32 99)) (first_config (pair_module asks_pair)) 0 }
{}

/// Instructions of each kind, with the units up to the end.
pub fn worked_instructions()
    ensures select_upper { run_small (select_body 0) 4 ≡ gave 9 small }
    ensures select_lower { run_small (select_body 2) 4 ≡ gave 7 small }
    ensures shift_signed { run_small (shift_body instr.I32ShrS) 3 ≡ gave 4294967292 small }
    ensures shift_unsigned { run_small (shift_body instr.I32ShrU) 3 ≡ gave 2147483644 small }
    ensures quotient { run_small quotient_body 3 ≡ gave 3 small }
    ensures if_taken { run_small (lone_if_body 3) 5 ≡ gave 1 small }
    ensures if_passed { run_small (lone_if_body 0) 3 ≡ gave 0 small }
    ensures drops_lower { run_small dropping_body 5 ≡ gave 3 small }
    ensures tee { run_small tee_body 4 ≡ gave 10 small }
    ensures globals { run_small globals_body 6 ≡ gave 30 (record small { globals = value.I32 21 ∷ value.I64 30 ∷ [] }) }
    ensures load_signed { run_small (load_body (instr.I32Load8S (record { align = 0; offset = 2 }))) 2 ≡ gave 4294967172 small }
    ensures load_unsigned { run_small (load_body (instr.I32Load16U (record { align = 0; offset = 2 }))) 2 ≡ gave 0x584 small }
    ensures load_past { run_small (load_body (instr.I32Load (record { align = 0; offset = 4 }))) 2 ≡ has_trapped cause.Memory 0 }
    ensures load_spent { run_small (load_body (instr.I32Load (record { align = 0; offset = 4 }))) 1 ≡ has_spent 0 }
    ensures store { run_small (store_body 5) 4 ≡ gave 0 (record small { memory = 1 ∷ 2 ∷ 3 ∷ 0x84 ∷ 5 ∷ 6 ∷ 0x67 ∷ 0x45 ∷ [] }) }
    ensures store_past { run_small (store_body 6) 3 ≡ has_trapped cause.Memory 0 }
    ensures grow { run_small grow_body 5 ≡ gave 0 small }
{}

/// Copies: what overlaps in both directions, ranges that end at the end and one past it, and none that is past it. What traps
/// pays one unit, and with none the fuel is spent.
pub fn worked_copies()
    ensures apart { run_small (copy_body 4 0 3) 5 ≡ left_small (1 ∷ 2 ∷ 3 ∷ 0x84 ∷ 1 ∷ 2 ∷ 3 ∷ 0xff ∷ []) }
    ensures upward { run_small (copy_body 2 0 5) 5 ≡ left_small (1 ∷ 2 ∷ 1 ∷ 2 ∷ 3 ∷ 0x84 ∷ 5 ∷ 0xff ∷ []) }
    ensures downward { run_small (copy_body 0 2 5) 5 ≡ left_small (3 ∷ 0x84 ∷ 5 ∷ 6 ∷ 7 ∷ 6 ∷ 7 ∷ 0xff ∷ []) }
    ensures onto_itself { run_small (copy_body 0 0 8) 5 ≡ gave 0 small }
    ensures to_the_end { run_small (copy_body 5 0 3) 5 ≡ left_small (1 ∷ 2 ∷ 3 ∷ 0x84 ∷ 5 ∷ 1 ∷ 2 ∷ 3 ∷ []) }
    ensures from_the_end { run_small (copy_body 0 5 3) 5 ≡ left_small (6 ∷ 7 ∷ 0xff ∷ 0x84 ∷ 5 ∷ 6 ∷ 7 ∷ 0xff ∷ []) }
    ensures past_the_end { run_small (copy_body 6 0 3) 4 ≡ has_trapped cause.Memory 0 }
    ensures from_past_the_end { run_small (copy_body 0 6 3) 4 ≡ has_trapped cause.Memory 0 }
    ensures none_at_the_end { run_small (copy_body 8 8 0) 5 ≡ gave 0 small }
    ensures none_past_the_end { run_small (copy_body 9 0 0) 4 ≡ has_trapped cause.Memory 0 }
    ensures none_from_past_the_end { run_small (copy_body 0 9 0) 4 ≡ has_trapped cause.Memory 0 }
    ensures without_wrapping { run_small (copy_body 0 4294967295 2) 4 ≡ has_trapped cause.Memory 0 }
    ensures spent { run_small (copy_body 4 0 3) 3 ≡ has_spent 0 }
    ensures spent_before_the_trap { run_small (copy_body 9 0 0) 3 ≡ has_spent 0 }
{}

/// Fills: of the lowest byte of the operand, at the end, and one past it.
pub fn worked_fills()
    ensures low_byte { run_small (fill_body 2 0x5ab 3) 5 ≡ left_small (1 ∷ 2 ∷ 0xab ∷ 0xab ∷ 0xab ∷ 6 ∷ 7 ∷ 0xff ∷ []) }
    ensures to_the_end { run_small (fill_body 5 0 3) 5 ≡ left_small (1 ∷ 2 ∷ 3 ∷ 0x84 ∷ 5 ∷ 0 ∷ 0 ∷ 0 ∷ []) }
    ensures past_the_end { run_small (fill_body 6 0 3) 4 ≡ has_trapped cause.Memory 0 }
    ensures none_at_the_end { run_small (fill_body 8 7 0) 5 ≡ gave 0 small }
    ensures none_past_the_end { run_small (fill_body 9 7 0) 4 ≡ has_trapped cause.Memory 0 }
    ensures last_of_128 { run_wide filled_body 8 ≡ gave 171 (record wide { memory = replicate 128 171 }) }
    ensures spent { run_small (fill_body 2 0 3) 3 ≡ has_spent 0 }
{}

/// A copy or a fill pays a unit more for each whole 64 bytes. With one unit less than its price the fuel is spent, and what is
/// left stays; one that traps pays a unit, however long its range.
pub fn worked_prices()
    ensures copy_of_63 { run_wide (copy_body 64 0 63) 5 ≡ left_wide (replicate 127 1 ++ 2 ∷ []) }
    ensures copy_of_64 { run_wide (copy_body 64 0 64) 6 ≡ left_wide (replicate 128 1) }
    ensures copy_of_65 { run_wide (copy_body 63 0 65) 6 ≡ left_wide (replicate 127 1 ++ 2 ∷ []) }
    ensures copy_of_127 { run_wide (copy_body 0 1 127) 6 ≡ left_wide (replicate 63 1 ++ replicate 65 2) }
    ensures copy_of_128 { run_wide (copy_body 0 0 128) 7 ≡ gave 0 wide }
    ensures copy_of_64_short { run_wide (copy_body 64 0 64) 4 ≡ has_spent 1 }
    ensures copy_of_128_short { run_wide (copy_body 0 0 128) 5 ≡ has_spent 2 }
    ensures fill_of_63 { run_wide (fill_body 64 1 63) 5 ≡ left_wide (replicate 127 1 ++ 2 ∷ []) }
    ensures fill_of_64 { run_wide (fill_body 64 1 64) 6 ≡ left_wide (replicate 128 1) }
    ensures fill_of_65 { run_wide (fill_body 63 1 65) 6 ≡ left_wide (replicate 128 1) }
    ensures fill_of_64_short { run_wide (fill_body 64 1 64) 4 ≡ has_spent 1 }
    ensures fill_of_128_short { run_wide (fill_body 0 1 128) 5 ≡ has_spent 2 }
    ensures trap_of_129 { run_wide (fill_body 0 1 129) 4 ≡ has_trapped cause.Memory 0 }
    ensures trap_of_128 { run_wide (copy_body 1 0 128) 4 ≡ has_trapped cause.Memory 0 }
{}

/// The extension of a sign, from both sides of the least number that has one, with the bits above it set and not.
pub fn worked_extensions()
    ensures most { run_small (extend_body 127 instr.I32Extend8S) 2 ≡ gave 127 small }
    ensures least { run_small (extend_body 128 instr.I32Extend8S) 2 ≡ gave 4294967168 small }
    ensures above { run_small (extend_body 0x12345601 instr.I32Extend8S) 2 ≡ gave 1 small }
    ensures most_of_16 { run_small (extend_body 0x17fff instr.I32Extend16S) 2 ≡ gave 0x7fff small }
    ensures least_of_16 { run_small (extend_body 0x8000 instr.I32Extend16S) 2 ≡ gave 0xffff8000 small }
    ensures long_most { run_small (long_extend_body 0xffff7f instr.I64Extend8S) 5 ≡ gave 0 small }
    ensures long_least { run_small (long_extend_body 0x80 instr.I64Extend8S) 5 ≡ gave 0xffffffff small }
    ensures long_most_of_16 { run_small (long_extend_body 0xf7fff instr.I64Extend16S) 5 ≡ gave 0 small }
    ensures long_least_of_16 { run_small (long_extend_body 0x8000 instr.I64Extend16S) 5 ≡ gave 0xffffffff small }
    ensures long_most_of_32 { run_small (long_extend_body 0x17fffffff instr.I64Extend32S) 5 ≡ gave 0 small }
    ensures long_least_of_32 { run_small (long_extend_body 0x80000000 instr.I64Extend32S) 5 ≡ gave 0xffffffff small }
{}

/// 32,768 values may stand, of which these runs have one in a local; past them is the trap, which is
/// not paid where a host's answer came too many.
pub fn worked_bounds()
    ensures room { run none 1 (standing 32766 (instr.I32Const (pos 1))) ≡ has_finished (Some (value.I32 1)) (idle_config small) 0 }
    ensures no_room { run none 1 (standing 32767 (instr.I32Const (pos 1))) ≡ has_trapped cause.Stack 0 }
    ensures nop_at_bound { run none 1 (standing 32767 instr.Nop) ≡ has_finished (Some (value.I32 1)) (idle_config small) 0 }
    ensures tee_below_bound { run none 1 (standing 32766 (instr.LocalTee 0)) ≡ has_finished (Some (value.I32 1)) (idle_config small) 0 }
    ensures tee_at_bound { run none 1 (standing 32767 (instr.LocalTee 0)) ≡ has_trapped cause.Stack 0 }
    ensures tee_spent { run none 0 (standing 32767 (instr.LocalTee 0)) ≡ has_spent 0 }
    ensures answer_past_bound { run none 0 (answered_config (Some (value.I32 1)) (standing 32767 instr.Nop)) ≡ has_trapped cause.Stack 0 }
{}

/// A run takes as many steps as it needs: it is never cut short.
pub fn runs_take_their_steps()
    ensures { RunsToItsEnd }
{}

/// Neither is a run with a host that leaves the calls as they wait and gives back no more fuel than it
/// was given.
pub fn hosted_runs_take_their_steps<H>()
    ensures { HostedRunsToItsEnd H }
{}

/// More fuel changes nothing but what is left, unless the fuel was spent.
pub fn fuel_only_bounds()
    ensures { FuelOnlyBounds }
{}

/// A run touches no call below the topmost one, nor does the host's answer, after which there is as much left to run as
/// before it.
pub fn calls_below_stay()
    ensures runs { CallsBelowStay }
    ensures answers { AnswersStayAbove }
    ensures depth { AnswersKeepDepth }
{}

/// Fuel is spent exactly where a run comes to a step that needs more units than are left, and these stay.
pub fn fuel_is_spent_by_need()
    ensures { SpentByNeed }
{}

/// Each instruction that holds no others has its rule.
pub fn instructions_have_rules()
    ensures { EachHasItsRule }
{}
