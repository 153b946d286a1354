//! Laws of the module grammar. The functions have nothing to do: their contracts are the laws.

ghost use Rattle.std.specs.Prelude.{◌≡◌, ◌⊎◌, ◌↔◌, ℕ, List, [], ◌∷◌, ◌++◌, Ok, Err, Some, None};
ghost use Rattle.wasm_syntax.specs.declared.module.Module.{Module as Modules};
ghost use Rattle.wasm_syntax.specs.Grammar.{Spells, FirstFault, module_read, empty_module, header};
ghost use Rattle.wasm_syntax.specs.Examples.{type_section, long_type_section, function_section, memory_section, code_section, data_section, float_section, padded_type_section, before_code, bytes_of_example, example, in_body, at_fault};
ghost use Rattle.wasm_syntax.specs.declared.instr.Instr.TheVariants as instr;

/// Reading gives a module exactly where the bytes spell it.
pub fn read_is_spelled()
    ensures { (b : List ℕ) (m : Modules) → (module_read b ≡ Ok m) ↔ Spells b m }
{}

/// Bytes spell one module at most.
pub fn one_module()
    ensures { (b : List ℕ) (m n : Modules) → Spells b m → Spells b n → m ≡ n }
{}

/// All bytes spell a module or have a first fault, not both, and one fault alone.
pub fn spelled_or_one_fault()
    ensures some { (b : List ℕ) → ((m : Modules) × Spells b m) ⊎ ((number : ℕ) × (place : ℕ) × FirstFault b number place) }
    ensures apart { (b : List ℕ) (m : Modules) (number place : ℕ) → Spells b m → FirstFault b number place → ⊥ }
    ensures one { (b : List ℕ) (m n p q : ℕ) → FirstFault b m p → FirstFault b n q → (m ≡ n) × (p ≡ q) }
{}

/// Modules and faults, worked out by hand.
pub fn worked_modules()
    ensures nothing { module_read [] ≡ at_fault 2 0 }
    ensures header_alone { module_read header ≡ Ok empty_module }
    ensures wrong_magic { module_read (0x00 ∷ 0x62 ∷ 0x73 ∷ []) ≡ at_fault 1 2 }
    ensures size_cut_off { module_read (header ++ 0x01 ∷ 0x80 ∷ []) ≡ at_fault 2 0 }
    ensures whole { module_read bytes_of_example ≡ Ok example }
    ensures long_count { module_read (header ++ long_type_section ++ function_section ++ memory_section ++ code_section ++ data_section) ≡ Ok example }
    ensures float { module_read (header ++ type_section ++ function_section ++ memory_section ++ float_section) ≡ at_fault 6 2 }
    ensures types_alone { module_read (header ++ type_section) ≡ Ok (record empty_module { types = record { parameters = []; results = [] } ∷ [] }) }
    ensures no_code { module_read (header ++ type_section ++ function_section) ≡ at_fault 4 0 }
    ensures no_function { module_read (header ++ type_section ++ code_section) ≡ at_fault 4 0 }
    ensures twice { module_read (header ++ type_section ++ type_section) ≡ at_fault 4 6 }
    ensures out_of_order { module_read (header ++ function_section ++ type_section) ≡ at_fault 4 6 }
    ensures body_past_its_section { module_read (before_code ++ 0x0a ∷ 0x04 ∷ 0x01 ∷ 0x03 ∷ 0x00 ∷ 0x0b ∷ []) ≡ at_fault 8 5 }
    ensures bytes_behind_end { module_read (before_code ++ 0x0a ∷ 0x05 ∷ 0x01 ∷ 0x03 ∷ 0x00 ∷ 0x0b ∷ 0x0b ∷ []) ≡ at_fault 8 4 }
    ensures else_without_if { module_read (before_code ++ 0x0a ∷ 0x05 ∷ 0x01 ∷ 0x03 ∷ 0x00 ∷ 0x05 ∷ 0x0b ∷ []) ≡ at_fault 5 2 }
    ensures no_end { module_read (before_code ++ 0x0a ∷ 0x04 ∷ 0x01 ∷ 0x02 ∷ 0x00 ∷ 0x01 ∷ []) ≡ at_fault 2 0 }
    ensures end_behind_body { module_read (before_code ++ 0x0a ∷ 0x04 ∷ 0x01 ∷ 0x02 ∷ 0x00 ∷ 0x01 ∷ 0x0b ∷ 0x01 ∷ 0x00 ∷ []) ≡ at_fault 8 6 }
    ensures size_past_the_input { module_read (header ++ 0x01 ∷ 0x09 ∷ 0x01 ∷ 0x60 ∷ 0x00 ∷ 0x00 ∷ 0x07 ∷ []) ≡ at_fault 2 0 }
    ensures counts_differ { module_read (before_code ++ 0x0a ∷ 0x01 ∷ 0x00 ∷ []) ≡ at_fault 4 1 }
    ensures padded { module_read (header ++ padded_type_section) ≡ at_fault 8 6 }
{}

/// What the byte 0xFC and a number behind it spell, and at which place each of them is at fault, worked out by hand.
pub fn worked_prefixes()
    ensures copy { module_read (before_code ++ 0x0a ∷ 0x08 ∷ 0x01 ∷ 0x06 ∷ 0x00 ∷ 0xfc ∷ 0x0a ∷ 0x00 ∷ 0x00 ∷ 0x0b ∷ []) ≡ Ok (in_body (instr.MemoryCopy ∷ [])) }
    ensures long_fill { module_read (before_code ++ 0x0a ∷ 0x09 ∷ 0x01 ∷ 0x07 ∷ 0x00 ∷ 0xfc ∷ 0x8b ∷ 0x80 ∷ 0x00 ∷ 0x00 ∷ 0x0b ∷ []) ≡ Ok (in_body (instr.MemoryFill ∷ [])) }
    ensures extension { module_read (before_code ++ 0x0a ∷ 0x05 ∷ 0x01 ∷ 0x03 ∷ 0x00 ∷ 0xc4 ∷ 0x0b ∷ []) ≡ Ok (in_body (instr.I64Extend32S ∷ [])) }
    ensures behind_extensions { module_read (before_code ++ 0x0a ∷ 0x05 ∷ 0x01 ∷ 0x03 ∷ 0x00 ∷ 0xc5 ∷ 0x0b ∷ []) ≡ at_fault 5 2 }
    ensures first_float { module_read (before_code ++ 0x0a ∷ 0x06 ∷ 0x01 ∷ 0x04 ∷ 0x00 ∷ 0xfc ∷ 0x00 ∷ 0x0b ∷ []) ≡ at_fault 6 3 }
    ensures last_float { module_read (before_code ++ 0x0a ∷ 0x06 ∷ 0x01 ∷ 0x04 ∷ 0x00 ∷ 0xfc ∷ 0x07 ∷ 0x0b ∷ []) ≡ at_fault 6 3 }
    ensures long_float { module_read (before_code ++ 0x0a ∷ 0x07 ∷ 0x01 ∷ 0x05 ∷ 0x00 ∷ 0xfc ∷ 0x87 ∷ 0x00 ∷ 0x0b ∷ []) ≡ at_fault 6 4 }
    ensures behind_floats { module_read (before_code ++ 0x0a ∷ 0x06 ∷ 0x01 ∷ 0x04 ∷ 0x00 ∷ 0xfc ∷ 0x08 ∷ 0x0b ∷ []) ≡ at_fault 5 2 }
    ensures before_copy { module_read (before_code ++ 0x0a ∷ 0x06 ∷ 0x01 ∷ 0x04 ∷ 0x00 ∷ 0xfc ∷ 0x09 ∷ 0x0b ∷ []) ≡ at_fault 5 2 }
    ensures behind_fill { module_read (before_code ++ 0x0a ∷ 0x07 ∷ 0x01 ∷ 0x05 ∷ 0x00 ∷ 0xfc ∷ 0x8c ∷ 0x00 ∷ 0x0b ∷ []) ≡ at_fault 5 3 }
    ensures too_large { module_read (before_code ++ 0x0a ∷ 0x0a ∷ 0x01 ∷ 0x08 ∷ 0x00 ∷ 0xfc ∷ 0xff ∷ 0xff ∷ 0xff ∷ 0xff ∷ 0x1f ∷ 0x0b ∷ []) ≡ at_fault 3 6 }
    ensures cut_off { module_read (before_code ++ 0x0a ∷ 0x06 ∷ 0x01 ∷ 0x04 ∷ 0x00 ∷ 0xfc ∷ 0x8a ∷ []) ≡ at_fault 2 0 }
    ensures no_number { module_read (before_code ++ 0x0a ∷ 0x06 ∷ 0x01 ∷ 0x04 ∷ 0x00 ∷ 0xfc ∷ []) ≡ at_fault 2 0 }
    ensures first_reserved { module_read (before_code ++ 0x0a ∷ 0x08 ∷ 0x01 ∷ 0x06 ∷ 0x00 ∷ 0xfc ∷ 0x0a ∷ 0x01 ∷ 0x00 ∷ 0x0b ∷ []) ≡ at_fault 5 3 }
    ensures second_reserved { module_read (before_code ++ 0x0a ∷ 0x08 ∷ 0x01 ∷ 0x06 ∷ 0x00 ∷ 0xfc ∷ 0x0a ∷ 0x00 ∷ 0x01 ∷ 0x0b ∷ []) ≡ at_fault 5 2 }
    ensures fill_reserved { module_read (before_code ++ 0x0a ∷ 0x07 ∷ 0x01 ∷ 0x05 ∷ 0x00 ∷ 0xfc ∷ 0x0b ∷ 0x01 ∷ 0x0b ∷ []) ≡ at_fault 5 2 }
    ensures past_its_body { module_read (before_code ++ 0x0a ∷ 0x06 ∷ 0x01 ∷ 0x02 ∷ 0x00 ∷ 0xfc ∷ 0x0b ∷ 0x00 ∷ []) ≡ at_fault 8 5 }
    ensures float_past_its_body { module_read (before_code ++ 0x0a ∷ 0x06 ∷ 0x01 ∷ 0x02 ∷ 0x00 ∷ 0xfc ∷ 0x07 ∷ 0x00 ∷ []) ≡ at_fault 6 3 }
{}
