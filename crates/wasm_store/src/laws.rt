//! Linking, worked out by hand. The function has nothing to do: its contract is the examples.

ghost use Rattle.std.specs.Prelude.{◌≡◌, [], ◌∷◌, Some, None};
ghost use Rattle.wasm_syntax.specs.StoreExamples.{element, segment};
ghost use Rattle.wasm_store.specs.declared.instance.LinkEnd.TheVariants as end;
ghost use Rattle.wasm_store.specs.Linking.{link_fault};
ghost use Rattle.wasm_store.specs.LinkExamples.{host, linked, unknown, of_other_type, a_memory, having};

/// Which cause is told, where none holds, one and several.
pub fn worked_linking()
    ensures nothing { link_fault host (having (linked ∷ []) (element 0 (0 ∷ []) ∷ []) (segment 65535 (7 ∷ []) ∷ [])) 1 ≡ None }
    ensures unknown_at_all { link_fault host (having (linked ∷ unknown ∷ []) [] []) 1 ≡ Some (end.UnknownImport 1) }
    ensures other_type { link_fault host (having (linked ∷ of_other_type ∷ []) [] []) 1 ≡ Some (end.ImportType 1) }
    ensures unknown_first { link_fault host (having (of_other_type ∷ unknown ∷ []) [] []) 1 ≡ Some (end.UnknownImport 1) }
    ensures no_function { link_fault host (having (linked ∷ a_memory ∷ []) [] []) 1 ≡ Some (end.UnknownImport 1) }
    ensures type_before_pages { link_fault host (having (of_other_type ∷ []) [] []) 0 ≡ Some (end.ImportType 0) }
    ensures pages_before_elements { link_fault host (having [] (element 2 [] ∷ []) []) 0 ≡ Some end.PagesOverCap }
    ensures elements_before_data { link_fault host (having [] (element 0 [] ∷ element 1 (0 ∷ []) ∷ []) (segment 65536 (7 ∷ []) ∷ [])) 1 ≡ Some (end.ElementOutside 1) }
    ensures data { link_fault host (having [] [] (segment 65535 (7 ∷ 7 ∷ []) ∷ [])) 1 ≡ Some (end.DataOutside 0) }
    ensures none_at_the_end { link_fault host (having [] (element 1 [] ∷ []) (segment 65536 [] ∷ [])) 1 ≡ None }
    ensures none_past_the_end { link_fault host (having [] [] (segment 65536 [] ∷ segment 65537 [] ∷ [])) 1 ≡ Some (end.DataOutside 1) }
{}
