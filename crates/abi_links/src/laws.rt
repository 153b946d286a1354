//! Imports that were judged by hand. The functions have nothing to do: their contracts are the examples.

ghost use Rattle.std.specs.Prelude.{◌≡◌, [], ◌∷◌, Some, None, codes, replicate};
ghost use Rattle.wasm_syntax.specs.declared.types.ValueType.TheVariants.{I32, I64};
ghost use Rattle.wasm_store.specs.declared.links.Judged.TheVariants as judged;
ghost use Rattle.abi_model.specs.declared.table.HostCall.TheVariants as call;
ghost use Rattle.abi_model.specs.declared.table.WasiCall.TheVariants as wasi;
ghost use Rattle.abi_links.specs.declared.target.ImportTarget.TheVariants as target;
ghost use Rattle.abi_links.specs.Judging.{target_of, judged_of, typed};

/// What names stand for.
pub fn worked_targets()
    ensures of_the_table { target_of (codes "env") (codes "proxy_log") ≡ Some (target.Proxy call.Log) }
    ensures another { target_of (codes "env") (codes "proxy_logs") ≡ Some target.OtherProxy }
    ensures growth { target_of (codes "env") (codes "emscripten_notify_memory_growth") ≡ Some target.MemoryGrowth }
    ensures no_call { target_of (codes "env") (codes "abort") ≡ None }
    ensures of_wasi { target_of (codes "wasi_snapshot_preview1") (codes "proc_exit") ≡ Some (target.Wasi wasi.ProcExit) }
    ensures of_older_wasi { target_of (codes "wasi_unstable") (codes "fd_write") ≡ Some (target.Wasi wasi.FdWrite) }
    ensures another_of_wasi { target_of (codes "wasi_unstable") (codes "fd_read") ≡ Some target.OtherWasi }
    ensures elsewhere { target_of (codes "wasi") (codes "fd_write") ≡ None }
    ensures of_no_module { target_of (codes "host") (codes "proxy_log") ≡ None }
{}

/// Imports by their types.
pub fn worked_judgements()
    ensures linked { judged_of (codes "env") (codes "proxy_log") (typed (I32 ∷ I32 ∷ I32 ∷ []) (I32 ∷ [])) ≡ judged.Linked }
    ensures one_less { judged_of (codes "env") (codes "proxy_log") (typed (I32 ∷ I32 ∷ []) (I32 ∷ [])) ≡ judged.OtherType }
    ensures no_status { judged_of (codes "env") (codes "proxy_log") (typed (I32 ∷ I32 ∷ I32 ∷ []) []) ≡ judged.OtherType }
    ensures long { judged_of (codes "env") (codes "proxy_done") (typed (replicate 17 I32) (I32 ∷ [])) ≡ judged.OtherType }
    ensures lenient { judged_of (codes "env") (codes "proxy_none") (typed (replicate 16 I64) (I32 ∷ [])) ≡ judged.Linked }
    ensures too_long { judged_of (codes "env") (codes "proxy_none") (typed (replicate 17 I32) (I32 ∷ [])) ≡ judged.Unknown }
    ensures wide_answer { judged_of (codes "env") (codes "proxy_none") (typed [] (I64 ∷ [])) ≡ judged.Unknown }
    ensures growth { judged_of (codes "env") (codes "emscripten_notify_memory_growth") (typed (I32 ∷ []) []) ≡ judged.Linked }
    ensures other_growth { judged_of (codes "env") (codes "emscripten_notify_memory_growth") (typed [] []) ≡ judged.Unknown }
    ensures clock { judged_of (codes "wasi_unstable") (codes "clock_time_get") (typed (I32 ∷ I64 ∷ I32 ∷ []) (I32 ∷ [])) ≡ judged.Linked }
    ensures narrow_clock { judged_of (codes "wasi_unstable") (codes "clock_time_get") (typed (I32 ∷ I32 ∷ I32 ∷ []) (I32 ∷ [])) ≡ judged.OtherType }
    ensures exit { judged_of (codes "wasi_unstable") (codes "proc_exit") (typed (I32 ∷ []) []) ≡ judged.Linked }
    ensures exit_returns { judged_of (codes "wasi_unstable") (codes "proc_exit") (typed (I32 ∷ []) (I32 ∷ [])) ≡ judged.OtherType }
    ensures unknown { judged_of (codes "env") (codes "abort") (typed [] []) ≡ judged.Unknown }
{}
