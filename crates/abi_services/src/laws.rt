// What the calls answer, worked on values that are written out.
ghost use Rattle.abi_services.specs.Examples.{LocalExamples, StoreExamples, WasiExamples};

/// Ticks, levels, paths, stores, metrics and the calls of WASI, worked on values that are written out.
pub fn worked_services()
    ensures local { LocalExamples }
    ensures stores { StoreExamples }
    ensures wasi { WasiExamples }
{}
