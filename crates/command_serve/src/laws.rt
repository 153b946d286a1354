// Worked examples of the definitions. Nothing here does anything when it runs.
ghost use Rattle.command_serve.specs.Examples.{two_vms_told};

/// Worked lines of what stores and metrics came to.
pub fn worked_summary()
    ensures { two_vms_told }
{}
