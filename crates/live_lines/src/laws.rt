// What the definitions say, worked out.
ghost use Rattle.live_lines.specs.Lasting.{LastingExamples};

/// How long a connection lasts that was closed, at moments that are written out.
pub fn worked_lasting()
    ensures { LastingExamples }
{}
