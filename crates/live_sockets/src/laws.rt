// What the definitions say, worked out.
ghost use Rattle.live_sockets.specs.Moments.{MomentExamples};

/// How the clock of events goes on where the system's clock goes in step, is set back and set forward, at moments that are written out.
pub fn worked_moments()
    ensures { MomentExamples }
{}
