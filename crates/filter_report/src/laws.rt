//! What reports say, worked out by hand. The function has nothing to do.
ghost use Rattle.filter_report.specs.Examples.{ReportExamples};

/// Reports of modules that are written out.
pub fn worked_reports()
    ensures { ReportExamples }
{}
