//! What the definitions say, as functions without a body.

ghost use Rattle.std.specs.Prelude.{◌≡◌, ◌++◌, List};
ghost use Rattle.gate_io.specs.declared.event.Sent.{Sent};
ghost use Rattle.wasm_syntax.specs.Grammar.{Spells};
ghost use Rattle.wasm_syntax.specs.Validity.{IsValid};
ghost use Rattle.workload.specs.Examples.{IsShare, RequestExamples, SharingExamples, TallyExamples};
ghost use Rattle.workload.specs.Filter.{queue_filter};
ghost use Rattle.workload.specs.Tallies.{sum_of, tally_of};

use crate::filter::FILTER;
use wasm_syntax::module_laws;

/// Requests by their numbers.
pub fn worked_requests()
    ensures { RequestExamples }
{}

/// How requests are shared out.
pub fn worked_sharing()
    ensures { SharingExamples }
{}

/// Each of the four workers is given 256 lines, of four events each, and Stop.
pub fn workers_have_256_lines()
    ensures first { IsShare 1 }
    ensures second { IsShare 2 }
    ensures third { IsShare 3 }
    ensures fourth { IsShare 4 }
{}

/// Counts, worked out by hand.
pub fn worked_tallies()
    ensures { TallyExamples }
{}

/// The counts of two lists after one another are their sum.
pub fn tallies_add_up()
    ensures { (a b : List Sent) → tally_of (a ++ b) ≡ sum_of (tally_of a) (tally_of b) }
{}

/// The bytes of the filter spell its module, which is valid.
pub fn filter_is_a_module()
    ensures spelled { Spells FILTER.now queue_filter }
    ensures valid { IsValid queue_filter }
{
    module_laws::read_is_spelled();
}
