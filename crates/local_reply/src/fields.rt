// The date among the fields that go out.
ghost use Rattle.std.specs.Prelude.{◌≡◌};
ghost use Rattle.h1_model.specs.LocalReply.{has_date};
ghost use Rattle.h1_model.specs.Wire.{sent_fields};

use h1_head::is_left_out;
use header_maps::{HeaderList, is_same_word};

/// Whether one of these fields is a date.
fn has_field_date(fields: &HeaderList) -> bool
    ensures { result ≡ has_date fields.now.pairs }
{
    for at in 0..fields.len() {
        let (name, _) = fields.pair(at);
        if is_same_word(name, b"date") {
            return true;
        }
    }
    false
}

/// Whether a date is one of the fields that go out. All dates have one name, so it is looked for once in what Connection lists.
#[tactic(auto, using(crate::proofs::Dated::named_sent))]
pub fn has_date(fields: &HeaderList) -> bool
    ensures { result ≡ has_date (sent_fields fields.now.pairs) }
{
    has_field_date(fields) && !is_left_out(fields.texts(), b"date")
}
