// The rule of the words.
use crate::View;
use atomic_table::TableRule;

/// Each word is what its worker knows it to be.
pub struct OwnWords;

impl TableRule<(), View, ()> for OwnWords {
    ghost use Rattle.metric_table.specs.Rule.{Kept};
    ghost use Rattle.metric_table.specs.Views.{first_view};

    ghost holds = { λ _ s. Kept s };

    ghost first = { λ _. first_view };
}
