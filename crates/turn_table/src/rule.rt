// The rule of the table.
use crate::{Turned, View};
use atomic_table::TableRule;
use gate_base::VmNo;
use std::marker::PhantomData;

/// There is one legal history, and the value at home is what it leaves.
pub struct InTurn<S> {
    of: PhantomData<S>,
}

impl<S: Turned> TableRule<S, View, VmNo> for InTurn<S> {
    ghost use Rattle.turn_table.specs.Rule.{Kept};
    ghost use Rattle.turn_table.specs.Views.{first_view};

    ghost holds = { λ vm s. Kept S.acts vm s };

    ghost first = { first_view };
}
