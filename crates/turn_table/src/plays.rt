// What each step on the table tells the seat that makes it.
ghost use Rattle.turn_table.specs.Steps.{took, waits, recorded, gave, looked};
ghost use Rattle.turn_table.specs.Views.{after_split, split_off, joined, spent_view};

use crate::{Turned, View};
use atomic_table::{Join, Play, Split};
use std::marker::{Brand, PhantomData};

/// The entry that a step records. Each call picks it.
pub(crate) trait Naming {
    ghost use Rattle.store_model.specs.declared.entry.Entry.{Entry};

    ghost entry: { Entry };
}

impl Naming for Brand {
    ghost use Rattle.store_model.specs.History.{entry};
    ghost use Rattle.store_model.specs.declared.call.Call.TheVariants.{Notice};
    ghost use Rattle.store_model.specs.declared.call.Reply.TheVariants.{NoneOwed};

    ghost entry = { entry 1 Notice NoneOwed };
}

/// The turn is taken, or another seat has it.
pub(crate) struct Takes<S> {
    of: PhantomData<S>,
}

impl<S: Turned> Play<S, View> for Takes<S> {
    ghost then = { took S.acts };
}

/// The mark that seats sleep is made, or taken away.
pub(crate) struct Waits;

impl<S> Play<S, View> for Waits {
    ghost then = { waits };
}

/// The entry of E goes behind the history.
pub(crate) struct Records<S, E> {
    of: PhantomData<(S, E)>,
}

impl<S: Turned, E: Naming> Play<S, View> for Records<S, E> {
    ghost then = { recorded S.acts E.entry };
}

/// The turn is given back.
pub(crate) struct Gives<S> {
    of: PhantomData<S>,
}

impl<S: Turned> Play<S, View> for Gives<S> {
    ghost then = { gave S.acts };
}

/// The seat of number 1 is told what the rule says of it.
pub(crate) struct Looks<S> {
    of: PhantomData<S>,
}

impl<S: Turned> Play<S, View> for Looks<S> {
    ghost then = { looked S.acts };
}

/// A number is given out.
pub(crate) struct Parts;

impl Split<View> for Parts {
    ghost left = { after_split };

    ghost right = { split_off };
}

/// A seat is joined into another.
pub(crate) struct Meets;

impl Join<View> for Meets {
    ghost both = { joined };

    ghost spent = { spent_view };
}
