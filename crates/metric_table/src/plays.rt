// What each step on a word tells the seat that makes it.
ghost use Rattle.metric_table.specs.Steps.{bumped, written, looked};
ghost use Rattle.metric_table.specs.Views.{after_split, split_off, joined, spent_view};

use crate::View;
use atomic_table::{Join, Play, Split};

/// The own word rises.
pub(crate) struct Bumps;

impl Play<(), View> for Bumps {
    ghost then = { bumped };
}

/// The own word is written.
pub(crate) struct Writes;

impl Play<(), View> for Writes {
    ghost then = { written };
}

/// A word is read.
pub(crate) struct Looks;

impl Play<(), View> for Looks {
    ghost then = { looked };
}

/// A number is given out.
pub(crate) struct Parts;

impl Split<View> for Parts {
    ghost left = { after_split };

    ghost right = { split_off };
}

/// A seat is joined into another.
pub(crate) struct Meets;

impl Join<View> for Meets {
    ghost both = { joined };

    ghost spent = { spent_view };
}
