//! Header lists: the fields of a message with its pseudo-headers, and the operations on them.
#![tactic(auto)]

mod end;
mod given;
mod judged;
mod kind;
mod laws;
mod list;
mod measured;
mod pairs;
mod texts;

pub use end::HeaderEnd;
pub use judged::is_same_word;
pub use kind::ListKind;
pub use laws::{
    added_is_found, judged_alike, removed_is_absent, replaced_in_place, set_gives_back,
    set_keeps_given, status_read_back, worked_examples,
};
pub use list::HeaderList;
pub use measured::value_len;
pub use texts::Texts;
