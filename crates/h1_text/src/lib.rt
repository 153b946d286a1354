//! The text of HTTP/1.1 messages: its lines, the members of lists in values, and which names they are.
#![tactic(auto)]

ghost use Rattle.h1_text.specs.Examples.{SearchExamples, MarkExamples};

mod lines;
mod listed;
mod members;
mod names;
mod wanted;

pub use lines::{BYTE_LIMIT, Cut, closed_cut, is_empty_line, line_len, line_len_at, open_cut};
pub use listed::listed_among;
pub use members::{first_member, has_many_members, lists, trim};
pub use names::{ListedNames, NameTree};

/// Names that are looked for, and their marks, worked on names that are written out.
pub fn name_examples()
    ensures search { SearchExamples }
    ensures marks { MarkExamples }
{}
