// Worked turns in which a filter that computes changes a body. The function has nothing to do: its contract is the example.
ghost use Rattle.law_body_turns.specs.Shouting.{ShoutingExample};

/// A machine that makes capitals of the letters of each body that it is asked about, worked from the text of a request to what goes up, over two turns: the
/// body comes in two pieces, of which the first comes with the head, and each goes up as a chunk as the machine left it.
pub fn worked_turns()
    ensures { ShoutingExample }
{}
