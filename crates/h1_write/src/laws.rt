// What is written is read back, as functions without a body.
ghost use Rattle.h1_write.specs.Laws.{PiecesReadBack, EndReadBack, TrailersReadBack, TrailedEndReadBack};
ghost use Rattle.h1_write.specs.Round.{BodyReadBack, BodyIsAll, ReadingsJoin, HeadReadBack, MessageReadBack, MessageIsAll, RequestsReadBack, AnswerReadBack};
ghost use Rattle.h1_write.specs.Heads.{ResponseHeadReadBack, InterimReadBack, ResponseReadBack, BareResponseReadBack};
ghost use Rattle.h1_write.specs.Requests.{RequestHeadReadBack, RequestReadBack};
ghost use Rattle.h1_write.specs.Lines.{RequestLineReadBack, AnswerLineReadBack, BareAnswerLineReadBack};
ghost use Rattle.h1_write.specs.RoundExamples.{ResponseExamples, RequestExamples};

/// Pieces that are written in chunks are read back as the same bytes, joined, whatever pieces they came in; then the body ends,
/// where all that was written is used up.
pub fn pieces_read_back()
    ensures bytes { PiecesReadBack }
    ensures end { EndReadBack }
{}

/// So are pieces in front of trailers, and then exactly the trailers that go out, without the blanks around their values.
pub fn trailers_read_back()
    ensures bytes { TrailersReadBack }
    ensures end { TrailedEndReadBack }
{}

/// What is written of a body in any framing is read, from where it is due, as its bytes, joined and in order, and its end, with
/// the trailers that a reader keeps; all that was written is used up, and what follows is read as it is by itself.
pub fn body_read_back()
    ensures between { BodyReadBack }
    ensures alone { BodyIsAll }
    ensures joined { ReadingsJoin }
{}

/// A head that is read where a head is due, and what is written of the body that it says, are read as the head and that body's
/// items.
pub fn message_read_back()
    ensures head { HeadReadBack }
    ensures between { MessageReadBack }
    ensures alone { MessageIsAll }
{}

/// Requests one after another, and a response behind interim heads, are read as the items of each, in order.
pub fn lines_read_back()
    ensures requests { RequestsReadBack }
    ensures answer { AnswerReadBack }
{}

/// A response head that is written is read as a head with the same status, the fields that went out and the length that its
/// framing says; so a whole response that is written is read as its head and its body's items.
pub fn responses_read_back()
    ensures head { ResponseHeadReadBack }
    ensures interim { InterimReadBack }
    ensures whole { ResponseReadBack }
    ensures bare { BareResponseReadBack }
{}

/// A request head that is written is read as a head with the same method, authority and path, the fields that went out and the
/// length that its framing says; so a whole request that is written is read as its head and its body's items.
pub fn requests_read_back()
    ensures head { RequestHeadReadBack }
    ensures whole { RequestReadBack }
{}

/// All that is written of a line is read back: requests one after another, and a response after its interim heads.
pub fn written_lines_read_back()
    ensures requests { RequestLineReadBack }
    ensures answer { AnswerLineReadBack }
    ensures bare { BareAnswerLineReadBack }
{}

/// A response and a request that are written and read back, worked on texts that are written out.
pub fn round_examples()
    ensures response { ResponseExamples }
    ensures request { RequestExamples }
{}
