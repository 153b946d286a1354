//! What the bytes of an HTTP/1.1 line spell: definitions, worked examples and laws.
#![tactic(auto)]

ghost use Rattle.h1_model.specs.ChunkExamples.{WorkedBody, SizeExamples, PlaceExamples, TrailerExamples, ChunkWireExamples};
ghost use Rattle.h1_model.specs.ChunkLaws.{OneChunkStep, SizeStays, SoughtStays, RunsJoin, LastStepStays, TrailersAreFields};
ghost use Rattle.h1_model.specs.Examples.{WorkedHead, ClosingHead, WorkedResponse, ResponseExamples, OrderExamples, LineExamples, FieldExamples, WireExamples, LengthExamples, ResponseLengthExamples, BareExamples, ListExamples, TargetExamples, RefusalExamples};
ghost use Rattle.h1_model.specs.FrontExamples.{FrontExamples};
ghost use Rattle.h1_model.specs.Fronts.{PiecesAreAFront, FrontsOfOneText};
ghost use Rattle.h1_model.specs.ReadingExamples.{CountedExamples, UnboundedExamples, CodedExamples, SectionExamples, ListedExamples, LeftExamples, PlacedExamples};
ghost use Rattle.h1_model.specs.ReadingLaws.{OnePart, PiecesAreWhole, CutsAlike, RefusedStays, UnreadIsCut, RestsAreShort};
ghost use Rattle.h1_model.specs.Laws.{OneStep, EachText, StepStays, OneReading, ReadingGrows, RefusalStays, ToldAsReceived, ResponseAsReceived, RefusalNumbers, ValuesAccepted, WholeFits, RequestListed, ResponseListed, FramedOnce, RequestTaken, ResponseTaken, TrailersUnlisted};

/// Where a head is due, a text spells one thing.
pub fn one_step()
    ensures { OneStep }
{}

/// Where a head is due, each text is exactly one of a head, no head yet, and a refusal.
pub fn each_text()
    ensures { EachText }
{}

/// A head or a refusal that a text spells, every longer text spells.
pub fn step_stays()
    ensures { StepStays }
{}

/// Two readings of one text are equal.
pub fn one_reading()
    ensures { OneReading }
{}

/// A reading of a longer text begins with the items of the shorter.
pub fn reading_grows()
    ensures { ReadingGrows }
{}

/// A refusal stays when more bytes come.
pub fn refusal_stays()
    ensures { RefusalStays }
{}

/// A request head that is taken in tells whether a length field was received, and whether its target begins with `/`, and keeps
/// the values of its Connection fields.
pub fn told_as_received()
    ensures { ToldAsReceived }
{}

/// A response head that is taken in tells a number exactly where Content-Length was received, is chunked exactly where
/// Transfer-Encoding was and it may have a body, and keeps its version, whether Connection lists `close`, and that field's values.
pub fn response_as_received()
    ensures { ResponseAsReceived }
{}

/// A request is refused with 400, 431 or 501 alone, a response with 502 alone.
pub fn refusal_numbers()
    ensures { RefusalNumbers }
{}

/// A request's list is its four pseudo-headers and then exactly the fields that are not dropped.
pub fn request_listed()
    ensures { RequestListed }
{}

/// A response's list is its status and then exactly the fields that are not dropped.
pub fn response_listed()
    ensures { ResponseListed }
{}

/// A message that is taken in is framed in one way alone: by one length, or by the chunked coding, or by neither, where
/// neither field was received.
pub fn framed_once()
    ensures { FramedOnce }
{}

/// No request head that is read is refused for what its list takes.
pub fn request_taken()
    ensures { RequestTaken }
{}

/// No response head that is read, with a status that is taken, is refused for what its list takes.
pub fn response_taken()
    ensures { ResponseTaken }
{}

/// Every value that is read is one that a header map takes.
pub fn values_accepted()
    ensures { ValuesAccepted }
{}

/// A whole head is a front of its text, of 65,536 bytes at most.
pub fn whole_fits()
    ensures { WholeFits }
{}

/// The definitions, worked on texts that are written out.
pub fn worked_examples()
    ensures head { WorkedHead }
    ensures closing { ClosingHead }
    ensures response { WorkedResponse }
    ensures lines { LineExamples }
    ensures fields { FieldExamples }
    ensures wires { WireExamples }
    ensures lengths { LengthExamples }
    ensures response_lengths { ResponseLengthExamples }
    ensures bare { BareExamples }
    ensures responses { ResponseExamples }
    ensures order { OrderExamples }
    ensures lists { ListExamples }
    ensures targets { TargetExamples }
    ensures refusals { RefusalExamples }
{}

/// The definitions of the chunked coding, worked on texts that are written out.
pub fn chunk_examples()
    ensures body { WorkedBody }
    ensures sizes { SizeExamples }
    ensures places { PlaceExamples }
    ensures trailers { TrailerExamples }
    ensures wires { ChunkWireExamples }
{}

/// From a place in a chunked body on, a text spells one thing.
pub fn one_chunk_step()
    ensures { OneChunkStep }
{}

/// A size line stays the size line of every longer text, and what can be none stays none.
pub fn size_stays()
    ensures { SizeStays }
{}

/// A byte of data, the place of a trailer section and a fault stay those of every longer text.
pub fn sought_stays()
    ensures { SoughtStays }
{}

/// The data of a longer text is that of its front, and then what is carried from the place after it.
pub fn runs_join()
    ensures { RunsJoin }
{}

/// An end or a refusal that a text spells in a chunked body, every longer text spells.
pub fn last_step_stays()
    ensures { LastStepStays }
{}

/// The trailers of a body's end are fields as a header list keeps them.
pub fn trailers_are_fields()
    ensures { TrailersAreFields }
{}

/// No trailer is left that the head's Connection lists (RFC 9110 section 7.6.1).
pub fn trailers_unlisted()
    ensures { TrailersUnlisted }
{}

/// From a place in a line's text on, one part is unread next.
pub fn one_part()
    ensures { OnePart }
{}

/// What is handed on of a text in pieces, however it is cut, is what the whole text spells.
pub fn pieces_are_whole()
    ensures { PiecesAreWhole }
{}

/// Two readings of one text with the same end hand on the same heads, bytes of bodies, ends and trailers, and stop for the same
/// reason (segmentation independence).
pub fn cuts_alike()
    ensures { CutsAlike }
{}

/// Whatever was handed on by any moment, whether or not a further part is there, is a front of what the text so far spells; and,
/// where that has not ended, of what every longer text spells.
pub fn pieces_are_a_front()
    ensures { PiecesAreAFront }
{}

/// Of two readings of one text with the same end, or of which one has come further, what one handed on by any moment is a front of
/// what the other did by any.
pub fn fronts_of_one_text()
    ensures { FrontsOfOneText }
{}

/// A reader that has a further part, worked on a text that is written out: of two requests one is handed on, and the next one waits.
pub fn front_examples()
    ensures { FrontExamples }
{}

/// A refusal stays, whatever comes after it.
pub fn refused_stays()
    ensures { RefusedStays }
{}

/// A reader that rests has fewer than 65,536 bytes unread.
pub fn rests_are_short()
    ensures { RestsAreShort }
{}

/// What is unread of a text from a place on is what it spells there, with each body cut after each 16,384 bytes.
pub fn unread_is_cut()
    ensures { UnreadIsCut }
{}

/// What is unread of bodies, worked on texts that are written out.
pub fn reading_examples()
    ensures counted { CountedExamples }
    ensures unbounded { UnboundedExamples }
    ensures coded { CodedExamples }
    ensures sections { SectionExamples }
    ensures listed { ListedExamples }
    ensures left { LeftExamples }
    ensures placed { PlacedExamples }
{}
