// What is read of lines over turns. The functions have nothing to do: their contracts are the laws.
ghost use Rattle.law_reading.specs.Wholly.{WorkersReadWhatCame, WorkersLeaveLittleUnread};
ghost use Rattle.law_reading.specs.Cuts.{CutsDoNotMatter, FrontsAtAnyMoment};
ghost use Rattle.law_reading.specs.Examples.{ReadingExamples};
ghost use Rattle.law_reading.specs.Laws.{LinesReadWhatCame, NumbersReadOnce};
ghost use Rattle.law_reading.specs.Limits.{LinesKeepLimits, UnreadStaysShort};
ghost use Rattle.law_reading.specs.Servers.{ServersReadSince, ServersReadWhatCame};

use store_model::Shared;

/// Whatever turns a new worker has had, each of which came to rest, and whatever its machines do: each line that is open was opened in one of them and has
/// been open since, and the reader of its client came from a new one by text that, joined, is exactly what the events since then spell on its client's
/// side, with its end where the events say so, by parts that were handed on, and by halts where none was there. So no byte is lost, doubled, put in
/// another's place or read on another line, however it was cut, and whether or not an exchange was open when it came. (What the parts were handed on to
/// is not said here.)
pub fn lines_read_what_came<H>()
    ensures { LinesReadWhatCame H }
{}

/// So it is of a worker that was made of a configuration without streams of bytes, as `Worker::new` makes it, by the whole turns that its code takes, over shared
/// stores: each of them comes to rest.
pub fn workers_read_what_came<H, S: Shared>()
    ensures { WorkersReadWhatCame H S S.performs }
{}

/// Where a number is opened once, as a world with rising numbers opens it, that is all that the events after it spell.
pub fn numbers_read_once<H>()
    ensures { NumbersReadOnce H }
{}

/// Where a reader of either side has no further part, what was handed on is what the joined text spells by the grammar of messages; and of two lines, of
/// whatever workers, whose events spell the same text there with the same end, the same was handed on, and both stop for the same reason.
pub fn cuts_do_not_matter()
    ensures { CutsDoNotMatter }
{}

/// At any moment, also while such a reader has a further part, what was handed on by then is a front of what the joined text so far spells, and, where that
/// has not ended, of what any longer text spells; and of two lines, of whatever workers, whose events spell the same text with the same end, or of which one
/// has come further in it, what was handed on of one is a front of what was handed on of the other.
pub fn fronts_at_any_moment()
    ensures { FrontsAtAnyMoment }
{}

/// The same of the server of an exchange that is open: the reader of its response came from a new one by text that, joined, is exactly what a run of the
/// events spells on the line's server's side, up to the last event while the exchange was not answered. That the run begins where the connection was
/// opened is not said: it may be short, or empty, so that a reader which lost the first bytes, or all, is not excluded.
pub fn servers_read_what_came<H>()
    ensures { ServersReadWhatCame H }
{}

/// Since a turn after which a line had no connection to its server, or one of which nothing had come, that is of the events after this turn alone. The run may be
/// short, or empty, here too.
pub fn servers_read_since<H>()
    ensures { ServersReadSince H }
{}

/// Whatever turns a new worker has had, each of which came to rest, and whatever its world gave: the numbers of its lines rise, so each is the one that is
/// found by its number, and there are 128 at most.
pub fn lines_keep_limits<H>()
    ensures { LinesKeepLimits H }
{}

/// Where its world gave only what it was asked for, in pieces of at most 16,384 bytes, no more than 81,919 bytes are unread of any side of any line behind
/// each turn.
pub fn unread_stays_short<H>()
    ensures { UnreadStaysShort H }
{}

/// So it is of a worker that was made of a configuration without streams of bytes, by the whole turns that its code takes, where its world keeps to what it is asked for, as each
/// world over sockets does: `Worker::turn` says of which event each turn was, and that it was heard so (`heard`).
pub fn workers_leave_little_unread<H, S: Shared>()
    ensures { WorkersLeaveLittleUnread H S S.performs }
{}

/// Two requests that come at once, or cut at any place of the second: their texts, joined, are read of the line, and two workers hand on the same, or a front
/// of it. Of two lines whose bytes come in turns each has its own. A response of which the head was handed on, while its body waits: what is handed on of the
/// same text on another line begins with that head, or is nothing. And what the definitions refuse.
pub fn worked_readings<H, G>()
    ensures { ReadingExamples H G }
{}
