// What goes down on lines over turns. The functions have nothing to do: their contracts are the laws.
ghost use Rattle.law_down.specs.Ends.{ConnectionsEnd, EndExamples};
ghost use Rattle.law_down.specs.Examples.{OrderExamples, Refuses};
ghost use Rattle.law_down.specs.InOrder.{ConnectionsGoInOrder, ConnectionsOfTheProductGoInOrder, WorkersGoInOrder};
ghost use Rattle.law_down.specs.Laws.{CalloutsGoUpAlone, ResponsesGoDownOneByOne, ResponsesOfTheProductGoDown, WorkersAnswerOneByOne};

use store_model::Shared;

/// Over the turns of a new worker, whatever filters do and whatever servers send: all that goes down on a line is the connections of its clients, one behind
/// the other, and on each of them parts of exchanges, one after the other. A part is interim heads (none to HTTP/1.0), and then nothing, one answer, or one
/// head with items of one body as far as they went, framed as the client awaits it that sent the exchange's request, and written so: never two final heads for
/// one request, and nothing after the end of a response. After a part whose line does not stay, as after one whose last item did not come, comes no further
/// part; and after a close comes nothing of that connection. What came that is no request is answered by one answer of no exchange, at most, and no part
/// follows. Which fields and which bytes filters make is not said, nor that pieces are as many bytes as a head tells, nor that a close is left out only where
/// the client was gone.
pub fn responses_go_down_one_by_one<H>()
    ensures { ResponsesGoDownOneByOne H }
{}

/// So it is of a worker that was made of a configuration without streams of bytes, as `Worker::new` makes it, by the whole turns that its code takes, over shared stores.
pub fn workers_answer_one_by_one<H, S: Shared>()
    ensures { WorkersAnswerOneByOne H S S.performs }
{}

/// And of one with the machines of its VMs, whatever their modules do.
pub fn responses_of_the_product_go_down<S: Shared>()
    ensures { ResponsesOfTheProductGoDown S S.performs }
{}

/// Nothing goes down on the line of a callout over the turns of a new worker, whatever its filters do and whatever comes of it; nor is it ever a line of a client.
/// What goes up on it is not said here.
pub fn callouts_go_up_alone<H>()
    ensures { CalloutsGoUpAlone H }
{}

/// What the definitions refuse: something after a close, a line that stays after a response cut short or after an answer of no exchange, and an interim
/// head for HTTP/1.0.
pub fn what_is_refused()
    ensures { Refuses }
{}

/// Of both sides of a line below 2^31 together (lines from there on are those of callouts): what goes on them in a turn that begins and ends at rest is in order, whatever filters do and whatever servers send. What is sent
/// falls into two parts, one before the turn's event and one after it. In each of them a connection up is opened only where the client is connected and none is
/// open; bytes go up, and it is closed, only while one is open; bytes go down only while the client is connected; and the client's connection is closed only
/// while it is connected and nothing is open up: so after that of its server, and once. No piece is empty. To a client that is gone nothing goes, and all that comes on
/// its line is the close of its connection up. Between the two parts only a client that connects, or is gone, changes what may be sent. With what the line begins and
/// ends is what its rooms say of it: whether its line is there, its client gone, and a reader of a response; and after the turn no client is gone whose connection
/// up is open. Of a turn that was cut off before it came to rest nothing is said, nor of the one after it; nor where the two parts meet, but that there is such a
/// place; nor which bytes go, nor that a close comes at all.
pub fn connections_go_in_order<H>()
    ensures { ConnectionsGoInOrder H }
{}

/// So it is of a worker that was made of a configuration without streams of bytes, as `Worker::new` makes it, by the whole turns that its code takes, over shared
/// stores: each of them begins and ends at rest.
pub fn workers_go_in_order<H, S: Shared>()
    ensures { WorkersGoInOrder H S S.performs }
{}

/// And of one with the machines of its VMs, whatever their modules do.
pub fn connections_of_the_product_go_in_order<S: Shared>()
    ensures { ConnectionsOfTheProductGoInOrder S S.performs }
{}

/// A client's connection, from its begin to its close, by hand; and what is out of order, such as a second close, or a close before that of the server's
/// connection.
pub fn what_is_in_order()
    ensures { OrderExamples }
{}

/// Each connection that is opened is closed, on each line below 2^31, whatever filters do and whatever servers send. Over all whole turns since a worker was made: as many
/// connections to servers were closed on the line as were opened, and one more was opened exactly while the line's exchange reads the response of a server. And a turn
/// after which the worker has a client no more that it had, or that connected, closed its connection, unless the client left. It closes no other, and one that left it
/// has no more.
pub fn connections_end<S: Shared>()
    ensures { ConnectionsEnd S S.performs }
{}

/// A client's connection that ends, by hand, and what the law refuses: a client that is let go without a close, and a close for nobody.
pub fn how_connections_end()
    ensures { EndExamples }
{}
