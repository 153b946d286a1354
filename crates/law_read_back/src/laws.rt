// How what goes up is read. The functions have nothing to do: their contracts are the laws.
ghost use Rattle.law_read_back.specs.Examples.{FilterExample, RefusedReadings};
ghost use Rattle.law_read_back.specs.Laws.{RequestsAreReadAsOne, RequestsOfTheProductAreReadAsOne, RequestsOfWorkersAreReadAsOne};
ghost use Rattle.law_read_back.specs.Lists.{FiltersKeepLists, HeadsHaveLists, ListExample};
ghost use Rattle.law_read_back.specs.Maps.{HeadsEndWhereWritten, HeadsHaveFieldLists, MachinesKeepLists, MapExamples, MapsOfTheProductStayLists, MapsOfWorkersStayLists, MapsStayLists};
ghost use Rattle.law_read_back.specs.OneRequest.{NeverTwo, ReadAsOne};
ghost use Rattle.law_read_back.specs.Runs.{FilterRun};

use store_model::Shared;

/// A front of the bytes of a request that a reader takes in is read as a front of that request's items, whether more may come or none does; and all of them as
/// exactly those items, which use up all of them. At most one request begins in what is read, and the bytes of its body are those of its pieces, joined. And
/// whatever path a head of a list has and however long it is, a front of the bytes is read as such a front or as nothing. So it is of every request, of any
/// fields, pieces and ending.
pub fn fronts_are_read_as_one()
    ensures readable { ReadAsOne }
    ensures written { NeverTwo }
{}

/// Over the turns of a new worker, whatever filters do: what each exchange sends up on its connection is a front of the bytes of one request, which the gateway
/// frames: there are fields and a body that spell what went. Where these are a list of a request, and the body, as far as it went, is such as the framing
/// carries, a reader like the gateway's own makes of those bytes a front of the items of that one request or nothing, whatever its path is and however long its
/// head, and whether the connection is closed there or not. Where the path is a target and a reader has room for the head, and all of it went, the reader takes
/// exactly that request and has nothing left. The same is said of every request that one names (`IsReadAsAny`), so framed, whose fields are a list and whose
/// body is carried, and of whose bytes what went is a front: at most one request begins in what such a reader makes of it. That the fields are those of the
/// exchange's map, and that the body is as long as its head tells, is not said: of a gateway that wrote what no such request spells, this would say nothing.
pub fn requests_are_read_as_one<H>()
    ensures { RequestsAreReadAsOne H }
{}

/// So it is of a worker that was made of a configuration without streams of bytes, as `Worker::new` makes it, by the whole turns that its code takes, over shared stores.
pub fn requests_of_workers_are_read_as_one<H, S: Shared>()
    ensures { RequestsOfWorkersAreReadAsOne H S S.performs }
{}

/// And of one with the machines of its VMs, whatever their modules do.
pub fn requests_of_the_product_are_read_as_one<S: Shared>()
    ensures { RequestsOfTheProductAreReadAsOne S S.performs }
{}

/// A filter that changes the path, the fields and the body of a POST makes a request that a reader takes as one, and so it is with its body cut in two; and what
/// the definitions refuse: two requests, whether they are to be read as one or never as two, a value with an end of line in it, and a body of more bytes than are
/// told, or of fewer where its last item went. One of more bytes, were it sent, would be read as two requests; a path that is no target is not.
pub fn worked_readings()
    ensures filter { FilterExample }
    ensures refused { RefusedReadings }
{}

/// There are turns of a worker in which a filter sets another path and other fields, and writes three bytes in place of the two of a body; and what goes up
/// in them is one connection and the bytes of one request in chunks, that of `worked_readings`: these turns meet all that is asked, and the bytes that went up in
/// them are read as that one request.
pub fn worked_turns()
    ensures { FilterRun }
{}

/// The list of a request stays one whatever filters call on it, by any calls that put a field behind, replace one, remove those of a name or set all: so no
/// call brings in a name or a value with an end of line. The fields of a head that was judged, of a target in another than the absolute form, are one. And a
/// list with another path and one field more, made so.
pub fn filters_keep_lists()
    ensures kept { FiltersKeepLists }
    ensures first { HeadsHaveLists }
    ensures worked { ListExample }
{}

/// What a filter makes of the map of a request is a list of fields still, whatever its module calls: the four pseudo-headers, each once, in order and with a right
/// value, and after them at most 100 fields with valid names and values, none of which holds an end of line. And the fields of each head that was judged are
/// such a list, in whatever form its target was received.
pub fn machines_keep_lists()
    ensures callbacks { MachinesKeepLists }
    ensures first { HeadsHaveFieldLists }
{}

/// Over the turns of a new worker whose machines write logs and keep such lists: each map of a request among its contexts is one, and each connection that went up
/// on a line of a client begins with the whole head of a request, of the fields of one, framed and with the tail of a request whose head was judged; or of no
/// fields at all, which is what would be written of an exchange that the contexts have no more.
pub fn maps_stay_lists<H>()
    ensures { MapsStayLists H }
{}

/// So it is of a worker that was made of a configuration without streams of bytes, as `Worker::new` makes it, by the whole turns that its code takes, over shared stores.
pub fn maps_of_workers_stay_lists<H, S: Shared>()
    ensures { MapsOfWorkersStayLists H S S.performs }
{}

/// And of one with the machines of its VMs, whatever their modules do.
pub fn maps_of_the_product_stay_lists<S: Shared>()
    ensures { MapsOfTheProductStayLists S S.performs }
{}

/// The filter of `worked_turns` keeps lists, so what went up in them begins with a head of one; a connection with nothing after it, or its close, has none, and
/// fields with an end of line in a value are no such list.
pub fn worked_maps()
    ensures { MapExamples }
{}

/// A head of such fields with which a connection begins ends where it was written: whatever follows, where a reader of requests finds a head there, that has as many
/// bytes as the one that was written. (What follows it is not said.)
pub fn heads_end_where_written()
    ensures { HeadsEndWhereWritten }
{}
