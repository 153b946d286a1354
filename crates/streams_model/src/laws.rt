// What holds of every plan. The function has nothing to do: its contract is the law.
ghost use Rattle.streams_model.specs.Laws.{IsHttpWithoutStreams};

/// Where a plan has no streams, a worker's turn is that of HTTP, and so are what is next in it and what is wanted.
pub fn is_http_without_streams<H>()
    ensures { IsHttpWithoutStreams H }
{}
