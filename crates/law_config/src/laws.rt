// The functions have nothing to do: their contracts are the laws.
ghost use Rattle.law_config.specs.Examples.{BoundsExamples, OrderExamples, TextExample};
ghost use Rattle.law_config.specs.Laws.{DocumentsSayOneConfiguration, FirstRefusals, TextsSayTheirConfiguration};

/// A text that gives a configuration is a document in TOML of at most 1 MiB that says this configuration: it has no other keys than those that are
/// listed, each value is that of its key or its default, a plug-in's VM is that of the name, and each filter of a route is the plug-in of the name
/// in its place, and so is each plug-in of streams. Names differ, workers, fuel, pages and the numbers of entries are in their bounds, and no route
/// stands beside plug-ins of streams.
pub fn texts_say_their_configuration()
    ensures { TextsSayTheirConfiguration }
{}

/// A document says one configuration at most in which names differ, so that what is said of a text's configuration leaves nothing of it open.
pub fn documents_say_one_configuration()
    ensures { DocumentsSayOneConfiguration }
{}

/// What is refused before a table is looked at: a text that is too long, and else one that is no UTF-8 or no TOML.
pub fn first_refusals()
    ensures { FirstRefusals }
{}

/// One whole text with its configuration, worked out by hand.
pub fn worked_text()
    ensures { TextExample }
{}

/// Texts with several faults, and which of them is told, worked out by hand.
pub fn worked_order()
    ensures { OrderExamples }
{}

/// Values at their bounds and past them, worked out by hand.
pub fn worked_bounds()
    ensures { BoundsExamples }
{}
