// What holds of the serialised form, each as the contract of a function.
ghost use Rattle.pair_codec.specs.Examples.{PairsExamples};
ghost use Rattle.pair_codec.specs.Laws.{ReadBack, WrittenSo, SizeIsLength};

/// What is written is read back, and nothing else but no bytes is read.
pub fn pairs_are_read_back()
    ensures read_back { ReadBack }
    ensures written_so { WrittenSo }
    ensures size { SizeIsLength }
{}

/// The serialised form, worked on pairs that are written out.
pub fn worked_pairs()
    ensures { PairsExamples }
{}
