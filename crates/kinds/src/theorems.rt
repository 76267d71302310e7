ghost use Rattle.kinds.specs.Words.{OneWordEach};

// Each kind has exactly one word.
pub fn every_kind_has_one_word()
    ensures { OneWordEach }
{}
