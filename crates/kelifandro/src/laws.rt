//! What follows of a history. The function does nothing; its contract is the law, which a caller then knows.
ghost use Rattle.kelifandro.specs.ReadBack.{WrittenIsReadBack};

/// What was written and is read back, with nothing but openings and closings between, is what was written.
pub fn what_was_written_is_read_back()
    ensures { WrittenIsReadBack }
{}
