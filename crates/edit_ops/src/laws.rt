//! Laws about the records of the edit log. The function does nothing: its contract states the laws.
ghost use Rattle.edit_ops.specs.Laws.{OneSpelling, RecordsAreShort, SpelledFits};

/// Two operations with the same record are the same operation, so reading a written record gives
/// the operation that was written. Each operation that has a record can be written, and its record
/// has 1 to `longest_record` bytes.
pub fn operations_have_one_spelling()
    ensures one { OneSpelling }
    ensures fits { SpelledFits }
    ensures short { RecordsAreShort }
{}
