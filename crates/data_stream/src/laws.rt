//! What was put is read back. The function does nothing: its contract is the law.
ghost use Rattle.data_stream.specs.Laws.{PutFilesAreReadBack};

/// A range that is read of a file is that range of the bytes that were put, whatever happened in between:
/// the file may have another path and another encrypted key, as after a re-encryption. What was known of
/// the draws must still be known, as after any runs that keep the promise; the key under which the data
/// encryption key was drawn must exist, and the body must be the same.
pub fn bodies_are_read_back()
    ensures { PutFilesAreReadBack }
{}
