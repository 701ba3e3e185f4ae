//! Laws about bodies. The functions do nothing: their contracts state the laws.
ghost use Rattle.body_stream.specs.Laws.{BodiesAreReadBack, StoredFormKeepsLength, StoredFormKeepsPrefixes, StoredFormUndoesItself};

/// A range read from a body that was put is that range of the bytes that were put, if the key is the
/// same and the body has not changed. A range of a body is decrypted without the bytes before it.
pub fn bodies_are_read_back()
    ensures range { BodiesAreReadBack }
    ensures undone { StoredFormUndoesItself }
{}

/// A body is as long as its file, and a prefix of a body is the body of a prefix of the file.
pub fn prefixes_are_stored_as_prefixes()
    ensures length { StoredFormKeepsLength }
    ensures prefix { StoredFormKeepsPrefixes }
{}
