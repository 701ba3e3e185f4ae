//! The places that the paths of the service name.

/// What a path of the service names. A place may have several operations, with different methods.
#[derive(Clone, Copy, Debug, PartialEq, Eq)]
pub enum Place {
    Keys,
    Key,
    KeyInvalidate,
    KeyMetadata,
    KeyCurrent,
    KeyVersions,
    KeyEek,
    KeyBatch,
    Version,
    VersionEek,
    Names,
    Metadatas,
}

/// The method of a request, as far as the service has operations with it.
#[derive(Clone, Copy, Debug, PartialEq, Eq)]
pub enum Verb {
    Get,
    Post,
    Delete,
    Other,
}
