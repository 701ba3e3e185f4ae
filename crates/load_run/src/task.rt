//! What a load does, one task after another.

/// A task of a load: one event, or several, each of which follows the answer to the event before. A zone is
/// given by its number. A file and a snapshot are given by the number of the step that makes them.
#[derive(Clone, Copy)]
pub enum Task {
    /// Creates the key of a zone.
    MakeKey { zone: u32 },
    /// Makes the directory of a zone.
    MakeDirectory { zone: u32 },
    /// Allows snapshots of the directory of a zone.
    Allow { zone: u32 },
    /// Makes the directory of a zone a zone with its key.
    MakeZone { zone: u32 },
    /// Makes a file in a zone.
    MakeFile { zone: u32, file: u32 },
    /// Deletes a file of a zone. There may be none.
    Delete { zone: u32, file: u32 },
    /// Gives the key of a zone its next version.
    Roll { zone: u32 },
    /// Takes a snapshot of a zone.
    Snap { zone: u32, snapshot: u32 },
    /// Asks for `count` encrypted keys under the key of a zone.
    Generate { zone: u32, count: u32 },
    /// Submits the re-encryption of a zone.
    Submit { zone: u32 },
    /// Drives the re-encryption of a zone to its end.
    Drive { zone: u32 },
    /// Asks how far the re-encryption of a zone is.
    Status { zone: u32 },
}
