//! How far the re-encryption of a zone is.
use crate::paths::NPath;
use hk_base::VersionName;

/// The state of a re-encryption.
#[derive(Clone, Copy, Debug, PartialEq, Eq)]
pub enum State {
    /// It was submitted, and no batch of files was taken from the zone since.
    Submitted,
    /// A batch of files was taken.
    Processing,
    /// No file is left, or it was cancelled.
    Completed,
}

/// The status of the last re-encryption of a zone.
#[derive(Drop)]
pub struct ZoneStatus {
    /// The id of the re-encryption: that of the ask by which it was submitted.
    pub session: u64,
    /// The version of the encrypted key that was drawn for the submission: the current version of the zone's key at
    /// that draw. The key may have a later one when the submission is finished.
    pub noted: VersionName,
    pub state: State,
    /// Whether it was cancelled.
    pub cancelled: bool,
    /// The number of files that got another encrypted key. It stays at 2^64 - 1.
    pub reencrypted: u64,
    /// The number of files that failed. It stays at 2^64 - 1.
    pub failed: u64,
    /// The path in the zone of the last file up to which all are done, or `None` before the first.
    pub mark: Option<NPath>,
}

/// What became of the reply to the call for a batch, or of a batch that was given up.
#[derive(Clone, Copy, Debug, PartialEq, Eq)]
pub enum Delivered {
    /// The batch was outstanding, and is not any longer. `changed` files got another encrypted key,
    /// `skipped` files are gone, have another key than the one that was sent, or got the same key
    /// back, and `failed` files got none.
    Applied {
        changed: u32,
        skipped: u32,
        failed: u32,
    },
    /// The batch is not outstanding, and nothing changed. `session` is the id of the last
    /// re-encryption of the zone, or 0 if there was none.
    Ignored {
        session: u64,
    },
}
