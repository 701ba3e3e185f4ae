//! Files as a batch sends them.
ghost use Rattle.std.specs.Prelude.{◌≡◌, ◌≤◌, length, IfOk, SomeIff};
ghost use Rattle.reenc_walk.specs.Files.{same_edek, same_file, same_sent};

use hk_base::{Edek, NoMemory};
use std::alloc::Global;
use std::marker::Model;

/// The maximum number of files of a batch.
pub const MOST_SENT: usize = 1000;

/// A file, and the encrypted data encryption key that it had when it was sent.
#[derive(Clone, Copy, PartialEq, Eq)]
pub struct Sent {
    pub id: u64,
    pub edek: Edek,
}

/// The files of a batch: 1 to 1,000. Contracts see the list.
#[derive(Drop)]
pub struct SentList {
    files: Vec<Sent>,
}

impl Model for SentList {
    ghost use Rattle.std.specs.Prelude.{◌≤◌, List, length};
    ghost use Rattle.reenc_walk.specs.declared.sent.Sent.{Sent};

    ghost Value = { List Sent };

    ghost view = { λ list. list.files.items };

    ghost invariant = { λ list. (1 ≤ length list.files.items) × (length list.files.items ≤ 1000) };
}

/// A batch of files of a zone that are to be re-encrypted in a session.
#[derive(Drop)]
pub struct BatchNote {
    /// The id of the directory of the zone.
    pub zone: u64,
    pub session: u64,
    pub sent: SentList,
}

/// Returns whether two encrypted keys are the same: of the same version, with the same initialization
/// vector and the same sealed bytes.
pub fn is_same_edek(edek: &Edek, other: &Edek) -> bool
    ensures { result ≡ same_edek edek.now other.now }
{
    let key = edek.version.key.as_bytes() == other.version.key.as_bytes();
    let number = edek.version.number == other.version.number;
    let iv = edek.iv.as_bytes() == other.iv.as_bytes();
    let sealed = edek.sealed.as_bytes() == other.sealed.as_bytes();
    key && number && iv && sealed
}

fn is_same_file(file: &Sent, other: &Sent) -> bool
    ensures { result ≡ same_file file.now other.now }
{
    let id = file.id == other.id;
    let edek = is_same_edek(&file.edek, &other.edek);
    id && edek
}

fn are_same(files: &[Sent], others: &[Sent]) -> bool
    ensures { result ≡ same_sent files.now others.now }
{
    if files.len() != others.len() {
        return false;
    }
    for k in 0..files.len() {
        if !is_same_file(&files[k], &others[k]) {
            return false;
        }
    }
    true
}

impl SentList {
    /// Makes a list of 1 to 1,000 files. Returns `None` for any other number of files. It does not
    /// allocate.
    pub fn of(files: Vec<Sent>) -> Option<SentList>
        ensures { SomeIff result ((1 ≤ length files.items) × (length files.items ≤ 1000))
            files.items }
    {
        let len = files.len();
        if len == 0 || len > MOST_SENT {
            return None;
        }
        Some(SentList { files })
    }

    /// Returns the files in order.
    pub fn as_slice(&self) -> &[Sent]
        ensures files { result.now ≡ self.now }
        ensures some { 1 ≤ length self.now }
        ensures most { length self.now ≤ 1000 }
    {
        self.files.as_slice()
    }

    /// Returns whether the other list has the same files with the same encrypted keys, in the same
    /// order.
    pub fn is_same(&self, other: &SentList) -> bool
        ensures { result ≡ same_sent self.now other.now }
    {
        are_same(self.as_slice(), other.as_slice())
    }

    /// Returns a copy of the list.
    pub fn copy(&self, alloc: Global) -> Result<SentList, NoMemory>
        ensures { IfOk result (λ copy. copy ≡ self.now) }
    {
        let files = Vec::from_slice(alloc, self.as_slice())?;
        Ok(SentList { files })
    }
}
