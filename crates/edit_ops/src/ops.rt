//! Operations that change the namesystem.
ghost use Rattle.std.specs.Prelude.{◌≡◌, ◌&&◌, not, length};
ghost use Rattle.std.specs.Str.{bytes_eq};
ghost use Rattle.name_calls.specs.Paths.{is_component, is_relative, starts_reserved};
ghost use Rattle.edit_ops.specs.Records.{fits};

use crate::files::FileKeys;
use hk_base::{Edek, KeyName, Text, VersionName};
use name_calls::{NPath, is_component};

/// An operation that changes the namesystem. An id is a number that no other operation uses.
#[derive(Drop)]
pub enum EditOp {
    /// The namesystem was started; `opening` counts its starts from 1.
    Opened {
        opening: u32,
    },
    /// A directory was made.
    Mkdir {
        id: u64,
        path: NPath,
    },
    /// A file was made. It has an encrypted data encryption key if it lies in a zone.
    File {
        id: u64,
        path: NPath,
        edek: Option<Edek>,
    },
    /// The entry at the path was removed, with everything below it.
    Remove {
        path: NPath,
    },
    /// The entry at the path, with everything below it, moved to another path.
    Rename {
        path: NPath,
        to: NPath,
    },
    /// A directory was made an encryption zone of a key.
    Zone {
        path: NPath,
        key: KeyName,
    },
    /// Snapshots of a directory were allowed.
    Allow {
        path: NPath,
    },
    /// Snapshots of a directory were disallowed.
    Disallow {
        path: NPath,
    },
    /// A snapshot of a directory was taken under a name.
    Snap {
        path: NPath,
        name: Text,
    },
    /// A snapshot of a directory was removed.
    Unsnap {
        path: NPath,
        name: Text,
    },
    /// The zone at the path was submitted for re-encryption, under the id `session`. Its files are
    /// to get keys of the noted version, or of a later one.
    Submit {
        session: u64,
        path: NPath,
        noted: VersionName,
    },
    /// A batch of a re-encryption came back or was given up. These files got these encrypted keys, and
    /// `failed` files got none. `mark` is the path in the zone up to which all files are done, if that
    /// has moved.
    Update {
        session: u64,
        failed: u32,
        mark: Option<NPath>,
        files: FileKeys,
    },
    /// A re-encryption was cancelled.
    Cancel {
        session: u64,
    },
    /// A re-encryption was completed: each file of the zone was handed out, and each batch came back.
    Complete {
        session: u64,
    },
}

/// Returns whether the first name of a path is `.reserved`.
fn is_reserved(path: &NPath) -> bool
    ensures { result ≡ starts_reserved path.now }
{
    if path.is_root() {
        return false;
    }
    path.name(0).as_str().as_bytes() == b".reserved".as_slice()
}

/// Returns whether a move from one path to another can be written.
fn can_be_a_move(path: &NPath, to: &NPath) -> bool
    ensures { result ≡ (not (starts_reserved path.now) && not (starts_reserved to.now)) }
{
    let from_reserved = is_reserved(path);
    let to_reserved = is_reserved(to);
    !from_reserved && !to_reserved
}

/// Returns whether a snapshot with this directory and name can be written.
fn can_be_a_snapshot(path: &NPath, name: &Text) -> bool
    ensures { result ≡ (not (starts_reserved path.now) && is_component name.now) }
{
    let reserved = is_reserved(path);
    let component = is_component(name.as_str().as_bytes());
    !reserved && component
}

impl EditOp {
    /// Returns whether the operation can be written as a record of the edit log: none of its paths
    /// begins with the name `.reserved`, and the name of a snapshot can be a name of a path. This
    /// holds for each operation that was read.
    pub fn has_spelling(&self) -> bool
        ensures { result ≡ fits self.now }
    {
        match self {
            EditOp::Opened { .. } => true,
            EditOp::Mkdir { path, .. } => !is_reserved(path),
            EditOp::File { path, .. } => !is_reserved(path),
            EditOp::Remove { path } => !is_reserved(path),
            EditOp::Rename { path, to } => can_be_a_move(path, to),
            EditOp::Zone { path, .. } => !is_reserved(path),
            EditOp::Allow { path } => !is_reserved(path),
            EditOp::Disallow { path } => !is_reserved(path),
            EditOp::Snap { path, name } => can_be_a_snapshot(path, name),
            EditOp::Unsnap { path, name } => can_be_a_snapshot(path, name),
            EditOp::Submit { path, .. } => !is_reserved(path),
            EditOp::Update { .. } => true,
            EditOp::Cancel { .. } => true,
            EditOp::Complete { .. } => true,
        }
    }
}
