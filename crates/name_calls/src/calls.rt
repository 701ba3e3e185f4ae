//! The calls of the namesystem and its replies.
ghost use Rattle.std.specs.Prelude.{◌≡◌};
ghost use Rattle.name_calls.specs.Answers.{answer_of};

use crate::listing::ChildList;
use crate::paths::NPath;
use crate::read_paths::ReadPath;
use crate::status::ZoneStatus;
use crate::zone_list::ZoneList;
use hk_base::{Edek, KeyName, Text};
use kms_calls::{KmsRefusal, KmsReply};

/// A call of the namesystem. Its paths are absolute.
#[derive(Drop)]
pub enum NameCall {
    /// Makes a directory, whose parent must exist (`mkdir` of the HDFS shell, without `-p`).
    Mkdir { path: NPath },
    /// Deletes the entry at a path. A directory that is not empty is deleted only if `recursive` is
    /// set (`rm` and `rm -r` of the HDFS shell, without the trash).
    Delete { path: NPath, recursive: bool },
    /// Moves the entry at a path, with all below it, to another path (`mv` of the HDFS shell, where
    /// the other path is not that of a directory). Ids, zones and encrypted keys move with it.
    Rename { path: NPath, to: NPath },
    /// Asks for the entry at a path, or at a path in a snapshot.
    Info { path: ReadPath },
    /// Asks for the entries of a directory, or of a directory in a snapshot.
    List { path: ReadPath },
    /// Allows snapshots of a directory (`hdfs dfsadmin -allowSnapshot`). Only the superuser `hdfs`
    /// may.
    Allow { path: NPath },
    /// Disallows snapshots of a directory that has none (`hdfs dfsadmin -disallowSnapshot`). Only
    /// the superuser `hdfs` may.
    Disallow { path: NPath },
    /// Takes a snapshot of a directory under a name (`hdfs dfs -createSnapshot`).
    Snap { path: NPath, name: Text },
    /// Removes the snapshot of a directory with a name (`hdfs dfs -deleteSnapshot`).
    Unsnap { path: NPath, name: Text },
    /// Cancels the re-encryption of a zone (`hdfs crypto -reencryptZone -cancel`). Its path must be
    /// that of the directory of the zone. Only the superuser `hdfs` may.
    Cancel { path: NPath },
    /// Asks how far the re-encryption of a zone is (`hdfs crypto -listReencryptionStatus`). The path
    /// must be that of the directory of the zone. Only the superuser `hdfs` may.
    Status { path: NPath },
    /// Asks for the encryption zones (`hdfs crypto -listZones`). Only the superuser `hdfs` may.
    Zones,
}

/// Why a call is refused.
#[derive(Clone, Copy, Debug, PartialEq, Eq)]
pub enum NameRefusal {
    /// The bytes given as a path break the rule of paths, or a name of a snapshot can't be a name.
    /// A call on a path that was read is refused like this only if the first name of the path is
    /// `.reserved`, or if a path at or below one that moves would become longer than the rule allows.
    BadPath,
    /// There is no entry at the path, or no parent directory of the new path.
    NoSuchPath,
    /// There already is an entry at the new path.
    Exists,
    /// A file is found in place of a directory.
    NotADirectory,
    /// A directory that is to become a zone, or is to be deleted alone, is not empty.
    NotEmpty,
    /// Only the user `hdfs` makes zones and asks for them, has them re-encrypted, and allows and
    /// disallows snapshots.
    NotSuperuser,
    /// A directory that is to become a zone is one already.
    AlreadyInZone,
    /// The directory is not an encryption zone: it is not marked with a key.
    NotAZoneRoot,
    /// A rename would take the entry into or out of an encryption zone.
    CrossZone,
    /// A rename would move an entry whose parent lies in a zone that is being re-encrypted.
    UnderReencryption,
    /// There is a snapshot of the directory, or of one below it. It is neither deleted nor renamed,
    /// nor are snapshots of it disallowed.
    HasSnapshots,
    /// Snapshots of the directory are not allowed.
    NotSnapshottable,
    /// The directory has a snapshot of that name.
    SnapshotExists,
    /// The directory has no snapshot of that name.
    NoSuchSnapshot,
    /// The directory has 65,536 snapshots.
    TooManySnapshots,
    /// No ask with the id is open: it was finished, or a restart dropped it. `opening` and `next`
    /// are the number of the opening and the counter of its next id.
    AskGone { opening: u32, next: u64 },
    /// The zone of the path is not the one under which the ask was made, or the given encrypted key
    /// is not one of the key of the zone.
    ZoneChanged,
    /// The zone is being re-encrypted.
    AlreadySubmitted,
    /// The zone is not being re-encrypted.
    NotSubmitted,
    /// There are 1,000,000 directories and files, or the ids of this start are used up.
    TooManyInodes,
    /// The key management service refused the call that the ask wanted.
    KeyRefused(KmsRefusal),
    /// Allocation failed.
    NoMemory,
    /// The disk failed. If it failed while the record of the change was written, the change is
    /// pending: the disk may or may not hold the record, and the next call that changes something
    /// settles it first.
    StoreFault,
    /// Snapshots are allowed of a directory above or below, or a rename would bring such directories
    /// there. They don't lie in one another.
    NestedSnapshottable,
    /// The root is neither deleted nor renamed, and nothing is renamed to its own path or below it.
    RootOrInside,
}

/// A change of the namesystem that needs a call of the key management service in between
/// (docs/glossary.md). Its paths are absolute.
#[derive(Drop)]
pub enum Ask {
    /// Makes a file, whose parent must exist. In a zone the file gets an encrypted data encryption
    /// key of its own.
    Create { path: NPath },
    /// Makes an empty directory a zone with this key (`hdfs crypto -createZone`). Only the
    /// superuser `hdfs` may.
    Zone { path: NPath, key: KeyName },
    /// Has a zone re-encrypted: each of its files shall get an encrypted key of the present version of
    /// the zone's key, or of a later one (`hdfs crypto -reencryptZone -start`). The path must be that
    /// of the directory of the zone. Only the superuser `hdfs` may.
    Submit { path: NPath },
}

/// The call of the key management service that an ask wants made, as the user `hdfs`, before it is
/// finished.
#[derive(Clone, Copy)]
pub enum Want {
    /// No call: a file outside all zones has no key.
    Nothing,
    /// One new data encryption key under the key of the zone. For a re-encryption it shows which
    /// version is the present one.
    Generate(KeyName),
    /// The metadata of the key of a new zone, so that the key is known to exist.
    Metadata(KeyName),
}

/// The answer to an accepted ask: the id by which it is finished, and the call that it wants. It is
/// called a note (docs/glossary.md).
#[derive(Clone, Copy)]
pub struct AskNote {
    pub id: u64,
    pub want: Want,
}

/// The reply to the call that an ask wanted, or `None` if it wanted none.
#[derive(Drop)]
pub struct Answered {
    pub id: u64,
    pub reply: Option<KmsReply>,
}

/// The reply to a call: Refused if the call is refused, else Dir or File to Info, List, Status and
/// Zones to calls of those names, and Done to the others. `zone` is the path of the encryption zone that the
/// path lies in, or `None`; in a snapshot it is the zone that the path lay in.
#[derive(Drop)]
pub enum NameReply {
    Done,
    /// A directory, and its key if it is itself a zone.
    Dir {
        id: u64,
        zone: Option<NPath>,
        key: Option<KeyName>,
    },
    /// A file, and its encrypted data encryption key if it has one.
    File {
        id: u64,
        zone: Option<NPath>,
        edek: Option<Edek>,
    },
    /// The entries of a directory, ordered by the bytes of their names.
    List(ChildList),
    /// How far the last re-encryption of a zone is, or `None` if there was none.
    Status(Option<ZoneStatus>),
    /// The encryption zones, in path order.
    Zones(ZoneList),
    Refused(NameRefusal),
}

/// What a reply of the key management service means for the ask that wanted the call.
#[derive(Clone, Copy)]
pub enum KeyAnswer {
    /// The call was refused.
    Refused(KmsRefusal),
    /// The call was answered, with this encrypted data encryption key if one was wanted.
    Given(Option<Edek>),
}

impl Answered {
    /// Returns what the reply means for the ask.
    pub fn answer(&self) -> KeyAnswer
        ensures { result ≡ answer_of self.now.reply }
    {
        match &self.reply {
            Some(KmsReply::Refused(why)) => KeyAnswer::Refused(*why),
            Some(KmsReply::Ready(edeks)) => KeyAnswer::Given(edeks.as_slice().first().copied()),
            _ => KeyAnswer::Given(None),
        }
    }
}
