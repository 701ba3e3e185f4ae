//! Laws over several calls of the namesystem, and over runs of events of both services: what holds
//! of an ask and its finish, whatever calls, asks, finishes, draws and restarts come between them,
//! of a snapshot, and of the zone of a file. Laws of linked worlds: what holds of the keys of zone files, of ready keys and
//! of batches. The functions do nothing: their contracts are the laws.
#![tactic(auto)]

ghost use Rattle.run_laws.specs.Keys.{OpenedKeysDecrypt, OpenedKeysStayOpen, ReadyKeysAreCurrent, ShownKeysAreKept, ZoneFilesDecrypt};
ghost use Rattle.run_laws.specs.Names.{FilesKeepZones, RefusedForItsZone};
ghost use Rattle.run_laws.specs.Runs.{RunsKeepSnapshots, RunsKeepZones, RunsRefuseForTheZone};
ghost use Rattle.run_laws.specs.Walks.{BatchesAreOnce, BatchesShareNoFile, RepeatedIsIgnored};

/// A file whose reply has the key that its ask wanted is refused as `ZoneChanged` only if the zone
/// of its path is not the one at the ask, whatever came between. The same holds for a zone that was
/// asked for, whatever its reply has.
pub fn refused_files_changed_their_zone()
    ensures { RefusedForItsZone }
{}

/// In a run, a finish is refused as `ZoneChanged` only if the zone of its path is not the one at the
/// ask, whatever events came between. A draw keeps the reply to the call that its ask wanted, so a
/// finish gives the key that was wanted.
pub fn runs_refuse_for_the_zone()
    ensures { RunsRefuseForTheZone }
{}

/// In a run, a snapshot stays as it is through all events that do not remove it, restarts of the
/// services included.
pub fn runs_keep_snapshots()
    ensures { RunsKeepSnapshots }
{}

/// The zone of a file never changes while the file exists, though the file may move: neither by one
/// operation that the table allows, nor in a run, restarts of the services included. A file outside
/// all zones stays outside.
pub fn files_keep_their_zones()
    ensures by_operation { FilesKeepZones }
    ensures in_runs { RunsKeepZones }
{}

/// A user who may decrypt opens each zone file, live or in a snapshot: the decryption of its
/// encrypted key answers the data key drawn for it, while the key exists under which that was drawn.
/// It takes no memory and changes nothing. It reads a disk only for an older material, and is refused
/// with `StoreFault` if that fails. The encrypted key that an info shows is that of such a file.
pub fn zone_files_are_decrypted()
    ensures decrypted { ZoneFilesDecrypt }
    ensures shown { ShownKeysAreKept }
{}

/// In a run from a linked world, an encrypted key that opens to its draw's data key stays open, while
/// the key exists under which that was drawn: also after no file has it any more, as one that was
/// copied and whose source was re-encrypted or deleted. Its decryption then answers the data key.
pub fn opened_keys_stay_open()
    ensures open { OpenedKeysStayOpen }
    ensures decrypted { OpenedKeysDecrypt }
{}

/// In a linked world each ready key is of the current version of the key with its queue's birth, and
/// opens to the data key of its draw.
pub fn ready_keys_are_current()
    ensures { ReadyKeysAreCurrent }
{}

/// In a linked world two outstanding batches of a zone share no file, so none is outstanding twice.
/// A delivery or a giving up that comes again after it was applied is ignored.
pub fn batches_share_no_file()
    ensures apart { BatchesShareNoFile }
    ensures once { BatchesAreOnce }
    ensures ignored { RepeatedIsIgnored }
{}
