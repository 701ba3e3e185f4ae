//! Laws about directories, files and zones that were made, about deleted and renamed paths, about
//! snapshots, about ids, about finished asks, and about re-encryptions. The functions do nothing:
//! their contracts state the laws.
ghost use Rattle.name_core.specs.Laws.{AskIdsRise, BatchesFollow, CancelEnds, CancelIsReported, CompletedIsWalkedThrough, DeletedIsGone, FileIsReported, FinishedForGood, FinishedOnce, IdsRise, IdsStayBelow, KeptUpdatesRetire, ListTellsChildren, MadeIsReported, NamesKeepIds, OthersGoOn, OthersKeepZone, OthersStay, OthersStayByDelete, OthersStayByFile, RenamedHasMoved, RenamedKeepsRows, RenamedKeepsSnapshots, RenamedKeepsZone, RetiredIsIgnored, SettlingKeepsSnapshots, SnapshotIsListed, SnapshotIsReported, SnapshotsStay, SnapshotsTellTheSame, StepsKeepSnapshots, UnsnapIsGone, UpdatedOnce, UpdatesRetire, WalksKeepRows, ZoneIsAsAsked, ZoneIsReported};

/// After a directory was made, `Info` on its path returns the next id, the zone that its parent
/// lies in, and no key, unless it returns `NoMemory`. The answer for each other path stays the
/// same.
pub fn made_directories_are_reported()
    ensures shown { MadeIsReported }
    ensures others { OthersStay }
{}

/// After a finish made a file, `Info` on its path returns the id of its ask, the zone that its
/// parent lies in, and the encrypted key that was given, unless it returns `NoMemory`. The zone is
/// the one under which the file was asked for. The answer for each other path stays the same.
pub fn made_files_are_reported()
    ensures shown { FileIsReported }
    ensures zone { ZoneIsAsAsked }
    ensures others { OthersStayByFile }
{}

/// After a finish made a directory a zone, `Info` on its path returns the id that it had, itself as
/// its zone, and the key that was asked for, unless it returns `NoMemory`.
pub fn made_zones_are_reported()
    ensures { ZoneIsReported }
{}

/// After a path was deleted, `Info` on it and on each path below it returns `NoSuchPath`. The
/// answer for each other path stays the same.
pub fn deleted_paths_are_gone()
    ensures gone { DeletedIsGone }
    ensures others { OthersStayByDelete }
{}

/// After a rename, what was at the old path and below it is at the new path and below it. There is
/// nothing at the old path, and every other path keeps its row. Each id keeps its row, with the key
/// of its zone or its encrypted key. Nothing moves into a zone or out of one. The snapshots, and
/// which directories may have them, stay the same.
pub fn renames_move_together()
    ensures moves { RenamedHasMoved }
    ensures ids { RenamedKeepsRows }
    ensures zones { RenamedKeepsZone }
    ensures others { OthersKeepZone }
    ensures snapshots { RenamedKeepsSnapshots }
{}

/// A list contains a name if and only if the directory has an entry with that name. The same is
/// true in a snapshot.
pub fn lists_tell_what_lies_in_a_directory()
    ensures { ListTellsChildren }
{}

/// What a snapshot has never changes while it exists: no other operation that the table allows
/// changes it, nor what `Info` and `List` in it return. Neither does settling the pending
/// operation, nor any call, ask, finish, walk, delivery or giving up, whatever it answers and
/// whenever its disk fails.
pub fn snapshots_stay()
    ensures operations { SnapshotsStay }
    ensures answers { SnapshotsTellTheSame }
    ensures settling { SettlingKeepsSnapshots }
    ensures steps { StepsKeepSnapshots }
{}

/// After a snapshot was taken, `Info` of an entry of it returns the id, the zone, and the key or
/// encrypted key that `Info` of the entry itself returned, and `List` the same entries, unless they
/// return `NoMemory`.
pub fn taken_snapshots_are_reported()
    ensures info { SnapshotIsReported }
    ensures list { SnapshotIsListed }
{}

/// After a snapshot was removed, `Info` in it returns `NoSuchSnapshot`.
pub fn removed_snapshots_are_gone()
    ensures { UnsnapIsGone }
{}

/// Making a directory and accepting an ask raise the next id. In every namesystem the next id is
/// above all ids in use, and stays so after each call, ask, finish, walk, delivery and giving up,
/// whatever it answers and whenever its disk fails. So no two rows get the same id.
pub fn ids_rise()
    ensures rise { IdsRise }
    ensures rise_by_asks { AskIdsRise }
    ensures below { NamesKeepIds }
    ensures stay { IdsStayBelow }
{}

/// After a finish that answered anything except `NoMemory`, its ask is no longer open. A finish of
/// the same id finds none and changes nothing, both at once and after any calls, asks, finishes,
/// walks, deliveries and givings up.
pub fn asks_are_finished_once()
    ensures at_once { FinishedOnce }
    ensures later { FinishedForGood }
{}

/// After a cancel the zone is no longer being re-encrypted, and `Status` shows that its session was
/// cancelled, unless it returns `NoMemory`. Zones that are re-encrypted under other sessions keep
/// their statuses.
pub fn cancelled_zones_are_reported()
    ensures ends { CancelEnds }
    ensures others { OthersGoOn }
    ensures shown { CancelIsReported }
{}

/// Two walks of a zone in a row return files that follow one another in path order: at most as many
/// as a batch has each, none twice, and none left out in between.
pub fn batches_follow_one_another()
    ensures { BatchesFollow }
{}

/// A walk returns `Completed` only if no file of the zone is left and no batch is outstanding, and
/// the zone is then no longer being re-encrypted. A walk never changes a row or a snapshot.
pub fn completed_zones_are_walked_through()
    ensures complete { CompletedIsWalkedThrough }
    ensures rows { WalksKeepRows }
{}

/// A delivery or a giving up that answers `Applied` retires its batch, as does one whose record could
/// not be written, once the record is kept. If the batch was outstanding once, delivering it again or
/// giving it up answers `Ignored` and changes nothing.
pub fn updates_retire_their_batches()
    ensures retires { UpdatesRetire }
    ensures kept { KeptUpdatesRetire }
    ensures ignored { RetiredIsIgnored }
    ensures once { UpdatedOnce }
{}
