//! Answers about entries, as they are and as they were in a snapshot.
ghost use Rattle.std.specs.Prelude.{◌≡◌, IfOk, IsTrue, MatchResult, None, is_some, true};
ghost use Rattle.inode_tree.specs.Listing.{children};
ghost use Rattle.inode_tree.specs.Rows.{is_dir_at, row_at};
ghost use Rattle.snap_store.specs.Snapshots.{zone_depth};
ghost use Rattle.name_store.specs.Causes.{first_cause, zone_root_causes};
ghost use Rattle.name_core.specs.Reads.{info_causes, info_reply, list_causes, list_reply, path_of_zone, path_read, rows_read, info_of, snapshot_causes, snapshot_rows, zone_in_snapshot, zone_over, zone_read};
ghost use Rattle.name_core.specs.Steps.{Answers};
ghost use Rattle.name_core.specs.Walks.{state_shown, status_shown, status_shown_at, walk_of};

use crate::copies::joined;
use crate::rules::id_at;
use crate::walks::{copy_of_mark, has_begun};
use hk_base::NoMemory;
use inode_tree::{Kind, Row, Tree};
use name_calls::{ChildList, NPath, NameRefusal, NameReply, ReadPath, SnapPart, State, ZoneStatus};
use name_store::{NameStore, unsnap_refusal, zone_root_refusal};
use reenc_walk::Walker;
use std::alloc::Global;
use zone_table::StatusRow;

/// Returns the reply that describes an entry. It allocates only if the entry lies in a zone.
pub fn info(alloc: Global, store: &NameStore, path: &ReadPath) -> NameReply
    ensures { Answers (is_some (zone_read store.now.table path.now))
        (info_causes store.now.table path.now) (info_reply store.now.table path.now) result }
{
    if let Some(why) = snapshot_refusal(store, path) {
        return NameReply::Refused(why);
    }
    let Some(row) = row_read(store, path) else {
        return NameReply::Refused(NameRefusal::NoSuchPath);
    };
    match zone_read(alloc, store, path) {
        Err(NoMemory) => NameReply::Refused(NameRefusal::NoMemory),
        Ok(zone) => shown(row, zone),
    }
}

/// Returns the reply that lists a directory.
pub fn list(store: &NameStore, path: &ReadPath) -> NameReply
    ensures { Answers true (list_causes store.now.table path.now)
        (list_reply store.now.table path.now) result }
{
    if let Some(why) = list_refusal(store, path) {
        return NameReply::Refused(why);
    }
    match children_read(store, path) {
        Err(NoMemory) => NameReply::Refused(NameRefusal::NoMemory),
        Ok(children) => NameReply::List(children),
    }
}

/// Returns why a path can not be listed: it must be an existing directory.
fn list_refusal(store: &NameStore, path: &ReadPath) -> Option<NameRefusal>
    ensures { result ≡ first_cause (list_causes store.now.table path.now) }
{
    if let Some(why) = snapshot_refusal(store, path) {
        return Some(why);
    }
    let Some(row) = row_read(store, path) else {
        return Some(NameRefusal::NoSuchPath);
    };
    if !row.kind.is_dir() {
        return Some(NameRefusal::NotADirectory);
    }
    None
}

/// Returns why there is no snapshot to read in: the directory must be one that may have snapshots,
/// and have one of that name.
fn snapshot_refusal(store: &NameStore, path: &ReadPath) -> Option<NameRefusal>
    ensures { result ≡ first_cause (snapshot_causes store.now.table path.now) }
{
    match &path.snapshot {
        None => None,
        Some(part) => unsnap_refusal(store.tree(), store.snaps(), &path.path, &part.name),
    }
}

/// Returns the row that is read, or `None` if there is none.
fn row_read(store: &NameStore, path: &ReadPath) -> Option<Row>
    ensures { result ≡ row_at (rows_read store.now.table path.now) (path_read path.now) }
{
    match &path.snapshot {
        None => store.tree().find(&path.path),
        Some(part) => {
            let dir = id_at(store.tree(), &path.path);
            store.snaps().look(dir, &part.name, &part.below)
        }
    }
}

/// Returns the entries of the directory that is read, which must exist.
fn children_read(store: &NameStore, path: &ReadPath) -> Result<ChildList, NoMemory>
    requires { first_cause (list_causes store.now.table path.now) ≡ None }
    ensures { IfOk result
        (λ list. list ≡ children (rows_read store.now.table path.now) (path_read path.now)) }
{
    match &path.snapshot {
        None => store.tree().list(&path.path),
        Some(part) => children_in_snapshot(store, &path.path, part),
    }
}

fn children_in_snapshot(
    store: &NameStore,
    path: &NPath,
    part: &SnapPart,
) -> Result<ChildList, NoMemory>
    requires { is_dir_at
        (row_at (snapshot_rows store.now.table path.now part.now.name) part.now.below) ≡ true }
    ensures { IfOk result
        (λ list. list ≡
        children (snapshot_rows store.now.table path.now part.now.name) part.now.below) }
{
    let dir = id_at(store.tree(), path);
    match store.snaps().list(dir, &part.name, &part.below)? {
        None => unreachable!(),
        Some(children) => Ok(children),
    }
}

/// Returns the path of the zone that the entry lies in, or lay in.
fn zone_read(alloc: Global, store: &NameStore, path: &ReadPath) -> Result<Option<NPath>, NoMemory>
    requires { first_cause (snapshot_causes store.now.table path.now) ≡ None }
    ensures { MatchResult result (λ zone. zone ≡ zone_read store.now.table path.now)
        (λ why. IsTrue (is_some (zone_read store.now.table path.now))) }
{
    match &path.snapshot {
        None => zone_path(store.tree(), &path.path),
        Some(part) => zone_in_snapshot(alloc, store, &path.path, part),
    }
}

/// Returns the path of the zone that a path lies in.
fn zone_path(tree: &Tree, path: &NPath) -> Result<Option<NPath>, NoMemory>
    ensures { MatchResult result (λ zone. zone ≡ path_of_zone tree.now.rows path.now)
        (λ why. IsTrue (is_some (path_of_zone tree.now.rows path.now))) }
{
    // No two rows have the same id.
    let _ = tree.rows();
    match tree.zone_of(path) {
        None => Ok(None),
        Some(id) => Ok(Some(tree.path_of(id)?)),
    }
}

/// Returns the path of the zone that an entry of a snapshot lay in.
fn zone_in_snapshot(
    alloc: Global,
    store: &NameStore,
    path: &NPath,
    part: &SnapPart,
) -> Result<Option<NPath>, NoMemory>
    requires { is_some (row_at store.now.table.rows path.now) ≡ true }
    ensures { MatchResult result (λ zone. zone ≡ zone_in_snapshot store.now.table path.now part.now)
        (λ why. IsTrue (is_some (zone_in_snapshot store.now.table path.now part.now))) }
{
    let tree = store.tree();
    match zone_depth(store, path, part) {
        None => zone_over(tree, path),
        Some(count) => {
            let zone = joined(alloc, path.copy(alloc)?, &part.below, count as usize)?;
            Ok(Some(zone))
        }
    }
}

/// Returns how many names lead from the directory of a snapshot to the zone of an entry, or `None`
/// if no directory of the snapshot is its zone.
fn zone_depth(store: &NameStore, path: &NPath, part: &SnapPart) -> Option<u8>
    ensures { result ≡
        zone_depth (snapshot_rows store.now.table path.now part.now.name) part.now.below }
{
    let dir = id_at(store.tree(), path);
    store.snaps().zone_in(dir, &part.name, &part.below)
}

/// Returns the path of the zone over a directory: the zone that its parent lies in. There is none
/// over the root.
fn zone_over(tree: &Tree, path: &NPath) -> Result<Option<NPath>, NoMemory>
    ensures { MatchResult result (λ zone. zone ≡ zone_over tree.now.rows path.now)
        (λ why. IsTrue (is_some (zone_over tree.now.rows path.now))) }
{
    if path.is_root() {
        return Ok(None);
    }
    // No two rows have the same id.
    let _ = tree.rows();
    match tree.zone_of_parent(path) {
        None => Ok(None),
        Some(id) => Ok(Some(tree.path_of(id)?)),
    }
}

/// Returns the reply that describes a row, with the path of its zone.
fn shown(row: Row, zone: Option<NPath>) -> NameReply
    ensures { result ≡ info_of row.id zone row.kind }
{
    let id = row.id;
    match row.kind {
        Kind::Dir { key } => NameReply::Dir { id, zone, key },
        Kind::File { edek } => NameReply::File { id, zone, edek },
    }
}

/// Returns the reply that tells how far the re-encryption of a zone is.
pub fn status(alloc: Global, store: &NameStore, walks: &Vec<Walker>, path: &NPath) -> NameReply
    ensures { Answers true (zone_root_causes store.now.table.rows path.now)
        (NameReply.Status (status_shown_at store.now.table walks.now.items path.now)) result }
{
    if let Some(why) = zone_root_refusal(store.tree(), path) {
        return NameReply::Refused(why);
    }
    match status_at(alloc, store, walks, path) {
        Err(NoMemory) => NameReply::Refused(NameRefusal::NoMemory),
        Ok(status) => NameReply::Status(status),
    }
}

/// Returns what the status of a zone shows, or `None` if the zone was never submitted.
fn status_at(
    alloc: Global,
    store: &NameStore,
    walks: &Vec<Walker>,
    path: &NPath,
) -> Result<Option<ZoneStatus>, NoMemory>
    ensures { IfOk result
        (λ status. status ≡ status_shown_at store.now.table walks.now.items path.now) }
{
    match store.statuses().get(id_at(store.tree(), path)) {
        None => Ok(None),
        Some(status) => Ok(Some(status_shown(alloc, walks, status)?)),
    }
}

fn status_shown(
    alloc: Global,
    walks: &Vec<Walker>,
    status: &StatusRow,
) -> Result<ZoneStatus, NoMemory>
    ensures { IfOk result (λ shown. shown ≡ status_shown walks.now.items status.now) }
{
    let mark = copy_of_mark(alloc, &status.mark)?;
    Ok(ZoneStatus {
        session: status.session,
        noted: status.noted,
        state: state_shown(walks, status),
        cancelled: status.cancelled,
        reencrypted: status.reencrypted,
        failed: status.failed,
        mark,
    })
}

fn state_shown(walks: &Vec<Walker>, status: &StatusRow) -> State
    ensures { result ≡ state_shown (walk_of walks.now.items status.now) status.now }
{
    if status.completed {
        return State::Completed;
    }
    let begun = has_begun(walks, status);
    if !begun && status.reencrypted == 0 && status.failed == 0 {
        return State::Submitted;
    }
    State::Processing
}
