//! What the operations of the log do to a tree, the table of its zones, its snapshots and the statuses
//! of its zones.
ghost use Rattle.std.specs.Prelude.{◌≡◌, ◌≤◌, ◌++◌, List, length, None, IsOk, OnOk, OnErr};
ghost use Rattle.inode_tree.specs.Moves.{renamed};
ghost use Rattle.inode_tree.specs.Rows.{entry_of, need, put, removed};
ghost use Rattle.zone_table.specs.declared.statuses.StatusRow.{StatusRow};
ghost use Rattle.zone_table.specs.Statuses.{counted, without_below};
ghost use Rattle.zone_table.specs.Zones.{need_add, zones_of};
ghost use Rattle.snap_store.specs.Snapshots.{IsSnapshotReady, SnapTable, table_after_disallow, table_after_disallow_below, table_after_take};
ghost use Rattle.name_store.specs.Causes.{disallow_causes, first_cause, id_at, kept_causes, make_causes, removal_causes, rename_causes, row_causes, snap_causes, zone_causes};
ghost use Rattle.name_store.specs.Table.{marked, new_directory, new_file, with_edeks};
ghost use Rattle.name_store.specs.Updates.{AreFiles};

use crate::rules::id_at;
use edit_ops::{FileKey, FileKeys};
use hk_base::{Edek, KeyName, NoMemory, Text};
use inode_tree::Tree;
use name_calls::NPath;
use snap_store::Snaps;
use zone_table::{Statuses, Zones, zones_are_the_marks};

/// Makes a directory.
pub(crate) fn make(tree: &mut Tree, path: &NPath, id: u64) -> Result<(), NoMemory>
    requires allowed { first_cause (make_causes tree.old.rows path.now ++ row_causes tree.old.rows) ≡
        None }
    requires fresh { entry_of tree.old.rows id ≡ None }
    ensures ok { OnOk result (tree.new.rows ≡ put (new_directory id path.now) tree.old.rows) }
    ensures err { OnErr result (tree.new.rows ≡ tree.old.rows) }
    ensures zones { zones_of tree.new.rows ≡ zones_of tree.old.rows }
    ensures room { need path.now ≤ tree.old.spare → IsOk result }
{
    // A row without a mark changes no zones.
    zones_are_the_marks();
    tree.mkdir(path, id)
}

/// Makes a file.
pub(crate) fn make_file(
    tree: &mut Tree,
    path: &NPath,
    id: u64,
    edek: Option<Edek>,
) -> Result<(), NoMemory>
    requires allowed { first_cause (make_causes tree.old.rows path.now ++ row_causes tree.old.rows) ≡
        None }
    requires fresh { entry_of tree.old.rows id ≡ None }
    ensures ok { OnOk result (tree.new.rows ≡ put (new_file id path.now edek) tree.old.rows) }
    ensures err { OnErr result (tree.new.rows ≡ tree.old.rows) }
    ensures zones { zones_of tree.new.rows ≡ zones_of tree.old.rows }
    ensures room { need path.now ≤ tree.old.spare → IsOk result }
{
    // A row without a mark changes no zones.
    zones_are_the_marks();
    tree.add_file(path, id, edek)
}

/// Removes the row at the path and all rows below it, with their zones and the statuses of these.
/// Directories among them may no longer have snapshots.
pub(crate) fn remove(
    tree: &mut Tree,
    zones: &mut Zones,
    snaps: &mut Snaps,
    statuses: &mut Statuses,
    path: &NPath,
)
    requires allowed { first_cause
        (removal_causes tree.old.rows path.now ++
        kept_causes tree.old.rows snaps.old.table path.now) ≡ None }
    requires zones { zones.old.rows ≡ zones_of tree.old.rows }
    ensures rows { tree.new.rows ≡ removed path.now tree.old.rows }
    ensures zones { zones.new.rows ≡ zones_of tree.new.rows }
    ensures snaps { snaps.new.table ≡
        table_after_disallow_below tree.old.rows path.now snaps.old.table }
    ensures statuses { statuses.new.rows ≡ without_below tree.old.rows path.now statuses.old.rows }
{
    zones.remove_below(tree, path);
    snaps.disallow_below(tree, path);
    statuses.remove_below(tree, path);
    tree.remove(path);
}

/// Moves what is at a path and below it to another path. Its zones and snapshots stay those of their
/// directories.
pub(crate) fn rename(tree: &mut Tree, path: &NPath, to: &NPath) -> Result<(), NoMemory>
    requires allowed { (snaps : SnapTable) × (statuses : List StatusRow) ×
        (first_cause (rename_causes tree.old.rows snaps statuses path.now to.now) ≡ None) }
    ensures ok { OnOk result (tree.new.rows ≡ renamed path.now to.now tree.old.rows) }
    ensures err { OnErr result (tree.new.rows ≡ tree.old.rows) }
    ensures zones { zones_of tree.new.rows ≡ zones_of tree.old.rows }
    ensures room { need to.now ≤ tree.old.spare → IsOk result }
{
    // The marks move with their rows.
    let _ = tree.rows();
    zones_are_the_marks();
    tree.rename(path, to)
}

/// Marks a directory as a zone.
pub(crate) fn mark(
    tree: &mut Tree,
    zones: &mut Zones,
    path: &NPath,
    key: KeyName,
) -> Result<(), NoMemory>
    requires allowed { first_cause (zone_causes tree.old.rows path.now) ≡ None }
    requires zones { zones.old.rows ≡ zones_of tree.old.rows }
    ensures ok { OnOk result (tree.new.rows ≡ marked tree.old.rows path.now key) }
    ensures err { OnErr result (tree.new.rows ≡ tree.old.rows) }
    ensures zones { zones.new.rows ≡ zones_of tree.new.rows }
    ensures room { need_add (id_at tree.old.rows path.now) key ≤ zones.old.spare → IsOk result }
{
    // Each id is that of one row, and a directory that is marked becomes a zone.
    let _ = tree.rows();
    zones_are_the_marks();
    match tree.find(path) {
        None => unreachable!(),
        Some(row) => {
            zones.add(row.id, key)?;
            tree.set_key(row.id, key);
            Ok(())
        }
    }
}

/// Disallows snapshots of a directory.
pub(crate) fn disallow(tree: &Tree, snaps: &mut Snaps, path: &NPath)
    requires { first_cause (disallow_causes tree.now.rows snaps.old.table path.now) ≡ None }
    ensures { snaps.new.table ≡
        table_after_disallow (id_at tree.now.rows path.now) snaps.old.table }
{
    // Each id is that of one row.
    let _ = tree.rows();
    snaps.disallow(id_at(tree, path));
}

/// Takes a snapshot of a directory. Does not allocate if the memory for it was reserved.
pub(crate) fn snap(
    tree: &Tree,
    snaps: &mut Snaps,
    path: &NPath,
    name: &Text,
) -> Result<(), NoMemory>
    requires { first_cause (snap_causes tree.now.rows snaps.old.table path.now name.now) ≡ None }
    ensures ok { OnOk result
        (snaps.new.table ≡
        table_after_take tree.now.rows (id_at tree.now.rows path.now) name.now
        snaps.old.table) }
    ensures err { OnErr result (snaps.new.table ≡ snaps.old.table) }
    ensures room { IsSnapshotReady snaps.old.room tree.now.rows (id_at tree.now.rows path.now) name.now →
        IsOk result }
{
    // Each id is that of one row.
    let _ = tree.rows();
    snaps.take(tree, id_at(tree, path), name)
}

/// Gives files their new encrypted keys.
pub(crate) fn update(tree: &mut Tree, files: &[FileKey])
    requires files { AreFiles tree.old.rows files.now }
    ensures rows { tree.new.rows ≡ with_edeks files.now tree.old.rows }
    ensures zones { zones_of tree.new.rows ≡ zones_of tree.old.rows }
{
    // Each id is that of one row.
    let _ = tree.rows();
    for file in files {
        tree.set_edek(file.id, file.edek);
    }
}

/// Counts the files of an update in the status of its session.
pub(crate) fn count(
    statuses: &mut Statuses,
    session: u64,
    failed: u32,
    mark: Option<NPath>,
    files: &FileKeys,
)
    ensures { statuses.new.rows ≡ counted session (length files.now) failed mark statuses.old.rows }
{
    let files = files.as_slice();
    statuses.count(session, files.len() as u32, failed, mark);
}
