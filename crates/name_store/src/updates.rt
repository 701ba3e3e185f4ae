//! Which files may get other encrypted keys in an update.
ghost use Rattle.std.specs.Prelude.{◌≡◌, ◌&&◌, ◌==◌, ℕ, Some, IfOk, IsSome, false};
ghost use Rattle.std.specs.List.{list_all, list_any};
ghost use Rattle.std.specs.Option.{option_map_or};
ghost use Rattle.std.specs.Str.{bytes_eq};
ghost use Rattle.inode_tree.specs.Rows.{Entry, entry_of, zone_id};
ghost use Rattle.inode_tree.specs.ZoneFiles.{edek_of};
ghost use Rattle.snap_store.specs.Snapshots.{SnapTable};
ghost use Rattle.zone_table.specs.Statuses.{goes_on_under, status_of};
ghost use Rattle.name_store.specs.Table.{ids_once, may_update};

use edit_ops::FileKey;
use hk_base::NoMemory;
use inode_tree::{Kind, Row, Tree};
use name_calls::NPath;
use zone_table::Statuses;

fn has_id(files: &[FileKey], id: u64) -> bool
    ensures { result ≡ list_any (λ g. g.id == id) files.now }
{
    files.iter().any(|file| file.id == id)
}

/// Returns whether no id comes twice. Each id is compared with each later one.
fn ids_once(files: &[FileKey]) -> bool
    ensures { result ≡ ids_once files.now }
{
    for at in 0..files.len() {
        if has_id(&files[at + 1..], files[at].id) {
            return false;
        }
    }
    true
}

/// Returns whether a row has an encrypted key of the same key as the file's new one.
fn is_of_key(file: &FileKey, row: &Row) -> bool
    ensures { result ≡
        option_map_or (λ edek. bytes_eq file.now.edek.version.key edek.version.key)
        (edek_of row.now.kind) false }
{
    match &row.kind {
        Kind::Dir { .. } => false,
        Kind::File { edek: None } => false,
        Kind::File { edek: Some(edek) } => file.edek.version.key == edek.version.key,
    }
}

/// Returns whether a path lies in a zone that is being re-encrypted under a session.
fn lies_under(tree: &Tree, statuses: &Statuses, session: u64, path: &NPath) -> bool
    ensures { result ≡
        option_map_or
        (λ zone. option_map_or (goes_on_under session) (status_of statuses.now.rows zone) false)
        (zone_id tree.now.rows path.now) false }
{
    match tree.zone_of(path) {
        None => false,
        Some(zone) => statuses.zone_goes_on_under(zone, session),
    }
}

/// Returns whether a row lies in a zone that is being re-encrypted under a session. Returns `NoMemory`
/// if allocation fails.
fn row_lies_under(tree: &Tree, statuses: &Statuses, session: u64, id: u64) -> Result<bool, NoMemory>
    requires { IsSome (entry_of tree.now.rows id) }
    ensures { (e : Entry) → entry_of tree.now.rows id ≡ Some e →
        IfOk result
        (λ lies. lies ≡
        option_map_or
        (λ zone. option_map_or (goes_on_under session) (status_of statuses.now.rows zone) false)
        (zone_id tree.now.rows e.path) false) }
{
    let path = tree.path_of(id)?;
    Ok(lies_under(tree, statuses, session, &path))
}

/// Returns whether a file may get its new encrypted key under a session. Returns `NoMemory` if
/// allocation fails.
fn may_update(
    tree: &Tree,
    statuses: &Statuses,
    session: u64,
    file: &FileKey,
) -> Result<bool, NoMemory>
    ensures { (opening : ℕ) (snaps : SnapTable) →
        IfOk result
        (λ may. may ≡
        may_update
        (record {
          opening = opening;
          rows = tree.now.rows;
          snaps = snaps;
          statuses = statuses.now.rows;
        }) session file.now) }
{
    match tree.row(file.id) {
        None => Ok(false),
        Some(row) => {
            if !is_of_key(file, &row) {
                return Ok(false);
            }
            row_lies_under(tree, statuses, session, file.id)
        }
    }
}

/// Returns whether each file may get its new encrypted key under a session. Returns `NoMemory` if
/// allocation fails.
fn may_update_each(
    tree: &Tree,
    statuses: &Statuses,
    session: u64,
    files: &[FileKey],
) -> Result<bool, NoMemory>
    ensures { (opening : ℕ) (snaps : SnapTable) →
        IfOk result
        (λ may. may ≡
        list_all
        (may_update
        (record {
          opening = opening;
          rows = tree.now.rows;
          snaps = snaps;
          statuses = statuses.now.rows;
        }) session) files.now) }
{
    for file in files {
        let may = may_update(tree, statuses, session, file)?;
        if !may {
            return Ok(false);
        }
    }
    Ok(true)
}

/// Returns whether no file comes twice, and each may get its new encrypted key under a session. Returns
/// `NoMemory` if allocation fails.
pub(crate) fn may_update_all(
    tree: &Tree,
    statuses: &Statuses,
    session: u64,
    files: &[FileKey],
) -> Result<bool, NoMemory>
    ensures { (opening : ℕ) (snaps : SnapTable) →
        IfOk result
        (λ may. may ≡
        (ids_once files.now &&
        list_all
        (may_update
        (record {
          opening = opening;
          rows = tree.now.rows;
          snaps = snaps;
          statuses = statuses.now.rows;
        }) session) files.now)) }
{
    if !ids_once(files) {
        return Ok(false);
    }
    may_update_each(tree, statuses, session, files)
}
