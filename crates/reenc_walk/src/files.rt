//! The next files of a walk.
ghost use Rattle.std.specs.Prelude.{◌≡◌, ◌≤◌, ◌<◌, Some, length, slice_get, IfOk, OnOk};
ghost use Rattle.std.specs.Option.{option_map};
ghost use Rattle.inode_tree.specs.Rows.{Entry, entry_of, same_id, zone_id};
ghost use Rattle.reenc_walk.specs.Files.{edek_of};
ghost use Rattle.reenc_walk.specs.Steps.{Goes, IsFound, Packs, added, file_sent, last_after};

use crate::cursor::start_of;
use crate::sent::{Sent, SentList};
use hk_base::{Edek, NoMemory};
use inode_tree::{Kind, Row, Tree};
use name_calls::NPath;
use std::alloc::Global;

/// The next files of a walk, twice, and the path of the last one in the zone, twice.
#[derive(Drop)]
pub struct Files {
    pub sent: SentList,
    pub kept: SentList,
    pub last: NPath,
    pub cursor: NPath,
}

/// Files that were found, and the place of the last one.
#[derive(Drop)]
struct Found {
    sent: Vec<Sent>,
    last: u32,
}

/// Returns the encrypted key of a file.
fn edek_of(row: &Row) -> Option<Edek>
    ensures { result ≡ edek_of row.now.kind }
{
    match &row.kind {
        Kind::Dir { .. } => None,
        Kind::File { edek } => *edek,
    }
}

/// Returns whether the row at a place lies in a zone. Returns `NoMemory` if allocation fails.
fn lies_in(tree: &Tree, at: u32, zone: u64) -> Result<bool, NoMemory>
    requires { at < length tree.now.rows }
    ensures { (e : Entry) → slice_get tree.now.rows at ≡ Some e →
        IfOk result (λ lies. lies ≡ same_id (zone_id tree.now.rows e.path) (Some zone)) }
{
    let path = tree.path_from(at, 0)?;
    match tree.zone_of(&path) {
        Some(dir) => Ok(dir == zone),
        None => Ok(false),
    }
}

/// Returns what is sent of the row at a place, or `None` if it is not a file of the zone.
fn file_at(tree: &Tree, at: u32, zone: u64) -> Result<Option<Sent>, NoMemory>
    requires { at < length tree.now.rows }
    ensures { (e : Entry) → slice_get tree.now.rows at ≡ Some e →
        IfOk result (λ sent. sent ≡ file_sent tree.now.rows zone e) }
{
    let row = tree.row_at_place(at);
    match edek_of(&row) {
        None => Ok(None),
        Some(edek) => {
            let lies = lies_in(tree, at, zone)?;
            if lies {
                Ok(Some(Sent { id: row.id, edek }))
            } else {
                Ok(None)
            }
        }
    }
}

/// Adds the row at a place if it is a file of the zone.
fn add_row(found: &mut Found, tree: &Tree, at: u32, zone: u64) -> Result<(), NoMemory>
    requires { at < length tree.now.rows }
    ensures sent { (e : Entry) → slice_get tree.now.rows at ≡ Some e →
        OnOk result
        (found.new.sent.items ≡ added (file_sent tree.now.rows zone e) found.old.sent.items) }
    ensures last { (e : Entry) → slice_get tree.now.rows at ≡ Some e →
        OnOk result
        (found.new.last ≡ last_after at (file_sent tree.now.rows zone e) found.old.last) }
{
    match file_at(tree, at, zone)? {
        Some(file) => {
            found.sent.push(file)?;
            found.last = at;
            Ok(())
        }
        None => Ok(()),
    }
}

/// Returns the first files of a zone after the cursor, at most `size`. The path is that of the
/// directory of the zone. Returns `NoMemory` if allocation fails.
fn find(
    alloc: Global,
    tree: &Tree,
    zone: u64,
    dir: &NPath,
    cursor: &Option<NPath>,
    size: u16,
) -> Result<Found, NoMemory>
    requires dir { option_map (λ e. e.path) (entry_of tree.now.rows zone) ≡ Some dir.now }
    ensures { IfOk result
        (λ found. IsFound tree.now.rows zone cursor.now size found.sent.items found.last) }
{
    let mut found = Found {
        sent: Vec::new(alloc),
        last: 0,
    };
    let rows = tree.rows();
    let mut at = start_of(tree, dir, cursor)?;
    'walk: while at < rows && found.sent.len() < size as usize && tree.place_is_below(at, dir) {
        add_row(&mut found, tree, at, zone)?;
        at += 1;
    }
    Ok(found)
}

/// Makes a batch of the files that were found, or returns `None` if there are none. The path of the
/// directory has `names` names. Returns `NoMemory` if allocation fails.
fn pack(alloc: Global, tree: &Tree, names: usize, found: Found) -> Result<Option<Files>, NoMemory>
    requires most { length found.sent.items ≤ 1000 }
    requires last { 1 ≤ length found.sent.items → found.last < length tree.now.rows }
    ensures { IfOk result (λ files. Packs tree.now.rows names found.sent.items found.last files) }
{
    let at = found.last;
    match SentList::of(found.sent) {
        None => Ok(None),
        Some(sent) => {
            let kept = sent.copy(alloc)?;
            let last = tree.path_from(at, names)?;
            let cursor = tree.path_from(at, names)?;
            Ok(Some(Files {
                sent,
                kept,
                last,
                cursor,
            }))
        }
    }
}

/// Returns the first files of a zone after the cursor, at most `size`, or `None` if there are none.
/// Returns `NoMemory` if allocation fails.
pub fn next_files(
    alloc: Global,
    tree: &Tree,
    zone: u64,
    cursor: &Option<NPath>,
    size: u16,
) -> Result<Option<Files>, NoMemory>
    requires some { 1 ≤ size }
    requires most { size ≤ 1000 }
    ensures { IfOk result (λ files. Goes tree.now.rows zone cursor.now size files) }
{
    // Each id belongs to one row, and the rows are in path order.
    let _ = tree.rows();
    match tree.row(zone) {
        None => Ok(None),
        Some(_) => {
            let dir = tree.path_of(zone)?;
            let found = find(alloc, tree, zone, &dir, cursor, size)?;
            pack(alloc, tree, dir.len(), found)
        }
    }
}
