//! What a reply to the call for a batch changes.
ghost use Rattle.std.specs.Prelude.{◌≡◌, ◌≤◌, ◌++◌, ◌∷◌, [], Some, length, false, IfOk, IsSome, OnOk};
ghost use Rattle.std.specs.Option.{option_map_or};
ghost use Rattle.inode_tree.specs.Rows.{Entry, entry_of, same_id, zone_id};
ghost use Rattle.inode_tree.specs.ZoneFiles.{edek_of};
ghost use Rattle.reenc_walk.specs.Files.{same_edek};
ghost use Rattle.reenc_update.specs.Changes.{all_failed, changed, changes_of, has_edek, is_changed};
ghost use Rattle.reenc_update.specs.declared.reply.BatchResult.TheVariants as batch;

use crate::reply::{BatchReply, BatchResult};
use edit_ops::{FileKey, FileKeys};
use hk_base::{Edek, NoMemory};
use inode_tree::{Kind, Row, Tree};
use reenc_walk::{BatchNote, Sent, is_same_edek};
use std::alloc::Global;

/// The files that get another encrypted key, and how many files of the batch are skipped or failed.
#[derive(Drop)]
pub struct Changes {
    pub files: FileKeys,
    pub skipped: u32,
    pub failed: u32,
}

/// Returns whether a row is a file with an encrypted key.
fn has_key(row: &Row, edek: &Edek) -> bool
    ensures { result ≡ option_map_or (same_edek edek.now) (edek_of row.now.kind) false }
{
    match &row.kind {
        Kind::Dir { .. } => false,
        Kind::File { edek: None } => false,
        Kind::File { edek: Some(found) } => is_same_edek(edek, found),
    }
}

/// Returns whether a row lies in a zone. Returns `NoMemory` if allocation fails.
fn lies_in(tree: &Tree, id: u64, zone: u64) -> Result<bool, NoMemory>
    requires { IsSome (entry_of tree.now.rows id) }
    ensures { (e : Entry) → entry_of tree.now.rows id ≡ Some e →
        IfOk result (λ lies. lies ≡ same_id (zone_id tree.now.rows e.path) (Some zone)) }
{
    let path = tree.path_of(id)?;
    match tree.zone_of(&path) {
        Some(dir) => Ok(dir == zone),
        None => Ok(false),
    }
}

/// Returns whether a file is still in the zone with the encrypted key that was sent. Returns
/// `NoMemory` if allocation fails.
fn is_as_sent(tree: &Tree, zone: u64, sent: &Sent) -> Result<bool, NoMemory>
    ensures { IfOk result
        (λ same. same ≡
        option_map_or (has_edek tree.now.rows zone sent.now.edek)
        (entry_of tree.now.rows sent.now.id) false) }
{
    match tree.row(sent.id) {
        None => Ok(false),
        Some(row) => {
            if !has_key(&row, &sent.edek) {
                return Ok(false);
            }
            lies_in(tree, sent.id, zone)
        }
    }
}

/// Returns whether a file gets the encrypted key that came back for it. Returns `NoMemory` if
/// allocation fails.
fn is_changed(tree: &Tree, zone: u64, sent: &Sent, edek: &Edek) -> Result<bool, NoMemory>
    ensures { IfOk result (λ changed. changed ≡ is_changed tree.now.rows zone sent.now edek.now) }
{
    if is_same_edek(&sent.edek, edek) {
        return Ok(false);
    }
    is_as_sent(tree, zone, sent)
}

/// Adds a file if it gets the encrypted key that came back for it. Returns `NoMemory` if allocation
/// fails.
fn add_changed(
    files: &mut Vec<FileKey>,
    tree: &Tree,
    zone: u64,
    sent: &Sent,
    edek: &Edek,
) -> Result<(), NoMemory>
    ensures { OnOk result
        (files.new.items ≡
        files.old.items ++ changed tree.now.rows zone (sent.now ∷ []) (edek.now ∷ [])) }
{
    if is_changed(tree, zone, sent, edek)? {
        files.push(FileKey {
            id: sent.id,
            edek: *edek,
        })?;
    }
    Ok(())
}

/// Returns the files of a batch that get what came back for them. Returns `NoMemory` if allocation
/// fails.
fn changed(
    alloc: Global,
    tree: &Tree,
    zone: u64,
    sent: &[Sent],
    edeks: &[Edek],
) -> Result<Vec<FileKey>, NoMemory>
    requires { length sent.now ≡ length edeks.now }
    ensures { IfOk result (λ files. files.items ≡ changed tree.now.rows zone sent.now edeks.now) }
{
    let mut files = Vec::new(alloc);
    for k in 0..sent.len() {
        add_changed(&mut files, tree, zone, &sent[k], &edeks[k])?;
    }
    Ok(files)
}

/// Makes a list of at most 1,000 files. It does not allocate.
fn few(files: Vec<FileKey>) -> FileKeys
    requires { length files.items ≤ 1000 }
    ensures { result ≡ files.items }
{
    match FileKeys::of(files) {
        Some(files) => files,
        None => unreachable!(),
    }
}

/// Returns what changes if these encrypted keys came back for a batch. Returns `NoMemory` if
/// allocation fails.
fn changes_by(
    alloc: Global,
    tree: &Tree,
    note: &BatchNote,
    edeks: &[Edek],
) -> Result<Changes, NoMemory>
    requires { length note.now.sent ≡ length edeks.now }
    ensures { IfOk result
        (λ changes. changes ≡
        changes_of tree.now.rows note.now.zone note.now.sent (batch.Ready edeks.now)) }
{
    let sent = note.sent.as_slice();
    let files = changed(alloc, tree, note.zone, sent, edeks)?;
    let skipped = (sent.len() - files.len()) as u32;
    Ok(Changes {
        files: few(files),
        skipped,
        failed: 0,
    })
}

/// Returns what changes if each file of a batch failed. It does not allocate.
pub fn all_failed(alloc: Global, note: &BatchNote) -> Changes
    ensures { result ≡ all_failed note.now.sent }
{
    Changes {
        files: few(Vec::new(alloc)),
        skipped: 0,
        failed: note.sent.as_slice().len() as u32,
    }
}

/// Returns what the reply to the call for a batch changes. A file gets the encrypted key that came
/// back for it if it is still in the zone with the key that was sent, and if the two keys differ;
/// the others are skipped. If the call was refused, each file failed. Returns `NoMemory` if allocation
/// fails.
///
/// The time is that of a look-up for each file of the batch.
pub fn changes_of(alloc: Global, tree: &Tree, reply: &BatchReply) -> Result<Changes, NoMemory>
    ensures { IfOk result
        (λ changes. changes ≡
        changes_of tree.now.rows reply.now.note.zone reply.now.note.sent reply.now.result) }
{
    match reply.result() {
        BatchResult::Refused => Ok(all_failed(alloc, reply.note())),
        BatchResult::Ready(edeks) => changes_by(alloc, tree, reply.note(), edeks.as_slice()),
    }
}
