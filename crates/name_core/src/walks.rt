//! The walks through the zones that are re-encrypted.
ghost use Rattle.std.specs.Prelude.{◌≡◌, ◌≤◌, IfOk, None, Some, is_some, position, true};
ghost use Rattle.zone_table.specs.declared.statuses.StatusRow.{StatusRow};
ghost use Rattle.zone_table.specs.Statuses.{status_of};
ghost use Rattle.name_core.specs.Steps.{BeginsWalk, TakesBatch, TakesNext, outstanding_under};
ghost use Rattle.name_core.specs.Walks.{going_on, is_walk_of, walk_of};

use hk_base::NoMemory;
use inode_tree::Tree;
use name_calls::NPath;
use reenc_walk::{BatchNote, Walk, Walker};
use std::alloc::Global;
use zone_table::{StatusRow, Statuses};

/// What a walk of a zone gives.
#[derive(Drop)]
pub enum Walked {
    /// The next files of the zone, in a batch that is outstanding from now on.
    Batch(BatchNote),
    /// No file is left. This many batches are outstanding, at least one.
    NoneLeft { outstanding: u32 },
    /// No file is left and no batch is outstanding: the re-encryption has completed.
    Completed,
}

fn is_walk_of(walker: &Walker, session: u64) -> bool
    ensures { result ≡ is_walk_of session walker.now }
{
    walker.session() == session
}

/// Returns the index of the walk of a session, or `None` if it has taken no batch.
pub fn find(walks: &Vec<Walker>, session: u64) -> Option<usize>
    ensures { result ≡ position (is_walk_of session) walks.now.items }
{
    walks.iter().position(|walker| is_walk_of(walker, session))
}

/// Returns the number of outstanding batches of a session.
pub fn outstanding(walks: &Vec<Walker>, session: u64) -> u32
    ensures { result ≡ outstanding_under walks.now.items session }
{
    match find(walks, session) {
        Some(at) => walks[at].outstanding(),
        None => 0,
    }
}

/// Returns whether the walk of the session of a status is past its first file, in this start or an
/// earlier one.
pub fn has_begun(walks: &Vec<Walker>, status: &StatusRow) -> bool
    ensures { result ≡ is_some (walk_of walks.now.items status.now).cursor }
{
    match find(walks, status.session) {
        Some(at) => walks[at].has_begun(),
        None => status.mark.is_some(),
    }
}

/// Returns a copy of a path, if there is one.
pub fn copy_of_mark(alloc: Global, mark: &Option<NPath>) -> Result<Option<NPath>, NoMemory>
    ensures { IfOk result (λ copy. copy ≡ mark.now) }
{
    match mark {
        None => Ok(None),
        Some(path) => Ok(Some(path.copy(alloc)?)),
    }
}

/// Takes the first batch of the walk of a session.
fn begin(
    alloc: Global,
    walks: &mut Vec<Walker>,
    tree: &Tree,
    status: &StatusRow,
    zone: u64,
    size: u16,
) -> Walk
    requires some { 1 ≤ size }
    requires most { size ≤ 1000 }
    ensures { BeginsWalk tree.now.rows zone size status.now walks.old.items result walks.new.items }
{
    let Ok(mark) = copy_of_mark(alloc, &status.mark) else {
        return Walk::NoMemory;
    };
    let mut walker = Walker::new(alloc, status.session, mark);
    match walker.next_batch(tree, zone, size) {
        Walk::NoMemory => Walk::NoMemory,
        Walk::NoneLeft => Walk::NoneLeft,
        Walk::Batch(note) => match walks.push(walker) {
            Ok(()) => Walk::Batch(note),
            Err(_) => Walk::NoMemory,
        },
    }
}

/// Takes the next batch of the walk of the session of a status.
fn next(
    alloc: Global,
    walks: &mut Vec<Walker>,
    tree: &Tree,
    status: &StatusRow,
    zone: u64,
    size: u16,
) -> Walk
    requires some { 1 ≤ size }
    requires most { size ≤ 1000 }
    ensures { TakesNext tree.now.rows zone size status.now walks.old.items result walks.new.items }
{
    match find(walks, status.session) {
        Some(at) => walks[at].next_batch(tree, zone, size),
        None => begin(alloc, walks, tree, status, zone, size),
    }
}

/// Forgets the walks of sessions that have ended.
fn forget_ended(walks: &mut Vec<Walker>, statuses: &Statuses)
    ensures { walks.new.items ≡ going_on statuses.now.rows walks.old.items }
{
    walks.retain(|walker| statuses.session_goes_on(walker.session()));
}

/// Takes the next batch of a zone that was submitted, and forgets the walks of sessions that have
/// ended. If there is no batch, the walks are unchanged.
pub fn take(
    alloc: Global,
    walks: &mut Vec<Walker>,
    tree: &Tree,
    statuses: &Statuses,
    zone: u64,
    size: u16,
) -> Walk
    requires submitted { is_some (status_of statuses.now.rows zone) ≡ true }
    requires some { 1 ≤ size }
    requires most { size ≤ 1000 }
    ensures { (st : StatusRow) → status_of statuses.now.rows zone ≡ Some st →
        TakesBatch tree.now.rows statuses.now.rows zone size st walks.old.items result
        walks.new.items }
{
    match statuses.get(zone) {
        None => unreachable!(),
        Some(status) => match next(alloc, walks, tree, status, zone, size) {
            Walk::NoMemory => Walk::NoMemory,
            Walk::NoneLeft => Walk::NoneLeft,
            Walk::Batch(note) => {
                forget_ended(walks, statuses);
                Walk::Batch(note)
            }
        },
    }
}
