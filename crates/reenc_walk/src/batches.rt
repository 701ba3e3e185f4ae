//! The batches of a walk.
ghost use Rattle.std.specs.Prelude.{◌≡◌, ◌+◌, drop, IfOk, IsTrue};
ghost use Rattle.reenc_walk.specs.Retiring.{batch_at, run_length};
ghost use Rattle.reenc_walk.specs.Walks.{StartsOutstanding, from_outstanding, has_batch, is_of, mark_after, outstanding, retired};

use crate::sent::SentList;
use hk_base::NoMemory;
use name_calls::NPath;
use std::alloc::Global;
use std::collections::VecDeque;

/// A batch that was walked.
#[derive(Drop)]
pub struct WalkedBatch {
    pub sent: SentList,
    /// The path of its last file in the zone.
    pub last: NPath,
    /// Whether it has been neither delivered nor given up.
    pub outstanding: bool,
}

fn is_of(batch: &WalkedBatch, sent: &SentList) -> bool
    ensures { result ≡ is_of sent.now batch.now }
{
    let same = batch.sent.is_same(sent);
    batch.outstanding && same
}

/// Returns the index of the earliest outstanding batch that has sent these files, or the number of
/// batches if there is none.
fn find(batches: &VecDeque<WalkedBatch>, sent: &SentList) -> usize
    ensures { result ≡ batch_at sent.now batches.now.items }
{
    let mut k = 0;
    while k < batches.len() {
        if is_of(&batches[k], sent) {
            return k;
        }
        k += 1;
    }
    k
}

/// Returns whether an outstanding batch has sent these files.
pub fn has(batches: &VecDeque<WalkedBatch>, sent: &SentList) -> bool
    ensures { result ≡ has_batch batches.now.items sent.now }
{
    find(batches, sent) < batches.len()
}

/// Returns the number of outstanding batches.
pub fn count(batches: &VecDeque<WalkedBatch>) -> usize
    ensures { result ≡ outstanding batches.now.items }
{
    batches.iter().filter(|batch| batch.outstanding).count()
}

/// Returns the index of the first outstanding batch after the one with index 0, or the number of
/// batches if there is none.
fn second(batches: &VecDeque<WalkedBatch>) -> usize
    ensures { result ≡ 1 + run_length (drop 1 batches.now.items) }
{
    let mut k = 1;
    while k < batches.len() && !batches[k].outstanding {
        k += 1;
    }
    k
}

/// Returns the mark after the earliest outstanding batch of these files is retired, or `None` if that
/// does not move it. Returns `NoMemory` if allocation fails.
pub fn mark_after(
    alloc: Global,
    batches: &VecDeque<WalkedBatch>,
    sent: &SentList,
) -> Result<Option<NPath>, NoMemory>
    requires starts { StartsOutstanding batches.now.items }
    requires has { IsTrue (has_batch batches.now.items sent.now) }
    ensures { IfOk result (λ mark. mark ≡ mark_after batches.now.items sent.now) }
{
    if find(batches, sent) > 0 {
        return Ok(None);
    }
    let at = second(batches) - 1;
    Ok(Some(batches[at].last.copy(alloc)?))
}

/// Removes the batches before the earliest outstanding one.
fn drop_front(batches: &mut VecDeque<WalkedBatch>)
    ensures { batches.new.items ≡ from_outstanding batches.old.items }
{
    while batches.len() > 0 && !batches[0].outstanding {
        let _ = batches.pop_front();
    }
}

/// Retires the earliest outstanding batch of these files. It does not allocate.
pub fn retire(batches: &mut VecDeque<WalkedBatch>, sent: &SentList)
    ensures { batches.new.items ≡ from_outstanding (retired sent.now batches.old.items) }
{
    set_retired(batches, sent);
    drop_front(batches);
}

fn set_retired(batches: &mut VecDeque<WalkedBatch>, sent: &SentList)
    ensures { batches.new.items ≡ retired sent.now batches.old.items }
{
    let at = find(batches, sent);
    if at < batches.len() {
        batches[at].outstanding = false;
    }
}
