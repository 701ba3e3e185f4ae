//! The fronts of the batches that walks gave.
ghost use Rattle.std.specs.Prelude.{◌≡◌, ◌≤◌, ◌<◌, [], IfOk, length, vec_capacity, vec_len};
ghost use Rattle.name_core.specs.State.{names_of};
ghost use Rattle.name_history.specs.Fronts.{has_front, is_front, outstanding_fronts, with_front};

use hk_base::NoMemory;
use name_calls::NameRefusal;
use name_core::{Name, Walked};
use name_history::Front;
use reenc_walk::{BatchNote, MOST_SENT, Sent, SentList};
use std::alloc::Global;

/// Takes memory for one more front, and returns an empty vector with memory for the files of its batch.
/// The fronts are unchanged.
pub fn reserve_front(alloc: Global, fronts: &mut Vec<Front>) -> Result<Vec<Sent>, NoMemory>
    ensures fronts { fronts.new.items ≡ fronts.old.items }
    ensures front { IfOk result (λ _. vec_len fronts.new < vec_capacity fronts.new) }
    ensures empty { IfOk result (λ files. files.items ≡ []) }
    ensures files { IfOk result (λ files. 1000 ≤ vec_capacity files) }
{
    fronts.reserve(1)?;
    Ok(Vec::with_capacity(alloc, MOST_SENT)?)
}

/// Forgets the fronts of batches that are no longer outstanding.
pub fn forget_fronts(names: &Name, fronts: &mut Vec<Front>)
    ensures fronts { fronts.new.items ≡ outstanding_fronts (names_of names.now) fronts.old.items }
    ensures fewer { vec_len fronts.new ≤ vec_len fronts.old }
    ensures memory { vec_capacity fronts.new ≡ vec_capacity fronts.old }
{
    fronts.retain(|front| names.is_outstanding(&front.note));
}

/// Adds the front of the batch that a walk gave, if it gave one. It does not allocate.
pub fn add_front(
    fronts: &mut Vec<Front>,
    files: Vec<Sent>,
    walked: &Result<Walked, NameRefusal>,
    count: u64,
)
    requires front { vec_len fronts.old < vec_capacity fronts.old }
    requires empty { files.items ≡ [] }
    requires files { 1000 ≤ vec_capacity files }
    ensures { fronts.new.items ≡ with_front walked.now count fronts.old.items }
{
    if let Ok(Walked::Batch(note)) = walked {
        let note = copy_note(note, files);
        let _ = fronts.push(Front { note, count });
    }
}

/// Returns a copy of a batch, in memory that was taken for it.
fn copy_note(note: &BatchNote, files: Vec<Sent>) -> BatchNote
    requires empty { files.items ≡ [] }
    requires files { 1000 ≤ vec_capacity files }
    ensures { result ≡ note.now }
{
    BatchNote {
        zone: note.zone,
        session: note.session,
        sent: copy_files(&note.sent, files),
    }
}

fn copy_files(sent: &SentList, files: Vec<Sent>) -> SentList
    requires empty { files.items ≡ [] }
    requires files { 1000 ≤ vec_capacity files }
    ensures { result ≡ sent.now }
{
    let mut copied = files;
    let _ = copied.extend_from_slice(sent.as_slice());
    match SentList::of(copied) {
        Some(copied) => copied,
        None => unreachable!(),
    }
}

/// Returns whether a batch with the zone, the session and the files of a note has this front.
pub fn has_front(fronts: &Vec<Front>, note: &BatchNote, count: u64) -> bool
    ensures { result ≡ has_front fronts.now.items note.now count }
{
    fronts.iter().any(|front| is_front(front, note, count))
}

fn is_front(front: &Front, note: &BatchNote, count: u64) -> bool
    ensures { result ≡ is_front note.now count front.now }
{
    let same_count = front.count == count;
    let same_zone = front.note.zone == note.zone;
    let same_session = front.note.session == note.session;
    let same_files = front.note.sent.is_same(&note.sent);
    same_count && same_zone && same_session && same_files
}
