//! Batches that were delivered or given up.
ghost use Rattle.std.specs.Prelude.{◌≡◌, IfOk, IsTrue, false, length};
ghost use Rattle.std.specs.Option.{option_and_then, option_map_or};
ghost use Rattle.reenc_walk.specs.Walks.{has_batch};
ghost use Rattle.zone_table.specs.Statuses.{status_of};
ghost use Rattle.name_core.specs.State.{retired_under, walk_under, walks_after};
ghost use Rattle.name_core.specs.Steps.{walks_with};
ghost use Rattle.name_core.specs.Updates.{applied_answer, has_note, mark_under, walk_of_status};

use crate::walks::find;
use edit_ops::EditOp;
use hk_base::NoMemory;
use name_calls::{Delivered, NPath};
use reenc_update::Changes;
use reenc_walk::{BatchNote, SentList, Walker};
use zone_table::Statuses;

/// Returns the session of the last re-encryption of a zone, or 0 if there was none.
pub fn last_session(statuses: &Statuses, zone: u64) -> u64
    ensures { result ≡ option_map_or (λ st. st.session) (status_of statuses.now.rows zone) 0 }
{
    match statuses.get(zone) {
        None => 0,
        Some(status) => status.session,
    }
}

/// Returns whether a walk has an outstanding batch with the session and the files of a note.
fn is_note_of(walker: &Walker, note: &BatchNote) -> bool
    ensures { result ≡ has_note note.now walker.now }
{
    let same = walker.session() == note.session;
    let has = walker.has(&note.sent);
    same && has
}

/// Returns whether the walk of a session, if there is one, has an outstanding batch with the session
/// and the files of a note.
fn has_note(walks: &Vec<Walker>, session: u64, note: &BatchNote) -> bool
    ensures { result ≡
        option_map_or (has_note note.now) (walk_under walks.now.items session) false }
{
    match find(walks, session) {
        None => false,
        Some(at) => is_note_of(&walks[at], note),
    }
}

/// Returns whether a batch with the session and the files of a note is outstanding in the present
/// re-encryption of its zone.
pub fn is_outstanding(walks: &Vec<Walker>, statuses: &Statuses, note: &BatchNote) -> bool
    ensures { result ≡
        option_map_or (has_note note.now)
        (option_and_then (walk_of_status walks.now.items)
        (status_of statuses.now.rows note.now.zone)) false }
{
    match statuses.get(note.zone) {
        None => false,
        Some(status) => {
            if status.completed {
                return false;
            }
            has_note(walks, status.session, note)
        }
    }
}

/// Returns the mark of a zone after an outstanding batch is retired, or `None` if that does not move
/// it. Returns `NoMemory` if allocation fails.
pub fn mark_by(walks: &Vec<Walker>, note: &BatchNote) -> Result<Option<NPath>, NoMemory>
    requires { IsTrue
        (option_map_or (λ w. has_batch w.batches note.now.sent)
        (walk_under walks.now.items note.now.session) false) }
    ensures { IfOk result (λ mark. mark ≡ mark_under walks.now.items note.now) }
{
    match find(walks, note.session) {
        None => Ok(None),
        Some(at) => walks[at].mark_after(&note.sent),
    }
}

/// Returns the answer to a delivery, or to a giving up, that changes this.
pub fn applied_answer(changes: &Changes) -> Delivered
    ensures { result ≡ applied_answer changes.now }
{
    Delivered::Applied {
        changed: changes.files.as_slice().len() as u32,
        skipped: changes.skipped,
        failed: changes.failed,
    }
}

/// Retires the batch of a session that has sent these files.
fn retire(walks: &mut Vec<Walker>, session: u64, sent: &SentList)
    ensures { walks.new.items ≡ retired_under session sent.now walks.old.items }
{
    match find(walks, session) {
        None => {}
        Some(at) => walks[at].retire(sent),
    }
}

/// Lets an operation that was written take effect on the walks: an update retires its batch, which
/// has sent the given files. It does not allocate.
pub fn retire_by(walks: &mut Vec<Walker>, sent: &Option<SentList>, op: &EditOp)
    ensures { walks.new.items ≡ walks_after sent.now op.now walks.old.items }
{
    match op {
        EditOp::Update { session, .. } => match sent {
            None => {}
            Some(sent) => retire(walks, *session, sent),
        },
        _ => {}
    }
}

/// Lets the operation that a settling kept, if there is one, take effect on the walks.
pub fn retire_kept(walks: &mut Vec<Walker>, sent: &Option<SentList>, kept: Option<EditOp>)
    ensures { walks.new.items ≡ walks_with kept sent.now walks.old.items }
{
    match kept {
        None => {}
        Some(op) => retire_by(walks, sent, &op),
    }
}
