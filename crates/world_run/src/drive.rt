//! A re-encryption that is driven to its end.
ghost use Rattle.std.specs.Prelude.{◌≡◌, ℕ, List, Some, true, IfOk, IfSome};
ghost use Rattle.hk_base.specs.Disk.{Tells};
ghost use Rattle.kms_acls.specs.Agreement.{AreListsOf};
ghost use Rattle.name_calls.specs.Paths.{is_relative, path_text};
ghost use Rattle.prop_text.specs.declared.lines.PropLine.{PropLine};
ghost use Rattle.hk_events.specs.declared.event.Event.TheVariants as event;
ghost use Rattle.world_run.specs.Acknowledged.{Acknowledged, HoldsLogs};
ghost use Rattle.world_run.specs.Drives.{Drives, next_event, result_of};
ghost use Rattle.world_run.specs.Keeps.{Steps, is_restart};
ghost use Rattle.world_run.specs.Linked.{ServicesFit};
ghost use Rattle.world_run.specs.World.{world_of};

use crate::world::World;
use hk_base::{ByteList, Disk, NoMemory, Words};
use hk_events::{Event, Line};
use name_calls::{NPath, NameRefusal};
use name_core::Walked;
use std::alloc::Global;

/// Returns the text form of a path. Returns `NoMemory` if allocation fails.
fn text_of(alloc: Global, path: &NPath) -> Result<ByteList, NoMemory>
    ensures text { IfOk result (λ text. text ≡ path_text path.now) }
    ensures rule { is_relative path.now ≡ true }
{
    // The path keeps the rule of paths.
    let _ = path.len();
    let mut text = ByteList::new(alloc);
    path.write(&mut text)?;
    Ok(text)
}

/// Returns the event that walks a zone, or `None` if allocation fails.
fn walk_event(alloc: Global, zone: &NPath) -> Option<Event>
    ensures event { IfSome result (λ next. next ≡ event.Walk (path_text zone.now)) }
    ensures rule { is_relative zone.now ≡ true }
{
    match text_of(alloc, zone) {
        Ok(path) => Some(Event::Walk { path }),
        Err(_) => None,
    }
}

/// Returns the number of a batch or a reply as events have it, or `None` if it is too large: no
/// memory holds 2^32 batches.
fn event_number(number: u64) -> Option<u32>
    ensures { IfSome result (λ small. small ≡ number) }
{
    if number > u32::MAX as u64 {
        return None;
    }
    Some(number as u32)
}

/// Returns the event that serves a batch.
fn serve_event(number: u64) -> Option<Event>
    ensures { IfSome result (λ next. next ≡ event.Serve number) }
{
    match event_number(number) {
        Some(batch) => Some(Event::Serve { batch }),
        None => None,
    }
}

/// Returns the event that delivers a reply.
fn deliver_event(number: u64) -> Option<Event>
    ensures { IfSome result (λ next. next ≡ event.Deliver number) }
{
    match event_number(number) {
        Some(reply) => Some(Event::Deliver { reply }),
        None => None,
    }
}

/// Returns the event that follows an answer. Returns `None` if none follows, or if allocation fails.
fn next_event(alloc: Global, zone: &NPath, answer: &Line) -> Option<Event>
    ensures { IfSome result (λ next. next_event (path_text zone.now) answer.now ≡ Some next) }
{
    match answer {
        Line::Batch { number, .. } => serve_event(*number),
        Line::Replied { number, .. } => deliver_event(*number),
        Line::Delivered(_) => walk_event(alloc, zone),
        _ => None,
    }
}

/// Returns the result of a drive with this last answer.
fn result_of(answer: &Line) -> Result<Walked, NameRefusal>
    ensures { result ≡ result_of answer.now }
{
    match answer {
        Line::NoneLeft { outstanding } => Ok(Walked::NoneLeft {
            outstanding: *outstanding,
        }),
        Line::Completed => Ok(Walked::Completed),
        Line::Refused(why) => Err(*why),
        _ => Err(NameRefusal::NoMemory),
    }
}

impl World {
    /// Drives the re-encryption of a zone to its end: walks the zone, has the key management service
    /// re-encrypt each batch that the walk gives, and delivers the reply, until a walk gives no batch.
    /// Each of these is an event of [`World::step`] at the moment `now`, with all that `step`
    /// promises.
    ///
    /// Returns the answer of the last walk: `Completed` if no batch was outstanding before, and
    /// otherwise `NoneLeft` with the number of batches that were. At most as many batches are taken as
    /// the files left before fill. No file counts as failed, unless the key management service refused
    /// the call for its batch.
    ///
    /// Returns the refusal if a walk or a delivery is refused, and `NoMemory` also if allocation fails
    /// between two events or for a reply. The events before it have happened, so a batch that was
    /// taken last may be outstanding. A further drive takes the files after it.
    pub fn drive<D: Disk, W: Words>(
        &mut self,
        disk: &mut D,
        words: &mut W,
        now: u64,
        zone: &NPath,
    ) -> Result<Walked, NameRefusal>
        requires stands { Tells (D.state disk.old) →
            ((done : Acknowledged) × HoldsLogs (D.state disk.old) self.old done) }
        requires lists { (lines : List PropLine) × AreListsOf self.old.keys.acls lines }
        ensures { (lines : List PropLine) → AreListsOf self.old.keys.acls lines →
            Drives D.state W.to_come lines now zone.now
            (record { disk = disk.old; world = self.old; words = words.old }) result
            (record { disk = disk.new; world = self.new; words = words.new }) }
    {
        self.fits();
        let alloc = self.alloc();
        let Some(mut event) = walk_event(alloc, zone) else {
            return Err(NameRefusal::NoMemory);
        };
        // Every third event keeps a batch, so memory runs out before the count of events does.
        'events: for _ in 0..u64::MAX {
            let answer = self.answer(disk, words, now, event);
            match next_event(alloc, zone, &answer) {
                Some(next) => {
                    drop(answer);
                    event = next;
                }
                None => {
                    let walked = result_of(&answer);
                    drop(answer);
                    return walked;
                }
            }
        }
        drop(event);
        Err(NameRefusal::NoMemory)
    }

    /// Answers an event that is no restart, and so doesn't fail.
    fn answer<D: Disk, W: Words>(
        &mut self,
        disk: &mut D,
        words: &mut W,
        now: u64,
        event: Event,
    ) -> Line
        requires stands { Tells (D.state disk.old) →
            ((done : Acknowledged) × HoldsLogs (D.state disk.old) self.old done) }
        requires goes_on { (file : ℕ) → is_restart event file → ⊥ }
        ensures steps { (lines : List PropLine) → AreListsOf self.old.keys.acls lines →
            Steps lines (D.state disk.old) (D.state disk.new) self.old (W.to_come words.old) now
            event result self.new (W.to_come words.new) }
        ensures fits { ServicesFit (world_of self.new) }
    {
        match self.step(disk, words, now, event) {
            Ok(line) => {
                self.fits();
                line
            }
            Err(_) => unreachable!(),
        }
    }
}
