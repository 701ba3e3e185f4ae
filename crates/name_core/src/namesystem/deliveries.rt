//! Deliveries of what came back for batches, and batches that are given up.
ghost use Rattle.std.specs.Prelude.{◌≡◌, List, IfOk, None, Some, true};
ghost use Rattle.hk_base.specs.Disk.{Tells};
ghost use Rattle.edit_ops.specs.declared.ops.EditOp.{EditOp};
ghost use Rattle.name_core.specs.State.{IsNamesystemOf, NameState, names_of};
ghost use Rattle.name_core.specs.Steps.{MayUpdate, MayWrite, UpdatesSettled, Writes, delivered_answer};
ghost use Rattle.name_core.specs.Updates.{UpdateDeed, applied, deliver_deed, give_up_deed, ignore_deed, ignored, is_outstanding, update_op};
ghost use Rattle.name_core.specs.Updating.{UpdateActs};

use super::{Name, refusal};
use crate::updates::{applied_answer, is_outstanding, last_session, mark_by, retire_by};
use edit_ops::EditOp;
use frame_log::StoreRefusal;
use hk_base::{Disk, NoMemory};
use name_calls::{Delivered, NameRefusal};
use reenc_update::{BatchReply, Changes, all_failed, changes_of};
use reenc_walk::BatchNote;

impl Name {
    /// Delivers what the key management service replied to the call for a batch. Each file that is
    /// still in the zone with the encrypted key that was sent gets the one that came back. If the
    /// service refused the call, each file of the batch counts as failed. The batch is then no longer
    /// outstanding. If it is not outstanding, nothing changes.
    ///
    /// The pending operation is settled first. The only refusals are `NoMemory` and `StoreFault`. After
    /// `StoreFault` at its own record the update is pending, and the batch is still outstanding.
    pub fn deliver<D: Disk>(
        &mut self,
        disk: &mut D,
        reply: &BatchReply,
    ) -> Result<Delivered, NameRefusal>
        requires stands { Tells (D.state disk.old) →
            ((ops : List EditOp) × IsNamesystemOf (D.state disk.old) self.old ops) }
        ensures { UpdateActs (D.state disk.old) (D.state disk.new) self.old (deliver_deed reply.now)
            result self.new }
    {
        match self.settle(disk) {
            Err(_) => Err(NameRefusal::StoreFault),
            Ok(()) => self.deliver_settled(disk, reply),
        }
    }

    /// Delivers a reply while nothing is pending.
    fn deliver_settled<D: Disk>(
        &mut self,
        disk: &mut D,
        reply: &BatchReply,
    ) -> Result<Delivered, NameRefusal>
        requires settled { self.old.store.log.pending ≡ None }
        requires stands { Tells (D.state disk.old) →
            ((ops : List EditOp) × IsNamesystemOf (D.state disk.old) self.old ops) }
        ensures { UpdatesSettled (D.state disk.old) (D.state disk.new) self.old
            (deliver_deed reply.now) result self.new }
    {
        self.invariants();
        // Its keys fit its files.
        let _ = reply.result();
        let note = reply.note();
        if !self.is_outstanding(note) {
            return Ok(self.ignored(note));
        }
        match changes_of(self.alloc, self.store.tree(), reply) {
            Err(_) => Err(NameRefusal::NoMemory),
            Ok(changes) => self.update(disk, note, changes),
        }
    }

    /// Gives up a batch: each file of it counts as failed, and it is no longer outstanding. If it is not
    /// outstanding, nothing changes. It settles the pending operation first, and is refused, as
    /// `deliver` does.
    pub fn give_up<D: Disk>(
        &mut self,
        disk: &mut D,
        note: &BatchNote,
    ) -> Result<Delivered, NameRefusal>
        requires stands { Tells (D.state disk.old) →
            ((ops : List EditOp) × IsNamesystemOf (D.state disk.old) self.old ops) }
        ensures { UpdateActs (D.state disk.old) (D.state disk.new) self.old (give_up_deed note.now)
            result self.new }
    {
        match self.settle(disk) {
            Err(_) => Err(NameRefusal::StoreFault),
            Ok(()) => self.give_up_settled(disk, note),
        }
    }

    /// Gives up a batch while nothing is pending.
    fn give_up_settled<D: Disk>(
        &mut self,
        disk: &mut D,
        note: &BatchNote,
    ) -> Result<Delivered, NameRefusal>
        requires settled { self.old.store.log.pending ≡ None }
        requires stands { Tells (D.state disk.old) →
            ((ops : List EditOp) × IsNamesystemOf (D.state disk.old) self.old ops) }
        ensures { UpdatesSettled (D.state disk.old) (D.state disk.new) self.old
            (give_up_deed note.now) result self.new }
    {
        if !self.is_outstanding(note) {
            return Ok(self.ignored(note));
        }
        let changes = all_failed(self.alloc, note);
        self.update(disk, note, changes)
    }

    /// Returns whether a batch with the session and the files of a note is outstanding in the present
    /// re-encryption of its zone.
    pub fn is_outstanding(&self, note: &BatchNote) -> bool
        ensures { result ≡ is_outstanding (names_of self.now) note.now }
    {
        is_outstanding(&self.walks, self.store.statuses(), note)
    }

    /// Answers the delivery of a reply as if its batch were not outstanding: the pending operation is
    /// settled, and nothing else changes. The only refusal is `StoreFault`.
    pub fn ignore<D: Disk>(
        &mut self,
        disk: &mut D,
        note: &BatchNote,
    ) -> Result<Delivered, NameRefusal>
        requires stands { Tells (D.state disk.old) →
            ((ops : List EditOp) × IsNamesystemOf (D.state disk.old) self.old ops) }
        ensures { UpdateActs (D.state disk.old) (D.state disk.new) self.old (ignore_deed note.now)
            result self.new }
    {
        match self.settle(disk) {
            Err(_) => Err(NameRefusal::StoreFault),
            Ok(()) => Ok(self.ignored(note)),
        }
    }

    /// Returns the answer for a batch that is not outstanding.
    fn ignored(&self, note: &BatchNote) -> Delivered
        ensures { result ≡ (ignored (names_of self.now) note.now).answer }
    {
        Delivered::Ignored {
            session: last_session(self.store.statuses(), note.zone),
        }
    }

    /// Writes what becomes of an outstanding batch while nothing is pending, and retires the batch.
    fn update<D: Disk>(
        &mut self,
        disk: &mut D,
        note: &BatchNote,
        changes: Changes,
    ) -> Result<Delivered, NameRefusal>
        requires may { MayUpdate (names_of self.old) note.now changes }
        requires settled { self.old.store.log.pending ≡ None }
        requires stands { Tells (D.state disk.old) →
            ((ops : List EditOp) × IsNamesystemOf (D.state disk.old) self.old ops) }
        ensures { (d : NameState → UpdateDeed) →
            d (names_of self.old) ≡ applied (names_of self.old) note.now changes →
            UpdatesSettled (D.state disk.old) (D.state disk.new) self.old d result self.new }
    {
        self.invariants();
        let answer = applied_answer(&changes);
        match self.update_op(note, changes) {
            Err(_) => Err(NameRefusal::NoMemory),
            Ok(op) => delivered(answer, self.write_update(disk, &op, note)),
        }
    }

    /// Returns the operation of an update.
    fn update_op(&self, note: &BatchNote, changes: Changes) -> Result<EditOp, NoMemory>
        requires { is_outstanding (names_of self.now) note.now ≡ true }
        ensures { IfOk result (λ op. op ≡ update_op (names_of self.now) note.now changes) }
    {
        let mark = mark_by(&self.walks, note)?;
        Ok(EditOp::Update {
            session: note.session,
            failed: changes.failed,
            mark,
            files: changes.files,
        })
    }

    /// Writes an update of a batch after all checks, while nothing is pending.
    fn write_update<D: Disk>(
        &mut self,
        disk: &mut D,
        op: &EditOp,
        note: &BatchNote,
    ) -> Result<(), StoreRefusal>
        requires may { MayWrite (names_of self.old) op.now
            (record (names_of self.old) { updating = Some note.now.sent }) }
        requires settled { self.old.store.log.pending ≡ None }
        requires stands { Tells (D.state disk.old) →
            ((ops : List EditOp) × IsNamesystemOf (D.state disk.old) self.old ops) }
        ensures { Writes (D.state disk.old) (D.state disk.new) self.old
            (record (names_of self.old) { updating = Some note.now.sent }) op.now result self.new }
    {
        let Ok(sent) = note.sent.copy(self.alloc) else {
            return Err(StoreRefusal::NoMemory);
        };
        match self.store.commit(self.alloc, disk, op) {
            Err(StoreRefusal::NoMemory) => Err(StoreRefusal::NoMemory),
            Err(StoreRefusal::StoreFault) => {
                self.updating = Some(sent);
                Err(StoreRefusal::StoreFault)
            }
            Ok(()) => {
                self.updating = Some(sent);
                retire_by(&mut self.walks, &self.updating, op);
                Ok(())
            }
        }
    }
}

/// Returns the answer to an update, given the one that it gets if its operation is written, and the
/// result of writing it.
fn delivered(answer: Delivered, written: Result<(), StoreRefusal>) -> Result<Delivered, NameRefusal>
    ensures { result ≡ delivered_answer answer written }
{
    match written {
        Ok(()) => Ok(answer),
        Err(refused) => Err(refusal(refused)),
    }
}
