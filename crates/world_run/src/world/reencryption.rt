//! Walks of zones that are being re-encrypted, and what becomes of their batches.
ghost use Rattle.std.specs.Prelude.{◌≡◌, List, Some};
ghost use Rattle.hk_base.specs.Disk.{Tells};
ghost use Rattle.name_calls.specs.Paths.{read_path};
ghost use Rattle.kms_acls.specs.Agreement.{AreListsOf};
ghost use Rattle.prop_text.specs.declared.lines.PropLine.{PropLine};
ghost use Rattle.world_run.specs.Acknowledged.{Acknowledged, HoldsLogs};
ghost use Rattle.world_run.specs.Does.{DeliverHappens, GiveUpHappens, ServeHappens, WalkHappens};
ghost use Rattle.world_run.specs.Step.{update_line};
ghost use Rattle.world_run.specs.World.{numbered};

use super::World;
use super::asks::unread_ask;
use crate::kept::{KeptReply, batch_answered, batch_numbered, keep_batch};
use crate::serve::prepare;
use batch_calls::reply_for;
use hk_base::{ByteList, Disk, Words};
use hk_events::Line;
use kms_calls::{KmsRefusal, KmsReply};
use name_calls::{Delivered, NPath, NameRefusal};

/// Returns the answer to a delivery or a giving up.
fn update_line(delivered: Result<Delivered, NameRefusal>) -> Line
    ensures { result ≡ update_line delivered }
{
    match delivered {
        Ok(delivered) => Line::Delivered(delivered),
        Err(why) => Line::Refused(why),
    }
}

impl World {
    /// Reads the path of a zone and walks the zone.
    pub(super) fn walk<D: Disk>(&mut self, disk: &mut D, path: ByteList) -> Line
        requires stands { Tells (D.state disk.old) →
            ((done : Acknowledged) × HoldsLogs (D.state disk.old) self.old done) }
        ensures { WalkHappens (D.state disk.old) (D.state disk.new) self.old (read_path path) result
            self.new }
    {
        match NPath::read(self.alloc, path.as_slice()) {
            Err(fault) => unread_ask(fault),
            Ok(path) => self.walk_zone(disk, &path),
        }
    }

    /// Walks a zone, and keeps the batch that it gives, whose room is taken first.
    fn walk_zone<D: Disk>(&mut self, disk: &mut D, zone: &NPath) -> Line
        requires stands { Tells (D.state disk.old) →
            ((done : Acknowledged) × HoldsLogs (D.state disk.old) self.old done) }
        ensures { WalkHappens (D.state disk.old) (D.state disk.new) self.old (Some zone.now) result
            self.new }
    {
        match self.batches.reserve(1) {
            Err(_) => return Line::Refused(NameRefusal::NoMemory),
            Ok(()) => {}
        }
        match self.names.walk(disk, zone) {
            Err(why) => Line::Refused(why),
            Ok(walked) => keep_batch(&mut self.batches, walked),
        }
    }

    /// Makes the call for a kept batch, and keeps the reply with the batch. All memory that this
    /// needs is taken first.
    pub(super) fn serve<D: Disk, W: Words>(
        &mut self,
        disk: &mut D,
        words: &mut W,
        now: u64,
        number: u32,
    ) -> Line
        requires stands { Tells (D.state disk.old) →
            ((done : Acknowledged) × HoldsLogs (D.state disk.old) self.old done) }
        ensures { (lines : List PropLine) → AreListsOf self.old.keys.acls lines →
            ServeHappens lines (D.state disk.old) (D.state disk.new) self.old (W.to_come words.old)
            now (numbered self.old.kept.batches number) result self.new (W.to_come words.new) }
    {
        let serving = match batch_numbered(&self.batches, number) {
            None => return Line::Unknown,
            Some(batch) => match prepare(self.alloc, batch) {
                Err(_) => return Line::Kms(KmsReply::Refused(KmsRefusal::NoMemory)),
                Ok(serving) => serving,
            },
        };
        match self.replies.reserve(1) {
            Err(_) => {
                drop(serving);
                return Line::Kms(KmsReply::Refused(KmsRefusal::NoMemory));
            }
            Ok(()) => {}
        }
        let reply = self
            .keys
            .act(disk, words, now, &self.superuser, serving.call);
        let kept = reply_for(serving.note, serving.room, &reply);
        self.replies.push_reserved(KeptReply::ToBatch(kept));
        let number = self.replies.as_slice().len() as u64;
        Line::Replied {
            number,
            reply: Some(reply),
        }
    }

    /// Delivers the kept reply with a number, if it is to the call for a batch.
    pub(super) fn deliver<D: Disk>(&mut self, disk: &mut D, number: u32) -> Line
        requires stands { Tells (D.state disk.old) →
            ((done : Acknowledged) × HoldsLogs (D.state disk.old) self.old done) }
        ensures { DeliverHappens (D.state disk.old) (D.state disk.new) self.old
            (numbered self.old.kept.replies number) result self.new }
    {
        match batch_answered(&self.replies, number) {
            None => Line::Unknown,
            Some(reply) => update_line(self.names.deliver(disk, reply)),
        }
    }

    /// Gives up the kept batch with a number.
    pub(super) fn give_up<D: Disk>(&mut self, disk: &mut D, number: u32) -> Line
        requires stands { Tells (D.state disk.old) →
            ((done : Acknowledged) × HoldsLogs (D.state disk.old) self.old done) }
        ensures { GiveUpHappens (D.state disk.old) (D.state disk.new) self.old
            (numbered self.old.kept.batches number) result self.new }
    {
        match batch_numbered(&self.batches, number) {
            None => Line::Unknown,
            Some(batch) => update_line(self.names.give_up(disk, batch)),
        }
    }
}
