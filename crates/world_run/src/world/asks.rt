//! Asks, the calls that they want, and their finishes.
ghost use Rattle.std.specs.Prelude.{◌≡◌, ◌⊎◌, List, Some};
ghost use Rattle.hk_base.specs.Disk.{Tells};
ghost use Rattle.name_calls.specs.Paths.{read_path};
ghost use Rattle.key_rows.specs.declared.rows.KeyCommand.{KeyCommand};
ghost use Rattle.kms_acls.specs.Agreement.{AreListsOf};
ghost use Rattle.kms_store.specs.Store.{IsKeyStoreOf};
ghost use Rattle.name_calls.specs.declared.calls.Ask.TheVariants as ask;
ghost use Rattle.name_core.specs.Calls.{superuser};
ghost use Rattle.prop_text.specs.declared.lines.PropLine.{PropLine};
ghost use Rattle.world_run.specs.Acknowledged.{Acknowledged, HoldsLogs};
ghost use Rattle.world_run.specs.Does.{DrawHappens, FinishHappens, WantHappens};
ghost use Rattle.world_run.specs.Step.{AskActs, AskAt, Refuses, finish_line, unread_refusal, zone_with};
ghost use Rattle.world_run.specs.World.{numbered, world_of};

use super::World;
use crate::kept::{KeptReply, again, ask_answered, note_numbered};
use hk_base::{ByteList, Disk, KeyName, Text, Words};
use hk_events::Line;
use kms_calls::{KmsCall, KmsRefusal, KmsReply};
use kms_core::Kms;
use name_calls::{
    Answered, Ask, AskNote, KeyAnswer, NPath, NameRefusal, NameReply, PathFault, Want,
};

/// Returns the answer to an ask whose path could not be read.
pub(super) fn unread_ask(fault: PathFault) -> Line
    ensures { result ≡ Line.Refused (unread_refusal fault) }
{
    match fault {
        PathFault::BadPath => Line::Refused(NameRefusal::BadPath),
        PathFault::NoMemory => Line::Refused(NameRefusal::NoMemory),
    }
}

/// Returns the answer to a finish.
fn finish_line(finished: Result<(), NameRefusal>) -> Line
    ensures { result ≡ finish_line finished }
{
    match finished {
        Ok(()) => Line::Name(NameReply::Done),
        Err(why) => Line::Refused(why),
    }
}

impl World {
    pub(super) fn ask_create(&mut self, user: Text, path: ByteList) -> Line
        ensures acts { AskAt (world_of self.old) user ask.Create (read_path path) result
            (world_of self.new) }
        ensures keys { self.new.keys ≡ self.old.keys }
        ensures store { self.new.names.store ≡ self.old.names.store }
    {
        match NPath::read(self.alloc, path.as_slice()) {
            Err(fault) => unread_ask(fault),
            Ok(path) => self.ask(&user, Ask::Create { path }),
        }
    }

    pub(super) fn ask_zone(&mut self, user: Text, path: ByteList, key: KeyName) -> Line
        ensures acts { AskAt (world_of self.old) user (zone_with key) (read_path path) result
            (world_of self.new) }
        ensures keys { self.new.keys ≡ self.old.keys }
        ensures store { self.new.names.store ≡ self.old.names.store }
    {
        match NPath::read(self.alloc, path.as_slice()) {
            Err(fault) => unread_ask(fault),
            Ok(path) => self.ask(&user, Ask::Zone { path, key }),
        }
    }

    pub(super) fn ask_submit(&mut self, user: Text, path: ByteList) -> Line
        ensures acts { AskAt (world_of self.old) user ask.Submit (read_path path) result
            (world_of self.new) }
        ensures keys { self.new.keys ≡ self.old.keys }
        ensures store { self.new.names.store ≡ self.old.names.store }
    {
        match NPath::read(self.alloc, path.as_slice()) {
            Err(fault) => unread_ask(fault),
            Ok(path) => self.ask(&user, Ask::Submit { path }),
        }
    }

    /// Makes an ask, and keeps its note, whose room is taken first.
    fn ask(&mut self, user: &Text, ask: Ask) -> Line
        ensures acts { AskActs (world_of self.old) user.now ask result (world_of self.new) ⊎
            Refuses (world_of self.old) NameRefusal.NoMemory result (world_of self.new) }
        ensures keys { self.new.keys ≡ self.old.keys }
        ensures store { self.new.names.store ≡ self.old.names.store }
    {
        match self.notes.reserve(1) {
            Err(_) => {
                drop(ask);
                return Line::Refused(NameRefusal::NoMemory);
            }
            Ok(()) => {}
        }
        match self.names.ask(user, ask) {
            Err(why) => Line::Refused(why),
            Ok(note) => {
                self.notes.push_reserved(again(&note));
                let number = self.notes.as_slice().len() as u64;
                Line::Asked { number, note }
            }
        }
    }

    /// Makes the call that a kept ask wants, and keeps the reply, whose room is taken first.
    pub(super) fn draw<D: Disk, W: Words>(
        &mut self,
        disk: &mut D,
        words: &mut W,
        now: u64,
        number: u32,
    ) -> Line
        requires stands { Tells (D.state disk.old) →
            ((done : Acknowledged) × HoldsLogs (D.state disk.old) self.old done) }
        ensures { (lines : List PropLine) → AreListsOf self.old.keys.acls lines →
            DrawHappens lines (D.state disk.old) (D.state disk.new) self.old (W.to_come words.old)
            now (numbered self.old.kept.notes number) result self.new (W.to_come words.new) }
    {
        let note = match note_numbered(&self.notes, number) {
            None => return Line::Unknown,
            Some(note) => again(note),
        };
        match self.replies.reserve(1) {
            Err(_) => return Line::Kms(KmsReply::Refused(KmsRefusal::NoMemory)),
            Ok(()) => {}
        }
        let reply = call_wanted(&mut self.keys, disk, &self.superuser, words, now, &note);
        let answered = Answered { id: note.id, reply };
        let answer = answered.answer();
        self.replies.push_reserved(KeptReply::ToAsk {
            id: note.id,
            answer,
        });
        let number = self.replies.as_slice().len() as u64;
        Line::Replied {
            number,
            reply: answered.reply,
        }
    }

    /// Finishes the ask that a kept reply answers, if it answers one.
    pub(super) fn finish<D: Disk>(&mut self, disk: &mut D, number: u32) -> Line
        requires stands { Tells (D.state disk.old) →
            ((done : Acknowledged) × HoldsLogs (D.state disk.old) self.old done) }
        ensures { FinishHappens (D.state disk.old) (D.state disk.new) self.old
            (numbered self.old.kept.replies number) result self.new }
    {
        match ask_answered(&self.replies, number) {
            None => Line::Unknown,
            Some((id, answer)) => self.finish_ask(disk, id, answer),
        }
    }

    /// Finishes the ask with an id by what the reply means for it.
    fn finish_ask<D: Disk>(&mut self, disk: &mut D, id: u64, answer: KeyAnswer) -> Line
        requires stands { Tells (D.state disk.old) →
            ((done : Acknowledged) × HoldsLogs (D.state disk.old) self.old done) }
        ensures { FinishHappens (D.state disk.old) (D.state disk.new) self.old
            (Some (KeptReply.ToAsk id answer)) result self.new }
    {
        finish_line(self.names.finish_with(disk, id, answer))
    }
}

/// Makes the call that an ask wants, if it wants one, as the superuser.
fn call_wanted<D: Disk, W: Words>(
    keys: &mut Kms,
    disk: &mut D,
    user: &Text,
    words: &mut W,
    now: u64,
    note: &AskNote,
) -> Option<KmsReply>
    requires stands { Tells (D.state disk.old) →
        ((commands : List KeyCommand) × IsKeyStoreOf (D.state disk.old) keys.old.store commands) }
    requires user { user.now ≡ superuser }
    ensures { (lines : List PropLine) → AreListsOf keys.old.acls lines →
        WantHappens lines (D.state disk.old) (D.state disk.new) keys.old (W.to_come words.old) now
        note.now.want result keys.new (W.to_come words.new) }
{
    match note.want {
        Want::Nothing => None,
        Want::Generate(name) => {
            let call = KmsCall::Generate { name, count: 1 };
            Some(keys.act(disk, words, now, user, call))
        }
        Want::Metadata(name) => {
            let call = KmsCall::Metadata { name };
            Some(keys.act(disk, words, now, user, call))
        }
    }
}
