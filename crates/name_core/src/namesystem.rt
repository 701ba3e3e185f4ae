//! The namesystem and its calls.
ghost use Rattle.std.specs.Prelude.{◌≡◌, ◌≤◌, ◌+◌, List, IfOk, IsErrOf, MatchResult, None, Option, Some, false, is_some, length, true};
ghost use Rattle.hk_base.specs.Disk.{Tells};
ghost use Rattle.name_calls.specs.Paths.{starts_reserved};
ghost use Rattle.edit_ops.specs.declared.ops.EditOp.{EditOp};
ghost use Rattle.name_store.specs.Store.{OpensNames};
ghost use Rattle.name_core.specs.State.{IsNames, IsNamesystemOf, NameState, is_full, is_spent, names_of, next_id, service_of};
ghost use Rattle.name_calls.specs.Answers.{answer_of};
ghost use Rattle.name_core.specs.Asks.{Asks, ask_causes, ask_gone, closed, finish_causes, finish_op, open_ask, ask_opened, without};
ghost use Rattle.name_core.specs.Calls.{NameActs, causes, deed, first_cause, mkdir_causes};
ghost use Rattle.name_core.specs.Service.{NameActsOnDisk, FinishActs, Starts, is_change};
ghost use Rattle.name_core.specs.declared.asks.OpenAsk.{OpenAsk};
ghost use Rattle.name_core.specs.Steps.{ActsOn, ActsSettled, FinishesSettled, HasWanted, IsAtEnd, IsUnsettled, MayBegin, MayWrite, Settling, Takes, WalksSettled, Writes, finish_answer, outstanding_under, refusal_of, answer_of_store, walk_answer};
ghost use Rattle.name_core.specs.Walking.{WalkActs};
ghost use Rattle.name_core.specs.Walks.{session_at, walk_causes};

mod deliveries;

use crate::asks::{OpenAsk, OpenAsks};
use crate::batch_size::BatchSize;
use crate::reads::{info, list, status};
use crate::rules::{
    delete_refusal, early_refusal, finish_cause, finish_op, id_at, ids_used, is_change,
    is_superuser, path_asked, path_refusal, wanted,
};
use crate::updates::{last_session, retire_by, retire_kept};
use crate::walks::{Walked, outstanding, take};
use edit_ops::EditOp;
use frame_log::{StartFault, StoreRefusal};
use hk_base::{Disk, Edek, KeyName, NoMemory, Text, put};
use name_calls::{Answered, Ask, AskNote, KeyAnswer, NPath, NameCall, NameRefusal, NameReply};
use name_store::{
    NameStore, allow_refusal, disallow_refusal, going_refusal, has_most_rows, make_refusal,
    new_zone_refusal, snap_refusal, submit_refusal, unsnap_refusal,
};
use reenc_walk::{SentList, Walk, Walker};
use std::alloc::Global;
use std::marker::Model;

/// The number of ids that an opening has.
const IDS: u64 = 1 << 32;

/// The namesystem in an opening, over the edit log on file 1 of a disk. In contracts its value is
/// its store, the counter of the next id, the open asks, the walks through zones that are
/// re-encrypted, the files of the batch of the last update, and the number of files in a batch. The
/// meaning of a call is stated on the rows and the pending operation.
///
/// Always pass the disk that the namesystem was started on.
#[derive(Drop)]
pub struct Name {
    alloc: Global,
    store: NameStore,
    next: u64,
    asks: OpenAsks,
    walks: Vec<Walker>,
    updating: Option<SentList>,
    batch: BatchSize,
}

impl Model for Name {
    ghost use Rattle.name_core.specs.State.{RunningNames, WalksOnce, service_of};
    ghost use Rattle.name_core.specs.Steps.{Keeps};

    ghost Value = { RunningNames };

    ghost view = { λ a.
        record {
          store = a.store;
          next = a.next;
          asks = a.asks;
          walks = a.walks.items;
          updating = a.updating;
          batch = a.batch;
        } };

    ghost invariant = { λ a.
        Keeps
        (service_of
        (record {
          store = a.store;
          next = a.next;
          asks = a.asks;
          walks = a.walks.items;
          updating = a.updating;
          batch = a.batch;
        })) × WalksOnce a.walks.items };
}

impl Name {
    /// Opens the edit log on file 1 of a disk, makes the rows of its operations, and commits the
    /// record of a new opening. No ask is open then, and no walk has begun. Walks take batches of
    /// `batch` files. It may be stopped at any moment, and started again.
    ///
    /// Returns `Damaged`, with the offset of the gate, only if the file is not a log, or a record
    /// is not an operation or doesn't apply. Returns `Spent` only if opening 4,294,967,295 is
    /// recorded.
    pub fn start<D: Disk>(alloc: Global, disk: &mut D, batch: u16) -> Result<Name, StartFault>
        requires some { 1 ≤ batch }
        requires most { batch ≤ 1000 }
        ensures started { IfOk result (Starts batch (D.state disk.old) (D.state disk.new)) }

        // A crash at any moment leaves what it might have left before the call, or the log that was
        // found, as it is or with its end gate read as 1, or its operations with or without the new
        // opening. A crash after the first sync of the call leaves only the latter. If that sync
        // failed, nothing was written.
        ensures opens { OpensNames (D.state disk.old) (D.state disk.new)
            (λ fault. IsErrOf result fault) }
    {
        let store = NameStore::start(alloc, disk)?;
        Ok(Name {
            alloc,
            store,
            next: 1,
            asks: OpenAsks::new(alloc),
            walks: Vec::new(alloc),
            updating: None,
            batch: BatchSize::of(batch),
        })
    }

    /// Opens the edit log again, and continues with the rows that it finds, without open asks,
    /// without a pending operation, and with walks that go on from the marks of their statuses. After
    /// an error only the disk has changed, and the namesystem must not be used with this disk any
    /// longer.
    pub fn restart<D: Disk>(&mut self, alloc: Global, disk: &mut D) -> Result<(), StartFault>
        ensures started { MatchResult result
            (λ _. Starts self.old.batch (D.state disk.old) (D.state disk.new) self.new)
            (λ _. self.new ≡ self.old) }
        ensures opens { OpensNames (D.state disk.old) (D.state disk.new)
            (λ fault. IsErrOf result fault) }
    {
        match Name::start(alloc, disk, self.batch.files()) {
            Err(fault) => Err(fault),
            Ok(name) => {
                put(self, name);
                Ok(())
            }
        }
    }

    /// Does nothing: its contract says what is always true of the namesystem, and that its log is
    /// on file 1.
    pub fn invariants(&self)
        ensures names { IsNames (service_of self.now) }
        ensures file { self.now.store.log.log.file ≡ 1 }
    {
        let _ = self.store.tree();
        let _ = self.batch.files();
    }

    /// Returns how many directories and files there are, including the root.
    pub fn count(&self) -> u32
        ensures { result ≡ length self.now.store.table.rows }
    {
        self.store.tree().rows()
    }

    /// Returns the number of this opening.
    pub fn opening(&self) -> u32
        ensures { result ≡ self.now.store.table.opening }
    {
        self.store.opening()
    }

    /// Answers a call of a user. A change settles the pending operation first, is written to the
    /// log, and then takes effect. A refusal leaves everything unchanged, except that the settled
    /// operation may have taken effect, and that after `StoreFault` at its own record the change is
    /// pending.
    pub fn act<D: Disk>(&mut self, disk: &mut D, user: &Text, call: NameCall) -> NameReply
        requires stands { Tells (D.state disk.old) →
            ((ops : List EditOp) × IsNamesystemOf (D.state disk.old) self.old ops) }
        ensures { NameActsOnDisk (D.state disk.old) (D.state disk.new) self.old user.now call result
            self.new }
    {
        if let Some(why) = early_refusal(user, &call) {
            drop(call);
            return NameReply::Refused(why);
        }
        if is_change(&call) {
            return self.change(disk, call);
        }
        let reply = self.read(&call);
        drop(call);
        reply
    }

    /// Answers a call that changes nothing.
    fn read(&self, call: &NameCall) -> NameReply
        requires { is_change call.now ≡ false }
        ensures { NameActs (names_of self.now) call.now result (names_of self.now) }
    {
        match call {
            NameCall::Info { path } => info(self.alloc, &self.store, path),
            NameCall::List { path } => list(&self.store, path),
            NameCall::Status { path } => status(self.alloc, &self.store, &self.walks, path),
            NameCall::Zones => self.zones(),
            _ => unreachable!(),
        }
    }

    fn zones(&self) -> NameReply
        ensures { NameActs (names_of self.now) NameCall.Zones result (names_of self.now) }
    {
        match self.store.zones() {
            Err(NoMemory) => NameReply::Refused(NameRefusal::NoMemory),
            Ok(zones) => NameReply::Zones(zones),
        }
    }

    /// Settles the pending operation, if there is one. An update that the log kept retires its batch. If
    /// the disk fails, the operation is still pending.
    fn settle<D: Disk>(&mut self, disk: &mut D) -> Result<(), StoreRefusal>
        requires stands { Tells (D.state disk.old) →
            ((ops : List EditOp) × IsNamesystemOf (D.state disk.old) self.old ops) }
        ensures { MatchResult result
            (λ _. Settling (D.state disk.old) (D.state disk.new) self.old self.new)
            (λ _. IsUnsettled (D.state disk.old) (D.state disk.new) self.old self.new) }
    {
        // The invariant of the store.
        let _ = self.store.tree();
        match self.store.settle(disk) {
            Err(why) => Err(why),
            Ok(kept) => {
                retire_kept(&mut self.walks, &self.updating, kept);
                Ok(())
            }
        }
    }

    /// Answers a change, after the pending operation was settled.
    fn change<D: Disk>(&mut self, disk: &mut D, call: NameCall) -> NameReply
        requires change { is_change call ≡ true }
        requires begins { MayBegin call }
        requires stands { Tells (D.state disk.old) →
            ((ops : List EditOp) × IsNamesystemOf (D.state disk.old) self.old ops) }
        ensures { ActsOn (D.state disk.old) (D.state disk.new) self.old call result self.new }
    {
        match self.settle(disk) {
            Err(_) => NameReply::Refused(NameRefusal::StoreFault),
            Ok(()) => self.change_settled(disk, call),
        }
    }

    /// Answers a change while nothing is pending.
    fn change_settled<D: Disk>(&mut self, disk: &mut D, call: NameCall) -> NameReply
        requires change { is_change call ≡ true }
        requires begins { MayBegin call }
        requires settled { self.old.store.log.pending ≡ None }
        requires stands { Tells (D.state disk.old) →
            ((ops : List EditOp) × IsNamesystemOf (D.state disk.old) self.old ops) }
        ensures { ActsSettled (D.state disk.old) (D.state disk.new) self.old call result self.new }
    {
        self.invariants();
        if let Some(why) = self.change_refusal(&call) {
            drop(call);
            return NameReply::Refused(why);
        }
        let ids = ids_used(&call);
        let op = self.op_of(call);
        let written = self.write(disk, &op, ids);
        drop(op);
        reply_of(written)
    }

    /// Returns why a change is refused while nothing is pending.
    fn change_refusal(&self, call: &NameCall) -> Option<NameRefusal>
        requires { is_change call.now ≡ true }
        ensures { result ≡ first_cause (causes (names_of self.now) call.now) }
    {
        let tree = self.store.tree();
        let snaps = self.store.snaps();
        match call {
            NameCall::Mkdir { path } => self.mkdir_refusal(path),
            NameCall::Delete { path, recursive } => delete_refusal(tree, snaps, path, *recursive),
            NameCall::Rename { path, to } => self.store.rename_refusal(path, to),
            NameCall::Allow { path } => allow_refusal(tree, snaps, path),
            NameCall::Disallow { path } => disallow_refusal(tree, snaps, path),
            NameCall::Snap { path, name } => snap_refusal(tree, snaps, path, name),
            NameCall::Unsnap { path, name } => unsnap_refusal(tree, snaps, path, name),
            NameCall::Cancel { path } => going_refusal(tree, self.store.statuses(), path),
            _ => unreachable!(),
        }
    }

    /// Returns the operation of a change that is not refused.
    fn op_of(&self, call: NameCall) -> EditOp
        requires change { is_change call ≡ true }
        requires free { first_cause (causes (names_of self.now) call) ≡ None }
        ensures { (deed (names_of self.now) call).logs ≡ Some result }
    {
        match call {
            NameCall::Mkdir { path } => EditOp::Mkdir {
                id: self.next_id(),
                path,
            },
            NameCall::Delete { path, .. } => EditOp::Remove { path },
            NameCall::Rename { path, to } => EditOp::Rename { path, to },
            NameCall::Allow { path } => EditOp::Allow { path },
            NameCall::Disallow { path } => EditOp::Disallow { path },
            NameCall::Snap { path, name } => EditOp::Snap { path, name },
            NameCall::Unsnap { path, name } => EditOp::Unsnap { path, name },
            NameCall::Cancel { path } => EditOp::Cancel {
                session: self.session_at(&path),
            },
            _ => unreachable!(),
        }
    }

    /// Returns the session of the last re-encryption of a zone, or 0 if there was none.
    fn session_at(&self, zone: &NPath) -> u64
        ensures { result ≡ session_at self.now.store.table zone.now }
    {
        let dir = id_at(self.store.tree(), zone);
        last_session(self.store.statuses(), dir)
    }

    fn mkdir_refusal(&self, path: &NPath) -> Option<NameRefusal>
        ensures { result ≡ first_cause (mkdir_causes (names_of self.now) path.now) }
    {
        if let Some(why) = make_refusal(self.store.tree(), path) {
            return Some(why);
        }
        if self.is_full() {
            return Some(NameRefusal::TooManyInodes);
        }
        None
    }

    fn is_full(&self) -> bool
        ensures { result ≡ is_full (names_of self.now) }
    {
        has_most_rows(self.store.tree()) || self.is_spent()
    }

    fn is_spent(&self) -> bool
        ensures { result ≡ is_spent (names_of self.now) }
    {
        self.next >= IDS
    }

    fn next_id(&self) -> u64
        requires { is_spent (names_of self.now) ≡ false }
        ensures { result ≡ next_id (names_of self.now) }
    {
        self.store.opening() as u64 * IDS + self.next
    }

    /// Writes the operation of a call after all checks, while nothing is pending. Uses up `ids` ids
    /// unless the result is `NoMemory`.
    fn write<D: Disk>(&mut self, disk: &mut D, op: &EditOp, ids: u64) -> Result<(), StoreRefusal>
        requires may { MayWrite (names_of self.old) op.now
            (record (names_of self.old) { next = self.old.next + ids }) }
        requires settled { self.old.store.log.pending ≡ None }
        requires stands { Tells (D.state disk.old) →
            ((ops : List EditOp) × IsNamesystemOf (D.state disk.old) self.old ops) }
        ensures { Writes (D.state disk.old) (D.state disk.new) self.old
            (record (names_of self.old) { next = self.old.next + ids }) op.now result self.new }
    {
        match self.store.commit(self.alloc, disk, op) {
            Err(StoreRefusal::NoMemory) => Err(StoreRefusal::NoMemory),
            Err(StoreRefusal::StoreFault) => {
                self.next += ids;
                Err(StoreRefusal::StoreFault)
            }
            Ok(()) => {
                self.next += ids;
                retire_by(&mut self.walks, &self.updating, op);
                Ok(())
            }
        }
    }
}

impl Name {
    /// Accepts an ask of a user, the first of its three parts. The note holds its id and the call
    /// of the key management service that is needed before it is finished. A refusal leaves
    /// everything unchanged. It reads the rows without the pending operation, and does not access
    /// the disk.
    pub fn ask(&mut self, user: &Text, ask: Ask) -> Result<AskNote, NameRefusal>
        ensures asks { Asks (names_of self.old) user.now ask result (names_of self.new) }
        ensures store { self.new.store ≡ self.old.store }
    {
        if let Some(why) = self.ask_refusal(user, &ask) {
            return Err(why);
        }
        let opened = self.opened(ask);
        let note = opened.note();
        match self.asks.push(opened) {
            Err(NoMemory) => Err(NameRefusal::NoMemory),
            Ok(()) => {
                self.next += 1;
                Ok(note)
            }
        }
    }

    /// Returns an ask with the next id.
    fn opened(&self, ask: Ask) -> OpenAsk
        requires { is_spent (names_of self.now) ≡ false }
        ensures { result ≡ ask_opened (names_of self.now) ask }
    {
        let tree = self.store.tree();
        let zone = tree.zone_of(path_asked(&ask));
        let want = wanted(tree, &ask);
        OpenAsk {
            id: self.next_id(),
            ask,
            zone,
            want,
        }
    }

    fn ask_refusal(&self, user: &Text, ask: &Ask) -> Option<NameRefusal>
        ensures { result ≡ first_cause (ask_causes (names_of self.now) user.now ask.now) }
    {
        match ask {
            Ask::Create { path } => self.file_refusal(path),
            Ask::Zone { path, .. } => self.zone_refusal(user, path),
            Ask::Submit { path } => self.submission_refusal(user, path),
        }
    }

    fn file_refusal(&self, path: &NPath) -> Option<NameRefusal>
        ensures { (user : Text) →
            result ≡ first_cause (ask_causes (names_of self.now) user (Ask.Create path.now)) }
    {
        if let Some(why) = path_refusal(path) {
            return Some(why);
        }
        self.mkdir_refusal(path)
    }

    fn zone_refusal(&self, user: &Text, path: &NPath) -> Option<NameRefusal>
        ensures { (key : KeyName) →
            result ≡ first_cause (ask_causes (names_of self.now) user.now (Ask.Zone path.now key)) }
    {
        if let Some(why) = path_refusal(path) {
            return Some(why);
        }
        if !is_superuser(user) {
            return Some(NameRefusal::NotSuperuser);
        }
        if let Some(why) = new_zone_refusal(self.store.tree(), path) {
            return Some(why);
        }
        if self.is_spent() {
            return Some(NameRefusal::TooManyInodes);
        }
        None
    }

    fn submission_refusal(&self, user: &Text, path: &NPath) -> Option<NameRefusal>
        ensures { result ≡
            first_cause (ask_causes (names_of self.now) user.now (Ask.Submit path.now)) }
    {
        if let Some(why) = path_refusal(path) {
            return Some(why);
        }
        if !is_superuser(user) {
            return Some(NameRefusal::NotSuperuser);
        }
        if let Some(why) = submit_refusal(self.store.tree(), self.store.statuses(), path) {
            return Some(why);
        }
        if self.is_spent() {
            return Some(NameRefusal::TooManyInodes);
        }
        None
    }

    /// Finishes the ask that a reply of the key management service answers, the last of its three
    /// parts. Makes the file, with the encrypted key of the reply, marks the zone, or begins the
    /// re-encryption of the zone, with the version of that key noted. Everything is checked again, after the pending operation is settled. Returns `AskGone` if no ask is open
    /// under the id. Otherwise the ask is no longer open afterwards, unless the result is
    /// `NoMemory`.
    pub fn finish<D: Disk>(&mut self, disk: &mut D, answered: Answered) -> Result<(), NameRefusal>
        requires stands { Tells (D.state disk.old) →
            ((ops : List EditOp) × IsNamesystemOf (D.state disk.old) self.old ops) }
        ensures { FinishActs (D.state disk.old) (D.state disk.new) self.old answered.id
            (answer_of answered.reply) result self.new }
    {
        let answer = answered.answer();
        self.finish_with(disk, answered.id, answer)
    }

    /// Finishes an ask as `finish` does, given only its id and what the reply says.
    pub fn finish_with<D: Disk>(
        &mut self,
        disk: &mut D,
        id: u64,
        answer: KeyAnswer,
    ) -> Result<(), NameRefusal>
        requires stands { Tells (D.state disk.old) →
            ((ops : List EditOp) × IsNamesystemOf (D.state disk.old) self.old ops) }
        ensures { FinishActs (D.state disk.old) (D.state disk.new) self.old id answer result
            self.new }
    {
        if !self.is_open(id) {
            return Err(self.ask_gone());
        }
        match answer {
            KeyAnswer::Refused(why) => {
                self.close(id);
                Err(NameRefusal::KeyRefused(why))
            }
            KeyAnswer::Given(edek) => self.conclude(disk, id, edek),
        }
    }

    fn is_open(&self, id: u64) -> bool
        ensures { result ≡ is_some (open_ask self.now.asks id) }
    {
        self.asks.get(id).is_some()
    }

    /// Removes an open ask.
    fn close(&mut self, id: u64)
        ensures { self.new ≡ record self.old { asks = without self.old.asks id } }
    {
        self.asks.remove(id);
    }

    fn ask_gone(&self) -> NameRefusal
        ensures { result ≡ ask_gone (names_of self.now) }
    {
        NameRefusal::AskGone {
            opening: self.store.opening(),
            next: self.next,
        }
    }

    /// Finishes an open ask whose call was answered.
    fn conclude<D: Disk>(
        &mut self,
        disk: &mut D,
        id: u64,
        edek: Option<Edek>,
    ) -> Result<(), NameRefusal>
        requires asked { is_some (open_ask self.old.asks id) ≡ true }
        requires stands { Tells (D.state disk.old) →
            ((ops : List EditOp) × IsNamesystemOf (D.state disk.old) self.old ops) }
        ensures { FinishActs (D.state disk.old) (D.state disk.new) self.old id
            (KeyAnswer.Given edek) result self.new }
    {
        match self.settle(disk) {
            Err(_) => {
                self.close(id);
                Err(NameRefusal::StoreFault)
            }
            Ok(()) => self.conclude_settled(disk, id, edek),
        }
    }

    /// Finishes an open ask while nothing is pending.
    fn conclude_settled<D: Disk>(
        &mut self,
        disk: &mut D,
        id: u64,
        edek: Option<Edek>,
    ) -> Result<(), NameRefusal>
        requires asked { is_some (open_ask self.old.asks id) ≡ true }
        requires settled { self.old.store.log.pending ≡ None }
        requires stands { Tells (D.state disk.old) →
            ((ops : List EditOp) × IsNamesystemOf (D.state disk.old) self.old ops) }
        ensures { (ask : OpenAsk) → open_ask self.old.asks id ≡ Some ask →
            FinishesSettled (D.state disk.old) (D.state disk.new) self.old ask edek result
            self.new }
    {
        self.invariants();
        if let Some(why) = self.finish_refusal(id, &edek) {
            self.close(id);
            return Err(why);
        }
        match self.finish_op(id, edek) {
            Err(NoMemory) => Err(NameRefusal::NoMemory),
            Ok(op) => finished(self.write_finish(disk, id, &op)),
        }
    }

    /// Returns the open ask with the id.
    fn open_ask(&self, id: u64) -> &OpenAsk
        requires { is_some (open_ask self.now.asks id) ≡ true }
        ensures { open_ask self.now.asks id ≡ Some result.now }
    {
        match self.asks.get(id) {
            None => unreachable!(),
            Some(ask) => ask,
        }
    }

    fn finish_refusal(&self, id: u64, edek: &Option<Edek>) -> Option<NameRefusal>
        requires { is_some (open_ask self.now.asks id) ≡ true }
        ensures { (ask : OpenAsk) → open_ask self.now.asks id ≡ Some ask →
            result ≡
            first_cause
            (finish_causes self.now.store.table.rows self.now.store.table.statuses ask edek.now
            ask.ask) }
    {
        finish_cause(
            self.store.tree(),
            self.store.statuses(),
            self.open_ask(id),
            edek,
        )
    }

    fn finish_op(&self, id: u64, edek: Option<Edek>) -> Result<EditOp, NoMemory>
        requires asked { is_some (open_ask self.now.asks id) ≡ true }
        requires given { (ask : OpenAsk) → open_ask self.now.asks id ≡ Some ask →
            HasWanted ask.ask edek }
        ensures { (ask : OpenAsk) → open_ask self.now.asks id ≡ Some ask →
            IfOk result (λ op. op ≡ finish_op ask.id edek ask.ask) }
    {
        finish_op(self.alloc, self.open_ask(id), edek)
    }

    /// Writes the operation of a finish after all checks, while nothing is pending. The ask is then
    /// no longer open, unless the result is `NoMemory`.
    fn write_finish<D: Disk>(
        &mut self,
        disk: &mut D,
        id: u64,
        op: &EditOp,
    ) -> Result<(), StoreRefusal>
        requires may { MayWrite (names_of self.old) op.now (closed (names_of self.old) id) }
        requires settled { self.old.store.log.pending ≡ None }
        requires stands { Tells (D.state disk.old) →
            ((ops : List EditOp) × IsNamesystemOf (D.state disk.old) self.old ops) }
        ensures { Writes (D.state disk.old) (D.state disk.new) self.old
            (closed (names_of self.old) id) op.now result self.new }
    {
        match self.store.commit(self.alloc, disk, op) {
            Err(StoreRefusal::NoMemory) => Err(StoreRefusal::NoMemory),
            Err(StoreRefusal::StoreFault) => {
                self.asks.remove(id);
                Err(StoreRefusal::StoreFault)
            }
            Ok(()) => {
                self.asks.remove(id);
                retire_by(&mut self.walks, &self.updating, op);
                Ok(())
            }
        }
    }
}

impl Name {
    /// Walks through a zone that is being re-encrypted. Takes the next batch of its files in path
    /// order, which is outstanding from then on. If no file is left, returns how many batches are
    /// outstanding; if none is, records that the re-encryption has completed.
    ///
    /// The pending operation is settled first. After `StoreFault` at the record of the completion,
    /// the completion is pending.
    pub fn walk<D: Disk>(&mut self, disk: &mut D, zone: &NPath) -> Result<Walked, NameRefusal>
        requires stands { Tells (D.state disk.old) →
            ((ops : List EditOp) × IsNamesystemOf (D.state disk.old) self.old ops) }
        ensures { WalkActs (D.state disk.old) (D.state disk.new) self.old zone.now result self.new }
    {
        if let Some(why) = path_refusal(zone) {
            return Err(why);
        }
        match self.settle(disk) {
            Err(_) => Err(NameRefusal::StoreFault),
            Ok(()) => self.walk_settled(disk, zone),
        }
    }

    /// Walks through a zone while nothing is pending.
    fn walk_settled<D: Disk>(&mut self, disk: &mut D, zone: &NPath) -> Result<Walked, NameRefusal>
        requires settled { self.old.store.log.pending ≡ None }
        requires stands { Tells (D.state disk.old) →
            ((ops : List EditOp) × IsNamesystemOf (D.state disk.old) self.old ops) }
        ensures { WalksSettled (D.state disk.old) (D.state disk.new) self.old zone.now result
            self.new }
    {
        if let Some(why) = self.walk_refusal(zone) {
            return Err(why);
        }
        match self.take_batch(zone) {
            Walk::NoMemory => Err(NameRefusal::NoMemory),
            Walk::Batch(note) => Ok(Walked::Batch(note)),
            Walk::NoneLeft => self.end_walk(disk, zone),
        }
    }

    fn walk_refusal(&self, zone: &NPath) -> Option<NameRefusal>
        ensures { result ≡ first_cause (walk_causes (names_of self.now) zone.now) }
    {
        going_refusal(self.store.tree(), self.store.statuses(), zone)
    }

    /// Takes the next batch of a zone that is being re-encrypted, if there is one.
    fn take_batch(&mut self, zone: &NPath) -> Walk
        requires { first_cause (walk_causes (names_of self.old) zone.now) ≡ None }
        ensures { Takes self.old zone.now result self.new }
    {
        let size = self.batch.files();
        let tree = self.store.tree();
        let statuses = self.store.statuses();
        let dir = id_at(tree, zone);
        take(self.alloc, &mut self.walks, tree, statuses, dir, size)
    }

    /// Returns the number of outstanding batches of a session.
    fn outstanding(&self, session: u64) -> u32
        ensures { result ≡ outstanding_under self.now.walks session }
    {
        outstanding(&self.walks, session)
    }

    /// Ends a walk that found no file left.
    fn end_walk<D: Disk>(&mut self, disk: &mut D, zone: &NPath) -> Result<Walked, NameRefusal>
        requires free { first_cause (walk_causes (names_of self.old) zone.now) ≡ None }
        requires end { IsAtEnd (names_of self.old) zone.now }
        requires settled { self.old.store.log.pending ≡ None }
        requires stands { Tells (D.state disk.old) →
            ((ops : List EditOp) × IsNamesystemOf (D.state disk.old) self.old ops) }
        ensures { WalksSettled (D.state disk.old) (D.state disk.new) self.old zone.now result
            self.new }
    {
        self.invariants();
        let session = self.session_at(zone);
        let outstanding = self.outstanding(session);
        if outstanding > 0 {
            return Ok(Walked::NoneLeft { outstanding });
        }
        completed(self.write(disk, &EditOp::Complete { session }, 0))
    }
}

/// Returns the refusal of the namesystem for a refusal of the store.
fn refusal(why: StoreRefusal) -> NameRefusal
    ensures { result ≡ refusal_of why }
{
    match why {
        StoreRefusal::NoMemory => NameRefusal::NoMemory,
        StoreRefusal::StoreFault => NameRefusal::StoreFault,
    }
}

/// Returns the reply to a change, given the result of writing its operation.
fn reply_of(written: Result<(), StoreRefusal>) -> NameReply
    ensures { result ≡ answer_of_store written }
{
    match written {
        Ok(()) => NameReply::Done,
        Err(why) => NameReply::Refused(refusal(why)),
    }
}

/// Returns the answer to a finish, given the result of writing its operation.
fn finished(written: Result<(), StoreRefusal>) -> Result<(), NameRefusal>
    ensures { result ≡ finish_answer written }
{
    match written {
        Ok(()) => Ok(()),
        Err(why) => Err(refusal(why)),
    }
}

/// Returns the answer to a walk, given the result of writing that its session has completed.
fn completed(written: Result<(), StoreRefusal>) -> Result<Walked, NameRefusal>
    ensures { result ≡ walk_answer written }
{
    match written {
        Ok(()) => Ok(Walked::Completed),
        Err(fault) => Err(refusal(fault)),
    }
}
