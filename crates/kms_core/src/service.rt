//! The calls of the service, without the access control lists.
ghost use Rattle.std.specs.Prelude.{◌≡◌, ◌*◌, ◌/◌, ◌≤◌, ◌<◌, ◌^◌, ◌+◌, ◌⊎◌, ℕ, List, [], true, false, IfOk, IfSome, IsErrOf, IsTrue, MatchBool, MatchOption, MatchResult, None, Some, find, is_none, is_some, length, map};
ghost use Rattle.std.specs.List.{list_any};
ghost use Rattle.std.specs.Option.{option_copied};
ghost use Rattle.hk_base.specs.Disk.{Tells};
ghost use Rattle.key_rows.specs.declared.rows.KeyCommand.{KeyCommand};
ghost use Rattle.key_rows.specs.Table.{find_birth, is_length, material_of};
ghost use Rattle.kms_store.specs.Store.{HasMaterials, IsKeyStoreOf, IsRowOf, OpensKeys};
ghost use Rattle.kms_core.specs.State.{IsService, keys_of, service_of};
ghost use Rattle.kms_core.specs.Calls.{all_versions, create_causes, created, current_material, current_version, deleted, first_cause, is_absent, is_full, is_misfit, meta_of, metas_of, unsealed_dek, resealed, rolled, row_of, version_with_material};
ghost use Rattle.kms_core.specs.Order.{names_in_order};
ghost use Rattle.kms_core.specs.Service.{KmsActsOnDisk, Starts};
ghost use Rattle.kms_core.specs.Steps.{ActsSettled, Answers, Commits, IsCurrent, StandsSo, Settling, IsOfNewest, IsUnsettled, WorksOnQueues};
ghost use Rattle.eek_queues.specs.Queues.{has_queue};
ghost use Rattle.kms_core.specs.Ready.{deposit_answer, is_present, queues_with, stale_for, ticket_of};

use crate::drawing::{CurrentVersion, material_for};
use crate::known::{MOST_ASKED, newest};
use crate::queued::{change, change_by, hand_out};
use crate::replies::meta;
use eek_queues::Queues;
use eek_seal::{Deposit, Sealed, Ticket};
use frame_log::{StartFault, StoreRefusal};
use hk_base::{ByteList, Dek, Disk, KeyName, NoMemory, VersionName, Words};
use key_index::IndexRow;
use key_rows::KeyCommand;
use kms_calls::{
    Description, KeyMeta, KmsCall, KmsRefusal, KmsReply, MetaList, NameList, RawEdek, RawEdekList,
};
use kms_store::Store;
use std::alloc::Global;
use std::marker::Model;

/// The number of births in an opening.
const BIRTHS: u64 = 1 << 32;

/// The largest number of keys.
const MOST_KEYS: u32 = 10000;

/// The largest number of versions of a key.
const MOST_VERSIONS: u16 = 65535;

/// The facts about a key that a change needs.
#[derive(Clone, Copy)]
struct Standing {
    birth: u64,
    bits: u16,
    versions: u16,
}

/// The running service without its access control lists: every call is permitted.
#[derive(Drop)]
pub struct Service {
    pub(crate) alloc: Global,
    pub(crate) store: Store,
    next: u64,
    queues: Queues,
    cache: u16,
}

impl Model for Service {
    ghost use Rattle.kms_core.specs.State.{Keeps, Running, service_of};

    ghost Value = { Running };

    ghost view = { λ a. record { store = a.store; next = a.next; ready = a.queues } };

    ghost invariant = { λ a.
        Keeps (service_of (record { store = a.store; next = a.next; ready = a.queues })) };
}

fn is_length(bits: u64) -> bool
    ensures { result ≡ is_length bits }
{
    bits == 128 || bits == 192 || bits == 256
}

fn is_misfit(bits: u64, material: &Option<ByteList>) -> bool
    ensures { result ≡ is_misfit bits material.now }
{
    match material {
        None => false,
        Some(material) => material.as_slice().len() as u64 != bits / 8,
    }
}

impl Service {
    pub fn start<D: Disk>(
        alloc: Global,
        disk: &mut D,
        size: u16,
        watermark: u16,
        cache: u16,
    ) -> Result<Service, StartFault>
        ensures started { IfOk result (Starts (D.state disk.old) (D.state disk.new)) }
        ensures queues { IfOk result
            (λ service. service.ready ≡
            record { size = size; watermark = watermark; queues = [] }) }
        ensures opens { OpensKeys (D.state disk.old) (D.state disk.new)
            (λ fault. IsErrOf result fault) }
    {
        let store = Store::start(alloc, disk, cache)?;
        let _ = store.opening();
        Ok(Service {
            alloc,
            store,
            next: 1,
            queues: Queues::new(alloc, size, watermark),
            cache,
        })
    }

    /// Returns the number of keys.
    pub fn count(&self) -> u32
        ensures count { result ≡ length self.now.store.table.keys.rows }
        ensures rules { IsService (service_of self.now) }
        // The log is on file 0.
        ensures file { self.now.store.log.file ≡ 0 }
    {
        let _ = self.store.opening();
        self.store.count()
    }

    /// Returns the number of this opening.
    pub fn opening(&self) -> u32
        ensures { result ≡ self.now.store.table.keys.opening }
    {
        self.store.opening()
    }

    /// Returns the number of ready keys that a queue can hold.
    pub fn size(&self) -> u16
        ensures { result ≡ self.now.ready.size }
    {
        self.queues.size()
    }

    /// Returns the number of ready keys below which a queue is low.
    pub fn watermark(&self) -> u16
        ensures { result ≡ self.now.ready.watermark }
    {
        self.queues.watermark()
    }

    /// Returns the number of older materials that are kept in memory.
    pub fn cache(&self) -> u16 {
        self.cache
    }

    /// Answers a call.
    pub fn act<D: Disk, W: Words>(
        &mut self,
        disk: &mut D,
        words: &mut W,
        now: u64,
        call: KmsCall,
    ) -> KmsReply
        requires stands { Tells (D.state disk.old) →
            ((commands : List KeyCommand) ×
            IsKeyStoreOf (D.state disk.old) self.old.store commands) }
        ensures { KmsActsOnDisk (D.state disk.old) (D.state disk.new) self.old (W.to_come words.old)
            now call result self.new (W.to_come words.new) }
    {
        let _ = self.count(); // says that the log is on file 0
        match call {
            KmsCall::Create {
                name,
                bits,
                material,
                description,
            } => self.create(disk, words, now, name, bits, material, description),
            KmsCall::Roll { name, material } => self.roll(disk, words, now, name, material),
            KmsCall::Delete { name } => self.delete(disk, name),
            KmsCall::Invalidate { name } => self.invalidate(name),
            KmsCall::Metadata { name } => self.metadata(name),
            KmsCall::Metadatas { names } => self.metadatas(names),
            KmsCall::Names => self.names(),
            KmsCall::Current { name } => self.current_version(name),
            KmsCall::Versions { name } => self.versions(disk, name),
            KmsCall::Version { version } => self.version(disk, version),
            KmsCall::Generate { name, count } => self.generate(words, name, count),
            KmsCall::Decrypt { name, sent } => self.decrypt(disk, name, sent),
            KmsCall::Reencrypt { name, sent } => self.reencrypt(disk, name, sent),
            KmsCall::Batch { name, sent } => self.batch(disk, name, sent),
        }
    }

    /// Settles the pending command, if there is one. If the disk fails, it is still pending.
    fn settle<D: Disk>(&mut self, disk: &mut D) -> Result<(), StoreRefusal>
        requires stands { Tells (D.state disk.old) →
            ((commands : List KeyCommand) ×
            IsKeyStoreOf (D.state disk.old) self.old.store commands) }
        ensures { MatchResult result
            (λ _. Settling (D.state disk.old) (D.state disk.new) self.old self.new)
            (λ _. IsUnsettled (D.state disk.old) (D.state disk.new) self.old self.new) }
    {
        let _ = self.store.opening();
        let effect = change_by(self.store.pending());
        let kept = self.store.settle(disk)?;
        if kept {
            change(&mut self.queues, effect);
        }
        Ok(())
    }

    fn create<D: Disk, W: Words>(
        &mut self,
        disk: &mut D,
        words: &mut W,
        now: u64,
        name: KeyName,
        bits: u64,
        material: Option<ByteList>,
        description: Description,
    ) -> KmsReply
        requires stands { Tells (D.state disk.old) →
            ((commands : List KeyCommand) ×
            IsKeyStoreOf (D.state disk.old) self.old.store commands) }
        ensures { KmsActsOnDisk (D.state disk.old) (D.state disk.new) self.old (W.to_come words.old)
            now (KmsCall.Create name bits material description) result self.new
            (W.to_come words.new) }
    {
        match self.settle(disk) {
            Err(_) => {
                drop(material);
                drop(description);
                KmsReply::Refused(KmsRefusal::StoreFault)
            }
            Ok(()) => self.create_settled(disk, words, now, name, bits, material, description),
        }
    }

    /// Creates a key. No command may be pending.
    fn create_settled<D: Disk, W: Words>(
        &mut self,
        disk: &mut D,
        words: &mut W,
        now: u64,
        name: KeyName,
        bits: u64,
        material: Option<ByteList>,
        description: Description,
    ) -> KmsReply
        requires settled { self.old.store.pending ≡ None }
        requires stands { Tells (D.state disk.old) →
            ((commands : List KeyCommand) ×
            IsKeyStoreOf (D.state disk.old) self.old.store commands) }
        ensures { ActsSettled (D.state disk.old) (D.state disk.new) self.old (W.to_come words.old)
            now (KmsCall.Create name bits material description) result self.new
            (W.to_come words.new) }
    {
        if let Some(why) = self.create_refusal(&name, bits, &material) {
            drop(material);
            drop(description);
            return KmsReply::Refused(why);
        }
        let material = material_for(words, bits, material);
        self.add(disk, now, name, bits as u16, material, description)
    }

    fn create_refusal(
        &self,
        name: &KeyName,
        bits: u64,
        material: &Option<ByteList>,
    ) -> Option<KmsRefusal>
        ensures { result ≡
            first_cause (create_causes (keys_of self.now) name.now bits material.now) }
    {
        if self.key(name).is_some() {
            return Some(KmsRefusal::KeyExists);
        }
        if !is_length(bits) {
            return Some(KmsRefusal::BadLength);
        }
        if is_misfit(bits, material) {
            return Some(KmsRefusal::BadMaterial);
        }
        if self.is_full() {
            return Some(KmsRefusal::TooManyKeys);
        }
        None
    }

    fn is_full(&self) -> bool
        ensures { result ≡ is_full (keys_of self.now) }
    {
        self.store.count() >= MOST_KEYS || self.next >= BIRTHS
    }

    /// Adds a key after all checks. Its birth is used up even if the disk fails.
    fn add<D: Disk>(
        &mut self,
        disk: &mut D,
        now: u64,
        name: KeyName,
        bits: u16,
        material: Dek,
        description: Description,
    ) -> KmsReply
        requires absent { is_some (row_of (keys_of self.old) name) ≡ false }
        requires room { is_full (keys_of self.old) ≡ false }
        requires bits { IsTrue (is_length bits) }
        requires length { length material ≡ bits / 8 }
        requires settled { self.old.store.pending ≡ None }
        requires stands { Tells (D.state disk.old) →
            ((commands : List KeyCommand) ×
            IsKeyStoreOf (D.state disk.old) self.old.store commands) }
        ensures { Commits (D.state disk.old) (D.state disk.new) self.old
            (created (keys_of self.old) now name bits description material 0) result self.new }
    {
        let birth = self.store.opening() as u64 * BIRTHS + self.next;
        let command = KeyCommand::Create {
            birth,
            name,
            bits,
            description,
            created: now,
            material,
        };
        match self.store.commit(self.alloc, disk, command) {
            Err(StoreRefusal::NoMemory) => KmsReply::Refused(KmsRefusal::NoMemory),
            Err(StoreRefusal::StoreFault) => {
                self.next += 1;
                KmsReply::Refused(KmsRefusal::StoreFault)
            }
            Ok(()) => {
                self.next += 1;
                version_with_material(name, 0, material)
            }
        }
    }

    fn roll<D: Disk, W: Words>(
        &mut self,
        disk: &mut D,
        words: &mut W,
        now: u64,
        name: KeyName,
        material: Option<ByteList>,
    ) -> KmsReply
        requires stands { Tells (D.state disk.old) →
            ((commands : List KeyCommand) ×
            IsKeyStoreOf (D.state disk.old) self.old.store commands) }
        ensures { KmsActsOnDisk (D.state disk.old) (D.state disk.new) self.old (W.to_come words.old)
            now (KmsCall.Roll name material) result self.new (W.to_come words.new) }
    {
        match self.settle(disk) {
            Err(_) => KmsReply::Refused(KmsRefusal::StoreFault),
            Ok(()) => self.roll_settled(disk, words, now, name, material),
        }
    }

    /// Rolls a key over. No command may be pending.
    fn roll_settled<D: Disk, W: Words>(
        &mut self,
        disk: &mut D,
        words: &mut W,
        now: u64,
        name: KeyName,
        material: Option<ByteList>,
    ) -> KmsReply
        requires settled { self.old.store.pending ≡ None }
        requires stands { Tells (D.state disk.old) →
            ((commands : List KeyCommand) ×
            IsKeyStoreOf (D.state disk.old) self.old.store commands) }
        ensures { ActsSettled (D.state disk.old) (D.state disk.new) self.old (W.to_come words.old)
            now (KmsCall.Roll name material) result self.new (W.to_come words.new) }
    {
        let Some(key) = self.standing(&name) else {
            drop(material);
            return KmsReply::Refused(KmsRefusal::NoSuchKey);
        };
        if is_misfit(key.bits as u64, &material) {
            drop(material);
            return KmsReply::Refused(KmsRefusal::BadMaterial);
        }
        if key.versions >= MOST_VERSIONS {
            drop(material);
            return KmsReply::Refused(KmsRefusal::TooManyVersions);
        }
        let material = material_for(words, key.bits as u64, material);
        self.add_version(disk, name, key, material)
    }

    /// Returns the facts about a key that a change needs, or `None` if there is no such key.
    fn standing(&self, name: &KeyName) -> Option<Standing>
        ensures known { MatchOption result (is_none (row_of (keys_of self.now) name.now) ≡ true)
            (StandsSo (keys_of self.now) name.now) }
        ensures length { IfSome result (λ key. IsTrue (is_length key.bits)) }
    {
        let row = self.store.find(name)?;
        Some(Standing {
            birth: row.birth,
            bits: row.bits,
            versions: row.versions as u16,
        })
    }

    /// Adds the next version of a key after all checks.
    fn add_version<D: Disk>(
        &mut self,
        disk: &mut D,
        name: KeyName,
        key: Standing,
        material: Dek,
    ) -> KmsReply
        requires key { StandsSo (keys_of self.old) name key }
        requires room { key.versions < 65535 }
        requires length { length material ≡ key.bits / 8 }
        requires settled { self.old.store.pending ≡ None }
        requires stands { Tells (D.state disk.old) →
            ((commands : List KeyCommand) ×
            IsKeyStoreOf (D.state disk.old) self.old.store commands) }
        ensures { Commits (D.state disk.old) (D.state disk.new) self.old
            (rolled (keys_of self.old) name (row_of (keys_of self.old) name) material 0) result
            self.new }
    {
        let command = KeyCommand::Roll {
            birth: key.birth,
            number: key.versions,
            material,
        };
        match self.store.commit(self.alloc, disk, command) {
            Err(StoreRefusal::NoMemory) => KmsReply::Refused(KmsRefusal::NoMemory),
            Err(StoreRefusal::StoreFault) => KmsReply::Refused(KmsRefusal::StoreFault),
            Ok(()) => {
                self.queues.drain(key.birth);
                version_with_material(name, key.versions, material)
            }
        }
    }

    fn delete<D: Disk>(&mut self, disk: &mut D, name: KeyName) -> KmsReply
        requires stands { Tells (D.state disk.old) →
            ((commands : List KeyCommand) ×
            IsKeyStoreOf (D.state disk.old) self.old.store commands) }
        ensures { (words : ℕ → ℕ) (now : ℕ) →
            KmsActsOnDisk (D.state disk.old) (D.state disk.new) self.old words now
            (KmsCall.Delete name) result self.new words }
    {
        match self.settle(disk) {
            Err(_) => KmsReply::Refused(KmsRefusal::StoreFault),
            Ok(()) => self.delete_settled(disk, name),
        }
    }

    /// Deletes a key. No command may be pending.
    fn delete_settled<D: Disk>(&mut self, disk: &mut D, name: KeyName) -> KmsReply
        requires settled { self.old.store.pending ≡ None }
        requires stands { Tells (D.state disk.old) →
            ((commands : List KeyCommand) ×
            IsKeyStoreOf (D.state disk.old) self.old.store commands) }
        ensures { (words : ℕ → ℕ) (now : ℕ) →
            ActsSettled (D.state disk.old) (D.state disk.new) self.old words now
            (KmsCall.Delete name) result self.new words }
    {
        let Some(key) = self.standing(&name) else {
            return KmsReply::Refused(KmsRefusal::NoSuchKey);
        };
        self.remove(disk, key.birth)
    }

    /// Deletes the key with this birth, which must exist.
    fn remove<D: Disk>(&mut self, disk: &mut D, birth: u64) -> KmsReply
        requires born { is_some (find_birth self.old.store.table.keys.rows birth) ≡ true }
        requires settled { self.old.store.pending ≡ None }
        requires stands { Tells (D.state disk.old) →
            ((commands : List KeyCommand) ×
            IsKeyStoreOf (D.state disk.old) self.old.store commands) }
        ensures { Commits (D.state disk.old) (D.state disk.new) self.old
            (deleted (keys_of self.old) birth) result self.new }
    {
        let command = KeyCommand::Delete { birth };
        match self.store.commit(self.alloc, disk, command) {
            Err(StoreRefusal::NoMemory) => KmsReply::Refused(KmsRefusal::NoMemory),
            Err(StoreRefusal::StoreFault) => KmsReply::Refused(KmsRefusal::StoreFault),
            Ok(()) => {
                self.queues.drop_queue(birth);
                KmsReply::Done
            }
        }
    }

    /// Returns the key with this name, if there is one.
    fn key(&self, name: &KeyName) -> Option<&IndexRow>
        ensures { MatchOption result (row_of (keys_of self.now) name.now ≡ None)
            (λ row. IsRowOf self.now.store.table.keys (row_of (keys_of self.now) name.now) row.now) }
    {
        self.store.find(name)
    }

    /// Drops the ready keys of a key.
    fn invalidate(&mut self, name: KeyName) -> KmsReply
        ensures { (words : ℕ → ℕ) (now : ℕ) →
            WorksOnQueues self.old words now (KmsCall.Invalidate name) result self.new words }
    {
        let Some(row) = self.key(&name) else {
            return KmsReply::Refused(KmsRefusal::NoSuchKey);
        };
        let birth = row.birth;
        self.queues.drain(birth);
        KmsReply::Done
    }

    fn metadata(&self, name: KeyName) -> KmsReply
        ensures { Answers (keys_of self.now) (KmsCall.Metadata name)
            (KmsReply.Metadata (meta_of name (row_of (keys_of self.now) name))) result }
    {
        match self.meta(&name) {
            Err(why) => KmsReply::Refused(why),
            Ok(known) => KmsReply::Metadata(known),
        }
    }

    /// Answers with the metadata of a key.
    fn meta(&self, name: &KeyName) -> Result<KeyMeta, KmsRefusal>
        ensures { MatchResult result
            (λ known. (is_absent (keys_of self.now) name.now ≡ false) ×
            (known ≡ meta_of name.now (row_of (keys_of self.now) name.now)))
            (λ why.
            MatchBool (is_absent (keys_of self.now) name.now) (why ≡ KmsRefusal.NoSuchKey)
            (why ≡ KmsRefusal.NoMemory)) }
    {
        let Some(row) = self.key(name) else {
            return Err(KmsRefusal::NoSuchKey);
        };
        let known = meta(self.alloc, row)?;
        Ok(known)
    }

    fn metadatas(&self, names: NameList) -> KmsReply
        ensures { Answers (keys_of self.now) (KmsCall.Metadatas names)
            (KmsReply.Metadatas (metas_of (keys_of self.now) names)) result }
    {
        if self.lacks_any(names.as_slice()) {
            return KmsReply::Refused(KmsRefusal::NoSuchKey);
        }
        match self.metas(names.as_slice()) {
            Err(why) => KmsReply::Refused(why),
            Ok(known) => KmsReply::Metadatas(known),
        }
    }

    fn lacks_any(&self, names: &[KeyName]) -> bool
        ensures { result ≡ list_any (is_absent (keys_of self.now)) names.now }
    {
        names.iter().any(|name| self.key(name).is_none())
    }

    /// Returns the metadata of existing keys, in the order requested.
    fn metas(&self, names: &[KeyName]) -> Result<MetaList, KmsRefusal>
        requires { list_any (is_absent (keys_of self.now)) names.now ≡ false }
        ensures { MatchResult result (λ known. known ≡ metas_of (keys_of self.now) names.now)
            (λ why. why ≡ KmsRefusal.NoMemory) }
    {
        let mut known = MetaList::with_room(self.alloc, names.len())?;
        for name in names {
            let meta = self.meta(name)?;
            known.push(meta)?;
        }
        Ok(known)
    }

    fn names(&self) -> KmsReply
        ensures { Answers (keys_of self.now) KmsCall.Names
            (KmsReply.Names (names_in_order (keys_of self.now).table.rows)) result }
    {
        match self.store.names() {
            Err(NoMemory) => KmsReply::Refused(KmsRefusal::NoMemory),
            Ok(names) => KmsReply::Names(names),
        }
    }

    fn current_version(&self, name: KeyName) -> KmsReply
        ensures { Answers (keys_of self.now) (KmsCall.Current name)
            (KmsReply.Version (current_version (row_of (keys_of self.now) name))
            (Some (current_material (keys_of self.now) name))) result }
    {
        match self.current(&name) {
            None => KmsReply::Refused(KmsRefusal::NoSuchKey),
            Some(current) => KmsReply::Version {
                version: current.version,
                material: Some(current.material),
            },
        }
    }

    fn versions<D: Disk>(&mut self, disk: &mut D, name: KeyName) -> KmsReply
        requires held { Tells (D.state disk.old) → HasMaterials (D.state disk.old) self.old.store }
        ensures { (words : ℕ → ℕ) (now : ℕ) →
            KmsActsOnDisk (D.state disk.old) (D.state disk.new) self.old words now
            (KmsCall.Versions name) result self.new words }
    {
        match self.all_versions(disk, &name) {
            Err(why) => KmsReply::Refused(why),
            Ok(all) => KmsReply::Versions(all),
        }
    }

    fn version<D: Disk>(&mut self, disk: &mut D, version: VersionName) -> KmsReply
        requires held { Tells (D.state disk.old) → HasMaterials (D.state disk.old) self.old.store }
        ensures { (words : ℕ → ℕ) (now : ℕ) →
            KmsActsOnDisk (D.state disk.old) (D.state disk.new) self.old words now
            (KmsCall.Version version) result self.new words }
    {
        match self.version_material(disk, &version) {
            Err(why) => KmsReply::Refused(why),
            Ok(material) => KmsReply::Version { version, material },
        }
    }

    fn generate<W: Words>(&mut self, words: &mut W, name: KeyName, count: u32) -> KmsReply
        ensures { (now : ℕ) →
            WorksOnQueues self.old (W.to_come words.old) now (KmsCall.Generate name count) result self.new
            (W.to_come words.new) }
    {
        let Some(current) = self.current(&name) else {
            return KmsReply::Refused(KmsRefusal::NoSuchKey);
        };
        if count > MOST_ASKED {
            return KmsReply::Refused(KmsRefusal::TooManyAsked);
        }
        match hand_out(self.alloc, words, &mut self.queues, &current, count) {
            Err(NoMemory) => KmsReply::Refused(KmsRefusal::NoMemory),
            Ok(keys) => KmsReply::Ready(keys),
        }
    }

    /// Returns a ticket for sealing ready keys for the lowest queue, if a queue is low.
    pub fn ticket(&self) -> Option<Ticket>
        ensures { result ≡ ticket_of (keys_of self.now) }
    {
        let birth = self.queues.low()?;
        let row = self.store.with_birth(birth)?;
        let key = row.name;
        let number = (row.versions.saturating_sub(1)) as u16;
        Some(Ticket {
            opening: self.store.opening(),
            birth,
            version: VersionName { key, number },
            material: row.current,
            wanted: self.queues.room(birth),
        })
    }

    /// Puts a ready key into the queue of its key, unless there is no room for it.
    pub fn deposit(&mut self, sealed: Sealed) -> Deposit
        ensures answer { result ≡ deposit_answer (keys_of self.old) sealed }
        ensures queues { self.new ≡
            record self.old { ready = queues_with self.old.ready sealed result } }
    {
        let _ = self.count();
        if !self.is_present(&sealed) {
            return self.stale(&sealed);
        }
        if !self.has_queue(&sealed) {
            return Deposit::Full;
        }
        self.put(&sealed)
    }

    /// Returns whether the key of a sealed key has a queue.
    fn has_queue(&self, sealed: &Sealed) -> bool
        ensures { result ≡ has_queue self.now.ready.queues sealed.now.birth }
    {
        self.queues.has(sealed.birth)
    }

    /// Puts a ready key whose opening, birth and version are current into its queue.
    fn put(&mut self, sealed: &Sealed) -> Deposit
        requires present { is_present (keys_of self.old) sealed.now ≡ true }
        requires queue { has_queue self.old.ready.queues sealed.now.birth ≡ true }
        requires key { IsOfNewest (keys_of self.old) sealed.now }
        ensures answer { result ≡ deposit_answer (keys_of self.old) sealed.now }
        ensures queues { self.new ≡
            record self.old { ready = queues_with self.old.ready sealed.now result } }
    {
        match self.queues.put(sealed.birth, sealed.edek()) {
            Ok(()) => Deposit::Kept,
            Err(_) => Deposit::Full,
        }
    }

    /// Returns whether the opening, the birth and the version of a sealed key are the current ones.
    fn is_present(&self, sealed: &Sealed) -> bool
        ensures { result ≡ is_present (keys_of self.now) sealed.now }
    {
        let opening = self.store.opening();
        let Some(row) = self.key(&sealed.version.key) else {
            return false;
        };
        let same_birth = sealed.birth == row.birth;
        let newest = sealed.version.number as u32 == row.versions.saturating_sub(1);
        let same_opening = sealed.opening == opening;
        same_birth && newest && same_opening
    }

    /// Answers with the current opening, and the current birth and version of the key.
    fn stale(&self, sealed: &Sealed) -> Deposit
        ensures { result ≡
            stale_for (keys_of self.now) (row_of (keys_of self.now) sealed.now.version.key) }
    {
        let opening = self.store.opening();
        match self.key(&sealed.version.key) {
            None => Deposit::Stale {
                opening,
                birth: 0,
                number: 0,
            },
            Some(row) => Deposit::Stale {
                opening,
                birth: row.birth,
                number: row.versions.saturating_sub(1) as u16,
            },
        }
    }

    /// Returns the current version of a key with its material, or `None` if there is no such key.
    fn current(&self, name: &KeyName) -> Option<CurrentVersion>
        ensures { MatchOption result (is_none (row_of (keys_of self.now) name.now) ≡ true)
            (IsCurrent (keys_of self.now) name.now) }
    {
        let key = self.known(name)?;
        Some(newest(&key))
    }

    fn decrypt<D: Disk>(&mut self, disk: &mut D, name: KeyName, sent: RawEdek) -> KmsReply
        requires held { Tells (D.state disk.old) → HasMaterials (D.state disk.old) self.old.store }
        ensures { (words : ℕ → ℕ) (now : ℕ) →
            KmsActsOnDisk (D.state disk.old) (D.state disk.new) self.old words now
            (KmsCall.Decrypt name sent) result self.new words }
    {
        match self.unsealed(disk, &name, &sent) {
            Err(why) => KmsReply::Refused(why),
            Ok(key) => KmsReply::Key(key),
        }
    }

    fn reencrypt<D: Disk>(&mut self, disk: &mut D, name: KeyName, sent: RawEdek) -> KmsReply
        requires held { Tells (D.state disk.old) → HasMaterials (D.state disk.old) self.old.store }
        ensures { (words : ℕ → ℕ) (now : ℕ) →
            KmsActsOnDisk (D.state disk.old) (D.state disk.new) self.old words now
            (KmsCall.Reencrypt name sent) result self.new words }
    {
        match self.resealed(disk, &name, &sent) {
            Err(why) => KmsReply::Refused(why),
            Ok(key) => KmsReply::Resealed(key),
        }
    }

    fn batch<D: Disk>(&mut self, disk: &mut D, name: KeyName, sent: RawEdekList) -> KmsReply
        requires held { Tells (D.state disk.old) → HasMaterials (D.state disk.old) self.old.store }
        ensures { (words : ℕ → ℕ) (now : ℕ) →
            KmsActsOnDisk (D.state disk.old) (D.state disk.new) self.old words now
            (KmsCall.Batch name sent) result self.new words }
    {
        match self.reseal_all(disk, &name, sent.as_slice()) {
            Err(why) => KmsReply::Refused(why),
            Ok(keys) => KmsReply::Ready(keys),
        }
    }
}

/// Answers with a version and its material.
fn version_with_material(key: KeyName, number: u16, material: Dek) -> KmsReply
    ensures { result ≡ version_with_material key number material }
{
    KmsReply::Version {
        version: VersionName { key, number },
        material: Some(material),
    }
}
