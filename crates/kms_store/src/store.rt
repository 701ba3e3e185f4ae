//! A store over a key log.
use crate::KEYS;
use crate::keys::Keys;
use crate::replay::replay;
use frame_log::{Log, LogFault, StartFault, StoreRefusal};
use hk_base::{ByteList, Dek, Disk, Failed, KeyName, NoMemory, VersionName};
use key_index::{IndexRow, KeyIndex, MaterialCache, MaterialKey, read_material};
use key_rows::KeyCommand;
use kms_calls::NameList;
use std::alloc::Global;
use std::marker::Model;
use std::num::NonZeroUsize;

/// The table of keys, and the log on file 0 of a disk from which it can be rebuilt.
///
/// Memory has all keys with their current materials. An older material is read from its place in the
/// log when it is needed, and kept in a cache of those that were needed last.
///
/// If a commit ends with a store fault, its command is pending: the disk may or may not hold its
/// record, and the table is unchanged. The next call that changes keys settles it first.
#[derive(Drop)]
pub struct Store {
    pub(crate) log: Log,
    pub(crate) keys: Keys,
    pub(crate) cache: MaterialCache,
    pub(crate) pending: Option<KeyCommand>,
}

impl Model for Store {
    ghost use Rattle.std.specs.Prelude.{◌≡◌, ◌≤◌, true, IfSome};
    ghost use Rattle.key_rows.specs.Table.{applies, need};
    ghost use Rattle.kms_store.specs.Store.{StoreState, WaitTogether};

    ghost Value = { StoreState };

    ghost view = { λ a.
        record {
          log = a.log;
          table = record { keys = a.keys.table; spare = a.keys.index.spare };
          index = a.keys.index.index;
          cache = a.cache.entries;
          pending = a.pending;
        } };

    ghost invariant = { λ a. (a.log.file ≡ 0) × WaitTogether a.pending a.log.unsettled ×
        IfSome a.pending
        (λ command. (applies a.keys.table command ≡ true) ×
        (need command ≤ a.keys.index.spare)) };
}

impl Store {
    ghost use Rattle.std.specs.Prelude.{◌≡◌, ◌≤◌, ◌<◌, ◌+◌, ◌*◌, ◌/◌, ◌^◌, ◌⊎◌, ◌++◌, [], ◌∷◌, ℕ, List, Option, Some, None, Ok, IsTrue, false, IsSome, IsOk, IsErr, IfOk, IfSome, OnOk, OnErr, IsErrOf, MatchOption, length, map, option_map};
    ghost use Rattle.std.specs.Option.{option_copied};
    ghost use Rattle.hk_base.specs.Disk.{Tells, RunOn, LeavesOnly};
    ghost use Rattle.hk_base.specs.Faults.{Rose};
    ghost use Rattle.frame_log.specs.declared.fault.StoreRefusal.TheVariants as store;
    ghost use Rattle.frame_log.specs.declared.fault.StartFault.TheVariants as start;
    ghost use Rattle.key_rows.specs.Names.{AreNames};
    ghost use Rattle.key_rows.specs.Sound.{IsKeyTable};
    ghost use Rattle.key_rows.specs.Table.{Table, applies, after, find_birth, find_name, material_of};
    ghost use Rattle.key_rows.specs.declared.rows.KeyCommand.{KeyCommand};
    ghost use Rattle.kms_store.specs.Keys.{store_of};
    ghost use Rattle.kms_store.specs.Replay.{HasRoomForBirths};
    ghost use Rattle.kms_store.specs.Store.{Applies, DropsUnlessGateSet, HasMaterials, IsKeyStoreOf, IsRowOf, IsWithOrWithout, IsWritten, IsKeyLog, KeepsIfGateSet, OpensKeys, ReadsMaterials, SettlesKeys, is_older, next_opening};

    /// Opens the key log of a disk, builds the table from its commands, and commits the record of a
    /// new opening. A crash may stop it at any moment; a later start then works as usual. At most
    /// `cache` older materials are kept in memory, or one if it is 0.
    ///
    /// Returns `Damaged` exactly if the file is not a log, or a record encodes no command or one
    /// that doesn't apply, with the offset of its gate. Returns `Spent` exactly if opening
    /// 4,294,967,295 is recorded.
    pub fn start<D: Disk>(alloc: Global, disk: &mut D, cache: u16) -> Result<Store, StartFault>
        ensures log { IfOk result
            (λ store. Tells (D.state disk.old) → ((commands : List KeyCommand) × (table : Table)
            × IsKeyLog ((D.state disk.old).reads 0) commands table
            × IsKeyStoreOf (D.state disk.new) store (commands ++ next_opening table ∷ []))) }
        ensures opened { IfOk result
            (λ store. (store.pending ≡ None) ×
            (store.table.keys.greatest < store.table.keys.opening * 2 ^ 32)) }

        // A crash at any moment leaves what it might have left before, or the log found, as it is
        // or with its end gate read as 1, or its commands with or without the new opening. After the
        // first sync of the call a crash leaves only the latter. If that sync failed, nothing was written.
        ensures opens { OpensKeys (D.state disk.old) (D.state disk.new)
            (λ fault. IsErrOf result fault) }
    {
        let (log, mut records) = Log::recover_records(alloc, disk, KEYS)?;
        let keys = replay(alloc, disk, &mut records)?;
        Store::open(alloc, disk, log, keys, cache)
    }

    /// Records a new opening after the commands that make these keys.
    fn open<D: Disk>(
        alloc: Global,
        disk: &mut D,
        log: Log,
        keys: Keys,
        cache: u16,
    ) -> Result<Store, StartFault>
        requires file { log.file ≡ 0 }
        requires settled { log.unsettled ≡ None }
        requires births { HasRoomForBirths keys.table }
        requires stands { Tells (D.state disk.old) →
            ((commands : List KeyCommand) ×
            IsKeyStoreOf (D.state disk.old) (store_of log keys) commands) }

        ensures log { IfOk result
            (λ store. Tells (D.state disk.old) → (commands : List KeyCommand) →
            IsKeyStoreOf (D.state disk.old) (store_of log keys) commands
            → IsKeyStoreOf (D.state disk.new) store (commands ++ next_opening keys.table ∷ [])) }
        ensures opened { IfOk result
            (λ store. (store.pending ≡ None) ×
            (store.table.keys.greatest < store.table.keys.opening * 2 ^ 32)) }
        ensures damaged { (at : ℕ) → IsErrOf result (start.Damaged at) → ⊥ }
        ensures spent { IsErrOf result start.Spent → keys.table.opening ≡ 4294967295 }
        ensures moments { Tells (D.state disk.old) → (commands : List KeyCommand) →
            IsKeyStoreOf (D.state disk.old) (store_of log keys) commands
            → LeavesOnly 0 (D.state disk.old) (D.state disk.new)
            (IsWritten commands (next_opening keys.table)) }
        ensures run { RunOn 0 (D.state disk.old) (D.state disk.new) }
        ensures cause { IsErrOf result start.StoreFault →
            Rose (D.state disk.old).faults (D.state disk.new).faults }
    {
        let opening = keys.opening();
        if opening == u32::MAX {
            return Err(StartFault::Spent);
        }
        let size = NonZeroUsize::new(cache as usize).unwrap_or(NonZeroUsize::MIN);
        let cache = MaterialCache::new(alloc, size)?;
        let mut store = Store {
            log,
            keys,
            cache,
            pending: None,
        };
        let next = KeyCommand::Opened {
            opening: opening + 1,
        };
        match store.commit(alloc, disk, next) {
            Ok(()) => Ok(store),
            Err(StoreRefusal::StoreFault) => Err(StartFault::StoreFault),
            Err(StoreRefusal::NoMemory) => Err(StartFault::NoMemory),
        }
    }

    /// Writes a command to the log and then applies it to the table. Allocates everything before it
    /// writes to the log: after `NoMemory` nothing has changed. After `StoreFault` the command is
    /// pending and the table is unchanged.
    pub fn commit<D: Disk>(
        &mut self,
        alloc: Global,
        disk: &mut D,
        command: KeyCommand,
    ) -> Result<(), StoreRefusal>
        requires settled { self.old.pending ≡ None }
        requires applies { IsTrue (applies self.old.table.keys command) }
        requires stands { Tells (D.state disk.old) →
            ((commands : List KeyCommand) × IsKeyStoreOf (D.state disk.old) self.old commands) }

        ensures table { OnOk result
            ((self.new.table.keys ≡ after self.old.table.keys command) ×
            (self.new.pending ≡ None)) }
        ensures committed { OnOk result
            (Tells (D.state disk.old) → (commands : List KeyCommand) →
            IsKeyStoreOf (D.state disk.old) self.old commands
            → IsKeyStoreOf (D.state disk.new) self.new (commands ++ command ∷ [])) }

        ensures pending { IsErrOf result store.StoreFault →
            (self.new.table.keys ≡ self.old.table.keys) × (self.new.pending ≡ Some command) }
        ensures memory { IsErrOf result store.NoMemory →
            (self.new.table.keys ≡ self.old.table.keys) × (self.new.log ≡ self.old.log) ×
            (self.new.pending ≡ None) × (disk.new ≡ disk.old) }
        ensures refused { OnErr result
            (Tells (D.state disk.old) → (commands : List KeyCommand) →
            IsKeyStoreOf (D.state disk.old) self.old commands
            → IsKeyStoreOf (D.state disk.new) self.new commands) }

        // A crash at any moment of the call leaves the commands from before it, with or without the
        // new one.
        ensures any_moment { Tells (D.state disk.old) → (commands : List KeyCommand) →
            IsKeyStoreOf (D.state disk.old) self.old commands
            → LeavesOnly 0 (D.state disk.old) (D.state disk.new) (IsWritten commands command) }

        ensures run { RunOn 0 (D.state disk.old) (D.state disk.new) }
        ensures cause { IsErrOf result store.StoreFault →
            Rose (D.state disk.old).faults (D.state disk.new).faults }
    {
        self.keys.reserve_apply(&command)?;
        let mut record = ByteList::new(alloc);
        command.write(&mut record)?;
        match self.log.append(alloc, disk, record.as_slice()) {
            Ok(_) => {
                let end = self.log.end;
                self.keys.apply(command, end)?;
                return Ok(());
            }
            Err(LogFault::StoreFault) => {
                self.pending = Some(command);
                return Err(StoreRefusal::StoreFault);
            }
            Err(LogFault::NoMemory) => return Err(StoreRefusal::NoMemory),
            // An append never returns `Damaged`.
            Err(LogFault::Damaged { .. }) => unreachable!(),
        }
    }

    /// Settles the pending command. It takes effect in full if the gate byte before its record
    /// reads 1 after a sync, and is dropped otherwise. Returns whether it took effect. If no command
    /// is pending, nothing happens.
    /// After `StoreFault`, the only error, the command is still pending. The commit has allocated
    /// the memory.
    pub fn settle<D: Disk>(&mut self, disk: &mut D) -> Result<bool, StoreRefusal>
        requires stands { Tells (D.state disk.old) →
            ((commands : List KeyCommand) × IsKeyStoreOf (D.state disk.old) self.old commands) }

        ensures nothing { self.old.pending ≡ None →
            (result ≡ Ok false) × (self.new ≡ self.old) × (disk.new ≡ disk.old) }
        ensures settled { OnOk result (self.new.pending ≡ None) }
        ensures settles { IfOk result
            (SettlesKeys (D.state disk.old) (D.state disk.new) self.old self.new) }
        ensures table { OnOk result ((self.new.table.keys ≡ self.old.table.keys)
            ⊎ ((command : KeyCommand) × (self.old.pending ≡ Some command) ×
            (self.new.table.keys ≡ after self.old.table.keys command))) }
        ensures kept { OnOk result
            (KeepsIfGateSet (D.state disk.old) (D.state disk.new) self.old self.new) }
        ensures dropped { OnOk result
            (DropsUnlessGateSet (D.state disk.old) (D.state disk.new) self.old self.new) }
        ensures still_pending { OnErr result (self.new ≡ self.old) }
        ensures refused { OnErr result
            (Tells (D.state disk.old) → (commands : List KeyCommand) →
            IsKeyStoreOf (D.state disk.old) self.old commands
            → IsKeyStoreOf (D.state disk.new) self.new commands) }
        ensures fault { IsErr result → IsErrOf result store.StoreFault }

        // A crash at any moment of the call leaves the commands from before it, with or without the
        // pending one.
        ensures any_moment { Tells (D.state disk.old) →
            (commands : List KeyCommand) (command : KeyCommand) →
            IsKeyStoreOf (D.state disk.old) self.old commands → self.old.pending ≡ Some command
            → LeavesOnly 0 (D.state disk.old) (D.state disk.new)
            (IsWithOrWithout commands command) }

        ensures run { RunOn 0 (D.state disk.old) (D.state disk.new) }
        ensures cause { OnErr result (Rose (D.state disk.old).faults (D.state disk.new).faults) }
    {
        if self.pending.is_none() {
            return Ok(false);
        }
        let kept = match self.log.settle(disk) {
            Ok(kept) => kept,
            Err(_) => return Err(StoreRefusal::StoreFault),
        };
        if let Some(command) = self.pending.take() {
            if kept {
                let end = self.log.end;
                self.keys.apply(command, end)?;
            }
        }
        Ok(kept)
    }

    /// Returns the material of an existing version of the key with this birth. The current one is in
    /// memory; an older one is in the cache, or is read from the log. Fails only if the disk does, and
    /// changes no more than the cache. If there is no memory for the cache, it stays as it was.
    pub fn material<D: Disk>(
        &mut self,
        disk: &mut D,
        version: &VersionName,
        birth: u64,
    ) -> Result<Dek, Failed>
        requires exists { IsSome (material_of self.old.table.keys.rows version.now) }
        requires birth { IfSome (find_name self.old.table.keys.rows version.now.key)
            (λ key. key.birth ≡ birth) }
        requires held { Tells (D.state disk.old) → HasMaterials (D.state disk.old) self.old }

        ensures given { IfOk result
            (λ material. (IsTrue (is_older self.old.table.keys version.now) →
            Tells (D.state disk.old))
            → material_of self.old.table.keys.rows version.now ≡ Some material) }
        // Whatever the disk tells, it has the length of its key.
        ensures length { IfOk result
            (λ material. IfSome (find_name self.old.table.keys.rows version.now.key)
            (λ key. length material ≡ key.bits / 8)) }
        // The current material is not read from the disk.
        ensures current { is_older self.old.table.keys version.now ≡ false →
            IsOk result × (self.new ≡ self.old) × (disk.new ≡ disk.old) }
        // A crash at any moment of the call leaves the log as it is.
        ensures reads { ReadsMaterials (D.state disk.old) (D.state disk.new) self.old self.new }
        ensures cause { OnErr result (Rose (D.state disk.old).faults (D.state disk.new).faults) }
    {
        let Some(row) = self.keys.find(&version.key) else {
            unreachable!()
        };
        let Some(place) = self.keys.place(version) else {
            return Ok(row.current);
        };
        let len = row.bits as usize / 8;
        let number = version.number;
        let known = MaterialKey { birth, number };
        if let Some(material) = self.cache.get(known) {
            // Each entry has the length of its key. The test says so to the checker.
            if material.as_bytes().len() == len {
                return Ok(material);
            }
        }
        let material = read_material(disk, place, len)?;
        self.cache.put(known, material);
        Ok(material)
    }

    /// Returns the index of the keys that the acknowledged commands make.
    pub fn index(&self) -> &KeyIndex
        ensures index { result.now.index ≡ self.now.index }
        ensures table { IsKeyTable self.now.table.keys }
    {
        self.keys.index()
    }

    /// Returns the number of keys.
    pub fn count(&self) -> u32
        ensures count { result ≡ length self.now.table.keys.rows }
        ensures table { IsKeyTable self.now.table.keys }
    {
        self.keys.count()
    }

    /// Returns the key with this name. Does not allocate.
    pub fn find(&self, name: &KeyName) -> Option<&IndexRow>
        ensures { MatchOption result (find_name self.now.table.keys.rows name.now ≡ None)
            (λ row. IsRowOf self.now.table.keys (find_name self.now.table.keys.rows name.now)
            row.now) }
    {
        self.keys.find(name)
    }

    /// Returns the key with this birth. Does not allocate.
    pub fn with_birth(&self, birth: u64) -> Option<&IndexRow>
        ensures { MatchOption result (find_birth self.now.table.keys.rows birth ≡ None)
            (λ row. IsRowOf self.now.table.keys (find_birth self.now.table.keys.rows birth)
            row.now) }
    {
        self.keys.with_birth(birth)
    }

    /// Returns the names of all keys in byte order, or `NoMemory` if allocation fails.
    pub fn names(&self) -> Result<NameList, NoMemory>
        ensures { IfOk result (AreNames self.now.table.keys.rows) }
    {
        self.keys.names()
    }

    /// Returns the pending command, if there is one.
    pub fn pending(&self) -> Option<&KeyCommand>
        ensures { option_copied result ≡ self.now.pending }
    {
        self.pending.as_ref()
    }

    /// Returns the number of this opening. The pending command, if there is one, applies to the
    /// table.
    pub fn opening(&self) -> u32
        ensures opening { result ≡ self.now.table.keys.opening }
        ensures table { IsKeyTable self.now.table.keys }
        // The log is on file 0.
        ensures file { self.now.log.file ≡ 0 }
        ensures pending { Applies self.now.table.keys self.now.pending }
    {
        self.keys.opening()
    }
}
