//! All keys, of which memory keeps the index.
ghost use Rattle.std.specs.Prelude.{◌≡◌, ℕ, ◌≤◌, IfOk, IsOk, IsTrue, MatchOption, OnErr, OnOk, is_some, length};
ghost use Rattle.key_rows.specs.Names.{AreNames};
ghost use Rattle.key_rows.specs.Sound.{IsKeyTable};
ghost use Rattle.key_rows.specs.Table.{after, applies, find_birth, find_name, need, no_keys};
ghost use Rattle.key_index.specs.Index.{after_at, no_index, place_of};
ghost use Rattle.key_index.specs.Sound.{IsSoundIndex};
ghost use Rattle.kms_store.specs.Keys.{place_before};
ghost use Rattle.kms_store.specs.Store.{IsRowOf, is_older};

use ghost_value::{Ghost, Gives};
use hk_base::{KeyName, NoMemory, VersionName};
use key_index::{IndexRow, KeyIndex, material_len};
use key_rows::{KeyCommand, KeyTable};
use kms_calls::NameList;
use std::alloc::Global;
use std::marker::Model;
use std::mem;

/// All keys. Memory has their index, and clauses see the whole table beside it.
#[derive(Drop)]
pub(crate) struct Keys {
    whole: Ghost<KeyTable>,
    index: KeyIndex,
}

impl Model for Keys {
    ghost use Rattle.key_index.specs.Index.{Materials};
    ghost use Rattle.kms_store.specs.Keys.{KeysState};
    ghost use Rattle.kms_store.specs.Store.{StandsFor};

    ghost Value = { KeysState };

    ghost view = { λ a. record { index = a.index; table = a.whole.value.keys } };

    ghost invariant = { λ a. (older : Materials) ×
        StandsFor older a.index.index a.whole.value.keys };
}

/// A command that is applied to a table.
struct Applied {
    whole: Ghost<KeyTable>,
    command: KeyCommand,
}

/// The table without keys.
struct Nothing;

impl Gives<(), KeyTable> for Nothing {
    ghost value = { λ _. record { keys = no_keys; spare = 0 } };
}

/// The table after a command.
struct After;

impl Gives<Applied, KeyTable> for After {
    ghost value = { λ a. record { keys = after a.whole.value.keys a.command; spare = 0 } };
}

impl Keys {
    /// Creates a table without keys, before any opening. Does not allocate.
    pub(crate) fn new(alloc: Global) -> Keys
        ensures table { result.table ≡ no_keys }
        ensures index { result.index.index ≡ no_index }
    {
        Keys {
            index: KeyIndex::new(alloc),
            whole: Ghost::of::<(), Nothing>(&()),
        }
    }

    /// Returns the index.
    pub(crate) fn index(&self) -> &KeyIndex
        ensures index { result.now ≡ self.now.index }
        ensures table { IsKeyTable self.now.table }
    {
        let _ = self.index.opening(); // says that the table keeps its rules
        &self.index
    }

    /// Returns the last opening, or 0 if there was none.
    pub(crate) fn opening(&self) -> u32
        ensures opening { result ≡ self.now.table.opening }
        ensures table { IsKeyTable self.now.table }
    {
        self.index.opening()
    }

    /// Returns the number of keys.
    pub(crate) fn count(&self) -> u32
        ensures count { result ≡ length self.now.table.rows }
        ensures table { IsKeyTable self.now.table }
    {
        let _ = self.index.opening(); // says that the table keeps its rules
        self.index.count()
    }

    /// Returns the key with this name. Does not allocate.
    pub(crate) fn find(&self, name: &KeyName) -> Option<&IndexRow>
        ensures { MatchOption result (find_name self.now.table.rows name.now ≡ None)
            (λ row. IsRowOf self.now.table (find_name self.now.table.rows name.now) row.now) }
    {
        self.index.find(name)
    }

    /// Returns the key with this birth. Does not allocate.
    pub(crate) fn with_birth(&self, birth: u64) -> Option<&IndexRow>
        ensures { MatchOption result (find_birth self.now.table.rows birth ≡ None)
            (λ row. IsRowOf self.now.table (find_birth self.now.table.rows birth) row.now) }
    {
        let _ = self.index.opening(); // says that the table keeps its rules
        self.index.with_birth(birth)
    }

    /// Returns the names of all keys in byte order, or `NoMemory` if allocation fails.
    pub(crate) fn names(&self) -> Result<NameList, NoMemory>
        ensures { IfOk result (AreNames self.now.table.rows) }
    {
        self.index.names()
    }

    /// Returns the offset of the material of a version in the key log, if it is not the current one.
    pub(crate) fn place(&self, version: &VersionName) -> Option<u64>
        ensures place { result ≡ place_of self.now.index.index.rows version.now }
        ensures older { is_some result ≡ is_older self.now.table version.now }
        ensures sound { IsSoundIndex self.now.index.index }
    {
        let _ = self.index.opening(); // says that the rows are sound
        self.index.place(version)
    }

    /// Returns whether a command applies.
    pub(crate) fn applies(&self, command: &KeyCommand) -> bool
        ensures { result ≡ applies self.now.table command.now }
    {
        self.index.applies(command)
    }

    /// Reserves the memory that a command needs, as `KeyIndex::reserve_apply` does.
    pub(crate) fn reserve_apply(&mut self, command: &KeyCommand) -> Result<(), NoMemory>
        ensures index { self.new.index.index ≡ self.old.index.index }
        ensures table { self.new.table ≡ self.old.table }
        ensures room { OnOk result (need command.now ≤ self.new.index.spare) }
    {
        self.index.reserve_apply(command)
    }

    /// Applies a command whose record ends at this offset of the key log. Returns `NoMemory` if
    /// allocation fails; the keys are then unchanged. Returns `Ok` if the reserved capacity is enough.
    pub(crate) fn apply(&mut self, command: KeyCommand, end: u64) -> Result<(), NoMemory>
        requires { IsTrue (applies self.old.table command) }
        ensures sound { IsSoundIndex self.old.index.index }
        ensures table { OnOk result (self.new.table ≡ after self.old.table command) }
        ensures index { OnOk result
            (self.new.index.index ≡
            after_at self.old.index.index command (place_before end command)) }
        ensures err { OnErr result
            ((self.new.table ≡ self.old.table) × (self.new.index.index ≡ self.old.index.index)) }
        ensures room { need command ≤ self.old.index.spare → IsOk result }
    {
        let _ = self.index.opening(); // says that the rows are sound
        let place = end.saturating_sub(material_len(&command) as u64);
        let applied = Applied {
            whole: mem::replace(&mut self.whole, Ghost::of::<(), Nothing>(&())),
            command,
        };
        let whole = Ghost::of::<Applied, After>(&applied);
        let Applied {
            whole: before,
            command,
        } = applied;
        match self.index.apply(command, place) {
            Ok(()) => {
                self.whole = whole;
                Ok(())
            }
            Err(why) => {
                self.whole = before;
                Err(why)
            }
        }
    }
}
