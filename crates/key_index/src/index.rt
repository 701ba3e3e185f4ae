//! The index of keys.
ghost use Rattle.std.specs.Prelude.{◌≡◌, ◌+◌, ◌<◌, ◌≤◌, ◌^◌, ℕ, List, IsTrue, IfOk, IfSome, IsOk, OnErr, OnOk, Some, find, is_some, length, option_map, slice_get};
ghost use Rattle.std.specs.List.{HoldsAt};
ghost use Rattle.std.specs.Option.{option_copied};
ghost use Rattle.key_rows.specs.declared.rows.KeyCommand.TheVariants.{Delete, Roll};
ghost use Rattle.key_rows.specs.Names.{AreNames};
ghost use Rattle.key_rows.specs.Sound.{IsKeyTable};
ghost use Rattle.key_rows.specs.Table.{after, applies, current_of, find_birth, find_name, need};
ghost use Rattle.key_index.specs.Adding.{MayAddRow, index_since, with_placed};
ghost use Rattle.key_index.specs.Held.{AreHeld, HoldsMaterial, IsMaterialAt, has_older};
ghost use Rattle.key_index.specs.Index.{Materials, after_at, applies_at, is_born, is_named, materials_after, may_create_at, no_index, place_of, row_of, table_of, with_row};
ghost use Rattle.key_index.specs.Sound.{AllSized, IsIndexRow, IsSoundIndex};
ghost use Rattle.key_index.specs.Walk.{placed_from, with_at};

use crate::adding::{add, with_places};
use crate::applying::applies_to;
use crate::by_name::{NamedBirth, copy_names, remove_birth};
use crate::finding::{insert, place_at, remove, roll, row_at, row_of, with_place};
use crate::rows::{IndexRow, PlacedRow};
use crate::runs::PlaceRun;
use hk_base::{Dek, KeyName, NoMemory, VersionName};
use key_rows::KeyCommand;
use kms_calls::NameList;
use std::alloc::Global;
use std::marker::Model;
use std::mem;

/// All keys, in order of birth, each with its current material and, for each version, the offset of its
/// material in the file of the key log. It stands for the table of keys (`KeyTable`) of the same
/// commands, beside the materials of older versions, which it does not have: a clause that begins with
/// `(m : Materials)` holds for whatever materials these are. Contracts see the last opening, the
/// greatest birth that any key ever had, and the rows. They also see the capacity reserved for a command
/// (`spare`).
#[derive(Drop)]
pub struct KeyIndex {
    alloc: Global,
    opening: u32,
    greatest: u64,
    rows: Vec<PlacedRow>,
    names: Vec<NamedBirth>,
    ready: Vec<PlaceRun>,
}

impl Model for KeyIndex {
    ghost use Rattle.std.specs.Prelude.{◌≡◌, ◌&&◌, [], nat_lt, if◌then◌else◌};
    ghost use Rattle.std.specs.Vec.{vec_len, vec_capacity};
    ghost use Rattle.key_index.specs.Index.{KeptIndex};
    ghost use Rattle.key_index.specs.Sound.{AreNamed, IsSoundIndex};

    ghost Value = { KeptIndex };

    ghost view = { λ t.
        record {
          index = record { opening = t.opening; greatest = t.greatest; rows = t.rows.items };
          spare = if nat_lt (vec_len t.rows) (vec_capacity t.rows) &&
              nat_lt (vec_len t.names) (vec_capacity t.names) then vec_capacity t.ready else 0;
        } };

    ghost invariant = { λ t.
        IsSoundIndex (record { opening = t.opening; greatest = t.greatest; rows = t.rows.items }) ×
        AreNamed t.rows.items t.names.items × (t.ready.items ≡ []) };
}

/// Returns the number of runs of places to reserve before a command is applied: one for each version that
/// the key then has, which is enough wherever the materials are. If the log grows by less than 4 GiB from
/// each roll of a key to the next, a run has two places or more unless it is the last. So these runs last
/// until the key has about twice as many versions, and few rolls move them.
fn versions_of(command: &KeyCommand) -> usize
    ensures { need command.now ≤ result }
{
    match command {
        KeyCommand::Create { .. } => 1,
        KeyCommand::Roll { number, .. } => *number as usize + 1,
        KeyCommand::Opened { .. } => 0,
        KeyCommand::Delete { .. } => 0,
    }
}

impl KeyIndex {
    /// Creates an index without keys, before any opening. Does not allocate.
    pub fn new(alloc: Global) -> KeyIndex
        ensures { result.index ≡ no_index }
    {
        KeyIndex {
            alloc,
            opening: 0,
            greatest: 0,
            rows: Vec::new(alloc),
            names: Vec::new(alloc),
            ready: Vec::new(alloc),
        }
    }

    /// Creates an index without keys, after this last opening. `greatest` is the greatest birth that any
    /// key ever had, or 0. Does not allocate.
    pub fn since(alloc: Global, opening: u32, greatest: u64) -> KeyIndex
        ensures { result.index ≡ index_since opening greatest }
    {
        KeyIndex {
            alloc,
            opening,
            greatest,
            rows: Vec::new(alloc),
            names: Vec::new(alloc),
            ready: Vec::new(alloc),
        }
    }

    /// Returns the last opening, or 0 if there was none.
    pub fn opening(&self) -> u32
        ensures opening { result ≡ self.now.index.opening }
        ensures sound { IsSoundIndex self.now.index }
        ensures table { (m : Materials) → AllSized m self.now.index →
            IsKeyTable (table_of m self.now.index) }
    {
        self.opening
    }

    /// Returns the number of keys.
    pub fn count(&self) -> u32
        ensures { (m : Materials) → result ≡ length (table_of m self.now.index).rows }
    {
        self.rows.len() as u32
    }

    /// Returns the greatest birth that any key ever had, or 0 if there was none.
    pub fn greatest(&self) -> u64
        ensures { result ≡ self.now.index.greatest }
    {
        self.greatest
    }

    /// Returns the key of a number, from 0, in order of birth. The number must be below `count`. Does not
    /// allocate.
    pub fn row(&self, number: u32) -> &IndexRow
        requires { number < length self.now.index.rows }
        ensures row { HoldsAt (λ placed. result.now ≡ placed.row) self.now.index.rows number }
        ensures rules { IsIndexRow result.now }
    {
        &self.rows[number as usize].row
    }

    /// Returns the offset of the material of a version of the key of a number, also of its current one, in
    /// the file of the key log. The key must have the version. Does not allocate.
    pub fn place_in(&self, number: u32, version: u16) -> u64
        requires number { number < length self.now.index.rows }
        requires version { HoldsAt (λ placed. version < placed.row.versions) self.now.index.rows number }
        ensures { HoldsAt (λ placed. slice_get placed.places version ≡ Some result)
            self.now.index.rows number }
    {
        match self.rows[number as usize].places.get(version) {
            None => unreachable!(), // each version has a place
            Some(place) => place,
        }
    }

    /// Places the materials of the key of a number one after the other, from an offset on, which must be
    /// at most 2^62. The number must be below `count`. Does not allocate.
    pub fn place_row(&mut self, number: u32, first: u64)
        requires number { number < length self.old.index.rows }
        requires first { first ≤ 2 ^ 62 }
        ensures { HoldsAt
            (λ placed. self.new.index ≡ with_at self.old.index number (placed_from first placed))
            self.old.index.rows number }
    {
        place_at(&mut self.rows, number as usize, first);
    }

    fn named(&self, name: &KeyName) -> Option<&PlacedRow>
        ensures found { option_copied result ≡ find (is_named name.now) self.now.index.rows }
        ensures sound { IsSoundIndex self.now.index }
    {
        row_of(&self.rows, &self.names, name)
    }

    fn born(&self, birth: u64) -> Option<&PlacedRow>
        ensures found { option_copied result ≡ find (is_born birth) self.now.index.rows }
        ensures sound { IsSoundIndex self.now.index }
    {
        row_at(&self.rows, birth)
    }

    /// Returns the key with this name. Does not allocate.
    pub fn find(&self, name: &KeyName) -> Option<&IndexRow>
        ensures found { (m : Materials) →
            option_map (row_of m) (option_copied result) ≡
            find_name (table_of m self.now.index).rows name.now }
        ensures row { IfSome result (λ row. IsIndexRow row.now) }
        // No other key has this birth.
        ensures birth { (m : Materials) →
            IfSome result
            (λ row. find_birth (table_of m self.now.index).rows row.now.birth ≡
            Some (row_of m row.now)) }
        ensures table { (m : Materials) → AllSized m self.now.index →
            IsKeyTable (table_of m self.now.index) }
    {
        match self.named(name) {
            None => None,
            Some(placed) => Some(&placed.row),
        }
    }

    /// Returns the key with this birth. Does not allocate.
    pub fn with_birth(&self, birth: u64) -> Option<&IndexRow>
        ensures found { (m : Materials) →
            option_map (row_of m) (option_copied result) ≡
            find_birth (table_of m self.now.index).rows birth }
        ensures row { IfSome result (λ row. IsIndexRow row.now) }
    {
        match self.born(birth) {
            None => None,
            Some(placed) => Some(&placed.row),
        }
    }

    /// Returns the name of the key with this birth. Does not allocate.
    pub fn name_of(&self, birth: u64) -> Option<KeyName>
        ensures { (m : Materials) →
            result ≡
            option_map (λ row. row.name) (find_birth (table_of m self.now.index).rows birth) }
    {
        match self.with_birth(birth) {
            None => None,
            Some(row) => Some(row.name),
        }
    }

    /// Returns the names of all keys in byte order, or `NoMemory` if allocation fails.
    pub fn names(&self) -> Result<NameList, NoMemory>
        ensures { (m : Materials) → IfOk result (AreNames (table_of m self.now.index).rows) }
    {
        copy_names(self.alloc, &self.names)
    }

    /// Returns the current version of a key, which is its newest, or `None` if there is no such key. Does
    /// not allocate.
    pub fn current(&self, name: &KeyName) -> Option<VersionName>
        ensures { (m : Materials) →
            result ≡ option_map current_of (find_name (table_of m self.now.index).rows name.now) }
    {
        match self.find(name) {
            None => None,
            Some(row) => Some(VersionName {
                key: row.name,
                number: (row.versions - 1) as u16,
            }),
        }
    }

    /// Returns the offset of the material of a version in the file of the key log, if the version is not
    /// the current one of its key. Returns `None` exactly if there is no such key or version, or it is the
    /// current one. Does not allocate.
    pub fn place(&self, version: &VersionName) -> Option<u64>
        ensures place { result ≡ place_of self.now.index.rows version.now }
        ensures older { (m : Materials) →
            is_some result ≡
            has_older (find_name (table_of m self.now.index).rows version.now.key)
            version.now.number }
        // In a file that holds the materials, the version's material is there.
        ensures held { (m : Materials) (file : List ℕ) → AreHeld m file self.now.index
            → IfSome result
            (λ place. IsMaterialAt (table_of m self.now.index).rows version.now file place) }
    {
        self.older_place(version)
    }

    fn older_place(&self, version: &VersionName) -> Option<u64>
        ensures place { result ≡ place_of self.now.index.rows version.now }
        ensures sound { IsSoundIndex self.now.index }
    {
        match self.named(&version.key) {
            None => None,
            Some(placed) => placed.older_place(version.number),
        }
    }

    /// Adds a key that other commands made, with the places of its materials in order of number, the
    /// current one's last. Its name and birth must be new, its birth at most the greatest one, and fewer
    /// than 10,000 keys may be there. Returns `NoMemory` if allocation fails; the index is then unchanged.
    pub fn add_row(&mut self, row: IndexRow, places: &[u64]) -> Result<(), NoMemory>
        requires { MayAddRow self.old.index row places.now }
        ensures ok { OnOk result (self.new.index ≡ with_placed self.old.index row places.now) }
        ensures err { OnErr result (self.new.index ≡ self.old.index) }
    {
        let placed = with_places(self.alloc, row, places)?;
        add(&mut self.rows, &mut self.names, placed)?;
        Ok(())
    }

    /// Returns whether a command applies to the table, as `KeyTable::applies` does.
    pub fn applies(&self, command: &KeyCommand) -> bool
        ensures { (m : Materials) → result ≡ applies (table_of m self.now.index) command.now }
    {
        applies_to(
            self.opening,
            self.greatest,
            &self.rows,
            &self.names,
            command,
        )
    }

    /// Reserves the memory that a command needs. The keys are unchanged, even if allocation fails. After
    /// `Ok`, applying the command with any place returns `Ok` if it applies, as long as the index is not
    /// changed in between.
    pub fn reserve_apply(&mut self, command: &KeyCommand) -> Result<(), NoMemory>
        ensures keys { self.new.index ≡ self.old.index }
        ensures room { OnOk result (need command.now ≤ self.new.spare) }
    {
        let versions = versions_of(command);
        if versions == 0 {
            return Ok(());
        }
        let ready = Vec::with_capacity(self.alloc, versions)?;
        self.rows.reserve(1)?;
        self.names.reserve(1)?;
        self.ready = ready;
        Ok(())
    }

    /// Applies a command whose material is at this offset in the file of the key log; `place` is not read
    /// if the command has no material. Returns `NoMemory` if allocation fails; the index is then
    /// unchanged. Returns `Ok` if the reserved capacity is enough.
    ///
    /// A roll makes the material that was current one of the older materials: `materials_after`.
    pub fn apply(&mut self, command: KeyCommand, place: u64) -> Result<(), NoMemory>
        requires { (m : Materials) × IsTrue (applies (table_of m self.old.index) command) }
        ensures ok { OnOk result (self.new.index ≡ after_at self.old.index command place) }
        ensures table { OnOk result
            ((m : Materials) →
            table_of (materials_after m self.old.index command) self.new.index ≡
            after (table_of m self.old.index) command) }
        // A file that holds the materials, and the new one at its place, holds those of the new index.
        ensures held { OnOk result
            ((m : Materials) (file : List ℕ) → AreHeld m file self.old.index →
            HoldsMaterial file command place
            → AreHeld (materials_after m self.old.index command) file self.new.index) }
        ensures err { OnErr result (self.new.index ≡ self.old.index) }
        ensures room { need command ≤ self.old.spare → IsOk result }
    {
        let _ = self.opening(); // says that the rows are sound
        self.change(command, place)
    }

    fn change(&mut self, command: KeyCommand, place: u64) -> Result<(), NoMemory>
        requires { IsTrue (applies_at self.old.index command) }
        ensures ok { OnOk result (self.new.index ≡ after_at self.old.index command place) }
        ensures err { OnErr result (self.new.index ≡ self.old.index) }
        ensures room { need command ≤ self.old.spare → IsOk result }
    {
        match command {
            KeyCommand::Opened { opening } => {
                self.opening = opening;
                Ok(())
            }
            KeyCommand::Create {
                birth,
                name,
                bits,
                description,
                created,
                material,
            } => {
                let row = IndexRow {
                    name,
                    birth,
                    bits,
                    current: material,
                    versions: 1,
                    description,
                    created,
                };
                self.create(row, place)
            }
            KeyCommand::Roll {
                birth,
                number,
                material,
            } => self.roll(birth, number, material, place),
            KeyCommand::Delete { birth } => {
                self.delete(birth);
                Ok(())
            }
        }
    }

    /// Adds a key with its first version, whose material is at this place.
    fn create(&mut self, row: IndexRow, place: u64) -> Result<(), NoMemory>
        requires may { IsTrue
            (may_create_at self.old.index row.name row.birth row.bits row.current) }
        requires first { row.versions ≡ 1 }
        ensures ok { OnOk result (self.new.index ≡ with_row self.old.index row place) }
        ensures err { OnErr result (self.new.index ≡ self.old.index) }
        ensures room { 1 ≤ self.old.spare → IsOk result }
    {
        let birth = row.birth;
        let buffer = mem::replace(&mut self.ready, Vec::new(self.alloc));
        let placed = with_place(row, buffer, place)?;
        insert(&mut self.rows, &mut self.names, placed)?;
        self.greatest = birth;
        Ok(())
    }

    /// Adds the next version of a key, whose material is at this place.
    fn roll(&mut self, birth: u64, number: u16, material: Dek, place: u64) -> Result<(), NoMemory>
        requires { IsTrue (applies_at self.old.index (Roll birth number material)) }
        ensures ok { OnOk result
            (self.new.index ≡ after_at self.old.index (Roll birth number material) place) }
        ensures err { OnErr result (self.new.index ≡ self.old.index) }
        ensures room { number + 1 ≤ self.old.spare → IsOk result }
    {
        let buffer = mem::replace(&mut self.ready, Vec::new(self.alloc));
        roll(&mut self.rows, buffer, birth, material, place)?;
        Ok(())
    }

    fn delete(&mut self, birth: u64)
        ensures { self.new.index ≡ after_at self.old.index (Delete birth) 0 }
    {
        remove(&mut self.rows, birth);
        remove_birth(&mut self.names, birth);
    }
}
