//! The table of keys.
ghost use Rattle.std.specs.Prelude.{◌≡◌, ℕ, IsTrue, OnOk, OnErr, IfNone, IfSome, IfOk, length, filter, map, not, option_map, false, All, Some, IsOk, [], ◌<◌, ◌≤◌};
ghost use Rattle.std.specs.Vec.{vec_capacity};
ghost use Rattle.std.specs.Option.{option_copied};
ghost use Rattle.std.specs.List.{HoldsAt};
ghost use Rattle.key_rows.specs.Names.{AreNames, IsIndex};
ghost use Rattle.key_rows.specs.Table.{after, applies, find_birth, find_name, current_of, is_born, material_of, need, no_keys, rolled};
ghost use Rattle.key_rows.specs.Sound.{AreRowsRising, IsKeyTable, IsRow};

use crate::applying::applies_to;
use crate::by_name::{NamedBirth, birth_of, copy_names, put, remove_birth};
use crate::rows::{DekList, KeyCommand, KeyRow};
use hk_base::{Dek, KeyName, NoMemory, VersionName};
use kms_calls::NameList;
use std::alloc::Global;
use std::marker::Model;
use std::mem;

/// All keys, in order of birth. Contracts see the last opening, the greatest birth that any key
/// ever had, and the rows. They also see the capacity reserved for a command (`spare`).
#[derive(Drop)]
pub struct KeyTable {
    alloc: Global,
    opening: u32,
    greatest: u64,
    rows: Vec<KeyRow>,
    names: Vec<NamedBirth>,
    ready: Vec<Dek>,
}

impl Model for KeyTable {
    ghost use Rattle.std.specs.Prelude.{◌≡◌, ◌&&◌, [], nat_lt, if◌then◌else◌};
    ghost use Rattle.std.specs.Vec.{vec_len, vec_capacity};
    ghost use Rattle.key_rows.specs.Table.{KeptTable};
    ghost use Rattle.key_rows.specs.Sound.{IsKeyTable};
    ghost use Rattle.key_rows.specs.Names.{IsIndex};

    ghost Value = { KeptTable };

    ghost view = { λ t.
        record {
          keys = record { opening = t.opening; greatest = t.greatest; rows = t.rows.items };
          spare = if nat_lt (vec_len t.rows) (vec_capacity t.rows) &&
              nat_lt (vec_len t.names) (vec_capacity t.names) then vec_capacity t.ready else 0;
        } };

    ghost invariant = { λ t.
        IsKeyTable (record { opening = t.opening; greatest = t.greatest; rows = t.rows.items }) ×
        IsIndex t.rows.items t.names.items × (t.ready.items ≡ []) };
}

/// Returns the position of the key with this birth.
fn place_of(rows: &Vec<KeyRow>, birth: u64) -> Option<usize>
    requires { (top : ℕ) × AreRowsRising 0 rows.now.items top }
    ensures place { IfSome result
        (λ place. (place < length rows.now.items) ×
        HoldsAt (λ row. row.birth ≡ birth) rows.now.items place) }
    ensures none { IfNone result (All (λ row. is_born birth row ≡ false) rows.now.items) }
{
    match rows.binary_search_by_key(&birth, |row| row.birth) {
        Err(_) => None,
        Ok(place) => Some(place),
    }
}

/// Returns the key with this birth.
pub(crate) fn row_at(rows: &Vec<KeyRow>, birth: u64) -> Option<&KeyRow>
    requires { (top : ℕ) × AreRowsRising 0 rows.now.items top }
    ensures { option_copied result ≡ find_birth rows.now.items birth }
{
    match place_of(rows, birth) {
        None => None,
        Some(place) => Some(&rows[place]),
    }
}

/// Returns the key with this name.
pub(crate) fn row_of<'a>(
    rows: &'a Vec<KeyRow>,
    names: &Vec<NamedBirth>,
    name: &KeyName,
) -> Option<&'a KeyRow>
    requires rising { (top : ℕ) × AreRowsRising 0 rows.now.items top }
    requires index { IsIndex rows.now.items names.now.items }
    ensures { option_copied result ≡ find_name rows.now.items name.now }
{
    match birth_of(names, name) {
        None => None,
        Some(birth) => row_at(rows, birth),
    }
}

fn remove(rows: &mut Vec<KeyRow>, birth: u64)
    ensures { rows.new.items ≡ filter (λ row. not (is_born birth row)) rows.old.items }
{
    rows.retain(|row| row.birth != birth);
}

/// Appends the material of the next version of the key with this birth, if needed in a given
/// buffer. Returns `Ok` if the buffer has capacity for all its materials.
fn roll(rows: &mut Vec<KeyRow>, buffer: Vec<Dek>, birth: u64, material: Dek) -> Result<(), NoMemory>
    requires rising { (top : ℕ) × AreRowsRising 0 rows.old.items top }
    requires empty { buffer.items ≡ [] }
    ensures room { IfSome (find_birth rows.old.items birth)
        (λ row. length row.materials < vec_capacity buffer) → IsOk result }
    ensures ok { OnOk result (rows.new.items ≡ map (rolled birth material) rows.old.items) }
    ensures err { OnErr result (rows.new.items ≡ rows.old.items) }
{
    match place_of(rows, birth) {
        None => Ok(()),
        Some(place) => {
            let row = &mut rows[place];
            row.materials.push_in(buffer, material)?;
            Ok(())
        }
    }
}

/// Returns the number of materials to reserve before a command is applied. A roll reserves twice as
/// many as it needs, so that few rolls move the materials of a key.
fn versions_of(command: &KeyCommand) -> usize
    ensures { need command.now ≤ result }
{
    match command {
        KeyCommand::Create { .. } => 1,
        KeyCommand::Roll { number, .. } => 2 * (*number as usize + 1),
        KeyCommand::Opened { .. } => 0,
        KeyCommand::Delete { .. } => 0,
    }
}

impl KeyTable {
    /// Creates a table without keys, before any opening. Does not allocate.
    pub fn new(alloc: Global) -> KeyTable
        ensures { result.keys ≡ no_keys }
    {
        KeyTable {
            alloc,
            opening: 0,
            greatest: 0,
            rows: Vec::new(alloc),
            names: Vec::new(alloc),
            ready: Vec::new(alloc),
        }
    }

    /// Returns the last opening, or 0 if there was none.
    pub fn opening(&self) -> u32
        ensures opening { result ≡ self.now.keys.opening }
        ensures table { IsKeyTable self.now.keys }
    {
        self.opening
    }

    /// Returns the number of keys.
    pub fn count(&self) -> u32
        ensures { result ≡ length self.now.keys.rows }
    {
        self.rows.len() as u32
    }

    /// Returns the key with this name. Does not allocate.
    pub fn find(&self, name: &KeyName) -> Option<&KeyRow>
        ensures found { option_copied result ≡ find_name self.now.keys.rows name.now }
        ensures row { IfSome result (λ row. IsRow row.now) }
        // No other key has this birth.
        ensures birth { IfSome result
            (λ row. find_birth self.now.keys.rows row.now.birth ≡ Some row.now) }
        ensures table { IsKeyTable self.now.keys }
    {
        row_of(&self.rows, &self.names, name)
    }

    /// Returns the key with this birth. Does not allocate.
    pub fn with_birth(&self, birth: u64) -> Option<&KeyRow>
        ensures found { option_copied result ≡ find_birth self.now.keys.rows birth }
        ensures row { IfSome result (λ row. IsRow row.now) }
    {
        row_at(&self.rows, birth)
    }

    /// Returns the name of the key with this birth. Does not allocate.
    pub fn name_of(&self, birth: u64) -> Option<KeyName>
        ensures { result ≡ option_map (λ row. row.name) (find_birth self.now.keys.rows birth) }
    {
        let row = row_at(&self.rows, birth)?;
        Some(row.name)
    }

    /// Returns the names of all keys in byte order, or `NoMemory` if allocation fails.
    pub fn names(&self) -> Result<NameList, NoMemory>
        ensures { IfOk result (AreNames self.now.keys.rows) }
    {
        copy_names(self.alloc, &self.names)
    }

    /// Returns the material of a version, or `None` if there is no such key or version. Does not
    /// allocate.
    pub fn version(&self, version: &VersionName) -> Option<Dek>
        ensures { result ≡ material_of self.now.keys.rows version.now }
    {
        let row = self.find(&version.key)?;
        row.materials.get(version.number)
    }

    /// Returns the current version of a key, which is its newest, or `None` if there is no such
    /// key. Does not allocate.
    pub fn current(&self, name: &KeyName) -> Option<VersionName>
        ensures { result ≡ option_map current_of (find_name self.now.keys.rows name.now) }
    {
        let row = self.find(name)?;
        Some(VersionName {
            key: row.name,
            number: (row.materials.len() - 1) as u16,
        })
    }

    /// Returns whether a command applies. An opening must be the next one. A key can be created if
    /// there are fewer than 10,000 keys, its name is new, its birth belongs to this opening and is
    /// greater than every earlier one, and its material has the right length. A roll must add the
    /// next version of an existing key. A deleted key must exist.
    pub fn applies(&self, command: &KeyCommand) -> bool
        ensures { result ≡ applies self.now.keys command.now }
    {
        applies_to(
            self.opening,
            self.greatest,
            &self.rows,
            &self.names,
            command,
        )
    }

    /// Reserves the memory that a command needs. The keys are unchanged, even if allocation fails.
    /// After `Ok`, applying the command returns `Ok` if it applies, as long as the table is not
    /// changed in between.
    pub fn reserve_apply(&mut self, command: &KeyCommand) -> Result<(), NoMemory>
        ensures keys { self.new.keys ≡ self.old.keys }
        ensures room { OnOk result (need command.now ≤ self.new.spare) }
    {
        let versions = versions_of(command);
        if versions == 0 {
            return Ok(());
        }
        let ready = Vec::with_capacity(self.alloc, versions)?;
        self.rows.reserve(1)?;
        self.names.reserve(1)?;
        self.ready = ready;
        Ok(())
    }

    /// Applies a command. Returns `NoMemory` if allocation fails; the keys are then unchanged.
    /// Returns `Ok` if the reserved capacity is enough.
    pub fn apply(&mut self, command: KeyCommand) -> Result<(), NoMemory>
        requires { IsTrue (applies self.old.keys command) }
        ensures ok { OnOk result (self.new.keys ≡ after self.old.keys command) }
        ensures err { OnErr result (self.new.keys ≡ self.old.keys) }
        ensures room { need command ≤ self.old.spare → IsOk result }
    {
        match command {
            KeyCommand::Opened { opening } => {
                self.opening = opening;
                Ok(())
            }
            KeyCommand::Create {
                birth,
                name,
                bits,
                description,
                created,
                material,
            } => {
                let buffer = mem::replace(&mut self.ready, Vec::new(self.alloc));
                let materials = DekList::in_buffer(buffer, material)?;
                self.rows.reserve(1)?;
                put(&mut self.names, name, birth)?;
                self.rows.push_reserved(KeyRow {
                    name,
                    birth,
                    bits,
                    materials,
                    description,
                    created,
                });
                self.greatest = birth;
                Ok(())
            }
            KeyCommand::Roll {
                birth,
                number: _,
                material,
            } => {
                let buffer = mem::replace(&mut self.ready, Vec::new(self.alloc));
                roll(&mut self.rows, buffer, birth, material)?;
                Ok(())
            }
            KeyCommand::Delete { birth } => {
                remove(&mut self.rows, birth);
                remove_birth(&mut self.names, birth);
                Ok(())
            }
        }
    }
}
