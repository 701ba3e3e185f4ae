//! The table of zones.
ghost use Rattle.std.specs.Prelude.{ℕ, ◌≡◌, ◌≤◌, [], None, IfOk, IsOk, OnOk, OnErr};
ghost use Rattle.std.specs.Option.{option_map};
ghost use Rattle.inode_tree.specs.Rows.{move_allowed, removed, same_id, zone_id};
ghost use Rattle.zone_table.specs.Zones.{need_add, put_zone, without_zone, zone_paths, zone_row, zones_of};

use crate::list::{list_places, places_of};
use hk_base::{KeyName, NoMemory};
use inode_tree::Tree;
use name_calls::{NPath, ZoneList};
use std::alloc::Global;
use std::collections::HashMap;
use std::marker::Model;

/// An encryption zone: the id of its directory, and the key of its files.
#[derive(Clone, Copy, PartialEq, Eq)]
pub struct ZoneRow {
    pub dir: u64,
    pub key: KeyName,
}

/// The encryption zones. In contracts their value is the list of their rows, ordered by directory
/// id, and the number of further zones that there is room for. Finding, adding and removing a zone
/// take expected constant time.
#[derive(Drop)]
pub struct Zones {
    alloc: Global,
    keys: HashMap<u64, KeyName>,
}

impl Model for Zones {
    ghost use Rattle.std.specs.Bool.{nat_eq};
    ghost use Rattle.std.specs.HashMap.{IsUnique, spare};
    ghost use Rattle.zone_table.specs.Zones.{ZoneState, by_directory};

    ghost Value = { ZoneState };

    ghost view = { λ zones.
        record { rows = by_directory zones.keys.entries; spare = spare zones.keys } };

    ghost invariant = { λ zones. IsUnique nat_eq zones.keys };
}

/// Returns whether two zones are the same, or both are none.
fn is_same(zone: Option<u64>, other: Option<u64>) -> bool
    ensures { result ≡ same_id zone other }
{
    match zone {
        Some(dir) => match other {
            Some(id) => dir == id,
            None => false,
        },
        None => other.is_none(),
    }
}

impl Zones {
    /// Creates an empty table. It does not allocate.
    pub fn new(alloc: Global) -> Zones
        ensures { result.rows ≡ [] }
    {
        Zones {
            alloc,
            keys: HashMap::new(alloc),
        }
    }

    /// Returns the id of the directory whose zone a path lies in, or `None` if it lies in none.
    /// That is the deepest directory marked with a key that is the path or lies above it. It does
    /// not allocate.
    pub fn zone_of(&self, tree: &Tree, path: &NPath) -> Option<u64>
        ensures { result ≡ zone_id tree.now.rows path.now }
    {
        tree.zone_of(path)
    }

    /// Returns whether a row may move from a path to another as far as zones go: whether the parents
    /// of both paths lie in the same zone, or both in none. It does not allocate.
    pub fn may_move(&self, tree: &Tree, path: &NPath, to: &NPath) -> bool
        ensures { result ≡ move_allowed tree.now.rows path.now to.now }
    {
        is_same(tree.zone_of_parent(path), tree.zone_of_parent(to))
    }

    /// Returns the key of the zone of this directory, or `None` if the directory is not a zone.
    pub fn key(&self, dir: u64) -> Option<KeyName>
        ensures { result ≡ option_map (λ row. row.key) (zone_row self.now.rows dir) }
    {
        match self.keys.get(&dir) {
            Some(key) => Some(*key),
            None => None,
        }
    }

    /// Reserves the memory that one more zone needs. Returns `NoMemory` if allocation fails. The
    /// zones are unchanged in either case. After `Ok`, adding a zone can't fail as long as the
    /// table does not change.
    pub fn reserve_add(&mut self, _dir: u64, _key: KeyName) -> Result<(), NoMemory>
        ensures same { self.new.rows ≡ self.old.rows }
        ensures ok { (dir : ℕ) (key : KeyName) → OnOk result (need_add dir key ≤ self.new.spare) }
    {
        self.keys.reserve(1)?;
        Ok(())
    }

    /// Adds a zone. The directory must not be a zone yet. Returns `NoMemory` if allocation fails;
    /// the zones are then unchanged. It can't fail if there is room for one more.
    pub fn add(&mut self, dir: u64, key: KeyName) -> Result<(), NoMemory>
        requires { zone_row self.old.rows dir ≡ None }
        ensures ok { OnOk result
            (self.new.rows ≡ put_zone (record { dir = dir; key = key }) self.old.rows) }
        ensures err { OnErr result (self.new.rows ≡ self.old.rows) }
        ensures room { need_add dir key ≤ self.old.spare → IsOk result }
    {
        self.keys.insert(dir, key)?;
        Ok(())
    }

    /// Removes the zone of this directory. Does nothing if the directory is not a zone. It does not
    /// allocate.
    pub fn remove(&mut self, dir: u64)
        ensures { self.new.rows ≡ without_zone self.old.rows dir }
    {
        let _ = self.keys.remove(&dir);
    }

    /// Removes the zones at and below a path that will be removed from the tree, so that the table
    /// matches the tree without them. The table must match the tree before. It does not allocate.
    /// Each row that will be removed takes as much time as finding one, however many zones there
    /// are.
    pub fn remove_below(&mut self, tree: &Tree, path: &NPath)
        requires { self.old.rows ≡ zones_of tree.now.rows }
        ensures { self.new.rows ≡ zones_of (removed path.now tree.now.rows) }
    {
        // Each id belongs to one row, and the rows at and below a path are adjacent.
        let rows = tree.rows();
        let mut at = tree.place(path);
        while at < rows && tree.place_is_below(at, path) {
            self.remove(tree.row_at_place(at).id);
            at += 1;
        }
    }

    /// Returns the zones of the tree with their paths and keys, in path order. The table must match
    /// the tree. Fails only if allocation fails. The time depends on the number of zones, not on
    /// the number of rows.
    pub fn all(&self, tree: &Tree) -> Result<ZoneList, NoMemory>
        requires { self.now.rows ≡ zones_of tree.now.rows }
        ensures { IfOk result (λ list. list ≡ zone_paths tree.now.rows) }
    {
        // Each id belongs to one row.
        let _ = tree.rows();
        let mut places = places_of(self.alloc, &self.keys, tree)?;
        places.sort_unstable();
        list_places(self.alloc, tree, &places)
    }
}
