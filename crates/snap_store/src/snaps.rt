//! The snapshots, ordered by directory and name.
ghost use Rattle.std.specs.Prelude.{◌≡◌, ℕ, List, ◌<◌, ◌≤◌, ◌&&◌, ◌↔◌, None, Some, [], length, not, nat_lt, slice_get, true, false, is_some, vec_len, vec_capacity, IsOk, IsTrue, IfOk, IfSome, OnOk, OnErr};
ghost use Rattle.std.specs.List.{remove};
ghost use Rattle.std.specs.List.Sorted.{IsPartitionPoint};
ghost use Rattle.std.specs.Option.{option_map, option_map_or};
ghost use Rattle.std.specs.Ordering.{nat_cmp};
ghost use Rattle.inode_tree.specs.Below.{at_or_above, at_or_below};
ghost use Rattle.inode_tree.specs.Rows.{row_at};
ghost use Rattle.frozen_nodes.specs.Forest.{AreBelow, rows_from};
ghost use Rattle.frozen_nodes.specs.Moves.{AllReached};
ghost use Rattle.snap_store.specs.Ordered.{IsRisingBy};
ghost use Rattle.snap_store.specs.Snapshots.{IsSnapshotReady, IsSnapshots, Snapshot, allowed_above, allowed_at_or_above, allowed_at_or_below, allowed_below, count_in, count_of, holds_snapshot, is_among, is_directory, is_named, key_of, list_in, names_of, no_snaps, rows_in, snapshot_named, table_after_allow, table_after_disallow, table_after_disallow_below, table_after_remove, table_after_take, with_id, without_below, without_id, zone_depth};
ghost use Rattle.snap_store.specs.Stored.{snapshots_of};

use crate::order::{
    Last, Taken, end_of, find, first_of, holds, newest_root, put_reserved, remove, reserve_place,
    root_of,
};
use crate::reserved::Reserved;
use frozen_nodes::Forest;
use hk_base::{NoMemory, Text};
use inode_tree::{Row, Tree};
use name_calls::{ChildList, NPath};
use std::alloc::Global;
use std::marker::Model;
use std::mem;

/// The maximum number of snapshots of a directory.
pub const MOST_SNAPSHOTS: u32 = 65_536;

/// Returns how many ids are smaller than `id`.
fn place_id(ids: &Vec<u64>, id: u64) -> usize
    requires { IsRisingBy nat_cmp ids.now.items }
    ensures most { result ≤ length ids.now.items }
    ensures parted { IsPartitionPoint (λ i. nat_lt i id ≡ true) (λ i. nat_lt i id ≡ false)
        ids.now.items result }
{
    ids.as_slice().partition_point(|other| *other < id)
}

/// Returns the index of the id, or `None` if it is not there.
fn find_id(ids: &Vec<u64>, id: u64) -> Option<usize>
    requires { IsRisingBy nat_cmp ids.now.items }
    ensures within { IfSome result (λ at. at < length ids.now.items) }
    ensures found { is_some result ≡ is_among ids.now.items id }
    ensures rest { option_map_or (λ at. remove ids.now.items at) result ids.now.items ≡
        without_id id ids.now.items }
{
    let at = place_id(ids, id);
    if at == ids.len() {
        return None;
    }
    if ids[at] == id { Some(at) } else { None }
}

/// Adds an id if it is not there already. Returns `NoMemory` if allocation fails; the ids are then
/// unchanged.
fn put_id(ids: &mut Vec<u64>, id: u64) -> Result<(), NoMemory>
    requires { IsRisingBy nat_cmp ids.old.items }
    ensures rising { IsRisingBy nat_cmp ids.new.items }
    ensures ok { OnOk result (ids.new.items ≡ with_id id ids.old.items) }
    ensures err { OnErr result (ids.new.items ≡ ids.old.items) }
    ensures room { vec_len ids.old < vec_capacity ids.old → IsOk result }
{
    match find_id(ids, id) {
        Some(_) => Ok(()),
        None => {
            let at = place_id(ids, id);
            ids.insert(at, id)?;
            Ok(())
        }
    }
}

/// Removes an id, if it is there.
fn remove_id(ids: &mut Vec<u64>, id: u64)
    requires { IsRisingBy nat_cmp ids.old.items }
    ensures { ids.new.items ≡ without_id id ids.old.items }
{
    match find_id(ids, id) {
        Some(at) => {
            let _id = ids.remove(at);
        }
        None => {}
    }
}

/// Removes the ids of directories at the path or below it.
fn remove_below(ids: &mut Vec<u64>, tree: &Tree, path: &NPath)
    ensures { ids.new.items ≡ without_below tree.now.rows path.now ids.old.items }
{
    ids.retain(|id| !tree.at_or_below(*id, path));
}

/// Gives back the memory of the nodes that no snapshot has, if these may be more than half of all.
/// At most `loose` nodes are such. Returns how many may be such afterwards. Nothing changes if
/// allocation fails.
fn give_back(forest: &mut Forest, roots: &mut Vec<u32>, loose: usize) -> usize
    requires { AreBelow (length forest.old.nodes) roots.old.items }
    ensures snapshots { (keys : List Snapshot) →
        snapshots_of forest.new.nodes keys roots.new.items ≡
        snapshots_of forest.old.nodes keys roots.old.items }
    ensures count { length roots.new.items ≡ length roots.old.items }
    ensures below { AreBelow (length forest.new.nodes) roots.new.items }
    ensures reached { result < loose → AllReached 0 forest.new.nodes roots.new.items }
{
    if loose <= forest.len() / 2 {
        return loose;
    }
    match forest.keep(roots) {
        Ok(()) => 0,
        Err(_) => loose,
    }
}

/// Returns the last snapshot as long as its root has the same number: until fewer nodes are loose than
/// before.
fn last_left(last: Option<Last>, before: usize, loose: usize) -> Option<Last> {
    if loose < before { None } else { last }
}

fn copy_of(alloc: Global, name: &Text) -> Result<Text, NoMemory>
    ensures { IfOk result (λ copy. copy ≡ name.now) }
{
    Ok(Text::of(String::from_str(alloc, name.as_str())?))
}

fn is_same(name: &Text, other: &Text) -> bool
    ensures { IsTrue result ↔ (name.now ≡ other.now) }
{
    name.as_str().as_bytes() == other.as_str().as_bytes()
}

/// Returns the name as an owned text, and does not allocate if the kept one is the same.
fn name_for(alloc: Global, kept: Option<Text>, name: &Text) -> Result<Text, NoMemory>
    ensures name { IfOk result (λ text. text ≡ name.now) }
    ensures kept { kept ≡ Some name.now → IsOk result }
{
    match kept {
        Some(kept) => {
            if is_same(&kept, name) {
                Ok(kept)
            } else {
                copy_of(alloc, name)
            }
        }
        None => copy_of(alloc, name),
    }
}

/// A snapshot as it is read in order: its directory and its name, and the node of its directory among
/// the nodes of all snapshots.
#[derive(Clone, Copy)]
pub struct PlacedSnapshot<'a> {
    pub dir: u64,
    pub name: &'a Text,
    pub forest: &'a Forest,
    pub root: u32,
}

/// The directories that may have snapshots, and the snapshots. In contracts their value is the ids
/// of the directories in rising order, and the snapshots ordered by directory and name, by bytes.
/// Each snapshot has the rows at and below its directory as they were when it was taken. Snapshots
/// share the nodes of the rows that they have in common.
#[derive(Drop)]
pub struct Snaps {
    alloc: Global,
    allowed: Vec<u64>,
    taken: Vec<Taken>,
    /// The root of each snapshot, at the same index.
    roots: Vec<u32>,
    forest: Forest,
    /// How many snapshots were taken.
    takes: u64,
    /// The last one of them, unless the nodes have got other numbers since.
    last: Option<Last>,
    /// At most so many nodes belong to no snapshot: the rows of the snapshots that were removed since
    /// each node belonged to one.
    loose: usize,
    reserved: Reserved,
    name: Option<Text>,
}

impl Model for Snaps {
    ghost use Rattle.snap_store.specs.Snapshots.{SnapState};
    ghost use Rattle.snap_store.specs.Stored.{IsStored, room_in, snapshots_of};

    ghost Value = { SnapState };

    ghost view = { λ snaps.
        record {
          table = record {
            allowed = snaps.allowed.items;
            taken = snapshots_of snaps.forest.nodes snaps.taken.items snaps.roots.items;
          };
          room = room_in snaps.allowed snaps.taken snaps.roots snaps.forest.room snaps.reserved
              snaps.name;
        } };

    ghost invariant = { λ snaps.
        IsStored snaps.forest.nodes snaps.allowed.items snaps.taken.items snaps.roots.items };
}

impl Snaps {
    /// Creates an empty store: there are no snapshots, and no directory may have any. It does not
    /// allocate.
    pub fn new(alloc: Global) -> Snaps
        ensures { result.table ≡ no_snaps }
    {
        Snaps {
            alloc,
            allowed: Vec::new(alloc),
            taken: Vec::new(alloc),
            roots: Vec::new(alloc),
            forest: Forest::new(alloc),
            takes: 0,
            last: None,
            loose: 0,
            reserved: Reserved::none(alloc),
            name: None,
        }
    }

    /// Allows snapshots of a directory. Does nothing if they are allowed already. Returns
    /// `NoMemory` if allocation fails; everything is then unchanged.
    pub fn allow(&mut self, dir: u64) -> Result<(), NoMemory>
        ensures ok { OnOk result (self.new.table ≡ table_after_allow dir self.old.table) }
        ensures err { OnErr result (self.new.table ≡ self.old.table) }
        ensures spare { 0 < self.old.room.ids → IsOk result }
    {
        put_id(&mut self.allowed, dir)
    }

    /// Reserves memory for one more directory that may have snapshots. Nothing else changes. After
    /// `Ok`, the next `allow` succeeds too.
    pub fn reserve_allow(&mut self) -> Result<(), NoMemory>
        ensures ok { OnOk result (0 < self.new.room.ids) }
        ensures same { self.new.table ≡ self.old.table }
    {
        self.allowed.reserve(1)?;
        Ok(())
    }

    /// Disallows snapshots of a directory, which must have none. It does not allocate.
    pub fn disallow(&mut self, dir: u64)
        requires { count_of self.old.table.taken dir ≡ 0 }
        ensures { self.new.table ≡ table_after_disallow dir self.old.table }
    {
        remove_id(&mut self.allowed, dir);
    }

    /// Disallows snapshots of the directories at the path and below it, which must have none. Call
    /// this before the rows are removed from the tree. It does not allocate.
    pub fn disallow_below(&mut self, tree: &Tree, path: &NPath)
        requires { holds_snapshot tree.now.rows self.old.table.taken path.now ≡ false }
        ensures { self.new.table ≡
            table_after_disallow_below tree.now.rows path.now self.old.table }
    {
        remove_below(&mut self.allowed, tree, path);
    }

    /// Takes a snapshot of a directory: the rows at and below it. It shares what it can with the
    /// directory's newest snapshot. The directory must exist and be allowed to have snapshots, the
    /// name must be free there, and it must have fewer than 65,536 snapshots. The other snapshots
    /// are unchanged. Returns `NoMemory` if allocation fails; the snapshots, and which directories
    /// may have some, are then unchanged. It does not allocate if `reserve_take` was `Ok` for the
    /// directory and the name, and neither the snapshots nor the rows at and below it have changed
    /// since.
    pub fn take(&mut self, tree: &Tree, dir: u64, name: &Text) -> Result<(), NoMemory>
        requires stands { IsTrue (is_directory tree.now.rows dir) }
        requires allowed { IsTrue (is_among self.old.table.allowed dir) }
        requires free { snapshot_named self.old.table.taken dir name.now ≡ None }
        requires room { count_of self.old.table.taken dir < 65536 }
        ensures ok { OnOk result
            (self.new.table ≡ table_after_take tree.now.rows dir name.now self.old.table) }
        ensures err { OnErr result (self.new.table ≡ self.old.table) }
        ensures others { (d : ℕ) (n : List ℕ) → is_named dir name.now (key_of d n) ≡ false →
            snapshot_named self.new.table.taken d n ≡ snapshot_named self.old.table.taken d n }
        ensures spare { IsSnapshotReady self.old.room tree.now.rows dir name.now → IsOk result }
    {
        // The rows of the directory are a tree, as all are.
        let _ = tree.rows();
        let kept = mem::replace(&mut self.name, None);
        let name = name_for(self.alloc, kept, name)?;
        reserve_place(&mut self.taken, &mut self.roots)?;
        let near = newest_root(&self.taken, &self.roots, self.last, dir);
        let rows = self.reserved.take(&mut self.forest, tree, dir, near)?;
        self.takes = self.takes.saturating_add(1);
        let snapshot = Taken::new(dir, name, rows.count, self.takes);
        put_reserved(&mut self.taken, &mut self.roots, snapshot, rows.root);
        self.last = Some(Last {
            dir,
            root: rows.root,
        });
        Ok(())
    }

    /// Reserves the memory for a snapshot of a directory under a name. Nothing else changes. After
    /// `Ok`, `take` succeeds for the directory and the name until the snapshots or the rows at and
    /// below it change.
    pub fn reserve_take(&mut self, tree: &Tree, dir: u64, name: &Text) -> Result<(), NoMemory>
        ensures ok { OnOk result (IsSnapshotReady self.new.room tree.now.rows dir name.now) }
        ensures same { self.new.table ≡ self.old.table }
    {
        reserve_place(&mut self.taken, &mut self.roots)?;
        self.reserved.reserve(&mut self.forest, tree, dir)?;
        self.name = Some(copy_of(self.alloc, name)?);
        Ok(())
    }

    /// Removes a snapshot. Does nothing if there is none with the name. The other snapshots are
    /// unchanged. Gives back memory if more than half of the nodes may belong to no snapshot. For this
    /// it allocates memory for the others; if that fails, all nodes stay until a later removal.
    pub fn remove(&mut self, dir: u64, name: &Text)
        ensures table { self.new.table ≡ table_after_remove dir name.now self.old.table }
        ensures others { (d : ℕ) (n : List ℕ) → is_named dir name.now (key_of d n) ≡ false →
            snapshot_named self.new.table.taken d n ≡ snapshot_named self.old.table.taken d n }
    {
        let rows = remove(&mut self.taken, &mut self.roots, dir, name);
        let loose = self.loose.saturating_add(rows);
        self.loose = give_back(&mut self.forest, &mut self.roots, loose);
        self.last = last_left(self.last, loose, self.loose);
    }

    /// Returns the row that a snapshot has at a path relative to its directory. Returns `None` if
    /// there is no such snapshot, or it has no row at the path. The empty path gives the row of the
    /// directory itself, which every snapshot has.
    pub fn look(&self, dir: u64, name: &Text, below: &NPath) -> Option<Row>
        ensures own { below.now ≡ [] →
            is_some result ≡ is_some (snapshot_named self.now.table.taken dir name.now) }
        ensures row { result ≡ row_at (rows_in self.now.table.taken dir name.now) below.now }
    {
        match root_of(&self.taken, &self.roots, dir, name) {
            Some(root) => self.forest.look(root, below),
            None => None,
        }
    }

    /// Returns the children of a directory of a snapshot. Returns `None` if and only if there is no
    /// such snapshot, or it has no directory at the path.
    pub fn list(&self, dir: u64, name: &Text, below: &NPath) -> Result<Option<ChildList>, NoMemory>
        ensures { IfOk result
            (λ list. list ≡ list_in (rows_in self.now.table.taken dir name.now) below.now) }
    {
        match root_of(&self.taken, &self.roots, dir, name) {
            Some(root) => self.forest.list(root, below),
            None => Ok(None),
        }
    }

    /// Returns how many names of the path lead to the directory of its zone in the snapshot. This
    /// is the deepest marked directory at or above the path. Returns `None` if there is none.
    pub fn zone_in(&self, dir: u64, name: &Text, below: &NPath) -> Option<u8>
        ensures { result ≡ zone_depth (rows_in self.now.table.taken dir name.now) below.now }
    {
        match root_of(&self.taken, &self.roots, dir, name) {
            Some(root) => self.forest.zone_in(root, below),
            None => None,
        }
    }

    /// Does nothing: its contract says what is always true of the snapshots.
    pub fn invariants(&self)
        ensures { IsSnapshots self.now.table.allowed self.now.table.taken }
    {
        let _ = self.allowed.len();
    }

    /// Returns whether a directory may have snapshots.
    pub fn allows(&self, dir: u64) -> bool
        ensures { result ≡ is_among self.now.table.allowed dir }
    {
        find_id(&self.allowed, dir).is_some()
    }

    /// Returns whether a directory has a snapshot with this name.
    pub fn has(&self, dir: u64, name: &Text) -> bool
        ensures { result ≡ is_some (snapshot_named self.now.table.taken dir name.now) }
    {
        find(&self.taken, dir, name).is_some()
    }

    /// Returns how many snapshots a directory has, at most 65,536.
    pub fn len_of(&self, dir: u64) -> u32
        ensures { result ≡ count_of self.now.table.taken dir }
    {
        (end_of(&self.taken, dir) - first_of(&self.taken, dir)) as u32
    }

    /// Returns how many snapshots a directory has, at most 65,536, or `None` if it may have none.
    pub fn count(&self, dir: u64) -> Option<u32>
        ensures { result ≡ count_in self.now.table dir }
    {
        match find_id(&self.allowed, dir) {
            Some(_) => Some(self.len_of(dir)),
            None => None,
        }
    }

    /// Returns the name of the snapshot of a directory at index `at` in byte order, from 0. Returns
    /// `None` if there are no more.
    pub fn name_at(&self, dir: u64, at: u32) -> Option<&Text>
        ensures { option_map (λ name. name.now) result ≡
            slice_get (names_of self.now.table.taken dir) at }
    {
        let first = first_of(&self.taken, dir);
        let end = end_of(&self.taken, dir);
        if (at as usize) < end - first {
            Some(self.taken[first + at as usize].name())
        } else {
            None
        }
    }

    /// Returns the ids of the directories that may have snapshots, in rising order.
    pub fn allowed(&self) -> &[u64]
        ensures { result.now ≡ self.now.table.allowed }
    {
        self.allowed.as_slice()
    }

    /// Returns the number of snapshots of all directories.
    pub fn len(&self) -> usize
        ensures { result ≡ length self.now.table.taken }
    {
        self.taken.len()
    }

    /// Returns the snapshot at index `at`, from 0, in the order of directory and name. It builds no
    /// list of its rows: they are read node by node.
    pub fn nth(&self, at: usize) -> PlacedSnapshot<'_>
        requires { at < length self.now.table.taken }
        ensures snapshot { slice_get self.now.table.taken at ≡
            Some
            (record {
              dir = result.dir;
              name = result.name.now;
              rows = rows_from result.forest.now.nodes result.root;
            }) }
        ensures within { result.root < length result.forest.now.nodes }
    {
        let taken = &self.taken[at];
        PlacedSnapshot {
            dir: taken.dir(),
            name: taken.name(),
            forest: &self.forest,
            root: self.roots[at],
        }
    }

    /// Returns whether there is a snapshot of a directory at the path or below it.
    pub fn holds(&self, tree: &Tree, path: &NPath) -> bool
        ensures { result ≡ holds_snapshot tree.now.rows self.now.table.taken path.now }
    {
        holds(&self.taken, tree, path)
    }

    /// Returns whether a directory at the path or below it may have snapshots.
    pub fn allowed_at_or_below(&self, tree: &Tree, path: &NPath) -> bool
        ensures { result ≡ allowed_at_or_below tree.now.rows self.now.table.allowed path.now }
    {
        self.allowed.iter().any(|dir| tree.at_or_below(*dir, path))
    }

    /// Returns whether a directory at the path or above it may have snapshots.
    pub fn allowed_at_or_above(&self, tree: &Tree, path: &NPath) -> bool
        ensures { result ≡ allowed_at_or_above tree.now.rows self.now.table.allowed path.now }
    {
        self.allowed.iter().any(|dir| tree.at_or_above(*dir, path))
    }

    /// Returns whether a directory strictly above the path may have snapshots.
    pub fn allowed_above(&self, tree: &Tree, path: &NPath) -> bool
        ensures { result ≡ allowed_above tree.now.rows self.now.table.allowed path.now }
    {
        self.allowed.iter().any(|dir| is_above(tree, *dir, path))
    }

    /// Returns whether a directory strictly below the path may have snapshots.
    pub fn allowed_below(&self, tree: &Tree, path: &NPath) -> bool
        ensures { result ≡ allowed_below tree.now.rows self.now.table.allowed path.now }
    {
        self.allowed.iter().any(|dir| is_below(tree, *dir, path))
    }
}

/// Returns whether the row with the id is strictly above the path.
fn is_above(tree: &Tree, id: u64, path: &NPath) -> bool
    ensures { result ≡
        (at_or_above tree.now.rows id path.now && not (at_or_below tree.now.rows id path.now)) }
{
    let above = tree.at_or_above(id, path);
    let below = tree.at_or_below(id, path);
    above && !below
}

/// Returns whether the row with the id is strictly below the path.
fn is_below(tree: &Tree, id: u64, path: &NPath) -> bool
    ensures { result ≡
        (at_or_below tree.now.rows id path.now && not (at_or_above tree.now.rows id path.now)) }
{
    let above = tree.at_or_above(id, path);
    let below = tree.at_or_below(id, path);
    below && !above
}
