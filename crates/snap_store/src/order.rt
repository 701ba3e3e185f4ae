//! The snapshots in their order: their keys, and beside each the root of its rows.
ghost use Rattle.std.specs.Prelude.{◌≡◌, ℕ, List, ◌<◌, ◌≤◌, ◌↔◌, None, Some, [], length, nat_lt, nat_le, slice_get, true, false, is_some, vec_len, vec_capacity, min, ◌-◌, IsOk, IsSome, IsTrue, IfOk, IfSome, OnOk, OnErr};
ghost use Rattle.std.specs.List.Sorted.{IsPartitionPoint};
ghost use Rattle.std.specs.Option.{option_map, option_map_or};
ghost use Rattle.std.specs.Ordering.{is_lt, nat_cmp};
ghost use Rattle.std.specs.Cmp.Lexicographic.{slice_cmp};
ghost use Rattle.frozen_nodes.specs.Forest.{AreBelow, FrozenNode, rows_from};
ghost use Rattle.snap_store.specs.Ordered.{IsRisingBy};
ghost use Rattle.snap_store.specs.Snapshots.{holds_snapshot, key_of, put_snapshot, snapshot_cmp, snapshot_named, without_snapshot};
ghost use Rattle.snap_store.specs.Stored.{AreRooted, index_named, snapshots_of};

use hk_base::{NoMemory, Text};
use inode_tree::Tree;
use name_calls::NPath;
use std::cmp::Ordering;
use std::marker::Model;

fn compare_bytes(bytes: &[u8], other: &[u8]) -> Ordering
    ensures { result ≡ slice_cmp nat_cmp bytes.now other.now }
{
    bytes.cmp(other)
}

/// Compares two names by their bytes.
fn compare_names(name: &Text, other: &Text) -> Ordering
    ensures { result ≡ slice_cmp nat_cmp name.now other.now }
{
    compare_bytes(name.as_str().as_bytes(), other.as_str().as_bytes())
}

/// A snapshot of a directory, apart from its root. In contracts its value is the key by which it is
/// sought.
#[derive(Drop)]
pub struct Taken {
    dir: u64,
    name: Text,
    row_count: u32,
    number: u64,
}

impl Model for Taken {
    ghost use Rattle.snap_store.specs.Snapshots.{Snapshot, key_of};

    ghost Value = { Snapshot };

    ghost view = { λ taken. key_of taken.dir taken.name };
}

impl Taken {
    /// Creates the snapshot of a directory that has so many rows, as the one with this number of all
    /// that were taken.
    pub fn new(dir: u64, name: Text, row_count: u32, number: u64) -> Taken
        ensures { result ≡ key_of dir name }
    {
        Taken {
            dir,
            name,
            row_count,
            number,
        }
    }

    pub fn dir(&self) -> u64
        ensures { result ≡ self.now.dir }
    {
        self.dir
    }

    pub fn name(&self) -> &Text
        ensures { result.now ≡ self.now.name }
    {
        &self.name
    }

    fn row_count(&self) -> u32 {
        self.row_count
    }

    fn number(&self) -> u64 {
        self.number
    }

    fn compare(&self, dir: u64, name: &Text) -> Ordering
        ensures { result ≡ snapshot_cmp self.now (key_of dir name.now) }
    {
        match self.dir.cmp(&dir) {
            Ordering::Less => Ordering::Less,
            Ordering::Equal => compare_names(&self.name, name),
            Ordering::Greater => Ordering::Greater,
        }
    }

    fn comes_before(&self, dir: u64, name: &Text) -> bool
        ensures { result ≡ is_lt (snapshot_cmp self.now (key_of dir name.now)) }
    {
        match self.compare(dir, name) {
            Ordering::Less => true,
            Ordering::Equal => false,
            Ordering::Greater => false,
        }
    }
}

/// Returns how many snapshots come before the one of the directory with the name.
fn place(taken: &Vec<Taken>, dir: u64, name: &Text) -> usize
    requires { IsRisingBy snapshot_cmp taken.now.items }
    ensures most { result ≤ length taken.now.items }
    ensures parted { IsPartitionPoint (λ s. is_lt (snapshot_cmp s (key_of dir name.now)) ≡ true)
        (λ s. is_lt (snapshot_cmp s (key_of dir name.now)) ≡ false) taken.now.items result }
{
    taken
        .as_slice()
        .partition_point(|snapshot| snapshot.comes_before(dir, name))
}

/// Returns the index of the snapshot of the directory with the name, or `None` if there is none.
pub fn find(taken: &Vec<Taken>, dir: u64, name: &Text) -> Option<usize>
    requires { IsRisingBy snapshot_cmp taken.now.items }
    ensures index { result ≡ index_named taken.now.items dir name.now }
    ensures within { IfSome result (λ at. at < length taken.now.items) }
{
    let at = place(taken, dir, name);
    if at == taken.len() {
        return None;
    }
    match taken[at].compare(dir, name) {
        Ordering::Less => None,
        Ordering::Equal => Some(at),
        Ordering::Greater => None,
    }
}

/// Returns how many snapshots are of directories with a smaller id.
pub fn first_of(taken: &Vec<Taken>, dir: u64) -> usize
    requires { IsRisingBy snapshot_cmp taken.now.items }
    ensures most { result ≤ length taken.now.items }
    ensures parted { IsPartitionPoint (λ s. nat_lt s.dir dir ≡ true) (λ s. nat_lt s.dir dir ≡ false)
        taken.now.items result }
{
    taken
        .as_slice()
        .partition_point(|snapshot| snapshot.dir() < dir)
}

/// Returns how many snapshots are of directories with this id or a smaller one.
pub fn end_of(taken: &Vec<Taken>, dir: u64) -> usize
    requires { IsRisingBy snapshot_cmp taken.now.items }
    ensures most { result ≤ length taken.now.items }
    ensures parted { IsPartitionPoint (λ s. nat_le s.dir dir ≡ true) (λ s. nat_le s.dir dir ≡ false)
        taken.now.items result }
{
    taken
        .as_slice()
        .partition_point(|snapshot| snapshot.dir() <= dir)
}

/// Returns whether there is a snapshot of a directory at the path or below it.
pub fn holds(taken: &Vec<Taken>, tree: &Tree, path: &NPath) -> bool
    ensures { result ≡ holds_snapshot tree.now.rows taken.now.items path.now }
{
    taken
        .iter()
        .any(|snapshot| tree.at_or_below(snapshot.dir(), path))
}

/// Returns the root of a snapshot.
pub fn root_of(taken: &Vec<Taken>, roots: &Vec<u32>, dir: u64, name: &Text) -> Option<u32>
    requires rising { IsRisingBy snapshot_cmp taken.now.items }
    requires count { length roots.now.items ≡ length taken.now.items }
    ensures rows { (nodes : List FrozenNode) →
        option_map (rows_from nodes) result ≡
        option_map (λ s. s.rows)
        (snapshot_named (snapshots_of nodes taken.now.items roots.now.items) dir name.now) }
    ensures within { (n : ℕ) → AreBelow n roots.now.items → IfSome result (λ root. root < n) }
{
    match find(taken, dir, name) {
        Some(at) => Some(roots[at]),
        None => None,
    }
}

/// The directory and the root of the snapshot that was taken last.
#[derive(Clone, Copy)]
pub struct Last {
    pub dir: u64,
    pub root: u32,
}

/// Returns the root of the snapshot of a directory that was taken last, or the greatest number if it
/// has none. Takes as much time as the directory has snapshots, unless `last` is one of them.
pub fn newest_root(taken: &Vec<Taken>, roots: &Vec<u32>, last: Option<Last>, dir: u64) -> u32
    requires rising { IsRisingBy snapshot_cmp taken.now.items }
    requires count { length roots.now.items ≡ length taken.now.items }
{
    match last {
        Some(last) => {
            if last.dir == dir {
                return last.root;
            }
        }
        None => {}
    }
    let mut newest = u32::MAX;
    let mut number = 0;
    for at in first_of(taken, dir)..end_of(taken, dir) {
        let snapshot = &taken[at];
        if snapshot.number() >= number {
            number = snapshot.number();
            newest = roots[at];
        }
    }
    newest
}

/// Reserves memory for one more snapshot. Returns `NoMemory` if allocation fails.
pub fn reserve_place(taken: &mut Vec<Taken>, roots: &mut Vec<u32>) -> Result<(), NoMemory>
    ensures taken { taken.new.items ≡ taken.old.items }
    ensures roots { roots.new.items ≡ roots.old.items }
    ensures ok { OnOk result
        ((vec_len taken.new < vec_capacity taken.new) ×
        (vec_len roots.new < vec_capacity roots.new)) }
    ensures room { vec_len taken.old < vec_capacity taken.old →
        vec_len roots.old < vec_capacity roots.old → IsOk result }
{
    taken.reserve(1)?;
    roots.reserve(1)?;
    Ok(())
}

/// Adds a snapshot and its root in reserved memory. Its name must be free in its directory.
pub fn put_reserved(taken: &mut Vec<Taken>, roots: &mut Vec<u32>, snapshot: Taken, root: u32)
    requires rising { IsRisingBy snapshot_cmp taken.old.items }
    requires count { length roots.old.items ≡ length taken.old.items }
    requires free { snapshot_named taken.old.items snapshot.dir snapshot.name ≡ None }
    requires room { (vec_len taken.old < vec_capacity taken.old) ×
        (vec_len roots.old < vec_capacity roots.old) }
    ensures snapshots { (nodes : List FrozenNode) →
        snapshots_of nodes taken.new.items roots.new.items ≡
        put_snapshot
        (record { dir = snapshot.dir; name = snapshot.name; rows = rows_from nodes root })
        (snapshots_of nodes taken.old.items roots.old.items) }
    ensures count { length roots.new.items ≡ length taken.new.items }
    ensures below { (n : ℕ) → root < n → AreBelow n roots.old.items → AreBelow n roots.new.items }
{
    let at = place(taken, snapshot.dir(), snapshot.name());
    let _ = taken.insert(at, snapshot);
    let _ = roots.insert(at, root);
}

/// Removes a snapshot and its root, if there is one with the name. Returns how many rows it had.
pub fn remove(taken: &mut Vec<Taken>, roots: &mut Vec<u32>, dir: u64, name: &Text) -> usize
    requires rising { IsRisingBy snapshot_cmp taken.old.items }
    requires count { length roots.old.items ≡ length taken.old.items }
    ensures snapshots { (nodes : List FrozenNode) →
        snapshots_of nodes taken.new.items roots.new.items ≡
        without_snapshot (snapshots_of nodes taken.old.items roots.old.items) dir name.now }
    ensures count { length roots.new.items ≡ length taken.new.items }
    ensures below { (n : ℕ) → AreBelow n roots.old.items → AreBelow n roots.new.items }
{
    match find(taken, dir, name) {
        Some(at) => {
            let _root = roots.remove(at);
            let snapshot = taken.remove(at);
            snapshot.row_count() as usize
        }
        None => 0,
    }
}
