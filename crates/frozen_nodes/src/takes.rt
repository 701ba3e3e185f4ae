//! Nodes for the rows at and below a directory of a tree.
ghost use Rattle.std.specs.Prelude.{◌≡◌, ◌+◌, ◌<◌, ◌≤◌, length, IfOk, IsOk, IsSome, IsTrue, OnErr, OnOk};
ghost use Rattle.inode_tree.specs.Below.{rows_below};
ghost use Rattle.inode_tree.specs.Rows.{row_at};
ghost use Rattle.frozen_nodes.specs.Copies.{FitsCopies, IsBlock, path_at};
ghost use Rattle.frozen_nodes.specs.Forest.{KeepsNodes, rows_from};

use crate::forest::Forest;
use hk_base::NoMemory;
use inode_tree::Tree;
use name_calls::NPath;
use std::alloc::Global;
use std::marker::Model;

/// The maximum number of bytes of a name.
const MOST_BYTES: usize = 255;

/// Rows that have nodes: the node of their directory, and the number of rows at and below it.
#[derive(Clone, Copy)]
pub struct FrozenRows {
    pub root: u32,
    pub count: u32,
}

/// Memory that copies of rows need apart from that of their nodes.
#[derive(Drop)]
pub struct CopyBuffer {
    kids: Vec<u32>,
}

impl Model for CopyBuffer {
    ghost use Rattle.std.specs.Prelude.{◌-◌};
    ghost use Rattle.std.specs.Vec.{vec_len, vec_capacity};
    ghost use Rattle.frozen_nodes.specs.Copies.{CopyRoom};

    ghost Value = { CopyRoom };

    ghost view = { λ buffer.
        record { kids = vec_capacity buffer.kids - vec_len buffer.kids } };
}

impl CopyBuffer {
    /// Creates a buffer without memory. It does not allocate.
    pub fn new(alloc: Global) -> CopyBuffer {
        CopyBuffer {
            kids: Vec::new(alloc),
        }
    }

    /// Reserves memory for copies of so many rows. Returns `NoMemory` if allocation fails.
    fn reserve(&mut self, rows: usize) -> Result<(), NoMemory>
        ensures ok { OnOk result (rows ≤ self.new.kids) }
        ensures room { rows ≤ self.old.kids → IsOk result }
    {
        self.kids.reserve(rows)?;
        Ok(())
    }

    /// Copies the rows from a place up to the end into nodes, with the buffer's memory.
    fn copy(
        &mut self,
        forest: &mut Forest,
        tree: &Tree,
        path: &NPath,
        at: u32,
        end: u32,
        hint: u32,
    ) -> u32
        requires block { IsBlock tree.now.rows path.now at end }
        requires room { FitsCopies (length (rows_below tree.now.rows path.now)) forest.old.room
            self.old }
        ensures rows { rows_from forest.new.nodes result ≡ rows_below tree.now.rows path.now }
        ensures within { result < length forest.new.nodes }
        ensures others { KeepsNodes forest.old.nodes forest.new.nodes }
    {
        let _count = tree.rows();
        let row = tree.placed_row(at, 0);
        let copied = forest.copy(tree, at, end, row, hint, &mut self.kids);
        copied.node
    }
}

/// Returns a place between two.
fn halfway(low: u32, high: u32) -> u32
    requires { low < high }
    ensures from { low ≤ result }
    ensures to { result < high }
{
    low + (high - low) / 2
}

/// Returns the place after the last row at or below a path, which has a row at the place `from`.
fn end_below(tree: &Tree, from: u32, path: &NPath) -> u32
    requires from { from < length tree.now.rows }
    requires path { path_at tree.now.rows from ≡ path.now }
    ensures { IsBlock tree.now.rows path.now from result }
{
    let mut high = tree.rows();
    let mut low = from + 1;
    'halve: while low < high {
        let middle = halfway(low, high);
        if tree.place_is_below(middle, path) {
            low = middle + 1;
        } else {
            high = middle;
        }
    }
    low
}

/// Where the rows at and below a path are.
#[derive(Clone, Copy)]
struct Block {
    at: u32,
    end: u32,
}

/// Returns the places of the rows at and below a path.
fn block_of(tree: &Tree, path: &NPath) -> Block
    requires { IsSome (row_at tree.now.rows path.now) }
    ensures block { IsBlock tree.now.rows path.now result.at result.end }
    ensures count { result.at + length (rows_below tree.now.rows path.now) ≡ result.end }
{
    let _count = tree.rows();
    let at = tree.place(path);
    let end = end_below(tree, at, path);
    Block { at, end }
}

/// Returns the number of rows at and below a path.
fn row_count(tree: &Tree, path: &NPath) -> usize
    requires { IsSome (row_at tree.now.rows path.now) }
    ensures count { result ≡ length (rows_below tree.now.rows path.now) }
    ensures most { result ≤ 4294967295 }
{
    let block = block_of(tree, path);
    (block.end - block.at) as usize
}

/// Reserves the memory for copies of so many rows.
fn reserve_rows(forest: &mut Forest, buffer: &mut CopyBuffer, rows: usize) -> Result<(), NoMemory>
    requires { rows ≤ 4294967295 }
    ensures same { forest.new.nodes ≡ forest.old.nodes }
    ensures ok { OnOk result (FitsCopies rows forest.new.room buffer.new) }
    ensures room { FitsCopies rows forest.old.room buffer.old → IsOk result }
{
    forest.reserve(rows, rows, MOST_BYTES * rows)?;
    buffer.reserve(rows)?;
    Ok(())
}

/// Reserves the memory for copies of the rows at and below a path, which must have a row. The nodes
/// are unchanged. After `Ok`, `take` of the path succeeds as long as neither these rows nor the
/// nodes change.
pub fn reserve_take(
    forest: &mut Forest,
    buffer: &mut CopyBuffer,
    tree: &Tree,
    path: &NPath,
) -> Result<(), NoMemory>
    requires { IsSome (row_at tree.now.rows path.now) }
    ensures same { forest.new.nodes ≡ forest.old.nodes }
    ensures ok { OnOk result
        (FitsCopies (length (rows_below tree.now.rows path.now)) forest.new.room buffer.new) }
    ensures room { FitsCopies (length (rows_below tree.now.rows path.now)) forest.old.room
        buffer.old → IsOk result }
{
    reserve_rows(forest, buffer, row_count(tree, path))
}

/// Returns a node that has copies of the rows at and below a path, which must have a row, and the
/// number of these rows. The other nodes keep their rows. A row and the rows below it that are the
/// same as those of the node `near`, or at the same place below it, get that node once more. Returns
/// `NoMemory` if allocation fails; the nodes are then unchanged. It does not allocate if the memory
/// was reserved.
pub fn take(
    forest: &mut Forest,
    buffer: &mut CopyBuffer,
    tree: &Tree,
    path: &NPath,
    near: u32,
) -> Result<FrozenRows, NoMemory>
    requires { IsSome (row_at tree.now.rows path.now) }
    ensures rows { IfOk result
        (λ frozen. rows_from forest.new.nodes frozen.root ≡ rows_below tree.now.rows path.now) }
    ensures count { IfOk result
        (λ frozen. frozen.count ≡ length (rows_below tree.now.rows path.now)) }
    ensures within { IfOk result (λ frozen. frozen.root < length forest.new.nodes) }
    ensures others { KeepsNodes forest.old.nodes forest.new.nodes }
    ensures err { OnErr result (forest.new.nodes ≡ forest.old.nodes) }
    ensures room { FitsCopies (length (rows_below tree.now.rows path.now)) forest.old.room
        buffer.old → IsOk result }
{
    reserve_take(forest, buffer, tree, path)?;
    let block = block_of(tree, path);
    let root = buffer.copy(forest, tree, path, block.at, block.end, near);
    let count = block.end - block.at;
    Ok(FrozenRows { root, count })
}
