//! Rows by their place in path order, and their paths relative to a directory.
ghost use Rattle.std.specs.Prelude.{◌≡◌, ◌<◌, ◌≤◌, ◌-◌, [], Some, length, drop, slice_get, slice_index_or, IsTrue, IfOk};
ghost use Rattle.std.specs.Option.{option_map};
ghost use Rattle.inode_tree.specs.Arena.{IsLinked, path_of, rank};
ghost use Rattle.inode_tree.specs.Below.{at_or_above, at_or_below, view_of};
ghost use Rattle.inode_tree.specs.Rows.{Entry};
ghost use Rattle.name_calls.specs.Paths.{is_prefix, is_relative, last_name};

use super::{Tree, extend};
use crate::climbs::{above, below, depth};
use crate::hints::place;
use crate::nodes::Nodes;
use crate::rows::Row;
use hk_base::NoMemory;
use name_calls::NPath;
use std::alloc::Global;

/// What a walk over rows reads of one: the number of names in its path, the last of these names, and
/// the row. The root has no names. Where the row was found, `piece`, helps to find the row after it.
#[derive(Clone, Copy)]
pub struct PlacedRow<'a> {
    pub depth: usize,
    pub name: &'a [u8],
    pub row: &'a Row,
    pub piece: usize,
}

impl Tree {
    /// Returns how many rows come before a path in path order. If the path has a row, that is the
    /// place of the row.
    pub fn place(&self, path: &NPath) -> u32
        ensures { result ≡ rank self.now.rows path.now }
    {
        place(&self.nodes, &self.order, &self.hints, path, path.len()) as u32
    }

    /// Returns the row at a place in path order, counted from 0.
    pub fn row_at_place(&self, at: u32) -> Row
        requires { at < length self.now.rows }
        ensures { option_map (λ e. e.row) (slice_get self.now.rows at) ≡ Some result }
    {
        *self.nodes.row(self.order.get(at as usize))
    }

    /// Reads the row at a place in path order, and what it has of its path. It builds no path. `piece`
    /// is that of the row before it, or 0: no answer depends on it, only the time.
    pub fn placed_row(&self, at: u32, piece: usize) -> PlacedRow<'_>
        requires { at < length self.now.rows }
        ensures { option_map view_of (slice_get self.now.rows at) ≡
            Some (record { depth = result.depth; name = result.name.now; row = result.row.now }) }
    {
        let piece = self.order.piece_near(piece, at as usize);
        let n = self.order.get_near(piece, at as usize);
        PlacedRow {
            depth: depth(&self.nodes, n),
            name: own_name(&self.nodes, n),
            row: self.nodes.row(n),
            piece,
        }
    }

    /// Returns the `k`-th name of the path of the row at a place, counted from 0, which its path must
    /// have. It builds no path, and takes a step for each name after that one.
    pub fn name_at_place(&self, at: u32, k: usize) -> &[u8]
        requires at { at < length self.now.rows }
        requires k { (e : Entry) → slice_get self.now.rows at ≡ Some e → k < length e.path }
        ensures { (e : Entry) → slice_get self.now.rows at ≡ Some e →
            result.now ≡ slice_index_or e.path k [] }
    {
        name_of(&self.nodes, self.order.get(at as usize), k)
    }

    /// Returns whether the path of the row at a place is the path or lies below it.
    pub fn place_is_below(&self, at: u32, path: &NPath) -> bool
        requires { at < length self.now.rows }
        ensures { option_map (λ e. is_prefix path.now e.path) (slice_get self.now.rows at) ≡
            Some result }
    {
        below(&self.nodes, self.order.get(at as usize), path)
    }

    /// Returns the path of the row at a place without its first `from` names: relative to the
    /// directory at those names. Returns `NoMemory` if allocation fails.
    pub fn path_from(&self, at: u32, from: usize) -> Result<NPath, NoMemory>
        requires { at < length self.now.rows }
        ensures { IfOk result
            (λ path. option_map (λ e. drop from e.path) (slice_get self.now.rows at) ≡ Some path) }
    {
        let n = self.order.get(at as usize);
        let count = depth(&self.nodes, n).saturating_sub(from);
        build_last(self.alloc, &self.nodes, n, count)
    }

    /// Returns whether the row with an id is at the path or below it: `false` if no row has the id.
    pub fn at_or_below(&self, id: u64, path: &NPath) -> bool
        ensures { result ≡ at_or_below self.now.rows id path.now }
    {
        match self.places.get(&id) {
            Some(n) => below(&self.nodes, *n, path),
            None => false,
        }
    }

    /// Returns whether the row with an id is at the path or above it: `false` if no row has the id.
    pub fn at_or_above(&self, id: u64, path: &NPath) -> bool
        ensures { result ≡ at_or_above self.now.rows id path.now }
    {
        match self.places.get(&id) {
            Some(n) => above(&self.nodes, *n, path),
            None => false,
        }
    }
}

/// Returns the last name of a node's path: no bytes if it is the root.
fn own_name(nodes: &Nodes, n: u32) -> &[u8]
    requires linked { IsLinked nodes.now.items }
    requires live { n < length nodes.now.items }
    ensures { result.now ≡ last_name (path_of nodes.now.items n) }
{
    if n == 0 {
        return b"";
    }
    nodes.link(n).name.as_bytes()
}

/// Returns the `k`-th name of a node's path, counted from 0.
fn name_of(nodes: &Nodes, n: u32, k: usize) -> &[u8]
    requires linked { IsLinked nodes.now.items }
    requires live { n < length nodes.now.items }
    requires k { k < length (path_of nodes.now.items n) }
    ensures { result.now ≡ slice_index_or (path_of nodes.now.items n) k [] }
{
    let mut m = n;
    let mut left = depth(nodes, n) - k - 1;
    'climb: while left != 0 {
        m = nodes.link(m).parent;
        left -= 1;
    }
    own_name(nodes, m)
}

/// Builds a path from the last `count` names of a node's path.
fn build_last(alloc: Global, nodes: &Nodes, n: u32, count: usize) -> Result<NPath, NoMemory>
    requires linked { IsLinked nodes.now.items }
    requires live { n < length nodes.now.items }
    requires rule { IsTrue (is_relative (path_of nodes.now.items n)) }
    requires count { count ≤ length (path_of nodes.now.items n) }
    ensures { IfOk result
        (λ path. path ≡
        drop (length (path_of nodes.now.items n) - count) (path_of nodes.now.items n)) }
{
    if count == 0 {
        return Ok(NPath::root(alloc));
    }
    let link = nodes.link(n);
    let mut path = build_last(alloc, nodes, link.parent, count - 1)?;
    extend(alloc, &mut path, &link.name)?;
    Ok(path)
}
