//! The children of a directory, in the order of the rows.
ghost use Rattle.std.specs.Prelude.{ℕ, Option, ◌≡◌, ◌<◌, ◌++◌, ◌∷◌, [], length, IfOk, OnOk};
ghost use Rattle.inode_tree.specs.Arena.{IsSkip, IsTree, rows_of};
ghost use Rattle.inode_tree.specs.Listing.{children};
ghost use Rattle.inode_tree.specs.Rows.{is_dir};

use super::{Tree, build};
use crate::climbs::{depth, past};
use crate::hints::{Hints, place};
use crate::names::copy_of;
use crate::nodes::Nodes;
use crate::order::RowOrder;
use crate::rows::{Link, Row};
use hk_base::NoMemory;
use name_calls::{Child, ChildList, NPath};
use std::alloc::Global;

impl Tree {
    /// Returns the children of the directory at a path, in the order of the rows. The list is empty
    /// if there is no directory at the path. Returns `NoMemory` if allocation fails. The time
    /// depends on the number of children, not on the number of rows below them.
    pub fn list(&self, path: &NPath) -> Result<ChildList, NoMemory>
        ensures { IfOk result (λ list. list ≡ children self.now.rows path.now) }
    {
        list(self.alloc, &self.nodes, &self.order, &self.hints, path)
    }
}

/// Returns the children of a directory. Skips the rows below each child.
fn list(
    alloc: Global,
    nodes: &Nodes,
    order: &RowOrder,
    hints: &Hints,
    path: &NPath,
) -> Result<ChildList, NoMemory>
    requires tree { (ids : ℕ → Option ℕ) × IsTree nodes.now.items order.now.items ids }
    ensures { IfOk result
        (λ list. list ≡ children (rows_of nodes.now.items order.now.items) path.now) }
{
    let mut list = ChildList::new(alloc);
    let mut at = place(nodes, order, hints, path, path.len());
    let end = past(nodes, order, path, at);
    'each: while at < end {
        let n = order.get(at);
        if depth(nodes, n) == path.len() + 1 {
            push(alloc, &mut list, nodes.link(n), nodes.row(n))?;
            at = skip(alloc, nodes, order, at)?;
        } else {
            at += 1;
        }
    }
    Ok(list)
}

/// Appends a node to the list of children.
fn push(alloc: Global, list: &mut ChildList, link: &Link, row: &Row) -> Result<(), NoMemory>
    ensures { OnOk result
        (list.new ≡
        list.old ++ record { name = link.now.name; directory = is_dir row.now.kind } ∷ []) }
{
    let name = copy_of(alloc, &link.name)?;
    let directory = row.kind.is_dir();
    list.push(Child { name, directory })?;
    Ok(())
}

/// Returns the place after a row and after all rows below it.
fn skip(alloc: Global, nodes: &Nodes, order: &RowOrder, at: usize) -> Result<usize, NoMemory>
    requires tree { (ids : ℕ → Option ℕ) × IsTree nodes.now.items order.now.items ids }
    requires at { at < length order.now.items }
    ensures { IfOk result (λ next. IsSkip nodes.now.items order.now.items at next) }
{
    let n = order.get(at);
    let next = at + 1;
    if next == order.len() {
        return Ok(next);
    }
    // the next row in path order lies directly in this row, or no row does
    if nodes.link(order.get(next)).parent != n {
        return Ok(next);
    }
    let path = build(alloc, nodes, n)?;
    Ok(past(nodes, order, &path, next))
}
