//! The removal of rows, and the reuse of their nodes.
ghost use Rattle.std.specs.Prelude.{ℕ, ◌≡◌, ◌<◌, None, length, if◌then◌else◌};
ghost use Rattle.std.specs.HashMap.{get};
ghost use Rattle.std.specs.Bool.{nat_eq};
ghost use Rattle.std.specs.List.{remove};
ghost use Rattle.inode_tree.specs.Arena.{IsLeaf, IsTreeKept, rows_of};
ghost use Rattle.inode_tree.specs.Rows.{removed};

use super::{Tree, blank_node};
use crate::climbs::past;
use crate::hints::{Hints, place};
use crate::nodes::Nodes;
use crate::order::RowOrder;
use name_calls::NPath;
use std::collections::HashMap;

impl Tree {
    /// Removes the row at a path, if there is one, and all rows below it. The path must not be the
    /// root. It does not allocate. Each removed row takes as much time as adding one.
    pub fn remove(&mut self, path: &NPath)
        requires { 0 < length path.now }
        ensures { self.new.rows ≡ removed path.now self.old.rows }
    {
        clear(
            &mut self.nodes,
            &mut self.order,
            &mut self.places,
            &mut self.free,
            &self.hints,
            path,
        );
    }
}

/// Removes an id from `places`.
fn forget(places: &mut HashMap<u64, u32>, id: u64)
    ensures { (q : ℕ) →
        get nat_eq places.new q ≡ (if nat_eq id q then None else get nat_eq places.old q) }
{
    let _ = places.remove(&id);
}

/// Removes the row at the place `at`, which must not be the root or have children.
fn take_out(
    nodes: &mut Nodes,
    order: &mut RowOrder,
    places: &mut HashMap<u64, u32>,
    free: &mut Vec<u32>,
    at: usize,
)
    requires kept { IsTreeKept nodes.old order.old places.old free.old }
    requires leaf { IsLeaf nodes.old.items order.old.items at }
    ensures kept { IsTreeKept nodes.new order.new places.new free.new }
    ensures rows { rows_of nodes.new.items order.new.items ≡
        remove (rows_of nodes.old.items order.old.items) at }
{
    let n = order.get(at);
    let id = nodes.row(n).id;
    order.remove(at);
    forget(places, id);
    nodes.set(n, blank_node());
    free.push_reserved(n);
}

/// Removes the row at a path and all rows below it, the last in path order first.
fn clear(
    nodes: &mut Nodes,
    order: &mut RowOrder,
    places: &mut HashMap<u64, u32>,
    free: &mut Vec<u32>,
    hints: &Hints,
    path: &NPath,
)
    requires kept { IsTreeKept nodes.old order.old places.old free.old }
    requires deep { 0 < length path.now }
    ensures kept { IsTreeKept nodes.new order.new places.new free.new }
    ensures rows { rows_of nodes.new.items order.new.items ≡
        removed path.now (rows_of nodes.old.items order.old.items) }
{
    let from = place(nodes, order, hints, path, path.len());
    let mut end = past(nodes, order, path, from);
    'each: while from < end {
        end -= 1;
        take_out(nodes, order, places, free, end);
    }
}
