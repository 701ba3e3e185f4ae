//! Moves of rows to other paths.
ghost use Rattle.std.specs.Prelude.{ℕ, Option, ◌≡◌, ◌<◌, ◌≤◌, [], length, slice_set, string_bytes, string_capacity, IsOk, OnOk, OnErr};
ghost use Rattle.inode_tree.specs.Arena.{IsTree, IsTreeKept, rank, rank_past, rows_of, with_place};
ghost use Rattle.inode_tree.specs.Listed.{shifted};
ghost use Rattle.inode_tree.specs.Moves.{CanMove, renamed};
ghost use Rattle.inode_tree.specs.Rows.{need};
ghost use Rattle.name_calls.specs.Paths.{last_name};

use super::{Tree, last_len, make_room, seek};
use crate::climbs::past;
use crate::hints::{Hints, place};
use crate::names::name_in;
use crate::nodes::Nodes;
use crate::order::RowOrder;
use hk_base::NoMemory;
use name_calls::NPath;
use std::alloc::Global;
use std::collections::HashMap;

impl Tree {
    /// Reserves the memory that `rename` to this path needs, so that `rename` can't fail. Returns
    /// `NoMemory` if allocation fails. The rows are unchanged in either case.
    pub fn reserve_rename(&mut self, _path: &NPath, to: &NPath) -> Result<(), NoMemory>
        ensures same { self.new.rows ≡ self.old.rows }
        ensures ok { OnOk result (need to.now ≤ self.new.spare) }
    {
        make_room(
            &mut self.nodes,
            &mut self.order,
            &mut self.places,
            &mut self.free,
            &mut self.ready,
            last_len(to),
        )
    }

    /// Moves the row at a path, and all rows below it, to another path. Ids, marks and encrypted
    /// keys stay. There must be a row at the path. The other path must be free, its parent must be
    /// a directory, and it must not be the path or lie below it. Each moved path must keep the rule
    /// of lengths (`move_fits`). Returns `NoMemory` if allocation fails; the rows are then
    /// unchanged. It can't fail if the memory was reserved.
    ///
    /// The time is that of a few searches, and of a pass over the pieces of the order.
    pub fn rename(&mut self, path: &NPath, to: &NPath) -> Result<(), NoMemory>
        requires { CanMove self.old.rows path.now to.now }
        ensures ok { OnOk result (self.new.rows ≡ renamed path.now to.now self.old.rows) }
        ensures err { OnErr result (self.new.rows ≡ self.old.rows) }
        ensures room { need to.now ≤ self.old.spare → IsOk result }
    {
        make_room(
            &mut self.nodes,
            &mut self.order,
            &mut self.places,
            &mut self.free,
            &mut self.ready,
            last_len(to),
        )?;
        relocate(
            self.alloc,
            &mut self.nodes,
            &mut self.order,
            &self.places,
            &self.free,
            &mut self.ready,
            &mut self.hints,
            path,
            to,
        );
        Ok(())
    }
}

/// Moves the numbers of the rows at and below a path to the place of another path.
fn shift(nodes: &Nodes, order: &mut RowOrder, hints: &Hints, path: &NPath, to: &NPath)
    requires tree { (ids : ℕ → Option ℕ) × IsTree nodes.now.items order.old.items ids }
    requires can { CanMove (rows_of nodes.now.items order.old.items) path.now to.now }
    requires room { 0 < order.old.spare }
    ensures { order.new.items ≡
        shifted (rank (rows_of nodes.now.items order.old.items) path.now)
        (rank_past (rows_of nodes.now.items order.old.items) path.now)
        (rank (rows_of nodes.now.items order.old.items) to.now) order.old.items }
{
    let from = place(nodes, order, hints, path, path.len());
    let end = past(nodes, order, path, from);
    let at = place(nodes, order, hints, to, to.len());
    if at <= from {
        order.swap_runs(at, from, end);
    } else {
        order.swap_runs(from, end, at);
    }
}

/// Moves the row at a path, and all rows below it, to another path, in reserved memory.
fn relocate(
    alloc: Global,
    nodes: &mut Nodes,
    order: &mut RowOrder,
    places: &HashMap<u64, u32>,
    free: &Vec<u32>,
    ready: &mut String,
    hints: &mut Hints,
    path: &NPath,
    to: &NPath,
)
    requires kept { IsTreeKept nodes.old order.old places.now free.now }
    requires ready { string_bytes ready.old ≡ [] }
    requires room { (0 < order.old.spare) ×
        (length (last_name to.now) ≤ string_capacity ready.old) }
    requires can { CanMove (rows_of nodes.old.items order.old.items) path.now to.now }
    ensures kept { IsTreeKept nodes.new order.new places.now free.now }
    ensures ready { string_bytes ready.new ≡ [] }
    ensures rows { rows_of nodes.new.items order.new.items ≡
        renamed path.now to.now (rows_of nodes.old.items order.old.items) }
{
    let _ = places;
    let _ = free;
    let upto = to.len() - 1;
    let n = match seek(nodes, order, hints, path, path.len()) {
        Some(n) => n,
        None => unreachable!(),
    };
    let parent = match seek(nodes, order, hints, to, upto) {
        Some(n) => n,
        None => unreachable!(),
    };
    shift(nodes, order, hints, path, to);
    let name = name_in(alloc, ready, to.name(upto));
    hints.note(parent, to.name(upto), n);
    nodes.set_link(n, parent, name);
}
