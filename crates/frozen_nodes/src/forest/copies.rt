//! Copies of the rows at and below a directory of a tree.
ghost use Rattle.std.specs.Prelude.{◌≡◌, ◌+◌, ◌<◌, ◌≤◌, length, vec_capacity, vec_len};
ghost use Rattle.frozen_nodes.specs.Copies.{HasRoomUpTo, IsCopy, IsRoomSpent, view_at};
ghost use Rattle.frozen_nodes.specs.Forest.{AreKids, KeepsNodes, node_at, rows_from, rows_of_node};
ghost use Rattle.frozen_nodes.specs.Packed.{HasForestRoom, IsLess};

use super::Forest;
use crate::nodes::after;
use inode_tree::{PlacedRow, Tree};

/// A node, and the first row after those that it has copies of, with its place.
#[derive(Clone, Copy)]
pub struct Copied<'a> {
    pub node: u32,
    pub next: u32,
    pub row: PlacedRow<'a>,
}

/// Reads the row at a place that is before the end. At the end, a row of depth 0 stands for none.
fn row_before<'a>(tree: &'a Tree, at: u32, end: u32, other: PlacedRow<'a>) -> PlacedRow<'a>
    requires end { end ≤ length tree.now.rows }
    ensures row { at < end →
        record { depth = result.depth; name = result.name.now; row = result.row.now } ≡
        view_at tree.now.rows at }
    ensures none { end ≤ at → result.depth ≡ 0 }
{
    if at < end {
        tree.placed_row(at, other.piece)
    } else {
        PlacedRow {
            depth: 0,
            name: other.name,
            row: other.row,
            piece: other.piece,
        }
    }
}

impl Forest {
    /// Returns the id of a node's row, or 0 if there is no such node.
    fn id(&self, n: u32) -> u64 {
        if (n as usize) < self.nodes.len() {
            return self.nodes[n as usize].row().id;
        }
        0
    }

    /// Returns whether a kid of a node is not before a row: has its id, or a name that does not come
    /// before its name.
    fn is_reached(&self, kid: u32, row: PlacedRow<'_>) -> bool {
        if self.id(kid) == row.row.id {
            return true;
        }
        self.name(kid) >= row.name
    }

    /// Returns the index of the first kid of a node, from `from` on, that is not before a row.
    fn kid_index(&self, n: u32, from: usize, row: PlacedRow<'_>) -> usize {
        let kids = self.kids(n);
        for index in from..kids.len() {
            if self.is_reached(kids[index], row) {
                return index;
            }
        }
        kids.len()
    }

    /// Returns the kid of a node at an index, or the greatest number if there is none.
    fn kid_at(&self, n: u32, index: usize) -> u32 {
        let kids = self.kids(n);
        if index < kids.len() {
            kids[index]
        } else {
            u32::MAX
        }
    }

    /// Returns a node that has a copy of a row, and these kids, in memory for the longest name.
    fn copy_row(&mut self, row: PlacedRow<'_>, hint: u32, kids: &[u32]) -> u32
        requires kids { AreKids self.old.nodes (length self.old.nodes) kids.now }
        requires few { length kids.now ≤ 4294967295 }
        requires short { length row.name.now ≤ 255 }
        requires room { HasForestRoom 1 (length kids.now) 255 self.old.room }
        ensures rows { rows_from self.new.nodes result ≡
            rows_of_node self.old.nodes
            (record { name = row.entry.name.now; row = row.entry.row.now; kids = kids.now }) }
        ensures within { result < length self.new.nodes }
        ensures name { (node_at self.new.nodes result).name ≡ row.entry.name.now }
        ensures others { KeepsNodes self.old.nodes self.new.nodes }
        ensures spent { IsLess 1 (length kids.now) 255 self.old.room self.new.room }
    {
        self.share_reserved(hint, *row.row, row.name, kids)
    }

    /// Copies the row at a place and the rows below it, as far as these come before the end, into
    /// nodes in reserved memory. A row whose copy and kids are the same as those of the node at the
    /// hint, or of one of its kids in turn, gets that node.
    pub(crate) fn copy<'a>(
        &mut self,
        tree: &'a Tree,
        at: u32,
        end: u32,
        row: PlacedRow<'a>,
        hint: u32,
        kids: &mut Vec<u32>,
    ) -> Copied<'a>
        requires at { at < end }
        requires end { end ≤ length tree.now.rows }
        requires row { record { depth = row.depth; name = row.name.now; row = row.row.now } ≡
            view_at tree.now.rows at }
        requires room { HasRoomUpTo at end self.old.room }
        requires kids_room { vec_len kids.old + end ≤ vec_capacity kids.old + at }
        ensures copy { IsCopy tree.now.rows at end row.entry.depth self.old.nodes self.new.nodes
            result.node result.next }
        ensures row { result.next < end →
            record { depth = result.row.depth; name = result.row.name.now; row = result.row.row.now }
            ≡ view_at tree.now.rows result.next }
        ensures none { end ≤ result.next → result.row.depth ≡ 0 }
        ensures spent { IsRoomSpent at result.next self.old.room self.new.room }
        ensures kids { kids.new.items ≡ kids.old.items }
        ensures kids_room { (vec_len kids.new ≡ vec_len kids.old) ×
            (vec_capacity kids.old ≤ vec_capacity kids.new) }
    {
        let _count = tree.rows();
        let start = kids.as_slice().len();
        let mut next = at + 1;
        let mut index = 0usize;
        let mut below = row_before(tree, next, end, row);
        'below: while row.depth < below.depth {
            index = self.kid_index(hint, index, below);
            let kid_hint = self.kid_at(hint, index);
            let kid = self.copy(tree, next, end, below, kid_hint, kids);
            kids.push_reserved(kid.node);
            next = kid.next;
            below = kid.row;
        }
        let own = after(kids.as_slice(), start);
        let node = self.copy_row(row, hint, own);
        kids.truncate(start);
        Copied {
            node,
            next,
            row: below,
        }
    }
}
