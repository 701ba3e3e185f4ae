//! The nodes of all snapshots.
ghost use Rattle.std.specs.Prelude.{◌≡◌, ◌+◌, ◌<◌, ◌≤◌, ◌++◌, ◌∷◌, [], length, vec_capacity, vec_len, ◌↔◌, IfOk, IsOk, IsTrue, OnOk, OnErr};
ghost use Rattle.frozen_nodes.specs.Forest.{AreKids, IsForest, KeepsNodes, node_at, rows_from, rows_of_node};
ghost use Rattle.frozen_nodes.specs.Packed.{AllInside, HasForestRoom, IsLess, nodes_in};

use crate::nodes::{Node, part};
use crate::same::{are_same_bytes, are_same_numbers, is_same_row};
use hk_base::NoMemory;
use inode_tree::Row;
use std::alloc::Global;
use std::marker::Model;

mod copies;
mod lookups;
mod moves;

/// The maximum number of nodes.
pub const MOST_NODES: usize = 4_294_967_295;

/// The nodes of snapshots. A node has a row, the last name of its path, and the numbers of its
/// children's nodes, which all come before it. Nodes may have kids in common. In contracts its value
/// is the list of the nodes, and how much memory is reserved for more.
#[derive(Drop)]
pub struct Forest {
    alloc: Global,
    nodes: Vec<Node>,
    kids: Vec<u32>,
    names: Vec<u8>,
}

impl Model for Forest {
    ghost use Rattle.std.specs.Prelude.{◌≤◌, ◌-◌, length, min};
    ghost use Rattle.std.specs.Vec.{vec_len};
    ghost use Rattle.frozen_nodes.specs.Forest.{IsForest};
    ghost use Rattle.frozen_nodes.specs.Packed.{AllInside, ForestState, nodes_in, spare};

    ghost Value = { ForestState };

    ghost view = { λ forest.
        record {
          nodes = nodes_in forest.names.items forest.kids.items forest.nodes.items;
          room = record {
            nodes = min (spare forest.nodes) (4294967295 - vec_len forest.nodes);
            kids = spare forest.kids;
            bytes = spare forest.names;
          };
        } };

    ghost invariant = { λ forest.
        IsForest (nodes_in forest.names.items forest.kids.items forest.nodes.items) ×
        AllInside (length forest.names.items) (length forest.kids.items) forest.nodes.items ×
        (vec_len forest.nodes ≤ 4294967295) };
}

fn append_bytes(all: &mut Vec<u8>, bytes: &[u8])
    requires { vec_len all.old + length bytes.now ≤ vec_capacity all.old }
    ensures items { all.new.items ≡ all.old.items ++ bytes.now }
    ensures len { vec_len all.new ≡ vec_len all.old + length bytes.now }
    ensures capacity { vec_capacity all.old ≤ vec_capacity all.new }
{
    let _ = all.extend_from_slice(bytes);
}

fn append_numbers(all: &mut Vec<u32>, numbers: &[u32])
    requires { vec_len all.old + length numbers.now ≤ vec_capacity all.old }
    ensures items { all.new.items ≡ all.old.items ++ numbers.now }
    ensures len { vec_len all.new ≡ vec_len all.old + length numbers.now }
    ensures capacity { vec_capacity all.old ≤ vec_capacity all.new }
{
    let _ = all.extend_from_slice(numbers);
}

/// Appends a node in reserved memory. Its name and its kids go to the ends of their lists.
fn append(
    nodes: &mut Vec<Node>,
    all_kids: &mut Vec<u32>,
    names: &mut Vec<u8>,
    row: Row,
    name: &[u8],
    kids: &[u32],
)
    requires inside { AllInside (length names.old.items) (length all_kids.old.items)
        nodes.old.items }
    requires few { length kids.now ≤ 4294967295 }
    requires short { length name.now ≤ 255 }
    requires nodes_fit { vec_len nodes.old < vec_capacity nodes.old }
    requires kids_fit { vec_len all_kids.old + length kids.now ≤ vec_capacity all_kids.old }
    requires bytes_fit { vec_len names.old + length name.now ≤ vec_capacity names.old }
    ensures nodes { nodes_in names.new.items all_kids.new.items nodes.new.items ≡
        nodes_in names.old.items all_kids.old.items nodes.old.items ++
        record { name = name.now; row = row; kids = kids.now } ∷ [] }
    ensures inside { AllInside (length names.new.items) (length all_kids.new.items)
        nodes.new.items }
    ensures lens { (vec_len nodes.new ≡ vec_len nodes.old + 1) ×
        (vec_len all_kids.new ≡ vec_len all_kids.old + length kids.now) ×
        (vec_len names.new ≡ vec_len names.old + length name.now) }
    ensures capacities { (vec_capacity nodes.old ≤ vec_capacity nodes.new) ×
        (vec_capacity all_kids.old ≤ vec_capacity all_kids.new) ×
        (vec_capacity names.old ≤ vec_capacity names.new) }
{
    let node = Node {
        row,
        name: names.as_slice().len(),
        kids: all_kids.as_slice().len(),
        kid_count: kids.len() as u32,
        name_len: name.len() as u8,
    };
    append_bytes(names, name);
    append_numbers(all_kids, kids);
    nodes.push_reserved(node);
}

impl Forest {
    /// Creates a forest without nodes. It does not allocate.
    pub fn new(alloc: Global) -> Forest
        ensures { result.nodes ≡ [] }
    {
        Forest {
            alloc,
            nodes: Vec::new(alloc),
            kids: Vec::new(alloc),
            names: Vec::new(alloc),
        }
    }

    /// Returns the number of nodes.
    pub fn len(&self) -> usize
        ensures len { result ≡ length self.now.nodes }
        ensures most { result ≤ 4294967295 }
    {
        self.nodes.len()
    }

    /// Does nothing: its contract says what is always true of the nodes.
    pub fn invariants(&self)
        ensures { IsForest self.now.nodes }
    {
        let _ = &self.alloc;
    }

    /// Returns the row of a node.
    pub fn row(&self, n: u32) -> Row
        requires { n < length self.now.nodes }
        ensures { result ≡ (node_at self.now.nodes n).row }
    {
        *self.nodes[n as usize].row()
    }

    /// Returns the name of a node, or no bytes if there is no such node.
    pub fn name(&self, n: u32) -> &[u8]
        ensures name { result.now ≡ (node_at self.now.nodes n).name }
        ensures short { length result.now ≤ 255 }
    {
        if (n as usize) < self.nodes.len() {
            self.nodes[n as usize].name(&self.names)
        } else {
            part(self.names.as_slice(), 0, 0)
        }
    }

    /// Returns the kids of a node, or none if there is no such node.
    pub fn kids(&self, n: u32) -> &[u32]
        ensures kids { result.now ≡ (node_at self.now.nodes n).kids }
        ensures few { length result.now ≤ 4294967295 }
    {
        if (n as usize) < self.nodes.len() {
            self.nodes[n as usize].kids(&self.kids)
        } else {
            part(self.kids.as_slice(), 0, 0)
        }
    }

    /// Reserves memory for `nodes` more nodes, which have `kids` kids and names of `bytes` bytes in
    /// all. Returns `NoMemory` if allocation fails, or if there would be more than 4,294,967,295
    /// nodes. The nodes are unchanged in either case.
    pub fn reserve(&mut self, nodes: usize, kids: usize, bytes: usize) -> Result<(), NoMemory>
        ensures same { self.new.nodes ≡ self.old.nodes }
        ensures ok { OnOk result (HasForestRoom nodes kids bytes self.new.room) }
        ensures room { HasForestRoom nodes kids bytes self.old.room → IsOk result }
    {
        if nodes > MOST_NODES - self.nodes.len() {
            return Err(NoMemory);
        }
        self.nodes.reserve(nodes)?;
        self.kids.reserve(kids)?;
        self.names.reserve(bytes)?;
        Ok(())
    }

    /// Appends a node in reserved memory, and returns its number. The other nodes keep their rows.
    pub fn push_reserved(&mut self, row: Row, name: &[u8], kids: &[u32]) -> u32
        requires kids { AreKids self.old.nodes (length self.old.nodes) kids.now }
        requires few { length kids.now ≤ 4294967295 }
        requires short { length name.now ≤ 255 }
        requires room { HasForestRoom 1 (length kids.now) (length name.now) self.old.room }
        ensures nodes { self.new.nodes ≡
            self.old.nodes ++ record { name = name.now; row = row; kids = kids.now } ∷ [] }
        ensures number { result ≡ length self.old.nodes }
        ensures rows { rows_from self.new.nodes result ≡
            rows_of_node self.old.nodes (record { name = name.now; row = row; kids = kids.now }) }
        ensures others { KeepsNodes self.old.nodes self.new.nodes }
        ensures spent { IsLess 1 (length kids.now) (length name.now) self.old.room self.new.room }
    {
        let number = self.len() as u32;
        append(
            &mut self.nodes,
            &mut self.kids,
            &mut self.names,
            row,
            name,
            kids,
        );
        number
    }

    /// Appends a node, and returns its number. The other nodes keep their rows. Returns `NoMemory`
    /// if allocation fails, or if there are 4,294,967,295 nodes; the nodes are then unchanged.
    pub fn push(&mut self, row: Row, name: &[u8], kids: &[u32]) -> Result<u32, NoMemory>
        requires kids { AreKids self.old.nodes (length self.old.nodes) kids.now }
        requires few { length kids.now ≤ 4294967295 }
        requires short { length name.now ≤ 255 }
        ensures ok { OnOk result
            (self.new.nodes ≡
            self.old.nodes ++ record { name = name.now; row = row; kids = kids.now } ∷ []) }
        ensures number { IfOk result (λ n. n ≡ length self.old.nodes) }
        ensures rows { IfOk result
            (λ n. rows_from self.new.nodes n ≡
            rows_of_node self.old.nodes
            (record { name = name.now; row = row; kids = kids.now })) }
        ensures others { OnOk result (KeepsNodes self.old.nodes self.new.nodes) }
        ensures err { OnErr result (self.new.nodes ≡ self.old.nodes) }
        ensures room { HasForestRoom 1 (length kids.now) (length name.now) self.old.room → IsOk result }
    {
        self.reserve(1, kids.len(), name.len())?;
        Ok(self.push_reserved(row, name, kids))
    }

    /// Returns whether there is a node at a number, with this row, this name and these kids.
    fn is_node(&self, n: u32, row: &Row, name: &[u8], kids: &[u32]) -> bool
        ensures { IsTrue result ↔
            ((n < length self.now.nodes) ×
            (node_at self.now.nodes n ≡
            record { name = name.now; row = row.now; kids = kids.now })) }
    {
        if (n as usize) >= self.nodes.len() {
            return false;
        }
        let same_row = is_same_row(self.nodes[n as usize].row(), row);
        let same_name = are_same_bytes(self.name(n), name);
        let same_kids = are_same_numbers(self.kids(n), kids);
        same_row && same_name && same_kids
    }

    /// Returns a node with this row, this name and these kids: the one at `hint` if it is such a
    /// node, or else a new one in reserved memory. The other nodes keep their rows.
    pub fn share_reserved(&mut self, hint: u32, row: Row, name: &[u8], kids: &[u32]) -> u32
        requires kids { AreKids self.old.nodes (length self.old.nodes) kids.now }
        requires few { length kids.now ≤ 4294967295 }
        requires short { length name.now ≤ 255 }
        requires room { HasForestRoom 1 (length kids.now) (length name.now) self.old.room }
        ensures within { result < length self.new.nodes }
        ensures node { node_at self.new.nodes result ≡
            record { name = name.now; row = row; kids = kids.now } }
        ensures rows { rows_from self.new.nodes result ≡
            rows_of_node self.old.nodes (record { name = name.now; row = row; kids = kids.now }) }
        ensures others { KeepsNodes self.old.nodes self.new.nodes }
        ensures shared { hint < length self.old.nodes →
            node_at self.old.nodes hint ≡ record { name = name.now; row = row; kids = kids.now } →
            (result ≡ hint) × (self.new ≡ self.old) }
        ensures spent { IsLess 1 (length kids.now) (length name.now) self.old.room self.new.room }
    {
        self.invariants();
        if self.is_node(hint, &row, name, kids) {
            return hint;
        }
        self.push_reserved(row, name, kids)
    }
}
