//! The nodes of a tree. What a search reads of them lies apart from the rest.
ghost use Rattle.std.specs.Prelude.{◌≡◌, ◌<◌, ◌++◌, ◌∷◌, [], length, slice_set, IfOk, OnOk, IsOk, ℕ};
ghost use Rattle.inode_tree.specs.Arena.{link_at, node_at, rekind, with_place};

use crate::names::NodeName;
use crate::rows::{Kind, Link, Node, Row};
use hk_base::NoMemory;
use std::alloc::Global;
use std::marker::Model;

/// Nodes by their numbers, from 0 on. In contracts its value is their list, and how many more have memory.
#[derive(Drop)]
pub struct Nodes {
    links: Vec<Link>,
    rows: Vec<Row>,
}

impl Model for Nodes {
    ghost use Rattle.std.specs.Prelude.{◌≡◌, ◌-◌, length, min};
    ghost use Rattle.std.specs.Vec.{vec_len, vec_capacity};
    ghost use Rattle.inode_tree.specs.NodeList.{NodeList, joined};

    ghost Value = { NodeList };

    ghost view = { λ s.
        record {
          items = joined s.links.items s.rows.items;
          spare = min (vec_capacity s.links - vec_len s.links)
              (vec_capacity s.rows - vec_len s.rows);
        } };

    ghost invariant = { λ s. length s.rows.items ≡ length s.links.items };
}

impl Nodes {
    pub fn new(alloc: Global) -> Nodes
        ensures { result.items ≡ [] }
    {
        Nodes {
            links: Vec::new(alloc),
            rows: Vec::new(alloc),
        }
    }

    pub fn len(&self) -> usize
        ensures { result ≡ length self.now.items }
    {
        self.links.len()
    }

    /// Returns what a search reads of a node.
    pub fn link(&self, n: u32) -> &Link
        requires { n < length self.now.items }
        ensures { result.now ≡ link_at self.now.items n }
    {
        &self.links[n as usize]
    }

    /// Returns the row of a node.
    pub fn row(&self, n: u32) -> &Row
        requires { n < length self.now.items }
        ensures { result.now ≡ (node_at self.now.items n).row }
    {
        &self.rows[n as usize]
    }

    /// Reserves memory for one more node. Returns `NoMemory` if allocation fails.
    pub fn reserve(&mut self) -> Result<(), NoMemory>
        ensures items { self.new.items ≡ self.old.items }
        ensures ok { OnOk result (0 < self.new.spare) }
    {
        self.links.reserve(1)?;
        self.rows.reserve(1)?;
        Ok(())
    }

    /// Appends a node, in reserved memory.
    pub fn push_reserved(&mut self, node: Node)
        requires { 0 < self.old.spare }
        ensures items { self.new.items ≡ self.old.items ++ node ∷ [] }
    {
        let Node { parent, name, row } = node;
        self.links.push_reserved(Link { parent, name });
        self.rows.push_reserved(row);
    }

    /// Puts another node in the place of the `n`-th.
    pub fn set(&mut self, n: u32, node: Node)
        requires { n < length self.old.items }
        ensures { self.new.items ≡ slice_set self.old.items n node }
    {
        let Node { parent, name, row } = node;
        self.links[n as usize] = Link { parent, name };
        self.rows[n as usize] = row;
    }

    /// Gives a node another kind.
    pub fn set_kind(&mut self, n: u32, kind: Kind)
        requires { n < length self.old.items }
        ensures { self.new.items ≡ rekind self.old.items n kind }
    {
        let row = &mut self.rows[n as usize];
        row.kind = kind;
    }

    /// Gives a node another directory and another name.
    pub fn set_link(&mut self, n: u32, parent: u32, name: NodeName)
        requires { n < length self.old.items }
        ensures { self.new.items ≡ with_place self.old.items n parent name }
    {
        self.links[n as usize] = Link { parent, name };
    }
}
