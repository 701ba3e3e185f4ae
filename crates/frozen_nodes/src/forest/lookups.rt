//! Look-ups by name, from a node down.
ghost use Rattle.std.specs.Prelude.{◌≡◌, ◌<◌, ◌≤◌, Some, None, length, map, take, true, false, IfOk, IfSome, if◌then◌else◌};
ghost use Rattle.std.specs.List.Sorted.{IsPartitionPoint};
ghost use Rattle.std.specs.Option.{option_map, option_map_or};
ghost use Rattle.std.specs.Ordering.{is_lt, nat_cmp};
ghost use Rattle.std.specs.Cmp.Lexicographic.{slice_cmp};
ghost use Rattle.std.specs.Str.{bytes_eq};
ghost use Rattle.inode_tree.specs.Listing.{children};
ghost use Rattle.inode_tree.specs.Rows.{is_dir, is_dir_at, is_marked, row_at, zone_of};
ghost use Rattle.name_calls.specs.Paths.{is_component};
ghost use Rattle.frozen_nodes.specs.Forest.{AreNamedInOrder, HaveNames, child_at, kid_named, node_at, node_below, rows_from};

use super::Forest;
use hk_base::{NoMemory, Text};
use inode_tree::{Kind, Row};
use name_calls::{Child, ChildList, NPath};
use std::alloc::Global;
use std::cmp::Ordering;

fn compare_bytes(bytes: &[u8], other: &[u8]) -> Ordering
    ensures { result ≡ slice_cmp nat_cmp bytes.now other.now }
{
    bytes.cmp(other)
}

fn text_of(alloc: Global, name: &[u8]) -> Result<Text, NoMemory>
    requires { is_component name.now ≡ true }
    ensures { IfOk result (λ text. text ≡ name.now) }
{
    match Text::from_utf8(Vec::from_slice(alloc, name)?) {
        Some(text) => Ok(text),
        None => unreachable!(),
    }
}

/// Returns whether the row is that of a marked directory.
fn marked(row: &Row) -> bool
    ensures { result ≡ is_marked row.now }
{
    match &row.kind {
        Kind::Dir { key } => key.is_some(),
        Kind::File { .. } => false,
    }
}

impl Forest {
    fn is_named_before(&self, n: u32, name: &Text) -> bool
        ensures { result ≡ is_lt (slice_cmp nat_cmp (node_at self.now.nodes n).name name.now) }
    {
        match compare_bytes(self.name(n), name.as_str().as_bytes()) {
            Ordering::Less => true,
            Ordering::Equal => false,
            Ordering::Greater => false,
        }
    }

    fn is_named(&self, n: u32, name: &Text) -> bool
        ensures { result ≡ bytes_eq (node_at self.now.nodes n).name name.now }
    {
        self.name(n) == name.as_str().as_bytes()
    }

    /// Returns how many of the kids have a smaller name.
    fn kid_place(&self, kids: &[u32], name: &Text) -> usize
        requires { AreNamedInOrder self.now.nodes kids.now }
        ensures most { result ≤ length kids.now }
        ensures parted { IsPartitionPoint
            (λ k. is_lt (slice_cmp nat_cmp (node_at self.now.nodes k).name name.now) ≡ true)
            (λ k. is_lt (slice_cmp nat_cmp (node_at self.now.nodes k).name name.now) ≡ false)
            kids.now result }
    {
        kids.partition_point(|kid| self.is_named_before(*kid, name))
    }

    /// Returns the kid of a node with a name.
    fn kid_named(&self, n: u32, name: &Text) -> Option<u32>
        ensures { result ≡ kid_named self.now.nodes (node_at self.now.nodes n).kids name.now }
    {
        self.invariants();
        let kids = self.kids(n);
        let at = self.kid_place(kids, name);
        if at == kids.len() {
            return None;
        }
        let kid = kids[at];
        if self.is_named(kid, name) {
            Some(kid)
        } else {
            None
        }
    }

    /// Returns the node at a path from a node.
    fn node_below(&self, root: u32, path: &NPath) -> Option<u32>
        requires { root < length self.now.nodes }
        ensures node { result ≡ node_below self.now.nodes root path.now }
        ensures within { IfSome result (λ n. n < length self.now.nodes) }
    {
        self.invariants();
        let mut n = root;
        for k in 0..path.len() {
            match self.kid_named(n, path.name(k)) {
                Some(kid) => n = kid,
                None => return None,
            }
        }
        Some(n)
    }

    /// Returns the name of a node, and whether its row is that of a directory.
    fn child(&self, n: u32) -> Result<Child, NoMemory>
        requires below { n < length self.now.nodes }
        requires rule { is_component (node_at self.now.nodes n).name ≡ true }
        ensures { IfOk result (λ child. child ≡ child_at self.now.nodes n) }
    {
        let name = text_of(self.alloc, self.name(n))?;
        let directory = self.row(n).kind.is_dir();
        Ok(Child { name, directory })
    }

    /// Returns the kids of a node as children.
    fn children(&self, n: u32) -> Result<ChildList, NoMemory>
        requires { n < length self.now.nodes }
        ensures { IfOk result
            (λ list. list ≡ map (child_at self.now.nodes) (node_at self.now.nodes n).kids) }
    {
        self.invariants();
        let mut list = ChildList::new(self.alloc);
        let kids = self.kids(n);
        for kid in kids {
            list.push(self.child(*kid)?)?;
        }
        Ok(list)
    }

    /// Returns the kids of a node as children, if its row is that of a directory.
    fn list_of(&self, n: u32) -> Result<Option<ChildList>, NoMemory>
        requires { n < length self.now.nodes }
        ensures { IfOk result
            (λ list. list ≡
            (if is_dir (node_at self.now.nodes n).row.kind
            then Some (map (child_at self.now.nodes) (node_at self.now.nodes n).kids)
            else None)) }
    {
        if !self.row(n).kind.is_dir() {
            return Ok(None);
        }
        let list = self.children(n)?;
        Ok(Some(list))
    }

    /// Returns the row at a path from a node, or `None` if there is none.
    pub fn look(&self, root: u32, path: &NPath) -> Option<Row>
        requires { root < length self.now.nodes }
        ensures { result ≡ row_at (rows_from self.now.nodes root) path.now }
    {
        self.invariants();
        match self.node_below(root, path) {
            Some(n) => Some(self.row(n)),
            None => None,
        }
    }

    /// Returns the children of the directory at a path from a node, or `None` if there is no
    /// directory at the path. Returns `NoMemory` if allocation fails.
    pub fn list(&self, root: u32, path: &NPath) -> Result<Option<ChildList>, NoMemory>
        requires { root < length self.now.nodes }
        ensures { IfOk result
            (λ list. list ≡
            (if is_dir_at (row_at (rows_from self.now.nodes root) path.now)
            then Some (children (rows_from self.now.nodes root) path.now) else None)) }
    {
        self.invariants();
        match self.node_below(root, path) {
            Some(n) => self.list_of(n),
            None => Ok(None),
        }
    }

    /// Returns `depth` if the row of a node is that of a marked directory, or else `zone`.
    fn zone_at(&self, n: u32, depth: usize, zone: Option<u8>) -> Option<u8>
        requires below { n < length self.now.nodes }
        requires depth { depth ≤ 100 }
        ensures { result ≡ (if is_marked (node_at self.now.nodes n).row then Some depth else zone) }
    {
        if marked(&self.row(n)) {
            Some(depth as u8)
        } else {
            zone
        }
    }

    /// Returns how many names of a path from a node lead to the directory of its zone: the deepest
    /// marked directory at or above the path. Returns `None` if there is none.
    pub fn zone_in(&self, root: u32, path: &NPath) -> Option<u8>
        requires { root < length self.now.nodes }
        ensures { result ≡
            option_map (λ e. length e.path) (zone_of (rows_from self.now.nodes root) path.now) }
    {
        self.invariants();
        let mut zone = None;
        let mut n = root;
        let depth = path.len();
        for k in 0..depth {
            let next = self.zone_at(n, k, zone);
            zone = next;
            match self.kid_named(n, path.name(k)) {
                Some(kid) => n = kid,
                None => return zone,
            }
        }
        self.zone_at(n, depth, zone)
    }
}
