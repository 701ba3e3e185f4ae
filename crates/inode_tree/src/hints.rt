//! Hints for searches. No answer depends on them, only the time until it is found.
ghost use Rattle.std.specs.Prelude.{ℕ, Option, ◌≡◌, ◌<◌, ◌≤◌, [], IsTrue, length, slice_index_or, take};
ghost use Rattle.std.specs.Str.{bytes_eq};
ghost use Rattle.inode_tree.specs.Arena.{IsChildNode, IsHint, IsLive, IsNear, IsTree, rank, rows_of};

use crate::climbs::place_from;
use crate::names::NodeName;
use crate::near::{Near, near_at};
use crate::nodes::Nodes;
use crate::order::RowOrder;
use crate::rows::Link;
use hk_base::Text;
use name_calls::NPath;
use std::alloc::Global;
use std::hash::{FoldHasher, Hasher};

/// How many slots are tried for a name. So names whose hashes collide cost no more than this.
const TRIES: usize = 16;

/// The path that is likely to be looked for next, and the numbers of nodes by their directories and names.
/// A number is in one of the `TRIES` slots from its hash on. Slots may hold numbers of nodes that
/// have changed since, so each number that is found is checked at its node.
#[derive(Drop)]
pub struct Hints {
    /// The place right before that of the path.
    last: usize,
    /// The deepest node that was found on the way to the path, and the length of its path.
    node: u32,
    depth: usize,
    slots: Vec<u32>,
    noted: usize,
}

impl Hints {
    pub fn new(alloc: Global) -> Hints {
        Hints {
            last: 0,
            node: 0,
            depth: 0,
            slots: Vec::new(alloc),
            noted: 0,
        }
    }

    /// Notes the path that is likely to be looked for next: the place right before its place, and a node on
    /// the way to it.
    pub fn set_next(&mut self, last: usize, near: Near) {
        self.last = last;
        self.node = near.node;
        self.depth = near.depth;
    }

    /// Notes the number of the node that has a name in a directory.
    pub fn note(&mut self, parent: u32, name: &Text, n: u32) {
        put(&mut self.slots, parent, name.as_str().as_bytes(), n);
        self.noted = self.noted.saturating_add(1);
    }

    /// Notes all nodes anew in more slots, if about half of the slots are used. If allocation fails,
    /// the slots stay as they are.
    pub fn refresh(&mut self, alloc: Global, nodes: &Nodes)
        requires { length nodes.now.items ≤ 1000001 }
    {
        if self.noted <= self.slots.len() / 2 {
            return;
        }
        match vec![in alloc; 0u32; nodes.len() * 3 + 64] {
            Ok(empty) => {
                let mut slots = empty;
                put_all(&mut slots, nodes);
                self.slots = slots;
                self.noted = nodes.len();
            }
            Err(_) => (),
        }
    }
}

fn hash_of(parent: u32, name: &[u8]) -> usize {
    let mut hasher = FoldHasher::default();
    hasher.write_u32(parent);
    hasher.write(name);
    hasher.finish() as usize
}

/// Puts a number into an empty slot, or into the first slot of its hash if none is empty.
fn put(slots: &mut Vec<u32>, parent: u32, name: &[u8], n: u32) {
    let len = slots.len();
    if len <= TRIES {
        return;
    }
    let first = hash_of(parent, name) % (len - TRIES);
    'tries: for k in 0..TRIES {
        if slots[first + k] == 0 {
            slots[first + k] = n;
            return;
        }
    }
    slots[first] = n;
}

/// Puts the numbers of all nodes that have a name.
fn put_all(slots: &mut Vec<u32>, nodes: &Nodes)
    requires { length nodes.now.items ≤ 1000001 }
{
    'nodes: for n in 1..nodes.len() {
        let link = nodes.link(n as u32);
        let name = link.name.as_bytes();
        if name.len() > 0 {
            put(slots, link.parent, name, n as u32);
        }
    }
}

fn is_same(name: &NodeName, other: &Text) -> bool
    ensures { result ≡ bytes_eq name.now other.now }
{
    name.as_bytes() == other.as_str().as_bytes()
}

/// Returns whether the node with a number has the name in the directory.
fn is_child(nodes: &Nodes, n: u32, parent: u32, name: &Text) -> bool
    ensures { IsTrue result → IsChildNode nodes.now.items n parent name.now }
{
    if n == 0 {
        return false;
    }
    if n as usize >= nodes.len() {
        return false;
    }
    let link = nodes.link(n);
    if link.parent != parent {
        return false;
    }
    if name.as_str().len() == 0 {
        return false;
    }
    is_same(&link.name, name)
}

/// Returns the number of the node that has a name in a directory, if it is noted.
fn child(slots: &Vec<u32>, nodes: &Nodes, parent: u32, name: &Text) -> Option<u32>
    ensures { IsHint nodes.now.items parent name.now result }
{
    let len = slots.len();
    if len <= TRIES {
        return None;
    }
    let first = hash_of(parent, name.as_str().as_bytes()) % (len - TRIES);
    'tries: for k in 0..TRIES {
        let n = slots[first + k];
        if n == 0 {
            return None;
        }
        if is_child(nodes, n, parent, name) {
            return Some(n);
        }
    }
    None
}

/// Returns a node if it has a name, and so is that of a row, else the root.
fn live_or_root(nodes: &Nodes, order: &RowOrder, n: u32) -> u32
    requires tree { (ids : ℕ → Option ℕ) × IsTree nodes.now.items order.now.items ids }
    ensures { IsLive order.now.items result }
{
    let _ = order;
    if n as usize >= nodes.len() {
        return 0;
    }
    if nodes.link(n).name.as_bytes().len() == 0 {
        return 0;
    }
    n
}

/// Returns whether the node has the `k`-th name of the first `upto` names of a path.
fn has_name(link: &Link, path: &NPath, k: usize, upto: usize) -> bool
    requires upto { upto ≤ length path.now }
    ensures { IsTrue result → (k < upto) × (link.now.name ≡ slice_index_or path.now k []) }
{
    if k < upto {
        return is_same(&link.name, path.name(k));
    }
    false
}

/// Returns the deepest node at a prefix of the path that is the expected node or lies above it. That of
/// the root if the node has changed since.
fn expected(nodes: &Nodes, order: &RowOrder, hints: &Hints, path: &NPath, upto: usize) -> Near
    requires tree { (ids : ℕ → Option ℕ) × IsTree nodes.now.items order.now.items ids }
    requires upto { upto ≤ length path.now }
    ensures near { IsNear nodes.now.items path.now result }
    ensures live { IsLive order.now.items result.node }
    ensures upto { result.depth ≤ upto }
{
    let mut m = live_or_root(nodes, order, hints.node);
    let mut k = hints.depth;
    let mut near = m;
    let mut depth = k;
    'climb: while m != 0 {
        if k == 0 {
            return near_at(nodes, order, path, 0, 0);
        }
        k -= 1;
        let link = nodes.link(m);
        m = link.parent;
        if !has_name(link, path, k, upto) {
            near = m;
            depth = k;
        }
    }
    if k != 0 {
        return near_at(nodes, order, path, 0, 0);
    }
    near_at(nodes, order, path, near, depth)
}

/// Follows the first `upto` names of a path, as long as the nodes are noted. Returns the last of these
/// nodes.
pub fn follow(nodes: &Nodes, order: &RowOrder, hints: &Hints, path: &NPath, upto: usize) -> Near
    requires tree { (ids : ℕ → Option ℕ) × IsTree nodes.now.items order.now.items ids }
    requires upto { upto ≤ length path.now }
    ensures near { IsNear nodes.now.items path.now result }
    ensures live { IsLive order.now.items result.node }
    ensures upto { result.depth ≤ upto }
{
    let start = expected(nodes, order, hints, path, upto);
    let mut m = start.node;
    let mut k = start.depth;
    'names: while k < upto {
        match child(&hints.slots, nodes, m, path.name(k)) {
            Some(n) => m = n,
            None => return near_at(nodes, order, path, m, k),
        }
        k += 1;
    }
    near_at(nodes, order, path, m, k)
}

/// Returns how many rows come before the path formed by the first `upto` names of `path`.
pub fn place(nodes: &Nodes, order: &RowOrder, hints: &Hints, path: &NPath, upto: usize) -> usize
    requires tree { (ids : ℕ → Option ℕ) × IsTree nodes.now.items order.now.items ids }
    requires upto { upto ≤ length path.now }
    ensures { result ≡ rank (rows_of nodes.now.items order.now.items) (take upto path.now) }
{
    place_near(
        nodes,
        order,
        hints,
        path,
        upto,
        follow(nodes, order, hints, path, upto),
    )
}

/// Notes that a path is likely to be looked for next.
pub fn expect(nodes: &Nodes, order: &RowOrder, hints: &mut Hints, path: &NPath)
    requires tree { (ids : ℕ → Option ℕ) × IsTree nodes.now.items order.now.items ids }
{
    let upto = path.len();
    let near = follow(nodes, order, hints, path, upto);
    let at = place_near(nodes, order, hints, path, upto, near);
    hints.set_next(at.saturating_sub(1), near);
}

/// Returns the same as `place`, by comparing from a near node on.
pub fn place_near(
    nodes: &Nodes,
    order: &RowOrder,
    hints: &Hints,
    path: &NPath,
    upto: usize,
    near: Near,
) -> usize
    requires tree { (ids : ℕ → Option ℕ) × IsTree nodes.now.items order.now.items ids }
    requires upto { upto ≤ length path.now }
    requires near { IsNear nodes.now.items path.now near }
    ensures { result ≡ rank (rows_of nodes.now.items order.now.items) (take upto path.now) }
{
    place_from(nodes, order, hints.last, path, upto, near)
}
