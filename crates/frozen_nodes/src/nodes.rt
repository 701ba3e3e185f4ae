//! Nodes, whose names and kids lie in lists of their own.
ghost use Rattle.std.specs.Prelude.{◌≡◌, ◌≤◌, take, drop, length};
ghost use Rattle.frozen_nodes.specs.Packed.{part};

use inode_tree::Row;
use std::marker::Model;

/// Returns the first `count` elements, or all if there are fewer.
#[tactic(auto, using(std::proofs::lemmas::List::take_all))]
fn upto<T>(items: &[T], count: usize) -> &[T]
    ensures items { result.now ≡ take count items.now }
    ensures most { length result.now ≤ count }
{
    if count < items.len() {
        &items[..count]
    } else {
        items
    }
}

/// Returns the elements after the first `count`.
pub fn after<T>(items: &[T], count: usize) -> &[T]
    ensures { result.now ≡ drop count items.now }
{
    if count < items.len() {
        &items[count..]
    } else {
        &items[items.len()..]
    }
}

/// Returns `count` elements from the place `from` on, or as many as there are.
pub fn part<T>(items: &[T], from: usize, count: usize) -> &[T]
    ensures items { result.now ≡ part from count items.now }
    ensures most { length result.now ≤ count }
{
    upto(after(items, from), count)
}

/// A row, and where the last name of its path and its kids lie.
#[derive(Drop)]
pub struct Node {
    pub row: Row,
    pub name: usize,
    pub kids: usize,
    pub kid_count: u32,
    pub name_len: u8,
}

impl Model for Node {
    ghost use Rattle.frozen_nodes.specs.Packed.{PlacedNode};

    ghost Value = { PlacedNode };

    ghost view = { λ node.
        record {
          row = node.row;
          name = node.name;
          name_len = node.name_len;
          kids = node.kids;
          kid_count = node.kid_count;
        } };
}

impl Node {
    pub fn row(&self) -> &Row
        ensures { result.now ≡ self.now.row }
    {
        &self.row
    }

    /// Returns the name, which is among the names of all nodes.
    pub fn name<'a>(&self, names: &'a Vec<u8>) -> &'a [u8]
        ensures name { result.now ≡ part self.now.name self.now.name_len names.now.items }
        ensures short { length result.now ≤ 255 }
    {
        part(names.as_slice(), self.name, self.name_len as usize)
    }

    /// Returns the kids, which are among the kids of all nodes.
    pub fn kids<'a>(&self, kids: &'a Vec<u32>) -> &'a [u32]
        ensures kids { result.now ≡ part self.now.kids self.now.kid_count kids.now.items }
        ensures few { length result.now ≤ 4294967295 }
    {
        part(kids.as_slice(), self.kids, self.kid_count as usize)
    }
}
