//! The lengths of the paths below a path.
ghost use Rattle.std.specs.Prelude.{ℕ, Option, ◌≡◌, ◌<◌, ◌≤◌, ◌+◌, ◌-◌, ◌&&◌, nat_le, length, drop, IsTrue};
ghost use Rattle.inode_tree.specs.Arena.{IsLinked, IsTree, path_of, rows_of};
ghost use Rattle.inode_tree.specs.Moves.{most_bytes, most_names, move_fits};
ghost use Rattle.name_calls.specs.Paths.{is_relative, names_text};

use super::Tree;
use crate::climbs::{depth, past};
use crate::hints::{Hints, place};
use crate::nodes::Nodes;
use crate::order::RowOrder;
use name_calls::{MOST_BYTES, MOST_NAMES, NPath};

impl Tree {
    /// Returns the most bytes, in the text form, and the most names of a path from a path down to
    /// a row below it. Both are 0 if no row lies below the path. Each row below the path is looked
    /// at once.
    pub fn longest_below(&self, path: &NPath) -> (u16, u8)
        ensures bytes { result.0 ≡ most_bytes self.now.rows path.now }
        ensures names { result.1 ≡ most_names self.now.rows path.now }
    {
        let longest = scan(&self.nodes, &self.order, &self.hints, path);
        (longest.bytes, longest.names)
    }

    /// Returns whether each path at a path and below it keeps the rule of lengths after it has moved
    /// to another path. Takes as much time as `longest_below`.
    pub fn move_fits(&self, path: &NPath, to: &NPath) -> bool
        ensures { result ≡ move_fits self.now.rows path.now to.now }
    {
        let longest = scan(&self.nodes, &self.order, &self.hints, path);
        fits(to, longest)
    }
}

/// Returns the number of bytes of the names of a path, each after a slash.
fn text_len(path: &NPath) -> usize
    ensures len { result ≡ length (names_text path.now) }
    ensures most { result ≤ 8000 }
{
    let mut len = 0usize;
    let mut k = 0usize;
    'names: while k < path.len() {
        len += path.name(k).as_str().len() + 1;
        k += 1;
    }
    len
}

/// Returns whether a path keeps the rule of lengths with the longest of several paths after it.
fn fits(path: &NPath, longest: Longest) -> bool
    ensures { result ≡
        (nat_le (length (names_text path.now) + longest.bytes) 8000 &&
        nat_le (length path.now + longest.names) 100) }
{
    let bytes = text_len(path) + longest.bytes as usize;
    let names = path.len() + longest.names as usize;
    bytes <= MOST_BYTES && names <= MOST_NAMES
}

/// The most bytes and the most names of several paths.
#[derive(Clone, Copy)]
struct Longest {
    bytes: u16,
    names: u8,
}

/// Returns the number of bytes, in the text form, of the last `count` names of a node's path.
fn last_size(nodes: &Nodes, n: u32, count: usize) -> u16
    requires linked { IsLinked nodes.now.items }
    requires live { n < length nodes.now.items }
    requires rule { IsTrue (is_relative (path_of nodes.now.items n)) }
    requires count { count ≤ length (path_of nodes.now.items n) }
    ensures size { result ≡
        length
        (names_text
        (drop (length (path_of nodes.now.items n) - count) (path_of nodes.now.items n))) }
    ensures most { result ≤ 8000 }
{
    if count == 0 {
        return 0;
    }
    let link = nodes.link(n);
    let above = last_size(nodes, link.parent, count - 1);
    above + link.name.as_bytes().len() as u16 + 1
}

/// Returns the most bytes and the most names of a path from a path down to a row below it.
fn scan(nodes: &Nodes, order: &RowOrder, hints: &Hints, path: &NPath) -> Longest
    requires tree { (ids : ℕ → Option ℕ) × IsTree nodes.now.items order.now.items ids }
    ensures bytes { result.bytes ≡ most_bytes (rows_of nodes.now.items order.now.items) path.now }
    ensures names { result.names ≡ most_names (rows_of nodes.now.items order.now.items) path.now }
{
    let from = place(nodes, order, hints, path, path.len());
    let mut at = past(nodes, order, path, from);
    let mut bytes = 0u16;
    let mut names = 0u8;
    'rows: while from < at {
        at -= 1;
        let n = order.get(at);
        let count = depth(nodes, n) - path.len();
        bytes = bytes.max(last_size(nodes, n, count));
        names = names.max(count as u8);
    }
    Longest { bytes, names }
}
