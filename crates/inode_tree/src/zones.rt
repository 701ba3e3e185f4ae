//! The zone of a path, by climbing from a node to the root.
ghost use Rattle.std.specs.Prelude.{◌≡◌, ◌<◌, ◌≤◌, length, take, ℕ, Option};
ghost use Rattle.inode_tree.specs.Arena.{IsTree, IsLive, rows_of, path_of};
ghost use Rattle.inode_tree.specs.Rows.{zone_id, is_marked};

use crate::hints::{Hints, follow};
use crate::nodes::Nodes;
use crate::order::RowOrder;
use crate::rows::{Kind, Row};
use crate::tree::search;
use name_calls::NPath;

/// Returns whether the row is a directory that is marked with a key.
fn marked(row: &Row) -> bool
    ensures { result ≡ is_marked row.now }
{
    match &row.kind {
        Kind::Dir { key } => key.is_some(),
        Kind::File { .. } => false,
    }
}

/// Returns the id of the nearest marked directory at or above the node.
fn zone_above(nodes: &Nodes, order: &RowOrder, n: u32) -> Option<u64>
    requires tree { (ids : ℕ → Option ℕ) × IsTree nodes.now.items order.now.items ids }
    requires live { IsLive order.now.items n }
    ensures { result ≡
        zone_id (rows_of nodes.now.items order.now.items) (path_of nodes.now.items n) }
{
    let _ = order;
    let mut m = n;
    'climb: while m != 0 {
        let row = nodes.row(m);
        if marked(row) {
            return Some(row.id);
        }
        m = nodes.link(m).parent;
    }
    let row = nodes.row(0);
    if marked(row) {
        return Some(row.id);
    }
    None
}

/// Returns the number of the row at the longest prefix of the first `names` names of a path that has
/// a row. That row lies in the same zone as those names.
fn standing(nodes: &Nodes, order: &RowOrder, hints: &Hints, path: &NPath, names: usize) -> u32
    requires tree { (ids : ℕ → Option ℕ) × IsTree nodes.now.items order.now.items ids }
    requires names { names ≤ length path.now }
    ensures live { IsLive order.now.items result }
    ensures zone { zone_id (rows_of nodes.now.items order.now.items)
        (path_of nodes.now.items result) ≡
        zone_id (rows_of nodes.now.items order.now.items) (take names path.now) }
{
    let near = follow(nodes, order, hints, path, names);
    let mut upto = names;
    'shorten: while upto > near.depth {
        match search(nodes, order, hints, path, upto, near) {
            Some(n) => return n,
            None => upto -= 1,
        }
    }
    near.node
}

/// Returns the id of the deepest marked directory at the first `names` names of a path or above
/// them.
pub fn zone_at(
    nodes: &Nodes,
    order: &RowOrder,
    hints: &Hints,
    path: &NPath,
    names: usize,
) -> Option<u64>
    requires tree { (ids : ℕ → Option ℕ) × IsTree nodes.now.items order.now.items ids }
    requires names { names ≤ length path.now }
    ensures { result ≡ zone_id (rows_of nodes.now.items order.now.items) (take names path.now) }
{
    zone_above(nodes, order, standing(nodes, order, hints, path, names))
}
