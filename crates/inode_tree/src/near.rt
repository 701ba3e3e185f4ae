//! Nodes near a path that is searched for.
ghost use Rattle.std.specs.Prelude.{ℕ, Option, ◌≡◌, ◌≤◌, length, take};
ghost use Rattle.inode_tree.specs.Arena.{IsLive, IsNear, IsTree, path_of};

use crate::nodes::Nodes;
use crate::order::RowOrder;
use name_calls::NPath;

/// A node whose path is the first `depth` names of a path, and the node above it. Other nodes are compared
/// with the path only from these two on, if they lie below them.
#[derive(Clone, Copy)]
pub struct Near {
    pub node: u32,
    pub above: u32,
    pub depth: usize,
}

impl Near {
    /// Creates the one of the root, which is near each path.
    pub fn root() -> Near
        ensures { result ≡ record { node = 0; above = 0; depth = 0 } }
    {
        Near {
            node: 0,
            above: 0,
            depth: 0,
        }
    }
}

/// Returns a node, whose path is the first `depth` names of `path`, with the node above it.
pub fn near_at(nodes: &Nodes, order: &RowOrder, path: &NPath, n: u32, depth: usize) -> Near
    requires tree { (ids : ℕ → Option ℕ) × IsTree nodes.now.items order.now.items ids }
    requires live { IsLive order.now.items n }
    requires path { path_of nodes.now.items n ≡ take depth path.now }
    requires depth { depth ≤ length path.now }
    ensures near { IsNear nodes.now.items path.now result }
    ensures node { result.node ≡ n }
    ensures depth { result.depth ≡ depth }
{
    let _ = order;
    let _ = path;
    Near {
        node: n,
        above: nodes.link(n).parent,
        depth,
    }
}
