//! Memory that is reserved for a snapshot before it is taken.
ghost use Rattle.std.specs.Prelude.{◌≡◌, ◌<◌, ◌↔◌, None, Some, length, IsOk, IsSome, IsTrue, IfOk, OnErr, OnOk};
ghost use Rattle.std.specs.Option.{option_map};
ghost use Rattle.inode_tree.specs.Rows.{entry_of};
ghost use Rattle.frozen_nodes.specs.Forest.{KeepsNodes, rows_from};
ghost use Rattle.snap_store.specs.Snapshots.{IsRoomFor, frozen};

use frozen_nodes::{CopyBuffer, Forest, FrozenRows};
use hk_base::NoMemory;
use inode_tree::Tree;
use name_calls::NPath;
use std::alloc::Global;
use std::mem;

/// What is reserved for a snapshot apart from its nodes: the path of its directory, and what else
/// copies of its rows need.
#[derive(Drop)]
pub struct Reserved {
    pub path: Option<NPath>,
    pub buffer: CopyBuffer,
}

impl Reserved {
    /// Reserves nothing. It does not allocate.
    pub fn none(alloc: Global) -> Reserved
        ensures { result.path ≡ None }
    {
        Reserved {
            path: None,
            buffer: CopyBuffer::new(alloc),
        }
    }

    /// Reserves the memory for a snapshot of the directory with the id. The nodes are unchanged.
    pub fn reserve(&mut self, forest: &mut Forest, tree: &Tree, dir: u64) -> Result<(), NoMemory>
        ensures same { forest.new.nodes ≡ forest.old.nodes }
        ensures ok { OnOk result
            (IsRoomFor
            (record { path = self.new.path; nodes = forest.new.room; copies = self.new.buffer })
            tree.now.rows dir) }
    {
        let _count = tree.rows();
        match tree.row(dir) {
            Some(_) => {
                let path = tree.path_of(dir)?;
                frozen_nodes::reserve_take(forest, &mut self.buffer, tree, &path)?;
                self.path = Some(path);
                Ok(())
            }
            None => {
                self.path = None;
                Ok(())
            }
        }
    }

    /// Copies the rows at and below the directory with the id into nodes. What they have in common
    /// with the node `near` is shared. The other nodes keep their rows. Returns `NoMemory` if
    /// allocation fails; the nodes are then unchanged. It does not allocate if the memory was
    /// reserved for them.
    pub fn take(
        &mut self,
        forest: &mut Forest,
        tree: &Tree,
        dir: u64,
        near: u32,
    ) -> Result<FrozenRows, NoMemory>
        requires { IsSome (entry_of tree.now.rows dir) }
        ensures rows { IfOk result
            (λ taken. rows_from forest.new.nodes taken.root ≡ frozen tree.now.rows dir) }
        ensures within { IfOk result (λ taken. taken.root < length forest.new.nodes) }
        ensures others { KeepsNodes forest.old.nodes forest.new.nodes }
        ensures err { OnErr result (forest.new.nodes ≡ forest.old.nodes) }
        ensures room { IsRoomFor
            (record { path = self.old.path; nodes = forest.old.room; copies = self.old.buffer })
            tree.now.rows dir → IsOk result }
    {
        let _count = tree.rows();
        let kept = mem::replace(&mut self.path, None);
        let path = path_for(kept, tree, dir)?;
        frozen_nodes::take(forest, &mut self.buffer, tree, &path, near)
    }
}

/// Returns whether the path is that of the row with the id.
fn is_path_of(tree: &Tree, dir: u64, path: &NPath) -> bool
    ensures { IsTrue result ↔
        (option_map (λ e. e.path) (entry_of tree.now.rows dir) ≡ Some path.now) }
{
    let above = tree.at_or_above(dir, path);
    let below = tree.at_or_below(dir, path);
    above && below
}

/// Returns the path of the row with the id, and does not allocate if it is the given path.
fn path_for(path: Option<NPath>, tree: &Tree, dir: u64) -> Result<NPath, NoMemory>
    requires { IsSome (entry_of tree.now.rows dir) }
    ensures path { IfOk result
        (λ path. option_map (λ e. e.path) (entry_of tree.now.rows dir) ≡ Some path) }
    ensures given { path ≡ option_map (λ e. e.path) (entry_of tree.now.rows dir) → IsOk result }
{
    match path {
        Some(path) => {
            if is_path_of(tree, dir, &path) {
                Ok(path)
            } else {
                tree.path_of(dir)
            }
        }
        None => tree.path_of(dir),
    }
}
