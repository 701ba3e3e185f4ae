//! Rows, and the nodes that hold them.

ghost use Rattle.std.specs.Prelude.{◌≡◌};
ghost use Rattle.inode_tree.specs.Rows.{is_dir};

use crate::names::NodeName;
use hk_base::{Edek, KeyName};

/// The kind of a row: a directory or a file.
#[derive(Clone, Copy, PartialEq, Eq)]
pub enum Kind {
    /// A directory, with the key that it is marked with if it is an encryption zone.
    Dir { key: Option<KeyName> },
    /// A file, with its encrypted data encryption key if it lies in a zone.
    File { edek: Option<Edek> },
}

impl Kind {
    /// Returns whether it is a directory.
    pub fn is_dir(&self) -> bool
        ensures { result ≡ is_dir self.now }
    {
        match self {
            Kind::Dir { .. } => true,
            Kind::File { .. } => false,
        }
    }
}

/// An inode: its id and its kind.
#[derive(Clone, Copy, PartialEq, Eq)]
pub struct Row {
    pub id: u64,
    pub kind: Kind,
}

/// The last name of a row's path, and the number of its directory's node.
#[derive(Drop)]
pub struct Link {
    pub parent: u32,
    pub name: NodeName,
}

/// A row, with the last name of its path and the number of its directory's node.
#[derive(Drop)]
pub struct Node {
    pub parent: u32,
    pub name: NodeName,
    pub row: Row,
}
