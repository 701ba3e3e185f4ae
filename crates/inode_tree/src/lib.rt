//! The inodes of the namesystem in memory: a tree of directories and files by path.
#![tactic(auto)]

mod climbs;
mod hints;
mod laws;
mod names;
mod near;
mod nodes;
mod order;
mod rows;
mod tree;
mod zones;

pub use laws::rows_move_together;
pub use name_calls::{Child, ChildList, MOST_BYTES, MOST_NAMES, NPath, PathFault};
pub use rows::{Kind, Row};
pub use tree::{MOST_ROWS, PlacedRow, Tree};
