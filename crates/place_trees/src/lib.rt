//! The rows of each place of a world are a tree, live or in a snapshot. So its zones can be copied.
#![tactic(auto)]

mod trees;

pub use trees::recall_trees;
