//! Rows of snapshots in memory: nodes in one list, so that snapshots share what they have in common.
#![tactic(auto)]

mod forest;
mod nodes;
mod same;
mod takes;

pub use forest::{Forest, MOST_NODES};
pub use takes::{CopyBuffer, FrozenRows, reserve_take, take};
