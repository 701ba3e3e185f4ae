//! Snapshots of directories: the rows at and below a directory as they were at one time.
#![tactic(auto)]

mod order;
mod reserved;
mod snaps;

pub use snaps::{MOST_SNAPSHOTS, PlacedSnapshot, Snaps};
