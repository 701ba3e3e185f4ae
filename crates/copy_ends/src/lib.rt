//! How a command that copies ends: its last line, and its exit status.
#![tactic(auto)]

mod ends;

pub use ends::{close_counts, close_start};
