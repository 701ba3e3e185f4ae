//! A check of a pair of logs: both are read into memory, and lines are written of what they make. The
//! disk is only read.
#![tactic(auto)]

mod counting;
mod counts;
mod looks;
mod lost;
mod run;
mod text;
mod versions;

pub use counts::{CheckCounts, RowCounts};
pub use run::run_check;
