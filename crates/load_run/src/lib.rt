//! A load: a fixed choice of events happens to both services over a disk in memory, and one line sums
//! up what came of it.
#![tactic(auto)]

mod answers;
mod counting;
mod counts;
mod events;
mod generator;
mod props;
mod run;
mod task;

pub use counts::Counts;
pub use run::run_load;
pub use task::Task;
