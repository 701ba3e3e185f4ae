//! The workers beside the connections of a server, and the last round after them. docs/threads.md has
//! the whole picture.
#![tactic(auto)]

mod asks;
mod batches;
mod channels;
mod must_join;
mod retries;
mod round;
mod sending;
mod starting;
mod tasks;
mod updates;
mod walks;
mod workers;

pub use channels::{WorkReceivers, WorkSenders, open_channels};
pub use must_join::MustJoin;
pub use round::last_round;
pub use starting::PoolStart;
pub use workers::WorkerPool;
