//! A cell: a state machine behind a lock, whose calls by all threads are one legal history. Each caller
//! has a pass, which knows a prefix of that history. docs/threads.md has the whole picture.
#![tactic(auto)]

mod cell;
mod cores;
mod holds;
mod locked;
mod naming;
mod opened;
mod pass;
mod rule;
mod seats;
mod views;

pub use cell::Cell;
pub use cores::Core;
pub use holds::Holds;
pub use naming::Naming;
pub use opened::Opened;
pub use pass::Pass;
pub use rule::{AddsEntry, Commit, HistoryRule};
pub use views::{Entry, Known, View};
