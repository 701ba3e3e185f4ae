//! The event text both ways: the event that a line spells, and the answer to an event as a line.
#![tactic(auto)]

mod asks;
mod calls;
mod delivered;
mod edeks;
mod event;
mod fields;
mod laws;
mod lists;
mod numbers;
mod transcript;

pub use event::{LineFault, read_event};
pub use laws::lines_are_read_in_one_way;
pub use transcript::write_line;
