//! The events of both services, and their answers.
#![tactic(auto)]

mod event;

pub use event::{Event, Line};
