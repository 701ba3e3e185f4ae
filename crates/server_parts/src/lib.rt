//! What a server takes from its environment: a yard, which lends each log's disk to the service that
//! owns the log, and a door, where connections come in and are left.
#![tactic(auto)]

mod door;
mod ends;
mod yard;

pub use door::{Accepted, Door};
pub use ends::{CloseInput, CloseOutput, HangUp};
pub use yard::Yard;
