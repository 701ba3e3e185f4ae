//! Both services, each in a cell that threads share. docs/threads.md has the whole picture.
#![tactic(auto)]

mod batches;
mod changes;
mod given;
mod keys;
mod movable;
mod opening;
mod shared;

pub use keys::KeyService;
pub use movable::both_are_shared;
pub use opening::{NamesOpening, Opening};
pub use shared::{Closed, Shared};
