//! Queues of ready encrypted data encryption keys, one queue for each key, and which queue to fill
//! next.
#![tactic(auto)]

mod order;
mod queues;
mod rings;

pub use queues::Queues;
