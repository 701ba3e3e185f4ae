//! The walk through the files of an encryption zone that is re-encrypted, batch by batch.
#![tactic(auto)]

mod batches;
mod cursor;
mod files;
mod sent;
mod walker;

pub use batches::WalkedBatch;
pub use sent::{BatchNote, MOST_SENT, Sent, SentList, is_same_edek};
pub use walker::{Walk, Walker};
