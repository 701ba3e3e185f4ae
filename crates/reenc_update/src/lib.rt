//! What the reply to the call for a batch changes in the files of a zone that is re-encrypted.
#![tactic(auto)]

mod changes;
mod laws;
mod reply;

pub use changes::{Changes, all_failed, changes_of};
pub use laws::deliveries_change_what_was_sent;
pub use reply::{BatchReply, BatchResult};
