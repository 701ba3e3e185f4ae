//! The call of the key management service for a batch of files that are re-encrypted, and what its
//! reply means for the batch. All memory is taken before the call.
#![tactic(auto)]

mod call;
mod reply;

pub use call::BatchCall;
pub use reply::reply_for;
