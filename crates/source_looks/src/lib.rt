//! Reading the entries at and below a place by events, and the metadata of keys.
#![tactic(auto)]

mod looks;

pub use looks::{list_at, look_at, metadata_of};
