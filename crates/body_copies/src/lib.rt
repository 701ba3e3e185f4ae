//! Copies of stored bodies from one vault into another. Nothing here allocates.
#![tactic(auto)]

mod copy;

pub use copy::copy_body;
