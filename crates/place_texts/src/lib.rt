//! Texts of the places that are copied, and of the entries below them.
#![tactic(auto)]

mod places;

pub use places::{place_text, read_raw_place};
