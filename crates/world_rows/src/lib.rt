//! The rows at and below a place of a world, which are read by events.
#![tactic(auto)]

mod rows;

pub use rows::WorldRows;
