//! Tests of cells: three small services, threads that call them, and what their passes then know.
#![tactic(auto)]

pub mod counter;
pub mod issuer;
pub mod registering;
pub mod registry;
#[cfg(test)]
mod tests;
pub mod workers;
