//! Copies of the rows and bodies at and below a directory, from one cluster into another.
#![tactic(auto)]

mod clusters;
mod parents;
mod paths;
mod walk;

pub use clusters::Clusters;
pub use walk::{Copied, copy_rows};
