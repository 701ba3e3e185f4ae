//! The command `read` of the programs for files and for copies: its words, and their values.
#![tactic(auto)]

mod command;
mod help;
mod values;

pub use command::with_read;
pub use values::{ReadValues, read_values_in};
