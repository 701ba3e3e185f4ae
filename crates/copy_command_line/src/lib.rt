//! The command line of `hkcopy`, parsed by `clap`.
#![tactic(auto)]

mod commands;
mod help;
mod laws;
mod order;
mod reading;

pub use clap_lines::OrderFault;
pub use laws::{folders_come_first, other_words_are_refused, words_name_their_order};
pub use order::CopyOrder;
pub use reading::{read_folder, read_order};
