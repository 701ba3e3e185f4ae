//! The command line, parsed by `clap`.
#![tactic(auto)]

mod commands;
mod help;
mod laws;
mod order;
mod reading;

pub use clap_lines::OrderFault;
pub use laws::{
    commands_alone_are_named, folders_come_first, loads_have_a_count, options_are_named,
};
pub use order::Order;
pub use reading::{read_folder, read_order};
