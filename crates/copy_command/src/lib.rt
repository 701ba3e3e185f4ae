//! The top call of the program that copies encryption zones, and reads the copies.
#![tactic(auto)]

mod command;

pub use command::hkcopy;
