//! The table of keys, kept in a log on a disk, so that a crash at any moment loses no acknowledged
//! command.
#![tactic(auto)]

mod keys;
mod replay;
mod store;
mod viewing;

pub use store::Store;
pub use viewing::ViewFault;

/// The file of the disk with the key log.
const KEYS: u8 = 0;
