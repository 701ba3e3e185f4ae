//! The command line of the Hadoop key management server, over a disk, an input and an output of the
//! caller's.
#![tactic(auto)]

mod command;

pub use command::hkms;
