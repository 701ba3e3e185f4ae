//! Bodies of files: a command line puts a file with its body, encrypted under the data encryption key of
//! the file, and reads any range of it back.
#![tactic(auto)]

mod command;
mod ends;
mod laws;
mod put;
mod read;

pub use command::hkfs;
pub use ends::close;
pub use laws::bodies_are_read_back;
