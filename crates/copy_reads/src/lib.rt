//! Reading of copies: the row of a file is that of a second namesystem, its body is in the vault of the
//! copies, and its key is decrypted by the first cluster.
#![tactic(auto)]

mod command;
mod ends;
mod orders;

pub use command::run_read_copy;
pub use orders::read_copy;
