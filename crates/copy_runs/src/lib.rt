//! Copying of zones as a whole command: the properties are read, the logs of both clusters are opened, an
//! encryption zone is copied, and the last line says how that ended.
#![tactic(auto)]

mod command;
mod ends;
mod opened;

pub use command::run_copy;
pub use opened::copy_opened_over;
