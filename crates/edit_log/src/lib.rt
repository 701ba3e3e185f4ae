//! The edit log: the operations of the namesystem that were acknowledged, kept on a disk so that a
//! crash at any moment loses none of them.
#![tactic(auto)]

mod copies;
mod log;
mod reader;
mod replay;

pub use log::EditLog;
pub use reader::OpReader;
pub use replay::PlacedOp;
