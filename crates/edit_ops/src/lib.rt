//! The operations of the namesystem, and their records in the edit log.
#![tactic(auto)]

mod files;
mod laws;
mod ops;
mod reading;
mod writing;

pub use files::{FileKey, FileKeys, MOST_FILES};
pub use laws::operations_have_one_spelling;
pub use ops::EditOp;
