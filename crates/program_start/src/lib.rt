//! What each program does before its command runs: it takes its words and a seed, enters the
//! folder that they give, opens what all programs have, and tells of faults.
#![tactic(auto)]

mod ends;
mod files;
mod folder;
mod words;

pub use ends::{end_by, end_with};
pub use files::{PROPERTIES, PropertyBytes, Standard, fill_standard, open_properties};
pub use folder::enter_folder;
pub use words::{random_seed, words_given};
