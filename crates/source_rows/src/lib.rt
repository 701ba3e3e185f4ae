//! A cluster that is only read.
#![tactic(auto)]

mod source;

pub use source::SourceRows;
