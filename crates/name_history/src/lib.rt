//! The history of the namesystem in its cell: which calls it has, and what each of its entries does.
//! docs/threads.md has the whole picture.
#![tactic(auto)]

mod acts;
mod fronts;

pub use acts::{NameAct, NameActed};
pub use fronts::Front;
