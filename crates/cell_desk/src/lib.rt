//! Connections to both services in their cells. docs/threads.md has the whole picture.
#![tactic(auto)]

mod asks;
mod desk;
mod serve;
mod telling;

pub use desk::CellDesk;
pub use serve::serve_cells;
