//! The namesystem in a cell, with a pass of the cell of the keys: users and workers call it from several
//! threads, and their calls are one legal history. docs/threads.md has the whole picture.
#![tactic(auto)]

mod calls;
mod fronts;
mod keys;
mod movable;
mod side;

pub use calls::{
    NameCell, NamePass, ask_names, call_names, close_names, deliver_names, finish_meeting,
    finish_names, walk_names,
};
pub use keys::KeysCell;
pub use movable::{cell_is_shared, side_moves};
pub use side::NameSide;
