//! The key management service in a cell: users and fillers call it from several threads, and their
//! calls are one legal history. docs/threads.md has the whole picture.
#![tactic(auto)]

mod acts;
mod calls;
mod filling;
mod movable;
mod side;

pub use acts::{KmsAct, KmsActed};
pub use calls::{KmsCell, KmsPass, call_keys, close_keys, deposit_key, take_ticket};
pub use filling::{FillTurn, fill_keys, fill_turn};
pub use movable::{cell_is_shared, side_moves};
pub use side::KmsSide;
