//! What every command reads and writes beside its requests: the properties, the lines of the input, and
//! the last line that tells how it ended.
#![tactic(auto)]

mod ends;
mod lines;
mod props;

pub use ends::{ReplayEnd, ended_by, ended_by_props, finish, report, show, show_made, status_of};
pub use lines::{LONGEST_LINE, LineEnd, read_line};
pub use props::{PropsFault, read_properties};
