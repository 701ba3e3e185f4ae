//! The calls and replies of the namesystem, and its paths.
#![tactic(auto)]

mod calls;
mod listing;
mod paths;
mod read_paths;
mod status;
mod zone_list;

pub use calls::{Answered, Ask, AskNote, KeyAnswer, NameCall, NameRefusal, NameReply, Want};
pub use listing::{Child, ChildList};
pub use paths::{MOST_BYTES, MOST_NAMES, NPath, PathFault, is_component, is_path};
pub use read_paths::{ReadPath, SnapPart};
pub use status::{Delivered, State, ZoneStatus};
pub use zone_list::{ZoneList, ZonePath};
