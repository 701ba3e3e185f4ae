//! Both services in one world: the key management service and the namesystem, each over its log on a
//! disk, and the events that happen to them.
#![tactic(auto)]

mod drive;
mod fault;
mod kept;
mod laws;
mod path_calls;
mod rename_paths;
mod serve;
mod snap_path;
mod world;

pub use fault::WorldFault;
pub use hk_events::{Event, Line};
pub use kept::KeptReply;
pub use laws::sound_files_may_be_started_from;
pub use world::World;
