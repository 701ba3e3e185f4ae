//! The namesystem over its edit log.
#![tactic(auto)]

mod asks;
mod batch_size;
mod copies;
mod laws;
mod namesystem;
mod reads;
mod rules;
mod updates;
mod walks;

pub use laws::{
    asks_are_finished_once, batches_follow_one_another, cancelled_zones_are_reported,
    completed_zones_are_walked_through, deleted_paths_are_gone, ids_rise,
    lists_tell_what_lies_in_a_directory, made_directories_are_reported, made_files_are_reported,
    made_zones_are_reported, removed_snapshots_are_gone, renames_move_together, snapshots_stay,
    taken_snapshots_are_reported, updates_retire_their_batches,
};
pub use name_calls::{
    Answered, Ask, AskNote, Delivered, KeyAnswer, NameCall, NameRefusal, NameReply, Want,
};
pub use namesystem::Name;
pub use reenc_update::{BatchReply, BatchResult};
pub use reenc_walk::{BatchNote, Sent, SentList};
pub use rules::superuser;
pub use walks::Walked;
