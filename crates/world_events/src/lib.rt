//! Both services over a disk, as events.
#![tactic(auto)]

mod events;

pub use events::WorldEvents;
