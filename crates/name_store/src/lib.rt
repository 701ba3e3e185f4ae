//! The namesystem's table over its edit log: what the operations of the log make, and the log that
//! keeps them.
#![tactic(auto)]

mod copies;
mod effects;
mod laws;
mod names;
mod opening;
mod replay;
mod rules;
mod runs;
mod store;
mod updates;
mod used;

pub use laws::what_a_crash_leaves_is_no_damage;
pub use rules::{
    allow_refusal, directory_refusal, disallow_refusal, fits_zone, going_refusal, has_most_rows,
    key_of_zone, make_refusal, new_zone_refusal, removal_refusal, snap_refusal, submit_refusal,
    unsnap_refusal, zone_root_refusal,
};
pub use store::NameStore;
