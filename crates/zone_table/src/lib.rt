//! Encryption zones: the zone that a path lies in, the table of zones, and how far the re-encryption
//! of each zone is.
#![tactic(auto)]

mod laws;
mod list;
mod statuses;
mod zones;

pub use laws::zones_are_the_marks;
pub use name_calls::{ZoneList, ZonePath};
pub use statuses::{StatusRow, Statuses};
pub use zones::{ZoneRow, Zones};
