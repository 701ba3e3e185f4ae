//! Reads the properties of the key management service, `kms-acls.properties`: access control lists,
//! groups and sizes.
#![tactic(auto)]

mod acls;
mod cuts;
mod faults;
mod lines;
mod names;
mod props;
mod reading;
mod seen;
mod setting;
mod sizes;
mod values;

pub use acls::{Acl, TextList};
pub use faults::PropFault;
pub use lines::{LineList, PropLine};
pub use props::{Props, read_props};
pub use seen::NameSet;
pub use sizes::Sizes;
