//! Decides by access control lists whether a user may make a call of the key management service.
#![tactic(auto)]

mod acls;
mod answers;
mod asked;
mod groups;
mod keys;
mod lists;
mod members;

pub use acls::Acls;
pub use answers::{Denied, Shown};
