//! Raw copies: an encryption zone of one cluster is copied into the namesystem of another, with its encrypted
//! keys and the stored bytes of its files.
#![tactic(auto)]

mod backup;
mod into;
mod place;
mod zone;

pub use backup::{CopyFault, copy_over};
pub use into::copy_into;
pub use place::copy_place;
pub use zone::copy_zone;
