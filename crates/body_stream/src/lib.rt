//! Bodies of files: the bytes of a file in a vault, encrypted in counter mode under the data encryption
//! key of the file, put whole and read by ranges. Nothing here allocates.
#![tactic(auto)]

mod coding;
mod faults;
mod keys;
mod laws;
mod put;
mod read;
mod vault;

pub use faults::BodyFault;
pub use keys::BodyKey;
pub use laws::{bodies_are_read_back, prefixes_are_stored_as_prefixes};
pub use put::{LONGEST_BODY, put_body};
pub use read::read_body;
pub use vault::Vault;
