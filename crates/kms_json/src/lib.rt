//! The JSON bodies of the key management service over REST. Calls are read from request bodies, and
//! replies are written as response bodies.
#![tactic(auto)]

mod base64_text;
mod batch;
mod create;
mod decrypt;
mod eek;
mod faults;
mod laws;
mod members;
mod pieces;
mod replies;
mod roll;
mod rows;

pub use batch::read_batch;
pub use create::read_create;
pub use decrypt::read_eek;
pub use eek::EekBody;
pub use faults::{JsonFault, Member};
pub use laws::{
    base64_texts_give_their_bytes, bodies_have_one_answer, versions_are_named_by_their_texts,
};
pub use replies::write_reply;
pub use roll::read_roll;
