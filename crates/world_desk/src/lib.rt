//! Both services in one world as the desk of a connection: a call of the key management service is one
//! event of the world, and an order of the namesystem is one or more.
#![tactic(auto)]

mod desk;
mod events;
mod orders;

pub use desk::{WorldDesk, serve_world};
