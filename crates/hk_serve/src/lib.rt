//! Both services over a connection. It reads requests of HTTP/1.1, passes their calls and orders to a
//! desk, and writes the responses.
#![tactic(auto)]

mod asks;
mod connection;
mod desk;
mod laws;
mod notes;
mod pages;
mod refusals;

pub use connection::serve_conn;
pub use desk::Desk;
pub use hk_base::Ended;
pub use laws::connections_are_those_of_the_bytes;
pub use notes::{changes_keys, changes_names, keys_note, names_note};
