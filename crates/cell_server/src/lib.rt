//! A server over both services in their cells: connections, each in a thread of its own, beside the
//! workers. docs/threads.md has the whole picture.
#![tactic(auto)]

mod acceptor;
mod beside;
mod connections;
mod context;
mod ends;
mod handles;
mod hang_ups;
mod places;
mod running;
mod serve;

pub use ends::ServeEnd;
pub use serve::serve_all;
