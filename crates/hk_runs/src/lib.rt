//! Runs of both services over a disk of two files: the replay of event lines, and a connection; and what such
//! runs keep of files, keys and verdicts, one after another.
#![tactic(auto)]

mod laws;
mod pipe;
mod replay;
mod session;

pub use laws::{keys_last_from_run_to_run, runs_follow_one_another};
pub use pipe::run_pipe;
pub use replay::run_replay;
