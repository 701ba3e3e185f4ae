//! A run of the server: both logs are opened on the disks of a yard, connections are served, and the
//! disks are given back.
#![tactic(auto)]

mod opening;
mod run;

pub use run::{RunEnd, ServerPlan, run_server};
