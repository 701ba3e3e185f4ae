//! The command `serve`: the properties are read, the server runs under them, and the last line says how it
//! ended.
#![tactic(auto)]

mod serve;

pub use serve::run_serve;
