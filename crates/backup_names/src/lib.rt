//! Changes of the namesystem that gets a copy: directories, zones with their keys, and files with
//! their encrypted keys.
#![tactic(auto)]

mod directories;
mod files;
mod looks;
mod zones;

pub use directories::make_directory;
pub use files::{ask_file, finish_file};
pub use looks::{is_directory, keeps_rules, look, look_file};
pub use zones::{ask_zone, finish_zone};
