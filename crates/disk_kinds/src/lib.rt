//! Implementations of the environment: sources, sinks, words and disks in memory, and adapters over
//! the real ones.
#![tactic(auto)]

mod adapters;
mod alarm;
mod calls;
mod file_calls;
mod file_disk;
mod locked_file;
mod log_file;
mod mem_disk;
mod mem_sink;
mod mem_source;
mod pieces;
mod plain_disk;
mod words;

pub use adapters::{FileSource, Reading, WallClock, Writing, open_source};
pub use alarm::Alarm;
pub use calls::CallPlan;
pub use file_disk::FileDisk;
pub use log_file::LogFile;
pub use mem_disk::MemDisk;
pub use mem_sink::MemSink;
pub use mem_source::MemSource;
pub use plain_disk::PlainDisk;
pub use words::{ChaWords, ListWords};
