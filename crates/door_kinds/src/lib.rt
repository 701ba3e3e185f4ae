//! Yards and doors: over real files and TCP, and in memory for tests.
#![tactic(auto)]

mod counts;
mod file_yard;
mod mem_door;
mod mem_yard;
mod pace;
mod tcp_door;
mod tcp_ends;
mod tcp_link;

pub use file_yard::FileYard;
pub use mem_door::{MemClient, MemDoor, MemHandle, MemLeft};
pub use mem_yard::{MemFile, MemYard};
pub use tcp_door::TcpDoor;
pub use tcp_ends::{TcpSink, TcpSource};
pub use tcp_link::TcpHandle;
