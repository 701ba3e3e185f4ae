//! A log on one file of a disk. Each frame follows a gate byte, which is written last, after a sync of
//! the frame. So a crash at any moment leaves the payloads that were there, with or without the one
//! that was being added.
#![tactic(auto)]

mod compact;
mod fault;
mod formats;
mod frames;
mod gates;
mod image;
mod log;
mod records;
mod selecting;
mod viewing;
mod walking;
mod window;

pub use fault::{LogFault, StartFault, StoreRefusal};
pub use frames::{Frame, Frames};
pub use gates::LONGEST_PAYLOAD;
pub use image::{Image, ImageSpan};
pub use log::{Log, Selected};
pub use records::Records;
