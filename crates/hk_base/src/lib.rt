//! The types that every layer shares: names and small values, byte lists, and the traits of the
//! environment, with a reader that takes one byte at a time and a function that writes a whole slice.
#![tactic(auto)]

mod disk;
mod ended;
mod gate;
mod listing;
mod names;
mod numbers;
mod outside;
mod places;
mod reading;
mod records;
mod texts;
mod writing;

pub use disk::{Disk, LONGEST_FILE};
pub use ended::Ended;
pub use gate::{Gate, Point};
pub use listing::Listing;
pub use names::{Dek, Edek, Iv, KeyName, VersionName};
pub use numbers::read_number;
pub use outside::{Clock, Failed, Sink, Source, Words};
pub use places::put;
pub use reading::{Next, Reader};
pub use records::RecordFault;
pub use texts::{ByteList, NoMemory, Text};
pub use writing::write_all;
