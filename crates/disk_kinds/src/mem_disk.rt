//! A disk in memory that records what a crash may leave at every moment.
ghost use Rattle.std.specs.Prelude.{◌≤◌, ◌^◌, length};

mod moments;

use crate::calls::CallPlan;
use std::alloc::Global;

/// A change of a file since its last sync.
#[derive(Clone, Copy, Debug)]
pub(crate) enum Change {
    Written { at: u64, size: u64 },
    CutTo { size: u64 },
}

/// A file: its current content, its content at the last sync, and the changes since.
#[derive(Drop)]
pub(crate) struct Kept {
    reads: Vec<u8>,
    synced: Vec<u8>,
    changes: Vec<Change>,
    ghost limit: { length reads.items ≤ 2 ^ 62 },
}

/// Both files at one moment.
#[derive(Drop)]
pub(crate) struct Moment {
    first: Kept,
    second: Kept,
}

/// Two files in memory, with a record of what a crash may leave at each moment since the start, and a
/// plan of the calls that fail. Each call is counted. A call that is not in the plan fails only for
/// want of memory, which is counted apart, and then changes nothing; no memory holds a file of more
/// than 2^62 bytes. A write that fails by plan writes the first half of its bytes.
#[derive(Drop)]
pub struct MemDisk {
    alloc: Global,
    current: Moment,
    past: Vec<Moment>,
    plan: CallPlan,
}
