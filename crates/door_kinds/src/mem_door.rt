//! A door in memory.
ghost use Rattle.std.specs.Prelude.{◌≤◌, ◌+◌, length, vec_capacity};

mod visits;

use disk_kinds::{CallPlan, MemSink, MemSource};
use hk_base::Ended;
use server_parts::HangUp;
use std::alloc::Global;
use std::collections::VecDeque;
use std::snapshot::Snapshot;

/// What one client of a door in memory sends, and which calls of its connection fail.
#[derive(Drop)]
pub struct MemClient {
    /// The bytes that it sends.
    pub sends: Vec<u8>,
    /// The most bytes that one read or write moves; 0 means 1.
    pub most: usize,
    /// The numbers, from 1, of the reads that fail.
    pub failing_reads: Vec<u64>,
    /// The numbers, from 1, of the writes that fail.
    pub failing_writes: Vec<u64>,
}

/// A connection that was left at a door in memory.
#[derive(Drop)]
pub struct MemLeft {
    pub input: MemSource,
    pub out: MemSink,
    pub ended: Ended,
}

/// A handle on a connection in memory, which never waits for its client.
#[derive(Drop)]
pub struct MemHandle;

/// A door for a list of clients, one after another, with a plan of the calls that fail: of `open` and
/// `accept`, counted together. It keeps each connection that was left.
#[derive(Drop)]
pub struct MemDoor {
    alloc: Global,
    port: Option<u16>,
    clients: VecDeque<MemClient>,
    came: Vec<Snapshot<(MemSource, MemSink)>>,
    gone: Vec<MemLeft>,
    plan: CallPlan,
    faults: u64,
    ghost order: { length gone.items ≤ length came.items },
    ghost came_room: { length came.items + length clients.items ≤ vec_capacity came },
    ghost gone_room: { length came.items + length clients.items ≤ vec_capacity gone },
}

/// Has no effect on the connection, and no information about it.
impl HangUp for MemHandle {
    fn hang_up(&self) {}

    fn waits_since(&self) -> Option<u64> {
        None
    }

    fn has_ended(&self) -> bool {
        false
    }
}
