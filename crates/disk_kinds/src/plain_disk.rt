//! A disk in memory that records nothing about crashes.
ghost use Rattle.std.specs.Prelude.{◌≤◌, ◌^◌, length};

mod calls;

/// Two files in memory. Only a write fails, if it can't allocate or would make the file longer than
/// 2^62 bytes; both files are then unchanged. It keeps no record of what a crash might leave.
#[derive(Drop)]
pub struct PlainDisk {
    first: Vec<u8>,
    second: Vec<u8>,
    faults: u64,
    ghost first_limit: { length first.items ≤ 2 ^ 62 },
    ghost second_limit: { length second.items ≤ 2 ^ 62 },
}
