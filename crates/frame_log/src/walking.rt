//! A walk over the frames of a log, from any gate on. It keeps no payload.
ghost use Rattle.std.specs.Prelude.{◌≡◌, ◌≢◌, ◌≤◌, ◌<◌, ◌^◌, ◌+◌, ℕ, List, MatchOption, length, take, drop, IfOk, IsErrOf};
ghost use Rattle.std.specs.Int.{w64, to_be_bytes};
ghost use Rattle.hk_base.specs.Disk.{Tells, Reads, RunOn, LeavesOnly};
ghost use Rattle.hk_base.specs.Faults.{Rose};
ghost use Rattle.frame_log.specs.declared.fault.LogFault.TheVariants.{Damaged, StoreFault};
ghost use Rattle.frame_log.specs.FormatTwo.{first_byte, moved};
ghost use Rattle.frame_log.specs.Scan.{IsFrame};
ghost use Rattle.frame_log.specs.Walked.{IsItem, ItemFits, IsStop, StopFits, BreaksAt};

use crate::LogFault;
use crate::gates::{Next, next_at};
use crate::window::Window;
use hk_base::Disk;
use std::alloc::Global;

/// The first byte of the payload that says where the log goes on.
const MOVED: u8 = 255;

/// The number of bytes from the gate of the frame of Moved up to the next gate.
const MOVED_SIZE: usize = 14;

/// What follows at a gate: a frame with a payload of `count` bytes, the frame of Moved, which says that
/// the log goes on at selectors, an end, or neither.
#[derive(Clone, Copy)]
pub(crate) enum Item {
    Payload { count: u32 },
    Moved { place: u64 },
    End { gate: u8 },
    Broken,
}

/// Where a walk stops: at an end gate, with its byte, or at the gate of Moved, with the place that it names.
#[derive(Clone, Copy)]
pub(crate) enum Stop {
    End { at: u64, gate: u8 },
    Moved { at: u64, place: u64 },
}

/// Decodes a number of 64 bits, most significant byte first.
pub(crate) fn number_of(bytes: &[u8]) -> u64
    requires { length bytes.now ≡ 8 }
    ensures { to_be_bytes w64 result ≡ bytes.now }
{
    u64::from_be_bytes([
        bytes[0], bytes[1], bytes[2], bytes[3], bytes[4], bytes[5], bytes[6], bytes[7],
    ])
}

/// Returns the first five bytes, or all if there are fewer.
fn front_of(head: &[u8]) -> &[u8]
    ensures { result.now ≡ take 5 head.now }
{
    if head.len() <= 5 {
        return head;
    }
    &head[..5]
}

/// Returns the place that a frame of Moved names, whose 14 bytes these are, and `None` for other bytes.
fn moved_to(head: &[u8]) -> Option<u64>
    ensures { MatchOption result (length head.now ≡ 14 → first_byte (drop 5 head.now) ≢ 255)
        (λ place. drop 5 head.now ≡ moved place) }
{
    if head.len() != MOVED_SIZE {
        return None;
    }
    if head[5] != MOVED {
        return None;
    }
    Some(number_of(&head[6..]))
}

/// Returns what a frame with a payload of `count` bytes is. `head` has its first 14 bytes, or all if there
/// are fewer. Moved is told from other payloads only if it is sought.
fn frame_item(head: &[u8], count: u32, seek: bool) -> Item
    ensures next { (bytes : List ℕ) → 6 + count ≤ length bytes → head.now ≡ take 14 bytes →
        IsFrame bytes (take count (drop 5 bytes)) → IsItem seek bytes result }
    ensures fits { (left : ℕ) → 6 + count ≤ left → ItemFits seek left result }
{
    if !seek {
        return Item::Payload { count };
    }
    if count != 9 {
        return Item::Payload { count };
    }
    match moved_to(head) {
        Some(place) => return Item::Moved { place },
        None => return Item::Payload { count },
    }
}

/// Returns what follows at a gate. `head` has the first 14 bytes from the gate on, or all if there are
/// fewer; `left` is the number of bytes from the gate to the end of the file.
fn item_at(head: &[u8], left: u64, seek: bool) -> Item
    ensures next { (bytes : List ℕ) → left ≡ length bytes → head.now ≡ take 14 bytes →
        IsItem seek bytes result }
    ensures fits { ItemFits seek left result }
{
    match next_at(front_of(head), left) {
        Next::Payload { count } => return frame_item(head, count, seek),
        Next::End { gate } => return Item::End { gate },
        Next::Broken => return Item::Broken,
    }
}

/// Passes the frames from the gate at an offset on, up to an end gate, or to the frame of Moved if it is
/// sought. Returns `Damaged` exactly at a gate byte 1 that no frame follows.
pub(crate) fn walk<D: Disk>(
    alloc: Global,
    disk: &mut D,
    file: u8,
    size: u64,
    from: u64,
    seek: bool,
) -> Result<Stop, LogFault>
    requires file { file < 2 }
    requires place { from < size }
    requires limit { size ≤ 2 ^ 62 }
    requires size { Tells (D.state disk.old) → size ≡ length ((D.state disk.old).reads file) }

    ensures stop { IfOk result
        (λ stop. Tells (D.state disk.old) →
        IsStop seek ((D.state disk.old).reads file) from stop) }
    ensures end { IfOk result (λ stop. StopFits seek size stop) }
    ensures damaged { (at : ℕ) → IsErrOf result (Damaged at) → Tells (D.state disk.old) →
        BreaksAt seek ((D.state disk.old).reads file) from at }
    ensures cause { IsErrOf result StoreFault →
        Rose (D.state disk.old).faults (D.state disk.new).faults }
    ensures same { Reads file (D.state disk.old) (D.state disk.new) }
    ensures run { RunOn file (D.state disk.old) (D.state disk.new) }
    ensures moments { LeavesOnly file (D.state disk.old) (D.state disk.new)
        ((D.state disk.old).leaves file) }
{
    let mut window = Window::empty(alloc);
    let mut at = from;
    'gates: loop {
        window.show(alloc, disk, file, at, MOVED_SIZE)?;
        match item_at(window.bytes_at(at, MOVED_SIZE), size - at, seek) {
            Item::Payload { count } => at = at + 5 + count as u64,
            Item::Moved { place } => return Ok(Stop::Moved { at, place }),
            Item::End { gate } => return Ok(Stop::End { at, gate }),
            Item::Broken => return Err(LogFault::Damaged { at }),
        }
    }
}
