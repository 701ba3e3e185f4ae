//! What follows at a gate, and the search for the end gate.
ghost use Rattle.std.specs.Prelude.{◌≡◌, ◌≤◌, ◌<◌, ◌^◌, ℕ, List, length, take, drop, IfOk, IsErrOf};
ghost use Rattle.std.specs.Int.{w32, to_be_bytes};
ghost use Rattle.hk_base.specs.Disk.{Tells, Reads, RunOn, LeavesOnly};
ghost use Rattle.hk_base.specs.Faults.{Rose};
ghost use Rattle.frame_log.specs.declared.fault.LogFault.TheVariants.{Damaged, StoreFault};
ghost use Rattle.frame_log.specs.Format.{frames_at, NoLog};
ghost use Rattle.frame_log.specs.Scan.{IsNextItem, NextFits, IsScanned};

use crate::LogFault;
use crate::window::Window;
use hk_base::Disk;
use std::alloc::Global;

/// The largest size of a payload, in bytes.
pub const LONGEST_PAYLOAD: u32 = 1_048_576;

/// The gate byte of a frame.
pub(crate) const OPEN: u8 = 1;

/// The end gate: the byte after the last frame.
pub(crate) const SHUT: u8 = 0;

/// What follows at a gate: a frame with a payload of `count` bytes, an end, or neither.
#[derive(Clone, Copy)]
pub(crate) enum Next {
    Payload { count: u32 },
    End { gate: u8 },
    Broken,
}

/// The end gate of a log: its offset and its byte.
#[derive(Clone, Copy)]
pub(crate) struct Scan {
    pub end: u64,
    pub gate: u8,
}

/// Decodes the length after a gate byte.
fn count_of(head: &[u8]) -> u32
    requires { length head.now ≡ 5 }
    ensures { to_be_bytes w32 result ≡ drop 1 head.now }
{
    u32::from_be_bytes([head[1], head[2], head[3], head[4]])
}

/// Returns what follows at a gate. `head` has the first five bytes from the gate on, or all if there are
/// fewer; `left` is the number of bytes from the gate to the end of the file.
pub(crate) fn next_at(head: &[u8], left: u64) -> Next
    ensures next { (bytes : List ℕ) → left ≡ length bytes → head.now ≡ take 5 bytes →
        IsNextItem bytes result }
    ensures fits { NextFits left result }
{
    if head.is_empty() {
        return Next::Broken;
    }
    let gate = head[0];
    if gate != OPEN {
        return Next::End { gate };
    }
    if head.len() != 5 {
        return Next::Broken;
    }
    let count = count_of(head);
    if count == 0 || count > LONGEST_PAYLOAD || left < 6 + count as u64 {
        return Next::Broken;
    }
    Next::Payload { count }
}

/// Skips the frames after the magic and returns the end gate. Keeps no payload.
pub(crate) fn pass_frames<D: Disk>(
    alloc: Global,
    disk: &mut D,
    file: u8,
    size: u64,
) -> Result<Scan, LogFault>
    requires file { file < 2 }
    requires place { 8 < size }
    requires limit { size ≤ 2 ^ 62 }
    requires size { Tells (D.state disk.old) → size ≡ length ((D.state disk.old).reads file) }

    ensures scan { IfOk result
        (λ scan. Tells (D.state disk.old) → IsScanned ((D.state disk.old).reads file) scan) }
    ensures end { IfOk result (λ scan. scan.end < size) }
    ensures damaged { (at : ℕ) → IsErrOf result (Damaged at) → Tells (D.state disk.old) →
        frames_at size 8 (drop 8 ((D.state disk.old).reads file)) ≡ NoLog at }
    ensures cause { IsErrOf result StoreFault →
        Rose (D.state disk.old).faults (D.state disk.new).faults }
    ensures same { Reads file (D.state disk.old) (D.state disk.new) }
    ensures run { RunOn file (D.state disk.old) (D.state disk.new) }
    ensures moments { LeavesOnly file (D.state disk.old) (D.state disk.new)
        ((D.state disk.old).leaves file) }
{
    let mut window = Window::empty(alloc);
    let mut at: u64 = 8;
    'gates: loop {
        window.show(alloc, disk, file, at, 5)?;
        match next_at(window.bytes_at(at, 5), size - at) {
            Next::Payload { count } => at = at + 5 + count as u64,
            Next::End { gate } => return Ok(Scan { end: at, gate }),
            Next::Broken => return Err(LogFault::Damaged { at }),
        }
    }
}
