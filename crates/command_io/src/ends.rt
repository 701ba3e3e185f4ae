//! How a command ends: its exit status, and the last line that it writes.
ghost use Rattle.std.specs.Prelude.{◌≡◌, ◌≢◌, ◌⊎◌, ◌≤◌, ◌<◌, ◌^◌, codes, string_bytes, IfOk, MatchResult};
ghost use Rattle.hk_base.specs.Faults.{Rose};
ghost use Rattle.command_io.specs.Ends.{Closes, HasNumber, Reports, ShowsWith, WritesLast, damaged_in, ended_by, ended_by_props, ended_by_text, last_line, status_of};

use crate::props::PropsFault;
use frame_log::StartFault;
use hk_base::{Sink, write_all};
use prop_text::PropFault;
use std::alloc::{AllocError, Global};

/// How a replay ended.
#[derive(Clone, Copy, Debug, PartialEq, Eq)]
pub enum ReplayEnd {
    /// The input was read to its end.
    Done,
    /// This line of the properties is refused.
    AclRefused { number: u64 },
    /// This line of the properties sets a name that an earlier line set.
    AclRepeated { number: u64 },
    /// This line of the properties sets an unknown name.
    AclUnknown { number: u64 },
    /// The properties have more than 1,048,576 bytes.
    AclTooLong,
    /// A line was refused.
    BadLine,
    /// The key log is damaged at this offset.
    DamagedKeys { at: u64 },
    /// The edit log is damaged at this offset.
    DamagedNames { at: u64 },
    /// The disk failed when a log was opened.
    StoreFault,
    /// Allocation failed.
    NoMemory,
    /// The input or the source of the properties failed.
    ReadFault,
    /// The output failed.
    WriteFault,
    /// The last opening of a log is used up.
    Spent,
}

/// How a replay ends if the text of the properties has a fault.
fn ended_by_text(fault: PropFault) -> ReplayEnd
    ensures { result ≡ ended_by_text fault }
{
    match fault {
        PropFault::BadLine { number } => ReplayEnd::AclRefused { number },
        PropFault::Repeated { number } => ReplayEnd::AclRepeated { number },
        PropFault::UnknownName { number } => ReplayEnd::AclUnknown { number },
        PropFault::TooLong => ReplayEnd::AclTooLong,
        PropFault::NoMemory => ReplayEnd::NoMemory,
    }
}

/// How a replay ends if the properties cannot be read.
pub fn ended_by_props(fault: PropsFault) -> ReplayEnd
    ensures { result ≡ ended_by_props fault }
{
    match fault {
        PropsFault::ReadFault => ReplayEnd::ReadFault,
        PropsFault::TextFault(fault) => ended_by_text(fault),
    }
}

/// How a replay ends if the log on a file is damaged.
fn damaged_in(file: u8, at: u64) -> ReplayEnd
    ensures { result ≡ damaged_in file at }
{
    match file {
        0 => ReplayEnd::DamagedKeys { at },
        _ => ReplayEnd::DamagedNames { at },
    }
}

/// How a replay ends if the log on a file cannot be opened.
pub fn ended_by(file: u8, fault: StartFault) -> ReplayEnd
    ensures { result ≡ ended_by file fault }
{
    match fault {
        StartFault::Damaged { at } => damaged_in(file, at),
        StartFault::StoreFault => ReplayEnd::StoreFault,
        StartFault::NoMemory => ReplayEnd::NoMemory,
        StartFault::Spent => ReplayEnd::Spent,
    }
}

/// Writes a text. Returns `status`, or 8 if the output fails.
pub fn show<K: Sink>(out: &mut K, text: &[u8], status: u8) -> u8
    requires { status ≢ 8 }
    ensures shows { ShowsWith text.now status (K.written out.old) (K.written out.new) result }
    ensures write { result ≡ 8 → Rose (K.faults out.old) (K.faults out.new) }
{
    match write_all(out, text) {
        Ok(()) => status,
        Err(_) => 8,
    }
}

/// Writes a text and drops it. Returns 0, or 8 if the output fails.
pub fn show_made<K: Sink>(out: &mut K, text: String) -> u8
    ensures shows { ShowsWith (string_bytes text) 0 (K.written out.old) (K.written out.new) result }
    ensures write { result ≡ 8 → Rose (K.faults out.old) (K.faults out.new) }
{
    let status = show(out, text.as_bytes(), 0);
    drop(text);
    status
}

/// Writes the last line if the end has one. Returns how the replay ends then.
pub fn finish<K: Sink>(alloc: Global, out: &mut K, stop: ReplayEnd, count: u64) -> ReplayEnd
    requires { count < 2 ^ 41 }
    ensures closes { Closes stop count (K.written out.old) (K.written out.new) result }
    ensures write { result ≡ ReplayEnd.WriteFault →
        (stop ≡ ReplayEnd.WriteFault) ⊎ Rose (K.faults out.old) (K.faults out.new) }
    ensures later { K.faults out.old ≤ K.faults out.new }
{
    match stop {
        ReplayEnd::Done => ReplayEnd::Done,
        ReplayEnd::WriteFault => ReplayEnd::WriteFault,
        ReplayEnd::NoMemory => written_or_fault(out, b"no memory\n", ReplayEnd::NoMemory),
        ReplayEnd::ReadFault => written_or_fault(out, b"read fault\n", ReplayEnd::ReadFault),
        ReplayEnd::StoreFault => written_or_fault(out, b"store fault\n", ReplayEnd::StoreFault),
        ReplayEnd::Spent => written_or_fault(out, b"openings spent\n", ReplayEnd::Spent),
        ReplayEnd::AclTooLong => written_or_fault(out, b"acl too long\n", ReplayEnd::AclTooLong),
        _ => numbered(out, numbered_line(alloc, stop, count), stop),
    }
}

/// Makes the last line of an end that has a number.
fn numbered_line(alloc: Global, end: ReplayEnd, count: u64) -> Result<String, AllocError>
    requires number { HasNumber end }
    requires count { count < 2 ^ 41 }
    ensures { IfOk result (λ text. string_bytes text ≡ last_line end count) }
{
    match end {
        ReplayEnd::BadLine => {
            let line = count + 1;
            format!(in alloc; "line {line} refused\n")
        }
        ReplayEnd::DamagedKeys { at } => format!(in alloc; "damaged keys {at}\n"),
        ReplayEnd::DamagedNames { at } => format!(in alloc; "damaged names {at}\n"),
        ReplayEnd::AclRefused { number } => format!(in alloc; "acl line {number} refused\n"),
        ReplayEnd::AclRepeated { number } => format!(in alloc; "acl line {number} repeated\n"),
        ReplayEnd::AclUnknown { number } => format!(in alloc; "acl line {number} unknown\n"),
        _ => unreachable!(),
    }
}

/// Writes a last line with a number, or `no memory` if its allocation failed.
fn numbered<K: Sink>(out: &mut K, line: Result<String, AllocError>, ended: ReplayEnd) -> ReplayEnd
    ensures wrote { MatchResult line
        (λ text.
        WritesLast (K.written out.old) (K.written out.new) (string_bytes text) ended result)
        (λ _.
        WritesLast (K.written out.old) (K.written out.new) (codes "no memory\n")
        ReplayEnd.NoMemory result) }
    ensures write { result ≡ ReplayEnd.WriteFault →
        (ended ≡ ReplayEnd.WriteFault) ⊎ Rose (K.faults out.old) (K.faults out.new) }
    ensures later { K.faults out.old ≤ K.faults out.new }
{
    match line {
        Err(_) => written_or_fault(out, b"no memory\n", ReplayEnd::NoMemory),
        Ok(text) => written_or_fault(out, text.as_bytes(), ended),
    }
}

/// Writes a last line. Returns `ended`, or `WriteFault` if the output fails.
fn written_or_fault<K: Sink>(out: &mut K, last: &[u8], ended: ReplayEnd) -> ReplayEnd
    ensures wrote { WritesLast (K.written out.old) (K.written out.new) last.now ended result }
    ensures write { result ≡ ReplayEnd.WriteFault →
        (ended ≡ ReplayEnd.WriteFault) ⊎ Rose (K.faults out.old) (K.faults out.new) }
    ensures later { K.faults out.old ≤ K.faults out.new }
{
    match write_all(out, last) {
        Ok(()) => ended,
        Err(_) => ReplayEnd::WriteFault,
    }
}

/// The exit status of an end.
pub fn status_of(ended: ReplayEnd) -> u8
    ensures { result ≡ status_of ended }
{
    match ended {
        ReplayEnd::Done => 0,
        ReplayEnd::AclRefused { number: _ } => 3,
        ReplayEnd::AclRepeated { number: _ } => 3,
        ReplayEnd::AclUnknown { number: _ } => 3,
        ReplayEnd::AclTooLong => 3,
        ReplayEnd::BadLine => 3,
        ReplayEnd::DamagedKeys { at: _ } => 4,
        ReplayEnd::DamagedNames { at: _ } => 4,
        ReplayEnd::StoreFault => 5,
        ReplayEnd::NoMemory => 6,
        ReplayEnd::ReadFault => 7,
        ReplayEnd::WriteFault => 8,
        ReplayEnd::Spent => 10,
    }
}

/// Writes the last line of an end, and returns its status.
pub fn report<K: Sink>(alloc: Global, out: &mut K, end: ReplayEnd) -> u8
    ensures reports { Reports end (K.written out.old) (K.written out.new) result }
    ensures write { result ≡ 8 →
        (end ≡ ReplayEnd.WriteFault) ⊎ Rose (K.faults out.old) (K.faults out.new) }
{
    status_of(finish(alloc, out, end, 0))
}
