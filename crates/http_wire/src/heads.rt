//! Reading the bytes of a head.
ghost use Rattle.std.specs.Prelude.{◌≡◌, ◌≤◌, ◌↔◌, length, IfOk, IfErr, IsTrue, Err};
ghost use Rattle.hk_base.specs.Faults.{Rose};
ghost use Rattle.http_wire.specs.Reading.{ahead};
ghost use Rattle.http_wire.specs.Heads.{EndsHead, EndsIn};
ghost use Rattle.http_wire.specs.Requests.{TakesHead, StopsFor};

use crate::buffer::{Next, ReadBuffer};
use crate::faults::WireFault;
use hk_base::{ByteList, Source};
use std::alloc::Global;

/// The greatest length of a head.
const LONGEST_HEAD: usize = 16_384;

/// Returns whether `bytes` ends with `tail`.
fn ends_in(tail: &[u8], bytes: &[u8]) -> bool
    ensures { IsTrue result ↔ EndsIn tail.now bytes.now }
{
    bytes.ends_with(tail)
}

/// Returns whether the bytes end with an empty line.
fn ends_head(bytes: &[u8]) -> bool
    ensures { IsTrue result ↔ EndsHead bytes.now }
{
    ends_in(b"\n\n", bytes) || ends_in(b"\n\r\n", bytes)
}

/// Reads the bytes of a head, up to and including its first empty line.
pub(crate) fn read_head<S: Source>(
    alloc: Global,
    source: &mut S,
    buffer: &mut ReadBuffer,
) -> Result<ByteList, WireFault>
    ensures ok { IfOk result
        (TakesHead (ahead buffer.old (S.left source.old))
        (ahead buffer.new (S.left source.new))) }
    ensures err { IfErr result
        (StopsFor (ahead buffer.old (S.left source.old)) (ahead buffer.new (S.left source.new))) }
    ensures later { S.faults source.old ≤ S.faults source.new }
    ensures read_fault { result ≡ Err WireFault.ReadFault →
        Rose (S.faults source.old) (S.faults source.new) }
{
    let mut head = ByteList::new(alloc);
    'bytes: while head.len() < LONGEST_HEAD {
        match buffer.next(source) {
            Next::Fault => return Err(WireFault::ReadFault),
            Next::End if head.is_empty() => return Err(WireFault::End),
            Next::End => return Err(WireFault::EndedEarly),
            Next::Byte(byte) => {
                head.push(byte)?;
                if ends_head(head.as_slice()) {
                    return Ok(head);
                }
            }
        }
    }
    Err(WireFault::HeadTooLong)
}
