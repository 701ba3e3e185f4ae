//! Reading the bytes of a body.
ghost use Rattle.std.specs.Prelude.{◌≡◌, ◌≤◌, length, IfOk, IfErr, Err};
ghost use Rattle.hk_base.specs.Faults.{Rose};
ghost use Rattle.http_wire.specs.Reading.{ahead};
ghost use Rattle.http_wire.specs.Requests.{TakesBody, StopsInBody};

use crate::buffer::{Filled, ReadBuffer};
use crate::faults::WireFault;
use hk_base::{ByteList, Source};
use std::alloc::Global;

/// Reads a body of `size` bytes. It allocates for bytes that have arrived, not for those declared.
pub(crate) fn read_body<S: Source>(
    alloc: Global,
    source: &mut S,
    buffer: &mut ReadBuffer,
    size: usize,
) -> Result<ByteList, WireFault>
    ensures ok { IfOk result
        (TakesBody (ahead buffer.old (S.left source.old)) (ahead buffer.new (S.left source.new))
        size) }
    ensures err { IfErr result
        (StopsInBody (ahead buffer.old (S.left source.old)) (ahead buffer.new (S.left source.new))
        size) }
    ensures later { S.faults source.old ≤ S.faults source.new }
    ensures read_fault { result ≡ Err WireFault.ReadFault →
        Rose (S.faults source.old) (S.faults source.new) }
{
    let mut body = ByteList::new(alloc);
    'bytes: while body.len() < size {
        let missing = size - body.len();
        match buffer.fill(source) {
            Filled::Fault => return Err(WireFault::ReadFault),
            Filled::End => return Err(WireFault::EndedEarly),
            Filled::More => buffer.give(missing, &mut body)?,
        }
    }
    Ok(body)
}
