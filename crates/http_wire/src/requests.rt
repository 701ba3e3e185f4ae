//! Reading a request.
ghost use Rattle.std.specs.Prelude.{◌≡◌, ◌≤◌, List, ℕ, length, IfOk, IfErr, Err};
ghost use Rattle.std.specs.Str.{IsUtf8};
ghost use Rattle.hk_base.specs.Faults.{Rose};
ghost use Rattle.httparse.specs.Grammar.{RequestHead};
ghost use Rattle.httparse.specs.Spans.{IsWithin, span_bytes};
ghost use Rattle.http_wire.specs.Parsing.{message_from};
ghost use Rattle.http_wire.specs.Reading.{ahead};
ghost use Rattle.http_wire.specs.Requests.{TakesRequest, StopsFor, IsExact};

use crate::bodies::read_body;
use crate::buffer::ReadBuffer;
use crate::faults::WireFault;
use crate::heads::read_head;
use crate::parsing::{Parts, parse_head};
use crate::request::Request;
use hk_base::{ByteList, NoMemory, Source};
use std::alloc::Global;

fn copy(alloc: Global, bytes: &[u8]) -> Result<ByteList, NoMemory>
    ensures { IfOk result (λ list. list ≡ bytes.now) }
{
    let mut list = ByteList::new(alloc);
    list.append(bytes)?;
    Ok(list)
}

/// Makes a request of a head and a body.
fn assemble(alloc: Global, head: &[u8], parts: Parts, body: ByteList) -> Result<Request, NoMemory>
    requires method { IsWithin (length head.now) parts.method }
    requires target { IsWithin (length head.now) parts.target }
    requires utf8 { IsUtf8 (span_bytes head.now parts.target) }
    ensures { IfOk result (λ request. request ≡ message_from head.now parts body) }
{
    Ok(Request {
        method: copy(alloc, parts.method.of(head))?,
        target: copy(alloc, parts.target.of(head))?,
        size: head.len() as u64 + body.len() as u64,
        body,
        keep: parts.keep,
    })
}

/// Reads one request.
fn read_message<S: Source>(
    alloc: Global,
    source: &mut S,
    buffer: &mut ReadBuffer,
) -> Result<Request, WireFault>
    ensures request { IfOk result
        (TakesRequest (ahead buffer.old (S.left source.old)) (ahead buffer.new (S.left source.new))) }
    ensures fault { IfErr result
        (StopsFor (ahead buffer.old (S.left source.old)) (ahead buffer.new (S.left source.new))) }
    ensures later { S.faults source.old ≤ S.faults source.new }
    ensures read_fault { result ≡ Err WireFault.ReadFault →
        Rose (S.faults source.old) (S.faults source.new) }
{
    let head = read_head(alloc, source, buffer)?;
    let bytes = head.as_slice();
    let parts = parse_head(bytes)?;
    let body = read_body(alloc, source, buffer, parts.size)?;
    let request = assemble(alloc, bytes, parts, body)?;
    Ok(request)
}

/// Reads one request (RFC 9112), first from the buffer and then from the source. It uses exactly the
/// bytes of the request, in whatever pieces the source gives them. Bytes that were read past the
/// request stay in the buffer. A head has at most 16,384 bytes and 64 fields, a body at most
/// 4,194,304 bytes. No byte of a body is used before its length is accepted. Memory is allocated as
/// bytes arrive.
///
/// A fault depends only on the bytes, in the order that `docs/rest.md` gives, with two exceptions:
/// `ReadFault` means that the source failed, and `NoMemory` that allocation failed. After a fault
/// the connection can't be read further: the bytes up to the fault are used.
pub fn read_request<S: Source>(
    alloc: Global,
    source: &mut S,
    buffer: &mut ReadBuffer,
) -> Result<Request, WireFault>
    ensures request { IfOk result
        (TakesRequest (ahead buffer.old (S.left source.old)) (ahead buffer.new (S.left source.new))) }
    ensures fault { IfErr result
        (StopsFor (ahead buffer.old (S.left source.old)) (ahead buffer.new (S.left source.new))) }
    ensures exact { IsExact (ahead buffer.old (S.left source.old))
        (ahead buffer.new (S.left source.new)) result }

    ensures later { S.faults source.old ≤ S.faults source.new }
    ensures read_fault { result ≡ Err WireFault.ReadFault →
        Rose (S.faults source.old) (S.faults source.new) }
{
    read_message(alloc, source, buffer)
}
