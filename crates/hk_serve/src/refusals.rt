//! The responses to bytes that are not a request.
ghost use Rattle.std.specs.Prelude.{◌≡◌, ◌≤◌, Some};
ghost use Rattle.hk_base.specs.Faults.{Rose};
ghost use Rattle.http_wire.specs.Responses.{IsStatus, response_text};
ghost use Rattle.hk_serve.specs.Ends.{EndsConnection};
ghost use Rattle.hk_serve.specs.Turns.{SentLast, send_ended};

use hk_base::{Ended, Sink};
use http_wire::{SendFault, WireFault, write_response};
use std::alloc::Global;

const BAD_HEAD: &str = "{\"RemoteException\":{\"exception\":\"BadHead\",\"message\":\"BadHead\"}}";

const HEAD_TOO_LONG: &str =
    "{\"RemoteException\":{\"exception\":\"HeadTooLong\",\"message\":\"HeadTooLong\"}}";

const BAD_LENGTH: &str =
    "{\"RemoteException\":{\"exception\":\"BadLength\",\"message\":\"BadLength\"}}";

const BODY_TOO_LONG: &str =
    "{\"RemoteException\":{\"exception\":\"BodyTooLong\",\"message\":\"BodyTooLong\"}}";

const CHUNKED: &str = "{\"RemoteException\":{\"exception\":\"Chunked\",\"message\":\"Chunked\"}}";

/// Returns how a connection ends if a response was not completely written.
pub(crate) fn ended_by(fault: SendFault) -> Ended
    ensures { result ≡ send_ended fault }
{
    match fault {
        SendFault::WriteFault => Ended::WriteFault,
        SendFault::NoMemory => Ended::NoMemory,
    }
}

/// Writes the response to bytes that are not a request. The connection then ends.
fn refuse<K: Sink>(alloc: Global, sink: &mut K, status: u16, body: &str) -> Ended
    requires { IsStatus status }
    ensures sent { SentLast (response_text status body.now) (K.written sink.old)
        (K.written sink.new) result }
    ensures later { K.faults sink.old ≤ K.faults sink.new }
    ensures write_fault { result ≡ Ended.WriteFault → Rose (K.faults sink.old) (K.faults sink.new) }
{
    match write_response(alloc, sink, status, body.as_bytes()) {
        Ok(()) => Ended::Wire,
        Err(fault) => ended_by(fault),
    }
}

/// Ends a connection from which no request could be read. Bytes that are not a request are answered,
/// unless the input ended within them.
pub(crate) fn stop<K: Sink>(alloc: Global, sink: &mut K, fault: WireFault) -> Ended
    ensures ends { EndsConnection fault (K.written sink.old) (K.written sink.new) result }
    ensures later { K.faults sink.old ≤ K.faults sink.new }
    ensures write_fault { result ≡ Ended.WriteFault → Rose (K.faults sink.old) (K.faults sink.new) }
{
    match fault {
        WireFault::End => Ended::End,
        WireFault::EndedEarly => Ended::Wire,
        WireFault::ReadFault => Ended::ReadFault,
        WireFault::NoMemory => Ended::NoMemory,
        WireFault::BadHead => refuse(alloc, sink, 400, BAD_HEAD),
        WireFault::HeadTooLong => refuse(alloc, sink, 431, HEAD_TOO_LONG),
        WireFault::BadLength => refuse(alloc, sink, 400, BAD_LENGTH),
        WireFault::BodyTooLong => refuse(alloc, sink, 413, BODY_TOO_LONG),
        WireFault::Chunked => refuse(alloc, sink, 501, CHUNKED),
    }
}
