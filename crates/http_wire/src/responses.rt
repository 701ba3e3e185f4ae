//! Responses, and how they are written.
ghost use Rattle.std.specs.Prelude.{◌≡◌, ◌≤◌, ◌++◌, OnOk, OnErr, IfOk, Err};
ghost use Rattle.std.specs.Io.KnownBytes.{Appends};
ghost use Rattle.hk_base.specs.Faults.{Rose};
ghost use Rattle.hk_base.specs.Writing.{WroteFront};
ghost use Rattle.http_wire.specs.Responses.{IsStatus, head_text, length_line, phrase, response_text, status_line, text_with, type_line};

use crate::faults::SendFault;
use hk_base::{ByteList, NoMemory, Sink, write_all};
use http::StatusCode;
use itoa::Buffer;
use std::alloc::Global;

/// A response: its status, which is one of those that the services answer with, and its body, which
/// is JSON unless it is empty.
#[derive(Drop)]
pub struct Response {
    pub status: u16,
    pub body: ByteList,
}

/// Returns the code of a status.
fn code(status: u16) -> StatusCode
    requires { IsStatus status }
    ensures { result ≡ status }
{
    StatusCode::from_u16(status).unwrap()
}

/// Returns the standard phrase of a status.
#[tactic(auto, unfolding(crate::specs::Responses::phrase))]
fn phrase(code: &StatusCode) -> &'static str
    requires { IsStatus code.now }
    ensures { result.now ≡ phrase code.now }
{
    code.canonical_reason().unwrap_or("")
}

/// Appends the status line.
#[tactic(auto, unfolding(crate::specs::Responses::status_line))]
fn append_status(out: &mut ByteList, status: u16) -> Result<(), NoMemory>
    requires { IsStatus status }
    ensures { OnOk result (out.new ≡ out.old ++ status_line status) }
{
    let code = code(status);
    out.append(b"HTTP/1.1 ")?;
    out.append(code.as_str().as_bytes())?;
    out.append(b" ")?;
    out.append(phrase(&code).as_bytes())?;
    out.append(b"\r\n")
}

/// Appends the type of a body unless it is empty.
#[tactic(auto, unfolding(crate::specs::Responses::type_line))]
fn append_type(out: &mut ByteList, body: &[u8]) -> Result<(), NoMemory>
    ensures { OnOk result (out.new ≡ out.old ++ type_line body.now) }
{
    if body.is_empty() {
        return Ok(());
    }
    out.append(b"Content-Type: application/json\r\n")
}

/// Appends the length of a body.
#[tactic(auto, unfolding(crate::specs::Responses::length_line))]
fn append_length(out: &mut ByteList, body: &[u8]) -> Result<(), NoMemory>
    ensures { OnOk result (out.new ≡ out.old ++ length_line body.now) }
{
    let mut digits = Buffer::new();
    out.append(b"Content-Length: ")?;
    out.append(digits.format(body.len()).as_bytes())?;
    out.append(b"\r\n")
}

/// Makes the text of a response that announces a body and has the bytes `sent` in its place.
#[tactic(auto, unfolding(crate::specs::Responses::text_with))]
fn text_of(alloc: Global, status: u16, body: &[u8], sent: &[u8]) -> Result<ByteList, NoMemory>
    requires { IsStatus status }
    ensures { IfOk result (λ text. text ≡ text_with status body.now sent.now) }
{
    let mut text = ByteList::new(alloc);
    append_status(&mut text, status)?;
    append_type(&mut text, body)?;
    append_length(&mut text, body)?;
    text.append(b"\r\n")?;
    text.append(sent)?;
    Ok(text)
}

/// Writes a response that announces a body and has the bytes `sent` in its place.
fn send<K: Sink>(
    alloc: Global,
    sink: &mut K,
    status: u16,
    body: &[u8],
    sent: &[u8],
) -> Result<(), SendFault>
    requires { IsStatus status }
    ensures ok { OnOk result
        (Appends (K.written sink.old) (K.written sink.new) (text_with status body.now sent.now)) }
    ensures err { OnErr result
        (WroteFront (K.written sink.old) (K.written sink.new)
        (text_with status body.now sent.now)) }
    ensures no_memory { result ≡ Err SendFault.NoMemory → K.written sink.new ≡ K.written sink.old }

    ensures later { K.faults sink.old ≤ K.faults sink.new }
    ensures write_fault { result ≡ Err SendFault.WriteFault →
        Rose (K.faults sink.old) (K.faults sink.new) }
{
    let Ok(text) = text_of(alloc, status, body, sent) else {
        return Err(SendFault::NoMemory);
    };
    match write_all(sink, text.as_slice()) {
        Ok(()) => Ok(()),
        Err(_) => Err(SendFault::WriteFault),
    }
}

/// Writes the response with this status and this body (RFC 9112). If the sink fails, a prefix of the
/// response is written. If allocation fails, nothing is written. The status must be one that the
/// services answer with. A body is JSON unless it is empty.
pub fn write_response<K: Sink>(
    alloc: Global,
    sink: &mut K,
    status: u16,
    body: &[u8],
) -> Result<(), SendFault>
    requires { IsStatus status }
    ensures ok { OnOk result
        (Appends (K.written sink.old) (K.written sink.new) (response_text status body.now)) }
    ensures err { OnErr result
        (WroteFront (K.written sink.old) (K.written sink.new) (response_text status body.now)) }
    ensures no_memory { result ≡ Err SendFault.NoMemory → K.written sink.new ≡ K.written sink.old }

    ensures later { K.faults sink.old ≤ K.faults sink.new }
    ensures write_fault { result ≡ Err SendFault.WriteFault →
        Rose (K.faults sink.old) (K.faults sink.new) }
{
    send(alloc, sink, status, body, body)
}

/// Writes the response to a request with the method HEAD: that of `write_response`, with the length of
/// this body and without the body (RFC 9110). It fails as `write_response` does.
pub fn write_head<K: Sink>(
    alloc: Global,
    sink: &mut K,
    status: u16,
    body: &[u8],
) -> Result<(), SendFault>
    requires { IsStatus status }
    ensures ok { OnOk result
        (Appends (K.written sink.old) (K.written sink.new) (head_text status body.now)) }
    ensures err { OnErr result
        (WroteFront (K.written sink.old) (K.written sink.new) (head_text status body.now)) }
    ensures no_memory { result ≡ Err SendFault.NoMemory → K.written sink.new ≡ K.written sink.old }

    ensures later { K.faults sink.old ≤ K.faults sink.new }
    ensures write_fault { result ≡ Err SendFault.WriteFault →
        Rose (K.faults sink.old) (K.faults sink.new) }
{
    send(alloc, sink, status, body, &[])
}
