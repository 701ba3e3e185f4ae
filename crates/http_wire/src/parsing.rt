//! Parsing a head.
ghost use Rattle.std.specs.Prelude.{◌≡◌, ◌≤◌, List, ℕ, [], length, map, All, IfOk, IfErr, IfSome, IfNone, Err};
ghost use Rattle.httparse.specs.Grammar.{RequestHead, ReadsRequest};
ghost use Rattle.httparse.specs.Spans.{IsHeaderWithin, header_bytes};
ghost use Rattle.http_wire.specs.Fields.{body_length};
ghost use Rattle.http_wire.specs.Parsing.{FoundHead, HasHeadParts, GivesParts};
ghost use Rattle.http_wire.specs.Requests.{RefusesHead};

use crate::faults::WireFault;
use crate::fields::{body_length, keeps};
use httparse::Status;
use httparse::spans::{EMPTY_HEADER_SPAN, HeaderSpan, RequestSpans, Span, parse_request};

/// The greatest number of fields of a head.
const MOST_FIELDS: usize = 64;

/// The positions of the parts of a request in its head, and what its fields declare.
#[derive(Clone, Copy, Debug, PartialEq, Eq)]
pub(crate) struct Parts {
    pub method: Span,
    pub target: Span,
    /// The length of the body in bytes.
    pub size: usize,
    /// Whether the connection is kept.
    pub keep: bool,
}

/// Parses bytes that must be exactly one head. Returns `None` if they are not, or if `headers` is too
/// small for the fields.
fn find_head(bytes: &[u8], headers: &mut [HeaderSpan]) -> Option<RequestSpans>
    ensures some { IfSome result
        (λ spans. (h : RequestHead) × FoundHead bytes.now headers.new spans h) }
    ensures none { IfNone result
        ((h : RequestHead) → ReadsRequest bytes.now h [] → length h.fields ≤ length headers.old →
        ⊥) }
{
    match parse_request(bytes, headers) {
        Ok(Status::Complete(spans)) if spans.len == bytes.len() => Some(spans),
        _ => None,
    }
}

/// Returns the parts of a head with these fields, or why the head is refused.
fn parts_of(bytes: &[u8], spans: RequestSpans, headers: &[HeaderSpan]) -> Result<Parts, WireFault>
    requires { All (IsHeaderWithin (length bytes.now)) headers.now }
    ensures ok { IfOk result (GivesParts (map (header_bytes bytes.now) headers.now) spans) }
    ensures err { IfErr result
        (λ fault. body_length (map (header_bytes bytes.now) headers.now) ≡ Err fault) }
{
    let size = body_length(bytes, headers)?;
    Ok(Parts {
        method: spans.method,
        target: spans.path,
        size,
        keep: keeps(spans.version, bytes, headers),
    })
}

/// Returns the parts of a head, or why it is refused.
pub(crate) fn parse_head(bytes: &[u8]) -> Result<Parts, WireFault>
    ensures ok { IfOk result (λ parts. (h : RequestHead) × HasHeadParts bytes.now h parts) }
    ensures err { IfErr result (RefusesHead bytes.now) }
{
    let mut headers = [EMPTY_HEADER_SPAN; MOST_FIELDS];
    match find_head(bytes, &mut headers) {
        None => Err(WireFault::BadHead),
        Some(spans) => parts_of(bytes, spans, &headers[..spans.headers]),
    }
}
