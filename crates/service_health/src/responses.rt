//! The responses with pages.
ghost use Rattle.std.specs.Prelude.{◌≡◌, ◌++◌, codes, IfOk, OnOk};
ghost use Rattle.service_health.specs.Responses.{crlf, field_line, first_lines, length_field, method_body, method_head, method_lines, method_response, page_response, status_line, typed_head};

use crate::counts::CallCounts;
use crate::pages::{Page, page_text};
use crate::pieces::append;
use hk_base::{ByteList, NoMemory};
use itoa::Buffer;
use std::alloc::Global;

fn status_line(fails: bool) -> &'static str
    ensures { result.now ≡ status_line fails }
{
    if fails {
        "HTTP/1.1 503 Service Unavailable"
    } else {
        "HTTP/1.1 200 OK"
    }
}

#[tactic(auto, unfolding(crate::specs::Responses::crlf))]
fn append_line_end(out: &mut ByteList) -> Result<(), NoMemory>
    ensures { OnOk result (out.new ≡ out.old ++ crlf) }
{
    out.append(b"\r\n")
}

#[tactic(auto, unfolding(crate::specs::Responses::field_line))]
fn append_field(out: &mut ByteList, name: &str, value: &str) -> Result<(), NoMemory>
    ensures { OnOk result (out.new ≡ out.old ++ field_line name.now value.now) }
{
    append(out, name)?;
    append(out, ": ")?;
    append(out, value)?;
    append_line_end(out)
}

#[tactic(auto, unfolding(crate::specs::Responses::first_lines))]
fn append_first_lines(out: &mut ByteList, lines: &str, media_type: &str) -> Result<(), NoMemory>
    ensures { OnOk result (out.new ≡ out.old ++ first_lines lines.now media_type.now) }
{
    append(out, lines)?;
    append_line_end(out)?;
    append_field(out, "Content-Type", media_type)
}

#[tactic(auto, unfolding(crate::specs::Responses::length_field))]
fn append_length(out: &mut ByteList, body: &[u8]) -> Result<(), NoMemory>
    ensures { OnOk result (out.new ≡ out.old ++ length_field body.now) }
{
    let mut digits = Buffer::new();
    append_field(out, "Content-Length", digits.format(body.len()))
}

#[tactic(auto, unfolding(crate::specs::Responses::typed_head))]
fn append_head(
    out: &mut ByteList,
    lines: &str,
    media_type: &str,
    body: &[u8],
) -> Result<(), NoMemory>
    ensures { OnOk result (out.new ≡ out.old ++ typed_head lines.now media_type.now body.now) }
{
    append_first_lines(out, lines, media_type)?;
    append_length(out, body)?;
    append_line_end(out)
}

/// Returns the whole response to a GET of a page with these counts (RFC 9112): its status is 503 if it is
/// the page of the health and the log of either service fails, and 200 otherwise.
pub fn page_response(alloc: Global, page: Page, counts: &CallCounts) -> Result<ByteList, NoMemory>
    ensures { IfOk result (λ text. text ≡ page_response page counts.now) }
{
    let body = page_text(alloc, page, counts)?;
    let mut text = ByteList::new(alloc);
    let line = status_line(page.fails(counts));
    append_head(&mut text, line, page.media_type(), body.as_slice())?;
    text.append(body.as_slice())?;
    Ok(text)
}

#[tactic(auto, unfolding(crate::specs::Responses::method_body))]
fn method_body() -> &'static str
    ensures { result.now ≡ method_body }
{
    "{\"RemoteException\":{\"exception\":\"BadMethod\",\"message\":\"BadMethod\"}}"
}

#[tactic(auto, unfolding(crate::specs::Responses::method_lines))]
fn method_lines() -> &'static str
    ensures { result.now ≡ method_lines }
{
    "HTTP/1.1 405 Method Not Allowed\r\nAllow: GET"
}

fn append_method_head(out: &mut ByteList) -> Result<(), NoMemory>
    ensures { OnOk result (out.new ≡ out.old ++ method_head) }
{
    let body = method_body().as_bytes();
    append_head(out, method_lines(), "application/json", body)
}

/// Returns the whole response to another method than GET at the path of a page, or its head alone for
/// the method HEAD (RFC 9110).
pub fn method_response(alloc: Global, head: bool) -> Result<ByteList, NoMemory>
    ensures { IfOk result (λ text. text ≡ method_response head) }
{
    let mut text = ByteList::new(alloc);
    append_method_head(&mut text)?;
    if head {
        return Ok(text);
    }
    append(&mut text, method_body())?;
    Ok(text)
}
