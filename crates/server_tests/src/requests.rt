//! What clients ask, and the responses that they must get.
use std::alloc::Global;
use std::process::Abort;

/// A request, and its response.
pub struct Request {
    /// The method and the target.
    pub line: &'static str,
    pub body: &'static str,
    pub status: u16,
    /// What the body of the response begins with. It is empty if this is.
    pub answer: &'static str,
}

/// The requests on one connection.
pub type Client = &'static [Request];

/// Appends the bytes of a request.
fn write(rt: &impl Abort, alloc: Global, sends: &mut Vec<u8>, request: &Request) {
    let Request { line, body, .. } = request;
    let length = body.len();
    let text = format!(in alloc; "{line} HTTP/1.1\r\nContent-Length: {length}\r\n\r\n{body}");
    let text = text.expect(rt, "memory");
    sends
        .extend_from_slice(text.as_bytes())
        .expect(rt, "memory");
}

/// Returns the bytes that a client sends.
pub fn bytes_of(rt: &impl Abort, alloc: Global, client: Client) -> Vec<u8> {
    let mut sends = Vec::new(alloc);
    for request in client {
        write(rt, alloc, &mut sends, request);
    }
    sends
}

/// A response, and the text after it.
#[derive(Clone, Copy)]
struct Response<'a> {
    status: u16,
    body: &'a str,
    rest: &'a str,
}

/// Returns the length that a head says.
fn length_in(rt: &impl Abort, head: &str) -> usize {
    let (_, rest) = head.split_once("Content-Length: ").expect(rt, "a length");
    let digits = match rest.split_once("\r\n") {
        Some((digits, _)) => digits,
        None => rest,
    };
    digits.parse::<usize>().expect(rt, "a number")
}

/// Returns the status in a head.
fn status_in(rt: &impl Abort, head: &str) -> u16 {
    let line = head.strip_prefix("HTTP/1.1 ").expect(rt, "a status line");
    let (digits, _) = line.split_once(' ').expect(rt, "a status");
    digits.parse::<u16>().expect(rt, "a number")
}

/// Reads the response that a text begins with.
fn read<'a>(rt: &impl Abort, text: &'a str) -> Response<'a> {
    let (head, rest) = text.split_once("\r\n\r\n").expect(rt, "a head");
    let (body, rest) = rest
        .split_at_checked(length_in(rt, head))
        .expect(rt, "a whole body");
    let status = status_in(rt, head);
    Response { status, body, rest }
}

fn check(rt: &impl Abort, request: &Request, response: &Response) {
    let body = response.body;
    assert_eq!(rt; response.status, request.status, "{body}");
    assert!(rt; body.starts_with(request.answer), "{body}");
    assert_eq!(rt; body.is_empty(), request.answer.is_empty());
}

/// A connection wrote exactly the responses to a client's requests.
pub fn check_responses(rt: &impl Abort, client: Client, written: &[u8]) {
    let mut rest = str::from_utf8(written).expect(rt, "a text");
    for request in client {
        let response = read(rt, rest);
        check(rt, request, &response);
        rest = response.rest;
    }
    assert_eq!(rt; rest, "");
}
