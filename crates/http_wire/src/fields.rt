//! The meaning of the fields of a head.
ghost use Rattle.std.specs.Prelude.{◌≡◌, ◌≤◌, ◌<◌, List, ℕ, length, map, codes, All, IsTrue, SomeIff, false};
ghost use Rattle.std.specs.Char.{is_ascii_digit};
ghost use Rattle.std.specs.List.{list_any, list_all};
ghost use Rattle.std.specs.Str.{str_eq_ignore_ascii_case};
ghost use Rattle.httparse.specs.Spans.{IsHeaderWithin, header_bytes};
ghost use Rattle.http_wire.specs.Fields.{is_named, is_close, is_number, number_of, values, agreed, joined, sized, body_length, keeps};

use crate::faults::WireFault;
use httparse::spans::HeaderSpan;

/// The greatest length of a body: 4 MiB.
const LONGEST_BODY: u64 = 4_194_304;

/// The greatest number of digits of a length.
const MOST_DIGITS: usize = 19;

fn same_in_any_case(one: &[u8], other: &[u8]) -> bool
    ensures { result ≡ str_eq_ignore_ascii_case one.now other.now }
{
    one.eq_ignore_ascii_case(other)
}

/// Returns whether the field has this name, in any case.
#[tactic(auto, unfolding(crate::specs::Fields::is_named))]
fn is_named(name: &[u8], buf: &[u8], header: &HeaderSpan) -> bool
    requires { IsHeaderWithin (length buf.now) header.now }
    ensures { result ≡ is_named name.now (header_bytes buf.now header.now) }
{
    same_in_any_case(header.name.of(buf), name)
}

/// Returns whether some field has this name, in any case.
fn has(name: &[u8], buf: &[u8], headers: &[HeaderSpan]) -> bool
    requires { All (IsHeaderWithin (length buf.now)) headers.now }
    ensures { result ≡
        list_any (λ header. is_named name.now (header_bytes buf.now header)) headers.now }
{
    headers.iter().any(|header| is_named(name, buf, header))
}

/// Returns whether the field asks to close the connection.
#[tactic(auto, unfolding(crate::specs::Fields::is_close))]
fn is_close(buf: &[u8], header: &HeaderSpan) -> bool
    requires { IsHeaderWithin (length buf.now) header.now }
    ensures { result ≡ is_close (header_bytes buf.now header.now) }
{
    let named = is_named(b"connection", buf, header);
    let closes = same_in_any_case(header.value.of(buf), b"close");
    named && closes
}

/// Returns whether some field asks to close the connection.
fn closes(buf: &[u8], headers: &[HeaderSpan]) -> bool
    requires { All (IsHeaderWithin (length buf.now)) headers.now }
    ensures { result ≡ list_any (λ header. is_close (header_bytes buf.now header)) headers.now }
{
    headers.iter().any(|header| is_close(buf, header))
}

/// Returns whether the connection is kept after a request of HTTP/1.`minor` with these fields.
pub(crate) fn keeps(minor: u8, buf: &[u8], headers: &[HeaderSpan]) -> bool
    requires { All (IsHeaderWithin (length buf.now)) headers.now }
    ensures { result ≡ keeps minor (map (header_bytes buf.now) headers.now) }
{
    minor == 1 && !closes(buf, headers)
}

/// Returns the number that the decimal digits denote.
fn number(digits: &[u8]) -> u64
    requires few { length digits.now ≤ MOST_DIGITS }
    requires digits { IsTrue (list_all is_ascii_digit digits.now) }
    ensures { result ≡ number_of digits.now }
{
    let mut number = 0u64;
    'digits: for digit in digits {
        number = number * 10 + u64::from(*digit - b'0');
    }
    number
}

fn all_digits(value: &[u8]) -> bool
    ensures { result ≡ list_all is_ascii_digit value.now }
{
    value.iter().all(|byte| byte.is_ascii_digit())
}

/// Reads a value as a number. Returns `None` if it is not 1 to 19 decimal digits.
#[tactic(auto, unfolding(crate::specs::Fields::is_number))]
fn read_number(value: &[u8]) -> Option<u64>
    ensures { SomeIff result (IsTrue (is_number value.now)) (number_of value.now) }
{
    let digits = all_digits(value);
    if value.is_empty() || value.len() > MOST_DIGITS || !digits {
        return None;
    }
    Some(number(value))
}

/// Adds a value to the number known so far. Returns `None` if the value is no number or a different
/// one.
fn joined(known: Option<u64>, value: &[u8]) -> Option<u64>
    ensures { result ≡ joined known value.now }
{
    let number = read_number(value)?;
    match known {
        Some(earlier) if earlier != number => None,
        _ => Some(number),
    }
}

/// Returns the number that all values of `Content-Length` denote, 0 if there are none. Returns
/// `None` if one of them is no number or two differ.
fn agreed_length(buf: &[u8], headers: &[HeaderSpan]) -> Option<u64>
    requires { All (IsHeaderWithin (length buf.now)) headers.now }
    ensures { result ≡
        agreed (values (codes "content-length") (map (header_bytes buf.now) headers.now)) }
{
    let mut known: Option<u64> = None;
    'fields: for header in headers {
        if is_named(b"content-length", buf, header) {
            known = Some(joined(known, header.value.of(buf))?);
        }
    }
    Some(known.unwrap_or(0))
}

/// Returns the length of the body, or why it is not read.
fn sized(agreed: Option<u64>) -> Result<usize, WireFault>
    ensures { result ≡ sized agreed }
{
    match agreed {
        None => Err(WireFault::BadLength),
        Some(length) if length > LONGEST_BODY => Err(WireFault::BodyTooLong),
        Some(length) => Ok(length as usize),
    }
}

/// Returns the length of the body that the fields declare, or why it is not read.
pub(crate) fn body_length(buf: &[u8], headers: &[HeaderSpan]) -> Result<usize, WireFault>
    requires { All (IsHeaderWithin (length buf.now)) headers.now }
    ensures { result ≡ body_length (map (header_bytes buf.now) headers.now) }
{
    if has(b"transfer-encoding", buf, headers) {
        return Err(WireFault::Chunked);
    }
    sized(agreed_length(buf, headers))
}
