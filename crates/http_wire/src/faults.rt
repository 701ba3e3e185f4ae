//! The faults of reading a request and of writing a response.
use hk_base::NoMemory;

/// Why no request was read. Each of these ends the connection.
#[derive(Clone, Copy, Debug, PartialEq, Eq)]
pub enum WireFault {
    /// The input ended before the first byte of a request.
    End,
    /// The head is not one of HTTP/1.0 or HTTP/1.1, or it has more than 64 fields.
    BadHead,
    /// The first 16,384 bytes have no end of a head.
    HeadTooLong,
    /// A `Content-Length` is not a number of 1 to 19 decimal digits, or two of them differ.
    BadLength,
    /// The body would have more than 4,194,304 bytes.
    BodyTooLong,
    /// There is a `Transfer-Encoding`.
    Chunked,
    /// The input ended within a head or a body.
    EndedEarly,
    /// The source failed.
    ReadFault,
    /// There is no memory for the request.
    NoMemory,
}

impl From<NoMemory> for WireFault {
    ghost use Rattle.std.specs.Prelude.{◌≡◌};
    ghost use Rattle.http_wire.specs.declared.faults.WireFault.TheVariants as fault;

    ghost from_gives = { λ _ given. given ≡ fault.NoMemory };

    fn from(_: NoMemory) -> Self {
        WireFault::NoMemory
    }
}

/// Why a response was not completely written.
#[derive(Clone, Copy, Debug, PartialEq, Eq)]
pub enum SendFault {
    /// The sink failed.
    WriteFault,
    /// There is no memory for the response.
    NoMemory,
}
