//! How a connection ended.

/// How a connection ended.
#[derive(Clone, Copy, Debug, PartialEq, Eq)]
pub enum Ended {
    /// The input ended before the first byte of a further request.
    End,
    /// The last request closed the connection.
    Closed,
    /// The last request keeps the connection, but the requests have 2^40 bytes or more in all.
    TooLong,
    /// The input is not a request.
    Wire,
    /// The source failed.
    ReadFault,
    /// The sink failed.
    WriteFault,
    /// There is no memory for a request or a response.
    NoMemory,
}
