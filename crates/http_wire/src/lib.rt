//! The messages of HTTP/1.1 (RFC 9112). A request is read from a source, in whatever pieces it
//! arrives. A response is written to a sink.
#![tactic(auto)]

mod bodies;
mod buffer;
mod faults;
mod fields;
mod heads;
mod laws;
mod parsing;
mod request;
mod requests;
mod responses;

pub use buffer::ReadBuffer;
pub use faults::{SendFault, WireFault};
pub use laws::requests_are_those_of_the_bytes;
pub use request::Request;
pub use requests::read_request;
pub use responses::{Response, write_head, write_response};
