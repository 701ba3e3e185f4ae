//! A request.
ghost use Rattle.std.specs.Prelude.{◌≡◌};
ghost use Rattle.std.specs.Str.{IsUtf8};

use hk_base::ByteList;
use std::marker::Model;

/// A request of HTTP/1.0 or HTTP/1.1. Its target is UTF-8.
#[derive(Drop)]
pub struct Request {
    pub method: ByteList,
    pub target: ByteList,
    pub body: ByteList,
    /// The length of the request in bytes, head and body together.
    pub size: u64,
    /// Whether the connection is kept for another request.
    pub keep: bool,
}

impl Model for Request {
    ghost use Rattle.std.specs.Str.{IsUtf8};
    ghost use Rattle.http_wire.specs.Message.{Message};

    ghost Value = { Message };

    ghost view = { λ r.
        record {
          method = r.method;
          target = r.target;
          body = r.body;
          size = r.size;
          keep = r.keep;
        } };

    ghost invariant = { λ r. IsUtf8 r.target };
}

impl Request {
    ghost use Rattle.http_wire.specs.Message.{is_head};

    /// Returns whether the method is HEAD: the response then has no body (RFC 9110).
    pub fn is_head(&self) -> bool
        ensures { result ≡ is_head self.now }
    {
        self.method.as_slice() == b"HEAD".as_slice()
    }

    /// Returns the target as text.
    pub fn target_text(&self) -> &str
        ensures text { result.now ≡ self.now.target }
        ensures utf8 { IsUtf8 self.now.target }
    {
        str::from_utf8(self.target.as_slice()).unwrap()
    }
}
