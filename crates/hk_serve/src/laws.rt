//! A law of the definitions. The contract of the function is the law.
ghost use Rattle.hk_serve.specs.Laws.{OneConnection};

use http_wire::requests_are_those_of_the_bytes;

/// If the bytes of a connection end it, by their own end, by a fault or by a request that closes it,
/// they determine one list of requests and one end. So what is served depends on the bytes and on the
/// answers of the desk, and not on the pieces in which the bytes arrive.
pub fn connections_are_those_of_the_bytes()
    ensures { OneConnection }
{
    requests_are_those_of_the_bytes();
}
