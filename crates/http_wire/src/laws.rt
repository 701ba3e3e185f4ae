//! Laws of the definitions. The functions do nothing: their contracts are the laws.
ghost use Rattle.http_wire.specs.Laws.{OneBeginning, OneListOfRequests};

/// The bytes of a connection begin with exactly one request or one fault, and determine one list of
/// requests. So the requests do not depend on the pieces in which the bytes arrive.
pub fn requests_are_those_of_the_bytes()
    ensures beginning { OneBeginning }
    ensures requests { OneListOfRequests }
{}
