//! A law of requests.
ghost use Rattle.std.specs.Prelude.{◌≡◌};
ghost use Rattle.path_routes.specs.Queries as spec;
ghost use Rattle.kms_rest.specs.Laws.{SaysOneThing};

use http_wire::Request;
use kms_json::{bodies_have_one_answer, versions_are_named_by_their_texts};
use path_routes::path_of;

/// A request determines one user and call, or one fault, apart from `NoMemory`. So a request has a
/// fault exactly if the definition of that fault says so, and a request that is a call is refused only
/// if there is no memory. The function has no effect: its contract is the law.
pub fn requests_have_one_answer(request: &Request)
    ensures { SaysOneThing request.now }
{
    one_answer(request, path_of(request.target_text()));
}

/// The law for a request with this path.
fn one_answer(request: &Request, _path: &str)
    requires { _path.now ≡ spec.path_of request.now.target }
    ensures { SaysOneThing request.now }
{
    bodies_have_one_answer();
    versions_are_named_by_their_texts();
}
