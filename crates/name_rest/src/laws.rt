//! A law of requests.
ghost use Rattle.std.specs.Prelude.{◌≡◌};
ghost use Rattle.path_routes.specs.Queries as spec;
ghost use Rattle.name_rest.specs.Laws.{SaysOneThing};

use http_wire::Request;
use path_routes::path_of;

/// A request determines one user and order, or one fault, apart from `NoMemory`. So a request has a
/// fault exactly if the definition of that fault says so, and a request that is an order is refused
/// only if there is no memory. The function has no effect: its contract is the law.
pub fn requests_have_one_answer(request: &Request)
    ensures { SaysOneThing request.now }
{
    one_answer(request, path_of(request.target_text()));
}

/// The law for a request with this path.
fn one_answer(request: &Request, _path: &str)
    requires { _path.now ≡ spec.path_of request.now.target }
    ensures { SaysOneThing request.now }
{}
