//! The call of a request.
ghost use Rattle.std.specs.Prelude.{◌≡◌};
ghost use Rattle.kms_rest.specs.Requests as spec;
ghost use Rattle.kms_rest.specs.Operations.{Routes};
ghost use Rattle.path_routes.specs.Queries.{parameters, path_of, query_of};

use crate::calls::read_call;
use crate::faults::RestFault;
use crate::lazy_router::LazyRouter;
use crate::operation::Operation;
use crate::query::is_single;
use crate::routes::route;
use hk_base::Text;
use http_wire::Request;
use kms_calls::KmsCall;
use path_routes::{Query, UserFault, decoded, path_of, query_of, read_user};
use std::alloc::Global;

/// Returns the user and the call of a request by the REST API of the Hadoop KMS, or why the request is
/// not a call. It builds the routes for this request alone. For more than one request, as on a
/// connection, use `to_call_with`, which keeps them.
pub fn to_call(alloc: Global, request: &Request) -> Result<(Text, KmsCall), RestFault>
    ensures { spec.Says request.now result }
{
    let mut router = LazyRouter::new(alloc);
    to_call_with(alloc, &mut router, request)
}

/// Returns the user and the call of a request, as `to_call` does, with a router that is kept.
pub fn to_call_with(
    alloc: Global,
    router: &mut LazyRouter,
    request: &Request,
) -> Result<(Text, KmsCall), RestFault>
    ensures { spec.Says request.now result }
{
    let Ok(router) = router.get() else {
        return Err(RestFault::NoMemory);
    };
    let path = path_of(request.target_text());
    match route(router, request.method.as_slice(), path) {
        Ok((operation, part)) => read_routed(alloc, request, operation, part),
        Err(fault) => Err(fault),
    }
}

/// Returns the user and the call of a request whose path names this operation. `part` is the variable
/// part of the path.
fn read_routed(
    alloc: Global,
    request: &Request,
    operation: Operation,
    part: &[u8],
) -> Result<(Text, KmsCall), RestFault>
    requires { Routes request.now.method (path_of request.now.target) operation part.now }
    ensures { spec.Says request.now result }
{
    let Ok(query) = Query::read(alloc, query_of(request.target_text())) else {
        return Err(RestFault::NoMemory);
    };
    let Ok(name) = decoded(alloc, part) else {
        return Err(RestFault::NoMemory);
    };
    let user = match read_user(alloc, &query) {
        Ok(user) => user,
        Err(UserFault::NoUser) => return Err(RestFault::NoUser),
        Err(UserFault::BadRequest) => return Err(RestFault::BadRequest),
        Err(UserFault::NoMemory) => return Err(RestFault::NoMemory),
    };
    if !is_single(&query) {
        return Err(RestFault::BadRequest);
    }
    match read_call(
        alloc,
        operation,
        name.as_slice(),
        &query,
        request.body.as_slice(),
    ) {
        Ok(call) => Ok((user, call)),
        Err(fault) => Err(fault),
    }
}
