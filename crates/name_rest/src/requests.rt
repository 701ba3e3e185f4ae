//! The order of a request.
ghost use Rattle.std.specs.Prelude.{◌≡◌};
ghost use Rattle.name_rest.specs.Requests as spec;
ghost use Rattle.name_rest.specs.Operations.{Routes};
ghost use Rattle.path_routes.specs.Queries.{path_of};

use crate::faults::NameRestFault;
use crate::lazy_router::LazyRouter;
use crate::operation::Operation;
use crate::order::NameOrder;
use crate::orders::read_order;
use crate::routes::route;
use hk_base::Text;
use http_wire::Request;
use path_routes::{Query, UserFault, path_of, query_of, read_user};
use std::alloc::Global;

/// Returns the user and the order of a request, or why the request is not an order. It builds the
/// routes for this request alone. For more than one request, as on a connection, use `to_name_with`,
/// which keeps them.
pub fn to_name(alloc: Global, request: &Request) -> Result<(Text, NameOrder), NameRestFault>
    ensures { spec.Says request.now result }
{
    let mut router = LazyRouter::new(alloc);
    to_name_with(alloc, &mut router, request)
}

/// Returns the user and the order of a request, as `to_name` does, with a router that is kept.
pub fn to_name_with(
    alloc: Global,
    router: &mut LazyRouter,
    request: &Request,
) -> Result<(Text, NameOrder), NameRestFault>
    ensures { spec.Says request.now result }
{
    let Ok(router) = router.get() else {
        return Err(NameRestFault::NoMemory);
    };
    let path = path_of(request.target_text());
    match route(router, request.method.as_slice(), path) {
        Ok(operation) => read_routed(alloc, request, operation),
        Err(fault) => Err(fault),
    }
}

/// Returns the user and the order of a request whose method and path name this operation.
fn read_routed(
    alloc: Global,
    request: &Request,
    operation: Operation,
) -> Result<(Text, NameOrder), NameRestFault>
    requires { Routes request.now.method (path_of request.now.target) operation }
    ensures { spec.Says request.now result }
{
    let Ok(query) = Query::read(alloc, query_of(request.target_text())) else {
        return Err(NameRestFault::NoMemory);
    };
    let user = match read_user(alloc, &query) {
        Ok(user) => user,
        Err(UserFault::NoUser) => return Err(NameRestFault::NoUser),
        Err(UserFault::BadRequest) => return Err(NameRestFault::BadRequest),
        Err(UserFault::NoMemory) => return Err(NameRestFault::NoMemory),
    };
    match read_order(alloc, operation, &query) {
        Ok(order) => Ok((user, order)),
        Err(fault) => Err(fault),
    }
}
