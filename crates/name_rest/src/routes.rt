//! The routes of the namesystem: which operation a method and a path name.
ghost use Rattle.std.specs.Prelude.{◌≡◌, [], IfOk, IfErr, OnOk};
ghost use Rattle.std.specs.Str.{bytes_eq};
ghost use Rattle.name_rest.specs.Operations as spec;
ghost use Rattle.name_rest.specs.Rows.{table, with_zones, with_changes, with_snapshots};

use crate::faults::NameRestFault;
use crate::operation::Operation;
use hk_base::NoMemory;
use matchit::Router;
use path_routes::add_route;
use std::alloc::Global;

/// Adds the routes of changes of the tree to an empty router.
fn add_routes_of_changes(router: &mut Router<Operation>) -> Result<(), NoMemory>
    requires { router.old ≡ [] }
    ensures { OnOk result (router.new ≡ with_changes []) }
{
    add_route(router, "/nn/v1/mkdir", Operation::Mkdir)?;
    add_route(router, "/nn/v1/create", Operation::Create)?;
    add_route(router, "/nn/v1/delete", Operation::Delete)?;
    add_route(router, "/nn/v1/rename", Operation::Rename)?;
    Ok(())
}

/// Adds the routes of zones and of their re-encryption to those of changes.
fn add_routes_of_zones(router: &mut Router<Operation>) -> Result<(), NoMemory>
    requires { router.old ≡ with_changes [] }
    ensures { OnOk result (router.new ≡ with_zones (with_changes [])) }
{
    add_route(router, "/nn/v1/zone", Operation::Zone)?;
    add_route(router, "/nn/v1/reencrypt", Operation::Reencrypt)?;
    add_route(router, "/nn/v1/cancel", Operation::Cancel)?;
    Ok(())
}

/// Adds the routes of snapshots to those of changes and zones.
fn add_routes_of_snapshots(router: &mut Router<Operation>) -> Result<(), NoMemory>
    requires { router.old ≡ with_zones (with_changes []) }
    ensures { OnOk result (router.new ≡ with_snapshots (with_zones (with_changes []))) }
{
    add_route(router, "/nn/v1/allow", Operation::Allow)?;
    add_route(router, "/nn/v1/disallow", Operation::Disallow)?;
    add_route(router, "/nn/v1/snapshot", Operation::Snapshot)?;
    add_route(router, "/nn/v1/unsnapshot", Operation::Unsnapshot)?;
    Ok(())
}

/// Adds the routes of reads to all others.
fn add_routes_of_reads(router: &mut Router<Operation>) -> Result<(), NoMemory>
    requires { router.old ≡ with_snapshots (with_zones (with_changes [])) }
    ensures { OnOk result (router.new ≡ table) }
{
    add_route(router, "/nn/v1/info", Operation::Info)?;
    add_route(router, "/nn/v1/list", Operation::List)?;
    add_route(router, "/nn/v1/status", Operation::Status)?;
    add_route(router, "/nn/v1/zones", Operation::Zones)?;
    Ok(())
}

/// Builds the routes of the namesystem, each with the operation that it names.
pub(crate) fn routes(alloc: Global) -> Result<Router<Operation>, NoMemory>
    ensures { IfOk result (λ router. router ≡ table) }
{
    let mut router = Router::new(alloc);
    add_routes_of_changes(&mut router)?;
    add_routes_of_zones(&mut router)?;
    add_routes_of_snapshots(&mut router)?;
    add_routes_of_reads(&mut router)?;
    Ok(router)
}

/// Returns the method of an operation.
fn method_of(operation: Operation) -> &'static [u8]
    ensures { result.now ≡ spec.method_of operation }
{
    match operation {
        Operation::Info | Operation::List | Operation::Status | Operation::Zones => b"GET",
        _ => b"POST",
    }
}

/// Returns whether this is the method of the operation.
fn has_method(operation: Operation, method: &[u8]) -> bool
    ensures { result ≡ bytes_eq method.now (spec.method_of operation) }
{
    method == method_of(operation)
}

/// Returns the operation that a method and a path name.
pub(crate) fn route(
    router: &Router<Operation>,
    method: &[u8],
    path: &str,
) -> Result<Operation, NameRestFault>
    requires { router.now ≡ table }
    ensures ok { IfOk result (λ operation. spec.Routes method.now path.now operation) }
    ensures fault { IfErr result (λ e. spec.IsUnrouted method.now path.now e) }
{
    let operation = match router.at(path) {
        Ok(found) => *found.value,
        Err(_) => return Err(NameRestFault::NoRoute),
    };
    if !has_method(operation, method) {
        return Err(NameRestFault::BadMethod);
    }
    Ok(operation)
}
