//! Adding routes to a router.
ghost use Rattle.std.specs.Prelude.{◌≡◌, OnErr, OnOk};
ghost use Rattle.path_routes.specs.Routes.{HasNoConflict, with_route};

use hk_base::NoMemory;
use matchit::{InsertError, Router};

/// Adds a route. Returns `NoMemory` if allocation fails; the router is then unchanged.
pub fn add_route<T: Drop>(router: &mut Router<T>, route: &str, value: T) -> Result<(), NoMemory>
    requires { HasNoConflict route.now router.old }
    ensures added { OnOk result (router.new ≡ with_route route.now value router.old) }
    ensures kept { OnErr result (router.new ≡ router.old) }
{
    match router.insert(route, value) {
        Ok(()) => Ok(()),
        Err(InsertError::OutOfMemory) => Err(NoMemory),
        Err(_) => unreachable!(),
    }
}
