//! A router that is kept for all requests of a connection.
ghost use Rattle.std.specs.Prelude.{◌≡◌, IfOk};
ghost use Rattle.std.specs.Option.{ForSome};
ghost use Rattle.name_rest.specs.Rows.{table};

use crate::operation::Operation;
use crate::routes::routes;
use hk_base::NoMemory;
use matchit::Router;
use std::alloc::Global;

/// The routes of the namesystem, which are built when they are first used and kept from then on. A
/// connection has one, so that its requests don't each build the routes.
#[derive(Drop)]
pub struct LazyRouter {
    alloc: Global,
    router: Option<Router<Operation>>,
    ghost whole: { ForSome router (λ r. r ≡ table) },
}

impl LazyRouter {
    /// Creates a router whose routes are not built yet. It does not allocate.
    pub fn new(alloc: Global) -> LazyRouter {
        LazyRouter {
            alloc,
            router: None,
        }
    }

    /// Returns the router. It builds the routes at the first call.
    pub(crate) fn get(&mut self) -> Result<&Router<Operation>, NoMemory>
        ensures { IfOk result (λ r. r.now ≡ table) }
    {
        if self.router.is_none() {
            self.router = Some(routes(self.alloc)?);
        }
        match &self.router {
            Some(router) => Ok(router),
            None => Err(NoMemory),
        }
    }
}
