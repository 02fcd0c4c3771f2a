//! The router.
ghost use Rattle.std.specs.Prelude.{◌≡◌, None, OnOk};
ghost use Rattle.matchit.specs.Order.{placed};
ghost use Rattle.matchit.specs.Router.{nearest};
ghost use Rattle.http_message.specs.Routes.{route_of};
ghost use Rattle.http_message.specs.Table.{FindsRoutes, entry, pattern};

use crate::route::Route;
use matchit::{InsertError, Router};
use std::alloc::{AllocError, Global};

/// The routes, ready for lookups.
#[derive(Drop)]
pub struct Routes {
    router: Router<Route>,
    ghost finds: { FindsRoutes router },
}

impl Routes {
    /// Builds the router from the table of routes. Only this call allocates.
    pub fn new(alloc: Global) -> Result<Routes, AllocError> {
        // `matchit` takes only the global allocator.
        let mut router = Router::new(alloc);
        for route in Route::ALL {
            insert(route, &mut router)?;
        }
        Ok(Routes { router })
    }

    /// Returns the route that matches a path, or `None` if no route does. It doesn't allocate.
    pub fn find(&self, path: &str) -> Option<Route>
        ensures { result ≡ route_of path.now }
    {
        match self.router.at(path) {
            Ok(found) => Some(*found.value),
            Err(_) => None,
        }
    }
}

// The only possible fault is a failed allocation.
fn insert(route: Route, router: &mut Router<Route>) -> Result<(), AllocError>
    requires { nearest (pattern route) router.old ≡ None }
    ensures { OnOk result (router.new ≡ placed (entry route) router.old) }
{
    match router.insert(route.path(), route) {
        Ok(()) => Ok(()),
        Err(error) => {
            prove!(matches!(&error, InsertError::OutOfMemory));
            Err(AllocError)
        }
    }
}
