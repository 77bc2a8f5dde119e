//! The routes on which a plan may have rows, copied from the catalogue, so that nothing of it is borrowed while spans are read.
//!
//! It promises that they come in the order of their names, and where the plan's windows are on a route, that it comes alone.

ghost use Rattle.std.specs.Prelude.{◌≡◌, ◌≢◌, ◌∷◌, [], ℕ, map, IfOk, IfSome, Some};
ghost use Rattle.std.specs.FinMap as names;
ghost use Rattle.rs_catalog.specs.declared.entries.NamedRoute.{NamedRoute};
ghost use Rattle.rs_exec.specs.Elsewhere.{HasNothingOn};
ghost use Rattle.rs_answers.specs.Routes.{entry_of, AreVisited, IsUnderWindows};

use rs_catalog::{Catalog, NamedRoute};
use rs_exec::route_over;
use rs_plan::Plan;
use std::alloc::{AllocError, Global};

/// The routes on which a plan may have rows, in the order of their names: that of the windows over it alone, if the catalogue has
/// the route under its name, or else all. The only refusal is for want of memory.
pub(crate) fn visited_routes(
    alloc: Global,
    catalog: &Catalog,
    plan: &Plan,
) -> Result<Vec<NamedRoute>, AllocError>
    ensures visited { IfOk result (λ routes. AreVisited catalog.now plan.now (map entry_of routes.items)) }
    ensures alone { IfOk result (λ routes. (named : NamedRoute) → IsUnderWindows catalog.now plan.now named → routes.items ≡ named ∷ []) }
{
    catalog.stand();
    match route_under_windows(catalog, plan) {
        Some(named) => Ok(vec![in alloc; named]?),
        None => named_routes(alloc, catalog),
    }
}

/// The route of the windows over a plan, if the catalogue has it under its name; the plan has no row on any other.
fn route_under_windows(catalog: &Catalog, plan: &Plan) -> Option<NamedRoute>
    ensures there { IfSome result (λ named. names.get catalog.now.routes named.name.bytes ≡ Some named.route) }
    ensures others { IfSome result (λ named. (number : ℕ) → number ≢ named.route.number → HasNothingOn number plan.now) }
    ensures found { (named : NamedRoute) → IsUnderWindows catalog.now plan.now named → result ≡ Some named }
{
    let Some(over) = route_over(plan) else {
        return None;
    };
    let Some(route) = catalog.route(&over.name) else {
        return None;
    };
    if route.number() != over.number {
        return None;
    }
    Some(NamedRoute {
        name: over.name,
        route,
    })
}

/// The routes in the order of their names. The only refusal is for want of memory.
fn named_routes(alloc: Global, catalog: &Catalog) -> Result<Vec<NamedRoute>, AllocError>
    ensures { IfOk result (λ routes. map entry_of routes.items ≡ names.entries catalog.now.routes) }
{
    let mut routes = Vec::with_capacity(alloc, catalog.routes_len())?;
    for (name, route) in catalog.routes() {
        routes.push(NamedRoute {
            name: *name,
            route: *route,
        })?;
    }
    Ok(routes)
}
