//! Checks routes: each is as a line defines it, with a number of its own.

ghost use Rattle.std.specs.Prelude.{◌↔◌, IsTrue, map};
ghost use Rattle.std.specs.List.{AllByRecursion};
ghost use Rattle.rs_catalog_pages.specs.Said.{said_route};
ghost use Rattle.rs_machine.specs.Lawful.{IsRoute};
ghost use Rattle.rs_catalog_meaning.specs.Meaning.{AreRoutes, ends_of};

use crate::by_number::places_of;
use crate::names::are_in_order;
use rs_catalog_pages::StoredRoute;
use rs_lexer::is_name;
use rs_machine::limits::ROUTES;
use rs_measure::GREATEST_MEASURE;

/// Whether these routes pass the checks and limits of their DEFINE lines, in the order of their names, each with a number of
/// its own.
pub fn are_routes(routes: &[StoredRoute]) -> bool
    ensures { IsTrue result ↔ AreRoutes (map said_route routes.now) }
{
    routes.len() <= ROUTES
        && are_in_order(routes)
        && is_each_route(routes)
        && places_of(routes).is_some()
}

// Whether each of them passes.
fn is_each_route(routes: &[StoredRoute]) -> bool
    ensures { IsTrue result ↔ AllByRecursion (λ route. IsRoute route.name (ends_of route)) (map said_route routes.now) }
{
    routes.iter().all(|route| is_route(route))
}

// Whether it has a name and two measures, the start below the end.
fn is_route(route: &StoredRoute) -> bool
    ensures { let said = said_route route.now in IsTrue result ↔ IsRoute said.name (ends_of said) }
{
    is_name(route.name.as_str()) && route.start < route.finish && route.finish <= GREATEST_MEASURE
}
