//! The windows of a view's query: whether what they name is there, and the query with each as wide as its route.

ghost use Rattle.std.specs.Prelude.{◌≡◌, ◌&&◌};
ghost use Rattle.std.specs.List.{list_all};
ghost use Rattle.rs_catalog.specs.Referents.{referents_on};
ghost use Rattle.rs_facts.specs.Insert.{same_name};
ghost use Rattle.rs_machine.specs.Checks.{window_route};
ghost use Rattle.rs_machine.specs.Lawful.{widened};
ghost use Rattle.rs_machine.specs.Opening.{windows_in};
ghost use Rattle.rs_machine.specs.State.{has};
ghost use Rattle.rs_methods.specs.Position.{expression_of, start_name};
ghost use Rattle.rs_stored_catalog.specs.Windows.{position_there, window_there};
ghost use Rattle.rs_syntax.specs.QueryView.{query_tree, window_tree};
ghost use Rattle.rs_syntax.specs.Tree.{whole_route};

use rs_catalog::{Catalog, RouteReferents};
use rs_methods::{Name, Position, START};
use rs_syntax::{Query, Window};

/// Makes each window of the query as wide as its route. It takes no memory.
pub(crate) fn widen(query: &mut Query)
    ensures { query_tree query.new ≡ widened (query_tree query.old) }
{
    match query {
        Query::Named(_) => {}
        Query::Where(operand, _) => widen(operand),
        Query::Dissolve(operand, _) => widen(operand),
        Query::Rename(operand, _, _) => widen(operand),
        Query::Transform(operand, _) => widen(operand),
        Query::Gaps(operand) => widen(operand),
        Query::Window(operand, window) => {
            widen(operand);
            *window = whole_window(window);
        }
        Query::Overlay(left, right) => {
            widen(left);
            widen(right);
        }
        Query::Cover(left, right) => {
            widen(left);
            widen(right);
        }
        Query::Merge(left, right) => {
            widen(left);
            widen(right);
        }
        Query::Minus(left, right) => {
            widen(left);
            widen(right);
        }
    }
}

// The whole route of a window.
fn whole_window(window: &Window) -> Window
    ensures { window_tree result ≡ whole_route (window_route (window_tree window.now)) }
{
    match window {
        Window::Whole { route } | Window::Part { route, .. } => Window::Whole { route: *route },
    }
}

/// Whether each window of the query is of a route that is there, by referents that are there.
pub(crate) fn windows_there(catalog: &Catalog, referents: &RouteReferents, query: &Query) -> bool
    ensures { result ≡ list_all (window_there catalog.now (referents_on referents.now)) (windows_in (query_tree query.now)) }
{
    match query {
        Query::Named(_) => true,
        Query::Where(operand, _) => windows_there(catalog, referents, operand),
        Query::Dissolve(operand, _) => windows_there(catalog, referents, operand),
        Query::Rename(operand, _, _) => windows_there(catalog, referents, operand),
        Query::Transform(operand, _) => windows_there(catalog, referents, operand),
        Query::Gaps(operand) => windows_there(catalog, referents, operand),
        Query::Window(operand, window) => {
            windows_there(catalog, referents, operand) && window_there(catalog, referents, window)
        }
        Query::Overlay(left, right) => {
            windows_there(catalog, referents, left) && windows_there(catalog, referents, right)
        }
        Query::Cover(left, right) => {
            windows_there(catalog, referents, left) && windows_there(catalog, referents, right)
        }
        Query::Merge(left, right) => {
            windows_there(catalog, referents, left) && windows_there(catalog, referents, right)
        }
        Query::Minus(left, right) => {
            windows_there(catalog, referents, left) && windows_there(catalog, referents, right)
        }
    }
}

// Whether the window's route is there, and the referents that it names.
fn window_there(catalog: &Catalog, referents: &RouteReferents, window: &Window) -> bool
    ensures { result ≡ window_there catalog.now (referents_on referents.now) (window_tree window.now) }
{
    match window {
        Window::Whole { route } => catalog.route(route).is_some(),
        Window::Part { route, from, to } => {
            position_there(catalog, referents, route, from)
                && position_there(catalog, referents, route, to)
        }
    }
}

// Whether the route is there, and the referent that the position names, if any.
fn position_there(
    catalog: &Catalog,
    referents: &RouteReferents,
    route: &Name,
    position: &Position,
) -> bool
    ensures { result ≡ (has catalog.now.routes route.now.bytes && position_there catalog.now (referents_on referents.now) route.now.bytes (expression_of position.now)) }
{
    let Some(entry) = catalog.route(route) else {
        return false;
    };
    match position {
        Position::Relative(name, _, _) => is_start(name) || referents.has(entry.number(), name),
        Position::Absolute(_) | Position::Interpolative(_) => true,
    }
}

// Whether it is the name of the referent that each route has at its start.
fn is_start(name: &Name) -> bool
    ensures { result ≡ same_name start_name name.now.bytes }
{
    name.as_str() == START
}
