//! Views: the query for which a name stands, where it is still to be opened.
//!
//! A view that is the name of a view alone has no node: its chain is followed to the end here, where that takes little stack.

ghost use Rattle.std.specs.Prelude.{◌≡◌, ◌-◌, ◌<◌, ◌≤◌, IfSome, IfNone};
ghost use Rattle.rs_syntax.specs.QueryView.{query_tree};
ghost use Rattle.rs_syntax.specs.Tree.{named};
ghost use Rattle.rs_machine.specs.Opening.{opened_times};
ghost use Rattle.rs_catalog.specs.Definitions.{views_of};
ghost use Rattle.rs_checker.specs.NodeView.{opened_tree};

use crate::node::{Node, top_node};
use rs_catalog::Catalog;
use rs_syntax::{Name, Query};

/// The topmost node of the query where views are opened so many times, and how many openings are left below it. A name that stays is a node
/// too.
pub fn opened_node<'a>(catalog: &'a Catalog, query: &'a Query, openings: usize) -> (Node<'a>, usize)
    ensures opened { opened_times openings (views_of catalog.now) (query_tree query.now) ≡ opened_tree (views_of catalog.now) result.1 result.0 }
    ensures fewer { result.1 ≤ openings }
{
    let node = top_node(query);
    match node {
        Node::Named(name) => match opened_query(catalog, name, openings) {
            Some(view) => opened_node(catalog, view, openings - 1),
            None => (node, openings),
        },
        Node::Unary(_, _) => (node, openings),
        Node::Binary(_, _, _) => (node, openings),
    }
}

// The query for which the name stands where so many openings are left, with one opening fewer; none where the name
// stays.
fn opened_query<'a>(catalog: &'a Catalog, name: &Name, openings: usize) -> Option<&'a Query>
    ensures opens { IfSome result (λ query. 0 < openings) }
    ensures opened { IfSome result (λ query. opened_times openings (views_of catalog.now) (named name.now.bytes)
        ≡ opened_times (openings - 1) (views_of catalog.now) (query_tree query.now)) }
    ensures stays { IfNone result (opened_times openings (views_of catalog.now) (named name.now.bytes) ≡ named name.now.bytes) }
{
    if openings == 0 {
        return None;
    }
    match catalog.view(name) {
        Some(view) => Some(view.query()),
        None => None,
    }
}
