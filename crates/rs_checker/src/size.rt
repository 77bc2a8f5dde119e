//! The size of a query with its views opened: how many nodes it has, and how deep they are.
//!
//! Counting stops as soon as the query is too large, so views that name views cost no more than the limits.

ghost use Rattle.std.specs.Prelude.{◌≡◌};
ghost use Rattle.rs_syntax.specs.QueryView.{query_tree};
ghost use Rattle.rs_machine.specs.Opening.{opened, opened_times};
ghost use Rattle.rs_machine.specs.Checking.{fits_limits};
ghost use Rattle.rs_catalog.specs.Definitions.{views_of};
ghost use Rattle.rs_checker.specs.Sizes.{nodes_left, pair_left};

use crate::node::Node;
use crate::views::opened_node;
use rs_catalog::Catalog;
use rs_machine::limits::{DEPTH, NODES};
use rs_syntax::Query;

/// Whether the query with its views opened has at most `NODES` nodes and is at most `DEPTH` deep.
pub fn fits_limits(catalog: &Catalog, query: &Query) -> bool
    ensures { result ≡ fits_limits (opened (views_of catalog.now) (query_tree query.now)) }
{
    nodes_left(catalog, query, catalog.views_len(), NODES, DEPTH).is_some()
}

// How many of so many nodes are left where the query with its views opened so many times takes its own, and is no
// deeper than that; none where it is too large.
#[cycle(size)]
fn nodes_left(
    catalog: &Catalog,
    query: &Query,
    openings: usize,
    nodes: usize,
    depth: usize,
) -> Option<usize>
    ensures { result ≡ nodes_left nodes depth (opened_times openings (views_of catalog.now) (query_tree query.now)) }
{
    if nodes == 0 || depth == 0 {
        return None;
    }
    let (node, openings) = opened_node(catalog, query, openings);
    match node {
        Node::Named(_) => Some(nodes - 1),
        Node::Unary(_, operand) => nodes_left(catalog, operand, openings, nodes - 1, depth - 1),
        Node::Binary(_, left, right) => pair_left(
            catalog,
            left,
            right,
            openings,
            nodes - 1,
            depth - 1,
        ),
    }
}

// The same of two operands together.
#[cycle(size)]
fn pair_left(
    catalog: &Catalog,
    left: &Query,
    right: &Query,
    openings: usize,
    nodes: usize,
    depth: usize,
) -> Option<usize>
    ensures { result ≡ pair_left nodes depth (opened_times openings (views_of catalog.now) (query_tree left.now)) (opened_times openings (views_of catalog.now) (query_tree right.now)) }
{
    let nodes = nodes_left(catalog, left, openings, nodes, depth)?;
    nodes_left(catalog, right, openings, nodes, depth)
}
