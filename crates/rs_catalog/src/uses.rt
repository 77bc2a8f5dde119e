//! What the queries of views name: tables and views, routes, referents and alignments; and on which routes alignments
//! have pieces.
//!
//! It promises the tests that the machine makes before one of them is dropped or moved.

ghost use Rattle.std.specs.Prelude.{◌≡◌};
ghost use Rattle.std.specs.List.{list_any};
ghost use Rattle.rs_syntax.specs.QueryView.{query_tree, window_tree};
ghost use Rattle.rs_syntax.specs.View.{piece_tree};
ghost use Rattle.rs_methods.specs.Position.{expression_of};
ghost use Rattle.rs_facts.specs.Insert.{same_name};
ghost use Rattle.rs_machine.specs.Opening.{names_query, names_route, names_referent, names_alignment, piece_on, window_on, window_by, position_by};
ghost use Rattle.rs_machine.specs.Checks.{piece_of};
ghost use Rattle.rs_catalog.specs.Definitions.{pieces_of};
ghost use Rattle.rs_catalog.specs.Uses.{some_view_query, some_piece_on};

use crate::catalog::Catalog;
use rs_methods::{Name, Position};
use rs_syntax::{Piece, Query, Window};

impl Catalog {
    /// Whether a view's query names this table or view.
    pub fn is_query_named(&self, name: &Name) -> bool
        ensures { result ≡ some_view_query self.now (names_query name.now.bytes) }
    {
        for (_, view) in self.views() {
            if names_query(view.query(), name) {
                return true;
            }
        }
        false
    }

    /// Whether a view's query names this alignment.
    pub fn is_alignment_named(&self, name: &Name) -> bool
        ensures { result ≡ some_view_query self.now (names_alignment name.now.bytes) }
    {
        for (_, view) in self.views() {
            if names_alignment(view.query(), name) {
                return true;
            }
        }
        false
    }

    /// Whether an alignment carries a part of this route, or something onto it.
    pub fn is_route_aligned(&self, route: &Name) -> bool
        ensures { result ≡ some_piece_on self.now route.now.bytes }
    {
        for (_, alignment) in self.alignments() {
            if some_piece_on(alignment.pieces(), route) {
                return true;
            }
        }
        false
    }

    /// Whether a window of a view's query is on this route.
    pub fn is_route_named(&self, route: &Name) -> bool
        ensures { result ≡ some_view_query self.now (names_route route.now.bytes) }
    {
        for (_, view) in self.views() {
            if names_route(view.query(), route) {
                return true;
            }
        }
        false
    }

    /// Whether a window of a view's query on this route lies by this referent.
    pub fn is_referent_named(&self, route: &Name, name: &Name) -> bool
        ensures { result ≡ some_view_query self.now (names_referent route.now.bytes name.now.bytes) }
    {
        for (_, view) in self.views() {
            if names_referent(view.query(), route, name) {
                return true;
            }
        }
        false
    }
}

/// Whether a query names this table or view.
pub fn names_query(query: &Query, name: &Name) -> bool
    ensures { result ≡ names_query name.now.bytes (query_tree query.now) }
{
    match query {
        Query::Named(other) => is_same(name, other),
        Query::Where(query, _)
        | Query::Dissolve(query, _)
        | Query::Rename(query, _, _)
        | Query::Window(query, _)
        | Query::Transform(query, _)
        | Query::Gaps(query) => names_query(query, name),
        Query::Overlay(left, right)
        | Query::Cover(left, right)
        | Query::Merge(left, right)
        | Query::Minus(left, right) => names_query(left, name) || names_query(right, name),
    }
}

/// Whether a query names this alignment.
pub fn names_alignment(query: &Query, name: &Name) -> bool
    ensures { result ≡ names_alignment name.now.bytes (query_tree query.now) }
{
    match query {
        Query::Named(_) => false,
        Query::Where(query, _)
        | Query::Dissolve(query, _)
        | Query::Rename(query, _, _)
        | Query::Window(query, _)
        | Query::Gaps(query) => names_alignment(query, name),
        Query::Overlay(left, right)
        | Query::Cover(left, right)
        | Query::Merge(left, right)
        | Query::Minus(left, right) => names_alignment(left, name) || names_alignment(right, name),
        Query::Transform(query, alignment) => names_alignment(query, name)
            || is_same(name, alignment),
    }
}

/// Whether one of the pieces carries a part of this route, or something onto it.
fn some_piece_on(pieces: &[Piece], route: &Name) -> bool
    ensures { result ≡ list_any (piece_on route.now.bytes) (pieces_of pieces.now) }
{
    for piece in pieces {
        if is_piece_on(piece, route) {
            return true;
        }
    }
    false
}

/// Whether the piece carries a part of this route, or something onto it.
fn is_piece_on(piece: &Piece, route: &Name) -> bool
    ensures { result ≡ piece_on route.now.bytes (piece_of (piece_tree piece.now)) }
{
    is_same(route, &piece.from_route) || is_same(route, &piece.onto_route)
}

/// Whether a window of a query is on this route.
fn names_route(query: &Query, route: &Name) -> bool
    ensures { result ≡ names_route route.now.bytes (query_tree query.now) }
{
    match query {
        Query::Named(_) => false,
        Query::Where(query, _)
        | Query::Dissolve(query, _)
        | Query::Rename(query, _, _)
        | Query::Transform(query, _)
        | Query::Gaps(query) => names_route(query, route),
        Query::Overlay(left, right)
        | Query::Cover(left, right)
        | Query::Merge(left, right)
        | Query::Minus(left, right) => names_route(left, route) || names_route(right, route),
        Query::Window(query, window) => names_route(query, route) || is_on(window, route),
    }
}

/// Whether a window of a query on this route lies by this referent.
fn names_referent(query: &Query, route: &Name, name: &Name) -> bool
    ensures { result ≡ names_referent route.now.bytes name.now.bytes (query_tree query.now) }
{
    match query {
        Query::Named(_) => false,
        Query::Where(query, _)
        | Query::Dissolve(query, _)
        | Query::Rename(query, _, _)
        | Query::Transform(query, _)
        | Query::Gaps(query) => names_referent(query, route, name),
        Query::Overlay(left, right)
        | Query::Cover(left, right)
        | Query::Merge(left, right)
        | Query::Minus(left, right) => names_referent(left, route, name)
            || names_referent(right, route, name),
        Query::Window(query, window) => names_referent(query, route, name)
            || lies_by(window, route, name),
    }
}

/// Whether the window is on this route.
fn is_on(window: &Window, route: &Name) -> bool
    ensures { result ≡ window_on route.now.bytes (window_tree window.now) }
{
    match window {
        Window::Whole { route: other } | Window::Part { route: other, .. } => {
            is_same(route, other)
        }
    }
}

/// Whether the window is a part of this route that begins or ends by this referent.
fn lies_by(window: &Window, route: &Name, name: &Name) -> bool
    ensures { result ≡ window_by route.now.bytes name.now.bytes (window_tree window.now) }
{
    match window {
        Window::Whole { .. } => false,
        Window::Part { from, to, .. } => {
            is_on(window, route) && (is_by(from, name) || is_by(to, name))
        }
    }
}

/// Whether the position is relative to this referent.
fn is_by(position: &Position, name: &Name) -> bool
    ensures { result ≡ position_by name.now.bytes (expression_of position.now) }
{
    match position {
        Position::Relative(referent, _, _) => is_same(name, referent),
        Position::Absolute(_) | Position::Interpolative(_) => false,
    }
}

/// Whether the names have the same bytes.
pub fn is_same(name: &Name, other: &Name) -> bool
    ensures { result ≡ same_name name.now.bytes other.now.bytes }
{
    other.as_str() == name.as_str()
}
