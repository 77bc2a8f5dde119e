//! Checks alignments: each is as a line defines it, its pieces on routes that are there.

ghost use Rattle.std.specs.Prelude.{◌↔◌, IsTrue, map};
ghost use Rattle.std.specs.List.{AllByRecursion};
ghost use Rattle.rs_catalog_pages.specs.Said.{said_alignment, said_piece, said_route};
ghost use Rattle.rs_catalog_meaning.specs.Meaning.{AreAlignments, AreRoutes, IsAlignment, IsPiece, ends_of};
ghost use Rattle.rs_catalog_meaning.specs.Places.{ArePlaces, LiesOn};

use crate::by_number::{Places, places_of, route_with};
use crate::names::are_in_order;
use rs_catalog_pages::{StoredAlignment, StoredPiece, StoredRoute};
use rs_lexer::is_name;
use rs_machine::limits::{ALIGNMENTS, PIECES};

/// Whether these alignments pass the checks and limits of their DEFINE lines beside the routes, in the order of their names.
pub fn are_alignments(routes: &[StoredRoute], alignments: &[StoredAlignment]) -> bool
    requires { AreRoutes (map said_route routes.now) }
    ensures { IsTrue result ↔ AreAlignments (map said_route routes.now) (map said_alignment alignments.now) }
{
    let Some(places) = places_of(routes) else {
        return false;
    };
    alignments.len() <= ALIGNMENTS
        && are_in_order(alignments)
        && is_each_alignment(routes, &places, alignments)
}

// Whether each of them passes.
fn is_each_alignment(
    routes: &[StoredRoute],
    places: &Places,
    alignments: &[StoredAlignment],
) -> bool
    requires routes { AreRoutes (map said_route routes.now) }
    requires places { ArePlaces (map (λ route. route.number) routes.now) places.now }
    ensures { IsTrue result ↔ AllByRecursion (IsAlignment (map said_route routes.now)) (map said_alignment alignments.now) }
{
    for alignment in alignments {
        if !is_alignment(routes, places, alignment) {
            return false;
        }
    }
    true
}

// Whether it has a name, and few enough pieces, which lie on routes that are there.
fn is_alignment(routes: &[StoredRoute], places: &Places, alignment: &StoredAlignment) -> bool
    requires routes { AreRoutes (map said_route routes.now) }
    requires places { ArePlaces (map (λ route. route.number) routes.now) places.now }
    ensures { IsTrue result ↔ IsAlignment (map said_route routes.now) (said_alignment alignment.now) }
{
    let pieces = alignment.pieces.list.as_slice();
    is_name(alignment.name.as_str())
        && !pieces.is_empty()
        && pieces.len() <= PIECES
        && is_each_piece(routes, places, pieces)
}

// Whether each lies on routes that are there.
fn is_each_piece(routes: &[StoredRoute], places: &Places, pieces: &[StoredPiece]) -> bool
    requires routes { AreRoutes (map said_route routes.now) }
    requires places { ArePlaces (map (λ route. route.number) routes.now) places.now }
    ensures { IsTrue result ↔ AllByRecursion (IsPiece (map said_route routes.now)) (map said_piece pieces.now) }
{
    for piece in pieces {
        if !is_piece(routes, places, piece) {
            return false;
        }
    }
    true
}

// Whether it lies on routes that are there.
fn is_piece(routes: &[StoredRoute], places: &Places, piece: &StoredPiece) -> bool
    requires routes { AreRoutes (map said_route routes.now) }
    requires places { ArePlaces (map (λ route. route.number) routes.now) places.now }
    ensures { IsTrue result ↔ IsPiece (map said_route routes.now) (said_piece piece.now) }
{
    let Some(first) = route_with(routes, places, piece.from_route) else {
        return false;
    };
    let Some(second) = route_with(routes, places, piece.onto_route) else {
        return false;
    };
    lies_on(piece, first, second)
}

// Whether it is a part of the first route, and goes onto the second.
fn lies_on(piece: &StoredPiece, first: &StoredRoute, second: &StoredRoute) -> bool
    ensures { IsTrue result ↔ LiesOn (said_piece piece.now) (ends_of (said_route first.now)) (ends_of (said_route second.now)) }
{
    first.start <= piece.from
        && piece.from < piece.to
        && piece.to <= first.finish
        && second.start <= piece.onto
        && piece.onto <= second.finish
        && piece.to - piece.from <= second.finish - piece.onto
}
