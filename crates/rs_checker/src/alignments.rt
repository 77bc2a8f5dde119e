//! Alignments: the pieces for which a name stands in TRANSFORM, and the checks of the pieces of one that is defined.

ghost use Rattle.std.specs.Prelude.{◌≡◌, ◌⊎◌, true, map, flat_map, IfOk, IfErr, OnOk, Ok, Err};
ghost use Rattle.rs_facts.specs.WellFormed.{IsPieceOn, ArePiecesOn};
ghost use Rattle.rs_syntax.specs.View.{piece_tree};
ghost use Rattle.rs_planning.specs.Numbered.{numbered_route};
ghost use Rattle.rs_machine.specs.State.{has};
ghost use Rattle.rs_machine.specs.Checks.{is_on_route, piece_lies, piece_checked, pieces_checked, piece_of};
ghost use Rattle.rs_catalog.specs.Definitions.{routes_of, pieces_of};
ghost use Rattle.rs_checker.specs.CheckedView.{query_of, named_in, located_pieces, named_by_piece};
ghost use Rattle.rs_checker.specs.Numbers.{IsNumberedIn, AreNumberedIn};
ghost use Rattle.rs_checker.specs.Steps.{IsStep, checked_of};
ghost use Rattle.rs_checker.specs.Nodes.{transform_step, StandsAmong};

use crate::checked::{Checked, CheckedQuery, LocatedPiece};
use crate::operand::CheckedOperand;
use rs_catalog::{Catalog, RouteEntry};
use rs_refusal::Refusal;
use rs_syntax::{Name, Piece};
use std::alloc::{AllocError, Global};

/// TRANSFORM: the rows carried by the pieces of the alignment of this name. A name that is no alignment's is refused 21;
/// only memory may be wanting beside.
pub fn transform(
    alloc: Global,
    catalog: &Catalog,
    operand: CheckedOperand,
    name: &Name,
) -> Result<Checked, Refusal>
    ensures ok { IfOk result (λ made. IsStep (transform_step catalog.now (query_of operand.query.value) name.now.bytes)
        (λ world. StandsAmong catalog.now world (checked_of operand)) made) }
    ensures numbers { IfOk result (λ made. AreNumberedIn catalog.now (named_in operand.query.value) → AreNumberedIn catalog.now (named_in made.query)) }
    ensures refused { IfErr result (λ refusal. (refusal ≡ Refusal.OutOfMemory)
        ⊎ (transform_step catalog.now (query_of operand.query.value) name.now.bytes ≡ Err refusal)) }
{
    let alignment = catalog.named_alignment(name)?;
    catalog.stand();
    let pieces = located(alloc, catalog, alignment.pieces())?;
    Ok(Checked {
        query: CheckedQuery::Transform(operand.query, *name, pieces),
        kind: operand.kind,
        columns: operand.columns,
    })
}

/// The checks of an alignment's pieces, from the left: 20 where the route that a piece is of is missing, or the one onto
/// which it is carried; 30 where its part leaves the first or, carried, the second, of a part that ends before it begins
/// the place alone at which it is put; 31 where it does not begin before it ends.
pub fn check_pieces(catalog: &Catalog, pieces: &[Piece]) -> Result<(), Refusal>
    ensures ok { OnOk result (pieces_checked (routes_of catalog.now) (map piece_tree pieces.now) ≡ Ok (pieces_of pieces.now)) }
    ensures lie { OnOk result (ArePiecesOn (routes_of catalog.now) (pieces_of pieces.now)) }
    ensures refused { IfErr result (λ refusal. pieces_checked (routes_of catalog.now) (map piece_tree pieces.now) ≡ Err refusal) }
{
    for piece in pieces {
        check_piece(catalog, piece)?;
    }
    Ok(())
}

// The checks of one piece.
fn check_piece(catalog: &Catalog, piece: &Piece) -> Result<(), Refusal>
    ensures ok { OnOk result (piece_checked (routes_of catalog.now) (piece_tree piece.now) ≡ Ok (piece_of (piece_tree piece.now))) }
    ensures lies { OnOk result (IsPieceOn (routes_of catalog.now) (piece_of (piece_tree piece.now))) }
    ensures refused { IfErr result (λ refusal. piece_checked (routes_of catalog.now) (piece_tree piece.now) ≡ Err refusal) }
{
    let first = catalog.named_route(&piece.from_route)?;
    let second = catalog.named_route(&piece.onto_route)?;
    if !lies(first, second, piece) {
        return Err(Refusal::OutsideTheRoute);
    }
    let (from, to) = (piece.from.thousandths(), piece.to.thousandths());
    if from >= to {
        return Err(Refusal::EmptySpan);
    }
    Ok(())
}

// Whether the piece's part lies on the first route and, carried, on the second.
fn lies(first: RouteEntry, second: RouteEntry, piece: &Piece) -> bool
    ensures { result ≡ piece_lies first.ends second.ends (piece_tree piece.now) }
{
    let (from, to) = (piece.from.thousandths(), piece.to.thousandths());
    let onto = piece.onto.thousandths();
    let after = onto + to.saturating_sub(from);
    is_on(first, from) && is_on(first, to) && is_on(second, onto) && is_on(second, after)
}

// Whether a thousandth lies on the route, from its start to its finish.
fn is_on(route: RouteEntry, thousandth: u32) -> bool
    ensures { result ≡ is_on_route route.ends thousandth }
{
    let ends = route.ends();
    ends.start().thousandths() <= thousandth && thousandth <= ends.finish().thousandths()
}

// The pieces with the numbers of their routes, which are there.
fn located(
    alloc: Global,
    catalog: &Catalog,
    pieces: &[Piece],
) -> Result<Vec<LocatedPiece>, AllocError>
    requires { ArePiecesOn (routes_of catalog.now) (pieces_of pieces.now) }
    ensures same { IfOk result (λ located. located_pieces located.items ≡ pieces_of pieces.now) }
    ensures numbered { IfOk result (λ located. AreNumberedIn catalog.now (flat_map named_by_piece located.items)) }
{
    let mut located = Vec::with_capacity(alloc, pieces.len())?;
    for piece in pieces {
        located.push(located_piece(catalog, piece))?;
    }
    Ok(located)
}

// A piece with the numbers of its routes, which are there.
fn located_piece(catalog: &Catalog, piece: &Piece) -> LocatedPiece
    requires { IsPieceOn (routes_of catalog.now) (piece_of (piece_tree piece.now)) }
    ensures same { result.piece ≡ piece.now }
    ensures numbered { AreNumberedIn catalog.now (named_by_piece result) }
{
    LocatedPiece {
        piece: *piece,
        from_number: number_of(catalog, &piece.from_route),
        onto_number: number_of(catalog, &piece.onto_route),
    }
}

// The number of a route that is there.
fn number_of(catalog: &Catalog, name: &Name) -> u32
    requires { has (routes_of catalog.now) name.now.bytes ≡ true }
    ensures { IsNumberedIn catalog.now (numbered_route name.now.bytes result) }
{
    match catalog.route(name) {
        Some(route) => route.number(),
        None => unreachable!(),
    }
}
