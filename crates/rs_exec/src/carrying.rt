//! TRANSFORM: rows of its operand on some routes, carried onto others by the pieces of an alignment.
//!
//! It promises what the pieces carry there, joined into runs.

ghost use Rattle.std.specs.Prelude.{◌≡◌, ◌≤◌, ◌==◌, ℕ, true, map, IfOk, OnOk};
ghost use Rattle.std.specs.List.{AllZip, list_any};
ghost use Rattle.rs_value.specs.declared.column.Kind.{Kind};
ghost use Rattle.rs_facts.specs.Operators.{carried, merged};
ghost use Rattle.rs_facts.specs.Spans.{seen, places_of, ArePlaced};
ghost use Rattle.rs_sweep.specs.Lists.{AreWide};
ghost use Rattle.rs_exec.specs.Meaning.{carried_by, goes_forwards};
ghost use Rattle.rs_exec.specs.Routes.{numbers_of, list_of};
ghost use Rattle.rs_exec.specs.Carried.{rows_given, AreAllWide, AreGathered, AreSourcesOf, AreApart, CanCarry, IsCarried};

use crate::copies::copies_meeting;
use crate::routes::{Routes, RowsOn, is_among, is_in};
use rs_coalesce::runs;
use rs_facts::Span;
use rs_plan::PlannedPiece;
use rs_sweep::shift;
use rs_value::Kind;
use std::alloc::{AllocError, Global};

/// What pieces carry: the rows of an operand on the routes that the pieces are of.
#[derive(Clone, Copy)]
pub(crate) struct Sources<'a> {
    /// Whether the rows are points or lines.
    pub(crate) kind: Kind,
    /// The pieces.
    pub(crate) pieces: &'a [PlannedPiece],
    /// The routes from which the pieces carry.
    pub(crate) routes: Routes<'a>,
    /// The rows of the operand on each of them.
    pub(crate) rows: &'a RowsOn,
}

/// The routes from which a piece leads onto one of the routes, each once. The only refusal is for want of memory.
pub(crate) fn sources_of(
    alloc: Global,
    pieces: &[PlannedPiece],
    routes: Routes<'_>,
) -> Result<Vec<u32>, AllocError>
    ensures led { IfOk result (λ sources. AreSourcesOf (numbers_of routes.entry) sources.items pieces.now) }
    ensures once { IfOk result (λ sources. AreApart sources.items) }
{
    let mut sources = Vec::new(alloc);
    for piece in pieces {
        if is_among(piece.onto_route.number, routes) {
            add_source(&mut sources, piece.from_route.number)?;
        }
    }
    Ok(sources)
}

/// Adds a number, unless it is there.
fn add_source(sources: &mut Vec<u32>, number: u32) -> Result<(), AllocError>
    ensures there { OnOk result (list_any (λ other. number == other) sources.new.items ≡ true) }
    ensures stay { OnOk result ((other : ℕ) → list_any (λ source. other == source) sources.old.items ≡ true
        → list_any (λ source. other == source) sources.new.items ≡ true) }
    ensures once { OnOk result (AreApart sources.old.items → AreApart sources.new.items) }
{
    if is_in(number, sources.as_slice()) {
        return Ok(());
    }
    sources.push(number)?;
    Ok(())
}

/// What the pieces carry onto each of the routes, each run once. The only refusal is for want of memory.
pub(crate) fn carried_on(
    alloc: Global,
    sources: &Sources<'_>,
    routes: Routes<'_>,
) -> Result<RowsOn, AllocError>
    requires can { CanCarry sources.now }
    ensures { IfOk result (λ rows. AllZip (IsCarried sources.now) (numbers_of routes.entry) (list_of rows)) }
{
    let first = carried_to(alloc, sources, routes.first)?;
    let others = carried_each(alloc, sources, routes.others)?;
    Ok(RowsOn { first, others })
}

/// What the pieces carry onto the route of each number.
fn carried_each(
    alloc: Global,
    sources: &Sources<'_>,
    numbers: &[u32],
) -> Result<Vec<Vec<Span>>, AllocError>
    requires can { CanCarry sources.now }
    ensures { IfOk result (λ rows. AllZip (IsCarried sources.now) numbers.now rows.items) }
{
    let mut rows = Vec::new(alloc);
    for number in numbers {
        rows.push(carried_to(alloc, sources, *number)?)?;
    }
    Ok(rows)
}

/// What the pieces carry onto the route of this number.
fn carried_to(alloc: Global, sources: &Sources<'_>, number: u32) -> Result<Vec<Span>, AllocError>
    requires can { CanCarry sources.now }
    ensures { IfOk result (IsCarried sources.now number) }
{
    let mut gathered = Vec::new(alloc);
    let pieces = sources.pieces;
    for piece in pieces {
        carry_piece(alloc, sources, piece, number, &mut gathered)?;
    }
    Ok(runs(sources.kind, gathered))
}

/// Adds what a piece carries onto the route of this number.
fn carry_piece(
    alloc: Global,
    sources: &Sources<'_>,
    piece: &PlannedPiece,
    number: u32,
    gathered: &mut Vec<Span>,
) -> Result<(), AllocError>
    requires can { CanCarry sources.now }
    requires forwards { goes_forwards piece.now ≡ true }
    ensures { OnOk result (AreGathered sources.now (carried_by piece.now (rows_given sources.now) number)
        (map seen gathered.old.items) (map seen gathered.new.items)) }
{
    if piece.onto_route.number != number {
        return Ok(());
    }
    let spans = spans_from(sources, piece.from_route.number);
    carry(alloc, spans, piece, gathered)?;
    Ok(())
}

/// The operand's rows on the route of this number; none where it is not one of those that pieces carry from.
fn spans_from<'b>(sources: &'b Sources<'_>, number: u32) -> &'b [Span]
    requires can { CanCarry sources.now }
    ensures means { (k : ℕ) → places_of (map seen result.now) k ≡ rows_given sources.now number k }
    ensures placed { ArePlaced sources.now.kind (map seen result.now) }
    ensures width { (width : ℕ) → AreAllWide width (list_of sources.now.rows.now) → AreWide width (map seen result.now) }
{
    if number == sources.routes.first {
        return &sources.rows.first;
    }
    let others = sources.routes.others;
    for (place, other) in others.iter().enumerate() {
        if number == *other {
            return &sources.rows.others[place];
        }
    }
    &[]
}

/// Adds what a piece carries of the rows on the route that it is of. The only refusal is for want of memory.
fn carry(
    alloc: Global,
    rows: &[Span],
    piece: &PlannedPiece,
    gathered: &mut Vec<Span>,
) -> Result<(), AllocError>
    requires forwards { piece.now.from ≤ piece.now.to }
    ensures means { OnOk result ((k : ℕ) → places_of (map seen gathered.new.items) k
        ≡ merged (places_of (map seen gathered.old.items) k) (carried piece.now.from piece.now.to piece.now.onto (places_of (map seen rows.now)) k)) }
    ensures placed { OnOk result ((kind : Kind) → ArePlaced kind (map seen rows.now) → ArePlaced kind (map seen gathered.old.items)
        → ArePlaced kind (map seen gathered.new.items)) }
    ensures width { OnOk result ((width : ℕ) → AreWide width (map seen rows.now) → AreWide width (map seen gathered.old.items)
        → AreWide width (map seen gathered.new.items)) }
{
    let (from, to) = (piece.from.thousandths(), piece.to.thousandths());
    let onto = piece.onto.thousandths();
    let mut spans = copies_meeting(alloc, rows, from, to)?;
    shift(&mut spans, from, to, onto);
    gathered.append(&mut spans)?;
    Ok(())
}
