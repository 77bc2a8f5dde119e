//! The operators of queries over checked operands: what each asks of them, and the checked query that it makes.

ghost use Rattle.std.specs.Prelude.{◌≡◌, ◌⊎◌, ◌<◌, ◌≤◌, ◌++◌, true, false, map, length, IfOk, IfErr, OnOk, Ok, Err};
ghost use Rattle.rs_facts.specs.Query.{Query, overlaid_kind};
ghost use Rattle.rs_syntax.specs.View.{column_tree};
ghost use Rattle.rs_syntax.specs.QueryView.{condition_tree};
ghost use Rattle.rs_machine.specs.Checks.{some_name_twice};
ghost use Rattle.rs_machine.specs.Checking.{may_stand_together, column_place, column_places};
ghost use Rattle.rs_checker.specs.CheckedView.{query_of, named_in};
ghost use Rattle.rs_checker.specs.Inner.{AllBelow};
ghost use Rattle.rs_checker.specs.Steps as steps;
ghost use Rattle.rs_checker.specs.Steps.{IsStep, Stands, checked_of, seen_columns, may_rename, filter_step, dissolve_step, rename_step, overlay_step, cover_step, merge_step, minus_step, gaps_step};

use crate::checked::{Checked, CheckedQuery, Columns};
use crate::columns;
use crate::columns::{has_name, place_of, same_name, share_a_name};
use crate::conditions::disjunction;
use crate::operand::CheckedOperand;
use rs_refusal::Refusal;
use rs_syntax::{Atom, Name};
use rs_value::{COLUMNS, Kind};
use std::alloc::Global;

/// WHERE: the rows that meet a condition, refused as the condition is.
pub fn filter(
    alloc: Global,
    operand: CheckedOperand,
    condition: &[Vec<Atom>],
) -> Result<Checked, Refusal>
    ensures ok { IfOk result (λ made. IsStep (filter_step (seen_columns (checked_of operand)) (query_of operand.query.value) (condition_tree condition.now))
        (λ world. Stands world (checked_of operand)) made) }
    ensures names { IfOk result (λ made. named_in made.query ≡ named_in operand.query.value) }
    ensures refused { IfErr result (λ refusal. (refusal ≡ Refusal.OutOfMemory)
        ⊎ (filter_step (seen_columns (checked_of operand)) (query_of operand.query.value) (condition_tree condition.now) ≡ Err refusal)) }
{
    let test = disjunction(alloc, &operand.columns, condition)?;
    Ok(Checked {
        query: CheckedQuery::Where(operand.query, test),
        kind: operand.kind,
        columns: operand.columns,
    })
}

/// DISSOLVE: of each row the columns named. A name that is no column's is refused 22, from the left, and then one that
/// is there twice 41.
pub fn dissolve(alloc: Global, operand: CheckedOperand, names: &[Name]) -> Result<Checked, Refusal>
    ensures ok { IfOk result (λ made. IsStep (dissolve_step (seen_columns (checked_of operand)) (query_of operand.query.value) (map (λ name. name.bytes) names.now))
        (λ world. Stands world (checked_of operand)) made) }
    ensures names { IfOk result (λ made. named_in made.query ≡ named_in operand.query.value) }
    ensures refused { IfErr result (λ refusal. (refusal ≡ Refusal.OutOfMemory)
        ⊎ (dissolve_step (seen_columns (checked_of operand)) (query_of operand.query.value) (map (λ name. name.bytes) names.now) ≡ Err refusal)) }
{
    let places = places_apart(alloc, &operand.columns, names)?;
    let columns = columns::chosen(operand.columns.as_slice(), &places);
    Ok(Checked {
        query: CheckedQuery::Dissolve(operand.query, places),
        kind: operand.kind,
        columns,
    })
}

/// RENAME: the same rows, a column of another name. No such column is refused 22, and a name that another column has 41.
pub fn rename(operand: CheckedOperand, from: &Name, to: &Name) -> Result<Checked, Refusal>
    ensures ok { IfOk result (λ made. IsStep (rename_step (seen_columns (checked_of operand)) (query_of operand.query.value) from.now.bytes to.now.bytes)
        (λ world. Stands world (checked_of operand)) made) }
    ensures names { IfOk result (λ made. named_in made.query ≡ named_in operand.query.value) }
    ensures refused { IfErr result (λ refusal. rename_step (seen_columns (checked_of operand)) (query_of operand.query.value) from.now.bytes to.now.bytes ≡ Err refusal) }
{
    let place = renamed_place(&operand.columns, from, to)?;
    Ok(Checked {
        query: CheckedQuery::Rename(operand.query, place, *to),
        kind: operand.kind,
        columns: columns::renamed(operand.columns, place, *to),
    })
}

/// OVERLAY: each row of the first before each row of the second. Too many columns are refused 27, and a name that is in
/// both 41.
pub fn overlay(left: CheckedOperand, right: CheckedOperand) -> Result<Checked, Refusal>
    ensures ok { IfOk result (λ made. IsStep (overlay_step (seen_columns (checked_of left)) (seen_columns (checked_of right)) (query_of left.query.value) (query_of right.query.value))
        (λ world. Stands world (checked_of left) × Stands world (checked_of right)) made) }
    ensures names { IfOk result (λ made. named_in made.query ≡ named_in left.query.value ++ named_in right.query.value) }
    ensures refused { IfErr result (λ refusal. overlay_step (seen_columns (checked_of left)) (seen_columns (checked_of right)) (query_of left.query.value) (query_of right.query.value) ≡ Err refusal) }
{
    may_stand_together(&left.columns, &right.columns)?;
    Ok(Checked {
        query: CheckedQuery::Overlay(left.query, right.query),
        kind: overlaid_kind(left.kind, right.kind),
        columns: columns::joined(left.columns, right.columns.as_slice()),
    })
}

/// COVER: OVERLAY, and where one alone has rows, these. It is refused as OVERLAY is, and then 42 where one has points
/// and the other lines.
pub fn cover(left: CheckedOperand, right: CheckedOperand) -> Result<Checked, Refusal>
    ensures ok { IfOk result (λ made. IsStep (cover_step left.kind right.kind (seen_columns (checked_of left)) (seen_columns (checked_of right)) (query_of left.query.value) (query_of right.query.value))
        (λ world. Stands world (checked_of left) × Stands world (checked_of right)) made) }
    ensures names { IfOk result (λ made. named_in made.query ≡ named_in left.query.value ++ named_in right.query.value) }
    ensures refused { IfErr result (λ refusal. cover_step left.kind right.kind (seen_columns (checked_of left)) (seen_columns (checked_of right)) (query_of left.query.value) (query_of right.query.value) ≡ Err refusal) }
{
    may_cover(&left, &right)?;
    Ok(Checked {
        query: CheckedQuery::Cover(
            left.columns.len() as u8,
            right.columns.len() as u8,
            left.query,
            right.query,
        ),
        kind: left.kind,
        columns: columns::joined(left.columns, right.columns.as_slice()),
    })
}

/// MERGE: the rows of either. Columns that differ are refused 40, and points beside lines 42.
pub fn merge(left: CheckedOperand, right: CheckedOperand) -> Result<Checked, Refusal>
    ensures ok { IfOk result (λ made. IsStep (merge_step left.kind right.kind (seen_columns (checked_of left)) (seen_columns (checked_of right)) (query_of left.query.value) (query_of right.query.value))
        (λ world. Stands world (checked_of left) × Stands world (checked_of right)) made) }
    ensures names { IfOk result (λ made. named_in made.query ≡ named_in left.query.value ++ named_in right.query.value) }
    ensures refused { IfErr result (λ refusal. merge_step left.kind right.kind (seen_columns (checked_of left)) (seen_columns (checked_of right)) (query_of left.query.value) (query_of right.query.value) ≡ Err refusal) }
{
    alike(&left, &right)?;
    Ok(Checked {
        query: CheckedQuery::Merge(left.query, right.query),
        kind: left.kind,
        columns: left.columns,
    })
}

/// MINUS: the rows of the first that the second does not have. It is refused as MERGE is.
pub fn minus(left: CheckedOperand, right: CheckedOperand) -> Result<Checked, Refusal>
    ensures ok { IfOk result (λ made. IsStep (minus_step left.kind right.kind (seen_columns (checked_of left)) (seen_columns (checked_of right)) (query_of left.query.value) (query_of right.query.value))
        (λ world. Stands world (checked_of left) × Stands world (checked_of right)) made) }
    ensures names { IfOk result (λ made. named_in made.query ≡ named_in left.query.value ++ named_in right.query.value) }
    ensures refused { IfErr result (λ refusal. minus_step left.kind right.kind (seen_columns (checked_of left)) (seen_columns (checked_of right)) (query_of left.query.value) (query_of right.query.value) ≡ Err refusal) }
{
    alike(&left, &right)?;
    Ok(Checked {
        query: CheckedQuery::Minus(left.query, right.query),
        kind: left.kind,
        columns: left.columns,
    })
}

/// GAPS: the row without columns wherever, between the ends of a route, there is no row. Points are refused 32.
pub fn gaps(operand: CheckedOperand) -> Result<Checked, Refusal>
    ensures ok { IfOk result (λ made. IsStep (gaps_step operand.kind (query_of operand.query.value))
        (λ world. Stands world (checked_of operand)) made) }
    ensures names { IfOk result (λ made. named_in made.query ≡ named_in operand.query.value) }
    ensures refused { IfErr result (λ refusal. gaps_step operand.kind (query_of operand.query.value) ≡ Err refusal) }
{
    are_lines(operand.kind)?;
    Ok(Checked {
        query: CheckedQuery::Gaps(operand.query),
        kind: Kind::Line,
        columns: Columns::new(),
    })
}

// The places of columns named once each (22, and then 41).
fn places_apart(alloc: Global, columns: &Columns, names: &[Name]) -> Result<Vec<u8>, Refusal>
    ensures places { IfOk result (λ places. column_places (map column_tree columns.now.items) (map (λ name. name.bytes) names.now) ≡ Ok places.items) }
    ensures apart { OnOk result (some_name_twice (map (λ name. name.bytes) names.now) ≡ false) }
    ensures few { IfOk result (λ places. length places.items ≤ length columns.now.items) }
    ensures there { IfOk result (λ places. AllBelow (length columns.now.items) places.items) }
    ensures refused { IfErr result (λ refusal. (refusal ≡ Refusal.OutOfMemory)
        ⊎ ((query : Query) → dissolve_step (map column_tree columns.now.items) query (map (λ name. name.bytes) names.now) ≡ Err refusal)) }
{
    let places = columns::places_of(alloc, columns, names)?;
    if columns::some_name_twice(names) {
        return Err(Refusal::ColumnTwice);
    }
    Ok(places)
}

// The place of a column that may have the new name (22, and then 41).
fn renamed_place(columns: &Columns, from: &Name, to: &Name) -> Result<u8, Refusal>
    ensures place { IfOk result (λ place. column_place (map column_tree columns.now.items) from.now.bytes ≡ Ok place) }
    ensures there { IfOk result (λ place. place < length columns.now.items) }
    ensures may { OnOk result (may_rename (map column_tree columns.now.items) from.now.bytes to.now.bytes ≡ true) }
    ensures refused { IfErr result (λ refusal. (query : Query) → rename_step (map column_tree columns.now.items) query from.now.bytes to.now.bytes ≡ Err refusal) }
{
    let place = place_of(columns, from)?;
    if !same_name(from, to) && has_name(columns.as_slice(), to) {
        return Err(Refusal::ColumnTwice);
    }
    Ok(place)
}

// Lines over lines are lines, all else is points.
fn overlaid_kind(left: Kind, right: Kind) -> Kind
    ensures { result ≡ overlaid_kind left right }
{
    match (left, right) {
        (Kind::Line, Kind::Line) => Kind::Line,
        (Kind::Line, Kind::Point) => Kind::Point,
        (Kind::Point, Kind::Line) => Kind::Point,
        (Kind::Point, Kind::Point) => Kind::Point,
    }
}

// Not too many columns together, and no name in both.
fn may_stand_together(left: &Columns, right: &Columns) -> Result<(), Refusal>
    ensures { result ≡ may_stand_together (map column_tree left.now.items) (map column_tree right.now.items) }
{
    if left.len() + right.len() > COLUMNS {
        return Err(Refusal::Limit);
    }
    if share_a_name(left.as_slice(), right.as_slice()) {
        return Err(Refusal::ColumnTwice);
    }
    Ok(())
}

// Not too many columns together, no name in both, and both points or both lines.
fn may_cover(left: &CheckedOperand, right: &CheckedOperand) -> Result<(), Refusal>
    ensures { result ≡ steps.may_cover left.now.kind right.now.kind (seen_columns (checked_of left.now)) (seen_columns (checked_of right.now)) }
{
    may_stand_together(&left.columns, &right.columns)?;
    kinds_agree(left.kind, right.kind)
}

// Both have points, or both have lines.
fn kinds_agree(left: Kind, right: Kind) -> Result<(), Refusal>
    ensures { result ≡ steps.kinds_agree left right }
{
    match (left, right) {
        (Kind::Line, Kind::Line) => Ok(()),
        (Kind::Point, Kind::Point) => Ok(()),
        (Kind::Line, Kind::Point) => Err(Refusal::KindsDiffer),
        (Kind::Point, Kind::Line) => Err(Refusal::KindsDiffer),
    }
}

// The same columns, and both points or both lines.
fn alike(left: &CheckedOperand, right: &CheckedOperand) -> Result<(), Refusal>
    ensures { result ≡ steps.alike left.now.kind right.now.kind (seen_columns (checked_of left.now)) (seen_columns (checked_of right.now)) }
{
    if !columns::same_columns(left.columns.as_slice(), right.columns.as_slice()) {
        return Err(Refusal::ColumnsDiffer);
    }
    kinds_agree(left.kind, right.kind)
}

// Lines, and not points.
fn are_lines(kind: Kind) -> Result<(), Refusal>
    ensures { result ≡ steps.are_lines kind }
{
    match kind {
        Kind::Line => Ok(()),
        Kind::Point => Err(Refusal::PointOrLineWanted),
    }
}
