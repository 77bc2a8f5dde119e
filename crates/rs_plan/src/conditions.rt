//! Conditions on their way to the leaves: their conjuncts, copies whose columns are at other places, and whose columns
//! they read.

ghost use Rattle.std.specs.Prelude.{◌≡◌, [], ◌∷◌, ◌++◌, map, flat_map, filter, get_or, IfOk};
ghost use Rattle.std.specs.List.{list_all, list_any};
ghost use Rattle.rs_value.specs.View.{literal_datum};
ghost use Rattle.rs_facts.specs.Condition as conditions;
ghost use Rattle.rs_facts.specs.ConditionView.{condition_of, term_of};
ghost use Rattle.rs_planning.specs.Conjuncts as said;
ghost use Rattle.rs_planning.specs.Conjuncts.{columns_read, column_of_term, condition_at, term_at};
ghost use Rattle.rs_plan.specs.Conditions.{place_of, is_within, is_share, places_of_share, one_of_share, only_equates, is_equal, is_literal};
ghost use Rattle.rs_plan.specs.PlanView.{conditions_of};

use rs_facts::{Condition, Term};
use rs_value::{Comparison, Literal};
use std::alloc::{AllocError, Global};

/// Where the columns of a condition are in what it comes to.
#[derive(Clone, Copy)]
pub(crate) enum Places<'a> {
    /// Where they were.
    Same,
    /// Each at the place that stands at its place.
    Named(&'a [u8]),
    /// Each so much further left.
    Less(u8),
}

/// The places of some columns.
#[derive(Clone, Copy)]
pub(crate) enum Columns {
    /// Those below a place.
    Below(u8),
    /// Those from a place on.
    From(u8),
}

/// Which conditions over two operands side by side are meant.
#[derive(Clone, Copy)]
pub(crate) enum Share {
    /// Those that read columns of the left alone.
    Left,
    /// Those that read columns of the right alone.
    Right,
    /// Those that read columns of both.
    Both,
}

/// The condition with its columns at other places.
#[cycle(copies)]
pub(crate) fn copied(
    alloc: Global,
    condition: &Condition,
    places: Places<'_>,
) -> Result<Condition, AllocError>
    ensures { IfOk result (λ copy. condition_of copy ≡ condition_at (place_of places.entry) (condition_of condition.now)) }
{
    match condition {
        Condition::Compare(place, comparison, term) => Ok(Condition::Compare(
            moved(*place, places),
            *comparison,
            moved_term(alloc, term, places)?,
        )),
        Condition::TestsNull(place) => Ok(Condition::TestsNull(moved(*place, places))),
        Condition::Negated(inside) => negated(alloc, copied(alloc, inside, places)?),
        Condition::Bracketed(inside) => bracketed(alloc, copied(alloc, inside, places)?),
        Condition::Both(parts) => Ok(Condition::Both(copies(alloc, parts.as_slice(), places)?)),
        Condition::Either(parts) => Ok(Condition::Either(copies(alloc, parts.as_slice(), places)?)),
    }
}

/// Each condition with its columns at other places.
#[cycle(copies)]
pub(crate) fn copies(
    alloc: Global,
    conditions: &[Condition],
    places: Places<'_>,
) -> Result<Vec<Condition>, AllocError>
    ensures { IfOk result (λ copies. conditions_of copies ≡ map (condition_at (place_of places.entry)) (map condition_of conditions.now)) }
{
    let mut copies = Vec::new(alloc);
    for condition in conditions {
        copies.push(copied(alloc, condition, places)?)?;
    }
    Ok(copies)
}

/// The conditions, and after them the conjuncts of one more.
#[cycle(conjuncts)]
pub(crate) fn and_conjuncts(
    alloc: Global,
    condition: &Condition,
    conditions: Vec<Condition>,
) -> Result<Vec<Condition>, AllocError>
    ensures { IfOk result (λ all. conditions_of all ≡ conditions_of conditions ++ said.conjuncts (condition_of condition.now)) }
{
    match condition {
        Condition::Both(parts) => {
            if parts.is_empty() {
                return and_whole(alloc, condition, conditions);
            }
            and_each(alloc, parts.as_slice(), conditions)
        }
        Condition::Either(parts) => {
            if parts.len() == 1 {
                return and_each(alloc, parts.as_slice(), conditions);
            }
            and_whole(alloc, condition, conditions)
        }
        Condition::Compare(_, _, _) => and_whole(alloc, condition, conditions),
        Condition::TestsNull(_) => and_whole(alloc, condition, conditions),
        Condition::Negated(_) => and_whole(alloc, condition, conditions),
        Condition::Bracketed(_) => and_whole(alloc, condition, conditions),
    }
}

// The conditions, and after them the conjuncts of each of these.
#[cycle(conjuncts)]
fn and_each(
    alloc: Global,
    parts: &[Condition],
    conditions: Vec<Condition>,
) -> Result<Vec<Condition>, AllocError>
    ensures { IfOk result (λ all. conditions_of all ≡ conditions_of conditions ++ flat_map (λ part. said.conjuncts (condition_of part)) parts.now) }
{
    let mut all = conditions;
    for part in parts {
        all = and_conjuncts(alloc, part, all)?;
    }
    Ok(all)
}

// The conditions, and after them one more as it is.
fn and_whole(
    alloc: Global,
    condition: &Condition,
    conditions: Vec<Condition>,
) -> Result<Vec<Condition>, AllocError>
    ensures { IfOk result (λ all. conditions_of all ≡ conditions_of conditions ++ condition_of condition.now ∷ []) }
{
    let mut all = conditions;
    all.push(copied(alloc, condition, Places::Same)?)?;
    Ok(all)
}

/// Of conditions over two operands side by side, the left of this width, those of a share, as they are over what it
/// goes to: those of the right read its own columns.
pub(crate) fn share_of(
    alloc: Global,
    conditions: &[Condition],
    share: Share,
    width: u8,
) -> Result<Vec<Condition>, AllocError>
    ensures { IfOk result (λ chosen. conditions_of chosen
        ≡ map (condition_at (places_of_share share width)) (filter (is_share share width) (map condition_of conditions.now))) }
{
    let mut chosen = Vec::new(alloc);
    for condition in conditions {
        chosen = with_share(alloc, chosen, condition, share, width)?;
    }
    Ok(chosen)
}

// Those chosen, and after them the condition where it is of the share.
fn with_share(
    alloc: Global,
    chosen: Vec<Condition>,
    condition: &Condition,
    share: Share,
    width: u8,
) -> Result<Vec<Condition>, AllocError>
    ensures { IfOk result (λ all. conditions_of all ≡ conditions_of chosen ++ one_of_share share width (condition_of condition.now)) }
{
    let mut chosen = chosen;
    if !is_in(condition, share, width) {
        return Ok(chosen);
    }
    chosen.push(moved_to(alloc, condition, share, width)?)?;
    Ok(chosen)
}

// Whether the condition is of the share.
fn is_in(condition: &Condition, share: Share, width: u8) -> bool
    ensures { result ≡ is_share share width (condition_of condition.now) }
{
    let left = reads_only(condition, Columns::Below(width));
    let right = !left && reads_only(condition, Columns::From(width));
    match share {
        Share::Left => left,
        Share::Right => right,
        Share::Both => !left && !right,
    }
}

// The condition of a share over what it goes to.
fn moved_to(
    alloc: Global,
    condition: &Condition,
    share: Share,
    width: u8,
) -> Result<Condition, AllocError>
    ensures { IfOk result (λ copy. condition_of copy ≡ condition_at (places_of_share share width) (condition_of condition.now)) }
{
    match share {
        Share::Left => copied(alloc, condition, Places::Same),
        Share::Right => copied(alloc, condition, Places::Less(width)),
        Share::Both => copied(alloc, condition, Places::Same),
    }
}

/// Whether one of the conditions compares the column at this place with a number or a text, by `=`.
pub(crate) fn some_equates(conditions: &[Condition], place: u8) -> bool
    ensures { result ≡ list_any (said.equates place) (map condition_of conditions.now) }
{
    for condition in conditions {
        if equates(condition, place) {
            return true;
        }
    }
    false
}

// Whether the condition is `column = literal`, of the column at this place.
#[cycle(equates)]
fn equates(condition: &Condition, place: u8) -> bool
    ensures { result ≡ said.equates place (condition_of condition.now) }
{
    match condition {
        Condition::Compare(column, comparison, term) => {
            *column == place && is_equal(*comparison) && is_literal(term)
        }
        Condition::Both(parts) => only_equates(parts.as_slice(), place),
        Condition::Either(parts) => only_equates(parts.as_slice(), place),
        Condition::TestsNull(_) => false,
        Condition::Negated(_) => false,
        Condition::Bracketed(_) => false,
    }
}

// Whether there is one part alone, and it is `column = literal`.
#[cycle(equates)]
fn only_equates(parts: &[Condition], place: u8) -> bool
    ensures { result ≡ only_equates place (map condition_of parts.now) }
{
    if parts.len() == 1 {
        return equates(&parts[0], place);
    }
    false
}

// Whether it is `=`.
fn is_equal(comparison: Comparison) -> bool
    ensures { result ≡ is_equal comparison }
{
    match comparison {
        Comparison::Equal => true,
        Comparison::Unequal => false,
        Comparison::Less => false,
        Comparison::LessOrEqual => false,
        Comparison::Greater => false,
        Comparison::GreaterOrEqual => false,
    }
}

// Whether it is a number or a text.
fn is_literal(term: &Term) -> bool
    ensures { result ≡ is_literal (term_of term.now) }
{
    match term {
        Term::Column(_) => false,
        Term::Written(Literal::Null) => false,
        Term::Written(Literal::Int(_)) => true,
        Term::Written(Literal::Text(_)) => true,
    }
}

// Whether the condition reads none but these columns.
#[cycle(reads)]
fn reads_only(condition: &Condition, columns: Columns) -> bool
    ensures { result ≡ list_all (is_within columns) (columns_read (condition_of condition.now)) }
{
    match condition {
        Condition::Compare(place, _, term) => is_within(*place, columns) && has_term(columns, term),
        Condition::TestsNull(place) => is_within(*place, columns),
        Condition::Negated(inside) => reads_only(inside, columns),
        Condition::Bracketed(inside) => reads_only(inside, columns),
        Condition::Both(parts) => each_reads_only(parts.as_slice(), columns),
        Condition::Either(parts) => each_reads_only(parts.as_slice(), columns),
    }
}

// Whether each of the conditions reads none but these columns.
#[cycle(reads)]
fn each_reads_only(parts: &[Condition], columns: Columns) -> bool
    ensures { result ≡ list_all (λ part. list_all (is_within columns) (columns_read (condition_of part))) parts.now }
{
    for part in parts {
        if !reads_only(part, columns) {
            return false;
        }
    }
    true
}

// Whether a term is of these columns, or a value written out.
fn has_term(columns: Columns, term: &Term) -> bool
    ensures { result ≡ list_all (is_within columns) (column_of_term (term_of term.now)) }
{
    match term {
        Term::Column(place) => is_within(*place, columns),
        Term::Written(_) => true,
    }
}

// Whether the place is one of these columns.
fn is_within(place: u8, columns: Columns) -> bool
    ensures { result ≡ is_within columns place }
{
    match columns {
        Columns::Below(end) => place < end,
        Columns::From(start) => start <= place,
    }
}

// Where a column is.
fn moved(place: u8, places: Places<'_>) -> u8
    ensures { result ≡ place_of places.entry place }
{
    match places {
        Places::Same => place,
        Places::Named(columns) => named(columns, place),
        Places::Less(width) => place.saturating_sub(width),
    }
}

// The place that stands at a place; 0 past the end.
fn named(columns: &[u8], place: u8) -> u8
    ensures { result ≡ get_or columns.now place 0 }
{
    match columns.get(usize::from(place)) {
        Some(column) => *column,
        None => 0,
    }
}

// A term with its column at another place.
fn moved_term(alloc: Global, term: &Term, places: Places<'_>) -> Result<Term, AllocError>
    ensures { IfOk result (λ copy. term_of copy ≡ term_at (place_of places.entry) (term_of term.now)) }
{
    match term {
        Term::Column(place) => Ok(Term::Column(moved(*place, places))),
        Term::Written(literal) => Ok(Term::Written(same_literal(alloc, literal)?)),
    }
}

// The same value once more.
fn same_literal(alloc: Global, literal: &Literal) -> Result<Literal, AllocError>
    ensures { IfOk result (λ copy. literal_datum copy ≡ literal_datum literal.now) }
{
    match literal {
        Literal::Null => Ok(Literal::Null),
        Literal::Int(number) => Ok(Literal::Int(*number)),
        Literal::Text(text) => Ok(Literal::Text(String::from_str(alloc, text.as_str())?)),
    }
}

// `NOT`.
fn negated(alloc: Global, condition: Condition) -> Result<Condition, AllocError>
    ensures { IfOk result (λ made. condition_of made ≡ conditions.negated (condition_of condition)) }
{
    Ok(Condition::Negated(Box::new(alloc, condition)?))
}

// The same condition in brackets.
fn bracketed(alloc: Global, condition: Condition) -> Result<Condition, AllocError>
    ensures { IfOk result (λ made. condition_of made ≡ conditions.bracketed (condition_of condition)) }
{
    Ok(Condition::Bracketed(Box::new(alloc, condition)?))
}
