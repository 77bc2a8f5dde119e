//! Leaves: the rows of a table inside all windows that meet all conditions, as a source gives them.

ghost use Rattle.std.specs.Prelude.{◌≡◌, true, map, IfOk, IfSome};
ghost use Rattle.rs_value.specs.Row.{Row};
ghost use Rattle.rs_value.specs.View.{literal_datum};
ghost use Rattle.rs_facts.specs.Condition.{meets};
ghost use Rattle.rs_facts.specs.ConditionView.{condition_of};
ghost use Rattle.rs_facts.specs.Spans.{seen};
ghost use Rattle.rs_planning.specs.Conjuncts.{meets_each};
ghost use Rattle.rs_exec.specs.Given.{has_datum, has_value};
ghost use Rattle.rs_exec.specs.Found.{AreFound};
ghost use Rattle.rs_exec.specs.Leaving.{EndsWith};
ghost use Rattle.rs_exec.specs.Meaning.{leaf_meaning};
ghost use Rattle.rs_exec.specs.Held.{HoldsRows, AreHeld, AreEvaluated, IsJoinedIn, AreJoinedIn, AreJoinedOn};

use crate::changes::select_each;
use crate::routes::{Routes, RowsOn};
use crate::source::{Asked, Part, SoughtValue, Source};
use crate::windows::{cut, part_inside};
use rs_facts::{Condition, Span, Term};
use rs_plan::{Access, Leaf};
use rs_refusal::Refusal;
use rs_sweep::sort_by_place;
use rs_value::{Comparison, Literal};
use std::alloc::Global;

/// The rows of a leaf on each of the routes. The source is asked once for each route of which the windows leave something.
pub(crate) fn leaf_on<S: Source>(
    alloc: Global,
    source: &mut S,
    routes: Routes<'_>,
    leaf: &Leaf,
) -> Result<RowsOn, Refusal>
    ensures held { IfOk result (AreEvaluated S.Source source.old routes.entry (leaf_meaning leaf.now)) }
    ensures joined { IfOk result (AreJoinedOn S.Source source.old leaf.now.table.kind) }
    ensures ends { EndsWith S.Source source.old source.new result }
{
    let first = leaf_rows(alloc, source, routes.version, routes.first, leaf)?;
    let others = leaf_each(alloc, source, routes.version, routes.others, leaf)?;
    Ok(RowsOn { first, others })
}

/// The rows of a leaf on the route of each number.
fn leaf_each<S: Source>(
    alloc: Global,
    source: &mut S,
    version: u64,
    numbers: &[u32],
    leaf: &Leaf,
) -> Result<Vec<Vec<Span>>, Refusal>
    ensures held { IfOk result (λ rows. AreHeld (S.is source.old) version (leaf_meaning leaf.now) numbers.now rows.items) }
    ensures joined { IfOk result (λ rows. AreJoinedIn (S.is source.old) leaf.now.table.kind rows.items) }
    ensures ends { EndsWith S.Source source.old source.new result }
{
    let mut rows = Vec::new(alloc);
    for number in numbers {
        let on_route = leaf_rows(alloc, source, version, *number, leaf)?;
        rows.push(on_route)?;
    }
    Ok(rows)
}

/// The rows of a leaf on one route, of which no two spans are one run. Where the windows leave nothing of it, the source is not asked.
fn leaf_rows<S: Source>(
    alloc: Global,
    source: &mut S,
    version: u64,
    route: u32,
    leaf: &Leaf,
) -> Result<Vec<Span>, Refusal>
    ensures held { IfOk result (HoldsRows (S.is source.old) version (leaf_meaning leaf.now) route) }
    ensures joined { IfOk result (IsJoinedIn (S.is source.old) leaf.now.table.kind) }
    ensures ends { EndsWith S.Source source.old source.new result }
{
    let Some(part) = part_inside(leaf.windows.as_slice(), route) else {
        return Ok(Vec::new(alloc));
    };
    let asked = Asked {
        table: leaf.table.number,
        kind: leaf.table.kind,
        width: leaf.table.width,
        route,
        version,
    };
    let mut spans = found_spans(alloc, source, leaf, &asked, part)?;
    sort_by_place(&mut spans);
    cut(&mut spans, part);
    select_each(&mut spans, leaf.conditions.as_slice());
    Ok(spans)
}

/// What the source gives for a leaf: among it are all rows inside the part that meet the leaf's conditions.
fn found_spans<S: Source>(
    alloc: Global,
    source: &mut S,
    leaf: &Leaf,
    asked: &Asked,
    part: Part,
) -> Result<Vec<Span>, Refusal>
    ensures found { IfOk result (λ spans. AreFound (S.is source.old) asked.now part
        (map condition_of leaf.now.conditions.items) (map seen spans.items)) }
    ensures ends { EndsWith S.Source source.old source.new result }
{
    match sought_value(source, leaf) {
        Some(sought) => source.spans_of_value(alloc, asked, part, sought),
        None => source.spans(alloc, asked, part),
    }
}

/// The value that the leaf's conditions want of its index's column, if there is one.
fn sought_value<'a, S: Source>(source: &S, leaf: &'a Leaf) -> Option<SoughtValue<'a>>
    ensures { IfSome result (λ sought. (row : Row) → meets_each (map condition_of leaf.now.conditions.items) row ≡ true
        → has_value sought row ≡ true) }
{
    let Access::Index(index) = leaf.access else {
        return None;
    };
    let column = source.indexed_column(index.number)?;
    let value = value_wanted(column, leaf.conditions.as_slice())?;
    Some(SoughtValue {
        index: index.number,
        column,
        value,
    })
}

/// The value that the first of the conditions `column = literal` wants of the column at this place.
fn value_wanted(column: u8, conditions: &[Condition]) -> Option<&Literal>
    ensures { IfSome result (λ value. (row : Row) → meets_each (map condition_of conditions.now) row ≡ true
        → has_datum column (literal_datum value.now) row ≡ true) }
{
    for condition in conditions {
        if let Some(value) = wanted_by(column, condition) {
            return Some(value);
        }
    }
    None
}

/// The value that a condition wants of the column at this place, if it is `column = literal`.
fn wanted_by(column: u8, condition: &Condition) -> Option<&Literal>
    ensures { IfSome result (λ value. (row : Row) → meets (condition_of condition.now) row ≡ true
        → has_datum column (literal_datum value.now) row ≡ true) }
{
    let Condition::Compare(place, Comparison::Equal, Term::Written(value)) = condition else {
        return None;
    };
    if *place != column {
        return None;
    }
    Some(value)
}
