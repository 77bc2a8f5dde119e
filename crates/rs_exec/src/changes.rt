//! WHERE and DISSOLVE: operators that change each row of their operand, or leave it out.

ghost use Rattle.std.specs.Prelude.{◌≡◌, ℕ, true, IfOk, map};
ghost use Rattle.std.specs.List.{AllZip, AllByRecursion};
ghost use Rattle.rs_value.specs.declared.column.Kind.{Kind};
ghost use Rattle.rs_coalesce.specs.Joined.{AreJoined};
ghost use Rattle.rs_facts.specs.ConditionView.{condition_of};
ghost use Rattle.rs_facts.specs.Spans.{seen, places_of, ArePlaced};
ghost use Rattle.rs_planning.specs.Plan.{met_by_each};
ghost use Rattle.rs_sweep.specs.Lists.{AreSorted, AreWide};
ghost use Rattle.rs_exec.specs.Routes.{list_of, IsInOrder};
ghost use Rattle.rs_exec.specs.Changes.{IsNarrow, IsChanged, AreFrom};

use crate::routes::RowsOn;
use rs_facts::{Condition, Span};
use rs_sweep::{dissolve, select};
use std::alloc::{AllocError, Global};

/// An operator that changes each row of its operand, or leaves it out.
#[derive(Clone, Copy)]
pub(crate) enum Change<'a> {
    /// The rows that meet all conditions.
    Where(&'a [Condition]),
    /// Of each row the columns at these places, the leftmost 0.
    Dissolve(&'a [u8]),
}

/// Whether these are the places from 0 on, in their order, so that each column is where it belongs.
pub(crate) fn are_in_order(places: &[u8]) -> bool
    ensures { result ≡ true → AreFrom 0 places.now }
{
    let mut next: usize = 0;
    for place in places {
        if usize::from(*place) != next {
            return false;
        }
        next += 1;
    }
    true
}

/// The rows on each route, changed. The only refusal is for want of memory.
pub(crate) fn changed_on(
    alloc: Global,
    change: Change<'_>,
    rows: RowsOn,
) -> Result<RowsOn, AllocError>
    requires narrow { IsNarrow change }
    requires ordered { AllByRecursion IsInOrder (list_of rows) }
    ensures { IfOk result (λ made. AllZip (IsChanged change.entry) (list_of rows) (list_of made)) }
{
    let first = changed(alloc, change, rows.first)?;
    let others = changed_each(alloc, change, rows.others)?;
    Ok(RowsOn { first, others })
}

/// Each list of rows, changed.
fn changed_each(
    alloc: Global,
    change: Change<'_>,
    lists: Vec<Vec<Span>>,
) -> Result<Vec<Vec<Span>>, AllocError>
    requires narrow { IsNarrow change }
    requires ordered { AllByRecursion IsInOrder lists.items }
    ensures { IfOk result (λ made. AllZip (IsChanged change.entry) lists.items made.items) }
{
    let mut made = Vec::new(alloc);
    for rows in lists {
        made.push(changed(alloc, change, rows)?)?;
    }
    Ok(made)
}

/// The rows on one route, changed in place.
fn changed(alloc: Global, change: Change<'_>, mut rows: Vec<Span>) -> Result<Vec<Span>, AllocError>
    requires narrow { IsNarrow change }
    requires ordered { IsInOrder rows }
    ensures { IfOk result (λ made. IsChanged change.entry rows made) }
{
    match change {
        Change::Where(conditions) => select_each(&mut rows, conditions),
        Change::Dissolve(columns) => dissolve(alloc, &mut rows, columns)?,
    }
    Ok(rows)
}

/// Keeps the rows that meet each condition. It takes no memory.
pub(crate) fn select_each(spans: &mut Vec<Span>, conditions: &[Condition])
    requires sorted { AreSorted (map seen spans.old.items) }
    ensures means { (k : ℕ) → places_of (map seen spans.new.items) k
        ≡ met_by_each (map condition_of conditions.now) (places_of (map seen spans.old.items) k) }
    ensures sorted { AreSorted (map seen spans.new.items) }
    ensures placed { (kind : Kind) → ArePlaced kind (map seen spans.old.items)
        → ArePlaced kind (map seen spans.new.items) }
    ensures width { (width : ℕ) → AreWide width (map seen spans.old.items)
        → AreWide width (map seen spans.new.items) }
    ensures joined { (kind : Kind) → AreJoined kind (map seen spans.old.items)
        → AreJoined kind (map seen spans.new.items) }
{
    for condition in conditions {
        select(spans, condition);
    }
}
