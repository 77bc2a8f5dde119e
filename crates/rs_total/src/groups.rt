//! The numbers of each group by its row, in the order of the rows.
//!
//! It promises that a span changes the numbers of its own group alone. Groups are looked up in one room, so that a span takes
//! memory only where its group is new.

ghost use Rattle.std.specs.Prelude.{◌≡◌, ◌^◌, ◌<◌, length, map, OnOk};
ghost use Rattle.rs_value.specs.Row.{Row};
ghost use Rattle.rs_facts.specs.Spans.{seen};
ghost use Rattle.rs_total.specs.Counting.{kept_in, kept_along};
ghost use Rattle.rs_total.specs.Tally.{kept_of};

use crate::numbers::Numbers;
use rs_facts::Span;
use rs_value::KeptRow;
use std::alloc::{AllocError, Global};
use std::collections::BTreeMap;

/// Adds the spans of one route, which begins at `start` on the line of all routes.
pub(crate) fn add_spans(
    alloc: Global,
    groups: &mut BTreeMap<KeptRow, Numbers>,
    by: &[u8],
    summed: Option<u8>,
    start: u64,
    spans: &[Span],
) -> Result<(), AllocError>
    ensures added { OnOk result ((group : Row) → kept_of groups.new.entries group
        ≡ kept_along by.now summed start group (kept_of groups.old.entries group) (map seen spans.now)) }
    ensures few { OnOk result (length spans.now < 2 ^ 64) }
{
    let mut group = KeptRow::nulls(alloc, 0)?;
    for span in spans {
        group = span.tuple.chosen_in(group, by)?;
        add_to(alloc, groups, &group, summed, start, span)?;
    }
    Ok(())
}

/// Adds a span to a group. It takes memory where the group is new.
fn add_to(
    alloc: Global,
    groups: &mut BTreeMap<KeptRow, Numbers>,
    group: &KeptRow,
    summed: Option<u8>,
    start: u64,
    span: &Span,
) -> Result<(), AllocError>
    ensures { OnOk result ((other : Row) → kept_of groups.new.entries other
        ≡ kept_in summed start group.now other (kept_of groups.old.entries other) (seen span.now)) }
{
    match groups.get_mut(group) {
        Some(numbers) => {
            *numbers = numbers.with_span(start, summed, span);
            Ok(())
        }
        None => {
            let key = group.copied(alloc)?;
            groups.insert(key, Numbers::none().with_span(start, summed, span))?;
            Ok(())
        }
    }
}
