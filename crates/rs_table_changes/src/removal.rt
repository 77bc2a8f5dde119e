//! Removal of rows between two thousandths of a route.
//!
//! It reads the events that lie between them and no others. Those whose rows go end, and what of them sticks out comes.

ghost use Rattle.std.specs.Option.{option_copied};
ghost use Rattle.rs_table_changes.specs.Calls.{KeepsAt, Leaves, MayEdit, RemovesRows};

use crate::changing::make;
use crate::laws::what_gave_way_is_still_seen;
use crate::leaving::take_out;
use crate::moment::Moment;
use rs_facts::Condition;
use rs_file::OpenedTable;
use rs_pages::Pages;
use rs_refusal::Refusal;
use std::alloc::Global;

/// A stretch of a route, in thousandths.
#[derive(Clone, Copy)]
pub struct RouteStretch {
    /// The route's number.
    pub route: u32,
    /// The first thousandth inside.
    pub lo: u32,
    /// The first thousandth after it.
    pub hi: u32,
}

/// Takes the rows that meet the condition, or all rows where there is none, away from the stretch, as versions from that of the change on
/// see it, and answers how many facts went. Where the stretch has no thousandth, nothing does. Events that end in it may be gone where no
/// version from `moment.oldest` on sees them.
///
/// It is refused with 90, with 91, with 92 where the file is full, and with 94 only where no such table with its indexes, dated up to
/// that version, lies there with pages of its own; the table, its indexes and the working pages are to be abandoned then.
pub fn remove<P: Pages>(
    alloc: Global,
    pages: &mut P,
    table: &mut OpenedTable,
    moment: Moment,
    stretch: RouteStretch,
    goes: Option<&Condition>,
) -> Result<u128, Refusal>
    requires may { MayEdit P.Pages table.old moment.version pages.old }
    ensures leaves { Leaves P.Pages table.old moment.version result pages.old pages.new }
    ensures removes { RemovesRows P.Pages table.old table.new moment stretch.route stretch.lo stretch.hi (option_copied goes.entry) result pages.old pages.new }
    ensures keeps { KeepsAt moment.version table.old table.new }
{
    what_gave_way_is_still_seen();
    let RouteStretch { route, lo, hi } = stretch;
    if hi <= lo {
        return Ok(0);
    }
    let found = table
        .records
        .visible(alloc, pages, moment.version, route, lo, hi)?;
    let left = take_out(alloc, table.records.schema(), &found, lo, hi, goes)?;
    make(alloc, pages, table, moment, route, &left.edit)?;
    Ok(left.count)
}
