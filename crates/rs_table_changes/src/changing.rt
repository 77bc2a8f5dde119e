//! The steps of a change: events end, and others come.

ghost use Rattle.std.specs.Prelude.{◌≡◌, ◌⊎◌, ◌∷◌, [], length, map, true};
ghost use Rattle.std.specs.List.{AllByRecursion};
ghost use Rattle.rs_attr.specs.Calls.{KeepsTable};
ghost use Rattle.rs_attr.specs.Tables.{AreOn};
ghost use Rattle.rs_table_changes.specs.Calls.{KeepsAt, Leaves, MayEdit};
ghost use Rattle.rs_table_changes.specs.Inner.{AddsEach, EndsEach, EndsOne, LeavesWith, Makes};
ghost use Rattle.rs_facts.specs.Spans.{seen};
ghost use Rattle.rs_records.specs.Listed.{listed, record_width};
ghost use Rattle.rs_value.specs.Values.{IsRowOf};
ghost use Rattle.rs_versioned.specs.Events.{event_width};

use crate::edit::Edit;
use crate::moment::Moment;
use rs_attr::{add, kill};
use rs_cell_versions::is_living;
use rs_facts::Span;
use rs_file::OpenedTable;
use rs_pages::Pages;
use rs_records::Cells;
use rs_refusal::Refusal;
use std::alloc::Global;

/// Ends the events of an edit, and puts its spans on the route from the version of the change on. It is refused with 90, with 91,
/// with 92 where the file is full, and with 94 only where no such table lies there, or not with these events.
pub(crate) fn make<P: Pages>(
    alloc: Global,
    pages: &mut P,
    table: &mut OpenedTable,
    moment: Moment,
    route: u32,
    edit: &Edit,
) -> Result<(), Refusal>
    requires may { MayEdit P.Pages table.old moment.version pages.old }
    requires width { record_width edit.now.gone ≡ event_width table.old.records.types }
    requires rows { AllByRecursion (λ span. IsRowOf table.old.records.types span.row) (map seen edit.now.come.items) }
    ensures leaves { LeavesWith P.Pages table.old moment.version (listed edit.now.gone) result pages.old pages.new }
    ensures made { Makes P.Pages table.old table.new moment route (listed edit.now.gone) (map seen edit.now.come.items) result pages.old pages.new }
    ensures keeps { KeepsAt moment.version table.old table.new }
{
    let at = moment.end();
    end_each(alloc, pages, table, moment.version, at, &edit.gone)?;
    add_each(alloc, pages, table, moment.version, route, &edit.come)?;
    Ok(())
}

/// Ends the events of the cells at the version, or at 0, which takes them out. It is refused as `make` is.
fn end_each<P: Pages>(
    alloc: Global,
    pages: &mut P,
    table: &mut OpenedTable,
    version: u64,
    at: u64,
    cells: &Cells,
) -> Result<(), Refusal>
    requires may { MayEdit P.Pages table.old version pages.old }
    requires ends { (at ≡ version) ⊎ (at ≡ 0) }
    requires width { record_width cells.now ≡ event_width table.old.records.types }
    ensures leaves { LeavesWith P.Pages table.old version (listed cells.now) result pages.old pages.new }
    ensures ended { EndsEach P.Pages table.old table.new version at (listed cells.now) result pages.old pages.new }
    ensures keeps { KeepsAt version table.old table.new }
{
    for place in 0..cells.len() {
        end_one(alloc, pages, table, version, at, cells.get(place))?;
    }
    Ok(())
}

/// Ends the event of a cell, as `end_each` does. It is refused as `make` is.
fn end_one<P: Pages>(
    alloc: Global,
    pages: &mut P,
    table: &mut OpenedTable,
    version: u64,
    at: u64,
    cell: &[u8],
) -> Result<(), Refusal>
    requires may { MayEdit P.Pages table.old version pages.old }
    requires ends { (at ≡ version) ⊎ (at ≡ 0) }
    requires width { length cell.now ≡ event_width table.old.records.types }
    ensures leaves { LeavesWith P.Pages table.old version (cell.now ∷ []) result pages.old pages.new }
    ensures ended { EndsOne P.Pages table.old table.new version at cell.now result pages.old pages.new }
    ensures keeps { KeepsAt version table.old table.new }
{
    if !is_living(cell) {
        return Err(Refusal::DamagedFile);
    }
    let found = kill(
        alloc,
        pages,
        &mut table.records,
        &mut table.indexes,
        at,
        cell,
    )?;
    if !found {
        return Err(Refusal::DamagedFile);
    }
    Ok(())
}

/// Puts the spans on the route, as versions from this one on see them. It is refused with 90, with 91, with 92 where the file is full,
/// and with 94 only where no such table lies there.
fn add_each<P: Pages>(
    alloc: Global,
    pages: &mut P,
    table: &mut OpenedTable,
    version: u64,
    route: u32,
    spans: &[Span],
) -> Result<(), Refusal>
    requires begun { (P.store pages.old).is_begun ≡ true }
    requires rows { AllByRecursion (λ span. IsRowOf table.old.records.types span.row) (map seen spans.now) }
    requires indexes { AreOn table.old.records.types table.old.indexes.items }
    ensures leaves { Leaves P.Pages table.old version result pages.old pages.new }
    ensures came { AddsEach P.Pages table.old table.new version route (map seen spans.now) result pages.old pages.new }
    ensures table { KeepsTable table.old.records table.new.records table.old.indexes.items table.new.indexes.items }
    ensures dead { table.new.records.working.dead ≡ table.old.records.working.dead }
{
    for span in spans {
        add(
            alloc,
            pages,
            &mut table.records,
            &mut table.indexes,
            version,
            route,
            span,
        )?;
    }
    Ok(())
}
