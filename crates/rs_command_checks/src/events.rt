//! The checks of a row that is to be put into a table, and of rows that are to be taken away.

ghost use Rattle.std.specs.Prelude.{◌≡◌, ◌⊎◌, ◌≤◌, ◌<◌, length, map, Some, Ok, Err, IfOk, IfErr, OnOk};
ghost use Rattle.std.specs.FinMap as names;
ghost use Rattle.rs_methods.specs.Position.{expression_of};
ghost use Rattle.rs_value.specs.Values.{AreValues};
ghost use Rattle.rs_value.specs.View.{literal_row};
ghost use Rattle.rs_facts.specs.Insert.{new_facts};
ghost use Rattle.rs_facts.specs.Query.{Table};
ghost use Rattle.rs_facts.specs.Remove.{removed_facts};
ghost use Rattle.rs_facts.specs.Spans.{seen};
ghost use Rattle.rs_syntax.specs.View.{column_tree, location_tree, removal_tree};
ghost use Rattle.rs_syntax.specs.QueryView.{window_tree};
ghost use Rattle.rs_machine.specs.Checks.{same_kind, location_kind, window_route, row_fits};
ghost use Rattle.rs_machine.specs.Checking.{removal_checked};
ghost use Rattle.rs_machine.specs.Step.{counted, row_inserted, rows_removed, with_facts_along, with_table, without_facts};
ghost use Rattle.rs_machine.specs.declared.limits.TheConstants.{CHANGES};
ghost use Rattle.rs_catalog.specs.Referents.{referents_on};
ghost use Rattle.rs_spans.specs.Removal.{goes_by};
ghost use Rattle.rs_command_checks.specs.Insertion.{IsEventOn, MayBePut};
ghost use Rattle.rs_command_checks.specs.Located.{span_by, event_span_by, window_span_by};
ghost use Rattle.rs_command_checks.specs.Removal.{AreThere, MayBeTaken};
ghost use Rattle.rs_command_checks.specs.States.{Unseen, state_by};

use crate::checks::Checks;
use crate::columns::schema_of;
use rs_catalog::RouteEntry;
use rs_checker::check_condition;
use rs_facts::{Condition, Span};
use rs_methods::{Name, Position};
use rs_refusal::Refusal;
use rs_syntax::{Atom, ColumnDefinition, EventLocation, Window};
use rs_value::{COLUMNS, KeptRow, Kind, Literal, check_fit};
use std::alloc::Global;

/// A row that an insertion puts into a table.
#[derive(Drop)]
pub struct Insertion {
    /// The table's number.
    pub table: u32,
    /// Whether the table holds points or lines.
    pub kind: Kind,
    /// The route's number.
    pub route: u32,
    /// The row along its span.
    pub span: Span,
}

/// Rows that a removal takes away of a table.
#[derive(Drop)]
pub struct Removal {
    /// The table's number.
    pub table: u32,
    /// The route's number.
    pub route: u32,
    /// The first thousandth of the window.
    pub lo: u32,
    /// The first thousandth after it.
    pub hi: u32,
    /// Which rows go; all where there is no condition.
    pub goes: Option<Condition>,
}

impl Checks<'_> {
    /// What an insertion may put into a table. Checks, in order: 20; 21; 25, 30; 31; 32; 33; 34; 27.
    pub fn checked_insertion(
        &self,
        name: &Name,
        route: &Name,
        place: &EventLocation,
        values: &[Literal],
    ) -> Result<Insertion, Refusal>
        requires values { AreValues (literal_row values.now) }
        ensures accepted { (unseen : Unseen) (there : Table) → names.get (state_by self.now unseen).tables name.now.bytes ≡ Some there
            → IfOk result (λ insertion. row_inserted (state_by self.now unseen) name.now.bytes route.now.bytes (location_tree place.now) (literal_row values.now)
            ≡ Ok (counted (new_facts there.facts route.now.bytes insertion.span.lo insertion.span.hi (seen insertion.span).row) (with_table (state_by self.now unseen) name.now.bytes (with_facts_along there route.now.bytes insertion.span.lo insertion.span.hi (seen insertion.span).row)))) }
        ensures refused { (unseen : Unseen) → IfErr result (λ refusal. (refusal ≡ Refusal.OutOfMemory) ⊎ (row_inserted (state_by self.now unseen) name.now.bytes route.now.bytes (location_tree place.now) (literal_row values.now) ≡ Err refusal)) }
        ensures event { IfOk result (λ insertion. IsEventOn self.now.catalog.now name.now.bytes route.now.bytes insertion) }
        ensures may_change { OnOk result (self.now.changes < CHANGES) }
    {
        let insertion = self.fitted_insertion(name, route, place, values)?;
        self.may_change()?;
        Ok(insertion)
    }

    /// What an insertion puts into a table, where all fit each other and there is memory for the row.
    fn fitted_insertion(
        &self,
        name: &Name,
        route: &Name,
        place: &EventLocation,
        values: &[Literal],
    ) -> Result<Insertion, Refusal>
        requires values { AreValues (literal_row values.now) }
        ensures done { IfOk result (λ insertion. MayBePut self.now name.now.bytes route.now.bytes (location_tree place.now) (literal_row values.now) insertion) }
        ensures refused { (unseen : Unseen) → IfErr result (λ refusal. (refusal ≡ Refusal.OutOfMemory) ⊎ (row_inserted (state_by self.now unseen) name.now.bytes route.now.bytes (location_tree place.now) (literal_row values.now) ≡ Err refusal)) }
    {
        let on = self.catalog.named_route(route)?;
        let table = self.catalog.named_table(name)?;
        let (lo, hi) = self.located_event(on, place)?;
        let kind = table.kind();
        if !is_of_kind(place, kind) {
            return Err(Refusal::PointOrLineWanted);
        }
        self.catalog.stand();
        fitted(table.columns(), values)?;
        let tuple = KeptRow::of_literals(self.alloc, values)?;
        Ok(Insertion {
            table: table.number(),
            kind,
            route: on.number(),
            span: Span { lo, hi, tuple },
        })
    }

    /// What a removal may take away of a table. Checks, in order: 20; 21; 25, 30; 31; the condition (22, 33); 27.
    pub fn checked_removal(
        &self,
        name: &Name,
        window: &Window,
        condition: &Option<Vec<Vec<Atom>>>,
    ) -> Result<Removal, Refusal>
        ensures accepted { (unseen : Unseen) (there : Table) → names.get (state_by self.now unseen).tables name.now.bytes ≡ Some there
            → IfOk result (λ removal. rows_removed (state_by self.now unseen) name.now.bytes (window_tree window.now) (removal_tree condition.now)
            ≡ Ok (counted (removed_facts there.facts (window_route (window_tree window.now)) removal.lo removal.hi (goes_by removal.goes)) (with_table (state_by self.now unseen) name.now.bytes (without_facts there (window_route (window_tree window.now)) removal.lo removal.hi (goes_by removal.goes))))) }
        ensures refused { (unseen : Unseen) → IfErr result (λ refusal. (refusal ≡ Refusal.OutOfMemory) ⊎ (rows_removed (state_by self.now unseen) name.now.bytes (window_tree window.now) (removal_tree condition.now) ≡ Err refusal)) }
        ensures there { IfOk result (λ removal. AreThere self.now.catalog.now name.now.bytes (window_route (window_tree window.now)) removal) }
        ensures may_change { OnOk result (self.now.changes < CHANGES) }
    {
        let removal = self.fitted_removal(name, window, condition)?;
        self.may_change()?;
        Ok(removal)
    }

    /// What a removal takes away, where its table and its window are there and its condition fits the columns.
    fn fitted_removal(
        &self,
        name: &Name,
        window: &Window,
        condition: &Option<Vec<Vec<Atom>>>,
    ) -> Result<Removal, Refusal>
        ensures done { IfOk result (λ removal. MayBeTaken self.now name.now.bytes (window_tree window.now) (removal_tree condition.now) removal) }
        ensures refused { (unseen : Unseen) → IfErr result (λ refusal. (refusal ≡ Refusal.OutOfMemory) ⊎ (rows_removed (state_by self.now unseen) name.now.bytes (window_tree window.now) (removal_tree condition.now) ≡ Err refusal)) }
    {
        let route = route_of(window);
        let on = self.catalog.named_route(route)?;
        let table = self.catalog.named_table(name)?;
        let (lo, hi) = self.located_window(on, window)?;
        self.catalog.stand();
        let goes = checked_rows(self.alloc, table.columns(), condition)?;
        Ok(Removal {
            table: table.number(),
            route: on.number(),
            lo,
            hi,
            goes,
        })
    }

    /// Where an event is put on a route, in thousandths (25, 30; 31).
    fn located_event(&self, on: RouteEntry, place: &EventLocation) -> Result<(u32, u32), Refusal>
        ensures { result ≡ event_span_by on.ends (referents_on self.now.referents.now on.number) (location_tree place.now) }
    {
        match place {
            EventLocation::Along { from, to } => self.located_span(on, from, to),
            EventLocation::At { position } => {
                let k = self.referents.located(on, position)?.thousandths();
                Ok((k, k + 1))
            }
        }
    }

    /// Where a window lies on its route, in thousandths (25, 30; 31). A whole route has its end, at which a point may stand.
    fn located_window(&self, on: RouteEntry, window: &Window) -> Result<(u32, u32), Refusal>
        ensures { result ≡ window_span_by on.ends (referents_on self.now.referents.now on.number) (window_tree window.now) }
    {
        match window {
            Window::Whole { .. } => {
                let from = on.ends().start().thousandths();
                let to = on.ends().finish().thousandths();
                Ok((from, to + 1))
            }
            Window::Part { from, to, .. } => self.located_span(on, from, to),
        }
    }

    /// Two positions of a route in thousandths: 25 or 30 for the first, 25 or 30 for the second, then 31 unless the
    /// first is below the second.
    fn located_span(
        &self,
        on: RouteEntry,
        from: &Position,
        to: &Position,
    ) -> Result<(u32, u32), Refusal>
        ensures { result ≡ span_by on.ends (referents_on self.now.referents.now on.number) (expression_of from.now) (expression_of to.now) }
    {
        let lo = self.referents.located(on, from)?.thousandths();
        let hi = self.referents.located(on, to)?.thousandths();
        if lo < hi {
            Ok((lo, hi))
        } else {
            Err(Refusal::EmptySpan)
        }
    }
}

/// The route of a window.
fn route_of(window: &Window) -> &Name
    ensures { result.now.bytes ≡ window_route (window_tree window.now) }
{
    match window {
        Window::Whole { route } => route,
        Window::Part { route, .. } => route,
    }
}

/// Whether an event so placed is of this kind.
fn is_of_kind(place: &EventLocation, kind: Kind) -> bool
    ensures { result ≡ same_kind kind (location_kind (location_tree place.now)) }
{
    match (kind, place) {
        (Kind::Line, EventLocation::Along { .. }) => true,
        (Kind::Point, EventLocation::At { .. }) => true,
        (Kind::Line, EventLocation::At { .. }) => false,
        (Kind::Point, EventLocation::Along { .. }) => false,
    }
}

/// Whether the literals fit the columns (33, then 34).
fn fitted(columns: &[ColumnDefinition], values: &[Literal]) -> Result<(), Refusal>
    requires { length columns.now ≤ COLUMNS }
    ensures ok { OnOk result (row_fits (map column_tree columns.now) (literal_row values.now) ≡ Ok tt) }
    ensures refused { IfErr result (λ refusal. row_fits (map column_tree columns.now) (literal_row values.now) ≡ Err refusal) }
{
    check_fit(schema_of(columns).as_slice(), values)
}

/// The condition that rows of these columns are to meet, where one is written.
fn checked_rows(
    alloc: Global,
    columns: &[ColumnDefinition],
    condition: &Option<Vec<Vec<Atom>>>,
) -> Result<Option<Condition>, Refusal>
    requires { length columns.now ≤ COLUMNS }
    ensures done { IfOk result (λ goes. removal_checked (map column_tree columns.now) (removal_tree condition.now) ≡ Ok (goes_by goes)) }
    ensures refused { IfErr result (λ refusal. (refusal ≡ Refusal.OutOfMemory) ⊎ (removal_checked (map column_tree columns.now) (removal_tree condition.now) ≡ Err refusal)) }
{
    match condition {
        None => Ok(None),
        Some(parts) => Ok(Some(check_condition(alloc, columns, parts.as_slice())?)),
    }
}
