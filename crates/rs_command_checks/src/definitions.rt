//! The checks of a route and of a table that are to be defined.

ghost use Rattle.std.specs.Prelude.{◌≡◌, ◌<◌, ◌≤◌, length, map, None, Ok, Err, IfErr, OnOk};
ghost use Rattle.std.specs.List.{list_any};
ghost use Rattle.std.specs.FinMap as names;
ghost use Rattle.rs_value.specs.Encoding.{row_width};
ghost use Rattle.rs_facts.specs.Insert.{same_name};
ghost use Rattle.rs_syntax.specs.View.{column_tree};
ghost use Rattle.rs_machine.specs.Checks.{column_names, column_types, some_name_twice};
ghost use Rattle.rs_machine.specs.Step.{counted, route_defined, table_defined, with_route, with_table, empty_table};
ghost use Rattle.rs_machine.specs.declared.limits.TheConstants.{CHANGES};
ghost use Rattle.rs_command_checks.specs.States.{Unseen, state_by};

use crate::checks::Checks;
use crate::columns::schema_of;
use rs_machine::limits::{ROUTES, TABLES};
use rs_measure::Measure;
use rs_methods::Name;
use rs_refusal::Refusal;
use rs_syntax::ColumnDefinition;
use rs_value::{COLUMNS, Kind, ROW_BYTES, row_width};

impl Checks<'_> {
    /// Whether a route may be defined. Checks, in order: its name is taken (24), it is empty (31), limits (27).
    pub fn check_new_route(
        &self,
        name: &Name,
        start: Measure,
        finish: Measure,
    ) -> Result<(), Refusal>
        ensures accepted { (unseen : Unseen) → OnOk result (route_defined (state_by self.now unseen) name.now.bytes start finish ≡ Ok (counted 0 (with_route (state_by self.now unseen) name.now.bytes start finish))) }
        ensures refused { (unseen : Unseen) → IfErr result (λ refusal. route_defined (state_by self.now unseen) name.now.bytes start finish ≡ Err refusal) }
        ensures new { OnOk result (names.get self.now.catalog.now.routes name.now.bytes ≡ None) }
        ensures ordered { OnOk result (start < finish) }
        ensures room { OnOk result (names.len self.now.catalog.now.routes < ROUTES) }
        ensures may_change { OnOk result (self.now.changes < CHANGES) }
    {
        if self.catalog.route(name).is_some() {
            return Err(Refusal::NameTaken);
        }
        if start.thousandths() >= finish.thousandths() {
            return Err(Refusal::EmptySpan);
        }
        if self.catalog.routes_len() >= ROUTES {
            return Err(Refusal::Limit);
        }
        self.may_change()
    }

    /// Whether a table may be defined. Checks, in order: its name is taken (24), two columns have one name (41), limits (27):
    /// of columns, of the bytes of a row, and of tables.
    pub fn check_new_table(
        &self,
        kind: Kind,
        name: &Name,
        columns: &[ColumnDefinition],
    ) -> Result<(), Refusal>
        ensures accepted { (unseen : Unseen) → OnOk result (table_defined (state_by self.now unseen) kind name.now.bytes (map column_tree columns.now) ≡ Ok (counted 0 (with_table (state_by self.now unseen) name.now.bytes (empty_table kind (map column_tree columns.now))))) }
        ensures refused { (unseen : Unseen) → IfErr result (λ refusal. table_defined (state_by self.now unseen) kind name.now.bytes (map column_tree columns.now) ≡ Err refusal) }
        ensures new { OnOk result (names.get self.now.catalog.now.tables name.now.bytes ≡ None) }
        ensures few_columns { OnOk result (length columns.now ≤ COLUMNS) }
        ensures narrow_rows { OnOk result (row_width (column_types (map column_tree columns.now)) ≤ ROW_BYTES) }
        ensures room { OnOk result (names.len self.now.catalog.now.tables < TABLES) }
        ensures may_change { OnOk result (self.now.changes < CHANGES) }
    {
        if self.catalog.has_table_or_view(name) {
            return Err(Refusal::NameTaken);
        }
        if has_name_twice(columns) {
            return Err(Refusal::ColumnTwice);
        }
        if columns.len() > COLUMNS {
            return Err(Refusal::Limit);
        }
        if row_width(&schema_of(columns)) > ROW_BYTES {
            return Err(Refusal::Limit);
        }
        if self.catalog.tables_len() >= TABLES {
            return Err(Refusal::Limit);
        }
        self.may_change()
    }
}

/// Whether two columns have one name.
fn has_name_twice(columns: &[ColumnDefinition]) -> bool
    ensures { result ≡ some_name_twice (column_names (map column_tree columns.now)) }
{
    for (i, column) in columns.iter().enumerate() {
        if has_name(&columns[i + 1..], &column.name) {
            return true;
        }
    }
    false
}

/// Whether a column has this name.
fn has_name(columns: &[ColumnDefinition], name: &Name) -> bool
    ensures { result ≡ list_any (same_name name.now.bytes) (column_names (map column_tree columns.now)) }
{
    for column in columns {
        if *name == column.name {
            return true;
        }
    }
    false
}
