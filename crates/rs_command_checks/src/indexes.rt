//! The checks of an index that is to be defined or dropped.

ghost use Rattle.std.specs.Prelude.{◌≡◌, ◌<◌, Ok, Err, IfErr, IfOk, OnOk, true, false};
ghost use Rattle.std.specs.FinMap as names;
ghost use Rattle.rs_machine.specs.State.{has};
ghost use Rattle.rs_machine.specs.Step.{counted, index_defined, index_dropped, with_index, without_index};
ghost use Rattle.rs_machine.specs.declared.limits.TheConstants.{INDEXES, CHANGES};
ghost use Rattle.rs_catalog.specs.Definitions.{IsColumnOf};
ghost use Rattle.rs_command_checks.specs.States.{Unseen, state_by};

use crate::checks::Checks;
use rs_checker::column_of;
use rs_machine::limits::INDEXES;
use rs_methods::Name;
use rs_refusal::Refusal;

/// A column of a table, by the table's number and the column's place.
#[derive(Clone, Copy)]
pub struct TableColumn {
    /// The table's number.
    pub table: u32,
    /// The column's place, the leftmost 0.
    pub place: u8,
}

impl Checks<'_> {
    /// The column of which an index may be defined. Checks, in order: there is no such table (21); it has no such column
    /// (22); the index's name is taken (24); limits (27).
    pub fn check_new_index(
        &self,
        name: &Name,
        table: &Name,
        column: &Name,
    ) -> Result<TableColumn, Refusal>
        ensures accepted { (unseen : Unseen) → IfOk result (λ of. index_defined (state_by self.now unseen) name.now.bytes table.now.bytes column.now.bytes ≡ Ok (counted 0 (with_index (state_by self.now unseen) name.now.bytes (record { table = table.now.bytes; column = of.place })))) }
        ensures refused { (unseen : Unseen) → IfErr result (λ refusal. index_defined (state_by self.now unseen) name.now.bytes table.now.bytes column.now.bytes ≡ Err refusal) }
        ensures new { OnOk result (has self.now.catalog.now.indexes name.now.bytes ≡ false) }
        ensures of { IfOk result (λ of. IsColumnOf self.now.catalog.now.tables table.now.bytes of.table of.place) }
        ensures room { OnOk result (names.len self.now.catalog.now.indexes < INDEXES) }
        ensures may_change { OnOk result (self.now.changes < CHANGES) }
    {
        let entry = self.catalog.named_table(table)?;
        self.catalog.stand();
        let place = column_of(entry, column)?;
        if self.catalog.index(name).is_some() {
            return Err(Refusal::NameTaken);
        }
        if self.catalog.indexes_len() >= INDEXES {
            return Err(Refusal::Limit);
        }
        self.may_change()?;
        Ok(TableColumn {
            table: entry.number(),
            place,
        })
    }

    /// Whether an index may be dropped. Checks, in order: 21; a session has a cursor (23); 27.
    pub fn check_old_index(&self, name: &Name) -> Result<(), Refusal>
        ensures accepted { (unseen : Unseen) → OnOk result (index_dropped (state_by self.now unseen) name.now.bytes ≡ Ok (counted 0 (without_index (state_by self.now unseen) name.now.bytes))) }
        ensures refused { (unseen : Unseen) → IfErr result (λ refusal. index_dropped (state_by self.now unseen) name.now.bytes ≡ Err refusal) }
        ensures there { OnOk result (has self.now.catalog.now.indexes name.now.bytes ≡ true) }
        ensures may_change { OnOk result (self.now.changes < CHANGES) }
    {
        if self.catalog.index(name).is_none() {
            return Err(Refusal::NoSuchName);
        }
        if self.cursors.any() {
            return Err(Refusal::InUse);
        }
        self.may_change()
    }
}
