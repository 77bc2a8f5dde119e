//! The checks of a route and of a table that are to be dropped.

ghost use Rattle.std.specs.Prelude.{◌≡◌, ◌<◌, false, Some, Ok, Err, IfOk, IfErr, OnOk};
ghost use Rattle.std.specs.FinMap as names;
ghost use Rattle.rs_machine.specs.Step.{counted, route_dropped, table_dropped, without_route, without_table};
ghost use Rattle.rs_machine.specs.declared.limits.TheConstants.{CHANGES};
ghost use Rattle.rs_catalog.specs.Uses.{some_piece_on};
ghost use Rattle.rs_command_checks.specs.Facts.{TellsOfFacts};
ghost use Rattle.rs_command_checks.specs.States.{Unseen, state_by};
ghost use Rattle.rs_command_checks.specs.Tables.{HasTable};

use crate::checks::Checks;
use rs_catalog::RouteEntry;
use rs_methods::Name;
use rs_refusal::Refusal;

impl Checks<'_> {
    /// A route that may be dropped; the caller says whether some table has a fact on it. Checks, in order: 20; a table has a
    /// fact on it, an alignment has a piece on it or a view's window is on it, or a session has a cursor (23); 27.
    pub fn check_old_route(&self, name: &Name, has_facts: bool) -> Result<RouteEntry, Refusal>
        ensures accepted { (unseen : Unseen) → TellsOfFacts (state_by self.now unseen) name.now.bytes has_facts
            → OnOk result (route_dropped (state_by self.now unseen) name.now.bytes ≡ Ok (counted 0 (without_route (state_by self.now unseen) name.now.bytes))) }
        ensures refused { (unseen : Unseen) → TellsOfFacts (state_by self.now unseen) name.now.bytes has_facts
            → IfErr result (λ refusal. route_dropped (state_by self.now unseen) name.now.bytes ≡ Err refusal) }
        ensures there { IfOk result (λ route. names.get self.now.catalog.now.routes name.now.bytes ≡ Some route) }
        ensures no_facts { OnOk result (has_facts ≡ false) }
        ensures unused { OnOk result (some_piece_on self.now.catalog.now name.now.bytes ≡ false) }
        ensures may_change { OnOk result (self.now.changes < CHANGES) }
    {
        let route = self.catalog.named_route(name)?;
        if has_facts {
            return Err(Refusal::InUse);
        }
        if self.catalog.is_route_aligned(name) {
            return Err(Refusal::InUse);
        }
        if self.catalog.is_route_named(name) {
            return Err(Refusal::InUse);
        }
        if self.cursors.any() {
            return Err(Refusal::InUse);
        }
        self.may_change()?;
        Ok(route)
    }

    /// The number of a table that may be dropped. Checks, in order: 21; a view names it, or a session has a cursor (23); 27.
    pub fn check_old_table(&self, name: &Name) -> Result<u32, Refusal>
        ensures accepted { (unseen : Unseen) → OnOk result (table_dropped (state_by self.now unseen) name.now.bytes ≡ Ok (counted 0 (without_table (state_by self.now unseen) name.now.bytes))) }
        ensures refused { (unseen : Unseen) → IfErr result (λ refusal. table_dropped (state_by self.now unseen) name.now.bytes ≡ Err refusal) }
        ensures there { IfOk result (λ number. HasTable self.now.catalog.now name.now.bytes number) }
        ensures may_change { OnOk result (self.now.changes < CHANGES) }
    {
        let number = self.catalog.named_table(name)?.number();
        if self.catalog.is_query_named(name) {
            return Err(Refusal::InUse);
        }
        if self.cursors.any() {
            return Err(Refusal::InUse);
        }
        self.may_change()?;
        Ok(number)
    }
}
