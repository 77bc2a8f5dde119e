//! The checks of a view that is to be defined or dropped.

ghost use Rattle.std.specs.Prelude.{◌≡◌, ◌<◌, ◌⊎◌, Ok, Err, IfErr, OnOk, true, false};
ghost use Rattle.rs_syntax.specs.QueryView.{query_tree};
ghost use Rattle.rs_machine.specs.State.{has};
ghost use Rattle.rs_machine.specs.Step.{counted, view_defined, view_dropped, with_view, without_view};
ghost use Rattle.rs_machine.specs.declared.limits.TheConstants.{CHANGES};
ghost use Rattle.rs_command_checks.specs.States.{Unseen, state_by};

use crate::checks::Checks;
use rs_checker::check;
use rs_machine::limits::VIEWS;
use rs_methods::Name;
use rs_refusal::Refusal;
use rs_syntax::Query;

impl Checks<'_> {
    /// Whether a view may be defined. Checks, in order: its query; its name is taken (24); limits (27).
    pub fn check_new_view(&self, name: &Name, query: &Query) -> Result<(), Refusal>
        ensures accepted { (unseen : Unseen) → OnOk result (view_defined (state_by self.now unseen) name.now.bytes (query_tree query.now) ≡ Ok (counted 0 (with_view (state_by self.now unseen) name.now.bytes (query_tree query.now)))) }
        ensures refused { (unseen : Unseen) → IfErr result (λ refusal. (refusal ≡ Refusal.OutOfMemory) ⊎ (view_defined (state_by self.now unseen) name.now.bytes (query_tree query.now) ≡ Err refusal)) }
        ensures new { OnOk result (has self.now.catalog.now.views name.now.bytes ≡ false) }
        ensures may_change { OnOk result (self.now.changes < CHANGES) }
    {
        check(self.alloc, self.catalog, self.referents, query)?;
        if self.catalog.has_table_or_view(name) {
            return Err(Refusal::NameTaken);
        }
        if self.catalog.views_len() >= VIEWS {
            return Err(Refusal::Limit);
        }
        self.may_change()
    }

    /// Whether a view may be dropped. Checks, in order: 21; a view names it (23); 27.
    pub fn check_old_view(&self, name: &Name) -> Result<(), Refusal>
        ensures accepted { (unseen : Unseen) → OnOk result (view_dropped (state_by self.now unseen) name.now.bytes ≡ Ok (counted 0 (without_view (state_by self.now unseen) name.now.bytes))) }
        ensures refused { (unseen : Unseen) → IfErr result (λ refusal. view_dropped (state_by self.now unseen) name.now.bytes ≡ Err refusal) }
        ensures there { OnOk result (has self.now.catalog.now.views name.now.bytes ≡ true) }
        ensures may_change { OnOk result (self.now.changes < CHANGES) }
    {
        if self.catalog.view(name).is_none() {
            return Err(Refusal::NoSuchName);
        }
        if self.catalog.is_query_named(name) {
            return Err(Refusal::InUse);
        }
        self.may_change()
    }
}
