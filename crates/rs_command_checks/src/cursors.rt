//! The checks of a cursor that is to be opened.

ghost use Rattle.std.specs.Prelude.{◌≡◌, ◌⊎◌, Ok, Err, IfErr, IfOk};
ghost use Rattle.rs_syntax.specs.QueryView.{query_tree};
ghost use Rattle.rs_machine.specs.Step.{counted, lines_of, with_cursor, cursor_opened};
ghost use Rattle.rs_checker.specs.Checks.{IsChecked};
ghost use Rattle.rs_checker.specs.CheckedView.{query_of, named_in};
ghost use Rattle.rs_checker.specs.Numbers.{AreNumberedIn};
ghost use Rattle.rs_command_checks.specs.States.{Unseen, state_by};

use crate::checks::Checks;
use rs_checker::Checked;
use rs_machine::limits::CURSORS;
use rs_methods::{Method, Name};
use rs_refusal::Refusal;
use rs_serve::Session;
use rs_syntax::Query;

impl Checks<'_> {
    /// The query on which a cursor of the session may be opened. Checks, in order: its query; its name is taken (61); the
    /// session has as many as it may (62).
    pub fn check_new_cursor(
        &self,
        session: Session,
        name: &Name,
        query: &Query,
        method: Method,
    ) -> Result<Checked, Refusal>
        ensures accepted { (unseen : Unseen) → IfOk result (λ checked. cursor_opened (state_by self.now unseen) session name.now.bytes (query_tree query.now) method
            ≡ Ok (counted 0 (with_cursor (state_by self.now unseen) session name.now.bytes (lines_of (state_by self.now unseen) (query_of checked.query) method)))) }
        ensures refused { (unseen : Unseen) → IfErr result (λ refusal. (refusal ≡ Refusal.OutOfMemory) ⊎ (cursor_opened (state_by self.now unseen) session name.now.bytes (query_tree query.now) method ≡ Err refusal)) }
        ensures is { (unseen : Unseen) → IfOk result (IsChecked (state_by self.now unseen) (query_tree query.now)) }
        ensures numbers { IfOk result (λ checked. AreNumberedIn self.now.catalog.now (named_in checked.query)) }
    {
        let checked = self.checked(query)?;
        if self.cursors.has(session, name) {
            return Err(Refusal::CursorNameTaken);
        }
        if self.cursors.count(session) >= CURSORS {
            return Err(Refusal::TooManyCursors);
        }
        Ok(checked)
    }
}
