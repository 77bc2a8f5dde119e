//! The check of a query, and the line of a position in another method, which needs neither spans nor lines.

ghost use Rattle.std.specs.Prelude.{◌≡◌, ◌≤◌, ◌⊎◌, [], ◌∷◌, length, Some, Ok, Err, IfOk, IfErr};
ghost use Rattle.std.specs.FinMap as names;
ghost use Rattle.rs_methods.specs.Position.{expression_of};
ghost use Rattle.rs_syntax.specs.QueryView.{query_tree};
ghost use Rattle.rs_machine.specs.Checking.{checked};
ghost use Rattle.rs_machine.specs.Step.{effect, position_text, position_translated};
ghost use Rattle.rs_serve.specs.ReplyView.{rows_of};
ghost use Rattle.rs_checker.specs.Checks.{IsChecked};
ghost use Rattle.rs_checker.specs.CheckedView.{named_in};
ghost use Rattle.rs_checker.specs.Numbers.{AreNumberedIn};
ghost use Rattle.rs_command_checks.specs.States.{Unseen, state_by};

use crate::checks::Checks;
use rs_catalog::RouteEntry;
use rs_checker::{Checked, check};
use rs_measure::Measure;
use rs_methods::{Method, Name, Position};
use rs_refusal::Refusal;
use rs_syntax::Query;
use std::alloc::AllocError;

impl Checks<'_> {
    /// The checked query, which can be planned; or the refusal of the first check that fails.
    pub fn checked(&self, query: &Query) -> Result<Checked, Refusal>
        ensures is { (unseen : Unseen) → IfOk result (IsChecked (state_by self.now unseen) (query_tree query.now)) }
        ensures numbers { IfOk result (λ made. AreNumberedIn self.now.catalog.now (named_in made.query)) }
        ensures refused { (unseen : Unseen) → IfErr result (λ refusal. (refusal ≡ Refusal.OutOfMemory) ⊎ (checked (state_by self.now unseen) (query_tree query.now) ≡ Err refusal)) }
    {
        let checked = check(self.alloc, self.catalog, self.referents, query)?;
        Ok(checked)
    }

    /// A position of a route in the method wanted, as one line (20; 25, 30).
    pub fn translate(
        &self,
        route: &Name,
        position: &Position,
        method: Method,
    ) -> Result<Vec<String>, Refusal>
        ensures done { (unseen : Unseen) → IfOk result (λ rows. position_translated (state_by self.now unseen) route.now.bytes (expression_of position.now) method ≡ Ok (effect (rows_of rows.items) (length (rows_of rows.items)) (state_by self.now unseen))) }
        ensures refused { (unseen : Unseen) → IfErr result (λ refusal. (refusal ≡ Refusal.OutOfMemory) ⊎ (position_translated (state_by self.now unseen) route.now.bytes (expression_of position.now) method ≡ Err refusal)) }
    {
        let on = self.catalog.named_route(route)?;
        let measure = self.referents.located(on, position)?;
        Ok(self.translated(route, on, method, measure)?)
    }

    /// One line, the text of a measure of a route by a method.
    fn translated(
        &self,
        route: &Name,
        on: RouteEntry,
        method: Method,
        measure: Measure,
    ) -> Result<Vec<String>, AllocError>
        requires there { names.get self.now.catalog.now.routes route.now.bytes ≡ Some on }
        requires after_start { on.ends.start ≤ measure }
        requires before_finish { measure ≤ on.ends.finish }
        ensures { (unseen : Unseen) → IfOk result (λ rows. rows_of rows.items ≡ position_text (state_by self.now unseen) route.now.bytes on.ends method measure ∷ []) }
    {
        let text = self.referents.expressed(on, method, measure)?;
        Ok(vec![in self.alloc; text]?)
    }
}
