//! What commands are checked against, and the check that each change makes last.

ghost use Rattle.std.specs.Prelude.{◌≡◌, ◌<◌, OnOk};
ghost use Rattle.rs_machine.specs.Step.{may_change};
ghost use Rattle.rs_machine.specs.declared.limits.TheConstants.{CHANGES};
ghost use Rattle.rs_command_checks.specs.States.{Unseen, state_by};

use rs_catalog::{Catalog, RouteReferents};
use rs_cursor::Cursors;
use rs_machine::limits::CHANGES;
use rs_refusal::Refusal;
use std::alloc::Global;

/// What commands are checked against.
#[derive(Clone, Copy)]
pub struct Checks<'a> {
    /// Where memory is taken.
    pub alloc: Global,
    /// The definitions.
    pub catalog: &'a Catalog,
    /// The referents of routes.
    pub referents: &'a RouteReferents,
    /// The cursors of sessions.
    pub cursors: &'a Cursors,
    /// How many changes were accepted.
    pub changes: u64,
}

impl Checks<'_> {
    /// Whether one more change may be accepted (27).
    pub fn may_change(&self) -> Result<(), Refusal>
        ensures answer { (unseen : Unseen) → result ≡ may_change (state_by self.now unseen) }
        ensures room { OnOk result (self.now.changes < CHANGES) }
    {
        if self.changes >= CHANGES {
            return Err(Refusal::Limit);
        }
        Ok(())
    }
}
