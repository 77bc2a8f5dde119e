//! Records that are cleared while the version that was accepted last stays: the state that a file has then.

ghost use Rattle.std.specs.Prelude.{◌≤◌, ℕ};
ghost use Rattle.rs_catalog.specs.Definitions.{Definitions, Numbered};
ghost use Rattle.rs_catalog.specs.Referents.{HeldReferents};
ghost use Rattle.rs_file_parts.specs.OpenedFile.{OpenedFile};
ghost use Rattle.rs_machine.specs.State.{State};
ghost use Rattle.rs_pages.specs.PageMap.{PageMap};
ghost use Rattle.rs_change_laws.specs.Clearing.{HoldsFewer, StandsFewer};
ghost use Rattle.rs_change_laws.specs.Standing.{StandsAt};

use rs_catalog_laws::rows::same_rows_make_the_same_state;
use rs_file_meaning::live::{
    live_versions_see_the_same, live_versions_see_their_events, live_versions_see_their_referents,
    version_that_sees_the_same_has_the_same_world,
};
use rs_file_meaning::versions::change_keeps_the_meaning_of_earlier_versions;

/// A file from which records are cleared that no version from the oldest on sees stands for the state that it stood for, and these
/// versions see what they saw.
pub fn cleared_file_stands_for_the_same_state()
    ensures { (from oldest most gone : ℕ) (map new : PageMap) (was is : OpenedFile) (definitions : Definitions) (held : Numbered HeldReferents) (state : State)
        → (stands : StandsAt from map was definitions held state) → from ≤ oldest → oldest ≤ stands.contents.directory.accepted
        → HoldsFewer oldest most gone stands.contents new is → StandsFewer oldest most gone stands.contents new is definitions held state }
{
    same_rows_make_the_same_state();
    live_versions_see_the_same();
    live_versions_see_their_events();
    live_versions_see_their_referents();
    version_that_sees_the_same_has_the_same_world();
    change_keeps_the_meaning_of_earlier_versions();
}
