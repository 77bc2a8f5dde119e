//! A change that is completed: its part has changed, records are cleared, and the next version is the one that was accepted last.

ghost use Rattle.std.specs.Prelude.{◌≡◌, ◌≤◌, ◌+◌, ℕ};
ghost use Rattle.rs_catalog.specs.Definitions.{Definitions, Numbered, Rest, state_from};
ghost use Rattle.rs_catalog.specs.Referents.{HeldReferents, referents_on};
ghost use Rattle.rs_file_parts.specs.Contents.{Contents};
ghost use Rattle.rs_file_parts.specs.OpenedFile.{OpenedFile};
ghost use Rattle.rs_machine.specs.Lawful.{AreViewsMeant};
ghost use Rattle.rs_machine.specs.State.{State, no_cursors};
ghost use Rattle.rs_pages.specs.PageMap.{PageMap};
ghost use Rattle.rs_file_meaning.specs.Seen.{spans_seen};
ghost use Rattle.rs_change_laws.specs.Changing.{Becomes, Completes, GivesState};
ghost use Rattle.rs_change_laws.specs.Standing.{StandsAt};

use rs_catalog_laws::rows::same_rows_make_the_same_state;
use rs_file_meaning::live::{
    live_versions_see_the_same, live_versions_see_their_events, live_versions_see_their_referents,
    version_that_sees_the_same_has_the_same_world,
};
use rs_file_meaning::standing::contents_have_one_state;
use rs_file_meaning::versions::change_keeps_the_meaning_of_earlier_versions;

/// A file stands for one state at the most with what is in memory: that of the catalogue, of the referents in memory, and of the spans
/// that the version accepted last sees.
pub fn file_stands_for_the_state_in_memory()
    ensures { (oldest : ℕ) (map : PageMap) (file : OpenedFile) (definitions : Definitions) (held : Numbered HeldReferents) (state : State)
        → (stands : StandsAt oldest map file definitions held state)
        → state ≡ state_from definitions (λ (route : ℕ). referents_on held route) (spans_seen stands.contents stands.contents.directory.accepted)
        (record { changes = stands.contents.directory.accepted; cursors = no_cursors }) }
{
    contents_have_one_state();
}

/// A file stands for the state that the change of its part gives once the change is completed, whichever records are cleared; from the
/// oldest version on, live versions see what they saw.
pub fn completed_change_has_its_state()
    ensures { (from oldest : ℕ) (map new : PageMap) (was is : OpenedFile) (definitions now : Definitions) (held kept : Numbered HeldReferents) (state next : State)
        → (stands : StandsAt from map was definitions held state) → from ≤ oldest → oldest ≤ stands.contents.directory.accepted + 1
        → (between : Contents) → Completes oldest stands.contents between new is → GivesState oldest stands.contents between now kept next
        → AreViewsMeant next → Becomes oldest stands.contents new is now kept next }
{
    same_rows_make_the_same_state();
    live_versions_see_the_same();
    live_versions_see_their_events();
    live_versions_see_their_referents();
    version_that_sees_the_same_has_the_same_world();
    change_keeps_the_meaning_of_earlier_versions();
}
