//! What live versions see where some events give way to others.

ghost use Rattle.rs_table_changes.specs.Seen.{GivenWayIsSeen};

use rs_file_meaning::live::live_versions_see_their_events;

/// Versions before a change see the events that they saw where some end and others come in it.
pub(crate) fn what_gave_way_is_still_seen()
    ensures { GivenWayIsSeen }
{
    live_versions_see_their_events();
}
