//! The events that a search found, as cells.

ghost use Rattle.std.specs.Prelude.{◌≡◌};
ghost use Rattle.rs_records.specs.Listed.{record_width};
ghost use Rattle.rs_versioned.specs.Events.{event_width};

use crate::window::RouteWindow;
use rs_records::Cells;
use rs_value::Schema;

/// The cells of the events of a table that overlap a window, whatever version sees them.
#[derive(Drop)]
pub struct FoundEvents {
    pub(crate) schema: Schema,
    pub(crate) window: RouteWindow,
    pub(crate) cells: Cells,
    ghost wide: { record_width cells ≡ event_width schema.items },
}
