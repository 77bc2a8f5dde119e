//! A cursor: the plan of a query, how positions are printed, the version that it looks at, and its place.
//!
//! It keeps no line. What it has still to give follows from a store and these four fields.

ghost use Rattle.std.specs.Prelude.{◌≡◌, true};
ghost use Rattle.rs_exec.specs.Meaning.{is_well_formed};

use crate::place::Place;
use rs_methods::Method;
use rs_plan::Plan;

/// A query that is answered in parts, as it was when the cursor was opened.
#[derive(Drop)]
pub struct Cursor {
    /// The plan of its query.
    pub plan: Plan,
    /// How its positions are printed.
    pub method: Method,
    /// The version that it looks at: that of its opening.
    pub version: u64,
    /// How far its lines were given.
    pub place: Place,
    ghost formed: { is_well_formed plan ≡ true },
}
