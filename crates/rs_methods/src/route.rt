//! A route as positions see it: its number, and the measures of its start and its finish.
//!
//! It promises that the start lies below the finish.

ghost use Rattle.std.specs.Prelude.{◌<◌};

use rs_measure::Measure;

/// A route: its number, and its least and its greatest measure. The least lies below the greatest.
#[derive(Clone, Copy)]
pub struct Route {
    /// The number under which its referents are listed.
    pub number: u32,
    /// The least measure of the route, in thousandths. The referent START is here.
    pub start: Measure,
    /// The greatest measure of the route, in thousandths.
    pub finish: Measure,
    pub ghost ordered: { start < finish },
}
