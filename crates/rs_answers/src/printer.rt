//! How the positions of one route are printed.
//!
//! It promises to append a space and the machine's text of a position by a method.

ghost use Rattle.std.specs.Prelude.{◌≡◌, ◌≤◌, ◌++◌, codes, OnOk, string_bytes};
ghost use Rattle.rs_answers.specs.Printed.{place_on};

use rs_catalog::{RouteEntry, RouteReferents};
use rs_measure::{Measure, write_measure};
use rs_methods::{Method, Name};
use std::alloc::AllocError;

/// Prints positions of one route by a method.
#[derive(Clone, Copy)]
pub(crate) struct PositionPrinter<'a> {
    /// The referents of all routes.
    pub(crate) referents: &'a RouteReferents,
    /// The route's name.
    pub(crate) name: &'a Name,
    /// The route's number, and where it starts and ends.
    pub(crate) route: RouteEntry,
    /// How its positions are printed.
    pub(crate) method: Method,
}

impl PositionPrinter<'_> {
    ghost use Rattle.rs_answers.specs.Printed.{printed_by};

    /// Appends a space and the position of a place of the route, in thousandths. A place beside the route, as a damaged
    /// file may have it, is printed as the nearest one. For want of memory the text may end with a part of it.
    pub(crate) fn push(&self, text: &mut String, place: u32) -> Result<(), AllocError>
        ensures { OnOk result (string_bytes text.new ≡ string_bytes text.old ++ codes " " ++ printed_by self.now place) }
    {
        text.push(' ')?;
        let k = place_on(self.route, place);
        match self.method {
            Method::Absolute => text.push_str(write_measure(k).as_str()),
            Method::Relative | Method::Interpolative => {
                let position = self.referents.expressed(self.route, self.method, k)?;
                text.push_str(position.as_str())
            }
        }
    }
}

/// The place of the route that is nearest to this one.
pub(crate) fn place_on(route: RouteEntry, place: u32) -> Measure
    ensures nearest { result ≡ place_on route.ends place }
    ensures after_start { route.ends.start ≤ result }
    ensures before_finish { result ≤ route.ends.finish }
{
    let ends = route.ends();
    ends.stand();
    let upto = place.min(ends.finish().thousandths());
    Measure::from_thousandths(upto.max(ends.start().thousandths()))
}
