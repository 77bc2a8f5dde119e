//! The routes of the input, each from the least to the greatest measure met on it.

ghost use Rattle.std.specs.Prelude.{◌≡◌, ◌<◌, ◌≤◌, [], IfOk, OnOk, string_bytes, true};
ghost use Rattle.std.specs.FinMap as names;
ghost use Rattle.rs_measure.specs.Measure.{IsMeasure};
ghost use Rattle.rs_csv.specs.Routes.{AddsRoute, AreEndsOf, HaveMet, ends_on, reaching, route_line};

use crate::made::push_line;
use rs_catalog::ByName;
use rs_csv_lines::Event;
use rs_csv_lines::put::put_session;
use rs_measure::{GREATEST_MEASURE, Measure, write_measure};
use rs_methods::{Name, Position};
use std::alloc::{AllocError, Global};

/// The least and the greatest measure met on a route; none where all its positions are of other methods.
#[derive(Clone, Copy)]
pub struct Extent {
    /// The least and the greatest.
    pub ends: Option<(Measure, Measure)>,
}

impl Extent {
    // With one position more.
    fn reaching(self, position: Position) -> Self
        ensures { result.ends ≡ reaching position self.ends }
    {
        let Position::Absolute(met) = position else {
            return self;
        };
        let number = met.thousandths();
        let ends = match self.ends {
            None => (met, met),
            Some((least, greatest)) => {
                let low = if number < least.thousandths() {
                    met
                } else {
                    least
                };
                let high = if number > greatest.thousandths() {
                    met
                } else {
                    greatest
                };
                (low, high)
            }
        };
        Extent { ends: Some(ends) }
    }
}

/// The extents by the names of the routes.
pub type Extents = ByName<Extent>;

/// No route so far, where they are to be defined.
pub fn no_extents(alloc: Global, defines_routes: bool) -> Option<Extents>
    ensures { defines_routes ≡ true → HaveMet result [] }
{
    if !defines_routes {
        return None;
    }
    Some(ByName::new(alloc))
}

/// Meets the ends of an event: those of its route reach to both, and no other's change.
pub fn meet_event(extents: &mut Extents, event: &Event) -> Result<(), AllocError>
    ensures { OnOk result (extents.new ≡ names.insert extents.old event.now.route.bytes
        (record { ends = reaching event.now.ends.last (reaching event.now.ends.first (ends_on extents.old event.now.route.bytes)) })) }
{
    let extent = match extents.get(&event.route) {
        Some(extent) => *extent,
        None => Extent { ends: None },
    };
    let extent = extent.reaching(event.ends.first).reaching(event.ends.last);
    extents.define(event.route, extent)
}

// The ends of a route on which these are the least and the greatest measure: a thousandth apart where they are one.
fn route_ends(least: Measure, greatest: Measure) -> (Measure, Measure)
    ensures between { least ≤ greatest → AreEndsOf least greatest result.0 result.1 }
    ensures measures { IsMeasure result.0 × IsMeasure result.1 }
{
    let (low, high) = (least.thousandths(), greatest.thousandths());
    if low < high {
        return (least, greatest);
    }
    if high < GREATEST_MEASURE {
        return (least, Measure::from_thousandths(high + 1));
    }
    (Measure::from_thousandths(high - 1), greatest)
}

// The line that defines a route.
fn line_of_route(
    alloc: Global,
    session: u8,
    name: Name,
    start: Measure,
    finish: Measure,
) -> Result<String, AllocError>
    requires { session < 64 }
    ensures { IfOk result (λ line. string_bytes line ≡ route_line session name.bytes start finish) }
{
    let mut line = String::new(alloc);
    put_session(&mut line, session)?;
    line.push_str(" DEFINE ROUTE ")?;
    line.push_str(name.as_str())?;
    line.push_str(" FROM ")?;
    line.push_str(write_measure(start).as_str())?;
    line.push_str(" TO ")?;
    line.push_str(write_measure(finish).as_str())?;
    Ok(line)
}

/// Adds the line that defines a route on which these are the least and the greatest measure. Refused only for want of memory.
pub fn push_route(
    alloc: Global,
    session: u8,
    name: Name,
    ends: (Measure, Measure),
    lines: &mut Vec<u8>,
) -> Result<(), AllocError>
    requires { session < 64 }
    ensures { OnOk result (AddsRoute session name.bytes ends lines.old.items lines.new.items) }
{
    let (start, finish) = route_ends(ends.0, ends.1);
    let line = line_of_route(alloc, session, name, start, finish)?;
    push_line(lines, line.as_str())
}
