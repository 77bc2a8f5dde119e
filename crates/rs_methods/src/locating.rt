//! Where a position lies on a route.
//!
//! `locate` takes no memory. It refuses a position outside the route, and a referent that isn't there.

ghost use Rattle.std.specs.Prelude.{◌≡◌, ◌+◌, ◌-◌, ◌*◌, ◌/◌, ◌≤◌, IfOk};
ghost use Rattle.rs_methods.specs.Position.{expression_of, located_beyond, located_before, on_route, referent_measure};
ghost use Rattle.rs_methods.specs.Referents.{referents_of};
ghost use Rattle.rs_methods.specs.OnRoute.{located_on};

use crate::position::{Position, START, Sign};
use crate::referents::Referents;
use crate::route::Route;
use rs_measure::{GREATEST_PART, Measure, Part};
use rs_refusal::Refusal;

/// The measure at which a position lies on a route, by the referents of that route: it lies from the
/// route's start to its finish. A referent that is missing is refused with
/// `Refusal::NoSuchReferent` (25), a number outside the route with `Refusal::OutsideTheRoute` (30).
pub fn locate(route: &Route, referents: &Referents, position: &Position) -> Result<Measure, Refusal>
    ensures place { result ≡ located_on route.now referents.now (expression_of position.now) }
    ensures on_the_route { IfOk result (λ m. (route.now.start ≤ m) × (m ≤ route.now.finish)) }
{
    match position {
        Position::Absolute(measure) => on_route(route, u64::from(measure.thousandths())),
        Position::Relative(name, sign, measure) => {
            let name = name.as_str();
            match sign {
                Sign::Plus => located_beyond(route, referents, name, *measure),
                Sign::Minus => located_before(route, referents, name, *measure),
            }
        }
        Position::Interpolative(part) => on_route(route, interpolated(route, *part)),
    }
}

// The measure of a number of thousandths, where it lies on the route.
fn on_route(route: &Route, number: u64) -> Result<Measure, Refusal>
    ensures place { result ≡ on_route route.now.start route.now.finish number }
    ensures on_the_route { IfOk result (λ m. (route.now.start ≤ m) × (m ≤ route.now.finish)) }
{
    let start = u64::from(route.start.thousandths());
    let finish = u64::from(route.finish.thousandths());
    if start <= number && number <= finish {
        Ok(Measure::from_thousandths(number as u32))
    } else {
        Err(Refusal::OutsideTheRoute)
    }
}

// Where a referent of the route stands, START at the route's start.
fn referent_measure(route: &Route, referents: &Referents, name: &str) -> Option<Measure>
    ensures { result ≡ referent_measure route.now.start (referents_of route.now.number referents.now) name.now }
{
    if START == name {
        Some(route.start)
    } else {
        referents.get(route.number, name)
    }
}

// A measure beyond a referent.
fn located_beyond(
    route: &Route,
    referents: &Referents,
    name: &str,
    measure: Measure,
) -> Result<Measure, Refusal>
    ensures place { result ≡ located_beyond route.now.start route.now.finish (referent_measure route.now.start (referents_of route.now.number referents.now) name.now) measure }
    ensures on_the_route { IfOk result (λ m. (route.now.start ≤ m) × (m ≤ route.now.finish)) }
{
    match referent_measure(route, referents, name) {
        None => Err(Refusal::NoSuchReferent),
        Some(referent) => on_route(
            route,
            u64::from(referent.thousandths()) + u64::from(measure.thousandths()),
        ),
    }
}

// A measure before a referent.
fn located_before(
    route: &Route,
    referents: &Referents,
    name: &str,
    measure: Measure,
) -> Result<Measure, Refusal>
    ensures place { result ≡ located_before route.now.start route.now.finish (referent_measure route.now.start (referents_of route.now.number referents.now) name.now) measure }
    ensures on_the_route { IfOk result (λ m. (route.now.start ≤ m) × (m ≤ route.now.finish)) }
{
    match referent_measure(route, referents, name) {
        None => Err(Refusal::NoSuchReferent),
        Some(referent) if referent.thousandths() < measure.thousandths() => Err(
            Refusal::OutsideTheRoute,
        ),
        Some(referent) => on_route(
            route,
            u64::from(referent.thousandths() - measure.thousandths()),
        ),
    }
}

// The thousandths at a part of the route, rounded down.
fn interpolated(route: &Route, part: Part) -> u64
    ensures { result ≡ route.now.start + part * (route.now.finish - route.now.start) / 1000000000 }
{
    let start = route.start.thousandths();
    let length = route.finish.thousandths() - start;
    u64::from(start) + u64::from(part.billionths()) * u64::from(length) / u64::from(GREATEST_PART)
}
