//! How a measure of a route is printed as a position.
//!
//! The text of a measure says one position, which lies at the measure. By the relative method the position is
//! counted from the nearest referent that is not above it; there the text says it where the names of the
//! route's referents are words.

ghost use Rattle.std.specs.Prelude.{◌≡◌, ◌≢◌, ℕ, ◌+◌, ◌-◌, ◌*◌, ◌/◌, ◌<◌, ◌≤◌, List, Ok, IfOk, string_bytes};
ghost use Rattle.rs_measure.specs.declared.part.TheConstants.{GREATEST_PART};
ghost use Rattle.rs_methods.specs.Position.{beyond, ceiling, expression_text, interpolative, nearest, IsNearest};
ghost use Rattle.rs_methods.specs.OnRoute.{located_on, expressed_on};
ghost use Rattle.rs_methods.specs.PositionText.{TextSaysPosition, AreWords};
ghost use Rattle.rs_methods.specs.Referents.{referents_of};

use crate::position::{Method, Name};
use crate::referents::Referents;
use crate::route::Route;
use rs_measure::{GREATEST_PART, Measure, Part, write_measure, write_part};
use std::alloc::{AllocError, Global};

/// The text of the position of a measure `k` by a method: the measure itself, `@name+m` with the
/// nearest referent not above `k`, or a percentage rounded up. `k` lies from the route's start to its
/// finish. It answers an `Err` only where memory is wanting; callers answer it with
/// `Refusal::OutOfMemory` (90).
pub fn express(
    alloc: Global,
    route: &Route,
    referents: &Referents,
    method: Method,
    k: Measure,
) -> Result<String, AllocError>
    requires after_start { route.now.start ≤ k }
    requires before_finish { k ≤ route.now.finish }
    ensures text { IfOk result (λ text. string_bytes text ≡ expression_text (expressed_on route.now referents.now method k)) }

    // By the relative method it is k beyond the referent that is nearest: the greatest measure not
    // above k, and at that measure the least name.
    ensures by_the_nearest { (near : List ℕ × ℕ) → method ≡ Method.Relative → IsNearest route.now.start (referents_of route.now.number referents.now) k near → IfOk result (λ text. string_bytes text ≡ expression_text (beyond near.0 (k - near.1))) }

    // By the relative method the text says this position where the names of the route's referents are words ..
    ensures says { method ≡ Method.Relative → AreWords (referents_of route.now.number referents.now) → IfOk result (λ text. TextSaysPosition (string_bytes text) (expressed_on route.now referents.now method k)) }

    // .. and by the others it says it whatever the names are.
    ensures says_without_names { method ≢ Method.Relative → IfOk result (λ text. TextSaysPosition (string_bytes text) (expressed_on route.now referents.now method k)) }

    // The position lies at k.
    ensures read_back { located_on route.now referents.now (expressed_on route.now referents.now method k) ≡ Ok k }
{
    // For the proof: a measure is in its range, so its text is read back.
    let _in_range = k.thousandths();
    match method {
        Method::Absolute => write_measure(k).to_string(alloc),
        Method::Relative => express_relative(alloc, route, referents, k),
        Method::Interpolative => interpolative_text(alloc, part_at(route, k)),
    }
}

// The text of a measure of the route by its nearest referent below.
fn express_relative(
    alloc: Global,
    route: &Route,
    referents: &Referents,
    k: Measure,
) -> Result<String, AllocError>
    requires after_start { route.now.start ≤ k }
    requires before_finish { k ≤ route.now.finish }
    ensures text { IfOk result (λ text. string_bytes text ≡ expression_text (expressed_on route.now referents.now Method.Relative k)) }
    ensures read_back { located_on route.now referents.now (expressed_on route.now referents.now Method.Relative k) ≡ Ok k }
{
    let near = referents.nearest(route, k);
    let beyond = Measure::from_thousandths(k.thousandths() - near.measure.thousandths());
    relative_text(alloc, near.name, beyond)
}

// The text of a measure beyond a referent.
fn relative_text(alloc: Global, name: Name, measure: Measure) -> Result<String, AllocError>
    ensures { IfOk result (λ text. string_bytes text ≡ expression_text (beyond name.bytes measure)) }
{
    let mut text = String::from_str(alloc, "@")?;
    text.push_str(name.as_str())?;
    text.push('+')?;
    text.push_str(write_measure(measure).as_str())?;
    Ok(text)
}

// The text of a part.
fn interpolative_text(alloc: Global, part: Part) -> Result<String, AllocError>
    ensures { IfOk result (λ text. string_bytes text ≡ expression_text (interpolative part)) }
{
    let percentage = write_part(part);
    format!(in alloc; "{percentage}%")
}

// The least part of the route at which `k` lies.
fn part_at(route: &Route, k: Measure) -> Part
    requires after_start { route.now.start ≤ k }
    requires before_finish { k ≤ route.now.finish }
    ensures least { result ≡ ceiling ((k - route.now.start) * 1000000000) (route.now.finish - route.now.start) }
    ensures read_back { route.now.start + result * (route.now.finish - route.now.start) / 1000000000 ≡ k }
{
    let start = route.start.thousandths();
    let length = u64::from(route.finish.thousandths() - start);
    let along = u64::from(k.thousandths() - start) * u64::from(GREATEST_PART);
    Part::from_billionths(((along + (length - 1)) / length) as u32)
}

/// The referent that a measure is expressed by, `nearest`, is the one that `IsNearest` describes: it
/// has the greatest measure not above it, and at that measure the least name.
pub fn nearest_referent_is_taken()
    ensures { (start : ℕ) (referents : List (List ℕ × ℕ)) (k : ℕ) → start ≤ k → IsNearest start referents k (nearest start referents k) }
{}

/// There is one such referent.
pub fn nearest_referent_is_one()
    ensures { (start : ℕ) (referents : List (List ℕ × ℕ)) (k : ℕ) (a b : List ℕ × ℕ) → IsNearest start referents k a → IsNearest start referents k b → a ≡ b }
{}

/// `ceiling` is the quotient rounded up: times the divisor it is not below the number, and by less
/// than the divisor above it.
pub fn ceiling_rounds_up()
    ensures not_below { (number divisor : ℕ) → 0 < divisor → number ≤ ceiling number divisor * divisor }
    ensures by_less { (number divisor : ℕ) → 0 < divisor → ceiling number divisor * divisor < number + divisor }
{}
