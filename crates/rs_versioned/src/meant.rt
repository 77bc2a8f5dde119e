//! This module says whether referents are meant that lie between the number of a route and that of the next.
//!
//! Those that a version sees are looked at, one after the other. It takes no memory.

ghost use Rattle.std.specs.Prelude.{◌≡◌, ◌≢◌, ◌↔◌, [], List, IsTrue, filter, length, map, true};
ghost use Rattle.std.specs.List.{AllByRecursion, AllZip};
ghost use Rattle.rs_facts.specs.Fact.{AreDistinct};
ghost use Rattle.rs_records.specs.Listed.{listed, record_width};
ghost use Rattle.rs_cell_versions.specs.Version.{sees};
ghost use Rattle.rs_versioned.specs.Meant.{IsPlaceOf};
ghost use Rattle.rs_versioned.specs.MeantParts.{ArePartMeant, IsMeantOn, IsOwnName, names_of, seen};
ghost use Rattle.rs_versioned.specs.Records.{is_seen};
ghost use Rattle.rs_versioned.specs.Referents.{AreInNameOrder, ReferentRecord, SaysReferent, kept_referents, referent_width};

use crate::referent::{measure_of, name_of, route_of, says_referent};
use crate::route_span::RouteSpan;
use rs_cell_versions::sees;
use rs_lexer::are_name_bytes;
use rs_methods::{REFERENTS, START};
use rs_records::{Cells, is_below};

/// Whether each cell says a referent, and those that the version sees are meant on the route, where there is one.
pub(crate) fn are_part_meant(cells: &Cells, on: Option<RouteSpan>, version: u64) -> bool
    requires width { record_width cells.now ≡ referent_width }
    ensures say { IsTrue result → AllByRecursion (λ cell. (referent : ReferentRecord) × SaysReferent cell referent)
        (listed cells.now) }
    ensures meant { (referents : List ReferentRecord) → AllZip SaysReferent (listed cells.now) referents
        → IsTrue result → ArePartMeant on version referents }
    ensures passes { (referents : List ReferentRecord) → AllZip SaysReferent (listed cells.now) referents
        → AreInNameOrder (map (λ referent. (referent.name, referent.measure)) (seen version referents))
        → ArePartMeant on version referents → IsTrue result }
{
    if !say_referents(cells) {
        return false;
    }
    if !are_meant_on(cells, on, version) {
        return false;
    }
    if !have_own_names(cells, version) {
        return false;
    }
    count_seen(cells, version) <= REFERENTS
}

/// Whether each of the cells says a referent.
fn say_referents(cells: &Cells) -> bool
    requires width { record_width cells.now ≡ referent_width }
    ensures { IsTrue result ↔ AllByRecursion (λ cell. (referent : ReferentRecord) × SaysReferent cell referent)
        (listed cells.now) }
{
    for place in 0..cells.len() {
        if !says_referent(cells.get(place)) {
            return false;
        }
    }
    true
}

/// Whether each of those that the version sees is meant on the route.
fn are_meant_on(cells: &Cells, on: Option<RouteSpan>, version: u64) -> bool
    requires width { record_width cells.now ≡ referent_width }
    ensures { (referents : List ReferentRecord) → AllZip SaysReferent (listed cells.now) referents
        → (IsTrue result ↔ AllByRecursion (IsMeantOn on) (seen version referents)) }
{
    for place in 0..cells.len() {
        if !is_unseen_or_meant(on, version, cells.get(place)) {
            return false;
        }
    }
    true
}

/// Whether the version does not see the referent, or it is meant on the route.
fn is_unseen_or_meant(on: Option<RouteSpan>, version: u64, cell: &[u8]) -> bool
    requires width { length cell.now ≡ referent_width }
    ensures { (referent : ReferentRecord) → SaysReferent cell.now referent
        → (IsTrue result ↔ (is_seen kept_referents version referent ≡ true → IsMeantOn on referent)) }
{
    !sees(version, cell) || is_meant_on(on, cell)
}

/// Whether the referent is meant on the route, where there is one.
fn is_meant_on(on: Option<RouteSpan>, cell: &[u8]) -> bool
    requires width { length cell.now ≡ referent_width }
    ensures { (referent : ReferentRecord) → SaysReferent cell.now referent → (IsTrue result ↔ IsMeantOn on referent) }
{
    match on {
        Some(route) => {
            route_of(cell) == route.number
                && is_place_of(measure_of(cell), route)
                && is_own_name(name_of(cell))
        }
        None => false,
    }
}

/// Whether the measure is one of the route's.
fn is_place_of(measure: u32, route: RouteSpan) -> bool
    ensures { IsTrue result ↔ IsPlaceOf measure route }
{
    route.start <= measure && measure <= route.finish
}

/// Whether the bytes are those of a name other than START.
fn is_own_name(name: &[u8]) -> bool
    ensures { IsTrue result ↔ IsOwnName name.now }
{
    are_name_bytes(name) && name != START.as_bytes()
}

/// Whether those that the version sees have names that rise, as the cells of one route do where each has a name of its own.
fn have_own_names(cells: &Cells, version: u64) -> bool
    requires width { record_width cells.now ≡ referent_width }
    ensures own { (referents : List ReferentRecord) → AllZip SaysReferent (listed cells.now) referents
        → IsTrue result → AreDistinct (names_of (seen version referents)) }
    ensures rise { (referents : List ReferentRecord) → AllZip SaysReferent (listed cells.now) referents
        → AreInNameOrder (map (λ referent. (referent.name, referent.measure)) (seen version referents))
        → AllByRecursion (λ name. name ≢ []) (names_of (seen version referents))
        → AreDistinct (names_of (seen version referents)) → IsTrue result }
{
    let mut last: &[u8] = &[];
    for place in 0..cells.len() {
        let cell = cells.get(place);
        if sees(version, cell) {
            let name = name_of(cell);
            if !is_below(last, name) {
                return false;
            }
            last = name;
        }
    }
    true
}

/// How many of the cells the version sees.
fn count_seen(cells: &Cells, version: u64) -> usize
    requires width { record_width cells.now ≡ referent_width }
    ensures { result ≡ length (filter (sees version) (listed cells.now)) }
{
    let mut count = 0;
    for place in 0..cells.len() {
        if sees(version, cells.get(place)) {
            count += 1;
        }
    }
    count
}
