//! The next lines of a cursor, from a store and the cursor's place.
//!
//! The plan is evaluated on one route after another, from the place on, until there are as many lines as are asked for. Routes that are
//! kept spare their listing, and lines that are kept of a route its evaluation.

ghost use Rattle.std.specs.Prelude.{◌≡◌, ◌+◌, ◌-◌, ◌<◌, ◌≤◌, ◌^◌, ℕ, drop, length, min, take, IfOk, IfSome, Some, vec_len};
ghost use Rattle.rs_answers.specs.Resumed.{IsMarked};
ghost use Rattle.rs_answers.specs.Versions.{LiesOnRoutes, SeenVersion};
ghost use Rattle.rs_catalog.specs.declared.entries.NamedRoute.{NamedRoute};
ghost use Rattle.rs_cursor.specs.Held.{lines_left};
ghost use Rattle.rs_cursor.specs.Kept.{AreFormed, AreKept, AreLinesAt, AreListed, GivesFrom, GivesLines, GivesWanted, GoesOn, IsRouteAt, IsStopOf};
ghost use Rattle.rs_cursor.specs.declared.cursor.Cursor.{Cursor};
ghost use Rattle.rs_exec.specs.Leaving.{EndsWith};
ghost use Rattle.rs_methods.specs.declared.position.Method.{Method};
ghost use Rattle.rs_plan.specs.declared.plan.Plan.{Plan};
ghost use Rattle.rs_serve.specs.ReplyView.{rows_of};

use crate::cursor::Cursor;
use crate::kept::{KEPT_BYTES, KeptAhead, KeptLines};
use crate::kept_from::{KeptFrom, kept_at, push_copies};
use crate::place::Place;
use rs_answers::{Mark, PlanAt, Portion, Versions, push_route_lines};
use rs_catalog::NamedRoute;
use rs_machine::limits::ROUTES;
use rs_refusal::Refusal;
use std::alloc::{AllocError, Global};

/// Lines that a cursor gives, and where it is after them.
#[derive(Drop)]
pub struct NextLines {
    /// The lines.
    pub lines: Vec<String>,
    /// The cursor's place after them.
    pub place: Place,
}

/// The next lines of a cursor, so many or as many as are left, by what the store shows at the cursor's version. Lines that are kept
/// are given as they are; else a route is evaluated, and lines after those that are given are kept. The routes are kept too, and listed
/// only where they aren't. The store tells why they are refused.
pub fn next_lines<V: Versions>(
    alloc: Global,
    store: &mut V,
    cursor: &Cursor,
    rows: u32,
    kept: &mut Option<KeptAhead>,
) -> Result<NextLines, Refusal>
    ensures given { IfOk result (λ next. (versions : ℕ → SeenVersion) → V.shows store.old cursor.now.version (versions cursor.now.version)
        → LiesOnRoutes (versions cursor.now.version) cursor.now.plan → IfSome kept.old (AreKept (versions cursor.now.version) cursor.now.plan cursor.now.method)
        → rows_of next.lines.items ≡ take rows (lines_left versions cursor.now)) }
    ensures left { IfOk result (λ next. (versions : ℕ → SeenVersion) → V.shows store.old cursor.now.version (versions cursor.now.version)
        → LiesOnRoutes (versions cursor.now.version) cursor.now.plan → IfSome kept.old (AreKept (versions cursor.now.version) cursor.now.plan cursor.now.method)
        → lines_left versions (record cursor.now { place = next.place }) ≡ drop rows (lines_left versions cursor.now)) }
    ensures keeps { (shown : SeenVersion) → V.shows store.old cursor.now.version shown → LiesOnRoutes shown cursor.now.plan
        → IfSome kept.old (AreKept shown cursor.now.plan cursor.now.method) → IfSome kept.new (AreKept shown cursor.now.plan cursor.now.method) }
    ensures ends { EndsWith V.Source store.old store.new result }
{
    let (routes, mut lines) = listed(alloc, store, cursor.version, kept.take())?;
    let next = lines_of_routes(
        alloc,
        store,
        cursor,
        rows as usize,
        routes.as_slice(),
        &mut lines,
    );
    *kept = kept_ahead(routes, lines);
    next
}

/// The routes and the lines that are kept, or the routes that the store lists at the version, of which no lines are kept. The store
/// tells why they are refused.
fn listed<V: Versions>(
    alloc: Global,
    store: &mut V,
    version: u64,
    kept: Option<KeptAhead>,
) -> Result<(Vec<NamedRoute>, Option<KeptLines>), Refusal>
    ensures listed { IfOk result (λ both. (shown : SeenVersion) (plan : Plan) (method : Method) → V.shows store.old version shown
        → IfSome kept (AreKept shown plan method) → AreListed shown plan method both.0.items both.1) }
    ensures ends { EndsWith V.Source store.old store.new result }
{
    let (routes, lines) = match kept {
        Some(KeptAhead { routes, lines }) => (routes, lines),
        None => (None, None),
    };
    match routes {
        Some(routes) => Ok((routes, lines)),
        None => {
            let routes = store.routes_at(alloc, version)?;
            Ok((routes, lines))
        }
    }
}

/// These routes and lines, to be kept; none where there are more routes than there may be.
fn kept_ahead(routes: Vec<NamedRoute>, lines: Option<KeptLines>) -> Option<KeptAhead>
    ensures routes { IfSome result (λ kept. kept.routes ≡ Some routes) }
    ensures lines { IfSome result (λ kept. kept.lines ≡ lines) }
{
    if routes.len() > ROUTES {
        return None;
    }
    Some(KeptAhead {
        routes: Some(routes),
        lines,
    })
}

/// The next lines of a cursor, so many or as many as are left, on the routes of its version. The store tells why they are refused.
fn lines_of_routes<V: Versions>(
    alloc: Global,
    store: &mut V,
    cursor: &Cursor,
    wanted: usize,
    routes: &[NamedRoute],
    kept: &mut Option<KeptLines>,
) -> Result<NextLines, Refusal>
    ensures given { IfOk result (λ next. (versions : ℕ → SeenVersion) → V.shows store.old cursor.now.version (versions cursor.now.version)
        → LiesOnRoutes (versions cursor.now.version) cursor.now.plan → AreListed (versions cursor.now.version) cursor.now.plan cursor.now.method routes.now kept.old
        → GivesWanted wanted (lines_left versions cursor.now) (rows_of next.lines.items) (lines_left versions (record cursor.now { place = next.place }))) }
    ensures keeps { (shown : SeenVersion) → V.shows store.old cursor.now.version shown → LiesOnRoutes shown cursor.now.plan
        → AreListed shown cursor.now.plan cursor.now.method routes.now kept.old → IfSome kept.new (AreFormed shown cursor.now.plan cursor.now.method) }
    ensures ends { EndsWith V.Source store.old store.new result }
{
    if let Some(next) = kept_lines(alloc, kept, cursor, wanted)? {
        return Ok(next);
    }
    let count = count_of(routes);
    let mut lines = Vec::new(alloc);
    let mut place = cursor.place;
    while place.route < count && lines.len() < wanted {
        let stop = Stop {
            named: &routes[place.route as usize],
            place,
            most: wanted - lines.len(),
        };
        place = push_lines(alloc, store, cursor, &stop, kept, &mut lines)?;
    }
    Ok(NextLines { lines, place })
}

/// The next lines of a cursor, where all of them are kept and its route has more after them.
fn kept_lines(
    alloc: Global,
    kept: &Option<KeptLines>,
    cursor: &Cursor,
    wanted: usize,
) -> Result<Option<NextLines>, AllocError>
    ensures { IfOk result (λ some. IfSome some (λ next. (versions : ℕ → SeenVersion) → IfSome kept.now (AreFormed (versions cursor.now.version) cursor.now.plan cursor.now.method)
        → GivesWanted wanted (lines_left versions cursor.now) (rows_of next.lines.items) (lines_left versions (record cursor.now { place = next.place })))) }
{
    let place = cursor.place;
    if let Some(from) = kept_at(kept, place) {
        let after = from.all.saturating_sub(place.given);
        if wanted <= from.lines.len() && (wanted as u64) < after {
            let mut lines = Vec::new(alloc);
            let to = push_kept(&from, place, wanted, &mut lines)?;
            return Ok(Some(NextLines { lines, place: to }));
        }
    }
    Ok(None)
}

/// A route that lines are given of.
#[derive(Clone, Copy)]
struct Stop<'a> {
    /// The route.
    named: &'a NamedRoute,
    /// The place from which they are given, on this route.
    place: Place,
    /// How many are wanted.
    most: usize,
}

/// Appends lines of a route from a place on, no more than are wanted: those that are kept there, or else by an evaluation. Answers the
/// place after them.
fn push_lines<V: Versions>(
    alloc: Global,
    store: &mut V,
    cursor: &Cursor,
    stop: &Stop<'_>,
    kept: &mut Option<KeptLines>,
    lines: &mut Vec<String>,
) -> Result<Place, Refusal>
    requires next { stop.now.place.route + 1 < 2 ^ 32 }
    requires some { 0 < stop.now.most }
    ensures gives { IfOk result (λ to. GivesLines (λ shown. IsStopOf (V.shows store.old) cursor.now stop.now.place stop.now.named.now shown
        × IfSome kept.old (AreFormed shown cursor.now.plan cursor.now.method)) cursor.now stop.now.place to (rows_of lines.old.items) (rows_of lines.new.items)) }
    ensures keeps { (shown : SeenVersion) → IsStopOf (V.shows store.old) cursor.now stop.now.place stop.now.named.now shown
        → IfSome kept.old (AreFormed shown cursor.now.plan cursor.now.method) → IfSome kept.new (AreFormed shown cursor.now.plan cursor.now.method) }
    ensures goes_on { IfOk result (λ to. GoesOn stop.now.place to stop.now.most (vec_len lines.old) (vec_len lines.new)) }
    ensures ends { EndsWith V.Source store.old store.new result }
{
    if let Some(from) = kept_at(kept, stop.place) {
        return Ok(push_kept(&from, stop.place, stop.most, lines)?);
    }
    push_formed(alloc, store, cursor, stop, kept, lines)
}

/// Appends lines that are kept from a place on, no more than are wanted, and answers the place after them.
fn push_kept(
    from: &KeptFrom<'_>,
    place: Place,
    most: usize,
    lines: &mut Vec<String>,
) -> Result<Place, AllocError>
    requires next { from.now.all ≤ place.given + min most (length from.now.lines.now) → place.route + 1 < 2 ^ 32 }
    ensures gives { IfOk result (λ to. (versions : ℕ → SeenVersion) (cursor : Cursor)
        → AreLinesAt (versions cursor.version) cursor.plan cursor.method place from.now.all (rows_of from.now.lines.now)
        → GivesFrom (lines_left versions (record cursor { place = place })) (lines_left versions (record cursor { place = to })) (rows_of lines.old.items) (rows_of lines.new.items)) }
    ensures count { IfOk result (λ to. vec_len lines.new ≡ vec_len lines.old + min most (length from.now.lines.now)) }
    ensures goes_on { IfOk result (λ to. 0 < most → (place.given < from.now.all → 0 < length from.now.lines.now) → GoesOn place to most (vec_len lines.old) (vec_len lines.new)) }
{
    let part = &from.lines[..most.min(from.lines.len())];
    push_copies(part, lines)?;
    Ok(place_after(place, part.len(), from.all))
}

/// Evaluates a route, from a mark on where one of it is kept, and appends its lines from a place on, no more than are wanted. Lines after
/// them are kept in place of others. Answers the place after those that were appended.
fn push_formed<V: Versions>(
    alloc: Global,
    store: &mut V,
    cursor: &Cursor,
    stop: &Stop<'_>,
    kept: &mut Option<KeptLines>,
    lines: &mut Vec<String>,
) -> Result<Place, Refusal>
    requires next { stop.now.place.route + 1 < 2 ^ 32 }
    requires some { 0 < stop.now.most }
    ensures gives { IfOk result (λ to. GivesLines (λ shown. IsStopOf (V.shows store.old) cursor.now stop.now.place stop.now.named.now shown
        × IfSome kept.old (AreFormed shown cursor.now.plan cursor.now.method)) cursor.now stop.now.place to (rows_of lines.old.items) (rows_of lines.new.items)) }
    ensures keeps { (shown : SeenVersion) → IsStopOf (V.shows store.old) cursor.now stop.now.place stop.now.named.now shown
        → IfSome kept.old (AreFormed shown cursor.now.plan cursor.now.method) → IfSome kept.new (AreFormed shown cursor.now.plan cursor.now.method) }
    ensures goes_on { IfOk result (λ to. GoesOn stop.now.place to stop.now.most (vec_len lines.old) (vec_len lines.new)) }
    ensures ends { EndsWith V.Source store.old store.new result }
{
    let mark = mark_on(kept, stop.place);
    *kept = None;
    let asked = PlanAt {
        plan: &cursor.plan,
        method: cursor.method,
        version: cursor.version,
    };
    let portion = Portion {
        skip: stop.place.given as usize,
        most: stop.most,
        ahead: KEPT_BYTES,
    };
    let rest = push_route_lines(alloc, store, &asked, stop.named, portion, mark, lines)?;
    let all = rest.all as u64;
    let to = place_after(stop.place, stop.most, all);
    if to.route == stop.place.route {
        *kept = Some(KeptLines {
            route: to.route,
            first: to.given,
            all,
            lines: rest.ahead,
            mark: rest.mark,
            next: rest.next,
        });
    }
    Ok(to)
}

/// The mark that is kept of the route at this place, if one is.
fn mark_on(kept: &Option<KeptLines>, place: Place) -> Option<Mark>
    ensures { IfSome result (λ mark. (shown : SeenVersion) (plan : Plan) (method : Method) (named : NamedRoute) → IsRouteAt shown place.route named
        → IfSome kept.now (AreFormed shown plan method) → IsMarked shown plan named.route mark) }
{
    match kept {
        Some(one) => one.mark_at(place),
        None => None,
    }
}

/// How many routes there are, or 4,294,967,295 where there are more: a store shows far fewer.
fn count_of(routes: &[NamedRoute]) -> u32
    ensures { result ≡ min (length routes.now) (2 ^ 32 - 1) }
{
    routes.len().min(u32::MAX as usize) as u32
}

/// The place after at most so many lines more of its route, which has so many in all.
fn place_after(place: Place, most: usize, all: u64) -> Place
    requires { all ≤ place.given + most → place.route + 1 < 2 ^ 32 }
    ensures stays { place.given + most < all → result ≡ record place { given = place.given + most } }
    ensures moves_on { all ≤ place.given + most → result ≡ record { route = place.route + 1; given = place.given - all } }
{
    let left = all.saturating_sub(place.given);
    if (most as u64) < left {
        Place {
            route: place.route,
            given: place.given + most as u64,
        }
    } else {
        Place {
            route: place.route + 1,
            given: place.given.saturating_sub(all),
        }
    }
}
