//! The lines of a plan on one route at a version.
//!
//! It promises those that the version shows, and forms no line that isn't asked for.

ghost use Rattle.std.specs.Prelude.{◌≡◌, ◌≤◌, ◌+◌, ◌-◌, ◌++◌, drop, length, map, min, true, IfOk, IfSome, OnOk, Some, vec_len};
ghost use Rattle.std.specs.FinMap as names;
ghost use Rattle.rs_answers.specs.Portions.{lines_printed, portion_of, room_of, GivesPortion, IsStart};
ghost use Rattle.rs_answers.specs.Resumed.{IsMarked};
ghost use Rattle.rs_answers.specs.Routes.{entry_of};
ghost use Rattle.rs_answers.specs.Versions.{SeenVersion, LiesOnRoutes, lines_seen_on};
ghost use Rattle.rs_exec.specs.Leaving.{EndsWith};
ghost use Rattle.rs_exec.specs.Meaning.{is_well_formed};
ghost use Rattle.rs_facts.specs.Spans.{seen};
ghost use Rattle.rs_serve.specs.ReplyView.{rows_of};

use crate::printer::PositionPrinter;
use crate::resuming::{Mark, mark_before, runs_after};
use crate::row_text::{lines_within, push_lines};
use crate::versions::Versions;
use rs_catalog::NamedRoute;
use rs_exec::kind_of;
use rs_facts::Span;
use rs_methods::Method;
use rs_plan::Plan;
use rs_refusal::Refusal;
use std::alloc::Global;

/// A plan, the version that it is evaluated at, and how the positions of its lines are printed.
#[derive(Clone, Copy)]
pub struct PlanAt<'a> {
    /// The plan.
    pub plan: &'a Plan,
    /// How positions are printed.
    pub method: Method,
    /// The version.
    pub version: u64,
}

/// A portion of the lines of a route: after so many, at most so many, and how far lines after them may be formed ahead.
#[derive(Clone, Copy)]
pub struct Portion {
    /// How many are skipped.
    pub skip: usize,
    /// How many are wanted.
    pub most: usize,
    /// How many bytes the lines after them may take.
    pub ahead: usize,
}

/// What a route has beside a portion of its lines.
#[derive(Drop)]
pub struct RouteRest {
    /// How many lines the route has in all.
    pub all: usize,
    /// The first lines after the portion, as many as were formed ahead.
    pub ahead: Vec<String>,
    /// A mark at the last line of the portion, from which those after it may be evaluated.
    pub mark: Mark,
    /// The same at the last line that was formed ahead.
    pub next: Mark,
}

/// Appends a portion of the lines of a plan on one route at a version, and answers how many lines the route has in all, with some of
/// those after the portion. Where the portion is empty, or there is too little memory for lines after it, none of them is formed. A mark
/// spares the evaluation of what lies before it. The source tells why it is refused; then some of the lines may have been appended.
pub fn push_route_lines<V: Versions>(
    alloc: Global,
    source: &mut V,
    asked: &PlanAt<'_>,
    named: &NamedRoute,
    portion: Portion,
    mark: Option<Mark>,
    rows: &mut Vec<String>,
) -> Result<RouteRest, Refusal>
    requires formed { is_well_formed asked.now.plan.now ≡ true }
    ensures gives { IfOk result (λ rest. (shown : SeenVersion) → V.shows source.old asked.now.version shown → LiesOnRoutes shown asked.now.plan.now
        → names.get shown.routes named.now.name.bytes ≡ Some named.now.route → IfSome mark (IsMarked shown asked.now.plan.now named.now.route)
        → GivesPortion (lines_seen_on shown asked.now.plan.now asked.now.method (entry_of named.now)) portion (rows_of rows.old.items) (rows_of rows.new.items) rest) }
    ensures marks { IfOk result (λ rest. (shown : SeenVersion) → V.shows source.old asked.now.version shown → LiesOnRoutes shown asked.now.plan.now
        → names.get shown.routes named.now.name.bytes ≡ Some named.now.route → IfSome mark (IsMarked shown asked.now.plan.now named.now.route)
        → IsMarked shown asked.now.plan.now named.now.route rest.mark × IsMarked shown asked.now.plan.now named.now.route rest.next) }
    ensures count { IfOk result (λ rest. vec_len rows.new ≡ vec_len rows.old + min portion.most (rest.all - portion.skip)) }
    ensures room { IfOk result (λ rest. room_of rest.ahead.items ≤ portion.ahead) }
    ensures ends { EndsWith V.Source source.old source.new result }
{
    let found = runs_after(alloc, source, asked, named, mark, portion)?;
    let of_found = Portion {
        skip: portion.skip.saturating_sub(found.mark.before),
        most: portion.most,
        ahead: portion.ahead,
    };
    let parts = RunParts {
        wanted: portion_of(found.runs.as_slice(), of_found),
        after: rest_of(found.runs.as_slice(), of_found),
        room: portion.ahead,
    };
    let ahead = push_shown(alloc, source, asked, named, &parts, rows)?;
    let upto = of_found.skip.saturating_add(portion.most);
    Ok(RouteRest {
        all: found.mark.all,
        mark: mark_before(&found, upto),
        next: mark_before(&found, upto.saturating_add(ahead.len())),
        ahead,
    })
}

/// Runs of one route whose lines are wanted, those after them, and how many bytes the lines of these may take.
#[derive(Clone, Copy)]
struct RunParts<'a> {
    wanted: &'a [Span],
    after: &'a [Span],
    room: usize,
}

/// Appends the lines of the wanted runs of one route, printed by the referents of the version, and answers lines of the runs after
/// them. Where none are wanted, no referents are read.
fn push_shown<V: Versions>(
    alloc: Global,
    source: &mut V,
    asked: &PlanAt<'_>,
    named: &NamedRoute,
    parts: &RunParts<'_>,
    rows: &mut Vec<String>,
) -> Result<Vec<String>, Refusal>
    ensures printed { OnOk result ((shown : SeenVersion) → V.shows source.old asked.now.version shown
        → rows_of rows.new.items ≡ rows_of rows.old.items ++ lines_printed shown asked.now.plan.now asked.now.method named.now (map seen parts.now.wanted.now)) }
    ensures ahead { IfOk result (λ ahead. (shown : SeenVersion) → V.shows source.old asked.now.version shown
        → IsStart (rows_of ahead.items) (lines_printed shown asked.now.plan.now asked.now.method named.now (map seen parts.now.after.now))) }
    ensures count { OnOk result (vec_len rows.new ≡ vec_len rows.old + length parts.now.wanted.now) }
    ensures room { IfOk result (λ ahead. room_of ahead.items ≤ parts.now.room) }
    ensures ends { EndsWith V.Source source.old source.new result }
{
    if parts.wanted.is_empty() {
        return Ok(Vec::new(alloc));
    }
    let referents = source.referents_at(alloc, named.route.number(), asked.version)?;
    let printer = PositionPrinter {
        referents: &referents,
        name: &named.name,
        route: named.route,
        method: asked.method,
    };
    let kind = kind_of(asked.plan);
    push_lines(alloc, kind, &printer, parts.wanted, rows)?;
    let ahead = lines_within(alloc, kind, &printer, parts.after, parts.room);
    Ok(ahead.unwrap_or(Vec::new(alloc)))
}

/// A portion of a list of runs.
fn portion_of(runs: &[Span], portion: Portion) -> &[Span]
    ensures { result.now ≡ portion_of portion runs.now }
{
    let left = &runs[portion.skip.min(runs.len())..];
    &left[..portion.most.min(left.len())]
}

/// The runs after a portion of a list.
fn rest_of(runs: &[Span], portion: Portion) -> &[Span]
    ensures { result.now ≡ drop (portion.skip + portion.most) runs.now }
{
    let before = portion.skip.saturating_add(portion.most);
    &runs[before.min(runs.len())..]
}
