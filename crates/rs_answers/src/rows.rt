//! The lines of a query, its runs on one route after another.
//!
//! It promises the machine's lines in each state that the source stands for.

ghost use Rattle.std.specs.Prelude.{◌≡◌, ◌++◌, true, OnOk, IfOk, Some};
ghost use Rattle.std.specs.FinMap as names;
ghost use Rattle.rs_facts.specs.Query.{Query};
ghost use Rattle.rs_machine.specs.State.{State};
ghost use Rattle.rs_machine.specs.Step.{lines_on, lines_of};
ghost use Rattle.rs_serve.specs.ReplyView.{rows_of};
ghost use Rattle.rs_exec.specs.Leaving.{EndsWith};
ghost use Rattle.rs_exec.specs.Meaning.{kind_in, is_well_formed};
ghost use Rattle.rs_answers.specs.Plans.{IsPlanFor};
ghost use Rattle.rs_answers.specs.Standing.{StandsAt};

use crate::memory::{InMemory, PlannedQuery};
use crate::printer::PositionPrinter;
use crate::routes::visited_routes;
use crate::row_text::push_lines;
use crate::runs::runs_on;
use rs_catalog::NamedRoute;
use rs_machine_laws::printed::rows_lie_on_routes;
use rs_methods::Method;
use rs_refusal::Refusal;
use std::alloc::Global;

/// The lines of a planned query on all routes, by route name, then by place, then by row, their positions printed by the
/// method. Where windows leave one route alone, no other is looked at. The source tells why the lines are refused.
pub fn lines<E: InMemory>(
    alloc: Global,
    e: &mut E,
    asked: &PlannedQuery<'_>,
    method: Method,
) -> Result<Vec<String>, Refusal>
    requires formed { is_well_formed asked.now.plan.now ≡ true }
    requires kind { asked.now.kind ≡ kind_in asked.now.plan.now }
    ensures lines { IfOk result (λ rows. (query : Query) → IsPlanFor (E.definitions e.old) query asked.now.plan.now
        → (state : State) → StandsAt E.is E.definitions E.held_referents asked.now.version e.old state → rows_of rows.items ≡ lines_of state query method) }
    ensures ends { EndsWith E.Source e.old e.new result }
{
    let routes = visited_routes(alloc, e.catalog(), asked.plan)?;
    let mut rows = Vec::new(alloc);
    for named in &routes {
        push_rows(alloc, e, asked, method, named, &mut rows)?;
    }
    Ok(rows)
}

/// Appends the lines of a planned query on one route.
fn push_rows<E: InMemory>(
    alloc: Global,
    e: &mut E,
    asked: &PlannedQuery<'_>,
    method: Method,
    named: &NamedRoute,
    rows: &mut Vec<String>,
) -> Result<(), Refusal>
    requires formed { is_well_formed asked.now.plan.now ≡ true }
    requires kind { asked.now.kind ≡ kind_in asked.now.plan.now }
    ensures lines { OnOk result ((query : Query) → IsPlanFor (E.definitions e.old) query asked.now.plan.now
        → names.get (E.definitions e.old).routes named.now.name.bytes ≡ Some named.now.route
        → (state : State) → StandsAt E.is E.definitions E.held_referents asked.now.version e.old state
        → rows_of rows.new.items ≡ rows_of rows.old.items ++ lines_on state query method named.now.name.bytes named.now.route.ends) }
    ensures ends { EndsWith E.Source e.old e.new result }
{
    rows_lie_on_routes();
    let runs = runs_on(alloc, e, asked.plan, named.route.number(), asked.version)?;
    let printer = PositionPrinter {
        referents: e.referents(),
        name: &named.name,
        route: named.route,
        method,
    };
    Ok(push_lines(alloc, asked.kind, &printer, runs.as_slice(), rows)?)
}
