//! Totals: of each group of a query's rows, at how many places it holds and what a column adds up to.
//!
//! It promises the machine's line of each group, in the order of the groups, in each state that the source stands for.

ghost use Rattle.std.specs.Prelude.{◌≡◌, ◌≤◌, ◌<◌, ◌⊎◌, ◌++◌, ◌^◌, [], ◌∷◌, ℕ, true, List, Option, map, length, Some, Ok, Err, IfOk, IfErr, OnOk, string_bytes};
ghost use Rattle.std.specs.FinMap as names;
ghost use Rattle.rs_value.specs.declared.column.TheConstants.{COLUMNS};
ghost use Rattle.rs_facts.specs.Fact.{Name};
ghost use Rattle.rs_facts.specs.Query.{Column, Query};
ghost use Rattle.rs_facts.specs.Totals.{Along};
ghost use Rattle.rs_facts.specs.TotalText.{total_text};
ghost use Rattle.rs_syntax.specs.View.{column_tree, summed_tree};
ghost use Rattle.rs_machine.specs.Checking.{columns_in};
ghost use Rattle.rs_machine.specs.State.{State};
ghost use Rattle.rs_machine.specs.Step.{effect};
ghost use Rattle.rs_serve.specs.ReplyView.{rows_of};
ghost use Rattle.rs_total.specs.Totalling.{AreTotalsOf};
ghost use Rattle.rs_total.specs.Answer.{answered};
ghost use Rattle.rs_exec.specs.Leaving.{EndsWith, LeavesBehind};
ghost use Rattle.rs_exec.specs.Meaning.{kind_in, is_well_formed};
ghost use Rattle.rs_answers.specs.Plans.{IsPlanFor};
ghost use Rattle.rs_answers.specs.Standing.{StandsAt};
ghost use Rattle.rs_answers.specs.TotalColumns.{AreTotalColumns};
ghost use Rattle.rs_answers.specs.Totalled.{along_route, totals_of_query, HasTotalsOf};

use crate::memory::{InMemory, PlannedQuery};
use crate::routes::visited_routes;
use crate::runs::runs_on;
use rs_catalog::NamedRoute;
use rs_checker::{Columns, check_group, check_summed};
use rs_machine_laws::printed::rows_lie_on_routes;
use rs_methods::Name;
use rs_refusal::Refusal;
use rs_total::{Total, Totals, push_total};
use rs_value::Kind;
use std::alloc::{AllocError, Global};

/// The columns of totals by their places, the leftmost 0: those whose values make a group, and the one that is summed, if any.
#[derive(Drop)]
pub struct TotalColumns {
    /// Those whose values make a group.
    pub group: Vec<u8>,
    /// The one that is summed.
    pub summed: Option<u8>,
}

/// The columns of totals of a query with these columns; or the refusal of the groups' columns (22, 41), then of the column
/// summed (22, 33). One other refusal is for want of memory.
pub fn total_columns(
    alloc: Global,
    columns: &Columns,
    by: &[Name],
    summed: &Option<Name>,
) -> Result<TotalColumns, Refusal>
    ensures ok { IfOk result (AreTotalColumns (map column_tree columns.now.items) (map (λ name. name.bytes) by.now) (summed_tree summed.now)) }
    ensures few { IfOk result (λ made. length made.group.items ≤ COLUMNS) }
    ensures refused { IfErr result (λ refusal. (refusal ≡ Refusal.OutOfMemory)
        ⊎ ((query : Query) (state : State) → map column_tree columns.now.items ≡ columns_in state query
        → totals_of_query state query (map (λ name. name.bytes) by.now) (summed_tree summed.now) ≡ Err refusal)) }
{
    let group = check_group(alloc, columns, by)?;
    let summed = check_summed(columns, summed)?;
    Ok(TotalColumns { group, summed })
}

/// The line of each group of a planned query's rows, in the order of the groups; or the refusal of a total that is too large
/// (50). The source tells of all other refusals.
pub fn total_of<E: InMemory>(
    alloc: Global,
    e: &mut E,
    asked: &PlannedQuery<'_>,
    columns: TotalColumns,
) -> Result<Vec<String>, Refusal>
    requires formed { is_well_formed asked.now.plan.now ≡ true }
    requires kind { asked.now.kind ≡ kind_in asked.now.plan.now }
    ensures done { IfOk result (λ rows. (query : Query) → IsPlanFor (E.definitions e.old) query asked.now.plan.now
        → (state : State) → StandsAt E.is E.definitions E.held_referents asked.now.version e.old state
        → (seen : List Column) (by : List Name) (summed : Option Name) → AreTotalColumns seen by summed columns → seen ≡ columns_in state query
        → totals_of_query state query by summed ≡ Ok (effect (rows_of rows.items) (length (rows_of rows.items)) state)) }
    ensures refused { IfErr result (λ why. E.wants why e.old e.new ⊎ ((query : Query) → IsPlanFor (E.definitions e.old) query asked.now.plan.now
        → (state : State) → StandsAt E.is E.definitions E.held_referents asked.now.version e.old state
        → (seen : List Column) (by : List Name) (summed : Option Name) → AreTotalColumns seen by summed columns → seen ≡ columns_in state query
        → totals_of_query state query by summed ≡ Err why)) }
    ensures leaves { LeavesBehind E.Source e.old e.new }
{
    let totals = totals_of_routes(alloc, e, asked, columns.group, columns.summed)?;
    let totals = totals.finish(alloc)?;
    Ok(total_lines(alloc, asked.kind, totals.as_slice())?)
}

/// The totals of a planned query over all routes, by the columns at these places. Where windows leave one route alone, no
/// other is looked at.
fn totals_of_routes<E: InMemory>(
    alloc: Global,
    e: &mut E,
    asked: &PlannedQuery<'_>,
    group: Vec<u8>,
    column: Option<u8>,
) -> Result<Totals, Refusal>
    requires formed { is_well_formed asked.now.plan.now ≡ true }
    ensures totals { IfOk result (λ totals. (query : Query) → IsPlanFor (E.definitions e.old) query asked.now.plan.now
        → (state : State) → StandsAt E.is E.definitions E.held_referents asked.now.version e.old state → HasTotalsOf state query group.items column totals) }
    ensures ends { EndsWith E.Source e.old e.new result }
{
    let routes = visited_routes(alloc, e.catalog(), asked.plan)?;
    let mut totals = Totals::new(alloc, group, column);
    for named in &routes {
        add_rows(alloc, e, asked, named, &mut totals)?;
    }
    Ok(totals)
}

/// Adds the rows of a planned query on one route.
fn add_rows<E: InMemory>(
    alloc: Global,
    e: &mut E,
    asked: &PlannedQuery<'_>,
    named: &NamedRoute,
    totals: &mut Totals,
) -> Result<(), Refusal>
    requires formed { is_well_formed asked.now.plan.now ≡ true }
    ensures adds { OnOk result ((query : Query) → IsPlanFor (E.definitions e.old) query asked.now.plan.now
        → names.get (E.definitions e.old).routes named.now.name.bytes ≡ Some named.now.route
        → (state : State) → StandsAt E.is E.definitions E.held_referents asked.now.version e.old state
        → (by : List ℕ) (column : Option ℕ) (done : List Along) → length done < 2 ^ 31 → AreTotalsOf by column done totals.old
        → AreTotalsOf by column (done ++ along_route state query named.now.name.bytes named.now.route.ends ∷ []) totals.new) }
    ensures ends { EndsWith E.Source e.old e.new result }
{
    rows_lie_on_routes();
    let runs = runs_on(alloc, e, asked.plan, named.route.number(), asked.version)?;
    Ok(totals.add_route(runs.as_slice())?)
}

/// The line of each total.
fn total_lines(alloc: Global, kind: Kind, totals: &[Total]) -> Result<Vec<String>, AllocError>
    ensures { IfOk result (λ rows. rows_of rows.items ≡ map (total_text kind) (map answered totals.now)) }
{
    let mut rows = Vec::with_capacity(alloc, totals.len())?;
    for total in totals {
        rows.push(total_line(alloc, kind, total)?)?;
    }
    Ok(rows)
}

/// The line of one total.
fn total_line(alloc: Global, kind: Kind, total: &Total) -> Result<String, AllocError>
    ensures { IfOk result (λ text. string_bytes text ≡ total_text kind (answered total.now)) }
{
    let mut text = String::new(alloc);
    push_total(&mut text, kind, total)?;
    Ok(text)
}
