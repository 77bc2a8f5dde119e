//! The commands that answer lines: a position in another method, the runs of a query, its totals, and its plan.
//!
//! It promises the machine's lines in their order, or names a want. Nothing changes.

ghost use Rattle.std.specs.Prelude.{◌≡◌, ◌⊎◌, length, map, true, Ok, Err, IfErr, IfOk};
ghost use Rattle.rs_answers.specs.Counts.{HasIndexes};
ghost use Rattle.rs_answers.specs.Plans.{CanBePlanned, IsPlanFor};
ghost use Rattle.rs_answers.specs.Totalled.{totals_of_query};
ghost use Rattle.rs_checker.specs.Checks.{IsChecked};
ghost use Rattle.rs_checker.specs.CheckedView.{query_of};
ghost use Rattle.rs_exec.specs.Meaning.{is_well_formed, kind_in};
ghost use Rattle.rs_engine.specs.Kept.{IsMachine};
ghost use Rattle.rs_engine.specs.Reads.{ReadsEngine, WantsRead, counted_of};
ghost use Rattle.rs_engine.specs.Replied.{rows_reply_of};
ghost use Rattle.rs_engine.specs.Serving.{Serves};
ghost use Rattle.rs_machine.specs.Checking.{checked, columns_in};
ghost use Rattle.rs_machine.specs.Served.{Machine};
ghost use Rattle.rs_machine.specs.State.{State, world_of};
ghost use Rattle.rs_machine.specs.Step.{effect, lines_of, plan_printed, position_translated, selected, totals_printed};
ghost use Rattle.rs_methods.specs.Position.{expression_of};
ghost use Rattle.rs_planning.specs.Explain.{explained};
ghost use Rattle.rs_serve.specs.ReplyView.{rows_of};
ghost use Rattle.rs_syntax.specs.QueryView.{query_tree};
ghost use Rattle.rs_syntax.specs.View.{column_tree, summed_tree};

use crate::engine::Engine;
use crate::engine::laws::{
    engine_stands_for_its_state, plans_are_chosen_by_its_state, stores_have_their_laws,
};
use rs_answers::{
    PlannedQuery, explain_lines, lines, planned, planning_indexes, total_columns, total_of,
};
use rs_checker::Checked;
use rs_disk::Disk;
use rs_methods::{Method, Name, Position};
use rs_plan::{Counts, Index, Plan};
use rs_refusal::Refusal;
use rs_store_source::records_of;
use rs_store_source::rs_store::Store;
use rs_syntax::Query;
use std::alloc::AllocError;

/// What plans are chosen by: the records of a store that live, and its indexes.
#[derive(Drop)]
struct StoreCounts<'a, D: Disk> {
    store: &'a Store<D>,
    indexes: Vec<Index>,
}

impl<D: Disk> Counts for StoreCounts<'_, D> {
    ghost use Rattle.rs_engine.specs.Reads.{counted_of};

    ghost counted = { λ c. counted_of c.store.now c.indexes.items };

    fn records(&self, table: u32) -> u128 {
        records_of(self.store, table)
    }

    fn indexes(&self) -> &[Index] {
        self.indexes.as_slice()
    }
}

impl<D: Disk> Engine<D> {
    /// A position of a route in the method wanted, as one line (20; 25, 30).
    pub(crate) fn translate(
        &self,
        route: &Name,
        position: &Position,
        method: Method,
    ) -> Result<Vec<String>, Refusal>
        ensures serves { Serves D.Disk (λ (state : State). position_translated state route.now.bytes (expression_of position.now) method) (rows_reply_of result) self.now self.now }
    {
        stores_have_their_laws::<D>();
        self.checks().translate(route, position, method)
    }

    /// The lines of a query, by route name, then by place, then by row, their positions printed by the method; or the
    /// refusal of its checks.
    pub(crate) fn select(&mut self, query: &Query, method: Method) -> Result<Vec<String>, Refusal>
        ensures serves { Serves D.Disk (λ (state : State). selected state (query_tree query.now) method) (rows_reply_of result) self.old self.new }
        ensures reads { ReadsEngine D.Disk self.old self.new }
    {
        let checked = self.checked(query)?;
        self.lines_of_checked(checked, method)
    }

    /// The line of each group of a query's rows, in the order of the groups; or the refusal of its checks, of the groups'
    /// columns (22, 41), of the column summed (22, 33), or of a total that is too large (50).
    pub(crate) fn total(
        &mut self,
        query: &Query,
        by: &[Name],
        summed: &Option<Name>,
    ) -> Result<Vec<String>, Refusal>
        ensures serves { Serves D.Disk (λ (state : State). totals_printed state (query_tree query.now) (map (λ name. name.bytes) by.now) (summed_tree summed.now)) (rows_reply_of result) self.old self.new }
        ensures reads { ReadsEngine D.Disk self.old self.new }
    {
        let checked = self.checked(query)?;
        self.total_of_checked(checked, by, summed)
    }

    /// The lines of a query's plan, each node before its operands; or the refusal of the query's checks.
    pub(crate) fn explain(&self, query: &Query) -> Result<Vec<String>, Refusal>
        ensures serves { Serves D.Disk (λ (state : State). plan_printed state (query_tree query.now)) (rows_reply_of result) self.now self.now }
    {
        let checked = self.checked(query)?;
        self.lines_of_plan(checked)
    }

    /// The lines of the plan of a checked query. The only refusal is for want of memory.
    fn lines_of_plan(&self, checked: Checked) -> Result<Vec<String>, Refusal>
        requires can { CanBePlanned self.now.store.catalog checked }
        ensures lines { (machine : Machine) → IsMachine D.Disk self.now machine
            → IfOk result (λ rows. rows_of rows.items ≡ explained (world_of machine.state) machine.state.indexes (query_of checked.query)) }
        ensures wants { IfErr result (λ why. why ≡ Refusal.OutOfMemory) }
    {
        plans_are_chosen_by_its_state::<D>();
        let counts = self.counts()?;
        Ok(explain_lines(self.alloc, self.live.store.catalog(), checked, &counts)?)
    }

    /// The checked query, which can be planned; or the refusal of the first check that fails.
    pub fn checked(&self, query: &Query) -> Result<Checked, Refusal>
        ensures is { (machine : Machine) → IsMachine D.Disk self.now machine → IfOk result (IsChecked machine.state (query_tree query.now)) }
        ensures can { IfOk result (CanBePlanned self.now.store.catalog) }
        ensures refused { (machine : Machine) → IsMachine D.Disk self.now machine
            → IfErr result (λ why. (why ≡ Refusal.OutOfMemory) ⊎ (checked machine.state (query_tree query.now) ≡ Err why)) }
    {
        stores_have_their_laws::<D>();
        self.checks().checked(query)
    }

    /// The lines of a checked query on all routes.
    pub(crate) fn lines_of_checked(
        &mut self,
        checked: Checked,
        method: Method,
    ) -> Result<Vec<String>, Refusal>
        requires can { CanBePlanned self.old.store.catalog checked }
        ensures lines { (machine : Machine) → IsMachine D.Disk self.old machine
            → IfOk result (λ rows. rows_of rows.items ≡ lines_of machine.state (query_of checked.query) method) }
        ensures reads { ReadsEngine D.Disk self.old self.new }
        ensures wants { IfErr result (λ why. WantsRead D.Disk why self.old self.new) }
    {
        engine_stands_for_its_state::<D>();
        let alloc = self.alloc;
        let version = self.live.store.accepted();
        let kind = checked.kind;
        let plan = self.planned(checked)?;
        let asked = PlannedQuery {
            plan: &plan,
            kind,
            version,
        };
        lines(alloc, &mut self.live, &asked, method)
    }

    /// The totals of a checked query, one line each.
    fn total_of_checked(
        &mut self,
        checked: Checked,
        by: &[Name],
        summed: &Option<Name>,
    ) -> Result<Vec<String>, Refusal>
        requires can { CanBePlanned self.old.store.catalog checked }
        ensures done { (machine : Machine) → IsMachine D.Disk self.old machine → map column_tree checked.columns.items ≡ columns_in machine.state (query_of checked.query)
            → IfOk result (λ rows. totals_of_query machine.state (query_of checked.query) (map (λ name. name.bytes) by.now) (summed_tree summed.now)
            ≡ Ok (effect (rows_of rows.items) (length (rows_of rows.items)) machine.state)) }
        ensures refused { (machine : Machine) → IsMachine D.Disk self.old machine → map column_tree checked.columns.items ≡ columns_in machine.state (query_of checked.query)
            → IfErr result (λ why. WantsRead D.Disk why self.old self.new
            ⊎ (totals_of_query machine.state (query_of checked.query) (map (λ name. name.bytes) by.now) (summed_tree summed.now) ≡ Err why)) }
        ensures reads { ReadsEngine D.Disk self.old self.new }
    {
        engine_stands_for_its_state::<D>();
        let alloc = self.alloc;
        let version = self.live.store.accepted();
        let kind = checked.kind;
        let columns = total_columns(alloc, &checked.columns, by, summed)?;
        let plan = self.planned(checked)?;
        let asked = PlannedQuery {
            plan: &plan,
            kind,
            version,
        };
        total_of(alloc, &mut self.live, &asked, columns)
    }

    /// The plan of a checked query. The only refusal is for want of memory.
    pub(crate) fn planned(&self, checked: Checked) -> Result<Plan, AllocError>
        requires can { CanBePlanned self.now.store.catalog checked }
        ensures formed { IfOk result (λ plan. is_well_formed plan ≡ true) }
        ensures kind { IfOk result (λ plan. kind_in plan ≡ checked.kind) }
        ensures means { IfOk result (IsPlanFor self.now.store.catalog (query_of checked.query)) }
    {
        let counts = self.counts()?;
        planned(self.alloc, self.live.store.catalog(), checked, &counts)
    }

    /// What its plans are chosen by. The only refusal is for want of memory.
    fn counts(&self) -> Result<StoreCounts<'_, D>, AllocError>
        ensures store { IfOk result (λ counts. counts.store.now ≡ self.now.store) }
        ensures indexes { IfOk result (λ counts. HasIndexes self.now.store.catalog (counted_of counts.store.now counts.indexes.items)) }
    {
        let indexes = planning_indexes(self.alloc, self.live.store.catalog())?;
        Ok(StoreCounts {
            store: &self.live.store,
            indexes,
        })
    }
}
