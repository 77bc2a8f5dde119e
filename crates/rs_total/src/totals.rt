//! Totals, route after route.
//!
//! They keep the numbers of each group; the answer is that of the definition for the routes that were added.

ghost use Rattle.std.specs.Prelude.{◌≡◌, ◌<◌, ◌^◌, ℕ, ◌⊎◌, Option, List, [], ◌∷◌, ◌++◌, length, map, Ok, Err, IfOk, IfErr, OnOk, IsOk, true, false};
ghost use Rattle.std.specs.FinMap.Entries.{is_sorted};
ghost use Rattle.rs_refusal.specs.declared.refusal.Refusal.TheVariants.{OutOfMemory, TotalTooLarge};
ghost use Rattle.rs_value.specs.declared.column.Kind.{Kind};
ghost use Rattle.rs_value.specs.Row.{row_cmp};
ghost use Rattle.rs_facts.specs.Spans.{seen};
ghost use Rattle.rs_facts.specs.Totals.{Along, totalled};
ghost use Rattle.rs_total.specs.Answer.{answered, total_kept, some_passed, AreOfGroups};
ghost use Rattle.rs_total.specs.Totalling.{AreRunsAlong, AreTotalsOf};

use crate::groups::add_spans;
use crate::numbers::Numbers;
use crate::total::{Sum, Total};
use rs_facts::Span;
use rs_refusal::Refusal;
use rs_value::KeptRow;
use std::alloc::{AllocError, Global};
use std::collections::BTreeMap;
use std::marker::Model;

/// How many thousandths each route has on the line of all routes.
const ROUTE_PLACES: u64 = 4_294_967_296;

/// The totals of the groups of a query's rows, after some routes.
#[derive(Drop)]
pub struct Totals {
    alloc: Global,
    by: Vec<u8>,
    summed: Option<u8>,
    start: u64,
    groups: BTreeMap<KeptRow, Numbers>,
}

impl Model for Totals {
    ghost use Rattle.rs_total.specs.Tally.{Tally};

    ghost Value = { Tally };

    ghost view = { λ t. record { by = t.by.items; summed = t.summed; start = t.start; groups = t.groups.entries } };
}

impl Totals {
    /// Of no route yet. The columns of `by`, by their places, make a group; the column of `summed` is summed, if any.
    /// It takes no memory.
    pub fn new(alloc: Global, by: Vec<u8>, summed: Option<u8>) -> Self
        ensures { AreTotalsOf by.items summed [] result }
    {
        Totals {
            alloc,
            by,
            summed,
            start: 0,
            groups: BTreeMap::new(alloc),
        }
    }

    /// Adds the runs of the rows along one route, by place and then by row. The sums are exact for 2^31 routes of fewer
    /// than 2^32 thousandths each. After want of memory the totals stand for no routes.
    pub fn add_route(&mut self, runs: &[Span]) -> Result<(), AllocError>
        ensures { OnOk result ((kind : Kind) (by : List ℕ) (column : Option ℕ) (routes : List Along) (route : Along) → length routes < 2 ^ 31
            → AreTotalsOf by column routes self.old → AreRunsAlong kind route (map seen runs.now)
            → AreTotalsOf by column (routes ++ route ∷ []) self.new) }
    {
        add_spans(
            self.alloc,
            &mut self.groups,
            self.by.as_slice(),
            self.summed,
            self.start,
            runs,
        )?;
        self.start = self.start.saturating_add(ROUTE_PLACES);
        Ok(())
    }

    /// The total of each group that has a fact, in the order of the groups. Where the sizes of some group's values
    /// passed the limit, `Refusal::TotalTooLarge` (50), whatever memory is left. The one other refusal is for want of
    /// memory, where no group passed it. (`add_route` comes first and takes memory for each new group.)
    pub fn finish(self, alloc: Global) -> Result<Vec<Total>, Refusal>
        ensures ok { IfOk result (λ totals. (by : List ℕ) (column : Option ℕ) (routes : List Along) → AreTotalsOf by column routes self
            → totalled by column routes ≡ Ok (map answered totals.items)) }
        ensures refused { IfErr result (λ refusal. (refusal ≡ OutOfMemory) ⊎ ((refusal ≡ TotalTooLarge)
            × ((by : List ℕ) (column : Option ℕ) (routes : List Along) → AreTotalsOf by column routes self
            → totalled by column routes ≡ Err TotalTooLarge))) }
        ensures wanting { IfErr result (λ refusal. refusal ≡ OutOfMemory → (by : List ℕ) (column : Option ℕ) (routes : List Along)
            → AreTotalsOf by column routes self → IsOk (totalled by column routes)) }
    {
        totals_of(alloc, self.summed, self.groups)
    }
}

/// The totals of the groups, in their order; 50 where one of them passed the limit, before any memory is taken.
fn totals_of(
    alloc: Global,
    summed: Option<u8>,
    groups: BTreeMap<KeptRow, Numbers>,
) -> Result<Vec<Total>, Refusal>
    ensures ok { IfOk result (λ totals. AreOfGroups summed groups.entries (map answered totals.items)) }
    ensures refused { IfErr result (λ refusal. ((refusal ≡ OutOfMemory) × (some_passed summed groups.entries ≡ false))
        ⊎ ((refusal ≡ TotalTooLarge) × (some_passed summed groups.entries ≡ true))) }
    ensures sorted { is_sorted row_cmp groups.entries ≡ true }
{
    if passes_limit(summed, &groups) {
        return Err(Refusal::TotalTooLarge);
    }
    Ok(each_total(alloc, summed, groups)?)
}

/// Whether the sizes of some group's values passed the limit. It takes no memory.
fn passes_limit(summed: Option<u8>, groups: &BTreeMap<KeptRow, Numbers>) -> bool
    ensures passes { result ≡ some_passed summed groups.now.entries }
    ensures sorted { is_sorted row_cmp groups.now.entries ≡ true }
{
    groups
        .values()
        .any(|numbers| summed.is_some() && numbers.sizes.is_none())
}

/// The total of each group, in their order.
fn each_total(
    alloc: Global,
    summed: Option<u8>,
    groups: BTreeMap<KeptRow, Numbers>,
) -> Result<Vec<Total>, AllocError>
    ensures all { IfOk result (λ totals. map answered totals.items ≡ map (λ e. total_kept summed e.0 e.1) groups.entries) }
{
    let mut totals = Vec::with_capacity(alloc, groups.len())?;
    for (group, numbers) in groups {
        totals.push(total_of(summed, group, numbers))?;
    }
    Ok(totals)
}

/// The total of a group, without a sum where the sizes of its values passed the limit.
fn total_of(summed: Option<u8>, group: KeptRow, numbers: Numbers) -> Total
    ensures { answered result ≡ total_kept summed group numbers }
{
    let sum = match (summed, numbers.sizes) {
        (Some(_), Some(sizes)) => Some(Sum {
            weight: numbers.weight,
            above_zero: sizes.above,
            below_zero: sizes.below,
        }),
        _ => None,
    };
    Total {
        group,
        places: numbers.places,
        sum,
    }
}
