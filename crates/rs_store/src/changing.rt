//! This module changes the rows of a store's tables: each call is one change of the state, whole or not at all.

ghost use Rattle.std.specs.Prelude.{◌≡◌, ◌≤◌, ◌<◌, ◌+◌, ℕ, IfOk, Some};
ghost use Rattle.std.specs.FinMap as names;
ghost use Rattle.rs_catalog.specs.Definitions.{IsFree};
ghost use Rattle.rs_spans.specs.Removal.{goes_by};
ghost use Rattle.rs_facts.specs.Fact.{Name};
ghost use Rattle.rs_facts.specs.Insert.{new_facts};
ghost use Rattle.rs_facts.specs.Query.{Table};
ghost use Rattle.rs_facts.specs.Remove.{removed_facts};
ghost use Rattle.rs_facts.specs.Spans.{seen};
ghost use Rattle.rs_machine.specs.Lawful.{IsLawful};
ghost use Rattle.rs_machine.specs.State.{State};
ghost use Rattle.rs_machine.specs.Step.{with_facts_along, with_table, without_facts};
ghost use Rattle.rs_machine.specs.declared.limits.TheConstants.{CHANGES};
ghost use Rattle.rs_store.specs.Changing.{Always, HasBecome, HaveNumbers, IsRowFor, LeavesStore, LiesOn};
ghost use Rattle.rs_store.specs.Kept.{StandsIn};

use crate::bracket::{begin_change, kept_change_gives_its_state, settle};
use crate::placing::numbered_place;
use crate::store::Store;
use rs_changes::rs_change_laws::rows::{row_put_gives_its_state, rows_taken_away_give_their_state};
use rs_changes::{Insertion, Removal};
use rs_disk::Disk;
use rs_facts::{Condition, Span};
use rs_refusal::Refusal;
use rs_value::Kind;
use std::alloc::Global;

/// A section of a route, in thousandths.
#[derive(Clone, Copy)]
pub struct Section {
    /// The first thousandth inside.
    pub lo: u32,
    /// The first thousandth after it.
    pub hi: u32,
}

impl<D: Disk> Store<D> {
    /// Puts a row along a span of a route, in thousandths, and answers how many facts are new. The table and the route are those of these
    /// numbers, and the table is of this kind. Versions from `oldest` on see what they saw. It is refused with 90, with 91, and with 92
    /// where the file is full; with 94 only where the disk does not give back what was written. A refusal changes nothing.
    pub fn insert(
        &mut self,
        alloc: Global,
        oldest: u64,
        table: u32,
        kind: Kind,
        route: u32,
        span: Span,
    ) -> Result<u64, Refusal>
        requires row { IsRowFor self.old.catalog table kind (seen span) }
        requires lies { LiesOn self.old.catalog kind route (seen span) }
        requires room { self.old.file.accepted < CHANGES }
        ensures leaves { LeavesStore D.Disk Always result self.old self.new }
        ensures inserts { (name on : Name) → HaveNumbers self.old.catalog name on table route
            → (from : ℕ) (state : State) (stands : StandsIn D.Disk from self.old state) → from ≤ oldest → oldest ≤ self.old.file.accepted + 1
            → (there : Table) → names.get state.tables name ≡ Some there
            → IsLawful (with_table state name (with_facts_along there on span.lo span.hi (seen span).row))
            → IfOk result (λ count. HasBecome D.Disk oldest stands.contents self.new (with_table state name (with_facts_along there on span.lo span.hi (seen span).row))
            × (count ≡ new_facts there.facts on span.lo span.hi (seen span).row)) }
    {
        kept_change_gives_its_state::<D>();
        row_put_gives_its_state();
        self.catalog.stand();
        let insertion = Insertion {
            table: numbered_place(&self.file, table),
            kind,
            route,
            span,
        };
        begin_change(&mut self.pager)?;
        let made = rs_changes::insert(alloc, &mut self.pager, &mut self.file, oldest, &insertion);
        settle(&mut self.pager, &mut self.file, made)
    }

    /// Takes the rows away on a section of a route that meet a condition, or all, and answers how many facts went. The table and the route
    /// are those of these numbers. It is refused as `insert` is.
    pub fn remove(
        &mut self,
        alloc: Global,
        oldest: u64,
        table: u32,
        route: u32,
        section: Section,
        goes: Option<Condition>,
    ) -> Result<u128, Refusal>
        requires table { IsFree (λ item. item.number) self.old.catalog.tables table → ⊥ }
        requires room { self.old.file.accepted < CHANGES }
        ensures leaves { LeavesStore D.Disk Always result self.old self.new }
        ensures removes { (name on : Name) → HaveNumbers self.old.catalog name on table route
            → (from : ℕ) (state : State) (stands : StandsIn D.Disk from self.old state) → from ≤ oldest → oldest ≤ self.old.file.accepted + 1
            → (there : Table) → names.get state.tables name ≡ Some there
            → IsLawful (with_table state name (without_facts there on section.lo section.hi (goes_by goes)))
            → IfOk result (λ count. HasBecome D.Disk oldest stands.contents self.new (with_table state name (without_facts there on section.lo section.hi (goes_by goes)))
            × (count ≡ removed_facts there.facts on section.lo section.hi (goes_by goes))) }
    {
        kept_change_gives_its_state::<D>();
        rows_taken_away_give_their_state();
        let removal = Removal {
            table: numbered_place(&self.file, table),
            route,
            lo: section.lo,
            hi: section.hi,
            goes,
        };
        begin_change(&mut self.pager)?;
        let made = rs_changes::remove(alloc, &mut self.pager, &mut self.file, oldest, &removal);
        settle(&mut self.pager, &mut self.file, made)
    }
}
