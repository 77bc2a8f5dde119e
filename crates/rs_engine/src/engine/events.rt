//! The commands that put a row into a table and that take rows away.

ghost use Rattle.rs_engine.specs.Replied.{count_reply_of};
ghost use Rattle.rs_engine.specs.Clearing.{ByChange, ServesClearing};
ghost use Rattle.rs_engine.specs.Staying.{LeavesCursors};
ghost use Rattle.rs_machine.specs.Step.{row_inserted, rows_removed};
ghost use Rattle.rs_syntax.specs.QueryView.{window_tree};
ghost use Rattle.rs_syntax.specs.Sound.{IsSound};
ghost use Rattle.rs_syntax.specs.Tree as tree;
ghost use Rattle.rs_syntax.specs.View.{location_tree, removal_tree};
ghost use Rattle.rs_value.specs.View.{literal_row};

use crate::engine::Engine;
use crate::engine::laws::stores_have_their_laws;
use rs_disk::Disk;
use rs_machine_laws::lawful::accepted_step_leaves_the_state_lawful;
use rs_methods::Name;
use rs_refusal::Refusal;
use rs_store_source::rs_store::Section;
use rs_syntax::{Atom, EventLocation, Window};
use rs_value::Literal;

impl<D: Disk> Engine<D> {
    /// Puts a row along a span or at a point. Checks, in order: 20; 21; 25, 30; 31; 32; 33; 34; 27. Its answer is how many facts are new.
    pub(crate) fn insert(
        &mut self,
        table: &Name,
        route: &Name,
        place: &EventLocation,
        values: &[Literal],
    ) -> Result<u128, Refusal>
        requires sound { IsSound (tree.insert table.now.bytes route.now.bytes (location_tree place.now) (literal_row values.now)) }
        ensures serves { ServesClearing D.Disk ByChange (λ state. row_inserted state table.now.bytes route.now.bytes (location_tree place.now) (literal_row values.now)) (count_reply_of result) self.old self.new }
        ensures leaves { LeavesCursors D.Disk result self.old self.new }
    {
        stores_have_their_laws::<D>();
        accepted_step_leaves_the_state_lawful();
        let insertion = self
            .checks()
            .checked_insertion(table, route, place, values)?;
        let oldest = self.oldest();
        let new_facts = self.live.store.insert(
            self.alloc,
            oldest,
            insertion.table,
            insertion.kind,
            insertion.route,
            insertion.span,
        )?;
        self.live.oldest = oldest;
        Ok(u128::from(new_facts))
    }

    /// Takes the rows that meet a condition away, all rows where none is written, inside a window. Checks, in order: 20; 21; 25, 30; 31;
    /// the condition (22, 33); 27. Its answer is how many facts went.
    pub(crate) fn remove(
        &mut self,
        table: &Name,
        window: &Window,
        condition: &Option<Vec<Vec<Atom>>>,
    ) -> Result<u128, Refusal>
        requires sound { IsSound (tree.remove table.now.bytes (window_tree window.now) (removal_tree condition.now)) }
        ensures serves { ServesClearing D.Disk ByChange (λ state. rows_removed state table.now.bytes (window_tree window.now) (removal_tree condition.now)) (count_reply_of result) self.old self.new }
        ensures leaves { LeavesCursors D.Disk result self.old self.new }
    {
        stores_have_their_laws::<D>();
        accepted_step_leaves_the_state_lawful();
        let removal = self.checks().checked_removal(table, window, condition)?;
        let section = Section {
            lo: removal.lo,
            hi: removal.hi,
        };
        let oldest = self.oldest();
        let gone = self.live.store.remove(
            self.alloc,
            oldest,
            removal.table,
            removal.route,
            section,
            removal.goes,
        )?;
        self.live.oldest = oldest;
        Ok(gone)
    }
}
