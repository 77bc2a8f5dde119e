//! The commands that drop a route, a table, an index, a view and an alignment.

ghost use Rattle.std.specs.Prelude.{IfErr, IfOk};
ghost use Rattle.rs_command_checks.specs.Facts.{TellsOfFacts};
ghost use Rattle.rs_engine.specs.Kept.{IsMachine};
ghost use Rattle.rs_engine.specs.Reads.{ReadsEngine, WantsRead};
ghost use Rattle.rs_engine.specs.Replied.{count_reply_of};
ghost use Rattle.rs_engine.specs.Clearing.{ByChange, IsServedClearing, ServesClearing};
ghost use Rattle.rs_engine.specs.Staying.{LeavesCursors};
ghost use Rattle.rs_machine.specs.Served.{Machine};
ghost use Rattle.rs_machine.specs.Step.{alignment_dropped, index_dropped, route_dropped, table_dropped, view_dropped};
ghost use Rattle.rs_syntax.specs.Sound.{IsSound};
ghost use Rattle.rs_syntax.specs.Tree as tree;

use crate::engine::Engine;
use crate::engine::laws::stores_have_their_laws;
use rs_disk::Disk;
use rs_machine_laws::lawful::accepted_step_leaves_the_state_lawful;
use rs_methods::Name;
use rs_refusal::Refusal;
use rs_store_source::has_facts_on;

impl<D: Disk> Engine<D> {
    /// Drops a route with its referents. Checks, in order: 20; a table has a fact on it, an alignment has a piece on it or a view's window
    /// is on it, or a session has a cursor (23); 27.
    pub(crate) fn drop_route(&mut self, name: &Name) -> Result<u128, Refusal>
        requires sound { IsSound (tree.drop_route name.now.bytes) }
        ensures serves { ServesClearing D.Disk ByChange (λ state. route_dropped state name.now.bytes) (count_reply_of result) self.old self.new }
        ensures leaves { LeavesCursors D.Disk result self.old self.new }
    {
        let has_facts = self.has_facts(name)?;
        self.take_route(name, has_facts)
    }

    /// Whether some table has a fact on the route of this name, where it is there.
    fn has_facts(&mut self, name: &Name) -> Result<bool, Refusal>
        ensures tells { (machine : Machine) → IsMachine D.Disk self.old machine → IfOk result (TellsOfFacts machine.state name.now.bytes) }
        ensures reads { ReadsEngine D.Disk self.old self.new }
        ensures wants { IfErr result (λ why. WantsRead D.Disk why self.old self.new) }
    {
        stores_have_their_laws::<D>();
        let Some(route) = self.live.store.catalog().route(name) else {
            return Ok(false);
        };
        has_facts_on(self.alloc, &mut self.live.store, route.number())
    }

    /// Drops a route, of which the caller says whether some table has a fact on it.
    fn take_route(&mut self, name: &Name, has_facts: bool) -> Result<u128, Refusal>
        requires sound { IsSound (tree.drop_route name.now.bytes) }
        ensures serves { (machine : Machine) (is : IsMachine D.Disk self.old machine) → TellsOfFacts machine.state name.now.bytes has_facts
            → IsServedClearing D.Disk ByChange (route_dropped machine.state name.now.bytes) machine is.stands.contents (count_reply_of result) self.new }
        ensures leaves { LeavesCursors D.Disk result self.old self.new }
    {
        stores_have_their_laws::<D>();
        accepted_step_leaves_the_state_lawful();
        self.checks().check_old_route(name, has_facts)?;
        let oldest = self.oldest();
        self.live.store.drop_route(self.alloc, oldest, name)?;
        self.live.oldest = oldest;
        Ok(0)
    }

    /// Drops a table with its facts and its indexes. Checks, in order: 21; a view names it, or a session has a cursor (23); 27.
    pub(crate) fn drop_table(&mut self, name: &Name) -> Result<u128, Refusal>
        requires sound { IsSound (tree.drop_table name.now.bytes) }
        ensures serves { ServesClearing D.Disk ByChange (λ state. table_dropped state name.now.bytes) (count_reply_of result) self.old self.new }
        ensures leaves { LeavesCursors D.Disk result self.old self.new }
    {
        stores_have_their_laws::<D>();
        accepted_step_leaves_the_state_lawful();
        self.checks().check_old_table(name)?;
        let oldest = self.oldest();
        self.live.store.drop_table(self.alloc, oldest, name)?;
        self.live.oldest = oldest;
        Ok(0)
    }

    /// Drops an index. Checks, in order: 21; a session has a cursor (23); 27.
    pub(crate) fn drop_index(&mut self, name: &Name) -> Result<u128, Refusal>
        requires sound { IsSound (tree.drop_index name.now.bytes) }
        ensures serves { ServesClearing D.Disk ByChange (λ state. index_dropped state name.now.bytes) (count_reply_of result) self.old self.new }
        ensures leaves { LeavesCursors D.Disk result self.old self.new }
    {
        stores_have_their_laws::<D>();
        accepted_step_leaves_the_state_lawful();
        self.checks().check_old_index(name)?;
        let oldest = self.oldest();
        self.live.store.drop_index(self.alloc, oldest, name)?;
        self.live.oldest = oldest;
        Ok(0)
    }

    /// Drops a view. Checks, in order: 21; a view names it (23); 27.
    pub(crate) fn drop_view(&mut self, name: &Name) -> Result<u128, Refusal>
        requires sound { IsSound (tree.drop_view name.now.bytes) }
        ensures serves { ServesClearing D.Disk ByChange (λ state. view_dropped state name.now.bytes) (count_reply_of result) self.old self.new }
        ensures leaves { LeavesCursors D.Disk result self.old self.new }
    {
        stores_have_their_laws::<D>();
        accepted_step_leaves_the_state_lawful();
        self.checks().check_old_view(name)?;
        let oldest = self.oldest();
        self.live.store.drop_view(self.alloc, oldest, name)?;
        self.live.oldest = oldest;
        Ok(0)
    }

    /// Drops an alignment. Checks, in order: 21; a view names it (23); 27.
    pub(crate) fn drop_alignment(&mut self, name: &Name) -> Result<u128, Refusal>
        requires sound { IsSound (tree.drop_alignment name.now.bytes) }
        ensures serves { ServesClearing D.Disk ByChange (λ state. alignment_dropped state name.now.bytes) (count_reply_of result) self.old self.new }
        ensures leaves { LeavesCursors D.Disk result self.old self.new }
    {
        stores_have_their_laws::<D>();
        accepted_step_leaves_the_state_lawful();
        self.checks().check_old_alignment(name)?;
        let oldest = self.oldest();
        self.live.store.drop_alignment(self.alloc, oldest, name)?;
        self.live.oldest = oldest;
        Ok(0)
    }
}
