//! The commands that define, move and drop a referent of a route.

ghost use Rattle.rs_engine.specs.Clearing.{ByChange, ServesClearing};
ghost use Rattle.rs_machine.specs.Step.{referent_defined, referent_dropped, referent_moved};
ghost use Rattle.rs_methods.specs.Position.{expression_of};
ghost use Rattle.rs_engine.specs.Replied.{count_reply_of};
ghost use Rattle.rs_engine.specs.Staying.{LeavesCursors};
ghost use Rattle.rs_syntax.specs.Sound.{IsSound};
ghost use Rattle.rs_syntax.specs.Tree as tree;

use crate::engine::Engine;
use crate::engine::laws::stores_have_their_laws;
use rs_disk::Disk;
use rs_machine_laws::lawful::accepted_step_leaves_the_state_lawful;
use rs_methods::{Name, Position};
use rs_refusal::Refusal;

impl<D: Disk> Engine<D> {
    /// Defines a referent at a position of its route. Checks, in order: 20; 25, 30; 24; 27.
    pub(crate) fn define_referent(
        &mut self,
        route: &Name,
        name: Name,
        position: &Position,
    ) -> Result<u128, Refusal>
        requires sound { IsSound (tree.define_referent route.now.bytes name.bytes (expression_of position.now)) }
        ensures serves { ServesClearing D.Disk ByChange (λ state. referent_defined state route.now.bytes name.bytes (expression_of position.now)) (count_reply_of result) self.old self.new }
        ensures leaves { LeavesCursors D.Disk result self.old self.new }
    {
        stores_have_their_laws::<D>();
        accepted_step_leaves_the_state_lawful();
        let measure = self.checks().place_of_new_referent(route, &name, position)?;
        let oldest = self.oldest();
        self.live
            .store
            .put_referent(self.alloc, oldest, route, name, measure)?;
        self.live.oldest = oldest;
        Ok(0)
    }

    /// Moves a referent to a position of its route. Checks, in order: 20; 25; 23; 25, 30; 27.
    pub(crate) fn move_referent(
        &mut self,
        route: &Name,
        name: Name,
        position: &Position,
    ) -> Result<u128, Refusal>
        requires sound { IsSound (tree.move_referent route.now.bytes name.bytes (expression_of position.now)) }
        ensures serves { ServesClearing D.Disk ByChange (λ state. referent_moved state route.now.bytes name.bytes (expression_of position.now)) (count_reply_of result) self.old self.new }
        ensures leaves { LeavesCursors D.Disk result self.old self.new }
    {
        stores_have_their_laws::<D>();
        accepted_step_leaves_the_state_lawful();
        let measure = self
            .checks()
            .place_of_moved_referent(route, &name, position)?;
        let oldest = self.oldest();
        self.live
            .store
            .put_referent(self.alloc, oldest, route, name, measure)?;
        self.live.oldest = oldest;
        Ok(0)
    }

    /// Drops a referent of a route. Checks, in order: 20; 25; it is START or a view's window lies by it (23); 27.
    pub(crate) fn drop_referent(&mut self, route: &Name, name: &Name) -> Result<u128, Refusal>
        requires sound { IsSound (tree.drop_referent route.now.bytes name.now.bytes) }
        ensures serves { ServesClearing D.Disk ByChange (λ state. referent_dropped state route.now.bytes name.now.bytes) (count_reply_of result) self.old self.new }
        ensures leaves { LeavesCursors D.Disk result self.old self.new }
    {
        stores_have_their_laws::<D>();
        accepted_step_leaves_the_state_lawful();
        self.checks().check_old_referent(route, name)?;
        let oldest = self.oldest();
        self.live
            .store
            .drop_referent(self.alloc, oldest, route, name)?;
        self.live.oldest = oldest;
        Ok(0)
    }
}
