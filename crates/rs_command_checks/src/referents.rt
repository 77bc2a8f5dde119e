//! The checks of a referent that is to be defined, moved or dropped.

ghost use Rattle.std.specs.Prelude.{◌≡◌, ◌<◌, ◌≢◌, true, false, Some, Ok, Err, IfOk, IfErr, OnOk};
ghost use Rattle.std.specs.FinMap as names;
ghost use Rattle.rs_methods.specs.Position.{start_name, expression_of};
ghost use Rattle.rs_facts.specs.Insert.{same_name};
ghost use Rattle.rs_machine.specs.State.{has};
ghost use Rattle.rs_machine.specs.Checks.{has_referent};
ghost use Rattle.rs_machine.specs.declared.limits.TheConstants.{CHANGES};
ghost use Rattle.rs_command_checks.specs.Referents.{route_of_referent, DefinesReferent, RefusesToDefineReferent, MovesReferent, RefusesToMoveReferent, DropsReferent, RefusesToDropReferent};
ghost use Rattle.rs_command_checks.specs.States.{Unseen, state_by};

use crate::checks::Checks;
use rs_catalog::RouteEntry;
use rs_machine::limits::REFERENTS;
use rs_measure::Measure;
use rs_methods::{Name, Position, START};
use rs_refusal::Refusal;

impl Checks<'_> {
    /// The measure of a referent that may be defined. Checks, in order: 20; 25, 30; 24; 27.
    pub fn place_of_new_referent(
        &self,
        route: &Name,
        name: &Name,
        position: &Position,
    ) -> Result<Measure, Refusal>
        ensures accepted { (unseen : Unseen) → IfOk result (DefinesReferent self.now unseen route.now.bytes name.now.bytes (expression_of position.now)) }
        ensures refused { (unseen : Unseen) → IfErr result (RefusesToDefineReferent self.now unseen route.now.bytes name.now.bytes (expression_of position.now)) }
        ensures there { OnOk result (has self.now.catalog.now.routes route.now.bytes ≡ true) }
        ensures not_start { OnOk result (name.now.bytes ≢ start_name) }
        ensures new { (unseen : Unseen) → OnOk result (has ((state_by self.now unseen).referents route.now.bytes) name.now.bytes ≡ false) }
        ensures may_change { OnOk result (self.now.changes < CHANGES) }
    {
        let entry = self.catalog.named_route(route)?;
        self.new_place_on(route, entry, name, position)
    }

    /// The new measure of a referent that may be moved. Checks, in order: 20; 25; 23; 25, 30; 27.
    pub fn place_of_moved_referent(
        &self,
        route: &Name,
        name: &Name,
        position: &Position,
    ) -> Result<Measure, Refusal>
        ensures accepted { (unseen : Unseen) → IfOk result (MovesReferent self.now unseen route.now.bytes name.now.bytes (expression_of position.now)) }
        ensures refused { (unseen : Unseen) → IfErr result (RefusesToMoveReferent self.now unseen route.now.bytes name.now.bytes (expression_of position.now)) }
        ensures there { OnOk result (has self.now.catalog.now.routes route.now.bytes ≡ true) }
        ensures not_start { OnOk result (name.now.bytes ≢ start_name) }
        ensures has { (unseen : Unseen) → OnOk result (has ((state_by self.now unseen).referents route.now.bytes) name.now.bytes ≡ true) }
        ensures may_change { OnOk result (self.now.changes < CHANGES) }
    {
        let entry = self.route_of_referent(route, name)?;
        self.moved_place_on(route, entry, name, position)
    }

    /// The route of a referent that may be dropped. Checks, in order: 20; 25; it is START or a view's window lies by it (23);
    /// 27.
    pub fn check_old_referent(&self, route: &Name, name: &Name) -> Result<RouteEntry, Refusal>
        ensures accepted { (unseen : Unseen) → OnOk result (DropsReferent self.now unseen route.now.bytes name.now.bytes) }
        ensures refused { (unseen : Unseen) → IfErr result (RefusesToDropReferent self.now unseen route.now.bytes name.now.bytes) }
        ensures there { IfOk result (λ entry. names.get self.now.catalog.now.routes route.now.bytes ≡ Some entry) }
        ensures not_start { OnOk result (name.now.bytes ≢ start_name) }
        ensures has { (unseen : Unseen) → OnOk result (has ((state_by self.now unseen).referents route.now.bytes) name.now.bytes ≡ true) }
        ensures may_change { OnOk result (self.now.changes < CHANGES) }
    {
        let entry = self.route_of_referent(route, name)?;
        if self.catalog.is_referent_named(route, name) {
            return Err(Refusal::InUse);
        }
        self.may_change()?;
        Ok(entry)
    }

    /// The measure of a referent that may be defined on a route that is there (25, 30; 24; 27).
    fn new_place_on(
        &self,
        route: &Name,
        entry: RouteEntry,
        name: &Name,
        position: &Position,
    ) -> Result<Measure, Refusal>
        requires there { names.get self.now.catalog.now.routes route.now.bytes ≡ Some entry }
        ensures accepted { (unseen : Unseen) → IfOk result (DefinesReferent self.now unseen route.now.bytes name.now.bytes (expression_of position.now)) }
        ensures refused { (unseen : Unseen) → IfErr result (RefusesToDefineReferent self.now unseen route.now.bytes name.now.bytes (expression_of position.now)) }
        ensures not_start { OnOk result (name.now.bytes ≢ start_name) }
        ensures new { (unseen : Unseen) → OnOk result (has ((state_by self.now unseen).referents route.now.bytes) name.now.bytes ≡ false) }
        ensures may_change { OnOk result (self.now.changes < CHANGES) }
    {
        let measure = self.referents.located(entry, position)?;
        if self.has_referent(route, entry, name) {
            return Err(Refusal::NameTaken);
        }
        if self.referents.count(entry.number()) >= REFERENTS {
            return Err(Refusal::Limit);
        }
        self.may_change()?;
        Ok(measure)
    }

    /// The new measure of a referent that may be moved on its route (25, 30; 27).
    fn moved_place_on(
        &self,
        route: &Name,
        entry: RouteEntry,
        name: &Name,
        position: &Position,
    ) -> Result<Measure, Refusal>
        requires there { names.get self.now.catalog.now.routes route.now.bytes ≡ Some entry }
        requires movable { (unseen : Unseen) → route_of_referent (state_by self.now unseen) route.now.bytes name.now.bytes ≡ Ok entry.ends }
        ensures accepted { (unseen : Unseen) → IfOk result (MovesReferent self.now unseen route.now.bytes name.now.bytes (expression_of position.now)) }
        ensures refused { (unseen : Unseen) → IfErr result (RefusesToMoveReferent self.now unseen route.now.bytes name.now.bytes (expression_of position.now)) }
        ensures may_change { OnOk result (self.now.changes < CHANGES) }
    {
        let measure = self.referents.located(entry, position)?;
        self.may_change()?;
        Ok(measure)
    }

    /// The route of a referent that is there (20, 25) and is not START (23).
    fn route_of_referent(&self, route: &Name, name: &Name) -> Result<RouteEntry, Refusal>
        ensures found { (unseen : Unseen) → IfOk result (λ entry. route_of_referent (state_by self.now unseen) route.now.bytes name.now.bytes ≡ Ok entry.ends) }
        ensures refused { (unseen : Unseen) → IfErr result (λ refusal. route_of_referent (state_by self.now unseen) route.now.bytes name.now.bytes ≡ Err refusal) }
        ensures there { IfOk result (λ entry. names.get self.now.catalog.now.routes route.now.bytes ≡ Some entry) }
        ensures not_start { OnOk result (name.now.bytes ≢ start_name) }
        ensures has { (unseen : Unseen) → OnOk result (has ((state_by self.now unseen).referents route.now.bytes) name.now.bytes ≡ true) }
    {
        let entry = self.catalog.named_route(route)?;
        if !self.has_referent(route, entry, name) {
            return Err(Refusal::NoSuchReferent);
        }
        if is_start(name) {
            return Err(Refusal::InUse);
        }
        Ok(entry)
    }

    /// Whether a route that is there has a referent of this name; each has START.
    fn has_referent(&self, route: &Name, entry: RouteEntry, name: &Name) -> bool
        requires there { names.get self.now.catalog.now.routes route.now.bytes ≡ Some entry }
        ensures { (unseen : Unseen) → result ≡ has_referent (state_by self.now unseen) route.now.bytes name.now.bytes }
    {
        is_start(name) || self.referents.has(entry.number(), name)
    }
}

/// Whether the name is that of the referent at each route's start.
fn is_start(name: &Name) -> bool
    ensures { result ≡ same_name start_name name.now.bytes }
{
    name.as_str() == START
}
