//! The referents of each route, by the route's number.
//!
//! It promises the machine's referents, where a position lies by them, and how a measure is printed by them.

ghost use Rattle.std.specs.Prelude.{◌≡◌, ◌≤◌, ◌≢◌, true, IsOk, IfOk, OnOk, OnErr, map, string_bytes};
ghost use Rattle.std.specs.FinMap as names;
ghost use Rattle.rs_methods.specs.Position.{start_name, expression_of, located, expression_at, expression_text};
ghost use Rattle.rs_methods.specs.Referents.{mark_of};
ghost use Rattle.rs_machine.specs.State.{has};
ghost use Rattle.rs_catalog.specs.Referents.{referents_by_name, referents_on, at_number, no_referents};

use crate::entries::RouteEntry;
use rs_measure::Measure;
use rs_methods::{Method, Name, Position, Referent, Referents, express, locate};
use rs_refusal::Refusal;
use std::alloc::{AllocError, Global};
use std::collections::BTreeMap;
use std::marker::Model;

/// The number of the route in the referents that are kept of it: each route has a list of its own.
pub const OWN_ROUTE: u32 = 0;

/// The referents beside START of each route that has or had some, by the route's number.
#[derive(Drop)]
pub struct RouteReferents {
    alloc: Global,
    by_route: BTreeMap<u32, Referents>,
}

impl Model for RouteReferents {
    ghost use Rattle.std.specs.FinMap as numbers;
    ghost use Rattle.rs_catalog.specs.Codes.{numbered_code};
    ghost use Rattle.rs_catalog.specs.Definitions.{Numbered};
    ghost use Rattle.rs_catalog.specs.Referents.{HeldReferents, held_referents_code};

    ghost Value = { Numbered HeldReferents };

    ghost coded = { numbered_code held_referents_code };

    ghost view = { λ r. numbers.from_entries r.by_route.entries };
}

impl RouteReferents {
    /// No referents. Takes no memory.
    pub fn new(alloc: Global) -> Self
        ensures { referents_on result ≡ no_referents }
    {
        RouteReferents {
            alloc,
            by_route: BTreeMap::new(alloc),
        }
    }

    /// The measure at which a position lies on a route; 25 where its referent is missing, 30 where it lies outside.
    pub fn located(&self, route: RouteEntry, position: &Position) -> Result<Measure, Refusal>
        ensures { result ≡ located route.ends.start route.ends.finish (names.entries (referents_on self.now route.number)) (expression_of position.now) }
    {
        match self.by_route.get(&route.number()) {
            Some(referents) => located_by(referents, route, position),
            None => located_by(&Referents::new(self.alloc), route, position),
        }
    }

    /// The text of a measure of a route by a method. Only memory may be wanting.
    pub fn expressed(
        &self,
        route: RouteEntry,
        method: Method,
        k: Measure,
    ) -> Result<String, AllocError>
        requires after_start { route.ends.start ≤ k }
        requires before_finish { k ≤ route.ends.finish }
        ensures { IfOk result (λ text. string_bytes text ≡ expression_text (expression_at route.ends.start route.ends.finish (names.entries (referents_on self.now route.number)) method k)) }
    {
        match self.by_route.get(&route.number()) {
            Some(referents) => expressed_by(self.alloc, referents, route, method, k),
            None => expressed_by(self.alloc, &Referents::new(self.alloc), route, method, k),
        }
    }

    /// Whether the route of this number has a referent of this name, START not among them.
    pub fn has(&self, number: u32, name: &Name) -> bool
        ensures { result ≡ has (referents_on self.now number) name.now.bytes }
    {
        match self.by_route.get(&number) {
            Some(referents) => referents.get(OWN_ROUTE, name.as_str()).is_some(),
            None => false,
        }
    }

    /// How many referents the route of this number has beside START.
    pub fn count(&self, number: u32) -> usize
        ensures { result ≡ names.len (referents_on self.now number) }
    {
        match self.by_route.get(&number) {
            Some(referents) => {
                referents.stand_in_order();
                referents.count(OWN_ROUTE)
            }
            None => 0,
        }
    }

    /// The referents of the route of this number beside START, in the order of their names. It takes no memory.
    pub fn on_route(&self, number: u32) -> &[Referent]
        ensures { map mark_of result.now ≡ names.entries (referents_on self.now number) }
    {
        match self.by_route.get(&number) {
            Some(referents) => {
                referents.stand_in_order();
                referents.on_route(OWN_ROUTE)
            }
            None => &[],
        }
    }

    /// Puts a referent of the route of this number at a measure, whether it was there before or not. One that was
    /// there is moved without taking memory. Where memory is wanting for a new one, nothing changes.
    pub fn put(&mut self, number: u32, name: Name, measure: Measure) -> Result<(), AllocError>
        requires not_start { name.bytes ≢ start_name }
        ensures ok { OnOk result (referents_on self.new ≡ at_number number (names.insert (referents_on self.old number) name.bytes measure) (referents_on self.old)) }
        ensures err { OnErr result (self.new ≡ self.old) }
        ensures moved { has (referents_on self.old number) name.bytes ≡ true → IsOk result }
    {
        match self.by_route.get_mut(&number) {
            Some(referents) => referents.insert(OWN_ROUTE, name, measure),
            None => {
                let mut referents = Referents::new(self.alloc);
                referents.insert(OWN_ROUTE, name, measure)?;
                self.by_route.insert(number, referents)?;
                Ok(())
            }
        }
    }

    /// Takes a referent of the route of this number out, if it is there. It takes no memory.
    pub fn remove(&mut self, number: u32, name: &Name)
        ensures { referents_on self.new ≡ at_number number (names.remove (referents_on self.old number) name.now.bytes) (referents_on self.old) }
    {
        let Some(referents) = self.by_route.get_mut(&number) else {
            return;
        };
        referents.remove(OWN_ROUTE, name.as_str());
    }

    /// Takes all referents of the route of this number out. It takes no memory.
    pub fn drop_route(&mut self, number: u32)
        ensures { referents_on self.new ≡ at_number number names.empty (referents_on self.old) }
    {
        let _removed = self.by_route.remove(&number);
    }
}

/// Where a position lies on a route with these referents.
fn located_by(
    referents: &Referents,
    route: RouteEntry,
    position: &Position,
) -> Result<Measure, Refusal>
    ensures { result ≡ located route.ends.start route.ends.finish (names.entries (referents_by_name referents.now)) (expression_of position.now) }
{
    referents.stand_in_order();
    locate(&route.ends().as_route(OWN_ROUTE), referents, position)
}

/// The text of a measure of a route with these referents.
fn expressed_by(
    alloc: Global,
    referents: &Referents,
    route: RouteEntry,
    method: Method,
    k: Measure,
) -> Result<String, AllocError>
    requires after_start { route.ends.start ≤ k }
    requires before_finish { k ≤ route.ends.finish }
    ensures { IfOk result (λ text. string_bytes text ≡ expression_text (expression_at route.ends.start route.ends.finish (names.entries (referents_by_name referents.now)) method k)) }
{
    referents.stand_in_order();
    express(
        alloc,
        &route.ends().as_route(OWN_ROUTE),
        referents,
        method,
        k,
    )
}
