//! The referents of some routes: named measures, by route number and name.
//!
//! It promises that each is there once, in order, and that START, which every route has, is not among
//! them.

ghost use Rattle.std.specs.Prelude.{ℕ, List, false, ◌≡◌, ◌<◌, ◌≤◌, ◌&&◌, [], not, nat_eq, nat_le, map, length, filter, Some, None, IsOk, OnOk, OnErr, IfOk, IfErr, MatchResult, ◌≢◌};
ghost use Rattle.std.specs.Ordering.{is_lt, nat_cmp};
ghost use Rattle.std.specs.Cmp.Lexicographic.{slice_cmp};
ghost use Rattle.std.specs.Str.{bytes_eq};
ghost use Rattle.std.specs.FinMap.{put};
ghost use Rattle.rs_methods.specs.Position.{start_name, measure_of, referent_measure, nearness_cmp, nearest_from, nearest};
ghost use Rattle.rs_methods.specs.Referents.{key_cmp, is_key, entry_of, mark_of, referents_of, AreReferents};
ghost use Rattle.rs_methods.specs.Inner.{IsFound, IsAbsent};

use crate::position::{Name, START};
use crate::route::Route;
use rs_measure::Measure;
use std::alloc::{AllocError, Global};
use std::cmp::Ordering;
use std::marker::Model;

/// A referent: a name at a measure of a route.
#[derive(Clone, Copy)]
pub struct Referent {
    /// The number of the route.
    pub route: u32,
    /// The name, once on a route.
    pub name: Name,
    /// Its measure, in thousandths.
    pub measure: Measure,
}

/// Referents of one or more routes, by route number and name.
#[derive(Drop)]
pub struct Referents {
    items: Vec<Referent>,
}

impl Model for Referents {
    ghost use Rattle.std.specs.Prelude.{ℕ, List, map};
    ghost use Rattle.rs_methods.specs.Referents.{AreReferents, entry_of};

    ghost Value = { List ((ℕ × List ℕ) × ℕ) };

    ghost view = { λ r. map entry_of r.items.items };

    ghost invariant = { λ r. AreReferents (map entry_of r.items.items) };
}

impl Referents {
    /// No referents. Takes no memory.
    pub fn new(alloc: Global) -> Self
        ensures { result ≡ [] }
    {
        Referents {
            items: Vec::new(alloc),
        }
    }

    /// Puts a referent at a measure of a route, whether it was there before or not. One that was there
    /// is moved without taking memory. Where memory is wanting for a new one, nothing changes. START
    /// is never put here: the caller tests for it.
    pub fn insert(&mut self, route: u32, name: Name, measure: Measure) -> Result<(), AllocError>
        requires { name.bytes ≢ start_name }
        ensures ok { OnOk result (self.new ≡ put key_cmp (route, name.bytes) measure self.old) }
        ensures err { OnErr result (self.new ≡ self.old) }
        ensures moved { measure_of name.bytes (referents_of route self.old) ≢ None → IsOk result }
        ensures were_in_order { AreReferents self.old }
    {
        match place_of(&self.items, route, name.as_str()) {
            Ok(place) => self.items[place].measure = measure,
            Err(place) => self.items.insert(
                place,
                Referent {
                    route,
                    name,
                    measure,
                },
            )?,
        }
        Ok(())
    }

    /// Takes a referent of the route out, if it is there. Takes no memory.
    pub fn remove(&mut self, route: u32, name: &str)
        ensures { self.new ≡ filter (λ e. not (is_key route name.now e.0)) self.old }
    {
        self.items
            .retain(|referent| !is_named(referent, route, name));
    }

    /// The measure of a referent of the route, if it is there. START is never found here, though every
    /// route has it: the caller tests for it. Takes no memory.
    pub fn get(&self, route: u32, name: &str) -> Option<Measure>
        ensures measure { result ≡ measure_of name.now (referents_of route self.now) }
        ensures in_order { AreReferents self.now }
    {
        match place_of(&self.items, route, name) {
            Ok(place) => Some(self.items[place].measure),
            Err(_) => None,
        }
    }

    /// How many referents of the route there are, START not among them.
    pub fn count(&self, route: u32) -> usize
        ensures { result ≡ length (referents_of route self.now) }
    {
        of_route(&self.items, route).len()
    }

    /// The referents of the route in the order of their names, START not among them. Takes no memory.
    pub fn on_route(&self, route: u32) -> &[Referent]
        ensures { map mark_of result.now ≡ referents_of route self.now }
    {
        of_route(&self.items, route)
    }

    /// They are in order, each once, and none is START.
    pub fn stand_in_order(&self)
        ensures { AreReferents self.now }
    {
        // For the proof: what is kept is in order.
        let _items = &self.items;
    }

    /// The nearest referent of the route below `k`, START among them.
    pub(crate) fn nearest(&self, route: &Route, k: Measure) -> Referent
        requires { route.now.start ≤ k }
        ensures nearest { mark_of result ≡ nearest route.now.start (referents_of route.now.number self.now) k }
        ensures not_above { result.measure ≤ k }
        ensures found { referent_measure route.now.start (referents_of route.now.number self.now) result.name.bytes ≡ Some result.measure }
    {
        let first = Referent {
            route: route.number,
            name: start_referent(),
            measure: route.start,
        };
        nearest_in(of_route(&self.items, route.number), first, k)
    }
}

/// A referent that is put is among those of its route, and those of the other routes stay.
pub fn put_stands_on_its_route()
    ensures own { (entries : List ((ℕ × List ℕ) × ℕ)) (route : ℕ) (name : List ℕ) (measure : ℕ) → AreReferents entries → referents_of route (put key_cmp (route, name) measure entries) ≡ put (slice_cmp nat_cmp) name measure (referents_of route entries) }
    ensures others { (entries : List ((ℕ × List ℕ) × ℕ)) (route other : ℕ) (name : List ℕ) (measure : ℕ) → nat_eq route other ≡ false → referents_of other (put key_cmp (route, name) measure entries) ≡ referents_of other entries }
{}

/// A referent that is removed is gone from those of its route, and those of the other routes stay.
pub fn removal_goes_from_its_route()
    ensures own { (entries : List ((ℕ × List ℕ) × ℕ)) (route : ℕ) (name : List ℕ) → referents_of route (filter (λ e. not (is_key route name e.0)) entries) ≡ filter (λ referent. not (bytes_eq referent.0 name)) (referents_of route entries) }
    ensures others { (entries : List ((ℕ × List ℕ) × ℕ)) (route other : ℕ) (name : List ℕ) → nat_eq route other ≡ false → referents_of other (filter (λ e. not (is_key route name e.0)) entries) ≡ referents_of other entries }
{}

/// A referent that is put among those of a route is found where it was put, and each other where it
/// was found before.
pub fn put_referent_is_found()
    ensures own { (referents : List (List ℕ × ℕ)) (name : List ℕ) (measure : ℕ) → measure_of name (put (slice_cmp nat_cmp) name measure referents) ≡ Some measure }
    ensures others { (referents : List (List ℕ × ℕ)) (name other : List ℕ) (measure : ℕ) → bytes_eq name other ≡ false → measure_of other (put (slice_cmp nat_cmp) name measure referents) ≡ measure_of other referents }
{}

/// A referent that is removed from those of a route is not found, and each other where it was found
/// before.
pub fn removed_referent_is_missing()
    ensures own { (referents : List (List ℕ × ℕ)) (name : List ℕ) → measure_of name (filter (λ referent. not (bytes_eq referent.0 name)) referents) ≡ None }
    ensures others { (referents : List (List ℕ × ℕ)) (name other : List ℕ) → bytes_eq name other ≡ false → measure_of other (filter (λ referent. not (bytes_eq referent.0 name)) referents) ≡ measure_of other referents }
{}

// The name of the referent at a route's start.
fn start_referent() -> Name
    ensures { result.bytes ≡ start_name }
{
    let mut name = Name::new();
    name.push_str(START);
    name
}

// Whether a referent is the one of that route and name.
fn is_named(referent: &Referent, route: u32, name: &str) -> bool
    ensures { result ≡ is_key route name.now (entry_of referent.now).0 }
{
    referent.route == route && referent.name.as_str() == name
}

// How a referent stands to a route number and a name.
#[tactic(auto, unfolding(crate::specs::Referents::key_cmp))]
fn compare(referent: &Referent, route: u32, name: &str) -> Ordering
    ensures { result ≡ key_cmp (entry_of referent.now).0 (route, name.now) }
{
    referent
        .route
        .cmp(&route)
        .then(referent.name.as_str().cmp(name))
}

// The place of a referent, or the place where it belongs.
fn place_of(items: &[Referent], route: u32, name: &str) -> Result<usize, usize>
    requires { AreReferents (map entry_of items.now) }
    ensures within { MatchResult result (λ place. place < length items.now) (λ place. place ≤ length items.now) }
    ensures found { IfOk result (IsFound (route, name.now) items.now) }
    ensures absent { IfErr result (IsAbsent (route, name.now) items.now) }
{
    items.binary_search_by(
        |referent: &Referent| -> Ordering
            ensures is { result ≡ key_cmp (entry_of referent.now).0 (route, name.entry.now) }
            ensures same { name.exit ≡ name.entry }
        { compare(referent, route, name) },
    )
}

// The referents of a route, which stand side by side.
fn of_route(items: &[Referent], route: u32) -> &[Referent]
    requires { AreReferents (map entry_of items.now) }
    ensures { map mark_of result.now ≡ referents_of route (map entry_of items.now) }
{
    let from = items.partition_point(|referent| referent.route < route);
    let rest = &items[from..];
    let count = rest.partition_point(|referent| referent.route == route);
    &rest[..count]
}

// The nearest below `k` of a first referent and others of its route.
fn nearest_in(items: &[Referent], first: Referent, k: Measure) -> Referent
    ensures { mark_of result ≡ nearest_from k (mark_of first) (map mark_of items.now) }
{
    let mut best = first;
    for referent in items {
        if is_nearer(referent, &best, k) {
            best = *referent;
        }
    }
    best
}

// Whether a referent of the same route is nearer below `k` than the best so far.
fn is_nearer(referent: &Referent, best: &Referent, k: Measure) -> bool
    ensures { result ≡ (nat_le referent.now.measure k && is_lt (nearness_cmp (mark_of referent.now) (mark_of best.now))) }
{
    referent.measure.thousandths() <= k.thousandths() && compare_nearness(referent, best).is_lt()
}

// Which of two referents is nearer below a measure that both are not above.
#[tactic(auto, unfolding(crate::specs::Position::nearness_cmp))]
fn compare_nearness(a: &Referent, b: &Referent) -> Ordering
    ensures { result ≡ nearness_cmp (mark_of a.now) (mark_of b.now) }
{
    b.measure
        .thousandths()
        .cmp(&a.measure.thousandths())
        .then(a.name.as_str().cmp(b.name.as_str()))
}
