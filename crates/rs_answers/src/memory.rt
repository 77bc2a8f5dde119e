//! What answers are made of beside spans: the definitions and the referents, which are in memory, and a plan.
//!
//! A read of spans leaves the definitions and the referents as they are.

ghost use Rattle.std.specs.Prelude.{◌≡◌};
ghost use Rattle.rs_catalog.specs.Definitions.{Definitions, Numbered};
ghost use Rattle.rs_catalog.specs.Referents.{HeldReferents};

use rs_catalog::{Catalog, RouteReferents};
use rs_exec::Source;
use rs_plan::Plan;
use rs_value::Kind;

/// A source of spans whose definitions and referents are in memory.
pub trait InMemory: Source {
    /// The definitions.
    ghost definitions: { Self → Definitions };

    /// The referents of each route, by its number.
    ghost held_referents: { Self → Numbered HeldReferents };

    /// The catalogue of the definitions.
    fn catalog(&self) -> &Catalog
        ensures { result.now ≡ definitions self.now };

    /// The referents of all routes.
    fn referents(&self) -> &RouteReferents
        ensures { result.now ≡ held_referents self.now };

    /// A read leaves the definitions as they are.
    ghost definitions_stay: { (old new : Self) → Self.passes old new → definitions new ≡ definitions old };

    /// A read leaves the referents as they are.
    ghost referents_stay: { (old new : Self) → Self.passes old new → held_referents new ≡ held_referents old };
}

/// A query that was checked and planned, and the version that it is asked of.
#[derive(Clone, Copy)]
pub struct PlannedQuery<'a> {
    /// The plan.
    pub plan: &'a Plan,
    /// Whether its rows are points or lines.
    pub kind: Kind,
    /// The version.
    pub version: u64,
}
