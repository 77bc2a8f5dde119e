//! What is dumped: definitions and referents in memory, and the events that are read route by route.
//!
//! What it shows is a relation, since it may keep what no value of its own says.

ghost use Rattle.std.specs.Prelude.{◌≡◌, IfErr, IfOk};
ghost use Rattle.rs_catalog.specs.Definitions.{Definitions, Numbered};
ghost use Rattle.rs_catalog.specs.Referents.{HeldReferents};
ghost use Rattle.rs_dump.specs.Shown.{Shown};
ghost use Rattle.rs_refusal.specs.declared.refusal.Refusal.{Refusal};
ghost use Rattle.rs_table_reads.specs.Events.{AreEvents, SaysSpans};

use rs_catalog::{Catalog, NamedRoute, RouteReferents};
use rs_methods::Name;
use rs_refusal::Refusal;
use rs_table_reads::FoundEvents;
use rs_value::Kind;
use std::alloc::Global;

/// A table by its name.
#[derive(Clone, Copy)]
pub struct NamedTable {
    /// Its name.
    pub name: Name,
    /// Its number.
    pub number: u32,
    /// Whether it holds points or lines.
    pub kind: Kind,
}

/// What holds an inventory that is dumped. Each call leaves the definitions, and what is shown; a refusal does so too.
pub trait Held {
    /// The definitions.
    ghost catalog: { Self → Definitions };

    /// The referents in memory.
    ghost referents: { Self → Numbered HeldReferents };

    /// The spans that are shown, by the numbers of tables and routes.
    ghost shows: { Self → Shown → Type 0 };

    /// What a call keeps of all else, such as the bytes of a disk.
    ghost passes: { Self → Self → Type 0 };

    /// Why calls may be refused that begin with the one and end with the other.
    ghost wants: { Refusal → Self → Self → Type 0 };

    /// The definitions.
    fn catalog(&self) -> &Catalog
        ensures { result.now ≡ catalog self.now };

    /// The referents of each route.
    fn referents(&self) -> &RouteReferents
        ensures { result.now ≡ referents self.now };

    /// The events of the table on the route, which say the spans that are shown.
    fn found_events(
        &mut self,
        alloc: Global,
        table: &NamedTable,
        route: &NamedRoute,
    ) -> Result<FoundEvents, Refusal>
        ensures are { IfOk result AreEvents }
        ensures says { (shown : Shown) → shows self.old shown → IfOk result (λ found. SaysSpans found (shown table.now.number table.now.kind route.now.route.number)) }
        ensures wants { IfErr result (λ why. wants why self.old self.new) }
        ensures catalog { catalog self.new ≡ catalog self.old }
        ensures referents { referents self.new ≡ referents self.old }
        ensures shows { (shown : Shown) → shows self.old shown → shows self.new shown }
        ensures passes { passes self.old self.new };

    /// Why a call is refused is also why it is refused together with the calls before it.
    ghost wants_later: { (why : Refusal) (a b c : Self) → passes a b → wants why b c → wants why a c };
}
