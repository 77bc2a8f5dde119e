//! A source of spans: what a plan is evaluated over.
//!
//! Which snapshots it stands for is a relation, since a source may keep what no value of its own shows.

ghost use Rattle.std.specs.Prelude.{◌≡◌, IfOk, IfErr, map};
ghost use Rattle.rs_refusal.specs.declared.refusal.Refusal.{Refusal};
ghost use Rattle.rs_facts.specs.Spans.{seen};
ghost use Rattle.rs_exec.specs.Snapshot.{Snapshots};
ghost use Rattle.rs_exec.specs.Given.{AreGiven, AreGivenOfValue};

use rs_catalog::Ends;
use rs_facts::Span;
use rs_refusal::Refusal;
use rs_value::{Kind, Literal};
use std::alloc::Global;

/// A table on a route, as it was at a version.
#[derive(Clone, Copy)]
pub struct Asked {
    /// The table's number.
    pub table: u32,
    /// Whether its rows are points or lines.
    pub kind: Kind,
    /// How many columns it has.
    pub width: u8,
    /// The route's number.
    pub route: u32,
    /// The version.
    pub version: u64,
}

/// A whole route, or the part of it between two thousandths.
#[derive(Clone, Copy)]
pub enum Part {
    /// The whole route.
    Whole,
    /// A part of the route.
    Between {
        /// The first thousandth inside.
        from: u32,
        /// The first thousandth after it.
        to: u32,
    },
}

/// A value that a column is to have, and an index that may find it.
#[derive(Clone, Copy)]
pub struct SoughtValue<'a> {
    /// The index's number.
    pub index: u32,
    /// The column's place, the leftmost 0.
    pub column: u8,
    /// The value.
    pub value: &'a Literal,
}

/// What gives the spans of tables, and the ends of routes.
///
/// Whatever is asked for, the spans that are given are points or lines as the kind says, and as wide as the width. A
/// table of another kind or width than it is asked for has no rows.
pub trait Source {
    /// The snapshots that the source stands for.
    ghost is: { Self → Snapshots → Type 0 };

    /// What a call keeps of all else, such as counts that don't fall.
    ghost passes: { Self → Self → Type 0 };

    /// Why calls may be refused that begin with the one source and end with the other.
    ghost wants: { Refusal → Self → Self → Type 0 };

    /// The spans of the rows of a table within a part of a route, in any order, of which no two are one run. Rows outside the
    /// part may be among them. A refusal leaves the source as it was for what it stands for.
    fn spans(&mut self, alloc: Global, asked: &Asked, part: Part) -> Result<Vec<Span>, Refusal>
        ensures gives { IfOk result (λ spans. AreGiven (is self.old) asked.now part (map seen spans.items)) }
        ensures stays { (snapshots : Snapshots) → is self.old snapshots → is self.new snapshots }
        ensures passes { passes self.old self.new }
        ensures wants { IfErr result (λ why. wants why self.old self.new) };

    /// The same of the rows that have a value in a column. Rows without it may be among them, so that a source may give
    /// all rows where it has no such index.
    fn spans_of_value(
        &mut self,
        alloc: Global,
        asked: &Asked,
        part: Part,
        sought: SoughtValue<'_>,
    ) -> Result<Vec<Span>, Refusal>
        ensures gives { IfOk result (λ spans. AreGivenOfValue (is self.old) asked.now part sought.entry (map seen spans.items)) }
        ensures stays { (snapshots : Snapshots) → is self.old snapshots → is self.new snapshots }
        ensures passes { passes self.old self.new }
        ensures wants { IfErr result (λ why. wants why self.old self.new) };

    /// The place of the column that the index of this number is of. It is a hint: a wrong one costs time alone.
    fn indexed_column(&self, index: u32) -> Option<u8>;

    /// Where the route of this number starts and ends, at a version; none where it is not there. It takes no memory.
    fn ends_at(&self, route: u32, version: u64) -> Option<Ends>
        ensures { (snapshots : Snapshots) → is self.now snapshots → result ≡ (snapshots version).ends route };

    /// Where nothing happens, it passes.
    ghost passes_refl: { (source : Self) → passes source source };

    /// What passes one call and then another passes both.
    ghost passes_trans: { (a b c : Self) → passes a b → passes b c → passes a c };

    /// Why a call is refused is also why it is refused together with the calls before it.
    ghost wants_later: { (why : Refusal) (a b c : Self) → passes a b → wants why b c → wants why a c };

    /// Want of memory is always a reason.
    ghost wants_memory: { (a b : Self) → passes a b → wants Refusal.OutOfMemory a b };
}
