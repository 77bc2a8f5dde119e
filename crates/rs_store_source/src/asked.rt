//! The spans that the evaluation of a plan asks of a store.
//!
//! What is shown are the rows of the tables that the catalogue has, at versions from the oldest live one up to the one that was
//! accepted last.

ghost use Rattle.std.specs.Prelude.{◌≡◌, IfErr, IfOk, map};
ghost use Rattle.rs_exec.specs.Given.{AreGiven, AreGivenOfValue, table_asked};
ghost use Rattle.rs_exec.specs.Snapshot.{Snapshots};
ghost use Rattle.rs_facts.specs.Spans.{seen};
ghost use Rattle.rs_store_source.specs.Reads.{Passes, WantsReading};
ghost use Rattle.rs_store_source.specs.Shown.{Shows, behind_of, first_of, is_shown, is_table, same_kind, table_there, window_of};

use rs_catalog::{Catalog, TableEntry};
use rs_disk::Disk;
use rs_exec::{Asked, Part, SoughtValue};
use rs_facts::Span;
use rs_refusal::Refusal;
use rs_store::{IndexKey, Store};
use rs_table_reads::RouteWindow;
use rs_table_reads::laws::spans_within_hold_what_the_table_holds;
use rs_value::Kind;
use std::alloc::Global;

/// The spans of the rows of a table within a part of a route, in any order; spans that only reach into the part are whole. There are
/// none where the catalogue has no table of this number, kind and width, and none at a version before the oldest one or after the one
/// that was accepted last. It is refused with 90, with 91 where the disk failed, and with 94 only where the store stands in no state.
/// The store shows afterwards what it showed, whatever is answered.
pub fn spans_asked<D: Disk>(
    alloc: Global,
    store: &mut Store<D>,
    oldest: u64,
    asked: &Asked,
    part: Part,
) -> Result<Vec<Span>, Refusal>
    ensures gives { IfOk result (λ spans. AreGiven (Shows D.Disk oldest store.old) asked.now part (map seen spans.items)) }
    ensures stays { (snapshots : Snapshots) → Shows D.Disk oldest store.old snapshots → Shows D.Disk oldest store.new snapshots }
    ensures passes { Passes D.Disk store.old store.new }
    ensures wants { IfErr result (λ why. WantsReading D.Disk why store.old store.new) }
{
    spans_within_hold_what_the_table_holds();
    if !is_shown(store, oldest, asked) {
        return Ok(Vec::new(alloc));
    }
    let (spans, _reads) = store.spans(alloc, asked.table, window_of(asked, part))?;
    Ok(spans)
}

/// The same of the rows that have a value in a column, found by an index. Where the file has no index of this number on that column of
/// the table, rows without the value are among them. A value that the column can't have finds nothing.
pub fn spans_of_value_asked<D: Disk>(
    alloc: Global,
    store: &mut Store<D>,
    oldest: u64,
    asked: &Asked,
    part: Part,
    sought: SoughtValue<'_>,
) -> Result<Vec<Span>, Refusal>
    ensures gives { IfOk result (λ spans. AreGivenOfValue (Shows D.Disk oldest store.old) asked.now part sought.entry (map seen spans.items)) }
    ensures stays { (snapshots : Snapshots) → Shows D.Disk oldest store.old snapshots → Shows D.Disk oldest store.new snapshots }
    ensures passes { Passes D.Disk store.old store.new }
    ensures wants { IfErr result (λ why. WantsReading D.Disk why store.old store.new) }
{
    spans_within_hold_what_the_table_holds();
    if !is_shown(store, oldest, asked) {
        return Ok(Vec::new(alloc));
    }
    let key = IndexKey {
        table: asked.table,
        number: sought.index,
        column: sought.column,
    };
    let (spans, _reads) = store.spans_with(alloc, key, sought.value, window_of(asked, part))?;
    Ok(spans)
}

/// Whether the version is live and the table is there.
fn is_shown<D: Disk>(store: &Store<D>, oldest: u64, asked: &Asked) -> bool
    ensures { result ≡ is_shown store.now.catalog oldest store.now.file.accepted asked.now }
{
    oldest <= asked.version
        && asked.version <= store.accepted()
        && has_table(store.catalog(), asked)
}

/// Whether the catalogue has the table.
fn has_table(catalog: &Catalog, asked: &Asked) -> bool
    ensures { result ≡ table_there catalog.now (table_asked asked.now) }
{
    for (_, table) in catalog.tables() {
        if is_table(table, asked) {
            return true;
        }
    }
    false
}

/// Whether it is this table: it has this number and this kind, and so many columns.
#[tactic(auto, unfolding(crate::specs::Shown::is_table))]
fn is_table(table: &TableEntry, asked: &Asked) -> bool
    ensures { result ≡ is_table (table_asked asked.now) table.now }
{
    table.number() == asked.table
        && same_kind(table.kind(), asked.kind)
        && table.columns().len() == usize::from(asked.width)
}

/// Whether both are of lines or both of points.
fn same_kind(one: Kind, other: Kind) -> bool
    ensures { result ≡ same_kind one other }
{
    match (one, other) {
        (Kind::Line, Kind::Line) | (Kind::Point, Kind::Point) => true,
        (Kind::Line, Kind::Point) | (Kind::Point, Kind::Line) => false,
    }
}

/// What is read of a store where this part of a route is asked for.
fn window_of(asked: &Asked, part: Part) -> RouteWindow
    ensures { result ≡ window_of asked.now part }
{
    RouteWindow {
        kind: asked.kind,
        version: asked.version,
        route: asked.route,
        from: first_of(part),
        to: behind_of(part),
    }
}

/// The first thousandth of the part.
fn first_of(part: Part) -> u32
    ensures { result ≡ first_of part }
{
    match part {
        Part::Whole => 0,
        Part::Between { from, .. } => from,
    }
}

/// The first thousandth after it, which is past the end of any route for a whole one.
fn behind_of(part: Part) -> u32
    ensures { result ≡ behind_of part }
{
    match part {
        Part::Whole => u32::MAX,
        Part::Between { to, .. } => to,
    }
}
