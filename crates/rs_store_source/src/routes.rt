//! Whether a route has facts.

ghost use Rattle.std.specs.Prelude.{◌≡◌, ℕ, IfErr, IfOk, map};
ghost use Rattle.std.specs.FinMap as names;
ghost use Rattle.rs_exec.specs.Snapshot.{Snapshots};
ghost use Rattle.rs_store_source.specs.Reads.{Passes, SaysFactsOn, WantsReading};
ghost use Rattle.rs_store_source.specs.Routes.{HasSpansOf, table_keys};
ghost use Rattle.rs_store_source.specs.Shown.{Shows};

use rs_catalog::Catalog;
use rs_disk::Disk;
use rs_refusal::Refusal;
use rs_store::Store;
use rs_store::laws::store_stands_in_one_state;
use rs_table_reads::RouteWindow;
use rs_table_reads::laws::spans_within_hold_what_the_table_holds;
use rs_value::Kind;
use std::alloc::{AllocError, Global};

/// A table by its number, with its kind.
#[derive(Clone, Copy)]
struct TableKey {
    number: u32,
    kind: Kind,
}

/// Whether some table has a fact on the route of this number, at the version that was accepted last. It is refused with 90, with 91
/// where the disk failed, and with 94 only where the store stands in no state. The store shows afterwards what it showed, whatever is
/// answered.
pub fn has_facts_on<D: Disk>(
    alloc: Global,
    store: &mut Store<D>,
    route: u32,
) -> Result<bool, Refusal>
    ensures says { IfOk result (SaysFactsOn D.Disk store.old route) }
    ensures stays { (oldest : ℕ) (snapshots : Snapshots) → Shows D.Disk oldest store.old snapshots → Shows D.Disk oldest store.new snapshots }
    ensures passes { Passes D.Disk store.old store.new }
    ensures wants { IfErr result (λ why. WantsReading D.Disk why store.old store.new) }
{
    store_stands_in_one_state::<D>();
    let tables = table_keys(alloc, store.catalog())?;
    for table in &tables {
        if has_spans_of(alloc, store, *table, route)? {
            return Ok(true);
        }
    }
    Ok(false)
}

/// Whether the version that was accepted last sees a span of the table on the route.
fn has_spans_of<D: Disk>(
    alloc: Global,
    store: &mut Store<D>,
    table: TableKey,
    route: u32,
) -> Result<bool, Refusal>
    ensures says { IfOk result (HasSpansOf D.Disk store.old table route) }
    ensures passes { Passes D.Disk store.old store.new }
    ensures wants { IfErr result (λ why. WantsReading D.Disk why store.old store.new) }
{
    spans_within_hold_what_the_table_holds();
    let accepted = store.accepted();
    let window = RouteWindow {
        kind: table.kind,
        version: accepted,
        route,
        from: 0,
        to: u32::MAX,
    };
    let (spans, _reads) = store.spans(alloc, table.number, window)?;
    Ok(!spans.is_empty())
}

/// The numbers and kinds of the tables, in the order of their names.
fn table_keys(alloc: Global, catalog: &Catalog) -> Result<Vec<TableKey>, AllocError>
    ensures { IfOk result (λ keys. keys.items ≡ table_keys catalog.now) }
{
    let mut keys = Vec::new(alloc);
    for (_, table) in catalog.tables() {
        keys.push(TableKey {
            number: table.number(),
            kind: table.kind(),
        })?;
    }
    Ok(keys)
}
