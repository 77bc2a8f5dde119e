//! This module brings the referents that a version of a file sees into memory.
//!
//! Each route has just those, where the file's referents are meant beside its routes. A cell that says no referent is refused.

ghost use Rattle.std.specs.Prelude.{◌≡◌, ◌≢◌, ◌<◌, ◌≤◌, ◌⊎◌, List, Err, IfErr, IfNone, IfSome, OnOk, length, map};
ghost use Rattle.std.specs.List.{AllByRecursion, AllZip};
ghost use Rattle.rs_catalog.specs.Referents.{referents_on};
ghost use Rattle.rs_file_meaning.specs.Calls.{RefusesToLoad};
ghost use Rattle.rs_stored_catalog.specs.Referents.{Brings, BringsRoute, FindsDamaged, FindsRouteDamaged, HasMore, IsReferent};
ghost use Rattle.rs_grammar.specs.declared.kind.TheConstants.{NAME_BYTES};
ghost use Rattle.rs_machine.specs.Lawful.{AreDistinct};
ghost use Rattle.rs_methods.specs.Position.{start_name};
ghost use Rattle.rs_pages.specs.Calls.{OnlyReads};
ghost use Rattle.rs_records.specs.Listed.{listed, record_width};
ghost use Rattle.rs_syntax.specs.Sound.{IsName, IsMeasure};
ghost use Rattle.rs_versioned.specs.Referents.{ReferentRecord, SaysReferent, referent_width};

use rs_catalog::RouteReferents;
use rs_measure::{GREATEST_MEASURE, Measure};
use rs_methods::{Name, START};
use rs_pages::Pages;
use rs_records::Cells;
use rs_refusal::Refusal;
use rs_versioned::referent::{measure_of, name_of};
use rs_versioned::{ReferentTable, RouteSpan};
use std::alloc::Global;
use std::str;

/// The referents that the version sees on these routes, by the routes' numbers. It is refused with 90, with 91, and with 94
/// only where the table does not lie there, its referents are not meant beside these routes, or a route ends past the greatest
/// measure or has the greatest number. No page changes.
pub fn referents_of<P: Pages>(
    alloc: Global,
    pages: &mut P,
    table: &ReferentTable,
    routes: &[RouteSpan],
    version: u64,
) -> Result<RouteReferents, Refusal>
    ensures rests { OnlyReads P.Pages result pages.old pages.new }
    ensures brings { Brings P.Pages table.now routes.now version result pages.old }
    ensures refused { RefusesToLoad result }
    ensures damaged { FindsDamaged P.Pages table.now routes.now version result pages.old }
{
    let mut made = RouteReferents::new(alloc);
    for route in routes {
        bring_route(alloc, pages, table, route.number, version, &mut made)?;
    }
    Ok(made)
}

// Brings the referents that the version sees on the route of this number. It is refused with 90, with 91, and with 94 only where
// the table does not lie there, one of them is no referent, or the number is the greatest.
pub(crate) fn bring_route<P: Pages>(
    alloc: Global,
    pages: &mut P,
    table: &ReferentTable,
    number: u32,
    version: u64,
    made: &mut RouteReferents,
) -> Result<(), Refusal>
    ensures rests { OnlyReads P.Pages result pages.old pages.new }
    ensures brings { BringsRoute P.Pages table.now number version made.old made.new result pages.old }
    ensures refused { RefusesToLoad result }
    ensures damaged { FindsRouteDamaged P.Pages table.now number version result pages.old }
{
    if number == u32::MAX {
        return Err(Refusal::DamagedFile);
    }
    let cells = table.visible(alloc, pages, version, number)?;
    put_cells(&cells, number, made)
}

// Puts the referents of these cells on the route of this number. It is refused with 90, and with 94 only where one of them is
// no referent.
fn put_cells(cells: &Cells, number: u32, made: &mut RouteReferents) -> Result<(), Refusal>
    requires width { record_width cells.now ≡ referent_width }
    ensures puts { OnOk result ((referents : List ReferentRecord) → AllZip SaysReferent (listed cells.now) referents
        → let seen = map (λ one. (one.name, one.measure)) referents in
        AreDistinct (map (λ one. one.0) seen) → HasMore number seen (referents_on made.old) (referents_on made.new)) }
    ensures refused { IfErr result (λ why. (why ≡ Refusal.OutOfMemory) ⊎ (why ≡ Refusal.DamagedFile)) }
    ensures damaged { result ≡ Err Refusal.DamagedFile → (referents : List ReferentRecord) → AllZip SaysReferent (listed cells.now) referents
        → AllByRecursion IsReferent referents → ⊥ }
{
    for index in 0..cells.len() {
        let Some((name, measure)) = referent_said(cells.get(index)) else {
            return Err(Refusal::DamagedFile);
        };
        if made.put(number, name, measure).is_err() {
            return Err(Refusal::OutOfMemory);
        }
    }
    Ok(())
}

// The name and the measure that the cell says; nothing where it says no referent, as on a damaged disk.
fn referent_said(cell: &[u8]) -> Option<(Name, Measure)>
    requires width { length cell.now ≡ referent_width }
    ensures said { IfSome result (λ said. (referent : ReferentRecord) → SaysReferent cell.now referent → (said.0.bytes ≡ referent.name) × (said.1 ≡ referent.measure)) }
    ensures not_start { IfSome result (λ said. said.0.bytes ≢ start_name) }
    ensures none { IfNone result ((referent : ReferentRecord) → SaysReferent cell.now referent → IsReferent referent → ⊥) }
{
    let name = name_said(name_of(cell))?;
    let measure = measure_said(measure_of(cell))?;
    Some((name, measure))
}

// The name of a referent with these bytes; nothing where they are none.
fn name_said(bytes: &[u8]) -> Option<Name>
    ensures name { IfSome result (λ name. name.bytes ≡ bytes.now) }
    ensures not_start { IfSome result (λ name. name.bytes ≢ start_name) }
    ensures none { IfNone result (IsName bytes.now → bytes.now ≢ start_name → ⊥) }
{
    match str::from_utf8(bytes) {
        Ok(text) => name_beside_start(text),
        Err(_) => None,
    }
}

// The name that is this text; nothing where it is too long or START.
fn name_beside_start(text: &str) -> Option<Name>
    ensures name { IfSome result (λ name. name.bytes ≡ text.now) }
    ensures not_start { IfSome result (λ name. name.bytes ≢ start_name) }
    ensures none { IfNone result (length text.now ≤ NAME_BYTES → text.now ≢ start_name → ⊥) }
{
    if text == START {
        return None;
    }
    Name::from(text).ok()
}

// The measure of so many thousandths; nothing where they are too many.
fn measure_said(thousandths: u32) -> Option<Measure>
    ensures measure { IfSome result (λ measure. measure ≡ thousandths) }
    ensures none { IfNone result (IsMeasure thousandths → ⊥) }
{
    (thousandths <= GREATEST_MEASURE).then(|| Measure::from_thousandths(thousandths))
}
