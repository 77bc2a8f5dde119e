//! A row put along a span of a route, and rows taken away between two thousandths of it.

ghost use Rattle.std.specs.Prelude.{◌<◌, ◌≤◌, ◌+◌, length, min};
ghost use Rattle.rs_table_changes.specs.Changes.{Inserts, Removes};
ghost use Rattle.rs_facts.specs.Spans.{seen};
ghost use Rattle.rs_file_parts.specs.Parts.{HaveAllDiedBy, KeepsCommitted};
ghost use Rattle.rs_changes.specs.Calls.{ChangesBy, ComesNext, IsRowAt, LeavesFile, MayAccept};
ghost use Rattle.rs_changes.specs.Garbage.{GrowsAt, garbage_of};
ghost use Rattle.rs_changes.specs.InPlace.{MakesBy};
ghost use Rattle.rs_change_laws.specs.Parts.{InsertsRow, RemovesRows};

use crate::completing::complete;
use crate::counting::dead_at;
use rs_facts::{Condition, Span};
use rs_file::OpenedFile;
use rs_pages::Pages;
use rs_refusal::Refusal;
use rs_table_changes::{Moment, RouteStretch};
use rs_value::Kind;
use std::alloc::Global;

/// A row that is put along a span of a route.
#[derive(Drop)]
pub struct Insertion {
    /// The table's place among those of the file.
    pub table: usize,
    /// Whether its rows are points or lines.
    pub kind: Kind,
    /// The route's number.
    pub route: u32,
    /// The row along its span, in thousandths.
    pub span: Span,
}

/// Rows that are taken away between two thousandths of a route.
#[derive(Drop)]
pub struct Removal {
    /// The table's place among those of the file.
    pub table: usize,
    /// The route's number.
    pub route: u32,
    /// The first thousandth.
    pub lo: u32,
    /// The first thousandth after them.
    pub hi: u32,
    /// Which rows go; all where there is no condition.
    pub goes: Option<Condition>,
}

/// Puts a row along a span, and answers how many facts are new. Versions from `oldest` on see what they saw, and the next version sees
/// the row. It is refused with 90, with 91, with 92 where the file is full, and with 94 only where the file holds no contents with what
/// is open.
pub fn insert<P: Pages>(
    alloc: Global,
    pages: &mut P,
    file: &mut OpenedFile,
    oldest: u64,
    insertion: &Insertion,
) -> Result<u64, Refusal>
    requires may { MayAccept P.Pages file.old pages.old }
    requires row { IsRowAt file.old insertion.now.table insertion.now.kind insertion.now.span }
    ensures leaves { LeavesFile P.Pages file.old result pages.old pages.new }
    ensures inserts { ChangesBy P.Pages oldest file.old file.new
        (InsertsRow insertion.now.table insertion.now.kind insertion.now.route (seen insertion.now.span)) result pages.old pages.new }
    ensures opened { ComesNext file.old.definitions result file.old file.new }
{
    let before = dead_at(file, insertion.table);
    let count = insert_in_place(alloc, pages, file, oldest, insertion)?;
    let ended = dead_at(file, insertion.table).saturating_sub(before);
    complete(alloc, pages, file, oldest, ended)?;
    Ok(count)
}

/// Puts the row into its table, as versions after the one that was accepted last see it. Events that this ends may be taken out where no
/// version from `oldest` on sees them.
fn insert_in_place<P: Pages>(
    alloc: Global,
    pages: &mut P,
    file: &mut OpenedFile,
    oldest: u64,
    insertion: &Insertion,
) -> Result<u64, Refusal>
    requires may { MayAccept P.Pages file.old pages.old }
    requires row { IsRowAt file.old insertion.now.table insertion.now.kind insertion.now.span }
    ensures leaves { LeavesFile P.Pages file.old result pages.old pages.new }
    ensures inserts { MakesBy P.Pages file.old file.new insertion.now.table (min oldest (file.old.accepted + 1))
        (Inserts insertion.now.kind file.old.accepted (file.old.accepted + 1) insertion.now.route (seen insertion.now.span)) result pages.old pages.new }
    ensures keeps { KeepsCommitted file.old file.new }
    ensures order { HaveAllDiedBy (file.old.accepted + 1) file.new }
    ensures more { garbage_of file.old ≤ garbage_of file.new }
    ensures grows { GrowsAt insertion.now.table file.old file.new }
{
    let moment = Moment {
        version: file.accepted + 1,
        oldest,
    };
    rs_table_changes::insert(
        alloc,
        pages,
        &mut file.tables[insertion.table],
        insertion.kind,
        moment,
        insertion.route,
        &insertion.span,
    )
}

/// Takes rows away, and answers how many facts went. Versions from `oldest` on see what they saw, and the next version does not see the
/// rows. It is refused as `insert` is.
pub fn remove<P: Pages>(
    alloc: Global,
    pages: &mut P,
    file: &mut OpenedFile,
    oldest: u64,
    removal: &Removal,
) -> Result<u128, Refusal>
    requires may { MayAccept P.Pages file.old pages.old }
    requires place { removal.now.table < length file.old.tables.items }
    ensures leaves { LeavesFile P.Pages file.old result pages.old pages.new }
    ensures removes { ChangesBy P.Pages oldest file.old file.new
        (RemovesRows removal.now.table removal.now.route removal.now.lo removal.now.hi removal.now.goes) result pages.old pages.new }
    ensures opened { ComesNext file.old.definitions result file.old file.new }
{
    let before = dead_at(file, removal.table);
    let count = remove_in_place(alloc, pages, file, oldest, removal)?;
    let ended = dead_at(file, removal.table).saturating_sub(before);
    complete(alloc, pages, file, oldest, ended)?;
    Ok(count)
}

/// Takes the rows out of their table, as versions after the one that was accepted last see it. Events that this ends may be taken out
/// where no version from `oldest` on sees them.
fn remove_in_place<P: Pages>(
    alloc: Global,
    pages: &mut P,
    file: &mut OpenedFile,
    oldest: u64,
    removal: &Removal,
) -> Result<u128, Refusal>
    requires may { MayAccept P.Pages file.old pages.old }
    requires place { removal.now.table < length file.old.tables.items }
    ensures leaves { LeavesFile P.Pages file.old result pages.old pages.new }
    ensures removes { MakesBy P.Pages file.old file.new removal.now.table (min oldest (file.old.accepted + 1))
        (Removes file.old.accepted (file.old.accepted + 1) removal.now.route removal.now.lo removal.now.hi removal.now.goes) result pages.old pages.new }
    ensures keeps { KeepsCommitted file.old file.new }
    ensures order { HaveAllDiedBy (file.old.accepted + 1) file.new }
    ensures more { garbage_of file.old ≤ garbage_of file.new }
    ensures grows { GrowsAt removal.now.table file.old file.new }
{
    let moment = Moment {
        version: file.accepted + 1,
        oldest,
    };
    let goes = removal.goes.as_ref();
    let stretch = RouteStretch {
        route: removal.route,
        lo: removal.lo,
        hi: removal.hi,
    };
    rs_table_changes::remove(
        alloc,
        pages,
        &mut file.tables[removal.table],
        moment,
        stretch,
        goes,
    )
}
