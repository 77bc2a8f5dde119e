//! The dump: all sections, or the lines of one table.

ghost use Rattle.std.specs.Prelude.{◌≡◌, ◌⊎◌, ◌∷◌, [], false, true, if◌then◌else◌, IfErr, IfOk, IfSome, None, OnOk};
ghost use Rattle.rs_dump.specs.Dumped.{FrontInTable, FrontOfAll, FrontOfLast, FrontOfTable, MissesTable, PutsTable, WroteAll, WroteLast, WroteTable, all_rows, first_commands};
ghost use Rattle.rs_dump.specs.Reads.{Reads};
ghost use Rattle.rs_dump.specs.Sections.{table_of};
ghost use Rattle.rs_dump.specs.Shown.{Shown};
ghost use Rattle.rs_dump.specs.Stopping.{StopsForTable, StopsReading};
ghost use Rattle.rs_dump.specs.Written.{StopsWriting, WritesAll, WritesRead};

use crate::alignments::{tell_left_out, write_alignments};
use crate::definitions::{routes_of, tables_of, write_indexes, write_routes, write_tables};
use crate::held::{Held, NamedTable};
use crate::put::put_table;
use crate::referents::write_referents;
use crate::rows::{write_rows, write_rows_of};
use crate::stop::Stop;
use crate::views::{Defined, write_views};
use rs_catalog::Catalog;
use rs_methods::Name;
use rs_refusal::Refusal;
use std::alloc::Global;
use std::io::Write;

/// What is to be written.
#[derive(Clone, Copy)]
pub struct Wanted<'a> {
    /// The name of the one table that is wanted, with its definition and its rows; none where all is.
    pub table: Option<&'a str>,
    /// Whether rows are left away.
    pub omits_rows: bool,
}

/// Writes the lines that rebuild what is held, and says whether something was told and left out: routes, referents, tables, rows,
/// alignments, views and indexes, each in an order in which it is accepted. What is held is only read.
pub fn dump<H: Held, W: Write, E: Write>(
    alloc: Global,
    held: &mut H,
    wanted: Wanted<'_>,
    output: &mut W,
    errors: &mut E,
) -> Result<bool, Stop>
    ensures reads { Reads H.Held held.old held.new }
    ensures quiet { IfOk result (λ lacks. lacks ≡ false → E.contents errors.new ≡ E.contents errors.old) }
    ensures all { wanted.entry.table ≡ None → (shown : Shown) → H.shows held.old shown
        → IfOk result (λ lacks. WroteAll (H.catalog held.old) (H.referents held.old) shown wanted.entry.omits_rows lacks (W.contents output.old) (W.contents output.new)) }
    ensures table { IfSome wanted.entry.table (λ name. (shown : Shown) → H.shows held.old shown
        → OnOk result (WroteTable (H.catalog held.old) shown wanted.entry.omits_rows name.now (W.contents output.old) (W.contents output.new))) }
    ensures whole_table { IfSome wanted.entry.table (λ _. IfOk result (λ lacks. lacks ≡ false)) }
    ensures wants_all { wanted.entry.table ≡ None → IfErr result (λ stop. StopsReading H.Held stop held.old held.new) }
    ensures wants_table { IfSome wanted.entry.table (λ name. IfErr result (λ stop. StopsForTable H.Held stop name.now held.old held.new)) }
    ensures front_all { wanted.entry.table ≡ None → (shown : Shown) → H.shows held.old shown
        → IfErr result (λ stop. FrontOfAll (H.catalog held.old) (H.referents held.old) shown wanted.entry.omits_rows stop (W.contents output.old) (W.contents output.new)) }
    ensures front_table { IfSome wanted.entry.table (λ name. (shown : Shown) → H.shows held.old shown
        → IfErr result (λ stop. FrontOfTable (H.catalog held.old) shown wanted.entry.omits_rows name.now stop (W.contents output.old) (W.contents output.new))) }
{
    match wanted.table {
        Some(name) => write_table(alloc, held, name, wanted.omits_rows, output),
        None => write_all(alloc, held, wanted.omits_rows, output, errors),
    }
}

/// Writes all sections.
fn write_all<H: Held, W: Write, E: Write>(
    alloc: Global,
    held: &mut H,
    omits_rows: bool,
    output: &mut W,
    errors: &mut E,
) -> Result<bool, Stop>
    ensures reads { Reads H.Held held.old held.new }
    ensures quiet { IfOk result (λ lacks. lacks ≡ false → E.contents errors.new ≡ E.contents errors.old) }
    ensures all { (shown : Shown) → H.shows held.old shown
        → IfOk result (λ lacks. WroteAll (H.catalog held.old) (H.referents held.old) shown omits_rows lacks (W.contents output.old) (W.contents output.new)) }
    ensures wants { IfErr result (λ stop. StopsReading H.Held stop held.old held.new) }
    ensures front { (shown : Shown) → H.shows held.old shown
        → IfErr result (λ stop. FrontOfAll (H.catalog held.old) (H.referents held.old) shown omits_rows stop (W.contents output.old) (W.contents output.new)) }
{
    let mut line = Vec::new(alloc);
    write_first(held, &mut line, output)?;
    write_middle(alloc, held, omits_rows, output)?;
    write_last(alloc, held, &mut line, output, errors)
}

/// Writes routes, referents and tables.
fn write_first<H: Held, W: Write>(held: &H, line: &mut Vec<u8>, output: &mut W) -> Result<(), Stop>
    ensures { WritesAll result (first_commands (H.catalog held.now) (H.referents held.now)) (W.contents output.old) (W.contents output.new) }
{
    write_routes(held.catalog(), line, output)?;
    write_referents(held.catalog(), held.referents(), line, output)?;
    write_tables(held.catalog(), line, output)
}

/// Writes the rows of all tables, unless they are left away.
fn write_middle<H: Held, W: Write>(
    alloc: Global,
    held: &mut H,
    omits_rows: bool,
    output: &mut W,
) -> Result<(), Stop>
    ensures reads { Reads H.Held held.old held.new }
    ensures lines { (shown : Shown) → H.shows held.old shown
        → WritesRead result (if omits_rows then [] else all_rows (H.catalog held.old) shown) (W.contents output.old) (W.contents output.new) }
    ensures wants { IfErr result (λ stop. StopsReading H.Held stop held.old held.new) }
{
    if omits_rows {
        return Ok(());
    }
    let routes = routes_of(alloc, held.catalog())?;
    let tables = tables_of(alloc, held.catalog())?;
    write_rows(alloc, held, &tables, &routes, output)
}

/// Writes alignments, views and indexes, and says whether something was left out.
fn write_last<H: Held, W: Write, E: Write>(
    alloc: Global,
    held: &H,
    line: &mut Vec<u8>,
    output: &mut W,
    errors: &mut E,
) -> Result<bool, Stop>
    ensures quiet { IfOk result (λ lacks. lacks ≡ false → E.contents errors.new ≡ E.contents errors.old) }
    ensures last { IfOk result (λ lacks. WroteLast (H.catalog held.now) (H.referents held.now) lacks (W.contents output.old) (W.contents output.new)) }
    ensures stops { IfErr result (λ stop. StopsWriting stop × FrontOfLast (H.catalog held.now) (H.referents held.now) stop (W.contents output.old) (W.contents output.new)) }
{
    let left_out = write_alignments(alloc, held.catalog(), output)?;
    let lacks_alignments = tell_left_out(&left_out, errors);
    let defined = Defined {
        alloc,
        catalog: held.catalog(),
        referents: held.referents(),
        left_out: &left_out,
    };
    let lacks_views = write_views(&defined, output, errors)?;
    write_indexes(held.catalog(), line, output)?;
    Ok(lacks_some(lacks_alignments, lacks_views))
}

/// Whether alignments or views were left out.
fn lacks_some(alignments: bool, views: bool) -> bool
    ensures alignments { result ≡ false → alignments ≡ false }
    ensures views { result ≡ false → views ≡ false }
    ensures lacking { result ≡ true → (alignments ≡ true) ⊎ (views ≡ true) }
{
    if alignments {
        return true;
    }
    views
}

/// Writes the definition and the rows of one table. It is refused with 21 where there is none of this name.
fn write_table<H: Held, W: Write>(
    alloc: Global,
    held: &mut H,
    name: &str,
    omits_rows: bool,
    output: &mut W,
) -> Result<bool, Stop>
    ensures reads { Reads H.Held held.old held.new }
    ensures table { (shown : Shown) → H.shows held.old shown
        → OnOk result (WroteTable (H.catalog held.old) shown omits_rows name.now (W.contents output.old) (W.contents output.new)) }
    ensures whole { IfOk result (λ lacks. lacks ≡ false) }
    ensures wants { IfErr result (λ stop. StopsForTable H.Held stop name.now held.old held.new) }
    ensures front { (shown : Shown) → H.shows held.old shown
        → IfErr result (λ stop. FrontOfTable (H.catalog held.old) shown omits_rows name.now stop (W.contents output.old) (W.contents output.new)) }
{
    let mut line = Vec::new(alloc);
    let table = put_named_table(held.catalog(), name, &mut line, output)?;
    if omits_rows {
        return Ok(false);
    }
    let routes = routes_of(alloc, held.catalog())?;
    write_rows_of(alloc, held, &table, &routes, output)?;
    Ok(false)
}

/// Writes the definition of the table of this name, and gives the table. It is refused with 21 where there is none.
fn put_named_table<W: Write>(
    catalog: &Catalog,
    name: &str,
    line: &mut Vec<u8>,
    output: &mut W,
) -> Result<NamedTable, Stop>
    ensures puts { IfOk result (PutsTable catalog.now name.now (W.contents output.old) (W.contents output.new)) }
    ensures stops { IfErr result (λ stop. MissesTable catalog.now name.now stop (W.contents output.old) (W.contents output.new)
        ⊎ (StopsWriting stop × FrontInTable catalog.now (λ item. table_of (name.now, item) ∷ []) name.now stop (W.contents output.old) (W.contents output.new))) }
{
    let Ok(own) = Name::from(name) else {
        return Err(Stop::Refused(Refusal::NoSuchName));
    };
    let Some(table) = catalog.table(&own) else {
        return Err(Stop::Refused(Refusal::NoSuchName));
    };
    put_table(line, &own, table, output)?;
    Ok(NamedTable {
        name: own,
        number: table.number(),
        kind: table.kind(),
    })
}
