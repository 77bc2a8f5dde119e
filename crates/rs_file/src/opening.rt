//! This module opens the tables of a file, its referents and its free pages, as the definitions and the directory say them.

ghost use Rattle.std.specs.Prelude.{◌≡◌, ◌↔◌, IfOk, IsTrue, OnOk, length};
ghost use Rattle.std.specs.List.{AllZip};
ghost use Rattle.rs_catalog_pages.specs.Items.{kind_of};
ghost use Rattle.rs_catalog_pages.specs.Said.{said_catalogue, said_directory, said_table, said_tree};
ghost use Rattle.rs_file.specs.Calls.{RefusesToLoad};
ghost use Rattle.rs_file.specs.Opening.{IsTableOf, told_of};
ghost use Rattle.rs_file.specs.OpeningCalls.{OpensAll, OpensEach, OpensItem};
ghost use Rattle.rs_pages.specs.Calls.{OnlyReads};
ghost use Rattle.rs_versioned.specs.Meant.{AreRising};
ghost use Rattle.rs_versioned.specs.ReferentCalls as referents;
ghost use Rattle.rs_page_marks.specs.Marks.{taken, unmarked};

use crate::definitions::{indexes_of, schema_of};
use crate::free_pages::reach_free;
use crate::opened::OpenedTable;
use rs_attr::ToldTable;
use rs_catalog_pages::{StoredCatalogue, StoredDirectory, StoredTable, StoredTree};
use rs_page_marks::Reached;
use rs_pages::Pages;
use rs_refusal::Refusal;
use rs_value::{Kind, Schema};
use rs_versioned::{ReferentTable, RouteSpan, ToldRecords};
use std::alloc::Global;

/// The tables with their indexes, and the referents; their pages and the free ones are marked, and no page is left. It is
/// refused with 90, with 91, and with 94 only where no contents with these definitions and this directory are there whose records
/// are meant, of which just the pages of the definitions were reached before. The routes are given by rising numbers. No page changes. Which pages are marked after a refusal is unspecified.
pub(crate) fn open_parts<P: Pages>(
    alloc: Global,
    pages: &mut P,
    definitions: &StoredCatalogue,
    directory: &StoredDirectory,
    routes: &[RouteSpan],
    reached: &mut Reached,
) -> Result<(Vec<OpenedTable>, ReferentTable), Refusal>
    requires rising { AreRising routes.now }
    ensures rests { OnlyReads P.Pages result pages.old pages.new }
    ensures opens { OpensAll P.Pages routes.now (said_directory directory.now) (said_catalogue definitions.now)
        (taken reached.old) (taken reached.new) result pages.old }
    ensures tables { IfOk result (λ parts. AllZip (IsTableOf (said_directory directory.now) (said_catalogue definitions.now))
        (said_catalogue definitions.now).tables parts.0.items) }
    ensures whole { OnOk result (unmarked reached.new ≡ 0) }
    ensures referents { IfOk result (λ parts. referents.IsOpened (told_of (said_tree directory.now.referents) directory.now.accepted) parts.1) }
    ensures refused { RefusesToLoad result }
{
    let tables = open_tables(alloc, pages, definitions, directory, routes, reached)?;
    let told = told_of(&directory.referents, directory.accepted);
    let referents = ReferentTable::open(alloc, pages, told, routes, reached)?;
    reach_free(pages, reached)?;
    if !is_whole(reached) {
        return Err(Refusal::DamagedFile);
    }
    Ok((tables, referents))
}

/// Whether each page was reached.
fn is_whole(reached: &Reached) -> bool
    ensures { IsTrue result ↔ (unmarked reached.now ≡ 0) }
{
    reached.left() == 0
}

/// What the directory says of a tree of records, with the version that was accepted last.
fn told_of(tree: &StoredTree, accepted: u64) -> ToldRecords
    ensures { result ≡ told_of (said_tree tree.now) accepted }
{
    ToldRecords {
        root: tree.root,
        living: tree.living,
        garbage: tree.garbage,
        accepted,
    }
}

/// The tables with their indexes; their pages are marked. Ok only where they lie there as the definitions and the directory
/// say, and are meant, in pages none of which was reached before; 94 only where no such tables do; 90 and 91. No page changes. Which pages are
/// marked after a refusal is unspecified.
fn open_tables<P: Pages>(
    alloc: Global,
    pages: &mut P,
    definitions: &StoredCatalogue,
    directory: &StoredDirectory,
    routes: &[RouteSpan],
    reached: &mut Reached,
) -> Result<Vec<OpenedTable>, Refusal>
    requires rising { AreRising routes.now }
    ensures rests { OnlyReads P.Pages result pages.old pages.new }
    ensures size { length reached.new ≡ length reached.old }
    ensures opens { OpensEach P.Pages routes.now (said_directory directory.now) (said_catalogue definitions.now)
        (taken reached.old) (taken reached.new) result pages.old }
    ensures tables { IfOk result (λ tables. AllZip (IsTableOf (said_directory directory.now) (said_catalogue definitions.now))
        (said_catalogue definitions.now).tables tables.items) }
    ensures refused { RefusesToLoad result }
{
    let mut tables = Vec::new(alloc);
    for item in definitions.tables.as_slice() {
        let table = open_table(alloc, pages, definitions, directory, item, routes, reached)?;
        tables.push(table)?;
    }
    Ok(tables)
}

/// The table of an item with its indexes; their pages are marked. Ok only where it lies there as the item and the directory
/// say, and is meant, in pages none of which was reached before; 94 only where no such table does; 90 and 91. No page changes. Which pages are
/// marked after a refusal is unspecified.
fn open_table<P: Pages>(
    alloc: Global,
    pages: &mut P,
    definitions: &StoredCatalogue,
    directory: &StoredDirectory,
    item: &StoredTable,
    routes: &[RouteSpan],
    reached: &mut Reached,
) -> Result<OpenedTable, Refusal>
    requires rising { AreRising routes.now }
    ensures rests { OnlyReads P.Pages result pages.old pages.new }
    ensures size { length reached.new ≡ length reached.old }
    ensures opens { OpensItem P.Pages routes.now (said_directory directory.now) (said_catalogue definitions.now) (said_table item.now)
        (taken reached.old) (taken reached.new) result pages.old }
    ensures table { IfOk result (IsTableOf (said_directory directory.now) (said_catalogue definitions.now) (said_table item.now)) }
    ensures refused { RefusesToLoad result }
{
    let Some(schema) = schema_of(item) else {
        return Err(Refusal::DamagedFile);
    };
    let Some(tree) = directory.tables.list.as_slice().get(item.number as usize) else {
        return Err(Refusal::DamagedFile);
    };
    let items = definitions.indexes.as_slice();
    let indexes = indexes_of(alloc, &schema, item.number, items, directory)?;
    let told = told_table(item, schema, told_of(tree, directory.accepted));
    let records = rs_attr::open(alloc, pages, told, indexes.as_slice(), routes, reached)?;
    Ok(OpenedTable { records, indexes })
}

/// What the item and the directory say of a table, with the columns of its item.
fn told_table(item: &StoredTable, schema: Schema, records: ToldRecords) -> ToldTable
    ensures kind { result.kind ≡ kind_of item.now.kind }
    ensures columns { result.schema.items ≡ schema.items }
    ensures records { result.records ≡ records }
{
    let kind = kind_of(item.kind);
    ToldTable {
        kind,
        schema,
        records,
    }
}

/// The kind that a table's item says: points where its code is 0, else lines.
fn kind_of(code: u8) -> Kind
    ensures { result ≡ kind_of code }
{
    if code == 0 { Kind::Point } else { Kind::Line }
}
