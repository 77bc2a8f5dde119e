//! The lines of routes, tables and indexes, in the order of their names.

ghost use Rattle.std.specs.Prelude.{◌≡◌, IfOk, map};
ghost use Rattle.std.specs.FinMap as names;
ghost use Rattle.rs_dump.specs.Sections.{index_commands, indexed_column, named_route, named_table, route_commands, route_seen, table_commands, table_seen};
ghost use Rattle.rs_dump.specs.Written.{WritesAll};
ghost use Rattle.rs_facts.specs.Query.{column_at};
ghost use Rattle.rs_syntax.specs.View.{column_tree};

use crate::held::NamedTable;
use crate::put::{put_index, put_route, put_table};
use crate::stop::Stop;
use rs_catalog::{Catalog, IndexEntry, NamedRoute};
use rs_methods::Name;
use rs_syntax::ColumnDefinition;
use std::alloc::{AllocError, Global};
use std::io::Write;

/// Writes the lines of the routes, in the order of their names.
pub fn write_routes<W: Write>(
    catalog: &Catalog,
    line: &mut Vec<u8>,
    output: &mut W,
) -> Result<(), Stop>
    ensures { WritesAll result (route_commands catalog.now) (W.contents output.old) (W.contents output.new) }
{
    for (name, route) in catalog.routes() {
        put_route(line, name, route.ends(), output)?;
    }
    Ok(())
}

/// Writes the lines of the tables, in the order of their names.
pub fn write_tables<W: Write>(
    catalog: &Catalog,
    line: &mut Vec<u8>,
    output: &mut W,
) -> Result<(), Stop>
    ensures { WritesAll result (table_commands catalog.now) (W.contents output.old) (W.contents output.new) }
{
    for (name, table) in catalog.tables() {
        put_table(line, name, table, output)?;
    }
    Ok(())
}

/// Writes the lines of the indexes, in the order of their names.
pub fn write_indexes<W: Write>(
    catalog: &Catalog,
    line: &mut Vec<u8>,
    output: &mut W,
) -> Result<(), Stop>
    ensures { WritesAll result (index_commands catalog.now) (W.contents output.old) (W.contents output.new) }
{
    for (name, index) in catalog.indexes() {
        let column = indexed_column(catalog, index);
        put_index(line, name, index.table(), &column, output)?;
    }
    Ok(())
}

/// The name of the column that an index is of.
fn indexed_column(catalog: &Catalog, index: &IndexEntry) -> Name
    ensures { result.bytes ≡ indexed_column catalog.now index.now }
{
    match catalog.table(index.table()) {
        Some(table) => column_name(table.columns(), usize::from(index.column())),
        None => Name::new(),
    }
}

/// The name of the column at a place; past the end one without bytes.
fn column_name(columns: &[ColumnDefinition], place: usize) -> Name
    ensures { result.bytes ≡ (column_at (map column_tree columns.now) place).0 }
{
    match columns.get(place) {
        Some(column) => column.name,
        None => Name::new(),
    }
}

/// The routes, in the order of their names.
pub fn routes_of(alloc: Global, catalog: &Catalog) -> Result<Vec<NamedRoute>, AllocError>
    ensures { IfOk result (λ routes. map route_seen routes.items ≡ map named_route (names.entries catalog.now.routes)) }
{
    let mut routes = Vec::new(alloc);
    for (name, route) in catalog.routes() {
        routes.push(NamedRoute {
            name: *name,
            route: *route,
        })?;
    }
    Ok(routes)
}

/// The tables, in the order of their names.
pub fn tables_of(alloc: Global, catalog: &Catalog) -> Result<Vec<NamedTable>, AllocError>
    ensures { IfOk result (λ tables. map table_seen tables.items ≡ map named_table (names.entries catalog.now.tables)) }
{
    let mut tables = Vec::new(alloc);
    for (name, table) in catalog.tables() {
        tables.push(NamedTable {
            name: *name,
            number: table.number(),
            kind: table.kind(),
        })?;
    }
    Ok(tables)
}
