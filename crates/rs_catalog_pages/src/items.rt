//! Reads the definitions of a file as items from bytes, and appends them.
//!
//! Numbers and codes are those that are stored. Whether they fit one another is not asked here.

ghost use Rattle.std.specs.Prelude.{◌≡◌, ◌⊎◌, IfOk, IfErr, OnOk};
ghost use Rattle.rs_refusal.specs.declared.refusal.Refusal.TheVariants as refusals;
ghost use Rattle.rs_bytes.specs.Codes.{SaysBoth, SaysNumber, Writes};
ghost use Rattle.rs_catalog_pages.specs.Fitting.{FitsRoute, FitsColumn, FitsTable, FitsIndex, FitsView, FitsPiece, FitsAlignment, FitsCatalogue};
ghost use Rattle.rs_catalog_pages.specs.Items.{RouteItem, ColumnItem, TableItem, IndexItem, ViewItem, PieceItem, AlignmentItem, CatalogueItems, SaysRoute, SaysColumn, SaysTable, SaysIndex, SaysView, SaysPiece, SaysAlignment, SaysCatalogue};
ghost use Rattle.rs_catalog_pages.specs.Laws.{route_one, route_fits, column_one, column_fits, table_one, table_fits, index_one, index_fits, view_one, view_fits, piece_one, piece_fits, alignment_one, alignment_fits, catalogue_one, catalogue_fits};
ghost use Rattle.rs_catalog_pages.specs.Said.{said_route, said_column, said_table, said_index, said_view, said_piece, said_alignment, said_catalogue};

use rs_bytes::{Item, LongText, Reader, ShortList};
use rs_refusal::Refusal;
use std::alloc::{AllocError, Global};
use std::rc::Rc;

/// A route: its name and number, where it starts and ends in thousandths, and the version from which on it is seen.
#[derive(Drop)]
pub struct StoredRoute {
    /// Its name, which other lists of definitions may share.
    pub name: Rc<String>,
    /// Its number.
    pub number: u32,
    /// Where it starts, in thousandths.
    pub start: u32,
    /// Where it ends, in thousandths.
    pub finish: u32,
    /// The version from which on it is seen.
    pub born: u64,
}

type RouteParts = (String, (u32, (u32, (u32, u64))));

impl Item for StoredRoute {
    ghost Said = { RouteItem };

    ghost said = { said_route };

    ghost says = { SaysRoute };

    ghost fits = { FitsRoute };

    ghost one = { route_one };

    ghost fitting = { route_fits };

    fn read(alloc: Global, reader: &mut Reader<'_>) -> Result<StoredRoute, Refusal> {
        let (name, (number, (start, (finish, born)))) = RouteParts::read(alloc, reader)?;
        Ok(StoredRoute {
            name: Rc::new(alloc, name)?,
            number,
            start,
            finish,
            born,
        })
    }

    fn write(&self, bytes: &mut Vec<u8>) -> Result<(), AllocError> {
        self.name.write(bytes)?;
        write_three(self.number, self.start, self.finish, bytes)?;
        self.born.write(bytes)
    }
}

/// Appends three numbers of four bytes at once: of all definitions routes are written most often.
fn write_three(first: u32, second: u32, third: u32, bytes: &mut Vec<u8>) -> Result<(), AllocError>
    ensures { OnOk result (Writes (SaysBoth (SaysNumber 4) (SaysBoth (SaysNumber 4) (SaysNumber 4)))
        bytes.old.items (first, (second, third)) bytes.new.items) }
{
    let numbers = [
        first.to_be_bytes(),
        second.to_be_bytes(),
        third.to_be_bytes(),
    ];
    bytes.extend_from_slice(numbers.as_flattened())
}

/// A column of a table.
#[derive(Drop)]
pub struct StoredColumn {
    /// Its name.
    pub name: String,
    /// 0: numbers; else the greatest length of a text, in bytes.
    pub type_code: u8,
}

type ColumnParts = (String, u8);

impl Item for StoredColumn {
    ghost Said = { ColumnItem };

    ghost said = { said_column };

    ghost says = { SaysColumn };

    ghost fits = { FitsColumn };

    ghost one = { column_one };

    ghost fitting = { column_fits };

    fn read(alloc: Global, reader: &mut Reader<'_>) -> Result<StoredColumn, Refusal> {
        let (name, type_code) = ColumnParts::read(alloc, reader)?;
        Ok(StoredColumn { name, type_code })
    }

    fn write(&self, bytes: &mut Vec<u8>) -> Result<(), AllocError> {
        self.name.write(bytes)?;
        self.type_code.write(bytes)
    }
}

/// A table, with its columns in order.
#[derive(Drop)]
pub struct StoredTable {
    /// Its name.
    pub name: String,
    /// Its number.
    pub number: u32,
    /// 0: points; 1: lines.
    pub kind: u8,
    /// Its columns.
    pub columns: ShortList<StoredColumn>,
}

type TableParts = (String, (u32, (u8, ShortList<StoredColumn>)));

impl Item for StoredTable {
    ghost Said = { TableItem };

    ghost said = { said_table };

    ghost says = { SaysTable };

    ghost fits = { FitsTable };

    ghost one = { table_one };

    ghost fitting = { table_fits };

    fn read(alloc: Global, reader: &mut Reader<'_>) -> Result<StoredTable, Refusal> {
        let (name, (number, (kind, columns))) = TableParts::read(alloc, reader)?;
        Ok(StoredTable {
            name,
            number,
            kind,
            columns,
        })
    }

    fn write(&self, bytes: &mut Vec<u8>) -> Result<(), AllocError> {
        self.name.write(bytes)?;
        self.number.write(bytes)?;
        self.kind.write(bytes)?;
        self.columns.write(bytes)
    }
}

/// An index of a column of a table.
#[derive(Drop)]
pub struct StoredIndex {
    /// Its name.
    pub name: String,
    /// Its number.
    pub number: u32,
    /// The number of its table.
    pub table: u32,
    /// The place of its column, from 0.
    pub column: u8,
}

type IndexParts = (String, (u32, (u32, u8)));

impl Item for StoredIndex {
    ghost Said = { IndexItem };

    ghost said = { said_index };

    ghost says = { SaysIndex };

    ghost fits = { FitsIndex };

    ghost one = { index_one };

    ghost fitting = { index_fits };

    fn read(alloc: Global, reader: &mut Reader<'_>) -> Result<StoredIndex, Refusal> {
        let (name, (number, (table, column))) = IndexParts::read(alloc, reader)?;
        Ok(StoredIndex {
            name,
            number,
            table,
            column,
        })
    }

    fn write(&self, bytes: &mut Vec<u8>) -> Result<(), AllocError> {
        self.name.write(bytes)?;
        self.number.write(bytes)?;
        self.table.write(bytes)?;
        self.column.write(bytes)
    }
}

/// A view, and its query as it was written.
#[derive(Drop)]
pub struct StoredView {
    /// Its name.
    pub name: String,
    /// The text of its query.
    pub text: LongText,
}

type ViewParts = (String, LongText);

impl Item for StoredView {
    ghost Said = { ViewItem };

    ghost said = { said_view };

    ghost says = { SaysView };

    ghost fits = { FitsView };

    ghost one = { view_one };

    ghost fitting = { view_fits };

    fn read(alloc: Global, reader: &mut Reader<'_>) -> Result<StoredView, Refusal> {
        let (name, text) = ViewParts::read(alloc, reader)?;
        Ok(StoredView { name, text })
    }

    fn write(&self, bytes: &mut Vec<u8>) -> Result<(), AllocError> {
        self.name.write(bytes)?;
        self.text.write(bytes)
    }
}

/// A piece of an alignment: a part of a route, and where it is carried.
#[derive(Drop)]
pub struct StoredPiece {
    /// The number of the route.
    pub from_route: u32,
    /// Where the part begins, in thousandths.
    pub from: u32,
    /// Where the part ends, in thousandths.
    pub to: u32,
    /// The number of the route that it is carried onto.
    pub onto_route: u32,
    /// Where its begin is carried, in thousandths.
    pub onto: u32,
}

type PieceParts = (u32, (u32, (u32, (u32, u32))));

impl Item for StoredPiece {
    ghost Said = { PieceItem };

    ghost said = { said_piece };

    ghost says = { SaysPiece };

    ghost fits = { FitsPiece };

    ghost one = { piece_one };

    ghost fitting = { piece_fits };

    fn read(alloc: Global, reader: &mut Reader<'_>) -> Result<StoredPiece, Refusal> {
        let (from_route, (from, (to, (onto_route, onto)))) = PieceParts::read(alloc, reader)?;
        Ok(StoredPiece {
            from_route,
            from,
            to,
            onto_route,
            onto,
        })
    }

    fn write(&self, bytes: &mut Vec<u8>) -> Result<(), AllocError> {
        self.from_route.write(bytes)?;
        self.from.write(bytes)?;
        self.to.write(bytes)?;
        self.onto_route.write(bytes)?;
        self.onto.write(bytes)
    }
}

/// An alignment, with its pieces in order.
#[derive(Drop)]
pub struct StoredAlignment {
    /// Its name.
    pub name: String,
    /// Its pieces.
    pub pieces: ShortList<StoredPiece>,
}

type AlignmentParts = (String, ShortList<StoredPiece>);

impl Item for StoredAlignment {
    ghost Said = { AlignmentItem };

    ghost said = { said_alignment };

    ghost says = { SaysAlignment };

    ghost fits = { FitsAlignment };

    ghost one = { alignment_one };

    ghost fitting = { alignment_fits };

    fn read(alloc: Global, reader: &mut Reader<'_>) -> Result<StoredAlignment, Refusal> {
        let (name, pieces) = AlignmentParts::read(alloc, reader)?;
        Ok(StoredAlignment { name, pieces })
    }

    fn write(&self, bytes: &mut Vec<u8>) -> Result<(), AllocError> {
        self.name.write(bytes)?;
        self.pieces.write(bytes)
    }
}

/// The definitions of a file, each list by name.
#[derive(Drop)]
pub struct StoredCatalogue {
    /// The routes.
    pub routes: Vec<StoredRoute>,
    /// The tables.
    pub tables: Vec<StoredTable>,
    /// The indexes.
    pub indexes: Vec<StoredIndex>,
    /// The views.
    pub views: Vec<StoredView>,
    /// The alignments.
    pub alignments: Vec<StoredAlignment>,
}

type CatalogueParts = (
    Vec<StoredRoute>,
    (
        Vec<StoredTable>,
        (Vec<StoredIndex>, (Vec<StoredView>, Vec<StoredAlignment>)),
    ),
);

impl Item for StoredCatalogue {
    ghost Said = { CatalogueItems };

    ghost said = { said_catalogue };

    ghost says = { SaysCatalogue };

    ghost fits = { FitsCatalogue };

    ghost one = { catalogue_one };

    ghost fitting = { catalogue_fits };

    fn read(alloc: Global, reader: &mut Reader<'_>) -> Result<StoredCatalogue, Refusal> {
        let (routes, (tables, (indexes, (views, alignments)))) = CatalogueParts::read(
            alloc, reader,
        )?;
        Ok(StoredCatalogue {
            routes,
            tables,
            indexes,
            views,
            alignments,
        })
    }

    fn write(&self, bytes: &mut Vec<u8>) -> Result<(), AllocError> {
        self.routes.write(bytes)?;
        self.tables.write(bytes)?;
        self.indexes.write(bytes)?;
        self.views.write(bytes)?;
        self.alignments.write(bytes)
    }
}
