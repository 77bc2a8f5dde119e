//! What the catalogue keeps under a name: a route's number, birth and ends, a table's number, kind and columns, an index's number
//! and its table's column, a view's query and text, and an alignment's pieces.
//!
//! It promises that a route starts below its finish.

ghost use Rattle.std.specs.Prelude.{◌≡◌, ◌<◌, ◌≤◌, map, string_bytes};
ghost use Rattle.rs_measure.specs.declared.measure.TheConstants.{GREATEST_MEASURE};
ghost use Rattle.rs_facts.specs.Insert.{same_name};
ghost use Rattle.rs_syntax.specs.View.{column_tree};
ghost use Rattle.rs_catalog.specs.Definitions.{pieces_of};

use crate::numbers::Numbered;
use crate::uses::is_same;
use rs_measure::Measure;
use rs_methods::{Name, Route};
use rs_syntax::{ColumnDefinition, Piece, Query};
use rs_value::Kind;
use std::marker::Model;

/// Where a route starts and where it ends.
#[derive(Clone, Copy)]
pub struct Ends {
    start: Measure,
    finish: Measure,
}

impl Model for Ends {
    ghost use Rattle.std.specs.Prelude.{◌<◌};
    ghost use Rattle.rs_facts.specs.Query.{RouteEnds};

    ghost Value = { RouteEnds };

    ghost view = { λ e. record { start = e.start; finish = e.finish } };

    ghost invariant = { λ e. e.start < e.finish };

    ghost inverse = { λ e. record { start = e.start; finish = e.finish } };
}

impl Ends {
    /// A route's ends.
    pub fn new(start: Measure, finish: Measure) -> Self
        requires { start < finish }
        ensures value { result ≡ record { start = start; finish = finish } }
        ensures measured { finish ≤ GREATEST_MEASURE }
    {
        // For the proof: the finish is a measure.
        let _in_range = finish.thousandths();
        Ends { start, finish }
    }

    /// Where the route starts.
    pub fn start(self) -> Measure
        ensures { result ≡ self.start }
    {
        self.start
    }

    /// Where the route ends.
    pub fn finish(self) -> Measure
        ensures { result ≡ self.finish }
    {
        self.finish
    }

    /// The start is below the finish, which is a measure.
    pub fn stand(self)
        ensures ordered { self.start < self.finish }
        ensures measured { self.finish ≤ GREATEST_MEASURE }
    {
        // For the proof: the finish is a measure.
        let _in_range = self.finish.thousandths();
    }

    /// The route from one end to the other as positions see it, under a number.
    pub fn as_route(self, number: u32) -> Route
        ensures number { result.number ≡ number }
        ensures start { result.start ≡ self.start }
        ensures finish { result.finish ≡ self.finish }
    {
        Route {
            number,
            start: self.start,
            finish: self.finish,
        }
    }
}

/// A route: its number, the version from which on it is seen, and its ends.
#[derive(Clone, Copy)]
pub struct RouteEntry {
    number: u32,
    born: u64,
    ends: Ends,
}

impl Model for RouteEntry {
    ghost use Rattle.rs_catalog.specs.Codes.{route_code};
    ghost use Rattle.rs_catalog.specs.Definitions.{RouteItem};

    ghost Value = { RouteItem };

    ghost coded = { route_code };

    ghost view = { λ r. record { number = r.number; born = r.born; ends = r.ends } };

    ghost inverse = { λ item. record { number = item.number; born = item.born; ends = item.ends } };
}

impl Numbered for RouteEntry {
    ghost number_of = { λ item. item.number };

    fn own_number(&self) -> u32 {
        self.number
    }
}

impl RouteEntry {
    /// A route of this number, seen from this version on, from one end to the other.
    pub fn new(number: u32, born: u64, ends: Ends) -> Self
        ensures { result ≡ record { number = number; born = born; ends = ends } }
    {
        RouteEntry { number, born, ends }
    }

    /// The route's number.
    pub fn number(self) -> u32
        ensures { result ≡ self.number }
    {
        self.number
    }

    /// The version from which on it is seen: how many changes were accepted with the one that defined it.
    pub fn born(self) -> u64
        ensures { result ≡ self.born }
    {
        self.born
    }

    /// The route's ends.
    pub fn ends(self) -> Ends
        ensures { result ≡ self.ends }
    {
        self.ends
    }
}

/// A route by its name.
#[derive(Clone, Copy)]
pub struct NamedRoute {
    /// The route's name.
    pub name: Name,
    /// The route's number, and where it starts and ends.
    pub route: RouteEntry,
}

/// A table: its number, its kind and its columns.
#[derive(Drop)]
pub struct TableEntry {
    number: u32,
    kind: Kind,
    columns: Vec<ColumnDefinition>,
}

impl Model for TableEntry {
    ghost use Rattle.std.specs.Prelude.{map};
    ghost use Rattle.rs_syntax.specs.View.{column_tree};
    ghost use Rattle.rs_catalog.specs.Codes.{table_code};
    ghost use Rattle.rs_catalog.specs.Definitions.{TableItem};

    ghost Value = { TableItem };

    ghost coded = { table_code };

    ghost view = { λ t. record { number = t.number; kind = t.kind; columns = map column_tree t.columns.items } };
}

impl Numbered for TableEntry {
    ghost number_of = { λ item. item.number };

    fn own_number(&self) -> u32 {
        self.number
    }
}

impl TableEntry {
    /// A table of this number and kind with these columns.
    pub fn new(number: u32, kind: Kind, columns: Vec<ColumnDefinition>) -> Self
        ensures { result ≡ record { number = number; kind = kind; columns = map column_tree columns.items } }
    {
        TableEntry {
            number,
            kind,
            columns,
        }
    }

    /// The table's number.
    pub fn number(&self) -> u32
        ensures { result ≡ self.now.number }
    {
        self.number
    }

    /// Whether it holds points or lines.
    pub fn kind(&self) -> Kind
        ensures { result ≡ self.now.kind }
    {
        self.kind
    }

    /// Its columns, from the left.
    pub fn columns(&self) -> &[ColumnDefinition]
        ensures { map column_tree result.now ≡ self.now.columns }
    {
        &self.columns
    }
}

/// An index: its number, its table by name and by number, and the place of the column, the leftmost 0.
#[derive(Drop)]
pub struct IndexEntry {
    number: u32,
    table: Name,
    table_number: u32,
    column: u8,
}

impl Model for IndexEntry {
    ghost use Rattle.rs_catalog.specs.Codes.{index_code};
    ghost use Rattle.rs_catalog.specs.Definitions.{IndexItem};

    ghost Value = { IndexItem };

    ghost coded = { index_code };

    ghost view = { λ i. record { number = i.number; table = i.table.bytes; table_number = i.table_number; column = i.column } };
}

impl Numbered for IndexEntry {
    ghost number_of = { λ item. item.number };

    fn own_number(&self) -> u32 {
        self.number
    }
}

impl IndexEntry {
    /// An index of this number, of a column of the table of this name and number.
    pub fn new(number: u32, table: Name, table_number: u32, column: u8) -> Self
        ensures { result ≡ record { number = number; table = table.bytes; table_number = table_number; column = column } }
    {
        IndexEntry {
            number,
            table,
            table_number,
            column,
        }
    }

    /// The index's number.
    pub fn number(&self) -> u32
        ensures { result ≡ self.now.number }
    {
        self.number
    }

    /// The name of its table.
    pub fn table(&self) -> &Name
        ensures { result.now.bytes ≡ self.now.table }
    {
        &self.table
    }

    /// Whether it is of the table of this name.
    pub fn is_of(&self, table: &Name) -> bool
        ensures { result ≡ same_name table.now.bytes self.now.table }
    {
        is_same(table, &self.table)
    }

    /// The number of its table.
    pub fn table_number(&self) -> u32
        ensures { result ≡ self.now.table_number }
    {
        self.table_number
    }

    /// The place of its column, the leftmost 0.
    pub fn column(&self) -> u8
        ensures { result ≡ self.now.column }
    {
        self.column
    }
}

/// A view: its query, and the query's text as it was written.
#[derive(Drop)]
pub struct ViewEntry {
    query: Query,
    text: String,
}

impl Model for ViewEntry {
    ghost use Rattle.std.specs.Prelude.{string_bytes};
    ghost use Rattle.rs_catalog.specs.Codes.{view_code};
    ghost use Rattle.rs_catalog.specs.Definitions.{ViewItem};

    ghost Value = { ViewItem };

    ghost coded = { view_code };

    ghost view = { λ v. record { query = v.query; text = string_bytes v.text } };
}

impl ViewEntry {
    /// A view of this query, with the query's text.
    pub fn new(query: Query, text: String) -> Self
        ensures { result ≡ record { query = query; text = string_bytes text } }
    {
        ViewEntry { query, text }
    }

    /// The view's query.
    pub fn query(&self) -> &Query
        ensures { result.now ≡ self.now.query }
    {
        &self.query
    }

    /// The query's text as it was written.
    pub fn text(&self) -> &str
        ensures { result.now ≡ self.now.text }
    {
        self.text.as_str()
    }
}

/// An alignment: its pieces, as they were written.
#[derive(Drop)]
pub struct AlignmentEntry {
    pieces: Vec<Piece>,
}

impl Model for AlignmentEntry {
    ghost use Rattle.std.specs.Prelude.{List};
    ghost use Rattle.rs_facts.specs.Query.{Piece};
    ghost use Rattle.rs_catalog.specs.Codes.{pieces_code};
    ghost use Rattle.rs_catalog.specs.Definitions.{pieces_of};

    ghost Value = { List Piece };

    ghost coded = { pieces_code };

    ghost view = { λ a. pieces_of a.pieces.items };
}

impl AlignmentEntry {
    /// An alignment of these pieces.
    pub fn new(pieces: Vec<Piece>) -> Self
        ensures { result ≡ pieces_of pieces.items }
    {
        AlignmentEntry { pieces }
    }

    /// Its pieces, as they were written.
    pub fn pieces(&self) -> &[Piece]
        ensures { pieces_of result.now ≡ self.now }
    {
        &self.pieces
    }
}
