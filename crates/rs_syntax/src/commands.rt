//! The syntax tree: the commands that a line may be.
//!
//! Names have 1 to `NAME_BYTES` bytes, and each list but that of TOTAL's columns has one item at least.

use crate::queries::{Atom, Query, Window};
use rs_measure::Measure;
use rs_methods::{Method, Name, Position};
use rs_value::{ColumnType, Kind, Literal};

/// A column of a table: its name and what it holds.
#[derive(Clone, Copy, Default)]
pub struct ColumnDefinition {
    /// Its name, of 1 to 32 bytes.
    pub name: Name,
    /// What it holds: numbers, or texts of so many bytes at the most.
    pub column_type: ColumnType,
}

/// Where an event is put on its route.
#[derive(Clone, Copy)]
pub enum EventLocation {
    /// Along the span between two positions.
    Along {
        /// Where the span begins; it holds there.
        from: Position,
        /// Where it ends; it does not hold there.
        to: Position,
    },
    /// At a position.
    At {
        /// Where it holds.
        position: Position,
    },
}

/// A piece of an alignment: a part of a route, carried onto a route without stretching.
#[derive(Clone, Copy)]
pub struct Piece {
    /// The route of which a part is carried.
    pub from_route: Name,
    /// Where the part begins, in thousandths.
    pub from: Measure,
    /// Where it ends, in thousandths; it may be written below the beginning.
    pub to: Measure,
    /// The route onto which it is carried.
    pub onto_route: Name,
    /// Where its beginning is put there, in thousandths.
    pub onto: Measure,
}

/// A command of a line.
#[derive(Drop)]
pub enum Command {
    /// A route from its start to its finish.
    DefineRoute {
        /// The route's name.
        name: Name,
        /// Where it starts, in thousandths.
        start: Measure,
        /// Where it ends, in thousandths; it may be written below the start.
        finish: Measure,
    },
    /// A table for events of one kind.
    DefineTable {
        /// Whether it holds points or lines.
        kind: Kind,
        /// The table's name.
        name: Name,
        /// Its columns, from the left; two of them may still have one name.
        columns: Vec<ColumnDefinition>,
    },
    /// A referent of a route, at a position.
    DefineReferent {
        /// The route's name.
        route: Name,
        /// The referent's name.
        name: Name,
        /// Where it is put on the route.
        position: Position,
    },
    /// An index of a column of a table.
    DefineIndex {
        /// The index's name.
        name: Name,
        /// The table's name.
        table: Name,
        /// The column's name.
        column: Name,
    },
    /// A query under a name.
    DefineView {
        /// The view's name.
        name: Name,
        /// What is asked for under the name.
        query: Query,
        /// The query's text as the line writes it, from its first token to its last.
        text: String,
    },
    /// Pieces of routes that are carried onto routes, under a name.
    DefineAlignment {
        /// The alignment's name.
        name: Name,
        /// Its pieces, as they are written.
        pieces: Vec<Piece>,
    },
    /// Another position for a referent of a route.
    MoveReferent {
        /// The route's name.
        route: Name,
        /// The referent's name.
        name: Name,
        /// Where it is moved on the route.
        position: Position,
    },
    /// A route, to be dropped with its referents.
    DropRoute {
        /// The route's name.
        name: Name,
    },
    /// A table, to be dropped.
    DropTable {
        /// The table's name.
        name: Name,
    },
    /// An index, to be dropped.
    DropIndex {
        /// The index's name.
        name: Name,
    },
    /// A view, to be dropped.
    DropView {
        /// The view's name.
        name: Name,
    },
    /// An alignment, to be dropped.
    DropAlignment {
        /// The alignment's name.
        name: Name,
    },
    /// A referent of a route, to be dropped.
    DropReferent {
        /// The route's name.
        route: Name,
        /// The referent's name.
        name: Name,
    },
    /// An event for a table: its place on a route, and its row.
    Insert {
        /// The table's name.
        table: Name,
        /// The route's name.
        route: Name,
        /// Where the row is put on the route.
        place: EventLocation,
        /// The row as it is written, from the left; a text may be longer than its column.
        values: Vec<Literal>,
    },
    /// Rows of a table, to be taken away.
    Remove {
        /// The table's name.
        table: Name,
        /// Where rows are taken away.
        window: Window,
        /// Which rows, an OR of ANDs; all where the line says nothing of it.
        condition: Option<Vec<Vec<Atom>>>,
    },
    /// A position on a route, to be printed by a method.
    Translate {
        /// The route's name.
        route: Name,
        /// The position on it.
        position: Position,
        /// How it is to be printed.
        method: Method,
    },
    /// The rows of a query, their positions printed by a method.
    Select {
        /// What is asked for.
        query: Query,
        /// How positions are to be printed; absolute where the line says nothing of it.
        method: Method,
    },
    /// Of each group of a query's rows, at how many places it holds and what a column adds up to.
    Total {
        /// The query whose rows are grouped.
        query: Query,
        /// The columns whose values make a group; without one all rows are one group.
        by: Vec<Name>,
        /// The column that is summed, if any.
        summed: Option<Name>,
    },
    /// The plan of a query, to be printed.
    Explain {
        /// What is asked for.
        query: Query,
    },
    /// A cursor on the rows of a query as they are now, their positions printed by a method.
    Open {
        /// The cursor's name.
        cursor: Name,
        /// What is asked for.
        query: Query,
        /// How positions are to be printed; absolute where the line says nothing of it.
        method: Method,
    },
    /// The next rows of a cursor.
    Fetch {
        /// The cursor's name.
        cursor: Name,
        /// How many rows at the most, from 1 to `FETCHED_ROWS`.
        rows: u32,
    },
    /// A cursor, to be closed.
    Close {
        /// The cursor's name.
        cursor: Name,
    },
    /// All that was accepted, to be written and synced.
    Save,
    /// The file, to be closed and opened again; every cursor goes.
    Reopen,
}
