//! A checked query: its tables are there, its columns go by place, views are opened, and windows are located. Tables and
//! routes are there by name and by number.

use arrayvec::ArrayVec;
use rs_facts::Condition;
use rs_syntax::{ColumnDefinition, Name, Piece};
use rs_value::{COLUMNS, Kind};

/// A table as the catalogue has it.
#[derive(Clone, Copy)]
pub struct CheckedTable {
    /// The table's name.
    pub name: Name,
    /// The table's number.
    pub number: u32,
    /// Whether its rows are points or lines.
    pub kind: Kind,
    /// How many columns it has.
    pub width: u8,
}

/// A whole route, or the part of it between two thousandths.
#[derive(Clone, Copy)]
pub enum LocatedWindow {
    /// The whole route.
    Whole {
        /// The route's name.
        route: Name,
        /// The route's number.
        number: u32,
    },
    /// A part of the route.
    Part {
        /// The route's name.
        route: Name,
        /// The route's number.
        number: u32,
        /// The first thousandth inside.
        from: u32,
        /// The first thousandth after it.
        to: u32,
    },
}

/// A piece of an alignment with the numbers of its routes.
#[derive(Clone, Copy)]
pub struct LocatedPiece {
    /// The piece.
    pub piece: Piece,
    /// The number of the route of which a part is carried.
    pub from_number: u32,
    /// The number of the route onto which it is carried.
    pub onto_number: u32,
}

/// What a query asks for once it is checked.
#[derive(Drop)]
pub enum CheckedQuery {
    /// The rows of a table.
    Table(CheckedTable),
    /// The rows that meet a condition.
    Where(Box<CheckedQuery>, Condition),
    /// Of each row the columns at these places, the leftmost 0.
    Dissolve(Box<CheckedQuery>, Vec<u8>),
    /// The same rows; the column at this place has another name.
    Rename(Box<CheckedQuery>, u8, Name),
    /// Each row of the first before each row of the second.
    Overlay(Box<CheckedQuery>, Box<CheckedQuery>),
    /// OVERLAY, and where one alone has rows, these beside NULLs. The numbers are the operands' widths.
    Cover(u8, u8, Box<CheckedQuery>, Box<CheckedQuery>),
    /// The rows of either.
    Merge(Box<CheckedQuery>, Box<CheckedQuery>),
    /// The rows of the first that the second does not have.
    Minus(Box<CheckedQuery>, Box<CheckedQuery>),
    /// The rows inside a window.
    Window(Box<CheckedQuery>, LocatedWindow),
    /// The rows carried by the pieces of the alignment of this name.
    Transform(Box<CheckedQuery>, Name, Vec<LocatedPiece>),
    /// The row without columns wherever, between the ends of a route, there is no row.
    Gaps(Box<CheckedQuery>),
}

/// The columns of a query, from the left.
pub type Columns = ArrayVec<ColumnDefinition, COLUMNS>;

/// A checked query with its kind and its columns.
#[derive(Drop)]
pub struct Checked {
    /// What is asked for.
    pub query: CheckedQuery,
    /// Whether its rows are points or lines.
    pub kind: Kind,
    /// Its columns, from the left.
    pub columns: Columns,
}
