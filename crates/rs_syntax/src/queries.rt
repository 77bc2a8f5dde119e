//! The syntax tree of a query and of a condition: tables, views, columns and alignments by name.
//!
//! Names have 1 to `NAME_BYTES` bytes, and each list but that of DISSOLVE's columns has one item at least.

use rs_methods::{Name, Position};
use rs_value::{Comparison, Literal};

/// A whole route, or a part of it.
#[derive(Clone, Copy)]
pub enum Window {
    /// The whole route, its end among it.
    Whole {
        /// The route's name.
        route: Name,
    },
    /// The route from one position on and below another.
    Part {
        /// The route's name.
        route: Name,
        /// Where the part begins.
        from: Position,
        /// Where it ends.
        to: Position,
    },
}

/// What a column is compared with.
#[derive(Drop)]
pub enum Operand {
    /// A column by its name.
    Column(Name),
    /// A number or a text.
    Value(Literal),
}

/// A part of a condition that AND and OR put together.
#[derive(Drop)]
pub enum Atom {
    /// A column by its name is compared; false where either value is NULL.
    Compare(Name, Comparison, Operand),
    /// The column of this name holds NULL.
    IsNull(Name),
    /// The column of this name does not hold NULL.
    IsNotNull(Name),
    /// `NOT` before a condition in brackets: an OR of ANDs.
    Negated(Vec<Vec<Atom>>),
    /// A condition in brackets: an OR of ANDs.
    Bracketed(Vec<Vec<Atom>>),
}

/// A query.
#[derive(Drop)]
pub enum Query {
    /// The rows of a table, or of a view's query, by its name.
    Named(Name),
    /// The rows that meet a condition, an OR of ANDs.
    Where(Box<Query>, Vec<Vec<Atom>>),
    /// Of each row the columns named; also ArcGIS's Dissolve Route Events, since equal rows are joined in printing.
    Dissolve(Box<Query>, Vec<Name>),
    /// The same rows; the column of the first name has the second.
    Rename(Box<Query>, Name, Name),
    /// Each row of the first before each row of the second (ArcGIS's Overlay Route Events, intersection).
    Overlay(Box<Query>, Box<Query>),
    /// OVERLAY, and where one alone has rows, these beside NULLs (ArcGIS's Overlay Route Events, union).
    Cover(Box<Query>, Box<Query>),
    /// The rows of either.
    Merge(Box<Query>, Box<Query>),
    /// The rows of the first that the second does not have.
    Minus(Box<Query>, Box<Query>),
    /// The rows inside a window.
    Window(Box<Query>, Window),
    /// The rows carried by the pieces of an alignment, by its name (ArcGIS's Transform Route Events, without
    /// stretching).
    Transform(Box<Query>, Name),
    /// The row without columns wherever, between the ends of a route, the query has no row.
    Gaps(Box<Query>),
}
