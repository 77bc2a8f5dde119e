//! A plan as a tree, which can be evaluated when what it was made of is gone.
//!
//! Columns go by place and windows are located. Tables, routes and indexes go by number; their names are those that they
//! had when the plan was made.

use rs_facts::Condition;
use rs_measure::Measure;
use rs_methods::Name;
use rs_value::Kind;

/// An index by which a leaf finds its records.
#[derive(Clone, Copy)]
pub struct PlannedIndex {
    /// The index's name.
    pub name: Name,
    /// The index's number.
    pub number: u32,
}

/// How a leaf finds the records of its table.
#[derive(Clone, Copy)]
pub enum Access {
    /// All records of all routes.
    Scan,
    /// Those that meet the windows.
    Range,
    /// Those whose indexed column has the value of a condition.
    Index(PlannedIndex),
}

/// The table of a leaf.
#[derive(Clone, Copy)]
pub struct PlannedTable {
    /// The table's name.
    pub name: Name,
    /// The table's number.
    pub number: u32,
    /// Whether its rows are points or lines.
    pub kind: Kind,
    /// How many columns it has.
    pub width: u8,
}

/// A route.
#[derive(Clone, Copy)]
pub struct PlannedRoute {
    /// The route's name.
    pub name: Name,
    /// The route's number.
    pub number: u32,
}

/// A whole route, or the part of it between two thousandths.
#[derive(Clone, Copy)]
pub enum PlannedWindow {
    /// The whole route.
    Whole {
        /// The route.
        route: PlannedRoute,
    },
    /// A part of the route.
    Part {
        /// The route.
        route: PlannedRoute,
        /// The first thousandth inside.
        from: u32,
        /// The first thousandth after it.
        to: u32,
    },
}

/// A piece of an alignment: a part of a route, carried onto a route without stretching.
#[derive(Clone, Copy)]
pub struct PlannedPiece {
    /// The route of which a part is carried.
    pub from_route: PlannedRoute,
    /// Where the part begins, in thousandths.
    pub from: Measure,
    /// Where it ends, in thousandths.
    pub to: Measure,
    /// The route onto which it is carried.
    pub onto_route: PlannedRoute,
    /// Where its beginning is put there, in thousandths.
    pub onto: Measure,
}

/// The rows of a table inside all windows that meet all conditions.
#[derive(Drop)]
pub struct Leaf {
    /// How the records are found.
    pub access: Access,
    /// The table.
    pub table: PlannedTable,
    /// The windows; with none, all routes.
    pub windows: Vec<PlannedWindow>,
    /// The conditions.
    pub conditions: Vec<Condition>,
}

/// A plan.
#[derive(Drop)]
pub enum Plan {
    /// The rows of a table.
    Leaf(Leaf),
    /// The rows that meet all conditions.
    Where(Vec<Condition>, Box<Plan>),
    /// Of each row the columns at these places, the leftmost 0.
    Dissolve(Vec<u8>, Box<Plan>),
    /// The rows of the operands side by side, in the order in which they are evaluated; of each column from the left its
    /// place among the operands' columns.
    Overlay(Vec<u8>, Vec<Plan>),
    /// Rows of both side by side, and where one alone has rows, these beside NULLs. The numbers are the operands' widths.
    Cover(u8, u8, Box<Plan>, Box<Plan>),
    /// The rows of either.
    Merge(Box<Plan>, Box<Plan>),
    /// The rows of the first that the second does not have.
    Minus(Box<Plan>, Box<Plan>),
    /// The rows inside all windows.
    Window(Vec<PlannedWindow>, Box<Plan>),
    /// The rows carried by the pieces of the alignment of this name.
    Transform(Name, Vec<PlannedPiece>, Box<Plan>),
    /// The row without columns wherever, between the ends of a route, there is no row.
    Gaps(Box<Plan>),
}
