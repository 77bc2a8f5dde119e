//! Positions as a line writes them, and the methods by which they are printed.
//!
//! A referent's name has at most as many bytes as any name. `locate` says where a position lies on a route,
//! and `express` how a measure is printed by a method.

use arrayvec::ArrayString;
use rs_grammar::kind::NAME_BYTES;
use rs_measure::{Measure, Part};

/// The referent that every route has at its start.
pub const START: &str = "START";

/// A name of a route, table, column or referent.
pub type Name = ArrayString<NAME_BYTES>;

/// Whether a measure is counted beyond a referent or before it.
#[derive(Clone, Copy, PartialEq, Eq)]
pub enum Sign {
    /// Beyond it.
    Plus,
    /// Before it.
    Minus,
}

/// A position on a route: measures in thousandths, parts in billionths of the route's length.
#[derive(Clone, Copy)]
pub enum Position {
    /// The measure itself.
    Absolute(Measure),
    /// A measure beyond or before the referent of that name.
    Relative(Name, Sign, Measure),
    /// A part of the route's length, from its start.
    Interpolative(Part),
}

/// The method of linear referencing by which a position is printed. The names absolute, relative and
/// interpolative are those of ISO 19148; what each means here is this project's own.
#[derive(Clone, Copy, PartialEq, Eq)]
pub enum Method {
    /// The measure itself.
    Absolute,
    /// Beyond the nearest referent below.
    Relative,
    /// As a part of the route's length.
    Interpolative,
}
