//! The line of each command of a dump is written.
//!
//! It promises that exactly the line is appended, without its LF, unless memory runs out.

ghost use Rattle.std.specs.Prelude.{◌≡◌, ◌++◌, ℕ, List, OnOk, map};
ghost use Rattle.rs_dump_laws.specs.Dump.{location_of};
ghost use Rattle.rs_dump_laws.specs.Lines.{dump_line, kind_word, span_text};
ghost use Rattle.rs_dump_lines.specs.Texts.{FileSays, ends_text, measures_text, place_word, row_front};
ghost use Rattle.rs_facts.specs.Runs.{stretch};
ghost use Rattle.rs_methods.specs.Position.{absolute};
ghost use Rattle.rs_syntax.specs.Tree.{QueryTree, define_alignment, define_index, define_referent, define_route, define_table, define_view, insert};
ghost use Rattle.rs_syntax.specs.View.{column_tree, piece_tree};
ghost use Rattle.rs_value.specs.Row.{Row};

use crate::lists::{push_bracketed, push_row};
use crate::measures::push_measure;
use crate::parts::push_text;
use crate::rows::FileRow;
use rs_measure::Measure;
use rs_methods::Name;
use rs_syntax::{ColumnDefinition, Piece};
use rs_value::Kind;
use std::alloc::AllocError;

/// Appends the line that defines a route from one measure to another. Where memory runs out, a part may have been appended.
pub fn push_route_line(
    text: &mut Vec<u8>,
    name: &Name,
    start: Measure,
    finish: Measure,
) -> Result<(), AllocError>
    ensures { OnOk result (text.new.items ≡ text.old.items ++ dump_line (define_route name.now.bytes start finish)) }
{
    push_text(text, "0 DEFINE ROUTE ")?;
    push_text(text, name.as_str())?;
    push_span(text, start.thousandths(), finish.thousandths())
}

/// Appends the line that defines a referent of a route at a measure. Where memory runs out, a part may have been appended.
pub fn push_referent_line(
    text: &mut Vec<u8>,
    route: &Name,
    name: &Name,
    measure: Measure,
) -> Result<(), AllocError>
    ensures { OnOk result (text.new.items ≡ text.old.items ++ dump_line (define_referent route.now.bytes name.now.bytes (absolute measure))) }
{
    push_text(text, "0 DEFINE REFERENT ")?;
    push_text(text, route.as_str())?;
    push_text(text, " ")?;
    push_text(text, name.as_str())?;
    push_text(text, " AT ")?;
    push_measure(text, measure.thousandths())
}

/// Appends the line that defines a table of these columns. Where memory runs out, a part may have been appended.
pub fn push_table_line(
    text: &mut Vec<u8>,
    kind: Kind,
    name: &Name,
    columns: &[ColumnDefinition],
) -> Result<(), AllocError>
    ensures { OnOk result (text.new.items ≡ text.old.items ++ dump_line (define_table kind name.now.bytes (map column_tree columns.now))) }
{
    push_text(text, "0 DEFINE ")?;
    push_text(text, kind_word(kind))?;
    push_text(text, " TABLE ")?;
    push_text(text, name.as_str())?;
    push_bracketed(text, columns)
}

/// Appends what the lines of all rows of a table of this kind on a route begin with, up to a row's first measure. Where memory runs out, a
/// part may have been appended.
pub fn push_row_front(
    text: &mut Vec<u8>,
    kind: Kind,
    table: &Name,
    route: &Name,
) -> Result<(), AllocError>
    ensures { OnOk result (text.new.items ≡ text.old.items ++ row_front kind table.now.bytes route.now.bytes) }
{
    push_text(text, "0 INSERT INTO ")?;
    push_text(text, table.as_str())?;
    push_text(text, " ON ")?;
    push_text(text, route.as_str())?;
    push_text(text, place_word(kind))
}

/// Appends the line that inserts a row of a table of this kind on a route, whose front `push_row_front` gives. Where memory runs out, a
/// part may have been appended.
pub fn push_row_line(
    text: &mut Vec<u8>,
    front: &[u8],
    kind: Kind,
    row: &FileRow<'_>,
) -> Result<(), AllocError>
    requires says { (said : Row) × FileSays row.now said }
    ensures { (table route : List ℕ) (said : Row) → front.now ≡ row_front kind table route → FileSays row.now said
        → OnOk result (text.new.items ≡ text.old.items
        ++ dump_line (insert table route (location_of kind (stretch row.now.lo row.now.hi said)) said)) }
{
    text.extend_from_slice(front)?;
    push_measures(text, kind, row.lo, row.hi)?;
    text.extend_from_slice(b" VALUES")?;
    push_row(text, row.columns, row.bytes)
}

/// Appends the line that defines an alignment of these pieces. Where memory runs out, a part may have been appended.
pub fn push_alignment_line(
    text: &mut Vec<u8>,
    name: &Name,
    pieces: &[Piece],
) -> Result<(), AllocError>
    ensures { OnOk result (text.new.items ≡ text.old.items ++ dump_line (define_alignment name.now.bytes (map piece_tree pieces.now))) }
{
    push_text(text, "0 DEFINE ALIGNMENT ")?;
    push_text(text, name.as_str())?;
    push_bracketed(text, pieces)
}

/// Appends the line that defines a view with the text of its query. Where memory runs out, a part may have been appended.
pub fn push_view_line(text: &mut Vec<u8>, name: &Name, query: &str) -> Result<(), AllocError>
    ensures { (tree : QueryTree) → OnOk result (text.new.items ≡ text.old.items ++ dump_line (define_view name.now.bytes tree query.now)) }
{
    push_text(text, "0 DEFINE VIEW ")?;
    push_text(text, name.as_str())?;
    push_text(text, " AS ")?;
    push_text(text, query)
}

/// Appends the line that defines an index of a column of a table. Where memory runs out, a part may have been appended.
pub fn push_index_line(
    text: &mut Vec<u8>,
    name: &Name,
    table: &Name,
    column: &Name,
) -> Result<(), AllocError>
    ensures { OnOk result (text.new.items ≡ text.old.items ++ dump_line (define_index name.now.bytes table.now.bytes column.now.bytes)) }
{
    push_text(text, "0 DEFINE INDEX ")?;
    push_text(text, name.as_str())?;
    push_text(text, " ON ")?;
    push_text(text, table.as_str())?;
    push_text(text, "(")?;
    push_text(text, column.as_str())?;
    push_text(text, ")")
}

/// The word for the kind of a table.
fn kind_word(kind: Kind) -> &'static str
    ensures { result.now ≡ kind_word kind }
{
    match kind {
        Kind::Line => "LINE",
        Kind::Point => "POINT",
    }
}

/// What comes before the first measure of a row of a table of this kind.
fn place_word(kind: Kind) -> &'static str
    ensures { result.now ≡ place_word kind }
{
    match kind {
        Kind::Line => " FROM ",
        Kind::Point => " AT ",
    }
}

/// Appends the measures of a row of a table of this kind: a line's two, a point's one.
fn push_measures(text: &mut Vec<u8>, kind: Kind, lo: u32, hi: u32) -> Result<(), AllocError>
    ensures { OnOk result (text.new.items ≡ text.old.items ++ measures_text kind lo hi) }
{
    match kind {
        Kind::Line => push_ends(text, lo, hi),
        Kind::Point => push_measure(text, lo),
    }
}

/// Appends a measure, and the one up to which a span goes.
fn push_ends(text: &mut Vec<u8>, from: u32, to: u32) -> Result<(), AllocError>
    ensures { OnOk result (text.new.items ≡ text.old.items ++ ends_text from to) }
{
    push_measure(text, from)?;
    text.extend_from_slice(b" TO ")?;
    push_measure(text, to)
}

/// Appends from which measure to which a span goes.
pub(crate) fn push_span(text: &mut Vec<u8>, from: u32, to: u32) -> Result<(), AllocError>
    ensures { OnOk result (text.new.items ≡ text.old.items ++ span_text from to) }
{
    push_text(text, " FROM ")?;
    push_ends(text, from, to)
}
