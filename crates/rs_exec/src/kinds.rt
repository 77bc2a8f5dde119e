//! Whether the rows of a plan are points or lines.

ghost use Rattle.std.specs.Prelude.{◌≡◌, map};
ghost use Rattle.rs_facts.specs.Query.{overlaid_kind};
ghost use Rattle.rs_exec.specs.Meaning.{meaning_of, kinds_together, kind_in};

use rs_plan::Plan;
use rs_value::Kind;

/// The kind of a plan's rows, by the tables at its leaves.
#[cycle(kinds)]
pub fn kind_of(plan: &Plan) -> Kind
    ensures { result ≡ kind_in plan.now }
{
    match plan {
        Plan::Leaf(leaf) => leaf.table.kind,
        Plan::Gaps(_) => Kind::Line,
        Plan::Overlay(_, operands) => kind_together(operands.as_slice()),
        Plan::Where(_, operand)
        | Plan::Dissolve(_, operand)
        | Plan::Cover(_, _, operand, _)
        | Plan::Merge(operand, _)
        | Plan::Minus(operand, _)
        | Plan::Window(_, operand)
        | Plan::Transform(_, _, operand) => kind_of(operand),
    }
}

/// The kind of the rows of an OVERLAY of these operands.
#[cycle(kinds)]
pub(crate) fn kind_together(operands: &[Plan]) -> Kind
    ensures { result ≡ kinds_together (map meaning_of operands.now) }
{
    let mut kind = Kind::Line;
    for operand in operands {
        kind = overlaid_kind(kind, kind_of(operand));
    }
    kind
}

/// The kind of what two kinds of rows have in common: lines of two lists of lines, and else points.
pub(crate) fn overlaid_kind(left: Kind, right: Kind) -> Kind
    ensures { result ≡ overlaid_kind left right }
{
    match (left, right) {
        (Kind::Line, Kind::Line) => Kind::Line,
        (Kind::Line, Kind::Point) => Kind::Point,
        (Kind::Point, Kind::Line) => Kind::Point,
        (Kind::Point, Kind::Point) => Kind::Point,
    }
}
