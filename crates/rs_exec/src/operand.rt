//! A plan that is still to be evaluated, by its topmost node.
//!
//! It is given by value and can't be copied: an operand that was evaluated is gone, so that none is evaluated twice.

ghost use Rattle.std.specs.Prelude.{◌≡◌, [], ◌∷◌, IfSome, IfNone};
ghost use Rattle.rs_exec.specs.Meaning.{meaning_of, kind_in, kinds_together};
ghost use Rattle.rs_exec.specs.Operand.{node_meaning, node_size, operands_meaning, size_of};

use crate::changes::Change;
use crate::kinds::{kind_of, kind_together};
use crate::pairs::Pairing;
use rs_plan::{Leaf, Plan, PlannedPiece, PlannedWindow};
use rs_value::Kind;

/// A plan that is still to be evaluated.
#[derive(Drop)]
pub(crate) struct Operand<'a> {
    plan: &'a Plan,
}

/// Operands that are still to be evaluated, in this order.
#[derive(Drop)]
pub(crate) struct Operands<'a> {
    plans: &'a [Plan],
}

/// The topmost node of a plan, with its operands.
#[derive(Drop)]
pub(crate) enum Node<'a> {
    /// The rows of a table.
    Leaf(&'a Leaf),
    /// Each row changed or left out.
    Changed(Change<'a>, Operand<'a>),
    /// The rows of the operands side by side; of each column from the left its place among the operands' columns.
    Overlaid(&'a [u8], Operands<'a>),
    /// What the rows of two operands make.
    Paired(Pairing, Operand<'a>, Operand<'a>),
    /// The rows inside all windows.
    Seen(&'a [PlannedWindow], Operand<'a>),
    /// The rows carried by the pieces.
    Carried(&'a [PlannedPiece], Operand<'a>),
    /// The row without columns where there is no row.
    Gaps(Operand<'a>),
}

impl<'a> Operand<'a> {
    /// A plan, to be evaluated once.
    pub(crate) fn of(plan: &'a Plan) -> Self
        ensures { result.plan.now ≡ plan.now }
    {
        Operand { plan }
    }

    /// Whether its rows are points or lines.
    pub(crate) fn kind(&self) -> Kind
        ensures { result ≡ kind_in self.now.plan.now }
    {
        kind_of(self.plan)
    }

    /// Its topmost node, with the operands in its place.
    pub(crate) fn node(self) -> Node<'a>
        ensures means { meaning_of self.entry.plan.now ≡ node_meaning result }
        ensures size { size_of self.entry.plan.now ≡ node_size result }
    {
        match self.plan {
            Plan::Leaf(leaf) => Node::Leaf(leaf),
            Plan::Where(conditions, operand) => {
                Node::Changed(Change::Where(conditions), Operand::of(operand))
            }
            Plan::Dissolve(columns, operand) => {
                Node::Changed(Change::Dissolve(columns), Operand::of(operand))
            }
            Plan::Overlay(back, operands) => Node::Overlaid(back, Operands { plans: operands }),
            Plan::Cover(left_width, right_width, left, right) => Node::Paired(
                Pairing::Cover(*left_width, *right_width),
                Operand::of(left),
                Operand::of(right),
            ),
            Plan::Merge(left, right) => {
                Node::Paired(Pairing::Merge, Operand::of(left), Operand::of(right))
            }
            Plan::Minus(left, right) => {
                Node::Paired(Pairing::Minus, Operand::of(left), Operand::of(right))
            }
            Plan::Window(windows, operand) => Node::Seen(windows, Operand::of(operand)),
            Plan::Transform(_, pieces, operand) => Node::Carried(pieces, Operand::of(operand)),
            Plan::Gaps(operand) => Node::Gaps(Operand::of(operand)),
        }
    }
}

impl<'a> Operands<'a> {
    /// Whether the rows of an OVERLAY of them are points or lines.
    pub(crate) fn kind(&self) -> Kind
        ensures { result ≡ kinds_together (operands_meaning self.now) }
    {
        kind_together(self.plans)
    }

    /// The first of them, and those after it; none where none is left.
    pub(crate) fn next(self) -> Option<(Operand<'a>, Operands<'a>)>
        ensures first { IfSome result (λ next. self.entry.plans.now ≡ next.0.plan.now ∷ next.1.plans.now) }
        ensures end { IfNone result (self.entry.plans.now ≡ []) }
    {
        let (first, others) = self.plans.split_first()?;
        Some((Operand::of(first), Operands { plans: others }))
    }
}
