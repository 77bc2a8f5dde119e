//! The topmost node of a query: a name, or an operator over one operand or two.

ghost use Rattle.std.specs.Prelude.{◌≡◌};
ghost use Rattle.rs_syntax.specs.QueryView.{query_tree};
ghost use Rattle.rs_checker.specs.NodeView.{node_tree};

use rs_syntax::{Atom, Name, Query, Window};

/// An operator over one operand.
#[derive(Clone, Copy)]
pub enum UnaryOperator<'a> {
    /// The rows that meet a condition, an OR of ANDs.
    Where(&'a [Vec<Atom>]),
    /// Of each row the columns named.
    Dissolve(&'a [Name]),
    /// The column of the first name has the second.
    Rename(&'a Name, &'a Name),
    /// The rows inside a window.
    Window(&'a Window),
    /// The rows carried by the pieces of the alignment of this name.
    Transform(&'a Name),
    /// The row without columns where there is no row.
    Gaps,
}

/// An operator over two operands.
#[derive(Clone, Copy)]
pub enum BinaryOperator {
    /// Each row of the first before each row of the second.
    Overlay,
    /// OVERLAY, and where one alone has rows, these beside NULLs.
    Cover,
    /// The rows of either.
    Merge,
    /// The rows of the first that the second does not have.
    Minus,
}

/// The topmost node of a query.
#[derive(Clone, Copy)]
pub enum Node<'a> {
    /// A table or a view by its name.
    Named(&'a Name),
    /// An operator over one operand.
    Unary(UnaryOperator<'a>, &'a Query),
    /// An operator over two operands.
    Binary(BinaryOperator, &'a Query, &'a Query),
}

/// The topmost node of a query.
pub fn top_node(query: &Query) -> Node<'_>
    ensures { query_tree query.now ≡ node_tree result }
{
    match query {
        Query::Named(name) => Node::Named(name),
        Query::Where(operand, condition) => Node::Unary(
            UnaryOperator::Where(condition.as_slice()),
            operand,
        ),
        Query::Dissolve(operand, names) => Node::Unary(
            UnaryOperator::Dissolve(names.as_slice()),
            operand,
        ),
        Query::Rename(operand, from, to) => Node::Unary(UnaryOperator::Rename(from, to), operand),
        Query::Window(operand, window) => Node::Unary(UnaryOperator::Window(window), operand),
        Query::Transform(operand, name) => Node::Unary(UnaryOperator::Transform(name), operand),
        Query::Gaps(operand) => Node::Unary(UnaryOperator::Gaps, operand),
        Query::Overlay(left, right) => Node::Binary(BinaryOperator::Overlay, left, right),
        Query::Cover(left, right) => Node::Binary(BinaryOperator::Cover, left, right),
        Query::Merge(left, right) => Node::Binary(BinaryOperator::Merge, left, right),
        Query::Minus(left, right) => Node::Binary(BinaryOperator::Minus, left, right),
    }
}
