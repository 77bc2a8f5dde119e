//! The check of a query: its names, those of alignments too, its size with its views opened, and then its nodes,
//! operands first.
//!
//! It promises what the machine makes of the query in every state of these definitions and referents.

ghost use Rattle.std.specs.Prelude.{◌≡◌, ◌⊎◌, ℕ, List, [], ◌∷◌, ◌++◌, IfOk, IfErr, Ok, Err};
ghost use Rattle.rs_facts.specs.Fact.{Names};
ghost use Rattle.rs_facts.specs.Runs.{Stretch};
ghost use Rattle.rs_syntax.specs.QueryView.{query_tree};
ghost use Rattle.rs_syntax.specs.Tree.{named};
ghost use Rattle.rs_machine.specs.Checking as machine;
ghost use Rattle.rs_machine.specs.Opening.{names_in, alignments_in, opened_times};
ghost use Rattle.rs_catalog.specs.Definitions.{state_from, views_of, Rest};
ghost use Rattle.rs_catalog.specs.Referents.{referents_on};
ghost use Rattle.rs_checker.specs.Checks.{IsChecked, PassesFirst};
ghost use Rattle.rs_checker.specs.CheckedView.{query_of, named_in};
ghost use Rattle.rs_checker.specs.Numbers.{AreNumberedIn};
ghost use Rattle.rs_checker.specs.Steps.{IsStep, Stands, checked_of, seen_columns, binary_step};
ghost use Rattle.rs_checker.specs.Nodes.{names_there, alignments_there, unary_step, StandsAmong, AreNodes, AreRefused};

use crate::alignments::transform;
use crate::checked::{Checked, CheckedQuery, CheckedTable, Columns};
use crate::columns::joined;
use crate::node::{BinaryOperator, Node, UnaryOperator, top_node};
use crate::operand::{CheckedOperand, boxed};
use crate::operators::{cover, dissolve, filter, gaps, merge, minus, overlay, rename};
use crate::size::fits_limits;
use crate::views::opened_node;
use crate::windows::window;
use rs_catalog::{Catalog, RouteReferents};
use rs_refusal::Refusal;
use rs_syntax::{Name, Query};
use std::alloc::Global;

/// The checked query, in three passes: 21 for each name that is no table's and no view's, and then for each name after
/// TRANSFORM that is no alignment's, both from the left; 27 where the query with its views opened is too large; then what
/// each node asks for, operands first and from the left, a view as its query in its place. Positions of windows are
/// located by the referents given. Tables and routes are there by the numbers that the catalogue has for them. Only memory may be wanting beside, in the third pass alone: the first two take none.
pub fn check(
    alloc: Global,
    catalog: &Catalog,
    referents: &RouteReferents,
    query: &Query,
) -> Result<Checked, Refusal>
    ensures ok { IfOk result (λ checked. (spans_on : ℕ → ℕ → List Stretch) (rest : Rest)
        → IsChecked (state_from catalog.now (referents_on referents.now) spans_on rest) (query_tree query.now) checked) }
    ensures numbers { IfOk result (λ made. AreNumberedIn catalog.now (named_in made.query)) }
    ensures refused { IfErr result (λ refusal. (refusal ≡ Refusal.OutOfMemory) ⊎ ((spans_on : ℕ → ℕ → List Stretch) (rest : Rest)
        → machine.checked (state_from catalog.now (referents_on referents.now) spans_on rest) (query_tree query.now) ≡ Err refusal)) }
    ensures wanting { IfErr result (λ refusal. refusal ≡ Refusal.OutOfMemory → PassesFirst catalog.now (query_tree query.now)) }
{
    names_known(catalog, query)?;
    alignments_known(catalog, query)?;
    if !fits_limits(catalog, query) {
        return Err(Refusal::Limit);
    }
    nodes(alloc, catalog, referents, query, catalog.views_len())
}

// Whether each name of a table or a view is one, from the left.
fn names_known(catalog: &Catalog, query: &Query) -> Result<(), Refusal>
    ensures { result ≡ names_there catalog.now (names_in (query_tree query.now)) }
{
    match top_node(query) {
        Node::Named(name) => name_known(catalog, name),
        Node::Unary(_, operand) => names_known(catalog, operand),
        Node::Binary(_, left, right) => {
            names_known(catalog, left)?;
            names_known(catalog, right)
        }
    }
}

// Whether each name of an alignment is one, from the left.
fn alignments_known(catalog: &Catalog, query: &Query) -> Result<(), Refusal>
    ensures { result ≡ alignments_there catalog.now (alignments_in (query_tree query.now)) }
{
    match top_node(query) {
        Node::Named(_) => Ok(()),
        Node::Unary(UnaryOperator::Transform(name), operand) => {
            alignments_known(catalog, operand)?;
            alignment_known(catalog, name)
        }
        Node::Unary(_, operand) => alignments_known(catalog, operand),
        Node::Binary(_, left, right) => {
            alignments_known(catalog, left)?;
            alignments_known(catalog, right)
        }
    }
}

// Whether a name is an alignment's.
fn alignment_known(catalog: &Catalog, name: &Name) -> Result<(), Refusal>
    ensures { result ≡ alignments_there catalog.now (name.now.bytes ∷ []) }
{
    if catalog.alignment(name).is_some() {
        Ok(())
    } else {
        Err(Refusal::NoSuchName)
    }
}

// Whether a name is a table's or a view's.
fn name_known(catalog: &Catalog, name: &Name) -> Result<(), Refusal>
    ensures { result ≡ names_there catalog.now (name.now.bytes ∷ []) }
{
    if catalog.has_table_or_view(name) {
        Ok(())
    } else {
        Err(Refusal::NoSuchName)
    }
}

// The nodes of a query, its views opened so many times. A query takes stack by its depth, however many views it goes through.
#[cycle(nodes)]
fn nodes(
    alloc: Global,
    catalog: &Catalog,
    referents: &RouteReferents,
    query: &Query,
    openings: usize,
) -> Result<Checked, Refusal>
    ensures ok { IfOk result (λ made. AreNodes catalog.now (referents_on referents.now) (opened_times openings (views_of catalog.now) (query_tree query.now)) made) }
    ensures numbers { IfOk result (λ made. AreNumberedIn catalog.now (named_in made.query)) }
    ensures refused { IfErr result (λ refusal. (refusal ≡ Refusal.OutOfMemory)
        ⊎ AreRefused catalog.now (referents_on referents.now) (opened_times openings (views_of catalog.now) (query_tree query.now)) refusal) }
{
    let (node, openings) = opened_node(catalog, query, openings);
    match node {
        Node::Named(name) => table(catalog, name),
        Node::Unary(operator, query) => {
            let operand = boxed_nodes(alloc, catalog, referents, query, openings)?;
            apply_unary(alloc, catalog, referents, operator, operand)
        }
        Node::Binary(operator, left, right) => {
            let left = boxed_nodes(alloc, catalog, referents, left, openings)?;
            let right = boxed_nodes(alloc, catalog, referents, right, openings)?;
            apply_binary(operator, left, right)
        }
    }
}

// The same of an operand, its query on the heap.
#[cycle(nodes)]
fn boxed_nodes(
    alloc: Global,
    catalog: &Catalog,
    referents: &RouteReferents,
    query: &Query,
    openings: usize,
) -> Result<CheckedOperand, Refusal>
    ensures ok { IfOk result (λ made. AreNodes catalog.now (referents_on referents.now) (opened_times openings (views_of catalog.now) (query_tree query.now)) (checked_of made)) }
    ensures numbers { IfOk result (λ made. AreNumberedIn catalog.now (named_in made.query.value)) }
    ensures refused { IfErr result (λ refusal. (refusal ≡ Refusal.OutOfMemory)
        ⊎ AreRefused catalog.now (referents_on referents.now) (opened_times openings (views_of catalog.now) (query_tree query.now)) refusal) }
{
    boxed(alloc, nodes(alloc, catalog, referents, query, openings)?)
}

// An operator over one operand.
fn apply_unary(
    alloc: Global,
    catalog: &Catalog,
    referents: &RouteReferents,
    operator: UnaryOperator<'_>,
    operand: CheckedOperand,
) -> Result<Checked, Refusal>
    ensures ok { IfOk result (λ made. IsStep (unary_step catalog.now (referents_on referents.now) operator.entry operand.kind (seen_columns (checked_of operand)) (query_of operand.query.value))
        (λ world. StandsAmong catalog.now world (checked_of operand)) made) }
    ensures numbers { IfOk result (λ made. AreNumberedIn catalog.now (named_in operand.query.value) → AreNumberedIn catalog.now (named_in made.query)) }
    ensures refused { IfErr result (λ refusal. (refusal ≡ Refusal.OutOfMemory)
        ⊎ (unary_step catalog.now (referents_on referents.now) operator.entry operand.kind (seen_columns (checked_of operand)) (query_of operand.query.value) ≡ Err refusal)) }
{
    match operator {
        UnaryOperator::Where(condition) => filter(alloc, operand, condition),
        UnaryOperator::Dissolve(names) => dissolve(alloc, operand, names),
        UnaryOperator::Rename(from, to) => rename(operand, from, to),
        UnaryOperator::Window(part) => window(catalog, referents, operand, part),
        UnaryOperator::Transform(name) => transform(alloc, catalog, operand, name),
        UnaryOperator::Gaps => gaps(operand),
    }
}

// An operator over two operands.
fn apply_binary(
    operator: BinaryOperator,
    left: CheckedOperand,
    right: CheckedOperand,
) -> Result<Checked, Refusal>
    ensures ok { IfOk result (λ made. IsStep (binary_step operator left.kind right.kind (seen_columns (checked_of left)) (seen_columns (checked_of right)) (query_of left.query.value) (query_of right.query.value))
        (λ world. Stands world (checked_of left) × Stands world (checked_of right)) made) }
    ensures names { IfOk result (λ made. named_in made.query ≡ named_in left.query.value ++ named_in right.query.value) }
    ensures refused { IfErr result (λ refusal. binary_step operator left.kind right.kind (seen_columns (checked_of left)) (seen_columns (checked_of right)) (query_of left.query.value) (query_of right.query.value) ≡ Err refusal) }
{
    match operator {
        BinaryOperator::Overlay => overlay(left, right),
        BinaryOperator::Cover => cover(left, right),
        BinaryOperator::Merge => merge(left, right),
        BinaryOperator::Minus => minus(left, right),
    }
}

// The rows of a table.
fn table(catalog: &Catalog, name: &Name) -> Result<Checked, Refusal>
    ensures ok { IfOk result (λ made. (on : ℕ → Names ℕ) → AreNodes catalog.now on (named name.now.bytes) made) }
    ensures numbers { IfOk result (λ made. AreNumberedIn catalog.now (named_in made.query)) }
    ensures refused { IfErr result (λ refusal. (on : ℕ → Names ℕ) → AreRefused catalog.now on (named name.now.bytes) refusal) }
{
    match catalog.table(name) {
        Some(table) => {
            catalog.stand();
            let columns = joined(Columns::new(), table.columns());
            let asked = CheckedTable {
                name: *name,
                number: table.number(),
                kind: table.kind(),
                width: columns.len() as u8,
            };
            Ok(Checked {
                query: CheckedQuery::Table(asked),
                kind: table.kind(),
                columns,
            })
        }
        None => Err(Refusal::NoSuchName),
    }
}
