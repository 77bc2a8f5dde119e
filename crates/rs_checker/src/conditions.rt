//! Conditions over columns: their columns are found by name, and what they are compared with is looked at.

ghost use Rattle.std.specs.Prelude.{◌≡◌, ◌⊎◌, ◌<◌, map, length, IfOk, IfErr, Ok, Err};
ghost use Rattle.rs_facts.specs.Condition as said;
ghost use Rattle.rs_facts.specs.ConditionView.{condition_of, term_of};
ghost use Rattle.rs_value.specs.View.{literal_datum};
ghost use Rattle.rs_syntax.specs.View.{column_tree};
ghost use Rattle.rs_syntax.specs.QueryView.{operand_tree, no_condition, atom_tree, condition_tree};
ghost use Rattle.rs_syntax.specs.Tree.{compare, is_null};
ghost use Rattle.rs_machine.specs.Checking.{condition_checked, operand_checked, suits_class};
ghost use Rattle.rs_checker.specs.Inner.{atoms_tree, all_joined, any_joined, conditions_of};

use crate::checked::Columns;
use crate::columns::{place_of, same_class};
use rs_facts::{Condition, Term};
use rs_refusal::Refusal;
use rs_syntax::{Atom, ColumnDefinition, Name, Operand};
use rs_value::{COLUMNS, ColumnType, Comparison, Literal};
use std::alloc::Global;

/// A condition, an OR of ANDs, with its columns by place. Atom by atom from the left, it is refused with
/// `Refusal::NoSuchColumn` (22) where there is no such column, and then with `Refusal::WrongValues` (33) where a
/// number is compared with a text; for want of memory with `Refusal::OutOfMemory` (90). More than `COLUMNS` columns
/// are refused with `Refusal::Limit` (27).
pub fn check_condition(
    alloc: Global,
    columns: &[ColumnDefinition],
    condition: &[Vec<Atom>],
) -> Result<Condition, Refusal>
    ensures ok { IfOk result (λ checked.
        condition_checked (map column_tree columns.now) (condition_tree condition.now) ≡ Ok (condition_of checked)) }
    ensures refused { IfErr result (λ refusal. (refusal ≡ Refusal.OutOfMemory)
        ⊎ (condition_checked (map column_tree columns.now) (condition_tree condition.now) ≡ Err refusal)
        ⊎ ((refusal ≡ Refusal.Limit) × (COLUMNS < length columns.now))) }
{
    match Columns::try_from(columns) {
        Ok(columns) => disjunction(alloc, &columns, condition),
        Err(_) => Err(Refusal::Limit),
    }
}

/// Conjunctions between which OR stands.
#[cycle(conditions)]
pub(crate) fn disjunction(
    alloc: Global,
    columns: &Columns,
    condition: &[Vec<Atom>],
) -> Result<Condition, Refusal>
    ensures ok { IfOk result (λ checked.
        condition_checked (map column_tree columns.now.items) (condition_tree condition.now) ≡ Ok (condition_of checked)) }
    ensures refused { IfErr result (λ refusal. (refusal ≡ Refusal.OutOfMemory)
        ⊎ (condition_checked (map column_tree columns.now.items) (condition_tree condition.now) ≡ Err refusal)) }
{
    let mut parts = Vec::new(alloc);
    for atoms in condition {
        parts.push(conjunction(alloc, columns, atoms.as_slice())?)?;
    }
    if parts.is_empty() {
        return unnamed(columns);
    }
    Ok(any_of(parts))
}

// Atoms between which AND stands.
#[cycle(conditions)]
fn conjunction(alloc: Global, columns: &Columns, atoms: &[Atom]) -> Result<Condition, Refusal>
    ensures ok { IfOk result (λ checked.
        condition_checked (map column_tree columns.now.items) (atoms_tree atoms.now) ≡ Ok (condition_of checked)) }
    ensures refused { IfErr result (λ refusal. (refusal ≡ Refusal.OutOfMemory)
        ⊎ (condition_checked (map column_tree columns.now.items) (atoms_tree atoms.now) ≡ Err refusal)) }
{
    let mut parts = Vec::new(alloc);
    for part in atoms {
        parts.push(atom(alloc, columns, part)?)?;
    }
    if parts.is_empty() {
        return unnamed(columns);
    }
    Ok(all_of(parts))
}

// One part of a conjunction.
#[cycle(conditions)]
fn atom(alloc: Global, columns: &Columns, atom: &Atom) -> Result<Condition, Refusal>
    ensures ok { IfOk result (λ checked.
        condition_checked (map column_tree columns.now.items) (atom_tree atom.now) ≡ Ok (condition_of checked)) }
    ensures refused { IfErr result (λ refusal. (refusal ≡ Refusal.OutOfMemory)
        ⊎ (condition_checked (map column_tree columns.now.items) (atom_tree atom.now) ≡ Err refusal)) }
{
    match atom {
        Atom::Compare(name, comparison, operand) => compared(
            alloc,
            columns,
            name,
            *comparison,
            operand,
        ),
        Atom::IsNull(name) => tests_null(columns, name),
        Atom::IsNotNull(name) => negated(alloc, tests_null(columns, name)?),
        Atom::Negated(condition) => negated(
            alloc,
            disjunction(alloc, columns, condition.as_slice())?,
        ),
        Atom::Bracketed(condition) => bracketed(
            alloc,
            disjunction(alloc, columns, condition.as_slice())?,
        ),
    }
}

// A column that is compared.
fn compared(
    alloc: Global,
    columns: &Columns,
    name: &Name,
    comparison: Comparison,
    operand: &Operand,
) -> Result<Condition, Refusal>
    ensures ok { IfOk result (λ checked.
        condition_checked (map column_tree columns.now.items) (compare name.now.bytes comparison (operand_tree operand.now)) ≡ Ok (condition_of checked)) }
    ensures refused { IfErr result (λ refusal. (refusal ≡ Refusal.OutOfMemory)
        ⊎ (condition_checked (map column_tree columns.now.items) (compare name.now.bytes comparison (operand_tree operand.now)) ≡ Err refusal)) }
{
    let place = place_of(columns, name)?;
    let term = term(
        alloc,
        columns,
        columns[usize::from(place)].column_type,
        operand,
    )?;
    Ok(Condition::Compare(place, comparison, term))
}

// Whether a column holds NULL.
fn tests_null(columns: &Columns, name: &Name) -> Result<Condition, Refusal>
    ensures ok { IfOk result (λ checked.
        condition_checked (map column_tree columns.now.items) (is_null name.now.bytes) ≡ Ok (condition_of checked)) }
    ensures refused { IfErr result (λ refusal.
        condition_checked (map column_tree columns.now.items) (is_null name.now.bytes) ≡ Err refusal) }
{
    Ok(Condition::TestsNull(place_of(columns, name)?))
}

// What a column of this type is compared with.
fn term(
    alloc: Global,
    columns: &Columns,
    column_type: ColumnType,
    operand: &Operand,
) -> Result<Term, Refusal>
    ensures ok { IfOk result (λ term.
        operand_checked (map column_tree columns.now.items) column_type (operand_tree operand.now) ≡ Ok (term_of term)) }
    ensures refused { IfErr result (λ refusal. (refusal ≡ Refusal.OutOfMemory)
        ⊎ (operand_checked (map column_tree columns.now.items) column_type (operand_tree operand.now) ≡ Err refusal)) }
{
    match operand {
        Operand::Column(name) => {
            let place = place_of(columns, name)?;
            if same_class(column_type, columns[usize::from(place)].column_type) {
                Ok(Term::Column(place))
            } else {
                Err(Refusal::WrongValues)
            }
        }
        Operand::Value(literal) => {
            if suits_class(column_type, literal) {
                Ok(Term::Written(copied(alloc, literal)?))
            } else {
                Err(Refusal::WrongValues)
            }
        }
    }
}

// Whether a value may be compared with what such a column holds.
fn suits_class(column_type: ColumnType, literal: &Literal) -> bool
    ensures { result ≡ suits_class column_type (literal_datum literal.now) }
{
    match (column_type, literal) {
        (_, Literal::Null) => true,
        (ColumnType::Int, Literal::Int(_)) => true,
        (ColumnType::Int, Literal::Text(_)) => false,
        (ColumnType::Text(_), Literal::Int(_)) => false,
        (ColumnType::Text(_), Literal::Text(_)) => true,
    }
}

// The same value once more.
fn copied(alloc: Global, literal: &Literal) -> Result<Literal, Refusal>
    ensures ok { IfOk result (λ copy. literal_datum copy ≡ literal_datum literal.now) }
    ensures refused { IfErr result (λ refusal. refusal ≡ Refusal.OutOfMemory) }
{
    match literal {
        Literal::Null => Ok(Literal::Null),
        Literal::Int(number) => Ok(Literal::Int(*number)),
        Literal::Text(text) => Ok(Literal::Text(String::from_str(alloc, text.as_str())?)),
    }
}

// A chain without parts, which no line has: the column without a name is asked for.
fn unnamed(columns: &Columns) -> Result<Condition, Refusal>
    ensures ok { IfOk result (λ checked.
        condition_checked (map column_tree columns.now.items) no_condition ≡ Ok (condition_of checked)) }
    ensures refused { IfErr result (λ refusal.
        condition_checked (map column_tree columns.now.items) no_condition ≡ Err refusal) }
{
    tests_null(columns, &Name::new())
}

// `NOT`.
fn negated(alloc: Global, condition: Condition) -> Result<Condition, Refusal>
    ensures ok { IfOk result (λ checked. condition_of checked ≡ said.negated (condition_of condition)) }
    ensures refused { IfErr result (λ refusal. refusal ≡ Refusal.OutOfMemory) }
{
    Ok(Condition::Negated(Box::new(alloc, condition)?))
}

// The same condition in brackets.
fn bracketed(alloc: Global, condition: Condition) -> Result<Condition, Refusal>
    ensures ok { IfOk result (λ checked. condition_of checked ≡ said.bracketed (condition_of condition)) }
    ensures refused { IfErr result (λ refusal. refusal ≡ Refusal.OutOfMemory) }
{
    Ok(Condition::Bracketed(Box::new(alloc, condition)?))
}

// Parts between which AND stands; one alone is the whole.
fn all_of(mut parts: Vec<Condition>) -> Condition
    ensures { condition_of result ≡ all_joined (conditions_of parts.items) }
{
    if parts.len() > 1 {
        return Condition::Both(parts);
    }
    match parts.pop() {
        Some(part) => part,
        None => Condition::Both(parts),
    }
}

// Parts between which OR stands; one alone is the whole.
fn any_of(mut parts: Vec<Condition>) -> Condition
    ensures { condition_of result ≡ any_joined (conditions_of parts.items) }
{
    if parts.len() > 1 {
        return Condition::Either(parts);
    }
    match parts.pop() {
        Some(part) => part,
        None => Condition::Either(parts),
    }
}
