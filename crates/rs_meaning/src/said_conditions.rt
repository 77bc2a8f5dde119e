//! What conditions of a line say.
//!
//! The syntax has been read, so a number out of its range is all that can be wrong with them.

ghost use Rattle.rs_syntax.specs.QueryView.{operand_tree, atom_tree, all_of, condition_tree};
ghost use Rattle.std.specs.Prelude.{map, IfOk, IfErr};
ghost use Rattle.rs_syntax.specs.Written.{operand_lexemes, atom_lexemes, conjunction_lexemes, condition_lexemes, SaysOperand, SaysAtom, SaysConjunction, SaysCondition, AreToldOf};
ghost use Rattle.rs_syntax.specs.WrittenView.{atom_syntax, conjunction_syntax, condition_syntax};
ghost use Rattle.rs_meaning.specs.Saying.{NothingSaid};

use crate::meaning::{literal, name};
use rs_lexer::Token;
use rs_refusal::Refusal;
use rs_syntax::written::{WrittenAtom, WrittenOperand, WrittenValue};
use rs_syntax::{Atom, Operand};
use std::alloc::Global;

// What a column is compared with.
fn operand_said(alloc: Global, line: &str, written: WrittenOperand) -> Result<Operand, Refusal>
    requires { AreToldOf line.now (operand_lexemes written) }
    ensures ok { IfOk result (λ operand. SaysOperand line.now written (operand_tree operand)) }
    ensures err { IfErr result (NothingSaid (SaysOperand line.now written)) }
{
    let written = match written {
        WrittenOperand::Column(column) => return Ok(Operand::Column(name(line, column))),
        WrittenOperand::Whole(is_negative, digits) => WrittenValue::Whole(is_negative, digits),
        WrittenOperand::Quoted(quoted) => WrittenValue::Quoted(quoted),
    };
    Ok(Operand::Value(literal(alloc, line, written)?))
}

// A part of a condition.
#[cycle(saying)]
fn atom_said(alloc: Global, line: &str, written: &WrittenAtom) -> Result<Atom, Refusal>
    requires { AreToldOf line.now (atom_lexemes (atom_syntax written.now)) }
    ensures ok { IfOk result (λ atom. SaysAtom line.now (atom_syntax written.now) (atom_tree atom)) }
    ensures err { IfErr result (NothingSaid (SaysAtom line.now (atom_syntax written.now))) }
{
    match written {
        WrittenAtom::Compare(column, comparison, operand) => {
            let operand = operand_said(alloc, line, *operand)?;
            Ok(Atom::Compare(name(line, *column), *comparison, operand))
        }
        WrittenAtom::IsNull(column) => Ok(Atom::IsNull(name(line, *column))),
        WrittenAtom::IsNotNull(column) => Ok(Atom::IsNotNull(name(line, *column))),
        WrittenAtom::Negated(condition) => {
            Ok(Atom::Negated(condition_said(alloc, line, condition)?))
        }
        WrittenAtom::Bracketed(condition) => {
            Ok(Atom::Bracketed(condition_said(alloc, line, condition)?))
        }
    }
}

// Parts between which AND stands.
#[cycle(saying)]
fn conjunction_said(
    alloc: Global,
    line: &str,
    written: &[WrittenAtom],
) -> Result<Vec<Atom>, Refusal>
    requires { AreToldOf line.now (conjunction_lexemes (conjunction_syntax written.now)) }
    ensures ok { IfOk result (λ atoms. SaysConjunction line.now (conjunction_syntax written.now) (all_of (map atom_tree atoms.items))) }
    ensures err { IfErr result (NothingSaid (SaysConjunction line.now (conjunction_syntax written.now))) }
{
    let mut atoms = Vec::new(alloc);
    for part in written {
        let atom = atom_said(alloc, line, part)?;
        atoms.push(atom)?;
    }
    Ok(atoms)
}

/// A condition: an OR of ANDs.
///
/// Refused `NumberOutOfRange` where a number is out of its range, and `OutOfMemory` where a growth was
/// refused.
#[cycle(saying)]
pub fn condition_said(
    alloc: Global,
    line: &str,
    written: &[Vec<WrittenAtom>],
) -> Result<Vec<Vec<Atom>>, Refusal>
    requires { AreToldOf line.now (condition_lexemes (condition_syntax written.now)) }
    ensures ok { IfOk result (λ condition. SaysCondition line.now (condition_syntax written.now) (condition_tree condition.items)) }
    ensures err { IfErr result (NothingSaid (SaysCondition line.now (condition_syntax written.now))) }
{
    let mut conjunctions = Vec::new(alloc);
    for part in written {
        let conjunction = conjunction_said(alloc, line, part)?;
        conjunctions.push(conjunction)?;
    }
    Ok(conjunctions)
}
