//! A checked query on the heap, for an operator to be put over it.

ghost use Rattle.std.specs.Prelude.{◌≡◌, IfOk, IfErr};
ghost use Rattle.rs_checker.specs.Steps.{checked_of};

use crate::checked::{Checked, CheckedQuery, Columns};
use rs_refusal::Refusal;
use rs_value::Kind;
use std::alloc::Global;

/// A checked query with its kind and its columns, the query on the heap.
#[derive(Drop)]
pub struct CheckedOperand {
    /// What is asked for.
    pub query: Box<CheckedQuery>,
    /// Whether its rows are points or lines.
    pub kind: Kind,
    /// Its columns, from the left.
    pub columns: Columns,
}

/// The same query on the heap. Only memory may be wanting.
pub fn boxed(alloc: Global, checked: Checked) -> Result<CheckedOperand, Refusal>
    ensures ok { IfOk result (λ operand. checked_of operand ≡ checked) }
    ensures refused { IfErr result (λ refusal. refusal ≡ Refusal.OutOfMemory) }
{
    Ok(CheckedOperand {
        query: Box::new(alloc, checked.query)?,
        kind: checked.kind,
        columns: checked.columns,
    })
}
