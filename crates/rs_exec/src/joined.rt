//! Rows on routes as their maximal runs.

ghost use Rattle.std.specs.Prelude.{IfOk};
ghost use Rattle.std.specs.List.{AllZip, AllByRecursion};
ghost use Rattle.rs_exec.specs.Joined.{HasRuns, IsOfKind};
ghost use Rattle.rs_exec.specs.Routes.{list_of};

use crate::routes::RowsOn;
use rs_coalesce::runs;
use rs_facts::Span;
use rs_value::Kind;
use std::alloc::{AllocError, Global};

/// The rows on each route, which are of this kind, as their maximal runs. The only refusal is for want of memory.
pub(crate) fn runs_on(alloc: Global, kind: Kind, rows: RowsOn) -> Result<RowsOn, AllocError>
    requires placed { AllByRecursion (IsOfKind kind) (list_of rows) }
    ensures { IfOk result (λ made. AllZip (HasRuns kind) (list_of rows) (list_of made)) }
{
    let others = runs_each(alloc, kind, rows.others)?;
    let first = runs(kind, rows.first);
    Ok(RowsOn { first, others })
}

/// The same of each list of rows.
fn runs_each(alloc: Global, kind: Kind, lists: Vec<Vec<Span>>) -> Result<Vec<Vec<Span>>, AllocError>
    requires placed { AllByRecursion (IsOfKind kind) lists.items }
    ensures { IfOk result (λ made. AllZip (HasRuns kind) lists.items made.items) }
{
    let mut made = Vec::new(alloc);
    for rows in lists {
        made.push(runs(kind, rows))?;
    }
    Ok(made)
}
