//! What is asked of a query from further out, on its way down.

ghost use Rattle.std.specs.Prelude.{◌≡◌, [], ◌∷◌, ◌++◌, map, filter, IfOk};
ghost use Rattle.rs_facts.specs.ConditionView.{condition_of};
ghost use Rattle.rs_planning.specs.Conjuncts.{conjuncts, is_of_left, is_of_right, is_of_both, under_dissolve, under_right};
ghost use Rattle.rs_plan.specs.PlanView.{conditions_of};

use crate::conditions::{Places, Share, and_conjuncts, copies, share_of};
use crate::plan::PlannedWindow;
use rs_facts::Condition;
use std::alloc::{AllocError, Global};

/// What is asked of a query from further out.
#[derive(Drop)]
pub(crate) struct Asked {
    /// The windows through which it is seen.
    pub(crate) windows: Vec<PlannedWindow>,
    /// The conditions that its rows meet.
    pub(crate) conditions: Vec<Condition>,
}

/// What is asked of the operands of OVERLAY, and of both together.
#[derive(Drop)]
pub(crate) struct Shares {
    /// Of the left.
    pub(crate) left: Asked,
    /// Of the right.
    pub(crate) right: Asked,
    /// The conditions that read columns of both.
    pub(crate) both: Vec<Condition>,
}

/// Nothing: it is seen through no window, and its rows meet no condition.
pub(crate) fn nothing(alloc: Global) -> Asked
    ensures windows { result.windows.items ≡ [] }
    ensures conditions { conditions_of result.conditions ≡ [] }
{
    Asked {
        windows: Vec::new(alloc),
        conditions: Vec::new(alloc),
    }
}

/// The conjuncts of a condition are asked too, after the others.
pub(crate) fn with_condition(
    alloc: Global,
    asked: Asked,
    condition: &Condition,
) -> Result<Asked, AllocError>
    ensures windows { IfOk result (λ made. made.windows.items ≡ asked.windows.items) }
    ensures conditions { IfOk result (λ made. conditions_of made.conditions ≡ conditions_of asked.conditions ++ conjuncts (condition_of condition.now)) }
{
    Ok(Asked {
        windows: asked.windows,
        conditions: and_conjuncts(alloc, condition, asked.conditions)?,
    })
}

/// It is seen through one window more, after the others.
pub(crate) fn with_window(asked: Asked, window: PlannedWindow) -> Result<Asked, AllocError>
    ensures windows { IfOk result (λ made. made.windows.items ≡ asked.windows.items ++ window ∷ []) }
    ensures conditions { IfOk result (λ made. made.conditions ≡ asked.conditions) }
{
    let mut windows = asked.windows;
    windows.push(window)?;
    Ok(Asked {
        windows,
        conditions: asked.conditions,
    })
}

/// What is asked of the operand of DISSOLVE, whose columns are at these places.
pub(crate) fn for_dissolve(alloc: Global, asked: Asked, columns: &[u8]) -> Result<Asked, AllocError>
    ensures windows { IfOk result (λ made. made.windows.items ≡ asked.windows.items) }
    ensures conditions { IfOk result (λ made. conditions_of made.conditions ≡ map (under_dissolve columns.now) (conditions_of asked.conditions)) }
{
    Ok(Asked {
        windows: asked.windows,
        conditions: copies(alloc, asked.conditions.as_slice(), Places::Named(columns))?,
    })
}

/// The same once more.
pub(crate) fn same(alloc: Global, asked: &Asked) -> Result<Asked, AllocError>
    ensures windows { IfOk result (λ made. made.windows.items ≡ asked.now.windows.items) }
    ensures conditions { IfOk result (λ made. conditions_of made.conditions ≡ conditions_of asked.now.conditions) }
{
    Ok(Asked {
        windows: same_windows(alloc, asked.windows.as_slice())?,
        conditions: copies(alloc, asked.conditions.as_slice(), Places::Same)?,
    })
}

/// What is asked of the operands of OVERLAY, the left of this width: windows of both, each condition where its columns
/// are.
pub(crate) fn shares_of(alloc: Global, asked: Asked, width: u8) -> Result<Shares, AllocError>
    ensures left_windows { IfOk result (λ made. made.left.windows.items ≡ asked.windows.items) }
    ensures right_windows { IfOk result (λ made. made.right.windows.items ≡ asked.windows.items) }
    ensures left { IfOk result (λ made. conditions_of made.left.conditions ≡ filter (is_of_left width) (conditions_of asked.conditions)) }
    ensures right { IfOk result (λ made. conditions_of made.right.conditions ≡ map (under_right width) (filter (is_of_right width) (conditions_of asked.conditions))) }
    ensures both { IfOk result (λ made. conditions_of made.both ≡ filter (is_of_both width) (conditions_of asked.conditions)) }
{
    let conditions = asked.conditions.as_slice();
    let left = share_of(alloc, conditions, Share::Left, width)?;
    let right = share_of(alloc, conditions, Share::Right, width)?;
    let both = share_of(alloc, conditions, Share::Both, width)?;
    let windows = same_windows(alloc, asked.windows.as_slice())?;
    Ok(Shares {
        left: Asked {
            windows,
            conditions: left,
        },
        right: Asked {
            windows: asked.windows,
            conditions: right,
        },
        both,
    })
}

// The same windows in a list of their own.
fn same_windows(alloc: Global, windows: &[PlannedWindow]) -> Result<Vec<PlannedWindow>, AllocError>
    ensures { IfOk result (λ copies. copies.items ≡ windows.now) }
{
    let mut copies = Vec::with_capacity(alloc, windows.len())?;
    copies.extend_from_slice(windows)?;
    Ok(copies)
}
