//! Nodes over operands, and operands of OVERLAY side by side.

ghost use Rattle.std.specs.Prelude.{◌≡◌, ◌+◌, ◌-◌, ◌^◌, [], ◌∷◌, ◌++◌, map, flat_map, min, length, IfOk};
ghost use Rattle.rs_planning.specs.Plan as plans;
ghost use Rattle.rs_planning.specs.Rule as rule;
ghost use Rattle.rs_checker.specs.CheckedView as checked;
ghost use Rattle.rs_plan.specs.Operands.{operand_tree, operand_names, rows_node, IsAlone, IsOver, IsOverlaid};
ghost use Rattle.rs_plan.specs.PlanView.{plan_tree, named_in, conditions_of, windows_of, named_by_window};

use crate::leaves::planned_pieces;
use crate::operand::Operand;
use crate::overlays::together;
use crate::plan::{Plan, PlannedWindow};
use crate::widths::count;
use rs_checker::LocatedPiece;
use rs_facts::Condition;
use rs_methods::Name;
use std::alloc::{AllocError, Global};

/// DISSOLVE over an operand.
pub(crate) fn dissolve(
    alloc: Global,
    columns: Vec<u8>,
    one: Operand,
) -> Result<Vec<Operand>, AllocError>
    ensures { IfOk result (λ made. IsAlone made.items (plans.dissolve_node columns.items (operand_tree one)) one.weight (min (length columns.items) (2 ^ 8 - 1)) (operand_names one)) }
{
    let width = count(columns.as_slice());
    alone(
        alloc,
        Operand {
            plan: Plan::Dissolve(columns, Box::new(alloc, one.plan)?),
            weight: one.weight,
            width,
        },
    )
}

/// An operator of two operands that are as wide.
#[derive(Clone, Copy)]
pub(crate) enum OfRows {
    /// The rows of either.
    Merge,
    /// The rows of the first that the second does not have.
    Minus,
}

/// MERGE or MINUS of two operands.
pub(crate) fn of_rows(
    alloc: Global,
    operator: OfRows,
    left: Operand,
    right: Operand,
) -> Result<Vec<Operand>, AllocError>
    ensures { IfOk result (λ made. IsAlone made.items (rows_node operator (operand_tree left) (operand_tree right)) (min (left.weight + right.weight) (2 ^ 128 - 1)) left.width (operand_names left ++ operand_names right)) }
{
    let weight = left.weight.saturating_add(right.weight);
    let width = left.width;
    let first = Box::new(alloc, left.plan)?;
    let second = Box::new(alloc, right.plan)?;
    alone(
        alloc,
        Operand {
            plan: plan_of_rows(operator, first, second),
            weight,
            width,
        },
    )
}

/// MERGE or MINUS of two plans.
fn plan_of_rows(operator: OfRows, first: Box<Plan>, second: Box<Plan>) -> Plan
    ensures tree { plan_tree result ≡ rows_node operator (plan_tree first.value) (plan_tree second.value) }
    ensures names { named_in result ≡ named_in first.value ++ named_in second.value }
{
    match operator {
        OfRows::Merge => Plan::Merge(first, second),
        OfRows::Minus => Plan::Minus(first, second),
    }
}

/// COVER of two operands of these widths, under a WHERE where there are conditions.
pub(crate) fn cover(
    alloc: Global,
    left_width: u8,
    right_width: u8,
    left: Operand,
    right: Operand,
    conditions: Vec<Condition>,
) -> Result<Vec<Operand>, AllocError>
    ensures { IfOk result (λ made. IsAlone made.items (rule.under_where (conditions_of conditions) (plans.cover_node left_width right_width (operand_tree left) (operand_tree right)))
        (min (left.weight + right.weight) (2 ^ 128 - 1)) (min (left_width + right_width) (2 ^ 8 - 1)) (operand_names left ++ operand_names right)) }
{
    let weight = left.weight.saturating_add(right.weight);
    let width = left_width.saturating_add(right_width);
    let plan = Plan::Cover(
        left_width,
        right_width,
        Box::new(alloc, left.plan)?,
        Box::new(alloc, right.plan)?,
    );
    let one = Operand {
        plan,
        weight,
        width,
    };
    alone(alloc, under_where(alloc, conditions, one)?)
}

/// TRANSFORM over an operand, under a WINDOW where there are windows.
pub(crate) fn transform(
    alloc: Global,
    name: Name,
    pieces: &[LocatedPiece],
    one: Operand,
    windows: Vec<PlannedWindow>,
) -> Result<Vec<Operand>, AllocError>
    ensures { IfOk result (λ made. IsAlone made.items (rule.under_window (windows_of windows) (plans.transform_node name.bytes (checked.located_pieces pieces.now) (operand_tree one))) one.weight one.width
        (map named_by_window windows.items ++ (flat_map checked.named_by_piece pieces.now ++ operand_names one))) }
{
    let planned = planned_pieces(alloc, pieces)?;
    let carried = Operand {
        plan: Plan::Transform(name, planned, Box::new(alloc, one.plan)?),
        weight: one.weight,
        width: one.width,
    };
    alone(alloc, under_window(alloc, windows, carried)?)
}

/// GAPS over an operand, under a WINDOW where there are windows, and that under a WHERE where there are conditions.
pub(crate) fn gaps(
    alloc: Global,
    one: Operand,
    windows: Vec<PlannedWindow>,
    conditions: Vec<Condition>,
) -> Result<Vec<Operand>, AllocError>
    ensures { IfOk result (λ made. IsAlone made.items (rule.under_where (conditions_of conditions) (rule.under_window (windows_of windows) (plans.gaps_node (operand_tree one)))) one.weight 0
        (map named_by_window windows.items ++ operand_names one)) }
{
    let gaps = Operand {
        plan: Plan::Gaps(Box::new(alloc, one.plan)?),
        weight: one.weight,
        width: 0,
    };
    let seen = under_window(alloc, windows, gaps)?;
    alone(alloc, under_where(alloc, conditions, seen)?)
}

/// The operands of OVERLAY as they are where there are no conditions; else their one plan under a WHERE.
pub(crate) fn overlay_under_where(
    alloc: Global,
    conditions: Vec<Condition>,
    operands: Vec<Operand>,
) -> Result<Vec<Operand>, AllocError>
    ensures { IfOk result (λ made. IsOverlaid (conditions_of conditions) operands.items made.items) }
{
    if conditions.is_empty() {
        return Ok(operands);
    }
    let one = together(alloc, operands)?;
    alone(alloc, under_where(alloc, conditions, one)?)
}

/// The operands of both, those of the left first.
pub(crate) fn side_by_side(
    left: Vec<Operand>,
    right: Vec<Operand>,
) -> Result<Vec<Operand>, AllocError>
    ensures { IfOk result (λ all. all.items ≡ left.items ++ right.items) }
{
    let mut all = left;
    for operand in right {
        all.push(operand)?;
    }
    Ok(all)
}

/// An operand alone.
pub(crate) fn alone(alloc: Global, operand: Operand) -> Result<Vec<Operand>, AllocError>
    ensures { IfOk result (λ operands. operands.items ≡ operand ∷ []) }
{
    let mut operands = Vec::new(alloc);
    operands.push(operand)?;
    Ok(operands)
}

// A WHERE above, where there are conditions.
fn under_where(
    alloc: Global,
    conditions: Vec<Condition>,
    one: Operand,
) -> Result<Operand, AllocError>
    ensures { IfOk result (λ made. IsOver made (rule.under_where (conditions_of conditions) (operand_tree one)) one.weight one.width (operand_names one)) }
{
    if conditions.is_empty() {
        return Ok(one);
    }
    Ok(Operand {
        plan: Plan::Where(conditions, Box::new(alloc, one.plan)?),
        weight: one.weight,
        width: one.width,
    })
}

// A WINDOW above, where there are windows.
fn under_window(
    alloc: Global,
    windows: Vec<PlannedWindow>,
    one: Operand,
) -> Result<Operand, AllocError>
    ensures { IfOk result (λ made. IsOver made (rule.under_window (windows_of windows) (operand_tree one)) one.weight one.width (map named_by_window windows.items ++ operand_names one)) }
{
    if windows.is_empty() {
        return Ok(one);
    }
    Ok(Operand {
        plan: Plan::Window(windows, Box::new(alloc, one.plan)?),
        weight: one.weight,
        width: one.width,
    })
}
