//! The lines of EXPLAIN: each node of a plan before its operands, with its depth.
//!
//! It promises exactly the lines that the definition gives.

ghost use Rattle.std.specs.Prelude.{◌≡◌, ◌≤◌, ◌+◌, ◌++◌, [], ◌∷◌, map, length, codes, OnOk, IfOk, string_bytes};
ghost use Rattle.rs_planning.specs.Explain.{access_text, and_number, node_text, line_of_node, lines_from};
ghost use Rattle.rs_plan.specs.PlanView.{access_of, leaf_of, plan_tree};
ghost use Rattle.rs_plan.specs.Lines.{lines_of, lines_from_each};

use crate::plan::{Access, Leaf, Plan};
use itoa::Buffer;
use rs_methods::Name;
use std::alloc::{AllocError, Global};

/// The lines that EXPLAIN prints of a plan, each without `ROW ` and its LF. The only refusal is for want of memory.
pub fn explain(alloc: Global, plan: &Plan) -> Result<Vec<String>, AllocError>
    ensures { IfOk result (λ lines. lines_of lines ≡ lines_from 0 (plan_tree plan.now)) }
{
    lines_below(alloc, Vec::new(alloc), plan, 0)
}

// The lines, and after them those of a plan whose outermost node has this depth.
#[cycle(lines)]
fn lines_below(
    alloc: Global,
    lines: Vec<String>,
    plan: &Plan,
    depth: usize,
) -> Result<Vec<String>, AllocError>
    requires { depth ≤ length lines.items }
    ensures { IfOk result (λ all. lines_of all ≡ lines_of lines ++ lines_from depth (plan_tree plan.now)) }
{
    let lines = with_line(alloc, lines, plan, depth)?;
    match plan {
        Plan::Leaf(_) => Ok(lines),
        Plan::Where(_, operand) => lines_below(alloc, lines, operand, depth + 1),
        Plan::Dissolve(_, operand) => lines_below(alloc, lines, operand, depth + 1),
        Plan::Window(_, operand) => lines_below(alloc, lines, operand, depth + 1),
        Plan::Transform(_, _, operand) => lines_below(alloc, lines, operand, depth + 1),
        Plan::Gaps(operand) => lines_below(alloc, lines, operand, depth + 1),
        Plan::Overlay(_, operands) => lines_of_each(alloc, lines, operands.as_slice(), depth + 1),
        Plan::Cover(_, _, left, right) => {
            let lines = lines_below(alloc, lines, left, depth + 1)?;
            lines_below(alloc, lines, right, depth + 1)
        }
        Plan::Merge(left, right) => {
            let lines = lines_below(alloc, lines, left, depth + 1)?;
            lines_below(alloc, lines, right, depth + 1)
        }
        Plan::Minus(left, right) => {
            let lines = lines_below(alloc, lines, left, depth + 1)?;
            lines_below(alloc, lines, right, depth + 1)
        }
    }
}

// The same of each of these plans.
#[cycle(lines)]
fn lines_of_each(
    alloc: Global,
    lines: Vec<String>,
    plans: &[Plan],
    depth: usize,
) -> Result<Vec<String>, AllocError>
    requires { depth ≤ length lines.items }
    ensures { IfOk result (λ all. lines_of all ≡ lines_of lines ++ lines_from_each depth (map plan_tree plans.now)) }
{
    let mut all = lines;
    for plan in plans {
        all = lines_below(alloc, all, plan, depth)?;
    }
    Ok(all)
}

// The lines, and after them that of a plan's outermost node.
fn with_line(
    alloc: Global,
    lines: Vec<String>,
    plan: &Plan,
    depth: usize,
) -> Result<Vec<String>, AllocError>
    ensures { IfOk result (λ all. lines_of all ≡ lines_of lines ++ line_of_node depth (plan_tree plan.now) ∷ []) }
{
    let mut all = lines;
    all.push(line_of(alloc, plan, depth)?)?;
    Ok(all)
}

// The line of a plan's outermost node.
fn line_of(alloc: Global, plan: &Plan, depth: usize) -> Result<String, AllocError>
    ensures { IfOk result (λ line. string_bytes line ≡ line_of_node depth (plan_tree plan.now)) }
{
    let mut text = String::new(alloc);
    text.push_str(Buffer::new().format(depth))?;
    text.push(' ')?;
    push_node(&mut text, plan)?;
    Ok(text)
}

// Appends what stands after the depth.
fn push_node(text: &mut String, plan: &Plan) -> Result<(), AllocError>
    ensures { OnOk result (string_bytes text.new ≡ string_bytes text.old ++ node_text (plan_tree plan.now)) }
{
    match plan {
        Plan::Leaf(leaf) => push_leaf(text, leaf),
        Plan::Where(conditions, _) => push_counted(text, "WHERE", conditions.len()),
        Plan::Dissolve(columns, _) => push_counted(text, "DISSOLVE", columns.len()),
        Plan::Overlay(_, operands) => push_counted(text, "OVERLAY", operands.len()),
        Plan::Cover(_, _, _, _) => text.push_str("COVER"),
        Plan::Merge(_, _) => text.push_str("MERGE"),
        Plan::Minus(_, _) => text.push_str("MINUS"),
        Plan::Window(windows, _) => push_counted(text, "WINDOW", windows.len()),
        Plan::Transform(name, _, _) => push_named(text, "TRANSFORM", name),
        Plan::Gaps(_) => text.push_str("GAPS"),
    }
}

// Appends how the records of a leaf are found, its table, and how many windows and conditions it has.
fn push_leaf(text: &mut String, leaf: &Leaf) -> Result<(), AllocError>
    ensures { OnOk result (string_bytes text.new ≡ string_bytes text.old ++ node_text (leaf_of leaf.now)) }
{
    push_access(text, &leaf.access)?;
    text.push(' ')?;
    text.push_str(leaf.table.name.as_str())?;
    push_number(text, leaf.windows.len())?;
    push_number(text, leaf.conditions.len())
}

// Appends how the records of a leaf are found.
fn push_access(text: &mut String, access: &Access) -> Result<(), AllocError>
    ensures { OnOk result (string_bytes text.new ≡ string_bytes text.old ++ access_text (access_of access.now)) }
{
    match access {
        Access::Scan => text.push_str("SCAN"),
        Access::Range => text.push_str("RANGE"),
        Access::Index(index) => push_named(text, "INDEX", &index.name),
    }
}

// Appends a word, and a name after a space.
fn push_named(text: &mut String, word: &str, name: &Name) -> Result<(), AllocError>
    ensures { OnOk result (string_bytes text.new ≡ string_bytes text.old ++ (word.now ++ codes " " ++ name.now.bytes)) }
{
    text.push_str(word)?;
    text.push(' ')?;
    text.push_str(name.as_str())
}

// Appends a word, and a number after a space.
fn push_counted(text: &mut String, word: &str, number: usize) -> Result<(), AllocError>
    ensures { OnOk result (string_bytes text.new ≡ string_bytes text.old ++ (word.now ++ and_number number)) }
{
    text.push_str(word)?;
    push_number(text, number)
}

// Appends a number after a space.
fn push_number(text: &mut String, number: usize) -> Result<(), AllocError>
    ensures { OnOk result (string_bytes text.new ≡ string_bytes text.old ++ and_number number) }
{
    text.push(' ')?;
    text.push_str(Buffer::new().format(number))
}
