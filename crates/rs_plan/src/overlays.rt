//! Operands of an OVERLAY: in the order of their weights, and how their columns are put back into the written order.

ghost use Rattle.std.specs.Prelude.{◌≡◌, ◌-◌, ◌^◌, ◌++◌, map, flat_map, min, IfOk};
ghost use Rattle.std.specs.List.{range_with_len};
ghost use Rattle.rs_plan.specs.Operands.{IsTogether, IsOverlay, weights, widths, written_from, range_from, range_of, place_among};

use crate::operand::Operand;
use crate::plan::Plan;
use std::alloc::{AllocError, Global};

/// An operand, and where its first column is in the written order.
#[derive(Drop)]
struct Written {
    operand: Operand,
    first: u8,
}

/// The one plan of some operands: one alone is itself, several are an OVERLAY, the lightest first.
pub(crate) fn together(alloc: Global, operands: Vec<Operand>) -> Result<Operand, AllocError>
    ensures { IfOk result (λ one. IsTogether operands.items one) }
{
    if operands.len() != 1 {
        return overlay(alloc, operands);
    }
    let mut operands = operands;
    match operands.pop() {
        Some(operand) => Ok(operand),
        None => overlay(alloc, operands),
    }
}

// An OVERLAY of the operands.
fn overlay(alloc: Global, operands: Vec<Operand>) -> Result<Operand, AllocError>
    ensures { IfOk result (λ one. IsOverlay operands.items one) }
{
    let weight = total_weight(operands.as_slice());
    let width = total_width(operands.as_slice());
    let mut written = in_written_order(alloc, operands)?;
    written.sort_by_key(|one| one.operand.weight)?;
    let columns = columns_together(alloc, written.as_slice())?;
    let back = put_back(alloc, columns.as_slice(), width)?;
    let plans = plans_of(alloc, written)?;
    Ok(Operand {
        plan: Plan::Overlay(back, plans),
        weight,
        width,
    })
}

// The operands, each with the place of its first column.
fn in_written_order(alloc: Global, operands: Vec<Operand>) -> Result<Vec<Written>, AllocError>
    ensures { IfOk result (λ written. written.items ≡ written_from 0 operands.items) }
{
    let mut written = Vec::with_capacity(alloc, operands.len())?;
    let mut first: u8 = 0;
    for operand in operands {
        let next = first.saturating_add(operand.width);
        written.push(Written { operand, first })?;
        first = next;
    }
    Ok(written)
}

// How many records the leaves have together.
fn total_weight(operands: &[Operand]) -> u128
    ensures { result ≡ min (weights operands.now) (2 ^ 128 - 1) }
{
    let mut total: u128 = 0;
    for operand in operands {
        total = total.saturating_add(operand.weight);
    }
    total
}

// How many columns the operands have together.
fn total_width(operands: &[Operand]) -> u8
    ensures { result ≡ min (widths operands.now) (2 ^ 8 - 1) }
{
    let mut total: u8 = 0;
    for operand in operands {
        total = total.saturating_add(operand.width);
    }
    total
}

// The places of all columns in the written order, those of the first operand first.
fn columns_together(alloc: Global, written: &[Written]) -> Result<Vec<u8>, AllocError>
    ensures { IfOk result (λ columns. columns.items ≡ flat_map range_of written.now) }
{
    let mut columns = Vec::new(alloc);
    for one in written {
        columns = with_range(columns, one.first, one.operand.width)?;
    }
    Ok(columns)
}

// The columns, and after them so many from a first one on.
fn with_range(columns: Vec<u8>, first: u8, width: u8) -> Result<Vec<u8>, AllocError>
    ensures { IfOk result (λ all. all.items ≡ columns.items ++ range_from first width) }
{
    let mut all = columns;
    for place in 0..width {
        all.push(first.saturating_add(place))?;
    }
    Ok(all)
}

// Where each column of the written order is among these.
fn put_back(alloc: Global, columns: &[u8], width: u8) -> Result<Vec<u8>, AllocError>
    ensures { IfOk result (λ back. back.items ≡ map (place_among columns.now) (range_with_len 0 width)) }
{
    let mut back = Vec::new(alloc);
    for column in 0..width {
        back.push(place_among(columns, column))?;
    }
    Ok(back)
}

// The first place of a column among these; how many there are where it is none.
fn place_among(columns: &[u8], column: u8) -> u8
    ensures { result ≡ place_among columns.now column }
{
    let mut place: u8 = 0;
    for other in columns {
        if *other == column {
            return place;
        }
        place = place.saturating_add(1);
    }
    place
}

// The plans of the operands.
fn plans_of(alloc: Global, written: Vec<Written>) -> Result<Vec<Plan>, AllocError>
    ensures { IfOk result (λ plans. plans.items ≡ map (λ one. one.operand.plan) written.items) }
{
    let mut plans = Vec::with_capacity(alloc, written.len())?;
    for one in written {
        plans.push(one.operand.plan)?;
    }
    Ok(plans)
}
