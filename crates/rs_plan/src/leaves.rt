//! Leaves: how the records of a table are found, and what a checked query names as a plan names it.

ghost use Rattle.std.specs.Prelude.{◌≡◌, [], ◌∷◌, map, flat_map, IfOk};
ghost use Rattle.rs_facts.specs.ConditionView.{condition_of};
ghost use Rattle.rs_facts.specs.Query.{table_rows};
ghost use Rattle.rs_checker.specs.CheckedView as checked;
ghost use Rattle.rs_plan.specs.Leaves.{serves_as, index_among, access_for, planned_table};
ghost use Rattle.rs_plan.specs.Operands.{IsPlaced};
ghost use Rattle.rs_plan.specs.PlanView.{conditions_of, window_of, named_by_window, named_by_piece, piece_of};

use crate::asking::Asked;
use crate::conditions::some_equates;
use crate::counts::{Counts, Index};
use crate::nodes::alone;
use crate::operand::Operand;
use crate::plan::{
    Access, Leaf, Plan, PlannedIndex, PlannedPiece, PlannedRoute, PlannedTable, PlannedWindow,
};
use rs_checker::{CheckedTable, LocatedPiece, LocatedWindow};
use rs_facts::Condition;
use std::alloc::{AllocError, Global};

/// The plan of a table: a leaf, by an index where one serves, else by range where there is a window.
pub(crate) fn leaf<C: Counts>(
    alloc: Global,
    table: CheckedTable,
    asked: Asked,
    counts: &C,
) -> Result<Vec<Operand>, AllocError>
    ensures { IfOk result (λ operands. IsPlaced (C.counted counts.now) (table_rows table.name.bytes) (checked.named_table table ∷ [])
        asked.windows.items (conditions_of asked.conditions) operands.items) }
{
    let access = access_of(
        counts.indexes(),
        table.number,
        asked.windows.as_slice(),
        asked.conditions.as_slice(),
    );
    let leaf = Leaf {
        access,
        table: planned_table(&table),
        windows: asked.windows,
        conditions: asked.conditions,
    };
    let operand = Operand {
        plan: Plan::Leaf(leaf),
        weight: counts.records(table.number),
        width: table.width,
    };
    alone(alloc, operand)
}

// How the records of the table of this number are found.
fn access_of(
    indexes: &[Index],
    table: u32,
    windows: &[PlannedWindow],
    conditions: &[Condition],
) -> Access
    ensures { result ≡ access_for (index_among indexes.now table (map condition_of conditions.now)) windows.now }
{
    match index_of(indexes, table, conditions) {
        Some(index) => Access::Index(index),
        None => {
            if windows.is_empty() {
                Access::Scan
            } else {
                Access::Range
            }
        }
    }
}

// The first index of the table of this number whose column is in a condition `column = literal`.
fn index_of(indexes: &[Index], table: u32, conditions: &[Condition]) -> Option<PlannedIndex>
    ensures { result ≡ index_among indexes.now table (map condition_of conditions.now) }
{
    for index in indexes {
        if serves(index, table, conditions) {
            return Some(PlannedIndex {
                name: index.name,
                number: index.number,
            });
        }
    }
    None
}

// Whether the index is of the table of this number, and its column is in a condition `column = literal`.
fn serves(index: &Index, table: u32, conditions: &[Condition]) -> bool
    ensures { result ≡ serves_as index.now table (map condition_of conditions.now) }
{
    index.table == table && some_equates(conditions, index.column)
}

// The table of a leaf.
fn planned_table(table: &CheckedTable) -> PlannedTable
    ensures { result ≡ planned_table table.now }
{
    PlannedTable {
        name: table.name,
        number: table.number,
        kind: table.kind,
        width: table.width,
    }
}

/// The window of a plan.
pub(crate) fn planned_window(window: LocatedWindow) -> PlannedWindow
    ensures means { window_of result ≡ checked.window_of window }
    ensures names { named_by_window result ≡ checked.named_by_window window }
{
    match window {
        LocatedWindow::Whole { route, number } => PlannedWindow::Whole {
            route: PlannedRoute {
                name: route,
                number,
            },
        },
        LocatedWindow::Part {
            route,
            number,
            from,
            to,
        } => PlannedWindow::Part {
            route: PlannedRoute {
                name: route,
                number,
            },
            from,
            to,
        },
    }
}

/// The pieces of a plan.
pub(crate) fn planned_pieces(
    alloc: Global,
    pieces: &[LocatedPiece],
) -> Result<Vec<PlannedPiece>, AllocError>
    ensures means { IfOk result (λ planned. map piece_of planned.items ≡ checked.located_pieces pieces.now) }
    ensures names { IfOk result (λ planned. flat_map named_by_piece planned.items ≡ flat_map checked.named_by_piece pieces.now) }
{
    let mut planned = Vec::with_capacity(alloc, pieces.len())?;
    for piece in pieces {
        planned.push(planned_piece(piece))?;
    }
    Ok(planned)
}

// A piece of a plan.
fn planned_piece(piece: &LocatedPiece) -> PlannedPiece
    ensures means { piece_of result ≡ checked.located_piece piece.now }
    ensures names { named_by_piece result ≡ checked.named_by_piece piece.now }
{
    PlannedPiece {
        from_route: PlannedRoute {
            name: piece.piece.from_route,
            number: piece.from_number,
        },
        from: piece.piece.from,
        to: piece.piece.to,
        onto_route: PlannedRoute {
            name: piece.piece.onto_route,
            number: piece.onto_number,
        },
        onto: piece.piece.onto,
    }
}
