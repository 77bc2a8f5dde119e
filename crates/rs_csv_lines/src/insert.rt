//! The INSERT of a record.
//!
//! The line is the session, the table, the record's route, its place, and its values in the columns' order.

ghost use Rattle.std.specs.Prelude.{◌≡◌, ◌++◌, ◌<◌, OnOk, IfOk, ℕ, List, ◌∷◌, codes, string_bytes, length};
ghost use Rattle.csv.specs.Records.{fields_of};
ghost use Rattle.rs_machine.specs.Request.{Asks, command};
ghost use Rattle.rs_syntax.specs.Sound.{IsName};
ghost use Rattle.rs_syntax.specs.Tree.{CommandTree, EventLocationTree};
ghost use Rattle.rs_value.specs.Row.{Row};
ghost use Rattle.rs_csv_lines.specs.Inserts.{IsAt, IsInsertOf, PutsPlace, PutsFurther, PutsRow};

use crate::plan::{Column, Measures, Misfit, Place, Plan};
use crate::put::{put_position, put_route, put_session, put_value};
use csv::ByteRecord;
use rs_machine::limits::LINE_BYTES;
use rs_methods::{Name, Position};
use std::alloc::Global;

/// Where an event begins and ends on its route.
#[derive(Clone, Copy)]
pub struct Ends {
    /// Where it begins.
    pub first: Position,
    /// Where it ends, which is where it begins where it is at a position.
    pub last: Position,
    /// How many measures of it were rounded.
    pub rounded: u64,
}

/// Where the event of a record is.
#[derive(Clone, Copy)]
pub struct Event {
    /// Its route.
    pub route: Name,
    /// Its ends.
    pub ends: Ends,
}

// Puts the place of a record, from FROM or AT on, and gives where the event begins and ends.
fn put_place(
    alloc: Global,
    csv_record: &ByteRecord,
    place: Place,
    measures: Measures,
    line: &mut String,
) -> Result<Ends, Misfit>
    ensures { IfOk result (λ ends. (location : EventLocationTree) × (bytes : List ℕ) × PutsPlace measures (fields_of csv_record.now) place location bytes
        × (string_bytes line.new ≡ string_bytes line.old ++ bytes) × IsAt location ends) }
{
    match place {
        Place::Along { from, to } => {
            line.push_str(" FROM ")?;
            let (first, rounds_first) = put_position(alloc, csv_record, from, measures, line)?;
            line.push_str(" TO ")?;
            let (last, rounds_last) = put_position(alloc, csv_record, to, measures, line)?;
            Ok(Ends {
                first,
                last,
                rounded: u64::from(rounds_first) + u64::from(rounds_last),
            })
        }
        Place::At { at } => {
            line.push_str(" AT ")?;
            let (first, rounds_first) = put_position(alloc, csv_record, at, measures, line)?;
            let last = first;
            Ok(Ends {
                first,
                last,
                rounded: u64::from(rounds_first),
            })
        }
    }
}

// Puts the values of further columns, with a comma before each.
fn put_further(
    alloc: Global,
    csv_record: &ByteRecord,
    number: u64,
    columns: &[Column],
    line: &mut String,
) -> Result<(), Misfit>
    ensures { OnOk result ((row : Row) × (bytes : List ℕ) × PutsFurther number (fields_of csv_record.now) columns.now row bytes
        × (string_bytes line.new ≡ string_bytes line.old ++ bytes)) }
{
    match columns.split_first() {
        None => Ok(()),
        Some((column, others)) => {
            line.push_str(", ")?;
            put_value(alloc, csv_record, number, column, line)?;
            put_further(alloc, csv_record, number, others, line)
        }
    }
}

// Puts the values of a record.
fn put_row(
    alloc: Global,
    csv_record: &ByteRecord,
    number: u64,
    columns: &[Column],
    line: &mut String,
) -> Result<(), Misfit>
    requires { 0 < length columns.now }
    ensures { OnOk result ((row : Row) × (bytes : List ℕ) × PutsRow number (fields_of csv_record.now) columns.now row bytes
        × (string_bytes line.new ≡ string_bytes line.old ++ bytes)) }
{
    match columns.split_first() {
        None => unreachable!(),
        Some((column, others)) => {
            put_value(alloc, csv_record, number, column, line)?;
            put_further(alloc, csv_record, number, others, line)
        }
    }
}

/// Writes the line of the record of this number in place of what the line has, and gives where the event is.
///
/// Refused with the first field that is wrong, in the line's order, or where the line would be too long. Then a part of the
/// line may have been written.
pub fn write_insert(
    alloc: Global,
    plan: &Plan,
    csv_record: &ByteRecord,
    number: u64,
    line: &mut String,
) -> Result<Event, Misfit>
    requires session { plan.now.session < 64 }
    requires named { IsName plan.now.table.bytes }
    requires some { 0 < length plan.now.columns.items }
    ensures { IfOk result (λ event. (tree : CommandTree) × (inserts : IsInsertOf plan.now number (fields_of csv_record.now) tree)
        × (inserts.route ≡ event.route.bytes) × Asks (string_bytes line.new) (command plan.now.session tree) × IsAt inserts.place event.ends) }
{
    line.clear();
    put_session(line, plan.session)?;
    line.push_str(" INSERT INTO ")?;
    line.push_str(plan.table.as_str())?;
    line.push_str(" ON ")?;
    let route = put_route(alloc, csv_record, plan.route, plan.makes_names, line)?;
    let ends = put_place(alloc, csv_record, plan.place, plan.measures, line)?;
    line.push_str(" VALUES (")?;
    put_row(alloc, csv_record, number, plan.columns.as_slice(), line)?;
    line.push_str(")")?;
    let whole = line.as_str();
    if whole.len() > LINE_BYTES {
        return Err(Misfit::LongLine);
    }
    Ok(Event { route, ends })
}
