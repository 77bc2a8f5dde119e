//! All that is wrong with a record that has no line, field by field.

use crate::plan::{Misfit, Place, Plan};
use crate::put::{put_position, put_route, put_value};
use csv::ByteRecord;
use std::alloc::Global;

// Adds what is wrong with a field, where something is.
fn note(faults: &mut Vec<Misfit>, misfit: Option<Misfit>) -> Result<(), Misfit> {
    match misfit {
        None => Ok(()),
        Some(Misfit::OutOfMemory) => Err(Misfit::OutOfMemory),
        Some(misfit) => {
            faults.push(misfit)?;
            Ok(())
        }
    }
}

/// What is wrong with the fields of a record, in the line's order: each that the plan takes is looked at. Text is left in the line.
pub fn faults_of(
    alloc: Global,
    plan: &Plan,
    csv_record: &ByteRecord,
    number: u64,
    line: &mut String,
) -> Result<Vec<Misfit>, Misfit> {
    let mut faults = Vec::new(alloc);
    line.clear();
    let route = put_route(alloc, csv_record, plan.route, plan.makes_names, line);
    note(&mut faults, route.err())?;
    match plan.place {
        Place::Along { from, to } => {
            let first = put_position(alloc, csv_record, from, plan.measures, line);
            note(&mut faults, first.err())?;
            let last = put_position(alloc, csv_record, to, plan.measures, line);
            note(&mut faults, last.err())?;
        }
        Place::At { at } => {
            let position = put_position(alloc, csv_record, at, plan.measures, line);
            note(&mut faults, position.err())?;
        }
    }
    for column in &plan.columns {
        line.clear();
        let value = put_value(alloc, csv_record, number, column, line);
        note(&mut faults, value.err())?;
    }
    Ok(faults)
}
