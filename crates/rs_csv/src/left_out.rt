//! A record that is left out: all that is wrong with it is told, and its row goes with the reason to what takes such rows.

ghost use Rattle.std.specs.Prelude.{IfErr, OnOk};
ghost use Rattle.csv.specs.Records.{fields_of};
ghost use Rattle.rs_csv.specs.Rejects.{GivesRow};
ghost use Rattle.rs_csv.specs.Stops.{IsFailure};

use crate::filter::Stop;
use crate::made::route_text;
use crate::progress::Planned;
use crate::rejects::{Rejecting, count_of, header_row, push_reject, width_of};
use crate::spot::Spot;
use crate::tell::{tell_misfit, tell_more_fields, tell_spot, tell_taken_name};
use crate::texts::{TakenName, Texts, taken_name};
use crate::told::{Kind, Told};
use csv::ByteRecord;
use rs_csv_lines::{Misfit, faults_of};
use rs_protocol::put_parts;
use std::alloc::{AllocError, Global};
use std::io::Write;

/// A record that is left out.
#[derive(Clone, Copy)]
pub struct LeftOut<'a> {
    /// The plan and the header.
    pub planned: &'a Planned,
    /// The record.
    pub csv_record: &'a ByteRecord,
    /// Where it stands.
    pub spot: Spot,
}

/// What is wrong with a record.
#[derive(Clone, Copy)]
pub struct Wrong<'a> {
    /// The name that its route would be made, where that is made of another text.
    pub taken: Option<TakenName<'a>>,
    /// What was met first of what is wrong with its fields or its line, where something is.
    pub first: Option<Misfit>,
}

impl LeftOut<'_> {
    // Has its row taken, with the reason, where such are wanted.
    fn reject<X: Rejecting>(
        &self,
        alloc: Global,
        reason: &[u8],
        told: &mut Told,
        rejects: &mut X,
    ) -> Result<(), Stop>
        ensures stops { IfErr result IsFailure }
        ensures gives { OnOk result (GivesRow self.now.planned.now.separator (fields_of self.now.planned.now.header) (fields_of self.now.csv_record.now) (X.taken rejects.old) (X.taken rejects.new)) }
    {
        if !rejects.is_wanted() {
            return Ok(());
        }
        let header = &self.planned.header;
        let separator = self.planned.separator;
        let mut row = header_row(alloc, header, separator, told.lacks_header())?;
        push_reject(&mut row, header, self.csv_record, separator, reason)?;
        match rejects.reject(row.as_slice()) {
            Ok(()) => Ok(()),
            Err(fault) => Err(Stop::Stream(fault)),
        }
    }

    // Tells what is wrong with it in these words, and adds them to the reason.
    fn tell<E: Write>(
        &self,
        kind: Kind,
        words: &[u8],
        reason: &mut Vec<u8>,
        told: &mut Told,
        errors: &mut E,
    ) -> Result<(), AllocError> {
        if told.meet(kind) {
            let part: &[u8] = if kind.is_of_field() { b", " } else { b": " };
            tell_spot(errors, self.spot);
            let _ = put_parts(errors, &[part, words, b"\n"]);
        }
        if !reason.is_empty() {
            reason.extend_from_slice(b"; ")?;
        }
        reason.extend_from_slice(words)
    }

    // Tells that its route would have the name that is made of another text, where that is so.
    fn tell_taken<E: Write>(
        &self,
        alloc: Global,
        taken: &Option<TakenName<'_>>,
        reason: &mut Vec<u8>,
        told: &mut Told,
        errors: &mut E,
    ) -> Result<(), AllocError> {
        let Some(taken) = taken else {
            return Ok(());
        };
        let plan = &self.planned.plan;
        let text = route_text(plan, self.csv_record);
        let mut words = Vec::new(alloc);
        tell_taken_name(&mut words, &self.planned.header, plan.route, text, taken);
        self.tell(Kind::TakenName, words.as_slice(), reason, told, errors)
    }

    // Tells what is wrong with a field of it, or with its line.
    fn tell_fault<E: Write>(
        &self,
        alloc: Global,
        fault: Misfit,
        reason: &mut Vec<u8>,
        told: &mut Told,
        errors: &mut E,
    ) -> Result<(), AllocError> {
        let mut words = Vec::new(alloc);
        tell_misfit(&mut words, &self.planned.header, self.csv_record, fault);
        let kind = Kind::of_misfit(fault);
        self.tell(kind, words.as_slice(), reason, told, errors)
    }

    // What is wrong with its fields and its line, of which this was met first.
    fn faults(
        &self,
        alloc: Global,
        first: Option<Misfit>,
        line: &mut String,
    ) -> Result<Vec<Misfit>, Misfit> {
        let Some(first) = first else {
            return Ok(Vec::new(alloc));
        };
        let plan = &self.planned.plan;
        let number = self.spot.number;
        let mut faults = match first {
            Misfit::Field(..) => faults_of(alloc, plan, self.csv_record, number, line)?,
            _ => Vec::new(alloc),
        };
        if faults.is_empty() {
            faults.push(first)?;
        }
        Ok(faults)
    }

    /// What is wrong with it, of which this was met first, where names were made of these texts.
    pub fn wrong<'b>(&self, first: Option<Misfit>, texts: &'b Texts) -> Wrong<'b> {
        let plan = &self.planned.plan;
        let taken = if plan.makes_names {
            taken_name(texts, route_text(plan, self.csv_record))
        } else {
            None
        };
        Wrong { taken, first }
    }

    /// Tells all that is wrong with it.
    pub fn tell_faults<E: Write, X: Rejecting>(
        &self,
        alloc: Global,
        wrong: &Wrong<'_>,
        line: &mut String,
        told: &mut Told,
        errors: &mut E,
        rejects: &mut X,
    ) -> Result<(), Stop>
        ensures stops { IfErr result IsFailure }
        ensures gives { OnOk result (GivesRow self.now.planned.now.separator (fields_of self.now.planned.now.header) (fields_of self.now.csv_record.now) (X.taken rejects.old) (X.taken rejects.new)) }
    {
        let Ok(faults) = self.faults(alloc, wrong.first, line) else {
            return Err(Stop::OutOfMemory);
        };
        told.leave_out();
        let mut reason = Vec::new(alloc);
        self.tell_taken(alloc, &wrong.taken, &mut reason, told, errors)?;
        for fault in &faults {
            self.tell_fault(alloc, *fault, &mut reason, told, errors)?;
        }
        self.reject(alloc, reason.as_slice(), told, rejects)
    }

    /// Tells that it has more fields than the header. What else is wrong with it isn't looked for, since it isn't known which field is which.
    pub fn tell_more_fields<E: Write, X: Rejecting>(
        &self,
        alloc: Global,
        told: &mut Told,
        errors: &mut E,
        rejects: &mut X,
    ) -> Result<(), Stop>
        ensures stops { IfErr result IsFailure }
        ensures gives { OnOk result (GivesRow self.now.planned.now.separator (fields_of self.now.planned.now.header) (fields_of self.now.csv_record.now) (X.taken rejects.old) (X.taken rejects.new)) }
    {
        let header = &self.planned.header;
        let width = width_of(header);
        let first = self.csv_record.get(width).unwrap_or(b"");
        let mut words = Vec::new(alloc);
        tell_more_fields(&mut words, count_of(header, self.csv_record), width, first);
        told.leave_out();
        let mut reason = Vec::new(alloc);
        self.tell(
            Kind::MoreFields,
            words.as_slice(),
            &mut reason,
            told,
            errors,
        )?;
        self.reject(alloc, reason.as_slice(), told, rejects)
    }
}
