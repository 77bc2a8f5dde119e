//! What is made of the records so far: lines that are still to be written, and whether something was told.

ghost use Rattle.std.specs.Prelude.{◌≡◌, ◌+◌, ◌-◌, ◌^◌, ◌++◌, ◌∷◌, [], ◌<◌, IfErr, IfOk, OnOk, length, false, true};
ghost use Rattle.csv.specs.Records.{fields_of};
ghost use Rattle.rs_syntax.specs.Tree.{CommandTree};
ghost use Rattle.rs_syntax.specs.Sound.{IsName};
ghost use Rattle.rs_csv_lines.specs.Inserts.{TellsRoute};
ghost use Rattle.rs_csv.specs.Output.{IsQuiet, MakesLines};
ghost use Rattle.rs_csv.specs.Rejects.{HasLineOrRow};
ghost use Rattle.rs_csv.specs.Routes.{HaveMet};
ghost use Rattle.rs_csv.specs.Stops.{IsFailure};
ghost use Rattle.rs_csv.specs.Texts.{IsOneText, IsTextAt, KeepsTexts, text_of_name};

use crate::filter::Stop;
use crate::left_out::LeftOut;
use crate::progress::Planned;
use crate::rejects::Rejecting;
use crate::routes::{Extents, meet_event, no_extents};
use crate::spot::{Lines, LinesRead, Spot};
use crate::texts::{Texts, take_text};
use crate::told::Told;
use csv::ByteRecord;
use rs_catalog::ByName;
use rs_csv_lines::fields::content;
use rs_csv_lines::names::trimmed;
use rs_csv_lines::{Misfit, Plan, write_insert};
use rs_methods::Name;
use rs_protocol::Fault;
use std::alloc::{AllocError, Global};
use std::io::Write;

/// What is made of the records so far.
#[derive(Drop)]
pub struct Made {
    /// The lines that are still to be written.
    pub bytes: Vec<u8>,
    /// Room for one line.
    pub line: String,
    /// How many records there were.
    pub number: u64,
    /// The lines of the text that is read.
    pub lines: LinesRead,
    /// Whether something was told.
    pub has_told: bool,
    /// What was told.
    pub told: Told,
    /// How many measures were rounded.
    pub rounded: u64,
    /// The routes, where they are to be defined.
    pub extents: Option<Extents>,
    /// The texts of the routes, where names are made of them.
    pub texts: Texts,
}

impl Made {
    /// Nothing.
    pub fn new(alloc: Global, defines_routes: bool) -> Self
        ensures bytes { result.bytes.items ≡ [] }
        ensures told { result.has_told ≡ false }
        ensures number { result.number ≡ 0 }
        ensures routes { defines_routes ≡ true → HaveMet result.extents [] }
    {
        Made {
            bytes: Vec::new(alloc),
            line: String::new(alloc),
            number: 0,
            lines: LinesRead::before_text(Lines::new()),
            has_told: false,
            told: Told::new(),
            rounded: 0,
            extents: no_extents(alloc, defines_routes),
            texts: ByName::new(alloc),
        }
    }
}

/// The number of the record after so many.
pub fn next_number(number: u64) -> Result<u64, Stop>
    ensures counted { IfOk result (λ next. next ≡ number + 1) }
    ensures stops { IfErr result (λ stop. (stop ≡ Stop.Stream Fault.Read) × (number ≡ 2 ^ 64 - 1)) }
{
    match number.checked_add(1) {
        Some(next) => Ok(next),
        None => Err(Stop::Stream(Fault::Read)),
    }
}

/// Adds a line, with its LF.
pub fn push_line(bytes: &mut Vec<u8>, line: &str) -> Result<(), AllocError>
    ensures { OnOk result (bytes.new.items ≡ bytes.old.items ++ line.now ++ 10 ∷ []) }
{
    bytes.extend_from_slice(line.as_bytes())?;
    bytes.push(b'\n')?;
    Ok(())
}

/// The text of a record's route.
pub fn route_text<'a>(plan: &Plan, csv_record: &'a ByteRecord) -> &'a [u8]
    ensures { IsTextAt (fields_of csv_record.now) plan.now.route result.now }
{
    match csv_record.get(plan.route) {
        Some(field) => trimmed(content(field)),
        None => b"",
    }
}

// Whether the text of a record's route is the only one so far that is made its name, where names are made.
fn is_only_text(
    alloc: Global,
    plan: &Plan,
    csv_record: &ByteRecord,
    name: Name,
    texts: &mut Texts,
) -> Result<bool, AllocError>
    requires route { TellsRoute plan.now.makes_names (fields_of csv_record.now) plan.now.route name.bytes }
    ensures only { IfOk result (λ is_only. is_only ≡ true → IsOneText plan.now (text_of_name texts.new) (fields_of csv_record.now) name.bytes) }
    ensures kept { KeepsTexts (text_of_name texts.old) (text_of_name texts.new) }
{
    if !plan.makes_names {
        return Ok(true);
    }
    take_text(alloc, texts, name, route_text(plan, csv_record))
}

/// Makes the line of a record, or tells why there is none. A record with more fields than the header has none: a separator may lack its
/// quotes there, so it is not known which field is which.
pub fn take_record<E: Write, X: Rejecting>(
    alloc: Global,
    planned: &Planned,
    csv_record: &ByteRecord,
    text: &[u8],
    made: &mut Made,
    errors: &mut E,
    rejects: &mut X,
) -> Result<(), Stop>
    requires session { planned.now.plan.session < 64 }
    requires named { IsName planned.now.plan.table.bytes }
    requires some { 0 < length planned.now.plan.columns.items }
    ensures stops { IfErr result IsFailure }
    ensures rejects { OnOk result (HasLineOrRow planned.now.separator (fields_of planned.now.header) (fields_of csv_record.now) made.old.bytes.items made.new.bytes.items (X.taken rejects.old) (X.taken rejects.new)) }
    ensures made { OnOk result ((table : CommandTree) → MakesLines planned.now.plan.session table planned.now.plan made.old made.new (fields_of csv_record.now ∷ [])) }
    ensures quiet { OnOk result (IsQuiet made.old.has_told made.new.has_told (E.contents errors.old) (E.contents errors.new)) }
    ensures texts { OnOk result (KeepsTexts (text_of_name made.old.texts) (text_of_name made.new.texts)) }
{
    made.number = next_number(made.number)?;
    let plan = &planned.plan;
    if csv_record.len() > planned.header.len() {
        made.has_told = true;
        let left = left_out(planned, csv_record, text, made.number, &mut made.lines);
        left.tell_more_fields(alloc, &mut made.told, errors, rejects)?;
        return Ok(());
    }
    match write_insert(alloc, plan, csv_record, made.number, &mut made.line) {
        Ok(event) => {
            let is_only = is_only_text(alloc, plan, csv_record, event.route, &mut made.texts)?;
            if !is_only {
                made.has_told = true;
                let left = left_out(planned, csv_record, text, made.number, &mut made.lines);
                let wrong = left.wrong(None, &made.texts);
                let line = &mut made.line;
                let told = &mut made.told;
                left.tell_faults(alloc, &wrong, line, told, errors, rejects)?;
                return Ok(());
            }
            push_line(&mut made.bytes, made.line.as_str())?;
            made.rounded = made.rounded.saturating_add(event.ends.rounded);
            if let Some(extents) = &mut made.extents {
                meet_event(extents, &event)?;
            }
        }
        Err(Misfit::OutOfMemory) => return Err(Stop::OutOfMemory),
        Err(misfit) => {
            made.has_told = true;
            let left = left_out(planned, csv_record, text, made.number, &mut made.lines);
            let wrong = left.wrong(Some(misfit), &made.texts);
            let line = &mut made.line;
            let told = &mut made.told;
            left.tell_faults(alloc, &wrong, line, told, errors, rejects)?;
        }
    }
    Ok(())
}

// A record of this number that is left out, in a text of which so many lines were read.
fn left_out<'a>(
    planned: &'a Planned,
    csv_record: &'a ByteRecord,
    text: &[u8],
    number: u64,
    lines: &mut LinesRead,
) -> LeftOut<'a>
    ensures planned { result.planned.now ≡ planned.now }
    ensures csv_record { result.csv_record.now ≡ csv_record.now }
{
    LeftOut {
        planned,
        csv_record,
        spot: Spot {
            number,
            line: lines.line_of(text, csv_record),
        },
    }
}
