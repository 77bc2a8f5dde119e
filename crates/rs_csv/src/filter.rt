//! The filter: CSV is read in pieces, and the lines of its records are written.

ghost use Rattle.std.specs.Prelude.{◌≡◌, ◌⊎◌, ◌+◌, ◌<◌, [], ◌∷◌, ◌++◌, OnOk, OnErr, IfErr, IfOk, ℕ, List, Option, None, IsSome, Ok, false, true};
ghost use Rattle.std.specs.List.{concat};
ghost use Rattle.std.specs.Io.KnownBytes.{Appends, Consumes, Keeps};
ghost use Rattle.csv.specs.Records.{fields_of};
ghost use Rattle.rs_protocol.specs.Puts.{PutsBut};
ghost use Rattle.rs_syntax.specs.Tree.{CommandTree};
ghost use Rattle.rs_csv.specs.Cutting.{IsBatchOf, IsBetween, text_of};
ghost use Rattle.rs_csv.specs.Output.{Defines, Ends, EndsTaken, GoesFar, IsAsked, IsPlanOf, IsQuiet, Makes, SoFar, TakesHead, TakesInput, TakesMore, TakesRest, held_lines, table_of};
ghost use Rattle.rs_csv.specs.Reading.{EndsClosed, IsPlaceAfter, ReadsAll};
ghost use Rattle.rs_csv.specs.Routes.{HaveMet};
ghost use Rattle.rs_csv.specs.Stops.{IsFailure, IsMidway, IsOfWords};

use crate::batch::{Batch, Taken};
use crate::definition::{Definition, are_scales, is_number_column, read_definition};
use crate::head::{is_mark, read_head};
use crate::header::column_scales;
use crate::held::write_rest;
use crate::made::{Made, take_record};
use crate::names_file::MadeNames;
use crate::progress::{Progress, header_of, hold_made, leave_out_long, take_header, write_made};
use crate::rejects::Rejecting;
use crate::spot::{Lines, LinesRead};
use crate::tell::tell_rounded;
use csv::{ByteRecord, ReaderBuilder};
use rs_csv_lines::Scale;
use rs_protocol::Fault;
use rs_refusal::Refusal;
use std::alloc::{AllocError, AllocFailed, Global};
use std::io::{Read, Write};
use std::marker::Model;

/// How many bytes are read at once, at the most.
const PIECE_BYTES: usize = 4_096;

/// What is to be made of a CSV.
#[derive(Clone, Copy)]
pub struct Wanted<'a> {
    /// The DEFINE TABLE.
    pub define: &'a str,
    /// The session of the lines, from 0 to 63.
    pub session: u8,
    /// The column of the CSV that gives the route.
    pub route: &'a str,
    /// The column that says where a span begins.
    pub from: &'a str,
    /// The column that says where it ends.
    pub to: &'a str,
    /// The column that says where a point is.
    pub at: &'a str,
    /// The byte between two fields.
    pub separator: u8,
    /// `column=name`, where the CSV has another name for a column.
    pub columns: &'a [&'a str],
    /// `column=number`, where the numbers of a column are to be multiplied.
    pub scales: &'a [&'a str],
    /// The column of the table that takes the number of the record, where one does.
    pub number: Option<&'a str>,
    /// Whether the line that defines the table is written.
    pub defines_table: bool,
    /// Whether lines that define the routes are written.
    pub defines_routes: bool,
    /// Whether measures are taken to the nearest thousandth, which is told.
    pub rounds: bool,
    /// How many units a station has, where measures in stations are read.
    pub stations: Option<u32>,
    /// Whether names are made of routes, and of columns of the header, that are none.
    pub makes_names: bool,
}

/// Why not all of the input was read.
#[derive(Clone, Copy, PartialEq, Eq, Debug)]
pub enum Stop {
    /// The words define no table.
    NoTable,
    /// `run` refuses the line that they are.
    Refused(Refusal),
    /// They name a scale of no column of numbers, or a number that is no scale.
    NoScale,
    /// They name no column of numbers for the number of the record.
    NoNumber,
    /// The header lacks a column, or has it twice, which was told.
    NoColumn,
    /// A growth was refused.
    OutOfMemory,
    /// The input or the output failed.
    Stream(Fault),
}

/// Want of memory.
impl From<AllocError> for Stop {
    ghost use Rattle.std.specs.Prelude.{◌≡◌};
    ghost use Rattle.rs_csv.specs.declared.filter.Stop.TheVariants.{OutOfMemory};

    ghost from_gives = { λ _ stop. stop ≡ OutOfMemory };

    fn from(_refused: AllocError) -> Stop {
        Stop::OutOfMemory
    }
}

/// Want of memory. The value that found no room is dropped.
impl<T: Drop> From<AllocFailed<T>> for Stop {
    ghost use Rattle.std.specs.Prelude.{◌≡◌};
    ghost use Rattle.rs_csv.specs.declared.filter.Stop.TheVariants.{OutOfMemory};

    ghost from_gives = { λ _ stop. stop ≡ OutOfMemory };

    fn from(_refused: AllocFailed<T>) -> Stop {
        Stop::OutOfMemory
    }
}

/// What is to be made, with the table that its words define.
#[derive(Drop)]
pub struct Job<'a> {
    /// Where memory is taken.
    pub alloc: Global,
    /// What is to be made.
    pub wanted: Wanted<'a>,
    /// The table.
    pub definition: Definition,
    /// What the numbers of each column are multiplied by.
    pub scales: Vec<Scale>,
}

impl<'a> Model for Job<'a> {
    ghost use Rattle.rs_csv.specs.Output.{IsJob, JobParts};

    ghost Value = { JobParts };

    ghost view = { λ job. record { wanted = job.wanted; definition = job.definition } };

    ghost invariant = { λ job. IsJob job.wanted job.definition job.scales.items };
}

/// What is to be made of a CSV, and what was read and made of it so far.
#[derive(Drop)]
pub struct Filter<'a> {
    /// What is to be made.
    pub job: &'a Job<'a>,
    /// What was read and made so far.
    pub progress: Progress,
}

impl<'a> Model for Filter<'a> {
    ghost use Rattle.std.specs.Coded.{codes};
    ghost use Rattle.rs_csv.specs.contracts.progress.Progress.{the_row};
    ghost use Rattle.rs_csv.specs.Output.{FilterParts, IsPlanned, table_of};

    ghost Value = { FilterParts };

    ghost coded = { Prim.hlevel (codes, the_row.coded) };

    ghost view = { λ filter. record { job = filter.job.now; progress = filter.progress } };

    ghost invariant = { λ filter. IsPlanned filter.job.now.wanted (table_of filter.job.now.definition) filter.progress };
}

impl Filter<'_> {
    // Takes a record.
    fn take_next<E: Write, X: Rejecting>(
        &mut self,
        csv_record: &ByteRecord,
        text: &[u8],
        errors: &mut E,
        rejects: &mut X,
    ) -> Result<(), Stop>
        ensures stops { IfErr result IsMidway }
        ensures job { self.new.job ≡ self.old.job }
        ensures made { OnOk result (Makes self.old.job.wanted (table_of self.old.job.definition) (fields_of csv_record.now ∷ []) self.old.progress self.new.progress) }
        ensures quiet { OnOk result (IsQuiet self.old.progress.made.has_told self.new.progress.made.has_told (E.contents errors.old) (E.contents errors.new)) }
        ensures held { self.new.progress.held ≡ self.old.progress.held }
    {
        let job = self.job;
        match &self.progress.planned {
            Some(planned) => take_record(
                job.alloc,
                planned,
                csv_record,
                text,
                &mut self.progress.made,
                errors,
                rejects,
            ),
            None => {
                let header = csv_record.clone()?;
                let planned = take_header(job, header, &mut self.progress.made, errors)?;
                self.progress.planned = Some(planned);
                Ok(())
            }
        }
    }

    // Ends a text, after which so many lines have ended.
    fn end_text(&mut self, after: Lines)
        ensures job { self.new.job ≡ self.old.job }
        ensures made { Makes self.old.job.wanted (table_of self.old.job.definition) [] self.old.progress self.new.progress }
        ensures told { self.new.progress.made.has_told ≡ self.old.progress.made.has_told }
        ensures held { self.new.progress.held ≡ self.old.progress.held }
    {
        self.progress.made.lines = LinesRead::before_text(after);
    }

    // Makes the lines of the records of a text, after which so many lines have ended.
    fn read_records<E: Write, X: Rejecting>(
        &mut self,
        text: &[u8],
        after: Lines,
        errors: &mut E,
        rejects: &mut X,
    ) -> Result<(), Stop>
        ensures stops { IfErr result IsMidway }
        ensures job { self.new.job ≡ self.old.job }
        ensures made { OnOk result ((records : List (List (List ℕ))) × ReadsAll self.old.job.wanted.separator text.now records × Makes self.old.job.wanted (table_of self.old.job.definition) records self.old.progress self.new.progress) }
        ensures quiet { OnOk result (IsQuiet self.old.progress.made.has_told self.new.progress.made.has_told (E.contents errors.old) (E.contents errors.new)) }
        ensures held { self.new.progress.held ≡ self.old.progress.held }
    {
        let job = self.job;
        let mut reader = ReaderBuilder::new()
            .delimiter(job.wanted.separator)
            .has_headers(false)
            .flexible(true)
            .from_reader(job.alloc, text);
        let mut record = ByteRecord::new(job.alloc);
        'records: for _ in 0..u64::MAX {
            match reader.read_byte_record(&mut record) {
                Ok(true) => self.take_next(&record, text, errors, rejects)?,
                Ok(false) => {
                    self.end_text(after);
                    return Ok(());
                }
                Err(_) => return Err(Stop::OutOfMemory),
            }
        }
        Err(Stop::OutOfMemory)
    }

    // Takes the text of records, after which so many lines have ended: theirs are written, or held until the routes are known.
    fn take_text<W: Write, E: Write, X: Rejecting>(
        &mut self,
        text: &[u8],
        after: Lines,
        output: &mut W,
        errors: &mut E,
        rejects: &mut X,
    ) -> Result<(), Stop>
        ensures stops { IfErr result IsMidway }
        ensures job { self.new.job ≡ self.old.job }
        ensures taken { (more : List (List ℕ)) → text.now ≡ text_of self.old.job.wanted.separator more → TakesMore self.old.job.wanted (table_of self.old.job.definition) result more self.old.progress self.new.progress (W.contents output.old) (W.contents output.new) }
        ensures quiet { OnOk result (IsQuiet self.old.progress.made.has_told self.new.progress.made.has_told (E.contents errors.old) (E.contents errors.new)) }
    {
        if let Err(stop) = self.read_records(text, after, errors, rejects) {
            return Err(stop);
        }
        let job = self.job;
        if job.wanted.defines_routes {
            hold_made(job.alloc, &mut self.progress)
        } else {
            write_made(&mut self.progress.made, output)
        }
    }

    // Takes the records of a batch, and clears it.
    fn take_batch<W: Write, E: Write, X: Rejecting>(
        &mut self,
        batch: &mut Batch,
        output: &mut W,
        errors: &mut E,
        rejects: &mut X,
    ) -> Result<(), Stop>
        ensures stops { IfErr result IsMidway }
        ensures job { self.new.job ≡ self.old.job }
        ensures taken { (more : List (List ℕ)) (begun : List ℕ) → IsBatchOf self.old.job.wanted.separator batch.old (concat more) begun → IsBetween batch.old begun
            → TakesMore self.old.job.wanted (table_of self.old.job.definition) result more self.old.progress self.new.progress (W.contents output.old) (W.contents output.new) }
        ensures batch { (whole : List ℕ) (begun : List ℕ) → IsBatchOf self.old.job.wanted.separator batch.old whole begun → IsBetween batch.old begun → OnOk result (IsBatchOf self.old.job.wanted.separator batch.new [] begun) }
        ensures quiet { OnOk result (IsQuiet self.old.progress.made.has_told self.new.progress.made.has_told (E.contents errors.old) (E.contents errors.new)) }
    {
        let after = batch.begun_lines();
        if let Err(stop) = self.take_text(batch.text(), after, output, errors, rejects) {
            return Err(stop);
        }
        batch.clear();
        Ok(())
    }

    // Takes a byte of the input.
    fn take_byte<W: Write, E: Write, X: Rejecting>(
        &mut self,
        batch: &mut Batch,
        byte: u8,
        output: &mut W,
        errors: &mut E,
        rejects: &mut X,
    ) -> Result<(), Stop>
        ensures stops { IfErr result IsMidway }
        ensures job { self.new.job ≡ self.old.job }
        ensures far { GoesFar self.old.job.wanted (table_of self.old.job.definition) result (byte ∷ []) batch.old batch.new self.old.progress self.new.progress (W.contents output.old) (W.contents output.new) }
        ensures quiet { OnOk result (IsQuiet self.old.progress.made.has_told self.new.progress.made.has_told (E.contents errors.old) (E.contents errors.new)) }
    {
        let Ok(taken) = batch.take(byte) else {
            return Err(Stop::OutOfMemory);
        };
        match taken {
            Taken::Within => Ok(()),
            Taken::Ended => {
                if batch.is_full() {
                    self.take_batch(batch, output, errors, rejects)
                } else {
                    Ok(())
                }
            }
            Taken::TooLong => self.take_batch(batch, output, errors, rejects),
            Taken::EndedLong => leave_out_long(&mut self.progress, batch.begun_lines(), errors),
        }
    }

    // Takes the bytes of a piece.
    fn take_piece<W: Write, E: Write, X: Rejecting>(
        &mut self,
        batch: &mut Batch,
        piece: &[u8],
        output: &mut W,
        errors: &mut E,
        rejects: &mut X,
    ) -> Result<(), Stop>
        ensures stops { IfErr result IsMidway }
        ensures job { self.new.job ≡ self.old.job }
        ensures far { GoesFar self.old.job.wanted (table_of self.old.job.definition) result piece.now batch.old batch.new self.old.progress self.new.progress (W.contents output.old) (W.contents output.new) }
        ensures quiet { OnOk result (IsQuiet self.old.progress.made.has_told self.new.progress.made.has_told (E.contents errors.old) (E.contents errors.new)) }
    {
        let mut at = 0;
        'bytes: while at < piece.len() {
            let Ok(count) = batch.take_run(&piece[at..]) else {
                return Err(Stop::OutOfMemory);
            };
            at += count;
            if at < piece.len() {
                if let Err(stop) = self.take_byte(batch, piece[at], output, errors, rejects) {
                    return Err(stop);
                }
                at += 1;
            }
        }
        Ok(())
    }

    // Reads the head of the input, and takes it where it is no byte order mark. Says whether it was all of the input.
    fn take_head<R: Read, W: Write, E: Write, X: Rejecting>(
        &mut self,
        batch: &mut Batch,
        input: &mut R,
        output: &mut W,
        errors: &mut E,
        rejects: &mut X,
    ) -> Result<bool, Stop>
        ensures stops { IfErr result IsMidway }
        ensures job { self.new.job ≡ self.old.job }
        ensures far { (before : Option (List ℕ)) → SoFar self.old.job.wanted (table_of self.old.job.definition) before batch.old self.old.progress [] (W.contents output.old)
            → TakesHead self.old.job.wanted (table_of self.old.job.definition) result before batch.new self.new.progress (R.remaining input.old) (R.remaining input.new) (W.contents output.new) }
        ensures quiet { OnOk result (IsQuiet self.old.progress.made.has_told self.new.progress.made.has_told (E.contents errors.old) (E.contents errors.new)) }
    {
        let head = match read_head(input) {
            Ok(head) => head,
            Err(stop) => return Err(stop),
        };
        let is_all = !head.is_full();
        if is_mark(head.as_slice()) {
            return Ok(is_all);
        }
        if let Err(stop) = self.take_piece(batch, head.as_slice(), output, errors, rejects) {
            return Err(stop);
        }
        Ok(is_all)
    }

    // Takes the end of the input.
    fn take_end<W: Write, E: Write, X: Rejecting>(
        &mut self,
        batch: &mut Batch,
        output: &mut W,
        errors: &mut E,
        rejects: &mut X,
    ) -> Result<(), Stop>
        ensures stops { IfErr result IsMidway }
        ensures job { self.new.job ≡ self.old.job }
        ensures far { TakesRest self.old.job.wanted (table_of self.old.job.definition) result batch.old self.old.progress self.new.progress (W.contents output.old) (W.contents output.new) }
        ensures quiet { OnOk result (IsQuiet self.old.progress.made.has_told self.new.progress.made.has_told (E.contents errors.old) (E.contents errors.new)) }
        ensures place { batch.new.place ≡ batch.old.place }
    {
        if batch.is_within_long() {
            if let Err(stop) = leave_out_long(&mut self.progress, batch.lines(), errors) {
                return Err(stop);
            }
        }
        self.take_text(batch.text(), batch.lines(), output, errors, rejects)
    }

    // Reads the records to the end of the input, where nothing was read and made so far.
    fn read_pieces<R: Read, W: Write, E: Write, X: Rejecting>(
        &mut self,
        batch: &mut Batch,
        input: &mut R,
        output: &mut W,
        errors: &mut E,
        rejects: &mut X,
    ) -> Result<(), Stop>
        requires no_record { IsBatchOf self.old.job.wanted.separator batch.old [] [] }
        requires no_plan { self.old.progress.planned ≡ None }
        requires no_line { self.old.progress.made.bytes.items ≡ [] }
        requires no_number { self.old.progress.made.number ≡ 0 }
        requires none_held { self.old.progress.held ≡ [] }
        requires none_met { self.old.job.wanted.defines_routes ≡ true → HaveMet self.old.progress.made.extents [] }
        ensures stops { IfErr result IsMidway }
        ensures input { TakesInput self.old.job.wanted (table_of self.old.job.definition) result self.new.progress (R.remaining input.old) (R.remaining input.new) (W.contents output.old) (W.contents output.new) }
        ensures quiet { OnOk result (IsQuiet self.old.progress.made.has_told self.new.progress.made.has_told (E.contents errors.old) (E.contents errors.new)) }
        ensures place { OnOk result (IsPlaceAfter self.old.job.wanted.separator batch.new.place (R.remaining input.old) (R.remaining input.new)) }
    {
        match self.take_head(batch, input, output, errors, rejects) {
            Ok(true) => return self.take_end(batch, output, errors, rejects),
            Ok(false) => {}
            Err(stop) => return Err(stop),
        }
        let mut piece = [0u8; PIECE_BYTES];
        'pieces: for _ in 0..u64::MAX {
            match input.read(&mut piece) {
                Ok(0) => return self.take_end(batch, output, errors, rejects),
                Ok(count) => {
                    if let Err(stop) = self.take_piece(
                        batch,
                        &piece[..count],
                        output,
                        errors,
                        rejects,
                    ) {
                        return Err(stop);
                    }
                }
                Err(_) => return Err(Stop::Stream(Fault::Read)),
            }
        }
        Err(Stop::Stream(Fault::Read))
    }

    // The same, with a batch for the records.
    fn read_all<R: Read, W: Write, E: Write, X: Rejecting>(
        &mut self,
        input: &mut R,
        output: &mut W,
        errors: &mut E,
        rejects: &mut X,
    ) -> Result<(), Stop>
        requires no_plan { self.old.progress.planned ≡ None }
        requires no_line { self.old.progress.made.bytes.items ≡ [] }
        requires no_number { self.old.progress.made.number ≡ 0 }
        requires none_held { self.old.progress.held ≡ [] }
        requires none_met { self.old.job.wanted.defines_routes ≡ true → HaveMet self.old.progress.made.extents [] }
        ensures stops { IfErr result IsMidway }
        ensures input { TakesInput self.old.job.wanted (table_of self.old.job.definition) result self.new.progress (R.remaining input.old) (R.remaining input.new) (W.contents output.old) (W.contents output.new) }
        ensures quiet { OnOk result (IsQuiet self.old.progress.made.has_told self.new.progress.made.has_told (E.contents errors.old) (E.contents errors.new)) }
        ensures closed { OnOk result (self.new.progress.made.told.open_quote ≡ None → EndsClosed self.old.job.wanted.separator (R.remaining input.old) (R.remaining input.new)) }
    {
        let job = self.job;
        let Ok(mut batch) = Batch::new(job.alloc, job.wanted.separator) else {
            return Err(Stop::OutOfMemory);
        };
        let result = self.read_pieces(&mut batch, input, output, errors, rejects);
        self.progress.made.told.end_input(batch.open_quote());
        drop(batch);
        result
    }
}

// Tells of a quote that is not closed, and where something was told how much that was. Says whether something was told.
fn tell_faults<E: Write>(told: bool, made: &mut Made, errors: &mut E) -> bool
    ensures told { result ≡ false → told ≡ false }
    ensures closed { result ≡ false → made.old.told.open_quote ≡ None }
    ensures quiet { result ≡ false → Keeps (E.contents errors.old) (E.contents errors.new) }
{
    let is_open = made.told.tell_open_quote(errors);
    if told || is_open {
        made.told.summarize(errors);
        return true;
    }
    false
}

// The same, and how many measures were rounded, where they are.
fn tell_end<E: Write>(rounds: bool, told: bool, made: &mut Made, errors: &mut E) -> bool
    ensures told { result ≡ false → told ≡ false }
    ensures closed { result ≡ false → made.old.told.open_quote ≡ None }
    ensures quiet { result ≡ false → rounds ≡ false → Keeps (E.contents errors.old) (E.contents errors.new) }
{
    let has_told = tell_faults(told, made, errors);
    if rounds {
        tell_rounded(errors, made.rounded);
    }
    has_told
}

// Writes what is held, and tells at the end what is to be told then.
fn end_lines<W: Write, E: Write>(
    job: &Job<'_>,
    progress: &mut Progress,
    output: &mut W,
    errors: &mut E,
) -> Result<bool, Stop>
    ensures stops { IfErr result IsFailure }
    ensures wrote { EndsTaken job.now.wanted (table_of job.now.definition) result progress.old (W.contents output.old) (W.contents output.new) }
    ensures told { IfOk result (λ told. told ≡ false → progress.old.made.has_told ≡ false) }
    ensures closed { result ≡ Ok false → progress.old.made.told.open_quote ≡ None }
    ensures quiet { result ≡ Ok false → job.now.wanted.rounds ≡ false → Keeps (E.contents errors.old) (E.contents errors.new) }
{
    match write_rest(job, progress, output, errors) {
        Ok(told) => Ok(tell_end(job.wanted.rounds, told, &mut progress.made, errors)),
        Err(stop) => Err(stop),
    }
}

// Whether the words name columns of numbers where these are wanted.
fn check_words(definition: &Definition, wanted: &Wanted<'_>) -> Result<(), Stop> {
    if !are_scales(definition, wanted.scales, wanted.number) {
        return Err(Stop::NoScale);
    }
    match wanted.number {
        Some(name) if !is_number_column(definition, name) => Err(Stop::NoNumber),
        _ => Ok(()),
    }
}

/// Writes the lines of a CSV, and says whether something was told and left out. Where measures are rounded, it is told of how many. What
/// names were made of is given.
///
/// The lines are of the table that the words define. `Refused` where `run` refuses the line that the words are, `NoTable` where it defines no table, `NoScale` where they scale no column of numbers, `NoNumber` where they number none; `NoColumn` where the header lacks a column, which is told. Then nothing is written.
pub fn write_lines<R: Read, W: Write, E: Write, X: Rejecting>(
    alloc: Global,
    wanted: Wanted<'_>,
    input: &mut R,
    output: &mut W,
    errors: &mut E,
    rejects: &mut X,
    names: &mut MadeNames,
) -> Result<bool, Stop>
    requires { wanted.session < 64 }
    ensures of_words { IfErr result (λ stop. IsOfWords stop → Consumes (R.remaining input.old) (R.remaining input.new) [] × Keeps (W.contents output.old) (W.contents output.new)) }
    ensures wrote { (table : CommandTree) × (IsAsked wanted.entry table ⊎ Keeps (W.contents output.old) (W.contents output.new))
        × ((told : List ℕ) × Consumes (R.remaining input.old) (R.remaining input.new) told
        × Ends wanted.entry table result told (R.remaining input.new) (W.contents output.old) (W.contents output.new)) }
    ensures closed { result ≡ Ok false → EndsClosed wanted.entry.separator (R.remaining input.old) (R.remaining input.new) }
    ensures quiet { result ≡ Ok false → wanted.entry.rounds ≡ false → Keeps (E.contents errors.old) (E.contents errors.new) }
{
    let session = wanted.session;
    let definition = match read_definition(alloc, session, wanted.define) {
        Ok(definition) => definition,
        Err(stop) => return Err(stop),
    };
    if let Err(stop) = check_words(&definition, &wanted) {
        return Err(stop);
    }
    let scales = match column_scales(alloc, &definition, &wanted) {
        Ok(scales) => scales,
        Err(stop) => return Err(stop),
    };
    let job = Job {
        alloc,
        wanted,
        definition,
        scales,
    };
    let mut filter = Filter {
        job: &job,
        progress: Progress::new(alloc, wanted.defines_routes),
    };
    if let Err(stop) = filter.read_all(input, output, errors, rejects) {
        return Err(stop);
    }
    let mut progress = filter.progress;
    let result = end_lines(&job, &mut progress, output, errors);
    let made = progress.made;
    names.texts = made.texts;
    names.header = header_of(progress.planned);
    result
}
