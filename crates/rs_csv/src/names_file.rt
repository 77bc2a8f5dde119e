//! The names that were made of columns and of routes, as CSV with the text of each.
//!
//! It promises a header, a row for each column of which a name is made, in their order, and one for each route, by its name.

ghost use Rattle.std.specs.Prelude.{◌≡◌, ◌++◌, ℕ, List, IfErr, IfOk, OnOk};
ghost use Rattle.std.specs.Io.KnownBytes.{Appends};
ghost use Rattle.csv.specs.Records.{fields_of};
ghost use Rattle.rs_csv.specs.NamesFile.{AreColumnRows, IsColumnRow, IsNamesFile, columns_of, file_header, name_row, route_rows};
ghost use Rattle.rs_csv.specs.Stops.{IsFailure};

use crate::filter::Stop;
use crate::rejects::push_quoted;
use crate::texts::Texts;
use csv::ByteRecord;
use rs_catalog::ByName;
use rs_csv_lines::fields::content;
use rs_csv_lines::made_name;
use rs_protocol::put_parts;
use std::alloc::{AllocError, Global};
use std::io::Write;

/// What names were made of.
#[derive(Drop)]
pub struct MadeNames {
    /// The header, where one was read.
    pub header: Option<ByteRecord>,
    /// The texts of routes.
    pub texts: Texts,
}

impl MadeNames {
    /// Nothing.
    pub fn new(alloc: Global) -> Self {
        MadeNames {
            header: None,
            texts: ByName::new(alloc),
        }
    }
}

// Adds the row of a name.
fn push_row(rows: &mut Vec<u8>, text: &[u8], name: &str, what: &str) -> Result<(), AllocError>
    ensures { OnOk result (rows.new.items ≡ rows.old.items ++ name_row text.now name.now what.now) }
{
    push_quoted(rows, text)?;
    rows.push(b',')?;
    rows.extend_from_slice(name.as_bytes())?;
    rows.push(b',')?;
    rows.extend_from_slice(what.as_bytes())?;
    rows.push(b'\n')?;
    Ok(())
}

// Adds the row of a column of the header, where a name is made of it.
fn push_column(rows: &mut Vec<u8>, field: &[u8]) -> Result<(), AllocError>
    ensures { OnOk result ((row : List ℕ) × IsColumnRow field.now row × (rows.new.items ≡ rows.old.items ++ row)) }
{
    let text = content(field);
    match made_name(text) {
        Some(name) => push_row(rows, text, name.as_str(), "column"),
        None => Ok(()),
    }
}

// Adds the rows of the columns of a header.
fn push_columns(rows: &mut Vec<u8>, header: &ByteRecord) -> Result<(), AllocError>
    ensures { OnOk result ((more : List ℕ) × AreColumnRows (fields_of header.now) more × (rows.new.items ≡ rows.old.items ++ more)) }
{
    for place in 0..header.len() {
        match header.get(place) {
            Some(field) => push_column(rows, field)?,
            None => unreachable!(),
        }
    }
    Ok(())
}

// The header of the file, and the rows of the columns.
fn column_rows(alloc: Global, header: &Option<ByteRecord>) -> Result<Vec<u8>, AllocError>
    ensures { IfOk result (λ rows. (more : List ℕ) × AreColumnRows (columns_of header.now) more × (rows.items ≡ file_header ++ more)) }
{
    let mut rows = Vec::from_slice(alloc, b"old,new,what\n")?;
    if let Some(header) = header {
        push_columns(&mut rows, header)?;
    }
    Ok(rows)
}

// Writes the rows of the routes.
fn write_routes<W: Write>(alloc: Global, texts: &Texts, output: &mut W) -> Result<(), Stop>
    ensures wrote { OnOk result (Appends (W.contents output.old) (W.contents output.new) (route_rows texts.now)) }
    ensures stops { IfErr result IsFailure }
{
    for (name, text) in texts.iter() {
        let mut row = Vec::new(alloc);
        push_row(&mut row, text.as_slice(), name.as_str(), "route")?;
        if let Err(fault) = put_parts(output, &[row.as_slice()]) {
            return Err(Stop::Stream(fault));
        }
    }
    Ok(())
}

/// Writes the names that were made, under a header: those of the columns of the input's header, in their order, each with its text as it
/// stands there, and those of the routes, by name, each with the text of which it is made.
pub fn write_names<W: Write>(alloc: Global, names: &MadeNames, output: &mut W) -> Result<(), Stop>
    ensures wrote { OnOk result ((bytes : List ℕ) × IsNamesFile names.now bytes × Appends (W.contents output.old) (W.contents output.new) bytes) }
    ensures stops { IfErr result IsFailure }
{
    let rows = column_rows(alloc, &names.header)?;
    if let Err(fault) = put_parts(output, &[rows.as_slice()]) {
        return Err(Stop::Stream(fault));
    }
    write_routes(alloc, &names.texts, output)
}
