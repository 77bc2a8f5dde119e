//! The definition of the table: one DEFINE TABLE, read by the grammar that reads lines.

ghost use Rattle.std.specs.Prelude.{◌≡◌, ◌<◌, ◌++◌, ℕ, IfOk, codes, string_bytes};
ghost use Rattle.rs_syntax.specs.Sound.{IsSound};
ghost use Rattle.rs_syntax.specs.View.{tree_of};
ghost use Rattle.rs_machine.specs.Request.{Asks, command};
ghost use Rattle.rs_csv.specs.Output.{IsDefinition};
ghost use Rattle.rs_csv_lines.specs.Texts.{session_text};

use crate::filter::Stop;
use rs_csv_lines::{Scale, write_words};
use rs_methods::Name;
use rs_refusal::Refusal;
use rs_syntax::{ColumnDefinition, Command};
use rs_value::{COLUMNS, ColumnType, Kind, ROW_BYTES, Schema, row_width};
use std::alloc::Global;

/// A table as the words define it.
#[derive(Drop)]
pub struct Definition {
    /// The line that defines it.
    pub line: String,
    /// Whether it holds points or lines.
    pub kind: Kind,
    /// Its name.
    pub name: Name,
    /// Its columns, from the left.
    pub columns: Vec<ColumnDefinition>,
}

/// The table that the words define, as a line of the session.
pub fn read_definition(alloc: Global, session: u8, words: &str) -> Result<Definition, Stop>
    requires { session < 64 }
    ensures defines { IfOk result (λ definition. IsDefinition session definition) }
    ensures line { IfOk result (λ definition. string_bytes definition.line ≡ session_text session ++ codes " " ++ words.now) }
{
    let mut line = String::new(alloc);
    let command = match write_words(alloc, session, words, &mut line) {
        Ok(command) => command,
        Err(Refusal::OutOfMemory) => return Err(Stop::OutOfMemory),
        Err(refusal) => return Err(Stop::Refused(refusal)),
    };
    let defined = define(alloc, line, &command);
    // (by a call, so that the proof has no branch for each kind of command)
    drop(command);
    defined
}

// The table that a command defines, with the line that asks the command.
fn define(alloc: Global, line: String, asked: &Command) -> Result<Definition, Stop>
    ensures defines { (session : ℕ) → Asks (string_bytes line) (command session (tree_of asked.now)) → IsSound (tree_of asked.now) → IfOk result (λ definition. IsDefinition session definition) }
    ensures line { IfOk result (λ definition. definition.line ≡ line) }
{
    match asked {
        Command::DefineTable {
            kind,
            name,
            columns,
        } => {
            if let Some(refusal) = refusal_of(columns.as_slice()) {
                return Err(Stop::Refused(refusal));
            }
            Ok(Definition {
                line,
                kind: *kind,
                name: *name,
                columns: Vec::from_slice(alloc, columns.as_slice())?,
            })
        }
        _ => Err(Stop::NoTable),
    }
}

// Why `run` refuses a table with these columns, whatever is defined: two have one name, or a limit would be passed.
fn refusal_of(columns: &[ColumnDefinition]) -> Option<Refusal> {
    if has_name_twice(columns) {
        return Some(Refusal::ColumnTwice);
    }
    if columns.len() > COLUMNS {
        return Some(Refusal::Limit);
    }
    let mut schema = Schema::new();
    for column in columns {
        if !schema.is_full() {
            schema.push(column.column_type);
        }
    }
    if row_width(&schema) > ROW_BYTES {
        return Some(Refusal::Limit);
    }
    None
}

// Whether two columns have one name.
fn has_name_twice(columns: &[ColumnDefinition]) -> bool {
    for (i, column) in columns.iter().enumerate() {
        for other in &columns[i + 1..] {
            if other.name == column.name {
                return true;
            }
        }
    }
    false
}

// Whether these words say the scale of a column of numbers, other than the one that takes the number of the record.
fn is_scale(definition: &Definition, words: &str, number: Option<&str>) -> bool {
    let Some((name, text)) = words.split_once('=') else {
        return false;
    };
    Scale::from_text(text).is_some() && is_number_column(definition, name) && number != Some(name)
}

/// Whether a name is that of a column of numbers.
pub fn is_number_column(definition: &Definition, name: &str) -> bool {
    for column in &definition.columns {
        if column.name.as_str() == name {
            return match column.column_type {
                ColumnType::Int => true,
                ColumnType::Text(_) => false,
            };
        }
    }
    false
}

/// Whether each of the words says the scale of a column of numbers, as `length=10`, and none that of the one that takes the number of the record.
pub fn are_scales(definition: &Definition, scales: &[&str], number: Option<&str>) -> bool {
    for words in scales {
        if !is_scale(definition, words, number) {
            return false;
        }
    }
    true
}
