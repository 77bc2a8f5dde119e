//! Lists in brackets: the columns of a table, the values of a row, the pieces of an alignment.

ghost use Rattle.std.specs.Prelude.{◌≡◌, ◌++◌, ℕ, List, OnOk, map};
ghost use Rattle.std.specs.List.{join_with_byte};
ghost use Rattle.rs_dump_laws.specs.Lines.{COMMA, bracketed_texts, column_text, piece_text, type_text};
ghost use Rattle.rs_dump_lines.specs.Texts.{more_texts};
ghost use Rattle.rs_syntax.specs.View.{column_tree, piece_tree};
ghost use Rattle.rs_value.specs.Encoding.{SaysRow};
ghost use Rattle.rs_value.specs.Row.{Row};
ghost use Rattle.rs_value.specs.Text.{datum_text};

use crate::measures::push_measure;
use crate::parts::push_text;
use crate::values::push_value;
use crate::writing::push_span;
use itoa::Buffer;
use rs_syntax::{ColumnDefinition, Piece};
use rs_value::{ColumnType, column_width, read_value};
use std::alloc::AllocError;

/// What has a text in a line.
pub trait Written {
    /// The text of it.
    ghost text_of: { Self → List ℕ };

    /// Appends the text. Where memory runs out, a part may have been appended.
    fn push(&self, text: &mut Vec<u8>) -> Result<(), AllocError>
        ensures { OnOk result (text.new.items ≡ text.old.items ++ text_of self.now) };
}

impl Written for ColumnDefinition {
    ghost text_of = { λ column. column_text (column_tree column) };

    fn push(&self, text: &mut Vec<u8>) -> Result<(), AllocError> {
        push_text(text, self.name.as_str())?;
        push_text(text, " ")?;
        push_type(text, self.column_type)
    }
}

impl Written for Piece {
    ghost text_of = { λ piece. piece_text (piece_tree piece) };

    fn push(&self, text: &mut Vec<u8>) -> Result<(), AllocError> {
        push_text(text, self.from_route.as_str())?;
        push_span(text, self.from.thousandths(), self.to.thousandths())?;
        push_text(text, " INTO ")?;
        push_text(text, self.onto_route.as_str())?;
        push_text(text, " AT ")?;
        push_measure(text, self.onto.thousandths())
    }
}

/// Appends the texts in brackets, with a comma between them.
pub(crate) fn push_bracketed<T: Written>(text: &mut Vec<u8>, items: &[T]) -> Result<(), AllocError>
    ensures { OnOk result (text.new.items ≡ text.old.items ++ bracketed_texts (map T.Written.text_of items.now)) }
{
    text.push(b'(')?;
    push_joined(text, items)?;
    text.push(b')')?;
    Ok(())
}

/// Appends the values that these bytes say in brackets, with a comma between them.
pub(crate) fn push_row(
    text: &mut Vec<u8>,
    columns: &[ColumnType],
    values: &[u8],
) -> Result<(), AllocError>
    requires says { (said : Row) × SaysRow columns.now values.now said }
    ensures { (said : Row) → SaysRow columns.now values.now said
        → OnOk result (text.new.items ≡ text.old.items ++ bracketed_texts (map datum_text said)) }
{
    text.push(b'(')?;
    push_values(text, columns, values)?;
    text.push(b')')?;
    Ok(())
}

/// Appends the values that these bytes say with a comma between them.
fn push_values(text: &mut Vec<u8>, columns: &[ColumnType], values: &[u8]) -> Result<(), AllocError>
    requires says { (said : Row) × SaysRow columns.now values.now said }
    ensures { (said : Row) → SaysRow columns.now values.now said
        → OnOk result (text.new.items ≡ text.old.items ++ join_with_byte COMMA (map datum_text said)) }
{
    let Some((column, others)) = columns.split_first() else {
        return Ok(());
    };
    let (first, rest) = values.split_at(column_width(*column));
    push_value(text, read_value(*column, first))?;
    push_more_values(text, others, rest)
}

/// Appends each of the values that these bytes say, with a comma before it.
fn push_more_values(
    text: &mut Vec<u8>,
    columns: &[ColumnType],
    values: &[u8],
) -> Result<(), AllocError>
    requires says { (said : Row) × SaysRow columns.now values.now said }
    ensures { (said : Row) → SaysRow columns.now values.now said
        → OnOk result (text.new.items ≡ text.old.items ++ more_texts (map datum_text said)) }
{
    let mut rest = values;
    for column in columns {
        let (first, others) = rest.split_at(column_width(*column));
        text.push(b',')?;
        push_value(text, read_value(*column, first))?;
        rest = others;
    }
    Ok(())
}

/// Appends the texts with a comma between them.
fn push_joined<T: Written>(text: &mut Vec<u8>, items: &[T]) -> Result<(), AllocError>
    ensures { OnOk result (text.new.items ≡ text.old.items ++ join_with_byte COMMA (map T.Written.text_of items.now)) }
{
    let Some((first, others)) = items.split_first() else {
        return Ok(());
    };
    first.push(text)?;
    push_more(text, others)
}

/// Appends each of the texts, with a comma before it.
fn push_more<T: Written>(text: &mut Vec<u8>, items: &[T]) -> Result<(), AllocError>
    ensures { OnOk result (text.new.items ≡ text.old.items ++ more_texts (map T.Written.text_of items.now)) }
{
    for item in items {
        text.push(b',')?;
        item.push(text)?;
    }
    Ok(())
}

/// Appends the type of a column.
fn push_type(text: &mut Vec<u8>, column_type: ColumnType) -> Result<(), AllocError>
    ensures { OnOk result (text.new.items ≡ text.old.items ++ type_text column_type) }
{
    match column_type {
        ColumnType::Int => push_text(text, "INT"),
        ColumnType::Text(most) => {
            push_text(text, "TEXT(")?;
            push_text(text, Buffer::new().format(most))?;
            push_text(text, ")")
        }
    }
}
