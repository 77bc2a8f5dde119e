//! The header of an answer.

ghost use Rattle.std.specs.Prelude.{◌≡◌, ◌++◌, OnOk, map};
ghost use Rattle.rs_machine.specs.Checks.{column_names};
ghost use Rattle.rs_syntax.specs.View.{column_tree};
ghost use Rattle.rs_csv_answers.specs.Heads.{lines_head, names_after, names_before, total_head};

use rs_methods::Name;
use rs_syntax::ColumnDefinition;
use rs_value::Kind;
use std::alloc::AllocError;

/// Appends the header of a query's lines. Where memory runs out, a part may have been appended, here and below.
pub(crate) fn push_lines_head(
    text: &mut Vec<u8>,
    kind: Kind,
    columns: &[ColumnDefinition],
) -> Result<(), AllocError>
    ensures { OnOk result (text.new.items ≡ text.old.items ++ lines_head kind (column_names (map column_tree columns.now))) }
{
    match kind {
        Kind::Line => text.extend_from_slice(b"route,from,to")?,
        Kind::Point => text.extend_from_slice(b"route,at")?,
    }
    push_names_after(text, columns)?;
    text.push(b'\n')?;
    Ok(())
}

/// Appends the name of each column after a comma.
fn push_names_after(text: &mut Vec<u8>, columns: &[ColumnDefinition]) -> Result<(), AllocError>
    ensures { OnOk result (text.new.items ≡ text.old.items ++ names_after (column_names (map column_tree columns.now))) }
{
    for column in columns {
        text.push(b',')?;
        text.extend_from_slice(column.name.as_bytes())?;
    }
    Ok(())
}

/// Appends the header of totals by these columns, with a sum or without.
pub(crate) fn push_total_head(text: &mut Vec<u8>, by: &[Name], sums: bool) -> Result<(), AllocError>
    ensures { OnOk result (text.new.items ≡ text.old.items ++ total_head (map (λ name. name.bytes) by.now) sums) }
{
    push_names_before(text, by)?;
    if sums {
        text.extend_from_slice(b"length,weight,sum")?;
    } else {
        text.extend_from_slice(b"length")?;
    }
    text.push(b'\n')?;
    Ok(())
}

/// Appends each name before a comma.
fn push_names_before(text: &mut Vec<u8>, names: &[Name]) -> Result<(), AllocError>
    ensures { OnOk result (text.new.items ≡ text.old.items ++ names_before (map (λ name. name.bytes) names.now)) }
{
    for name in names {
        text.extend_from_slice(name.as_bytes())?;
        text.push(b',')?;
    }
    Ok(())
}
