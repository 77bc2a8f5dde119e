//! The columns of a table as their types.

ghost use Rattle.std.specs.Prelude.{◌≡◌, ◌≤◌, length, map};
ghost use Rattle.rs_syntax.specs.View.{column_tree};
ghost use Rattle.rs_machine.specs.Checks.{column_types};

use rs_syntax::ColumnDefinition;
use rs_value::{COLUMNS, Schema};

/// The types of the columns, from the left.
pub fn schema_of(columns: &[ColumnDefinition]) -> Schema
    requires { length columns.now ≤ COLUMNS }
    ensures { result.items ≡ column_types (map column_tree columns.now) }
{
    let mut schema = Schema::new();
    for column in columns {
        schema.push(column.column_type);
    }
    schema
}
