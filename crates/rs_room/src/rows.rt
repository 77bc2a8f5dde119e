//! A row as a line writes it and as a record holds it, by the calls of `rs_value` that the engine does not make.
//!
//! It says whether they agree.

use rs_value::{ColumnType, Literal, Schema, decode, fits};
use std::alloc::{AllocError, Global};

/// Whether the row that a line writes is the one that is read in its bytes.
pub(crate) fn rows_agree(alloc: Global) -> Result<bool, AllocError> {
    let literals = [
        Literal::Int(-7),
        Literal::Text(String::from_str(alloc, "ab")?),
    ];
    let bytes = [1, 127, 255, 255, 255, 255, 255, 255, 249, 1, b'a', b'b', 0];
    let Ok(fitted) = fits(&columns(), &literals) else {
        return Ok(false);
    };
    let Some(decoded) = decode(&columns(), &bytes) else {
        return Ok(false);
    };
    Ok(fitted.as_slice() == decoded.as_slice())
}

/// A number, and a text of three bytes.
fn columns() -> Schema {
    let mut schema = Schema::new();
    schema.push(ColumnType::Int);
    schema.push(ColumnType::Text(3));
    schema
}
