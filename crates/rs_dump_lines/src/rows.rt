//! The line of a row, with its LF, is made from its end in a buffer, from the bytes that a file has of the row. A row that does not fit
//! there is appended part by part.

ghost use Rattle.std.specs.Prelude.{◌≡◌, ◌≤◌, [], ◌∷◌, ◌++◌, ℕ, List, IfSome, OnOk, codes, drop, length, map};
ghost use Rattle.std.specs.List.{join_with_byte};
ghost use Rattle.rs_dump_laws.specs.Dump.{location_of};
ghost use Rattle.rs_dump_laws.specs.Lines.{COMMA, bracketed_texts, dump_line};
ghost use Rattle.rs_dump_lines.specs.Texts.{FileSays, ends_text, measures_text, row_front};
ghost use Rattle.rs_facts.specs.Runs.{stretch};
ghost use Rattle.rs_syntax.specs.Tree.{insert};
ghost use Rattle.rs_value.specs.Encoding.{SaysRow};
ghost use Rattle.rs_value.specs.Row.{Row};
ghost use Rattle.rs_value.specs.Text.{datum_text};

use crate::measures::put_shortest_before;
use crate::writing::push_row_line;
use rs_backward_text::measures::MEASURE_BYTES;
use rs_backward_text::parts::put_word_before;
use rs_backward_text::values::put_value_before;
use rs_value::{ColumnType, Kind, column_width, read_value};
use std::alloc::AllocError;

/// How many bytes the buffer has in which a row is made. Most rows fit there.
pub const ROW_BUFFER_BYTES: usize = 512;

/// The most bytes of two measures with ` TO ` between them.
const ENDS_BYTES: usize = 2 * MEASURE_BYTES + 4;

/// A row as a file has it: where it lies, and the bytes of its values.
#[derive(Clone, Copy)]
pub struct FileRow<'a> {
    /// The first thousandth.
    pub lo: u32,
    /// The first thousandth after it.
    pub hi: u32,
    /// The types of the columns, from the left.
    pub columns: &'a [ColumnType],
    /// The bytes of the values, one column after another.
    pub bytes: &'a [u8],
}

/// Appends the line that inserts a row of a table of this kind on a route, and its LF. `push_row_front` gives the front. What is in the
/// buffer is unspecified before and after. Where memory runs out, a part may have been appended.
#[tactic(auto, using(crate::proofs::Joined::row_and_end))]
pub fn push_row_backwards(
    text: &mut Vec<u8>,
    buffer: &mut [u8],
    front: &[u8],
    kind: Kind,
    row: &FileRow<'_>,
) -> Result<(), AllocError>
    requires says { (said : Row) × FileSays row.now said }
    ensures { (table route : List ℕ) (said : Row) → front.now ≡ row_front kind table route → FileSays row.now said
        → OnOk result (text.new.items ≡ text.old.items
        ++ (dump_line (insert table route (location_of kind (stretch row.now.lo row.now.hi said)) said) ++ 10 ∷ [])) }
{
    let end = buffer.len();
    if let Some(start) = put_row_before(front, kind, row, buffer, end) {
        return text.extend_from_slice(&buffer[start..]);
    }
    push_row_line(text, front, kind, row)?;
    text.push(b'\n')?;
    Ok(())
}

/// Puts the line of a row and its LF before the byte at `end`, and says where it begins, if it has room.
#[tactic(auto, using(crate::proofs::Joined::in_brackets))]
fn put_row_before(
    front: &[u8],
    kind: Kind,
    row: &FileRow<'_>,
    bytes: &mut [u8],
    end: usize,
) -> Option<usize>
    requires says { (said : Row) × FileSays row.now said }
    requires inside { end ≤ length bytes.old }
    ensures begins { IfSome result (λ start. start ≤ length bytes.new) }
    ensures put { (said : Row) → FileSays row.now said
        → IfSome result (λ start. drop start bytes.new ≡ front.now ++ (measures_text kind row.now.lo row.now.hi
        ++ (codes " VALUES" ++ (bracketed_texts (map datum_text said) ++ (codes "\n" ++ drop end bytes.old))))) }
{
    if end < 2 {
        return None;
    }
    let after = put_word_before(b")\n", bytes, end);
    let values = put_values_before(row.columns, row.bytes, bytes, after)?;
    put_place_before(front, kind, row, bytes, values)
}

/// Puts what comes before the values of a row before the byte at `end`, and says where it begins, if it has room.
fn put_place_before(
    front: &[u8],
    kind: Kind,
    row: &FileRow<'_>,
    bytes: &mut [u8],
    end: usize,
) -> Option<usize>
    requires inside { end ≤ length bytes.old }
    ensures begins { IfSome result (λ start. start ≤ length bytes.new) }
    ensures put { IfSome result (λ start. drop start bytes.new ≡ front.now ++ (measures_text kind row.now.lo row.now.hi
        ++ (codes " VALUES" ++ drop end bytes.old))) }
{
    if end < ENDS_BYTES + 7 {
        return None;
    }
    let word = put_word_before(b" VALUES", bytes, end);
    let place = put_measures_before(kind, row.lo, row.hi, bytes, word);
    if place < front.len() {
        return None;
    }
    Some(put_word_before(front, bytes, place))
}

/// Puts the measures of a row of a table of this kind before the byte at `end`: a line's two, a point's one.
fn put_measures_before(kind: Kind, lo: u32, hi: u32, bytes: &mut [u8], end: usize) -> usize
    requires room { ENDS_BYTES ≤ end }
    requires inside { end ≤ length bytes.old }
    ensures begins { result ≤ end }
    ensures length { length bytes.new ≡ length bytes.old }
    ensures put { drop result bytes.new ≡ measures_text kind lo hi ++ drop end bytes.old }
{
    match kind {
        Kind::Line => put_ends_before(lo, hi, bytes, end),
        Kind::Point => put_shortest_before(lo, bytes, end),
    }
}

/// Puts a measure, and the one up to which a span goes, before the byte at `end`.
fn put_ends_before(from: u32, to: u32, bytes: &mut [u8], end: usize) -> usize
    requires room { ENDS_BYTES ≤ end }
    requires inside { end ≤ length bytes.old }
    ensures begins { result ≤ end }
    ensures length { length bytes.new ≡ length bytes.old }
    ensures put { drop result bytes.new ≡ ends_text from to ++ drop end bytes.old }
{
    let second = put_shortest_before(to, bytes, end);
    let word = put_word_before(b" TO ", bytes, second);
    put_shortest_before(from, bytes, word)
}

/// Puts a bracket and the values that these bytes say, with a comma between them, before the byte at `end`, and says where they begin, if
/// there are values and they have room.
fn put_values_before(
    columns: &[ColumnType],
    values: &[u8],
    bytes: &mut [u8],
    end: usize,
) -> Option<usize>
    requires says { (said : Row) × SaysRow columns.now values.now said }
    requires inside { end ≤ length bytes.old }
    ensures begins { IfSome result (λ start. start ≤ end) }
    ensures length { IfSome result (λ _. length bytes.new ≡ length bytes.old) }
    ensures put { (said : Row) → SaysRow columns.now values.now said
        → IfSome result (λ start. drop start bytes.new ≡ 40 ∷ (join_with_byte COMMA (map datum_text said) ++ drop end bytes.old)) }
{
    let mut left = columns.len();
    let mut rest = values;
    let mut at = end;
    while left > 1 {
        left -= 1;
        let column = columns[left];
        let (before, last) = rest.split_at(rest.len() - column_width(column));
        at = put_value_before(b',', read_value(column, last), bytes, at)?;
        rest = before;
    }
    if left == 0 {
        return None;
    }
    put_value_before(b'(', read_value(columns[0], rest), bytes, at)
}
