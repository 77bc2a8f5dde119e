//! This module makes the entries of cells in the order of an index, so that neighbours are looked for on the same pages.

ghost use Rattle.std.specs.Prelude.{◌≡◌, ◌<◌, ◌≤◌, ◌+◌, ◌++◌, [], IfOk, IsPermutation, drop, length, map, slice_index_or, take};
ghost use Rattle.std.specs.List.{All};
ghost use Rattle.rs_page.specs.declared.header.TheConstants.{PAGE_ROOM};
ghost use Rattle.rs_records.specs.Listed.{listed, record_width};

use crate::entry::write_entry;
use rs_records::Cells;
use std::alloc::{AllocError, Global};

/// The entries of the cells: the value that begins at `start` and is so wide, and then the cell. They come by the
/// first bytes of the value, and those with the same in the order of the cells.
pub(crate) fn entries_by_value(
    alloc: Global,
    cells: &Cells,
    start: usize,
    wide: usize,
) -> Result<Cells, AllocError>
    requires within { start + wide ≤ record_width cells.now }
    requires fits { wide + record_width cells.now ≤ PAGE_ROOM }
    ensures moved { IfOk result (λ entries.
        IsPermutation (map (λ cell. take wide (drop start cell) ++ cell) (listed cells.now)) (listed entries)) }
    ensures width { IfOk result (λ entries. record_width entries ≡ wide + record_width cells.now) }
{
    let places = places_by_value(alloc, cells, start, wide)?;
    let width = wide + cells.width();
    let mut entries = Cells::new(alloc, width);
    let mut entry = Vec::new(alloc);
    entry.resize(width, 0)?;
    for value in &places {
        write_entry(&mut entry, cells.get(value.1), start, wide);
        entries.push(&entry)?;
    }
    Ok(entries)
}

/// The first bytes of each cell's value, and its place among them, by these and then by place.
fn places_by_value(
    alloc: Global,
    cells: &Cells,
    start: usize,
    wide: usize,
) -> Result<Vec<((u64, u64), usize)>, AllocError>
    requires within { start + wide ≤ record_width cells.now }
    ensures each { IfOk result (λ places. All (λ value. value.1 < length (listed cells.now)) places.items) }
    ensures moved { IfOk result (λ places. IsPermutation (listed cells.now)
        (map (λ value. slice_index_or (listed cells.now) value.1 []) places.items)) }
{
    let mut places = Vec::with_capacity(alloc, cells.len())?;
    for place in 0..cells.len() {
        places.push((key_of(value_of(cells.get(place), start, wide)), place))?;
    }
    places.sort_unstable();
    Ok(places)
}

/// What a value's entry comes by: after the first byte, which says whether there is one, the eight that follow and the eight after
/// those.
fn key_of(value: &[u8]) -> (u64, u64) {
    let (_, text) = value.split_at(usize::min(1, value.len()));
    let (first, rest) = number_in_front(text);
    if rest.is_empty() {
        return (first, 0);
    }
    let (second, _) = number_in_front(rest);
    (first, second)
}

/// The first eight bytes as a number, the highest first, and the others; fewer bytes as a number, and no others.
fn number_in_front(bytes: &[u8]) -> (u64, &[u8]) {
    match bytes.split_first_chunk::<8>() {
        Some((front, rest)) => (u64::from_be_bytes(*front), rest),
        None => (number_of(bytes), &[]),
    }
}

/// The bytes as a number, the highest first, as if zeros followed up to eight.
fn number_of(bytes: &[u8]) -> u64 {
    let mut padded = [0; 8];
    let count = usize::min(8, bytes.len());
    padded[..count].copy_from_slice(&bytes[..count]);
    u64::from_be_bytes(padded)
}

/// The bytes of a cell's value.
fn value_of(cell: &[u8], start: usize, wide: usize) -> &[u8]
    requires within { start + wide ≤ length cell.now }
    ensures { result.now ≡ take wide (drop start cell.now) }
{
    &cell[start..start + wide]
}
