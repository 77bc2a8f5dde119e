//! Records of one width in bytes, one after another from the first byte on.
//!
//! Each call is told how many there are. One is read as a slice; a place is found by binary search; a splice inserts,
//! replaces, removes and truncates.

ghost use Rattle.std.specs.Prelude.{◌≡◌, ℕ, ◌+◌, ◌-◌, ◌*◌, ◌<◌, ◌≤◌, ◌++◌, Some, length, take, drop, slice_get};
ghost use Rattle.std.specs.List.{copy_within};
ghost use lib.Seq.{paste};
ghost use Rattle.rs_records.specs.Records.{records, keys, IsPlace};

use crate::order::is_below;

/// The record with this index.
pub fn record_at(bytes: &[u8], width: usize, index: usize) -> &[u8]
    requires { (index + 1) * width ≤ length bytes.now }
    ensures one { (count : ℕ) → index < count → slice_get (records count width bytes.now) index ≡ Some result.now }
    ensures width { length result.now ≡ width }
{
    let start = index * width;
    &bytes[start..start + width]
}

/// Where a key belongs among the records, by what each has from byte `from` on: what is before is below the key,
/// and what is there is not.
pub fn place(bytes: &[u8], width: usize, count: usize, from: usize, key: &[u8]) -> usize
    requires fit { count * width ≤ length bytes.now }
    requires inside { from ≤ width }
    ensures { IsPlace (keys from (records count width bytes.now)) key.now result }
{
    let mut low = 0;
    let mut high = count;
    while low < high {
        let middle = low + (high - low) / 2;
        let found = record_at(bytes, width, middle);
        if is_below(&found[from..], key) {
            low = middle + 1;
        } else {
            high = middle;
        }
    }
    low
}

/// Puts whole records in the place of some: of `count` records those from `at` on, as many as `removed` says, give
/// way to the added ones. The records before stay, and those after follow.
pub fn splice(bytes: &mut [u8], width: usize, count: usize, at: usize, removed: usize, added: &[u8])
    requires fit { count * width ≤ length bytes.old }
    requires part { at + removed ≤ count }
    requires room { (count - removed) * width + length added.now ≤ length bytes.old }
    ensures { (more : ℕ) → length added.now ≡ more * width
        → records (count - removed + more) width bytes.new
        ≡ take at (records count width bytes.old) ++ (records more width added.now
        ++ drop (at + removed) (records count width bytes.old)) }
{
    let start = at * width;
    let tail = (at + removed) * width;
    let end = count * width;
    shift(bytes, tail, end, start + added.len());
    bytes[start..start + added.len()].copy_from_slice(added);
}

/// How many bytes are shifted at once, at the most.
const PIECE_BYTES: usize = 256;

/// Copies the bytes from `start` up to `end` to those from `to` on, piece by piece and not byte by byte.
fn shift(bytes: &mut [u8], start: usize, end: usize, to: usize)
    requires part { start ≤ end }
    requires inside { end ≤ length bytes.old }
    requires room { to + (end - start) ≤ length bytes.old }
    ensures { bytes.new ≡ copy_within bytes.old start end to }
{
    if to <= start {
        shift_down(bytes, start, end - start, to);
    } else {
        shift_up(bytes, start, end - start, to);
    }
}

/// Copies as many bytes from `start` on to those from `to` on, which is not after it: the first piece first.
fn shift_down(bytes: &mut [u8], start: usize, count: usize, to: usize)
    requires downward { to ≤ start }
    requires inside { start + count ≤ length bytes.old }
    ensures { bytes.new ≡ paste bytes.old to (drop start bytes.old) count }
{
    let mut copy = [0; PIECE_BYTES];
    let mut done = 0;
    while done < count {
        let size = usize::min(PIECE_BYTES, count - done);
        copy_piece(bytes, start + done, to + done, &mut copy[..size]);
        done += size;
    }
}

/// Copies as many bytes from `start` on to those from `to` on, which is not before it: the last piece first.
fn shift_up(bytes: &mut [u8], start: usize, count: usize, to: usize)
    requires upward { start ≤ to }
    requires inside { to + count ≤ length bytes.old }
    ensures { bytes.new ≡ paste bytes.old to (drop start bytes.old) count }
{
    let mut copy = [0; PIECE_BYTES];
    let mut left = count;
    while 0 < left {
        let size = usize::min(PIECE_BYTES, left);
        left -= size;
        copy_piece(bytes, start + left, to + left, &mut copy[..size]);
    }
}

/// Copies as many bytes as fit `copy` from `start` on to those from `to` on, by way of it.
fn copy_piece(bytes: &mut [u8], start: usize, to: usize, copy: &mut [u8])
    requires inside { start + length copy.old ≤ length bytes.old }
    requires room { to + length copy.old ≤ length bytes.old }
    ensures bytes { bytes.new ≡ paste bytes.old to (drop start bytes.old) (length copy.old) }
    ensures size { length copy.new ≡ length copy.old }
{
    let count = copy.len();
    copy.copy_from_slice(&bytes[start..start + count]);
    bytes[to..to + count].copy_from_slice(copy);
}

/// Copies the records from `at` on to the beginning of other bytes.
pub fn copy_tail(bytes: &[u8], width: usize, count: usize, at: usize, other: &mut [u8])
    requires fit { count * width ≤ length bytes.now }
    requires part { at ≤ count }
    requires room { (count - at) * width ≤ length other.old }
    ensures { records (count - at) width other.new ≡ drop at (records count width bytes.now) }
{
    let start = at * width;
    let end = count * width;
    other[..end - start].copy_from_slice(&bytes[start..end]);
}
