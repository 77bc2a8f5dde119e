//! Numbers in a page, the highest byte first.
//!
//! A number has one, two or four bytes, all of them in the page. One that is put at a place is read there again,
//! and the bytes before and after it stay.

ghost use Rattle.std.specs.Prelude.{◌≡◌, ℕ, ◌+◌, ◌<◌, ◌≤◌, length, slice_index, EachIndex, IsTrue, ◌↔◌};
ghost use Rattle.rs_page.specs.Number.{number_at};

use byteorder::{BigEndian, ByteOrder};

/// The byte at a place.
#[tactic(auto, using(crate::proofs::Numbers::byte_at))]
pub fn number_of_one(page: &[u8], at: usize) -> u8
    requires { at < length page.now }
    ensures { result ≡ number_at at 1 page.now }
{
    page[at]
}

/// The number in the two bytes from a place on.
#[tactic(auto, unfolding(crate::specs::Number::number_at))]
pub fn number_of_two(page: &[u8], at: usize) -> u16
    requires { at + 2 ≤ length page.now }
    ensures { result ≡ number_at at 2 page.now }
{
    BigEndian::read_u16(&page[at..at + 2])
}

/// The number in the four bytes from a place on.
#[tactic(auto, unfolding(crate::specs::Number::number_at))]
pub fn number_of_four(page: &[u8], at: usize) -> u32
    requires { at + 4 ≤ length page.now }
    ensures { result ≡ number_at at 4 page.now }
{
    BigEndian::read_u32(&page[at..at + 4])
}

/// Whether there are zeros from a place on.
pub fn are_zeros_from(page: &[u8], at: usize) -> bool
    requires { at ≤ length page.now }
    ensures { IsTrue result ↔ ((k : ℕ) → at ≤ k → number_at k 1 page.now ≡ 0) }
{
    are_zeros(&page[at..])
}

fn are_zeros(bytes: &[u8]) -> bool
    ensures { IsTrue result ↔ EachIndex bytes.now (λ k. slice_index bytes.now k ≡ 0) }
{
    bytes.iter().all(|byte| *byte == 0)
}

/// Puts a byte at a place. The other bytes stay.
pub fn put_one(page: &mut [u8], at: usize, value: u8)
    requires { at < length page.old }
    ensures value { number_at at 1 page.new ≡ value }
    ensures before { (k n : ℕ) → k + n ≤ at → number_at k n page.new ≡ number_at k n page.old }
    ensures after { (k n : ℕ) → at < k → number_at k n page.new ≡ number_at k n page.old }
{
    write_one(page, at, value);
}

#[tactic(auto, using(crate::proofs::Numbers::byte_at))]
fn write_one(page: &mut [u8], at: usize, value: u8)
    requires { at < length page.old }
    ensures value { number_at at 1 page.new ≡ value }
    ensures before { (i : ℕ) → i < at → slice_index page.new i ≡ slice_index page.old i }
    ensures after { (i : ℕ) → at < i → slice_index page.new i ≡ slice_index page.old i }
{
    page[at] = value;
}

/// Puts a number into the two bytes from a place on. The other bytes stay.
pub fn put_two(page: &mut [u8], at: usize, value: u16)
    requires { at + 2 ≤ length page.old }
    ensures value { number_at at 2 page.new ≡ value }
    ensures before { (k n : ℕ) → k + n ≤ at → number_at k n page.new ≡ number_at k n page.old }
    ensures after { (k n : ℕ) → at + 2 ≤ k → number_at k n page.new ≡ number_at k n page.old }
{
    write_two(page, at, value);
}

#[tactic(auto, unfolding(crate::specs::Number::number_at))]
fn write_two(page: &mut [u8], at: usize, value: u16)
    requires { at + 2 ≤ length page.old }
    ensures value { number_at at 2 page.new ≡ value }
    ensures before { (i : ℕ) → i < at → slice_index page.new i ≡ slice_index page.old i }
    ensures after { (i : ℕ) → at + 2 ≤ i → slice_index page.new i ≡ slice_index page.old i }
{
    BigEndian::write_u16(&mut page[at..at + 2], value);
}

/// Puts a number into the four bytes from a place on. The other bytes stay.
pub fn put_four(page: &mut [u8], at: usize, value: u32)
    requires { at + 4 ≤ length page.old }
    ensures value { number_at at 4 page.new ≡ value }
    ensures before { (k n : ℕ) → k + n ≤ at → number_at k n page.new ≡ number_at k n page.old }
    ensures after { (k n : ℕ) → at + 4 ≤ k → number_at k n page.new ≡ number_at k n page.old }
{
    write_four(page, at, value);
}

#[tactic(auto, unfolding(crate::specs::Number::number_at))]
fn write_four(page: &mut [u8], at: usize, value: u32)
    requires { at + 4 ≤ length page.old }
    ensures value { number_at at 4 page.new ≡ value }
    ensures before { (i : ℕ) → i < at → slice_index page.new i ≡ slice_index page.old i }
    ensures after { (i : ℕ) → at + 4 ≤ i → slice_index page.new i ≡ slice_index page.old i }
{
    BigEndian::write_u32(&mut page[at..at + 4], value);
}
