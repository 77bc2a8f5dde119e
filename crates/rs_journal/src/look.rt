//! What is kept of a file that is looked at, read with the checks of recovery, and reads that show the pages it stands for.

ghost use Rattle.std.specs.Prelude.{◌≡◌, ℕ, ◌+◌, ◌-◌, ◌*◌, ◌/◌, ◌%◌, ◌^◌, ◌<◌, ◌≤◌, ◌==◌, ◌≢◌, false, if◌then◌else◌, length, slice_index, IsTrue, OnOk, IfOk};
ghost use Rattle.rs_disk.specs.Crash.{Same};
ghost use Rattle.rs_disk.specs.Content.{Gives};
ghost use Rattle.rs_disk.specs.Reaches.{IsOutside, Reaches};
ghost use Rattle.rs_page.specs.declared.page.TheConstants.{PAGE_SIZE};
ghost use Rattle.rs_journal.specs.Calls.{CallsDisk};
ghost use Rattle.rs_journal.specs.Journal.{Ascends, IsTold};
ghost use Rattle.rs_journal.specs.Look.{GivesBytes, IsLook, copied_byte, formatted_byte, masked_byte, shown, CountsLook};
ghost use Rattle.rs_journal.specs.Recovery.{IsDamaged, OnDamaged, number_in};
ghost use Rattle.rs_journal.specs.declared.limits.TheConstants.{GATE, OPEN};

use crate::journal::pages_of_numbers;
use crate::limits::{FIELDS_END, FIRST_FORMAT, FLAG, FORMAT, FORMAT_BYTE, GATE, LAST_FORMAT, OPEN};
use crate::reading::{read_at, read_byte, read_gate, read_page, read_word};
use crate::recovery::read_journal;
use rs_disk::Disk;
use rs_page::{PAGE_SIZE, Page};
use rs_refusal::Refusal;
use std::alloc::Global;

/// What is kept of a file that is looked at.
#[derive(Drop)]
pub(crate) struct Look {
    /// The numbers of the pages that the journal copies; none where the gate isn't open.
    pub(crate) numbers: Vec<u32>,
    /// The page of the first copy.
    pub(crate) copies: u64,
    /// Whether the file is a closed one of version 1, whose format is shown as 2.
    pub(crate) raises: bool,
    ghost small: { copies + length numbers.items < 2 ^ 40 },
}

/// Looks which pages stand after recovery, and refuses a journal that isn't well formed (94). The disk is only read.
pub(crate) fn look_at<D: Disk>(alloc: Global, disk: &mut D) -> Result<Look, Refusal>
    ensures found { IsTrue (D.is_honest disk.old) → IfOk result
        (λ look. IsLook look.numbers.items look.copies look.raises (D.seen disk.old)) }
    ensures told { IsTrue (D.is_honest disk.old)
        → OnOk result ((D.seen disk.old).byte GATE ≡ OPEN → IsTold (D.seen disk.old)) }
    ensures damaged { IsTrue (D.is_honest disk.old) → OnDamaged result (IsDamaged (D.seen disk.old)) }
    ensures reaches { Reaches D.Disk Same disk.old disk.new }
    ensures count { CountsLook result (D.failures disk.old) (D.failures disk.new) }
{
    if read_gate(disk)? == OPEN {
        look_at_journal(alloc, disk)
    } else {
        look_at_home(alloc, disk)
    }
}

/// Looks through a gate that is open: which pages the journal copies, and where the copies begin.
fn look_at_journal<D: Disk>(alloc: Global, disk: &mut D) -> Result<Look, Refusal>
    ensures found { IsTrue (D.is_honest disk.old) → (D.seen disk.old).byte GATE ≡ OPEN → IfOk result
        (λ look. IsLook look.numbers.items look.copies look.raises (D.seen disk.old)) }
    ensures told { IsTrue (D.is_honest disk.old) → OnOk result (IsTold (D.seen disk.old)) }
    ensures damaged { IsTrue (D.is_honest disk.old) → (D.seen disk.old).byte GATE ≡ OPEN
        → OnDamaged result (IsDamaged (D.seen disk.old)) }
    ensures reaches { Reaches D.Disk Same disk.old disk.new }
    ensures count { CountsLook result (D.failures disk.old) (D.failures disk.new) }
{
    let (first, count) = read_journal(disk)?;
    let numbers = read_numbers(alloc, disk, first, count)?;
    let copies = u64::from(first) + u64::from(pages_of_numbers(count));
    Ok(Look {
        numbers,
        copies,
        raises: false,
    })
}

/// Looks past a gate that isn't open: whether the file is a closed one of version 1.
fn look_at_home<D: Disk>(alloc: Global, disk: &mut D) -> Result<Look, Refusal>
    ensures found { IsTrue (D.is_honest disk.old) → (D.seen disk.old).byte GATE ≢ OPEN → IfOk result
        (λ look. IsLook look.numbers.items look.copies look.raises (D.seen disk.old)) }
    ensures reaches { Reaches D.Disk Same disk.old disk.new }
    ensures calls { CallsDisk D.Disk result disk.old disk.new }
{
    let format = read_word(disk, FORMAT)?;
    let flag = read_byte(disk, FLAG)?;
    Ok(Look {
        numbers: Vec::new(alloc),
        copies: 0,
        raises: format == u32::from(FIRST_FORMAT) && flag == 0,
    })
}

/// Reads the numbers of a journal, of so many copies from a page on.
fn read_numbers<D: Disk>(
    alloc: Global,
    disk: &mut D,
    first: u32,
    count: u32,
) -> Result<Vec<u32>, Refusal>
    ensures length { IfOk result (λ numbers. length numbers.items ≡ count) }
    ensures each { IsTrue (D.is_honest disk.old) → IfOk result (λ numbers. (k : ℕ) → k < count
        → slice_index numbers.items k ≡ number_in (D.seen disk.old) first k) }
    ensures undamaged { OnDamaged result ⊥ }
    ensures reaches { Reaches D.Disk Same disk.old disk.new }
    ensures count { CountsLook result (D.failures disk.old) (D.failures disk.new) }
{
    let start = PAGE_SIZE as u64 * u64::from(first);
    let mut numbers = Vec::with_capacity(alloc, count as usize)?;
    for place in 0..count {
        let number = read_word(disk, start + 4 * u64::from(place))?;
        numbers.push_reserved(number);
    }
    Ok(numbers)
}

/// Reads what is shown from an offset on: the copies in place of their pages, and page 0 with its format and no gate.
pub(crate) fn read_shown<D: Disk>(
    disk: &mut D,
    look: &Look,
    at: u64,
    buffer: &mut [u8],
) -> Result<(), Refusal>
    ensures bytes { IsTrue (D.is_honest disk.old)
        → IsLook look.now.numbers.items look.now.copies look.now.raises (D.seen disk.old)
        → OnOk result (Gives (shown (D.seen disk.old)) at buffer.new) }
    ensures reaches { Reaches D.Disk Same disk.old disk.new }
    ensures calls { CallsDisk D.Disk result disk.old disk.new }
{
    read_at(disk, at, buffer)?;
    put_copies(disk, look, at, buffer)?;
    put_format(buffer, at, look.raises);
    put_zeros(buffer, at);
    Ok(())
}

/// Puts the copies over the bytes of their pages, those of pages that the buffer has some bytes of.
fn put_copies<D: Disk>(disk: &mut D, look: &Look, at: u64, buffer: &mut [u8]) -> Result<(), Refusal>
    ensures put { IsTrue (D.is_honest disk.old)
        → Ascends (length look.now.numbers.items) (slice_index look.now.numbers.items)
        → Gives (D.seen disk.old) at buffer.old → OnOk result
        (GivesBytes (copied_byte (slice_index look.now.numbers.items)
        (λ k j. (D.seen disk.old).byte (PAGE_SIZE * (look.now.copies + k) + j)) (D.seen disk.old).byte
        (length look.now.numbers.items)) at buffer.new) }
    ensures reaches { Reaches D.Disk Same disk.old disk.new }
    ensures calls { CallsDisk D.Disk result disk.old disk.new }
{
    let first_page = at / PAGE_SIZE as u64;
    let pages = buffer.len() as u64 / PAGE_SIZE as u64 + 2;
    let from = count_below(&look.numbers, first_page);
    let to = count_below(&look.numbers, first_page + pages);
    for place in from..to {
        put_copy(
            disk,
            look.numbers[place],
            look.copies + place as u64,
            at,
            buffer,
        )?;
    }
    Ok(())
}

/// How many of these numbers, which ascend, are below a bound.
fn count_below(numbers: &[u32], bound: u64) -> usize
    ensures inside { result ≤ length numbers.now }
    ensures below { Ascends (length numbers.now) (slice_index numbers.now)
        → (k : ℕ) → k < result → slice_index numbers.now k < bound }
    ensures others { Ascends (length numbers.now) (slice_index numbers.now)
        → (k : ℕ) → result ≤ k → k < length numbers.now → bound ≤ slice_index numbers.now k }
{
    numbers.partition_point(|number| u64::from(*number) < bound)
}

/// Puts a copy over the bytes of the page with this number, as far as they are in a buffer that begins at an offset.
fn put_copy<D: Disk>(
    disk: &mut D,
    number: u32,
    copy: u64,
    at: u64,
    buffer: &mut [u8],
) -> Result<(), Refusal>
    requires { copy < 2 ^ 40 }
    ensures put { IsTrue (D.is_honest disk.old) → OnOk result ((k : ℕ) → k < length buffer.new
        → slice_index buffer.new k ≡ (if ((at + k) / PAGE_SIZE == number)
        then (D.seen disk.old).byte (PAGE_SIZE * copy + (at + k) % PAGE_SIZE) else slice_index buffer.old k)) }
    ensures reaches { Reaches D.Disk Same disk.old disk.new }
    ensures calls { CallsDisk D.Disk result disk.old disk.new }
{
    let start = PAGE_SIZE as u64 * u64::from(number);
    if !meets_page(start, at, buffer.len() as u64) {
        return Ok(());
    }
    let mut page = Page::new();
    read_page(disk, copy, &mut page)?;
    put_over(buffer, at, start, &page.bytes);
    Ok(())
}

/// Puts format 2 in place of 1 where it is to be shown so, as far as it is in a buffer that begins at an offset.
fn put_format(buffer: &mut [u8], at: u64, raised: bool)
    ensures { (byte : ℕ → ℕ) → GivesBytes byte at buffer.old
        → GivesBytes (formatted_byte raised byte) at buffer.new }
{
    if raised {
        put_over(buffer, at, FORMAT_BYTE, &[LAST_FORMAT]);
    }
}

/// Puts zeros over the gate and the journal's fields, as far as they are in a buffer that begins at an offset.
fn put_zeros(buffer: &mut [u8], at: u64)
    ensures { (byte : ℕ → ℕ) → GivesBytes byte at buffer.old → GivesBytes (masked_byte byte) at buffer.new }
{
    put_over(buffer, at, GATE, &[0; (FIELDS_END - GATE) as usize]);
}

/// Whether some of so many bytes from an offset on are in the page that begins at `start`.
fn meets_page(start: u64, at: u64, count: u64) -> bool
    requires { start < 2 ^ 60 }
    ensures { result ≡ false → (k : ℕ) → k < count → IsOutside start (start + PAGE_SIZE) (at + k) }
{
    at < start + PAGE_SIZE as u64 && start.saturating_sub(at) < count
}

/// Puts bytes that begin at `start` over those of a buffer that begins at `at`, as far as they are in it.
fn put_over(buffer: &mut [u8], at: u64, start: u64, bytes: &[u8])
    requires { start + length bytes.now < 2 ^ 60 }
    ensures inside { (k : ℕ) → k < length buffer.new → start ≤ at + k → at + k < start + length bytes.now
        → slice_index buffer.new k ≡ slice_index bytes.now (at + k - start) }
    ensures outside { (k : ℕ) → IsOutside start (start + length bytes.now) (at + k)
        → slice_index buffer.new k ≡ slice_index buffer.old k }
{
    let from = start.saturating_sub(at) as usize;
    let skipped = at.saturating_sub(start) as usize;
    if from < buffer.len() && skipped < bytes.len() {
        let count = (buffer.len() - from).min(bytes.len() - skipped);
        put_at(buffer, from, &bytes[skipped..skipped + count]);
    }
}

/// Puts bytes into a buffer from a place on.
fn put_at(buffer: &mut [u8], from: usize, bytes: &[u8])
    requires { from + length bytes.now ≤ length buffer.old }
    ensures inside { (k : ℕ) → k < length bytes.now → slice_index buffer.new (from + k) ≡ slice_index bytes.now k }
    ensures before { (k : ℕ) → k < from → slice_index buffer.new k ≡ slice_index buffer.old k }
    ensures after { (k : ℕ) → from + length bytes.now ≤ k → slice_index buffer.new k ≡ slice_index buffer.old k }
{
    buffer[from..from + bytes.len()].copy_from_slice(bytes);
}
