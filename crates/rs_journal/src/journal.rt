//! Writing a journal: the numbers a page at a time, the copies, and its fields in page 0.
//!
//! It comes after the pages of the file, so a crash while it is written leaves those.

ghost use Rattle.std.specs.Prelude.{◌≡◌, ℕ, ◌+◌, ◌*◌, ◌^◌, ◌<◌, ◌≤◌, IsTrue, OnOk};
ghost use Rattle.rs_disk.specs.Crash.{Only};
ghost use Rattle.rs_page.specs.Number.{number_at};
ghost use Rattle.rs_page.specs.declared.page.TheConstants.{PAGE_SIZE};
ghost use Rattle.rs_journal.specs.Calls.{CallsDisk};
ghost use Rattle.rs_journal.specs.declared.limits.TheConstants.{FIELDS, FIELDS_END, NUMBERS_OF_A_PAGE};
ghost use Rattle.rs_journal.specs.Journal.{number_pages, HasNumbers, HasNumberPage, HasCopies, HasFields, HasJournal, MakesPages, journal_of};
ghost use Rattle.rs_journal.specs.FilePages.{FilePages};
ghost use Rattle.rs_journal.specs.Stages.{IsBeforeJournal, IsQuiet, IsGate, EveryImage, Goes};
ghost use Rattle.rs_disk.specs.Reaches.{IsOutside, KeepsWhere, Reaches};

use crate::copies::Copies;
use crate::limits::{FIELDS, NUMBERS_OF_A_PAGE};
use crate::writing::{sync, write_at, write_page};
use rs_disk::Disk;
use rs_page::Page;
use rs_page::bytes::put_four;
use rs_refusal::Refusal;

/// Writes the journal of these copies from a page on, and waits until it is on the medium.
fn write_journal<D: Disk, C: Copies>(disk: &mut D, first: u32, copies: &C) -> Result<(), Refusal>
    requires { 0 < first }
    ensures written { IsTrue (D.is_honest disk.old)
        → OnOk result (HasJournal (journal_of C.Copies first copies.now) (D.seen disk.new)) }
    ensures reaches { Reaches D.Disk (KeepsWhere (IsBeforeJournal first)) disk.old disk.new }
    ensures durable { IsTrue (D.keeps_crashes disk.old)
        → OnOk result (Only (D.seen disk.new) (D.may_leave disk.new)) }
    ensures calls { CallsDisk D.Disk result disk.old disk.new }
{
    let count = copies.count();
    let start = u64::from(first) + u64::from(pages_of_numbers(count));
    write_numbers(disk, first, copies)?;
    write_copies(disk, start, copies)?;
    write_fields(disk, first, count)?;
    sync(disk)
}

/// Writes the journal of a checkpoint. Until the gate is opened, a crash leaves the pages kept last.
pub(crate) fn begin<D: Disk, C: Copies>(disk: &mut D, first: u32, copies: &C) -> Result<(), Refusal>
    requires { 0 < first }
    ensures goes { (kept checkpoint : FilePages) → MakesPages (journal_of C.Copies first copies.now) kept checkpoint
        → EveryImage D.Disk (IsQuiet kept) disk.old
        → Goes D.Disk (IsQuiet kept) (IsGate kept (journal_of C.Copies first copies.now)) result disk.old disk.new }
    ensures calls { CallsDisk D.Disk result disk.old disk.new }
{
    write_journal(disk, first, copies)
}

/// How many pages the numbers of so many copies fill.
pub(crate) fn pages_of_numbers(count: u32) -> u32
    ensures { result ≡ number_pages count }
{
    ((u64::from(count) + 1023) / u64::from(NUMBERS_OF_A_PAGE)) as u32
}

/// Writes the numbers of the copies, from a page on.
fn write_numbers<D: Disk, C: Copies>(disk: &mut D, first: u32, copies: &C) -> Result<(), Refusal>
    ensures written { IsTrue (D.is_honest disk.old) → OnOk result (HasNumbers first
        (number_pages (C.count copies.now)) (C.count copies.now) (C.number copies.now) (D.seen disk.new)) }
    ensures reaches { Reaches D.Disk (KeepsWhere (IsOutside (PAGE_SIZE * first)
        (PAGE_SIZE * (first + number_pages (C.count copies.now))))) disk.old disk.new }
    ensures calls { CallsDisk D.Disk result disk.old disk.new }
{
    for page in 0..pages_of_numbers(copies.count()) {
        write_number_page(disk, first, copies, page)?;
    }
    Ok(())
}

/// Writes one page of numbers.
fn write_number_page<D: Disk, C: Copies>(
    disk: &mut D,
    first: u32,
    copies: &C,
    page: u32,
) -> Result<(), Refusal>
    requires page { page < number_pages (C.count copies.now) }
    requires fits { C.count copies.now < 2 ^ 32 }
    ensures written { IsTrue (D.is_honest disk.old) → OnOk result (HasNumberPage first page
        (C.count copies.now) (C.number copies.now) (D.seen disk.new)) }
    ensures reaches { Reaches D.Disk (KeepsWhere (IsOutside (PAGE_SIZE * (first + page))
        (PAGE_SIZE * (first + page) + PAGE_SIZE))) disk.old disk.new }
    ensures calls { CallsDisk D.Disk result disk.old disk.new }
{
    let mut numbers = Page::new();
    put_numbers(&mut numbers, copies, page * NUMBERS_OF_A_PAGE);
    write_page(disk, u64::from(first) + u64::from(page), &numbers)
}

/// Puts the numbers of the copies from a place on into a page, as many as it has room for.
fn put_numbers<C: Copies>(page: &mut Page, copies: &C, start: u32)
    requires { start ≤ C.count copies.now }
    ensures { (k : ℕ) → k < NUMBERS_OF_A_PAGE → start + k < C.count copies.now
        → number_at (4 * k) 4 page.new.bytes ≡ C.number copies.now (start + k) }
{
    let many = NUMBERS_OF_A_PAGE.min(copies.count() - start);
    for place in 0..many {
        put_four(
            &mut page.bytes,
            4 * place as usize,
            copies.number(start + place),
        );
    }
}

/// Writes the copies, from a page on.
fn write_copies<D: Disk, C: Copies>(disk: &mut D, start: u64, copies: &C) -> Result<(), Refusal>
    requires { start < 2 ^ 34 }
    ensures written { IsTrue (D.is_honest disk.old)
        → OnOk result (HasCopies start (C.count copies.now) (C.byte copies.now) (D.seen disk.new)) }
    ensures reaches { Reaches D.Disk (KeepsWhere (IsOutside (PAGE_SIZE * start)
        (PAGE_SIZE * (start + C.count copies.now)))) disk.old disk.new }
    ensures calls { CallsDisk D.Disk result disk.old disk.new }
{
    for place in 0..copies.count() {
        write_page(disk, start + u64::from(place), copies.page(place))?;
    }
    Ok(())
}

/// Writes the journal's first page and its number of copies into page 0.
fn write_fields<D: Disk>(disk: &mut D, first: u32, count: u32) -> Result<(), Refusal>
    ensures written { IsTrue (D.is_honest disk.old) → OnOk result (HasFields first count (D.seen disk.new)) }
    ensures reaches { Reaches D.Disk (KeepsWhere (IsOutside FIELDS FIELDS_END)) disk.old disk.new }
    ensures calls { CallsDisk D.Disk result disk.old disk.new }
{
    let mut fields = [0; 8];
    put_four(&mut fields, 0, first);
    put_four(&mut fields, 4, count);
    write_at(disk, FIELDS, &fields)
}
