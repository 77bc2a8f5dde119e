//! Bringing the copies home: each is written over the page that it copies.
//!
//! Of page 0 the gate byte and the journal's fields are left alone, so that the gate stays open meanwhile.

ghost use Rattle.std.specs.Prelude.{◌≡◌, ℕ, ◌+◌, ◌*◌, ◌<◌, ◌≤◌, max, IsTrue, OnOk};
ghost use Rattle.rs_disk.specs.Crash.{Only};
ghost use Rattle.rs_page.specs.declared.page.TheConstants.{PAGE_SIZE};
ghost use Rattle.rs_journal.specs.Calls.{CallsDisk};
ghost use Rattle.rs_journal.specs.Journal.{Ascends, MakesPages, journal_of};
ghost use Rattle.rs_journal.specs.Stages.{IsNotInPage, IsLeftAlone, HasHomePage, HasHome, IsHome, IsClosing, EveryImage, Goes};
ghost use Rattle.rs_journal.specs.FilePages.{FilePages};
ghost use Rattle.rs_disk.specs.Reaches.{KeepsWhere, Reaches};

use crate::copies::Copies;
use crate::limits::{FIELDS_END, GATE};
use crate::writing::{sync, write_at, write_page};
use rs_disk::Disk;
use rs_page::Page;
use rs_refusal::Refusal;

/// Brings the copies of a checkpoint home. The gate is open, so a crash leaves the checkpoint's pages.
pub(crate) fn bring_home<D: Disk, C: Copies>(disk: &mut D, copies: &C) -> Result<(), Refusal>
    requires { Ascends (C.count copies.now) (C.number copies.now) }
    ensures goes { (first : ℕ) (kept checkpoint : FilePages) → MakesPages (journal_of C.Copies first copies.now) kept checkpoint
        → EveryImage D.Disk (IsHome (journal_of C.Copies first copies.now) checkpoint) disk.old
        → Goes D.Disk (IsHome (journal_of C.Copies first copies.now) checkpoint)
        (IsClosing (journal_of C.Copies first copies.now) checkpoint) result disk.old disk.new }
    ensures calls { CallsDisk D.Disk result disk.old disk.new }
{
    write_home(disk, copies)
}

/// Writes the copies over their home pages, and waits until they are on the medium.
fn write_home<D: Disk, C: Copies>(disk: &mut D, copies: &C) -> Result<(), Refusal>
    requires { Ascends (C.count copies.now) (C.number copies.now) }
    ensures written { IsTrue (D.is_honest disk.old) → OnOk result
        (HasHome (C.count copies.now) (C.number copies.now) (C.byte copies.now) (D.seen disk.new)) }
    ensures reaches { Reaches D.Disk
        (KeepsWhere (IsLeftAlone (C.count copies.now) (C.number copies.now))) disk.old disk.new }
    ensures durable { IsTrue (D.keeps_crashes disk.old)
        → OnOk result (Only (D.seen disk.new) (D.may_leave disk.new)) }
    ensures calls { CallsDisk D.Disk result disk.old disk.new }
{
    write_home_pages(disk, copies)?;
    sync(disk)
}

/// Writes the copies over their home pages.
fn write_home_pages<D: Disk, C: Copies>(disk: &mut D, copies: &C) -> Result<(), Refusal>
    requires { Ascends (C.count copies.now) (C.number copies.now) }
    ensures written { IsTrue (D.is_honest disk.old) → OnOk result
        (HasHome (C.count copies.now) (C.number copies.now) (C.byte copies.now) (D.seen disk.new)) }
    ensures reaches { Reaches D.Disk
        (KeepsWhere (IsLeftAlone (C.count copies.now) (C.number copies.now))) disk.old disk.new }
    ensures calls { CallsDisk D.Disk result disk.old disk.new }
{
    for place in 0..copies.count() {
        write_home_page(disk, copies.number(place), copies.page(place))?;
    }
    Ok(())
}

/// Writes a page where it lies, of page 0 all but the gate and the journal's fields.
pub(crate) fn write_home_page<D: Disk>(
    disk: &mut D,
    number: u32,
    page: &Page,
) -> Result<(), Refusal>
    ensures written { IsTrue (D.is_honest disk.old)
        → OnOk result (HasHomePage number page.now.bytes (D.seen disk.new)) }
    ensures reaches { Reaches D.Disk (KeepsWhere (IsNotInPage number)) disk.old disk.new }
    ensures no_longer { IsTrue (D.is_honest disk.old) → (D.seen disk.new).size ≤ max (D.seen disk.old).size (PAGE_SIZE * number + PAGE_SIZE) }
    ensures calls { CallsDisk D.Disk result disk.old disk.new }
{
    if number == 0 {
        write_first_page(disk, page)
    } else {
        write_page(disk, u64::from(number), page)
    }
}

/// Writes page 0 but for the gate and the journal's fields.
fn write_first_page<D: Disk>(disk: &mut D, page: &Page) -> Result<(), Refusal>
    ensures written { IsTrue (D.is_honest disk.old)
        → OnOk result (HasHomePage 0 page.now.bytes (D.seen disk.new)) }
    ensures reaches { Reaches D.Disk (KeepsWhere (IsNotInPage 0)) disk.old disk.new }
    ensures no_longer { IsTrue (D.is_honest disk.old) → (D.seen disk.new).size ≤ max (D.seen disk.old).size PAGE_SIZE }
    ensures calls { CallsDisk D.Disk result disk.old disk.new }
{
    write_at(disk, 0, &page.bytes[..GATE as usize])?;
    write_at(disk, FIELDS_END, &page.bytes[FIELDS_END as usize..])
}
