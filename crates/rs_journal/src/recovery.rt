//! Recovery after a crash: where the gate is open, the checkpoint is repeated from the home pages on.
//!
//! It begins with a sync, after which a crash leaves what a read gives. It may be ended by a crash or a fault itself, and
//! the next one gives the same pages.

ghost use Rattle.std.specs.Prelude.{◌≡◌, ◌≢◌, ◌+◌, ◌*◌, ◌^◌, ◌<◌, ◌≤◌, max, IsTrue, OnOk, IfOk, ◌↔◌};
ghost use Rattle.rs_disk.specs.Crash.{Same};
ghost use Rattle.rs_page.specs.declared.page.TheConstants.{PAGE_SIZE};
ghost use Rattle.rs_journal.specs.Calls.{CallsDisk};
ghost use Rattle.rs_journal.specs.Journal.{Journal, Ascends, AreBelow, Carries, Tells, IsTold, Recovers};
ghost use Rattle.rs_journal.specs.FilePages.{FilePages, word_at};
ghost use Rattle.rs_journal.specs.Recovery.{IsInside, IsThere, Brought, GaveAll, HasNoMore, IsDamaged, number_in, journal_in, SaysCount, CallsOrDamaged, OnDamaged, Recovered};
ghost use Rattle.rs_journal.specs.Stages.{IsQuiet, IsHome, IsClosing, IsNotInPage, IsLeftAlone, HasHomeBytes, HasHome, EveryImage, Goes};
ghost use Rattle.rs_journal.specs.declared.limits.TheConstants.{GATE, OPEN};
ghost use Rattle.rs_disk.specs.Reaches.{KeepsWhere, Reaches};

use crate::gate::{close_gate, cut};
use crate::home::write_home_page;
use crate::journal::pages_of_numbers;
use crate::limits::{FIELDS, OPEN, PAGE_COUNT};
use crate::reading::{read_gate, read_page, read_word};
use crate::writing::sync;
use rs_disk::Disk;
use rs_page::{PAGE_SIZE, Page};
use rs_refusal::Refusal;

/// Ends the checkpoint that a crash may have cut short. It begins with a sync.
///
/// Where the gate is open, the journal's copies are brought home and the gate is closed; a journal that isn't well formed
/// is refused (94). Where it is closed, nothing is written.
pub fn recover<D: Disk>(disk: &mut D) -> Result<(), Refusal>
    ensures recovers { (pages : FilePages) → SaysCount pages → IsTrue (D.is_honest disk.old)
        → Recovers (D.seen disk.old) pages → Recovered D.Disk pages result disk.old disk.new }
    ensures gave { IsTrue (D.is_honest disk.old) → OnOk result (GaveAll (D.seen disk.old) (D.seen disk.new)) }
    ensures told { IsTrue (D.is_honest disk.old)
        → OnOk result ((D.seen disk.old).byte GATE ≡ OPEN → IsTold (D.seen disk.old)) }
    ensures damaged { IsTrue (D.is_honest disk.old) → OnDamaged result (IsDamaged (D.seen disk.old)) }
    ensures shut { IsTrue (D.is_honest disk.old) → OnOk result ((D.seen disk.new).byte GATE ≢ OPEN) }
    ensures cut { IsTrue (D.is_honest disk.old) → (D.seen disk.old).byte GATE ≡ OPEN
        → OnOk result (HasNoMore (D.seen disk.new)) }
    ensures closed { IsTrue (D.is_honest disk.old) → (D.seen disk.old).byte GATE ≢ OPEN
        → Reaches D.Disk Same disk.old disk.new }
    ensures untouched { OnDamaged result (Reaches D.Disk Same disk.old disk.new) }
    ensures calls { CallsOrDamaged D.Disk result disk.old disk.new }
{
    sync(disk)?;
    recover_synced(disk)
}

/// The rest of recovery, once a crash leaves just what a read gives.
fn recover_synced<D: Disk>(disk: &mut D) -> Result<(), Refusal>
    ensures goes { (pages : FilePages) → SaysCount pages → Recovers (D.seen disk.old) pages
        → EveryImage D.Disk (λ image. image ≡ D.seen disk.old) disk.old
        → Goes D.Disk (λ image. Recovers image pages) (IsQuiet pages) result disk.old disk.new }
    ensures gave { IsTrue (D.is_honest disk.old) → OnOk result (GaveAll (D.seen disk.old) (D.seen disk.new)) }
    ensures told { IsTrue (D.is_honest disk.old)
        → OnOk result ((D.seen disk.old).byte GATE ≡ OPEN → IsTold (D.seen disk.old)) }
    ensures damaged { IsTrue (D.is_honest disk.old) → OnDamaged result (IsDamaged (D.seen disk.old)) }
    ensures shut { IsTrue (D.is_honest disk.old) → OnOk result ((D.seen disk.new).byte GATE ≢ OPEN) }
    ensures cut { IsTrue (D.is_honest disk.old) → (D.seen disk.old).byte GATE ≡ OPEN
        → OnOk result (HasNoMore (D.seen disk.new)) }
    ensures closed { IsTrue (D.is_honest disk.old) → (D.seen disk.old).byte GATE ≢ OPEN
        → Reaches D.Disk Same disk.old disk.new }
    ensures untouched { OnDamaged result (Reaches D.Disk Same disk.old disk.new) }
    ensures calls { CallsOrDamaged D.Disk result disk.old disk.new }
{
    if read_gate(disk)? != OPEN {
        return Ok(());
    }
    let (first, count) = read_journal(disk)?;
    repeat(disk, first, count)
}

/// Repeats a checkpoint from the home pages on, by the journal on the disk.
fn repeat<D: Disk>(disk: &mut D, first: u32, count: u32) -> Result<(), Refusal>
    ensures goes { (journal : Journal) (pages : FilePages) → Carries journal pages → SaysCount pages
        → journal.first ≡ first → journal.count ≡ count
        → EveryImage D.Disk (IsHome journal pages) disk.old
        → Goes D.Disk (λ image. Recovers image pages) (IsQuiet pages) result disk.old disk.new }
    ensures gave { (journal : Journal) → IsTrue (D.is_honest disk.old)
        → IsThere first count journal (D.seen disk.old) → (D.seen disk.old).byte GATE ≡ OPEN
        → OnOk result (GaveAll (D.seen disk.old) (D.seen disk.new)) }
    ensures shut { IsTrue (D.is_honest disk.old) → OnOk result ((D.seen disk.new).byte GATE ≢ OPEN) }
    ensures cut { IsTrue (D.is_honest disk.old) → OnOk result (HasNoMore (D.seen disk.new)) }
    ensures calls { CallsDisk D.Disk result disk.old disk.new }
{
    bring_back(disk, first, count)?;
    close_gate(disk)?;
    let pages = read_word(disk, PAGE_COUNT)?;
    cut(disk, pages)
}

/// Brings the copies of the journal on the disk home, and waits until they are on the medium.
fn bring_back<D: Disk>(disk: &mut D, first: u32, count: u32) -> Result<(), Refusal>
    ensures goes { (journal : Journal) (pages : FilePages) → Carries journal pages
        → journal.first ≡ first → journal.count ≡ count
        → EveryImage D.Disk (IsHome journal pages) disk.old
        → Goes D.Disk (IsHome journal pages) (IsClosing journal pages) result disk.old disk.new }
    ensures brought { (journal : Journal) → IsTrue (D.is_honest disk.old)
        → IsThere first count journal (D.seen disk.old)
        → OnOk result (Brought journal (D.seen disk.old) (D.seen disk.new)) }
    ensures calls { CallsDisk D.Disk result disk.old disk.new }
{
    copy_home_pages(disk, first, count)?;
    sync(disk)
}

/// Reads where the journal begins and how many pages it copies, and looks whether it is well formed (94).
pub(crate) fn read_journal<D: Disk>(disk: &mut D) -> Result<(u32, u32), Refusal>
    ensures found { IsTrue (D.is_honest disk.old) → IfOk result
        (λ place. IsThere place.0 place.1 (journal_in (D.seen disk.old)) (D.seen disk.old)) }
    ensures damaged { IsTrue (D.is_honest disk.old) → OnDamaged result
        ((journal : Journal) → Tells (D.seen disk.old) journal → PAGE_SIZE ≤ (D.seen disk.old).size → ⊥) }
    ensures reaches { Reaches D.Disk Same disk.old disk.new }
    ensures calls { CallsOrDamaged D.Disk result disk.old disk.new }
{
    let first = read_word(disk, FIELDS)?;
    let count = read_word(disk, FIELDS + 4)?;
    if !is_inside(disk, first, count) {
        return Err(Refusal::DamagedFile);
    }
    check_numbers(disk, first, count)?;
    Ok((first, count))
}

/// Whether page 0 and all pages of a journal lie in the file.
fn is_inside<D: Disk>(disk: &D, first: u32, count: u32) -> bool
    ensures { IsTrue (D.is_honest disk.now) → (IsTrue result ↔ IsInside first count (D.seen disk.now)) }
{
    let end = match count {
        0 => 1,
        _ => u64::from(first) + u64::from(pages_of_numbers(count)) + u64::from(count),
    };
    end <= u64::from(disk.pages())
}

/// Looks whether the numbers of a journal are in order, none twice, and of pages before it (94).
fn check_numbers<D: Disk>(disk: &mut D, first: u32, count: u32) -> Result<(), Refusal>
    ensures sound { IsTrue (D.is_honest disk.old) → OnOk result
        (Ascends count (number_in (D.seen disk.old) first) × AreBelow first count (number_in (D.seen disk.old) first)) }
    ensures damaged { IsTrue (D.is_honest disk.old) → OnDamaged result (Ascends count (number_in (D.seen disk.old) first)
        → AreBelow first count (number_in (D.seen disk.old) first) → ⊥) }
    ensures reaches { Reaches D.Disk Same disk.old disk.new }
    ensures calls { CallsOrDamaged D.Disk result disk.old disk.new }
{
    let start = PAGE_SIZE as u64 * u64::from(first);
    let mut least = 0;
    for place in 0..count {
        let number = u64::from(read_word(disk, start + 4 * u64::from(place))?);
        if number < least || number >= u64::from(first) {
            return Err(Refusal::DamagedFile);
        }
        least = number + 1;
    }
    Ok(())
}

/// Copies the pages of a journal over their home pages.
fn copy_home_pages<D: Disk>(disk: &mut D, first: u32, count: u32) -> Result<(), Refusal>
    ensures reaches { (journal : Journal) → IsTrue (D.is_honest disk.old)
        → IsThere first count journal (D.seen disk.old)
        → Reaches D.Disk (KeepsWhere (IsLeftAlone journal.count journal.number)) disk.old disk.new }
    ensures written { (journal : Journal) → IsTrue (D.is_honest disk.old)
        → IsThere first count journal (D.seen disk.old)
        → OnOk result (HasHome journal.count journal.number journal.copy (D.seen disk.new)) }
    ensures no_longer { (journal : Journal) → IsTrue (D.is_honest disk.old)
        → IsThere first count journal (D.seen disk.old) → (D.seen disk.new).size ≤ (D.seen disk.old).size }
    ensures calls { CallsDisk D.Disk result disk.old disk.new }
{
    let numbers = PAGE_SIZE as u64 * u64::from(first);
    let copies = u64::from(first) + u64::from(pages_of_numbers(count));
    for place in 0..count {
        let place = u64::from(place);
        copy_home_page(disk, numbers + 4 * place, copies + place)?;
    }
    Ok(())
}

/// Copies one page of a journal over its home page, whose number is read at an offset.
fn copy_home_page<D: Disk>(disk: &mut D, number_at: u64, copy: u64) -> Result<(), Refusal>
    requires { copy < 2 ^ 40 }
    ensures written { IsTrue (D.is_honest disk.old) → OnOk result
        (HasHomeBytes (word_at (D.seen disk.old).byte number_at)
        (λ j. (D.seen disk.old).byte (PAGE_SIZE * copy + j)) (D.seen disk.new)) }
    ensures reaches { IsTrue (D.is_honest disk.old) → Reaches D.Disk
        (KeepsWhere (IsNotInPage (word_at (D.seen disk.old).byte number_at))) disk.old disk.new }
    ensures no_longer { IsTrue (D.is_honest disk.old) → (D.seen disk.new).size
        ≤ max (D.seen disk.old).size (PAGE_SIZE * word_at (D.seen disk.old).byte number_at + PAGE_SIZE) }
    ensures calls { CallsDisk D.Disk result disk.old disk.new }
{
    let mut page = Page::new();
    let number = read_word(disk, number_at)?;
    read_page(disk, copy, &mut page)?;
    write_home_page(disk, number, &page)
}
