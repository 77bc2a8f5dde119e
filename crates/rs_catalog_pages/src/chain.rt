//! Reads the bytes of the catalogue page by page.
//!
//! Each page is marked before it is read, so that none is read twice and reading ends on pages that are no catalogue.

ghost use Rattle.std.specs.Prelude.{◌≡◌, ◌⊎◌, ◌≤◌, ◌+◌, ℕ, IfErr, OnOk, Err, length};
ghost use Rattle.rs_page_owners.specs.Counts.{◌&◌, one_at};
ghost use Rattle.rs_pages.specs.Calls.{DamagedOnlyIf, OnlyReads, Reads};
ghost use Rattle.rs_page_marks.specs.Marks.{taken};
ghost use Rattle.rs_catalog_pages.specs.Chain.{HoldsNoFreshBytes};
ghost use Rattle.rs_catalog_pages.specs.Loading.{ReadsBytes};
ghost use Rattle.rs_catalog_pages.specs.Parts.{ReadsPart, HasNoFreshPart};

use crate::part::append_part;
use rs_page::PageNumber;
use rs_page_marks::Reached;
use rs_pages::Pages;
use rs_refusal::Refusal;
use std::alloc::Global;

/// Marks the pages of the catalogue, and reads its bytes: the pages in their order, and the bytes. It is refused with 90,
/// with 91, and with 94 only where no pages that weren't reached before hold as many bytes as page 0 says. No page changes.
/// Which pages are marked after a refusal is unspecified.
pub(crate) fn read_bytes<P: Pages>(
    alloc: Global,
    pages: &mut P,
    reached: &mut Reached,
) -> Result<(Vec<PageNumber>, Vec<u8>), Refusal>
    ensures rests { OnlyReads P.Pages result pages.old pages.new }
    ensures size { length reached.new ≡ length reached.old }
    ensures reads { Reads P.Pages (λ map read. ReadsBytes map (taken reached.old) (taken reached.new) read.0.items read.1.items)
        result pages.old }
    ensures refused { IfErr result (λ why. (why ≡ Refusal.OutOfMemory) ⊎ (why ≡ Refusal.Disk) ⊎ (why ≡ Refusal.DamagedFile)) }
    ensures damaged { DamagedOnlyIf P.Pages (λ map. HoldsNoFreshBytes map (taken reached.old)) result pages.old }
{
    let (first, total) = pages.catalogue();
    let size = total as usize;
    let mut numbers = Vec::new(alloc);
    let mut bytes = Vec::new(alloc);
    let mut next = first;
    while next.number() != 0 {
        let following = read_part(pages, next, size - bytes.len(), reached, &mut bytes)?;
        numbers.push(next)?;
        next = following;
    }
    if bytes.len() != size {
        return Err(Refusal::DamagedFile);
    }
    Ok((numbers, bytes))
}

/// Marks the page with this number, and appends the bytes of the catalogue that it holds. Answers the page that follows. It
/// is refused with 90, with 91, and with 94 only where the page was reached before, is none of the catalogue, or has more
/// than so many bytes.
fn read_part<P: Pages>(
    pages: &mut P,
    number: PageNumber,
    left: usize,
    reached: &mut Reached,
    bytes: &mut Vec<u8>,
) -> Result<PageNumber, Refusal>
    ensures rests { OnlyReads P.Pages result pages.old pages.new }
    ensures size { length reached.new ≡ length reached.old }
    ensures reads { Reads P.Pages (λ map next. ReadsPart map number next left bytes.old.items bytes.new.items) result pages.old }
    ensures within { OnOk result (length bytes.new.items ≤ length bytes.old.items + left) }
    ensures fresh { OnOk result (taken reached.old number ≡ 0) }
    ensures reaches { OnOk result ((n : ℕ) → taken reached.new n ≡ (taken reached.old & one_at number) n) }
    ensures refused { IfErr result (λ why. (why ≡ Refusal.OutOfMemory) ⊎ (why ≡ Refusal.Disk) ⊎ (why ≡ Refusal.DamagedFile)) }
    ensures damaged { DamagedOnlyIf P.Pages (λ map. HasNoFreshPart map number left (taken reached.old)) result pages.old }
{
    let count = pages.count();
    if !reached.reach(number) {
        return Err(Refusal::DamagedFile);
    }
    match pages.page(number) {
        Ok(page) => append_part(page, number, count, left, bytes),
        Err(refusal) => Err(refusal),
    }
}
