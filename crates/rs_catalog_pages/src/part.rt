//! Reads and fills one page of the catalogue: the bytes that it holds, and the page that follows.

ghost use Rattle.std.specs.Prelude.{◌≡◌, ◌↔◌, ◌⊎◌, ◌≤◌, ◌<◌, ◌+◌, ◌++◌, ℕ, IfOk, IfErr, IfSome, IfNone, IsTrue, Err, length, take, drop, List};
ghost use Rattle.rs_page.specs.declared.page.TheConstants.{PAGE_SIZE};
ghost use Rattle.rs_page.specs.Header.{IsHeader};
ghost use Rattle.rs_page.specs.Number.{number_at};
ghost use Rattle.rs_page.specs.declared.header.TheConstants.{HEADER_SIZE, PAGE_ROOM};
ghost use Rattle.rs_catalog_pages.specs.Chain.{catalogue_header};
ghost use Rattle.rs_catalog_pages.specs.Parts.{content, IsPart, HasNoPart, AppendsPart};

use rs_page::{HEADER_SIZE, PAGE_SIZE, Page, PageHeader, PageKind, PageNumber};
use rs_refusal::Refusal;

/// What follows the header of a page.
pub(crate) fn content(page: &Page) -> &[u8]
    ensures bytes { result.now ≡ content page.now.bytes }
    ensures size { length result.now ≡ PAGE_ROOM }
    ensures page { length page.now.bytes ≡ PAGE_SIZE }
{
    after_header(&page.bytes)
}

fn after_header(bytes: &[u8]) -> &[u8]
    requires { HEADER_SIZE ≤ length bytes.now }
    ensures bytes { result.now ≡ content bytes.now }
    ensures size { length result.now + HEADER_SIZE ≡ length bytes.now }
{
    &bytes[HEADER_SIZE..]
}

/// The page that follows this one of the catalogue, and its bytes; none where it is no such page with this number in a
/// file of so many pages.
pub(crate) fn part_of(page: &Page, number: PageNumber, pages: u32) -> Option<(PageNumber, &[u8])>
    ensures found { IfSome result (λ part. IsPart page.now.bytes number part.0 pages part.1.now) }
    ensures none { IfNone result ((next : ℕ) (part : List ℕ) → IsPart page.now.bytes number next pages part → ⊥) }
{
    let bytes = content(page);
    let header = page.header()?;
    if header.kind != PageKind::Catalogue || !header.fits(number, pages) {
        return None;
    }
    Some((header.next, &bytes[..usize::from(header.count)]))
}

/// Whether this is a page of the catalogue with this number, in a file of so many pages, that holds these bytes and is followed
/// by this page.
pub(crate) fn is_part(
    page: &Page,
    number: PageNumber,
    next: PageNumber,
    pages: u32,
    part: &[u8],
) -> bool
    ensures { IsTrue result ↔ IsPart page.now.bytes number next pages part.now }
{
    match part_of(page, number, pages) {
        Some((follows, held)) => follows == next && held == part,
        None => false,
    }
}

/// Appends the bytes of this page of the catalogue, and answers the page that follows. It is refused with 90
/// for want of memory, and with 94 only where this is no such page, or has more than so many bytes.
pub(crate) fn append_part(
    page: &Page,
    number: PageNumber,
    pages: u32,
    left: usize,
    bytes: &mut Vec<u8>,
) -> Result<PageNumber, Refusal>
    ensures appended { IfOk result (λ next. AppendsPart page.now.bytes number next pages left bytes.old.items bytes.new.items) }
    ensures none { result ≡ Err Refusal.DamagedFile → HasNoPart page.now.bytes number pages left }
    ensures refused { IfErr result (λ why. (why ≡ Refusal.OutOfMemory) ⊎ (why ≡ Refusal.DamagedFile)) }
{
    match part_of(page, number, pages) {
        Some((next, part)) if part.len() <= left => {
            bytes.extend_from_slice(part)?;
            Ok(next)
        }
        _ => Err(Refusal::DamagedFile),
    }
}

/// Fills a page of the catalogue. The bytes past these stay.
pub(crate) fn put_part(page: &mut Page, number: PageNumber, next: PageNumber, part: &[u8])
    requires { length part.now ≤ PAGE_ROOM }
    ensures header { IsHeader page.new.bytes (catalogue_header (length part.now) number next) }
    ensures size { length page.new.bytes ≡ PAGE_SIZE }
    ensures bytes { take (length part.now) (content page.new.bytes) ≡ part.now }
{
    page.put_header(PageHeader {
        kind: PageKind::Catalogue,
        count: part.len() as u16,
        number,
        next,
    });
    put_content(&mut page.bytes, part);
}

/// Puts bytes after the header. The header stays.
pub(crate) fn put_content(bytes: &mut [u8], part: &[u8])
    requires size { length bytes.old ≡ PAGE_SIZE }
    requires fits { length part.now ≤ PAGE_ROOM }
    ensures before { (k n : ℕ) → k + n ≤ HEADER_SIZE → number_at k n bytes.new ≡ number_at k n bytes.old }
    ensures bytes { take (length part.now) (content bytes.new) ≡ part.now }
    ensures after { drop (length part.now) (content bytes.new) ≡ drop (length part.now) (content bytes.old) }
{
    let end = HEADER_SIZE + part.len();
    bytes[HEADER_SIZE..end].copy_from_slice(part);
}
