//! Page 0 of a file of version 2, and of one of version 1: the fields, and zeros after them but for the gate and the journal's fields.

ghost use Rattle.std.specs.Prelude.{◌≡◌, ◌+◌, ◌≤◌, ℕ, length, IfSome, IfNone, IsTrue, ◌↔◌};
ghost use Rattle.rs_page.specs.declared.file_header.FileHeader.{FileHeader};
ghost use Rattle.rs_page.specs.declared.header.PageKind.TheVariants.{Header};
ghost use Rattle.rs_journal.specs.declared.limits.TheConstants.{GATE};
ghost use Rattle.rs_page.specs.Number.{number_at};
ghost use Rattle.rs_pager.specs.FirstHeader.{IsFirstHeader, HasFirstMarks};
ghost use Rattle.rs_pager.specs.SecondHeader.{IsSecondHeader, HasSecondMarks, EndsInOwnZeros};

use rs_journal::limits::{FIELDS_END as JOURNAL_END, GATE, OPEN};
use rs_page::bytes::{are_zeros_from, number_of_four, number_of_one, number_of_two, put_four};
use rs_page::file_header::{FIELDS_END, FORMAT, MAGIC, MAGIC_END};
use rs_page::{FLAG_OFFSET, FileHeader, PAGE_SIZE, Page, PageHeader, PageKind, PageNumber};

/// The format of a file of version 2, at offset 24.
pub const SECOND_FORMAT: u32 = 2;

/// Reads page 0; none where it is no header. The gate and the journal's fields are not looked at.
pub fn read_second_header(page: &[u8]) -> Option<FileHeader>
    requires { length page.now ≡ PAGE_SIZE }
    ensures found { IfSome result (IsSecondHeader page.now) }
    ensures none { IfNone result ((header : FileHeader) → IsSecondHeader page.now header → ⊥) }
{
    let first = PageHeader::read(page)?;
    if first != first_header() || !has_marks(page) || !ends_in_zeros(page) {
        return None;
    }
    Some(fields_of(page))
}

/// Reads page 0 of a file of version 1; none where it is no header, and where the gate is open. The journal's fields are not looked at:
/// they may have been written by a first checkpoint that was stopped.
pub fn read_first_header(page: &[u8]) -> Option<FileHeader>
    requires { length page.now ≡ PAGE_SIZE }
    ensures found { IfSome result (IsFirstHeader page.now) }
    ensures none { IfNone result ((header : FileHeader) → IsFirstHeader page.now header → ⊥) }
{
    let first = PageHeader::read(page)?;
    if first != first_header() || !has_first_marks(page) || !ends_in_zeros(page) {
        return None;
    }
    Some(fields_of(page))
}

/// Page 0 of these fields, with zeros for the gate and the journal's fields.
pub fn second_page(fields: &FileHeader) -> Page
    ensures header { IsSecondHeader result.bytes fields.now }
    ensures size { length result.bytes ≡ PAGE_SIZE }
    ensures own { (k : ℕ) → GATE ≤ k → number_at k 1 result.bytes ≡ 0 }
{
    let mut page = fields.page();
    put_four(&mut page.bytes, 24, SECOND_FORMAT);
    page
}

/// The first 16 bytes of page 0.
fn first_header() -> PageHeader
    ensures { result ≡ record { kind = Header; count = 0; number = 0; next = 0 } }
{
    PageHeader {
        kind: PageKind::Header,
        count: 0,
        number: PageNumber::new(0),
        next: PageNumber::new(0),
    }
}

/// The fields that page 0 says.
fn fields_of(page: &[u8]) -> FileHeader
    requires { length page.now ≡ PAGE_SIZE }
    ensures pages { number_at 32 4 page.now ≡ result.pages }
    ensures first_free { number_at 36 4 page.now ≡ result.first_free }
    ensures free_pages { number_at 40 4 page.now ≡ result.free_pages }
    ensures catalogue { number_at 44 4 page.now ≡ result.catalogue }
    ensures catalogue_length { number_at 48 4 page.now ≡ result.catalogue_length }
{
    FileHeader {
        pages: number_of_four(page, 32),
        first_free: PageNumber::new(number_of_four(page, 36)),
        free_pages: number_of_four(page, 40),
        catalogue: PageNumber::new(number_of_four(page, 44)),
        catalogue_length: number_of_four(page, 48),
    }
}

/// Whether magic and the format of version 1 are in their places, with zeros after the open flag, and the gate is not open.
fn has_first_marks(page: &[u8]) -> bool
    requires { length page.now ≡ PAGE_SIZE }
    ensures { IsTrue result ↔ HasFirstMarks page.now }
{
    number_of_four(page, 16) == MAGIC
        && number_of_four(page, 20) == MAGIC_END
        && number_of_four(page, 24) == FORMAT
        && number_of_two(page, 29) == 0
        && number_of_one(page, 31) == 0
        && number_of_one(page, GATE as usize) != OPEN
}

/// Whether magic and format are in their places, with zeros after them.
fn has_marks(page: &[u8]) -> bool
    requires { length page.now ≡ PAGE_SIZE }
    ensures { IsTrue result ↔ HasSecondMarks page.now }
{
    number_of_four(page, 16) == MAGIC
        && number_of_four(page, 20) == MAGIC_END
        && number_of_four(page, 24) == SECOND_FORMAT
        && number_of_one(page, FLAG_OFFSET) == 0
        && number_of_two(page, 29) == 0
        && number_of_one(page, 31) == 0
}

/// Whether there are zeros after the fields, but for the gate and the journal's fields.
fn ends_in_zeros(page: &[u8]) -> bool
    requires { length page.now ≡ PAGE_SIZE }
    ensures { IsTrue result ↔ EndsInOwnZeros page.now }
{
    are_zeros_from(&page[..GATE as usize], FIELDS_END) && are_zeros_from(page, JOURNAL_END as usize)
}
