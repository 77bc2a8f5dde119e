//! Page 0: how many pages the file has, its free list, and where the catalogue begins.
//!
//! The page is the pager's own. The layers above set the catalogue's place in it, and nothing else.

ghost use Rattle.std.specs.Prelude.{◌≡◌, ◌+◌, ◌≤◌, ℕ, length, IfSome, IfNone, IsTrue, ◌↔◌};
ghost use Rattle.rs_page.specs.declared.file_header.FileHeader.{FileHeader};
ghost use Rattle.rs_page.specs.declared.header.PageKind.TheVariants.{Header};
ghost use Rattle.rs_page.specs.Number.{number_at};
ghost use Rattle.rs_page.specs.Header.{IsHeader};
ghost use Rattle.rs_page.specs.FileHeader.{IsFileHeader, HasMarks, EndsInZeros};

use crate::bytes::{are_zeros_from, number_of_four, number_of_one, number_of_two, put_four};
use crate::header::{PageHeader, PageKind};
use crate::number::PageNumber;
use crate::page::{PAGE_SIZE, Page};

/// The number at offset 16 of page 0: the bytes of `ROAD`.
pub const MAGIC: u32 = 0x524F_4144;

/// The number at offset 20: the bytes of `SEG1`.
pub const MAGIC_END: u32 = 0x5345_4731;

/// The format of the file, at offset 24.
pub const FORMAT: u32 = 1;

/// The offset of the byte that says whether the file is open. No page of the pager's maps has it.
pub const FLAG_OFFSET: usize = 28;

/// Where the fields of page 0 end. Zeros follow.
pub const FIELDS_END: usize = 52;

/// The fields of page 0.
#[derive(Clone, Copy, PartialEq, Eq, Debug)]
pub struct FileHeader {
    /// How many pages the file has.
    pub pages: u32,
    /// The first page of the free list; 0: it is empty.
    pub first_free: PageNumber,
    /// How many pages the free list has.
    pub free_pages: u32,
    /// The first page of the catalogue; 0: there is none.
    pub catalogue: PageNumber,
    /// The bytes of the catalogue.
    pub catalogue_length: u32,
}

impl FileHeader {
    /// The fields of a file of page 0 and the directory alone.
    pub fn empty() -> FileHeader
        ensures { result ≡ record { pages = 2; first_free = 0; free_pages = 0; catalogue = 0; catalogue_length = 0 } }
    {
        FileHeader {
            pages: 2,
            first_free: PageNumber::new(0),
            free_pages: 0,
            catalogue: PageNumber::new(0),
            catalogue_length: 0,
        }
    }

    /// Reads page 0; none where it is no header. The byte of the open flag is not looked at.
    pub fn read(page: &[u8]) -> Option<FileHeader>
        requires { length page.now ≡ PAGE_SIZE }
        ensures found { IfSome result (IsFileHeader page.now) }
        ensures none { IfNone result ((header : FileHeader) → IsFileHeader page.now header → ⊥) }
    {
        let first = PageHeader::read(page)?;
        if first != first_header() || !has_marks(page) || !ends_in_zeros(page) {
            return None;
        }
        Some(FileHeader {
            pages: number_of_four(page, 32),
            first_free: PageNumber::new(number_of_four(page, 36)),
            free_pages: number_of_four(page, 40),
            catalogue: PageNumber::new(number_of_four(page, 44)),
            catalogue_length: number_of_four(page, 48),
        })
    }

    /// Page 0 of these fields, with the byte of the open flag 0.
    pub fn page(&self) -> Page
        ensures header { IsFileHeader result.bytes self.now }
        ensures size { length result.bytes ≡ PAGE_SIZE }
        ensures closed { number_at FLAG_OFFSET 1 result.bytes ≡ 0 }
    {
        let mut page = Page::new();
        put_start(&mut page.bytes);
        self.put_fields(&mut page.bytes);
        page
    }

    /// Puts the fields into page 0.
    fn put_fields(&self, page: &mut [u8])
        requires { length page.old ≡ PAGE_SIZE }
        ensures pages { number_at 32 4 page.new ≡ self.now.pages }
        ensures first_free { number_at 36 4 page.new ≡ self.now.first_free }
        ensures free_pages { number_at 40 4 page.new ≡ self.now.free_pages }
        ensures catalogue { number_at 44 4 page.new ≡ self.now.catalogue }
        ensures catalogue_length { number_at 48 4 page.new ≡ self.now.catalogue_length }
        ensures before { (k n : ℕ) → k + n ≤ 32 → number_at k n page.new ≡ number_at k n page.old }
        ensures after { (k n : ℕ) → FIELDS_END ≤ k → number_at k n page.new ≡ number_at k n page.old }
    {
        put_four(page, 32, self.pages);
        put_four(page, 36, self.first_free.number());
        put_four(page, 40, self.free_pages);
        put_four(page, 44, self.catalogue.number());
        put_four(page, 48, self.catalogue_length);
    }
}

/// Puts what precedes the fields into a page of zeros.
fn put_start(page: &mut [u8])
    requires size { length page.old ≡ PAGE_SIZE }
    requires zeros { (k n : ℕ) → number_at k n page.old ≡ 0 }
    ensures first { IsHeader page.new (record { kind = Header; count = 0; number = 0; next = 0 }) }
    ensures marks { HasMarks page.new }
    ensures closed { number_at FLAG_OFFSET 1 page.new ≡ 0 }
    ensures after { (k n : ℕ) → FIELDS_END ≤ k → number_at k n page.new ≡ 0 }
{
    first_header().write(page);
    put_four(page, 16, MAGIC);
    put_four(page, 20, MAGIC_END);
    put_four(page, 24, FORMAT);
}

/// The first 16 bytes of page 0.
fn first_header() -> PageHeader
    ensures { result ≡ record { kind = Header; count = 0; number = 0; next = 0 } }
{
    PageHeader {
        kind: PageKind::Header,
        count: 0,
        number: PageNumber::new(0),
        next: PageNumber::new(0),
    }
}

/// Whether magic and format are in their places, with zeros after the open flag.
fn has_marks(page: &[u8]) -> bool
    requires { length page.now ≡ PAGE_SIZE }
    ensures { IsTrue result ↔ HasMarks page.now }
{
    number_of_four(page, 16) == MAGIC
        && number_of_four(page, 20) == MAGIC_END
        && number_of_four(page, 24) == FORMAT
        && number_of_two(page, 29) == 0
        && number_of_one(page, 31) == 0
}

/// Whether there are zeros after the fields.
fn ends_in_zeros(page: &[u8]) -> bool
    requires { length page.now ≡ PAGE_SIZE }
    ensures { IsTrue result ↔ EndsInZeros page.now }
{
    are_zeros_from(page, FIELDS_END)
}
