//! A page in memory.
//!
//! It has as many bytes as a page of the disk. A new one has zeros alone, or a header and zeros after it; its
//! kind, and whether it is free, is read from its first bytes.

ghost use Rattle.std.specs.Prelude.{◌≡◌, ◌≤◌, ℕ, IfSome, IfNone, IsTrue, ◌↔◌, length};
ghost use Rattle.rs_page.specs.Number.{number_at};
ghost use Rattle.rs_page.specs.Header.{IsHeader};
ghost use Rattle.rs_page.specs.PageBytes.{IsBlank, IsFit, IsFreeLink, is_free};
ghost use Rattle.rs_page.specs.declared.header.PageHeader.{PageHeader};

use crate::bytes::{are_zeros_from, number_of_one};
use crate::header::{HEADER_SIZE, PageHeader, PageKind};
use crate::number::PageNumber;

/// How many bytes a page has.
pub const PAGE_SIZE: usize = 4096;

/// The bytes of a page.
#[derive(Clone, Copy)]
pub struct Page {
    pub bytes: [u8; PAGE_SIZE],
}

impl Page {
    /// A page of zeros.
    pub fn new() -> Page
        ensures zeros { (k n : ℕ) → number_at k n result.bytes ≡ 0 }
        ensures size { length result.bytes ≡ PAGE_SIZE }
    {
        Page {
            bytes: [0; PAGE_SIZE],
        }
    }

    /// A page with a header of this kind and zeros after it.
    pub fn blank(kind: PageKind, number: PageNumber, next: PageNumber) -> Page
        ensures { IsBlank result.bytes kind number next }
    {
        let mut page = Page::new();
        page.put_header(PageHeader {
            kind,
            count: 0,
            number,
            next,
        });
        page
    }

    /// Puts a header into the page. The rest of the page stays.
    pub fn put_header(&mut self, header: PageHeader)
        ensures header { IsHeader self.new.bytes header }
        ensures rest { (k n : ℕ) → HEADER_SIZE ≤ k
            → number_at k n self.new.bytes ≡ number_at k n self.old.bytes }
        ensures size { length self.new.bytes ≡ PAGE_SIZE }
    {
        header.write(&mut self.bytes);
    }

    /// The header of the page; none where its first 16 bytes are no header.
    pub fn header(&self) -> Option<PageHeader>
        ensures found { IfSome result (IsHeader self.now.bytes) }
        ensures none { IfNone result ((header : PageHeader) → IsHeader self.now.bytes header → ⊥) }
    {
        PageHeader::read(&self.bytes)
    }

    /// Whether the page's kind says that it is free.
    pub fn is_free(&self) -> bool
        ensures free { result ≡ is_free self.now.bytes }
        ensures size { length self.now.bytes ≡ PAGE_SIZE }
    {
        number_of_one(&self.bytes, 0) == PageKind::Free.number()
    }

    /// Whether the page begins with a header that fits this number in a file of so many pages.
    pub fn fits(&self, number: PageNumber, pages: u32) -> bool
        ensures { IsTrue result ↔ IsFit self.now.bytes number pages }
    {
        match self.header() {
            Some(header) => header.fits(number, pages),
            None => false,
        }
    }

    /// The page that follows this free one in the free list; none where this is no page of one, with this number in a
    /// file of so many pages: its header is another or doesn't fit, or other bytes than zeros follow.
    pub fn free_link(&self, number: PageNumber, pages: u32) -> Option<PageNumber>
        ensures found { IfSome result (λ next. IsFreeLink self.now.bytes number next pages) }
        ensures none { IfNone result ((next : ℕ) → IsFreeLink self.now.bytes number next pages → ⊥) }
    {
        match self.header() {
            Some(header)
                if header.kind == PageKind::Free
                    && header.fits(number, pages)
                    && are_zeros_from(&self.bytes, HEADER_SIZE) => { Some(header.next) }
            _ => None,
        }
    }
}
