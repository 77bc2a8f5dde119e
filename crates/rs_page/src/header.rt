//! The first 16 bytes of a page, the same for each kind.
//!
//! What is written is read back, and bytes that no header writes are refused.

ghost use Rattle.std.specs.Prelude.{◌≡◌, ℕ, ◌≤◌, length, IfSome, IfNone, IsTrue, ◌↔◌};
ghost use Rattle.rs_page.specs.declared.header.PageHeader.{PageHeader};
ghost use Rattle.rs_page.specs.declared.header.PageKind.{PageKind};
ghost use Rattle.rs_page.specs.Number.{number_at};
ghost use Rattle.rs_page.specs.Header.{IsHeader, Fits, kind_number, page_kind};

use crate::bytes::{number_of_four, number_of_one, number_of_two, put_four, put_one, put_two};
use crate::number::PageNumber;
use crate::page::PAGE_SIZE;

/// The bytes of a page's header.
pub const HEADER_SIZE: usize = 16;

/// The bytes of a page after its header.
pub const PAGE_ROOM: usize = PAGE_SIZE - HEADER_SIZE;

/// What a page holds.
#[derive(Clone, Copy, PartialEq, Eq, Debug)]
pub enum PageKind {
    /// Page 0.
    Header,
    /// The cells of a tree.
    Leaf,
    /// The children of a page of a tree.
    Inner,
    /// A part of the catalogue.
    Catalogue,
    /// Nothing: the page is free.
    Free,
    /// Page 1: the roots of the trees.
    Directory,
}

impl PageKind {
    /// The number that stands for the kind in a page, from 1 to 6.
    pub fn number(self) -> u8
        ensures { result ≡ kind_number self }
    {
        match self {
            PageKind::Header => 1,
            PageKind::Leaf => 2,
            PageKind::Inner => 3,
            PageKind::Catalogue => 4,
            PageKind::Free => 5,
            PageKind::Directory => 6,
        }
    }

    /// The kind with this number; none where no kind has it.
    pub fn from_number(number: u8) -> Option<PageKind>
        ensures found { IfSome result (λ kind. kind_number kind ≡ number) }
        ensures none { IfNone result ((kind : PageKind) → kind_number kind ≡ number → ⊥) }
    {
        match number {
            1 => Some(PageKind::Header),
            2 => Some(PageKind::Leaf),
            3 => Some(PageKind::Inner),
            4 => Some(PageKind::Catalogue),
            5 => Some(PageKind::Free),
            6 => Some(PageKind::Directory),
            _ => None,
        }
    }
}

/// What a page may be allocated for.
#[derive(Clone, Copy, PartialEq, Eq, Debug)]
pub enum ContentKind {
    /// The cells of a tree.
    Leaf,
    /// The children of a page of a tree.
    Inner,
    /// A part of the catalogue.
    Catalogue,
}

impl ContentKind {
    /// The kind of a page with this content.
    pub fn kind(self) -> PageKind
        ensures { result ≡ page_kind self }
    {
        match self {
            ContentKind::Leaf => PageKind::Leaf,
            ContentKind::Inner => PageKind::Inner,
            ContentKind::Catalogue => PageKind::Catalogue,
        }
    }
}

/// The first 16 bytes of a page.
#[derive(Clone, Copy, PartialEq, Eq, Debug)]
pub struct PageHeader {
    pub kind: PageKind,
    /// How many cells, entries or bytes the page holds, as its kind says.
    pub count: u16,
    /// The page's own number.
    pub number: PageNumber,
    /// The next page of the catalogue or of the free list. Page 0 is in neither, so 0 says that there is
    /// no next one.
    pub next: PageNumber,
}

impl PageHeader {
    /// Reads the header of a page; none where its first 16 bytes are no header.
    pub fn read(page: &[u8]) -> Option<PageHeader>
        requires { HEADER_SIZE ≤ length page.now }
        ensures found { IfSome result (IsHeader page.now) }
        ensures none { IfNone result ((header : PageHeader) → IsHeader page.now header → ⊥) }
    {
        let kind = PageKind::from_number(number_of_one(page, 0))?;
        if number_of_one(page, 1) != 0 || number_of_four(page, 12) != 0 {
            return None;
        }
        Some(PageHeader {
            kind,
            count: number_of_two(page, 2),
            number: PageNumber::new(number_of_four(page, 4)),
            next: PageNumber::new(number_of_four(page, 8)),
        })
    }

    /// Whether the header fits the page with this number in a file of so many pages, as far as it can be
    /// known without what the page holds.
    pub fn fits(self, number: PageNumber, pages: u32) -> bool
        ensures { IsTrue result ↔ Fits self number pages }
    {
        self.number == number
            && match self.kind {
                PageKind::Header => number.number() == 0
                    && self.count == 0
                    && self.next.number() == 0,
                PageKind::Directory => {
                    number.number() == 1 && self.count == 0 && self.next.number() == 0
                }
                PageKind::Leaf => number.number() > 1 && self.count >= 1 && self.next.number() == 0,
                PageKind::Inner => number.number() > 1
                    && self.count >= 2
                    && self.next.number() == 0,
                PageKind::Catalogue => number.number() > 1
                    && usize::from(self.count) <= PAGE_SIZE - HEADER_SIZE
                    && self.next.may_follow(pages),
                PageKind::Free => {
                    number.number() > 1 && self.count == 0 && self.next.may_follow(pages)
                }
            }
    }

    /// Writes the header into a page. The rest of the page stays.
    pub fn write(&self, page: &mut [u8])
        requires { HEADER_SIZE ≤ length page.old }
        ensures header { IsHeader page.new self.now }
        ensures rest { (k n : ℕ) → HEADER_SIZE ≤ k → number_at k n page.new ≡ number_at k n page.old }
    {
        put_one(page, 0, self.kind.number());
        put_one(page, 1, 0);
        put_two(page, 2, self.count);
        put_four(page, 4, self.number.number());
        put_four(page, 8, self.next.number());
        put_four(page, 12, 0);
    }
}
