//! Pages in memory, for tests: no disk, and changes are always begun.
//!
//! Every page is held as a working copy, so nothing is read and no page that is in use is refused.

ghost use Rattle.std.specs.Prelude.{◌≡◌, ◌≢◌, ◌≤◌, ◌<◌, ◌⊎◌, ℕ, true, false, ⊤, Some, List, IfOk, IfErr, OnOk, OnErr, vec_len, IsOkUnless, length};
ghost use Rattle.rs_page.specs.declared.page.TheConstants.{PAGE_SIZE};
ghost use Rattle.rs_page.specs.declared.header.PageKind.{PageKind};
ghost use Rattle.rs_pages.specs.declared.pages.TheConstants.{GREATEST_LIMIT, LEAST_LIMIT};

use crate::pages::{GREATEST_LIMIT, LEAST_LIMIT, Pages};
use rs_page::{ContentKind, FileHeader, Page, PageKind, PageNumber};
use rs_refusal::Refusal;
use std::alloc::{AllocError, Global};

/// Pages in memory.
#[derive(Drop)]
pub struct PlainPages {
    /// Page 0's place is taken by a page that is never lent.
    pages: Vec<Page>,
    fields: FileHeader,
    limit: u32,
    full_refusals: u64,
    ghost counted: { fields.pages ≡ vec_len pages },
    ghost directory: { 2 ≤ fields.pages },
    ghost within: { fields.pages ≤ limit },
    ghost limited: { limit ≤ GREATEST_LIMIT },
}

impl PlainPages {
    ghost use Rattle.rs_page.specs.PageBytes.{is_free};
    ghost use Rattle.rs_pages.specs.Plain.{listed_page, plain_store};
    ghost use Rattle.rs_pages.specs.PageMap.{IsEmptyFile};
    ghost use Rattle.rs_pages.specs.FreeList.{IsFreePage};
    ghost use Rattle.rs_pages.specs.Uses.{AllocatesPage, RefusesPage};

    /// Page 0 and the directory of an empty file. `limit` is the greatest number of pages.
    pub fn new(alloc: Global, limit: u32) -> Result<PlainPages, AllocError>
        requires least { LEAST_LIMIT ≤ limit }
        requires greatest { limit ≤ GREATEST_LIMIT }
        ensures empty { IfOk result (λ pages. IsEmptyFile (plain_store pages).map) }
        ensures limit { IfOk result (λ pages. (plain_store pages).limit ≡ limit) }
        ensures full_refusals { IfOk result (λ pages. (plain_store pages).full_refusals ≡ 0) }
    {
        let none = PageNumber::new(0);
        let mut pages = Vec::new(alloc);
        pages.push(Page::new())?;
        pages.push(Page::blank(PageKind::Directory, PageNumber::new(1), none))?;
        Ok(PlainPages {
            pages,
            fields: FileHeader::empty(),
            limit,
            full_refusals: 0,
        })
    }

    /// Where the page with this number is, if it is in use.
    fn used(&self, number: PageNumber) -> Result<usize, Refusal>
        ensures index { IfOk result (λ index. index ≡ number) }
        ensures after { OnOk result (0 < number) }
        ensures below { OnOk result (number < vec_len self.now.pages) }
        ensures in_use { OnOk result ((page : List ℕ) → listed_page self.now.pages.items number ≡ Some page
            → (is_free page ≡ false) × (length page ≡ PAGE_SIZE)) }
        ensures refused { IsOkUnless result Refusal.DamagedFile }
        ensures free { OnErr result ((page : List ℕ) → listed_page self.now.pages.items number ≡ Some page
            → is_free page ≡ true) }
    {
        let index = number.number() as usize;
        if index == 0 || index >= self.pages.len() || self.pages[index].is_free() {
            return Err(Refusal::DamagedFile);
        }
        Ok(index)
    }

    /// The free page that follows this one in the free list.
    fn free_after(&self, number: PageNumber) -> Result<PageNumber, Refusal>
        ensures free { IfOk result (IsFreePage (plain_store self.now).map number) }
        ensures none { OnErr result ((next : ℕ) → IsFreePage (plain_store self.now).map number next → ⊥) }
        ensures refused { IsOkUnless result Refusal.DamagedFile }
    {
        let index = number.number() as usize;
        if index == 0 || index >= self.pages.len() {
            return Err(Refusal::DamagedFile);
        }
        match self.pages[index].free_link(number, self.fields.pages) {
            Some(next) => Ok(next),
            None => Err(Refusal::DamagedFile),
        }
    }

    /// A page after the last one.
    #[tactic(auto, unfolding(rs_refusal::specs::Counts::counted_on))]
    fn allocate_last(&mut self, kind: PageKind) -> Result<PageNumber, Refusal>
        requires { self.old.fields.first_free ≡ 0 }
        ensures allocates { IfOk result (λ number.
            AllocatesPage ⊤ kind number (plain_store self.old) (plain_store self.new)) }
        ensures refused { IfErr result (λ why. RefusesPage ⊤ why (plain_store self.old) (plain_store self.new)) }
    {
        if self.fields.pages >= self.limit {
            self.full_refusals = self.full_refusals.saturating_add(1);
            return Err(Refusal::FileFull);
        }
        let number = PageNumber::new(self.fields.pages);
        let page = Page::blank(kind, number, PageNumber::new(0));
        self.pages.push(page).map_err(|_| Refusal::OutOfMemory)?;
        self.fields.pages += 1;
        Ok(number)
    }

    /// The first page of the free list.
    fn allocate_free(&mut self, kind: PageKind) -> Result<PageNumber, Refusal>
        requires { self.old.fields.first_free ≢ 0 }
        ensures allocates { IfOk result (λ number.
            AllocatesPage ⊤ kind number (plain_store self.old) (plain_store self.new)) }
        ensures refused { IfErr result (λ why. RefusesPage ⊤ why (plain_store self.old) (plain_store self.new)) }
    {
        let number = self.fields.first_free;
        let next = self.free_after(number)?;
        if self.fields.free_pages == 0 {
            return Err(Refusal::DamagedFile);
        }
        self.pages[number.number() as usize] = Page::blank(kind, number, PageNumber::new(0));
        self.fields.first_free = next;
        self.fields.free_pages -= 1;
        Ok(number)
    }
}

impl Pages for PlainPages {
    ghost use Rattle.rs_pages.specs.Plain.{plain_store};

    ghost store = { plain_store };

    ghost is_tied = { λ _. ⊤ };

    ghost keeps = { λ _ _. ⊤ };

    ghost keeps_refl = { λ _. tt };

    ghost keeps_trans = { λ _ _ _ _ _. tt };

    ghost keeps_tied = { λ _ _ _ _. tt };

    fn page(&mut self, number: PageNumber) -> Result<&Page, Refusal> {
        match self.used(number) {
            Ok(index) => Ok(&self.pages[index]),
            Err(refusal) => Err(refusal),
        }
    }

    fn page_mut(&mut self, number: PageNumber) -> Result<&mut Page, Refusal> {
        match self.used(number) {
            Ok(index) => Ok(&mut self.pages[index]),
            Err(refusal) => Err(refusal),
        }
    }

    fn allocate(&mut self, kind: ContentKind) -> Result<PageNumber, Refusal> {
        if self.fields.first_free.number() == 0 {
            self.allocate_last(kind.kind())
        } else {
            self.allocate_free(kind.kind())
        }
    }

    fn release(&mut self, number: PageNumber) -> Result<(), Refusal> {
        if number.number() == 1 {
            return Err(Refusal::DamagedFile);
        }
        let index = self.used(number)?;
        if self.fields.free_pages >= self.fields.pages {
            return Err(Refusal::DamagedFile);
        }
        self.pages[index] = Page::blank(PageKind::Free, number, self.fields.first_free);
        self.fields.first_free = number;
        self.fields.free_pages += 1;
        Ok(())
    }

    fn count(&self) -> u32 {
        self.fields.pages
    }

    fn free_list(&self) -> (PageNumber, u32) {
        (self.fields.first_free, self.fields.free_pages)
    }

    fn next_free(&mut self, number: PageNumber) -> Result<PageNumber, Refusal> {
        self.free_after(number)
    }

    fn catalogue(&self) -> (PageNumber, u32) {
        (self.fields.catalogue, self.fields.catalogue_length)
    }

    fn set_catalogue(&mut self, first: PageNumber, length: u32) {
        self.fields.catalogue = first;
        self.fields.catalogue_length = length;
    }
}
