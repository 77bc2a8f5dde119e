//! The calls of a page store that work on pages.
//!
//! Each clause about pages has as its premise that the store is tied to an honest disk. What is said of numbers,
//! fields and held changes has none.

ghost use Rattle.std.specs.Prelude.{◌≡◌, ◌≤◌, ◌<◌, ◌⊎◌, ℕ, true, IfOk, IfErr, OnErr, OnOk, Err};
ghost use Rattle.rs_page.specs.Follow.{MayFollow};
ghost use Rattle.rs_page.specs.Header.{page_kind};
ghost use Rattle.rs_pages.specs.FreeList.{IsFreePage};
ghost use Rattle.rs_pages.specs.Store.{Store, Rests};
ghost use Rattle.rs_pages.specs.Lending.{page_rests, page_edits, RestsAfter};
ghost use Rattle.rs_pages.specs.Uses.{Lends, RefusesToLend, RefusesToEdit, AllocatesPage, RefusesPage, ReleasesPage, RefusesToRelease, SetsCatalogue};
ghost use Rattle.std.specs.Borrow.{sem};

use rs_page::{ContentKind, Page, PageNumber};
use rs_refusal::Refusal;

/// The least number of pages that a store may be limited to.
pub const LEAST_LIMIT: u32 = 3;

/// The greatest number of pages of a file.
pub const GREATEST_LIMIT: u32 = 1_048_576;

/// Numbered pages after page 0, changed together or not at all.
///
/// A page that is lent is in use. Any number may be asked for, since it may come from a damaged page.
pub trait Pages {
    /// The working pages, what is held of them, and counts.
    ghost store: { Self → Store };

    /// The store is tied to an honest disk, so that its pages are known.
    ghost is_tied: { Self → Type 0 };

    /// What each call keeps of what lies below the working pages, such as the committed ones.
    ghost keeps: { Self → Self → Type 0 };

    /// Lends the working page with this number. It is refused with 94 where no such page is in use, or it is no
    /// held change and its first 16 bytes don't fit it; with 91 where it couldn't be read.
    fn page(&mut self, number: PageNumber) -> Result<&Page, Refusal>
        ensures* rests { sem 𝓛 (page_rests Self.row is_tied store keeps self.entry result) }
        ensures lends { IfOk result (λ page. Lends (is_tied self.old) (store self.old) number page.now.bytes) }
        ensures refused { IfErr result (RefusesToLend (is_tied self.old) (store self.old) number) };

    /// Lends the working page with this number, to be changed. It is refused as `page` refuses it, and with 90
    /// where there is no memory for its copy. A page that has a copy is not refused.
    fn page_mut(&mut self, number: PageNumber) -> Result<&mut Page, Refusal>
        requires { (store self.old).is_begun ≡ true }
        ensures* edits { sem 𝓛 (page_edits Self.row is_tied store keeps self.entry number result) }
        ensures lends { IfOk result (λ page. Lends (is_tied self.old) (store self.old) number page.now.bytes) }
        ensures refused { IfErr result (RefusesToEdit (is_tied self.old) (store self.old) number) };

    /// Brings a page into use, with this kind and nothing in it: the first of the free list, else one after the
    /// last. It is refused with 92 where the file is full, with 94 where the free list is none, with 90 and 91.
    fn allocate(&mut self, kind: ContentKind) -> Result<PageNumber, Refusal>
        requires { (store self.old).is_begun ≡ true }
        ensures allocates { IfOk result (λ number.
            AllocatesPage (is_tied self.old) (page_kind kind) number (store self.old) (store self.new)) }
        ensures refused { IfErr result (λ why.
            RefusesPage (is_tied self.old) why (store self.old) (store self.new)) }
        ensures keeps { keeps self.old self.new };

    /// Puts a page in use into the free list. It is refused with 94 where `page` would be, for page 1, and where the free
    /// list can't be longer; with 90 and 91. The page stays in use then.
    fn release(&mut self, number: PageNumber) -> Result<(), Refusal>
        requires { (store self.old).is_begun ≡ true }
        ensures releases { OnOk result
            (ReleasesPage (is_tied self.old) number (store self.old) (store self.new)) }
        ensures rests { OnErr result (Rests (is_tied self.old) (store self.old) (store self.new)) }
        ensures refused { IfErr result (λ why.
            RefusesToRelease (is_tied self.old) number why (store self.old) (store self.new)) }
        ensures keeps { keeps self.old self.new };

    /// How many pages the file has, page 0 among them.
    fn count(&self) -> u32
        ensures count { result ≡ (store self.now).map.fields.pages }
        ensures least { 2 ≤ result }
        ensures within { result ≤ (store self.now).limit };

    /// The first page of the free list (0: it is empty), and how many pages it has by what page 0 says.
    fn free_list(&self) -> (PageNumber, u32)
        ensures first { result.0 ≡ (store self.now).map.fields.first_free }
        ensures count { result.1 ≡ (store self.now).map.fields.free_pages };

    /// The free page that follows this one in the free list; 0: it is the last. It is refused with 94 where the
    /// page with this number is no free page that fits it, with 91 where it couldn't be read.
    fn next_free(&mut self, number: PageNumber) -> Result<PageNumber, Refusal>
        ensures free { is_tied self.old → IfOk result (IsFreePage (store self.old).map number) }
        ensures range { OnOk result ((1 < number) × (number < (store self.old).map.fields.pages)) }
        ensures follows { IfOk result (λ next. MayFollow next (store self.old).map.fields.pages) }
        ensures refused { IfErr result (λ why. (why ≡ Refusal.Disk) ⊎ (why ≡ Refusal.DamagedFile)) }
        ensures damaged { is_tied self.old → result ≡ Err Refusal.DamagedFile
            → (next : ℕ) → IsFreePage (store self.old).map number next → ⊥ }
        ensures rests { RestsAfter is_tied store keeps result self.old self.new };

    /// Where the catalogue begins (0: there is none), and its bytes.
    fn catalogue(&self) -> (PageNumber, u32)
        ensures first { result.0 ≡ (store self.now).map.fields.catalogue }
        ensures length { result.1 ≡ (store self.now).map.fields.catalogue_length };

    /// Sets where the catalogue begins, and its bytes. Nothing else changes.
    fn set_catalogue(&mut self, first: PageNumber, length: u32)
        requires { (store self.old).is_begun ≡ true }
        ensures sets { SetsCatalogue (is_tied self.old) first length (store self.old) (store self.new) }
        ensures keeps { keeps self.old self.new };

    /// Nothing that happens keeps all.
    ghost keeps_refl: { (s : Self) → keeps s s };

    /// What one call keeps and then another, both keep.
    ghost keeps_trans: { (a b c : Self) → keeps a b → keeps b c → keeps a c };

    /// A tied store stays tied.
    ghost keeps_tied: { (a b : Self) → keeps a b → is_tied a → is_tied b };
}
