//! The clean pages that are held: a bounded number of pages as the disk has them.
//!
//! A page is read into a spare one that is always there, so a read wants no memory. Before the next read the spare page
//! joins the others, and another takes its place: one that is no longer held, else a new one, or where no more may be held
//! the one used longest ago. Where there is no memory for a new one, the spare page is used again.

ghost use Rattle.std.specs.Prelude.{◌≡◌, ◌≤◌, ◌<◌, ◌+◌, ◌⊎◌, ℕ, Some, None, [], length, is_some, IfOk, IfSome, OnOk, OnErr, IsTrue, IsSome, Err, IsOkUnless, Contains};
ghost use Rattle.std.specs.Option.{option_map};
ghost use Rattle.rs_disk.specs.Counts.{Counts};
ghost use Rattle.rs_disk.specs.Crash.{Same, Passes};
ghost use Rattle.rs_pages.specs.declared.pages.TheConstants.{GREATEST_LIMIT};
ghost use Rattle.rs_page_cache.specs.Stored.{disk_page};
ghost use Rattle.rs_page_cache.specs.Clean.{clean_at, has_number, kept_pages, Loads};

use lru::LruCache;
use rs_disk::Disk;
use rs_page::{PAGE_SIZE, Page, PageNumber};
use rs_refusal::Refusal;
use std::alloc::{AllocError, Global};
use std::marker::Model;
use std::mem;
use std::num::NonZeroUsize;

/// The greatest number of clean pages that are held or whose memory is unused, the spare one among them.
pub const MOST_CLEAN: usize = 256;

/// The clean pages.
#[derive(Drop)]
pub struct CleanPages {
    kept: LruCache<u32, Box<Page>>,
    /// Memory of pages that are no longer held.
    unused: Vec<Box<Page>>,
    spare: Box<Page>,
    /// The number of the page in the spare one, where it is one of the disk's.
    spare_number: Option<PageNumber>,
}

impl Model for CleanPages {
    ghost use Rattle.std.specs.Prelude.{◌≡◌};
    ghost use Rattle.rs_page_cache.specs.Clean.{Clean, spare_page, kept_pages};

    ghost Value = { Clean };

    ghost use Rattle.std.specs.Prelude.{◌++◌, ◌+◌, ◌<◌, ◌≤◌, length};
    ghost use Rattle.rs_page_cache.specs.declared.clean.TheConstants.{MOST_CLEAN};

    ghost view = { λ c. spare_page c.spare_number c.spare ++ kept_pages c.kept.entries };

    ghost invariant = { λ c. (c.kept.cap < MOST_CLEAN) × (length c.kept.entries + length c.unused.items ≤ c.kept.cap) };
}

impl CleanPages {
    /// No page is held. The spare one is allocated, and room for the list of unused ones.
    pub fn new(alloc: Global) -> Result<CleanPages, AllocError>
        ensures { IfOk result (λ clean. clean ≡ []) }
    {
        let most = NonZeroUsize::new(MOST_CLEAN - 1).unwrap();
        let kept = LruCache::new(alloc, most)?;
        let unused = Vec::with_capacity(alloc, MOST_CLEAN - 1)?;
        let spare = Box::new(alloc, Page::new()).map_err(|_| AllocError)?;
        Ok(CleanPages {
            kept,
            unused,
            spare,
            spare_number: None,
        })
    }

    /// How many clean pages are held.
    pub fn len(&self) -> usize
        ensures length { result ≡ length self.now }
        ensures bound { result ≤ MOST_CLEAN }
    {
        match self.spare_number {
            Some(_) => self.kept.len() + 1,
            None => self.kept.len(),
        }
    }

    /// The clean page with this number, where it is held.
    pub fn get(&self, number: PageNumber) -> Option<&Page>
        ensures { option_map (λ page. page.now.bytes) result ≡ clean_at self.now number }
    {
        if is_number(self.spare_number, number) {
            return Some(&self.spare);
        }
        kept_page(&self.kept, number.number())
    }

    /// Holds the page with this number, and reads it where it isn't held.
    pub fn load<D: Disk>(&mut self, disk: &mut D, number: PageNumber) -> Result<(), Refusal>
        requires { number ≤ GREATEST_LIMIT }
        ensures loaded { OnOk result (IsSome (clean_at self.new number)) }
        ensures loads { IsTrue (D.is_honest disk.old)
            → Loads number (λ page. page ≡ disk_page (D.seen disk.old) number) self.old self.new }
        ensures same { IsTrue (D.is_honest disk.old) → D.seen disk.new ≡ D.seen disk.old }
        ensures honesty { D.is_honest disk.new ≡ D.is_honest disk.old }
        ensures keeping { D.keeps_crashes disk.new ≡ D.keeps_crashes disk.old }
        ensures crash { IsTrue (D.keeps_crashes disk.old)
            → Passes D.may_leave D.left_since Same disk.old disk.new }
        ensures synced { D.is_synced disk.new ≡ D.is_synced disk.old }
        ensures refused { IsOkUnless result Refusal.Disk }
        ensures count { Counts result (D.failures disk.old) (D.failures disk.new) }
    {
        if self.promote(number) {
            return Ok(());
        }
        self.keep_spare();
        self.spare_number = None;
        let at = u64::from(number.number()) * PAGE_SIZE as u64;
        disk.read(at, &mut self.spare.bytes)
            .map_err(|_| Refusal::Disk)?;
        self.spare_number = Some(number);
        Ok(())
    }

    /// Whether the page with this number is held. It is the most recently used then.
    fn promote(&mut self, number: PageNumber) -> bool
        ensures held { result ≡ is_some (clean_at self.old number) }
        ensures there { IsTrue result → IsSome (clean_at self.new number) }
        ensures pages { (e : _) → Contains self.new e → Contains self.old e }
    {
        is_number(self.spare_number, number) || self.kept.promote(&number.number())
    }

    /// Holds the spare page among the others, if another can take its place. The spare page holds no page of the disk then.
    fn keep_spare(&mut self)
        ensures pages { (e : _) → Contains self.new e → Contains self.old e }
    {
        let Some(number) = self.spare_number.take() else {
            return;
        };
        if let Some(other) = page_for_another(&mut self.kept, &mut self.unused) {
            let page = mem::replace(&mut self.spare, other);
            put_page(&mut self.kept, number.number(), page);
        }
    }

    /// No page is held any more. Their memory is kept for others. It takes no memory.
    pub fn clear(&mut self)
        ensures { self.new ≡ [] }
    {
        keep_memory(&mut self.kept, &mut self.unused);
        self.spare_number = None;
    }
}

/// Whether the spare page is the one with this number.
fn is_number(spare: Option<PageNumber>, number: PageNumber) -> bool
    ensures { result ≡ has_number spare number }
{
    match spare {
        Some(spare) => number == spare,
        None => false,
    }
}

/// The page with this number among the others. The most recently used one is asked first, since a page is loaded before
/// it is got.
fn kept_page(kept: &LruCache<u32, Box<Page>>, number: u32) -> Option<&Page>
    ensures { option_map (λ page. page.now.bytes) result ≡ clean_at (kept_pages kept.now.entries) number }
{
    match kept.peek_mru() {
        Some((first, page)) if *first == number => Some(page),
        _ => match kept.peek(&number) {
            Some(page) => Some(page),
            None => None,
        },
    }
}

/// The memory of a page that is no longer held: an unused one, or where no more may be held that of the page used longest
/// ago; else new memory, if there is some.
fn page_for_another(
    kept: &mut LruCache<u32, Box<Page>>,
    unused: &mut Vec<Box<Page>>,
) -> Option<Box<Page>>
    requires { length kept.old.entries + length unused.old.items ≤ kept.old.cap }
    ensures pages { (e : _) → Contains (kept_pages kept.new.entries) e → Contains (kept_pages kept.old.entries) e }
    ensures room { IfSome result (λ _. length kept.new.entries + length unused.new.items < kept.new.cap) }
    ensures bound { length kept.new.entries + length unused.new.items ≤ kept.new.cap }
    ensures cap { kept.new.cap ≡ kept.old.cap }
{
    if let Some(page) = unused.pop() {
        return Some(page);
    }
    if kept.len() < kept.cap().get() {
        return Box::new(*kept.allocator(), Page::new()).ok();
    }
    match kept.pop_lru() {
        Some((_, page)) => Some(page),
        None => None,
    }
}

/// Holds a page among the others, if there is memory for it.
fn put_page(kept: &mut LruCache<u32, Box<Page>>, number: u32, page: Box<Page>)
    ensures pages { (e : _) → Contains (kept_pages kept.new.entries) e
        → Contains (kept_pages kept.old.entries) e ⊎ (e ≡ (number, page.value.bytes)) }
    ensures count { length kept.new.entries ≤ length kept.old.entries + 1 }
    ensures cap { kept.new.cap ≡ kept.old.cap }
{
    let _ = kept.put(number, page);
}

/// Moves the pages that are held to the unused ones, which have room for them. No page is held then.
fn keep_memory(kept: &mut LruCache<u32, Box<Page>>, unused: &mut Vec<Box<Page>>)
    ensures entries { kept.new.entries ≡ [] }
    ensures bound { length unused.new.items ≤ length kept.old.entries + length unused.old.items }
    ensures cap { kept.new.cap ≡ kept.old.cap }
{
    while let Some((_, page)) = kept.pop_lru() {
        let _ = unused.push(page);
    }
}
