//! Reads the directory of a file from page 1, and writes it there.

ghost use Rattle.std.specs.Prelude.{◌≡◌, ◌≢◌, ◌⊎◌, ◌≤◌, ◌↔◌, ◌-◌, ◌++◌, true, IsTrue, EachIndex, slice_index, IfOk, IfErr, IsOkUnless, Err, length, replicate};
ghost use Rattle.rs_page.specs.declared.page.TheConstants.{PAGE_SIZE};
ghost use Rattle.rs_page_owners.specs.Calls.{Leaves};
ghost use Rattle.rs_page.specs.Header.{IsHeader};
ghost use Rattle.rs_page.specs.PageBytes.{empty_header};
ghost use Rattle.rs_page.specs.declared.header.PageKind.TheVariants as kinds;
ghost use Rattle.rs_page.specs.declared.header.TheConstants.{PAGE_ROOM};
ghost use Rattle.rs_pages.specs.Calls.{OnlyReads};
ghost use Rattle.rs_pages.specs.PageMap.{HasNoFit};
ghost use Rattle.rs_catalog_pages.specs.Calls.{LoadsDirectory, RefusesToLoadDirectory, StaysRefused, StoresNewDirectory, WantsMemoryForDirectory};
ghost use Rattle.rs_catalog_pages.specs.Directory.{DirectoryItems, IsDirectory, IsSomeDirectory, SaysDirectory};
ghost use Rattle.rs_catalog_pages.specs.Fitting.{FitsDirectory};
ghost use Rattle.rs_catalog_pages.specs.Parts.{content};
ghost use Rattle.rs_catalog_pages.specs.Said.{said_directory};

use crate::directory_items::StoredDirectory;
use crate::part::{content, put_content};
use rs_bytes::{Item, read_whole};
use rs_page::{Page, PageKind, PageNumber};
use rs_pages::Pages;
use rs_refusal::Refusal;
use std::alloc::Global;

/// The bytes of a directory. Zeros follow them in the page.
pub const DIRECTORY_SIZE: usize = 2844;

/// Reads the directory. It is refused with 91, with 90 only where page 1 is one, and with 94 only where it is none. No page
/// changes.
pub fn load_directory<P: Pages>(alloc: Global, pages: &mut P) -> Result<StoredDirectory, Refusal>
    ensures rests { OnlyReads P.Pages result pages.old pages.new }
    ensures loads { LoadsDirectory P.Pages result pages.old }
    ensures fits { IfOk result (λ directory. FitsDirectory (said_directory directory)) }
    ensures refused { RefusesToLoadDirectory P.Pages result pages.old }
    ensures memory { WantsMemoryForDirectory P.Pages result pages.old }
{
    match pages.page(PageNumber::new(1)) {
        Ok(page) => directory_of(alloc, page),
        Err(refusal) => Err(refusal),
    }
}

/// The directory that this page is. It is refused with 90 only where it is one, for its lists alone, and with 94 only where it is
/// none: memory is taken after all that can make it none was seen, since so many bytes say a directory, whatever they are.
fn directory_of(alloc: Global, page: &Page) -> Result<StoredDirectory, Refusal>
    ensures read { IfOk result (λ directory. IsDirectory page.now.bytes (said_directory directory)) }
    ensures fits { IfOk result (λ directory. FitsDirectory (said_directory directory)) }
    ensures damaged { result ≡ Err Refusal.DamagedFile
        → (directory : DirectoryItems) → IsDirectory page.now.bytes directory → ⊥ }
    ensures memory { result ≡ Err Refusal.OutOfMemory → IsSomeDirectory page.now.bytes }
    ensures refused { IfErr result (λ why. (why ≡ Refusal.OutOfMemory) ⊎ (why ≡ Refusal.DamagedFile)) }
{
    let (said, rest) = content(page).split_at(DIRECTORY_SIZE);
    if !begins_directory(page) || !are_zeros(rest) {
        return Err(Refusal::DamagedFile);
    }
    directory_said(alloc, said)
}

/// The directory that so many bytes say. It is refused with 90 alone, since they say one whatever they are.
fn directory_said(alloc: Global, bytes: &[u8]) -> Result<StoredDirectory, Refusal>
    requires size { length bytes.now ≡ DIRECTORY_SIZE }
    ensures read { IfOk result (λ directory. SaysDirectory bytes.now (said_directory directory)) }
    ensures says { (directory : DirectoryItems) × SaysDirectory bytes.now directory }
    ensures refused { IsOkUnless result Refusal.OutOfMemory }
{
    read_whole::<StoredDirectory>(alloc, bytes)
}

/// Whether the page begins with the header of a directory.
fn begins_directory(page: &Page) -> bool
    ensures { IsTrue result ↔ IsHeader page.now.bytes (empty_header kinds.Directory 1 0) }
{
    match page.header() {
        Some(header) => header.kind == PageKind::Directory
            && header.count == 0
            && header.number.number() == 1
            && header.next.number() == 0,
        None => false,
    }
}

/// Whether the bytes are zeros alone.
fn are_zeros(bytes: &[u8]) -> bool
    ensures { IsTrue result ↔ EachIndex bytes.now (λ k. slice_index bytes.now k ≡ 0) }
{
    bytes.iter().all(|byte| *byte == 0)
}

/// Writes the directory to page 1. It is refused with 90, with 91, and with 94 only where page 1 is none; nothing has changed
/// then.
pub fn store_directory<P: Pages>(
    alloc: Global,
    pages: &mut P,
    directory: &StoredDirectory,
) -> Result<(), Refusal>
    requires begun { (P.store pages.old).is_begun ≡ true }
    requires fits { FitsDirectory (said_directory directory.now) }
    ensures leaves { Leaves P.Pages (HasNoFit (P.store pages.old).map 1) result pages.old pages.new }
    ensures stores { StoresNewDirectory P.Pages (said_directory directory.now) result pages.old pages.new }
    ensures stays { StaysRefused P.Pages result pages.old pages.new }
    ensures room { result ≢ Err Refusal.FileFull }
{
    let mut bytes = Vec::new(alloc);
    directory.write(&mut bytes)?;
    let page = pages.page_mut(PageNumber::new(1))?;
    put_directory(page, bytes.as_slice());
    Ok(())
}

/// Makes a page the directory of these bytes.
fn put_directory(page: &mut Page, bytes: &[u8])
    requires { length bytes.now ≤ PAGE_ROOM }
    ensures header { IsHeader page.new.bytes (empty_header kinds.Directory 1 0) }
    ensures size { length page.new.bytes ≡ PAGE_SIZE }
    ensures bytes { content page.new.bytes ≡ bytes.now ++ replicate (PAGE_ROOM - length bytes.now) 0 }
{
    *page = Page::blank(PageKind::Directory, PageNumber::new(1), PageNumber::new(0));
    put_content(&mut page.bytes, bytes);
}
