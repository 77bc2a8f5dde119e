//! This module reads a file and checks it as a whole.

ghost use Rattle.std.specs.Prelude.{◌≡◌, ◌≤◌, ◌<◌, ◌^◌, ◌↔◌, ◌⊎◌, Err, IfErr, IfOk, IsOkUnless, IsTrue, IsPermutation, OnErr, OnOk, ℕ, false, map, replicate};
ghost use Rattle.std.specs.List.{AllByRecursion};
ghost use Rattle.std.specs.List.Sorted.{IsNonDecreasingBy};
ghost use Rattle.rs_catalog_pages.specs.Said.{said_catalogue, said_directory};
ghost use Rattle.rs_catalog_pages.specs.Said.{said_route};
ghost use Rattle.rs_file.specs.Calls.{Loads, RefusesToLoad};
ghost use Rattle.rs_file.specs.Meant.{span_of_route};
ghost use Rattle.rs_file.specs.Opening.{AreSound, IsFile};
ghost use Rattle.rs_file.specs.OpeningCalls.{Says};
ghost use Rattle.rs_page_owners.specs.Counts.{◌&◌, one_at, times};
ghost use Rattle.rs_versioned.specs.Meant.{AreRising};
ghost use Rattle.rs_pages.specs.Calls.{OnlyReads};
ghost use Rattle.rs_page_marks.specs.Marks.{taken};

use crate::numbers::check_numbers;
use crate::opened::OpenedFile;
use crate::opening::open_parts;
use rs_catalog_pages::{StoredCatalogue, StoredDirectory, StoredRoute, load_directory};
use rs_page::PageNumber;
use rs_page_marks::Reached;
use rs_pages::Pages;
use rs_refusal::Refusal;
use rs_versioned::RouteSpan;
use std::alloc::{AllocError, Global};

/// What a file says of what it holds.
#[derive(Drop)]
struct FileCatalogue {
    /// The pages in which the definitions lie, in their order.
    pages: Vec<PageNumber>,
    /// The definitions.
    definitions: StoredCatalogue,
    /// The roots of the trees, and the version that was accepted last.
    directory: StoredDirectory,
}

/// The versions of a file are below this.
const VERSIONS: u64 = 0x8000_0000_0000_0000;

/// Opens all that a file holds, and checks that each page has one owner. Ok only where the file holds contents whose records are
/// meant in the version that was accepted last, which are then those that are answered; 94 only where it holds none. It may be refused with 90 or 91 instead. No page changes.
pub fn load<P: Pages>(alloc: Global, pages: &mut P) -> Result<OpenedFile, Refusal>
    ensures rests { OnlyReads P.Pages result pages.old pages.new }
    ensures loads { Loads P.Pages result pages.old }
    ensures file { IfOk result IsFile }
    ensures refused { RefusesToLoad result }
{
    let mut reached = first_two(alloc, pages.count())?;
    let said = load_said(alloc, pages, &mut reached)?;
    let routes = rising_routes(alloc, said.definitions.routes.as_slice())?;
    let (tables, referents) = open_parts(
        alloc,
        pages,
        &said.definitions,
        &said.directory,
        routes.as_slice(),
        &mut reached,
    )?;
    Ok(OpenedFile {
        definitions: said.definitions,
        pages: said.pages,
        tables,
        referents,
        accepted: said.directory.accepted,
    })
}

/// Of so many pages the first two are reached.
fn first_two(alloc: Global, count: u32) -> Result<Reached, AllocError>
    requires { 2 ≤ count }
    ensures reached { IfOk result (λ reached. (number : ℕ) → taken reached number
        ≡ (taken (replicate count false) & (one_at 0 & one_at 1)) number) }
{
    let mut reached = Reached::new(alloc, count)?;
    reached.reach(PageNumber::new(0));
    reached.reach(PageNumber::new(1));
    Ok(reached)
}

/// Reads the definitions and the directory, and checks the numbers and the versions in them; the pages of the definitions are
/// marked. It is refused with 90, with 91, and with 94 only where no contents whose records are meant are there, whose definitions
/// lie in pages that weren't reached before. No page changes. Which pages are marked after a refusal is unspecified.
fn load_said<P: Pages>(
    alloc: Global,
    pages: &mut P,
    reached: &mut Reached,
) -> Result<FileCatalogue, Refusal>
    ensures rests { OnlyReads P.Pages result pages.old pages.new }
    ensures says { Says P.Pages (taken reached.old) (taken reached.new) result pages.old }
    ensures sound { IfOk result (λ said. AreSound (said_catalogue said.definitions) (said_directory said.directory)) }
    ensures refused { RefusesToLoad result }
{
    let directory = load_directory(alloc, pages)?;
    let (numbers, definitions) = rs_catalog_pages::load(alloc, pages, reached)?;
    check_numbers(&definitions, &directory)?;
    check_versions(definitions.routes.as_slice(), directory.accepted)?;
    Ok(FileCatalogue {
        pages: numbers,
        definitions,
        directory,
    })
}

/// Ok exactly where the version is one that a file may have, and no route was born after it; 94 where not.
fn check_versions(routes: &[StoredRoute], accepted: u64) -> Result<(), Refusal>
    ensures within { OnOk result ((accepted < 2 ^ 63) × AllByRecursion (λ route. route.born ≤ accepted) routes.now) }
    ensures none { OnErr result (accepted < 2 ^ 63 → AllByRecursion (λ route. route.born ≤ accepted) routes.now → ⊥) }
    ensures refused { IsOkUnless result Refusal.DamagedFile }
{
    if accepted < VERSIONS && routes.iter().all(|route| route.born <= accepted) {
        Ok(())
    } else {
        Err(Refusal::DamagedFile)
    }
}

/// The routes by rising numbers. It is refused with 90, and with 94 where two have one number.
fn rising_routes(alloc: Global, routes: &[StoredRoute]) -> Result<Vec<RouteSpan>, Refusal>
    ensures all { IfOk result (λ spans. IsPermutation (map span_of_route (map said_route routes.now)) spans.items) }
    ensures rising { IfOk result (λ spans. AreRising spans.items) }
    ensures twice { result ≡ Err Refusal.DamagedFile
        → ((number : ℕ) → times (map (λ route. route.number) (map said_route routes.now)) number ≤ 1) → ⊥ }
    ensures refused { IfErr result (λ why. (why ≡ Refusal.OutOfMemory) ⊎ (why ≡ Refusal.DamagedFile)) }
{
    let spans = spans_by_number(alloc, routes)?;
    if !are_rising(&spans) {
        return Err(Refusal::DamagedFile);
    }
    Ok(spans)
}

/// The routes by their numbers, the least first.
fn spans_by_number(alloc: Global, routes: &[StoredRoute]) -> Result<Vec<RouteSpan>, AllocError>
    ensures all { IfOk result (λ spans. IsPermutation (map span_of_route (map said_route routes.now)) spans.items) }
    ensures sorted { IfOk result (λ spans. IsNonDecreasingBy (λ span. span.number) spans.items) }
{
    let mut spans = Vec::with_capacity(alloc, routes.len())?;
    for route in routes {
        spans.push(RouteSpan {
            number: route.number,
            start: route.start,
            finish: route.finish,
        })?;
    }
    spans.sort_unstable_by_key(|span| span.number);
    Ok(spans)
}

/// Whether each number is below those after it.
fn are_rising(spans: &[RouteSpan]) -> bool
    ensures { IsTrue result ↔ AreRising spans.now }
{
    spans.is_sorted_by(|one, next| one.number < next.number)
}
