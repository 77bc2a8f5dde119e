//! Brings as many pages into use for the catalogue as its bytes need, and releases the others.

ghost use Rattle.std.specs.Prelude.{◌≡◌, ◌≢◌, ◌≤◌, ◌<◌, ◌+◌, ◌-◌, true, Err, OnOk, length, max, take};
ghost use Rattle.rs_page_owners.specs.Calls.{Makes, WorksOn};
ghost use Rattle.rs_catalog_pages.specs.Storing.{MovesPages, AreNotOwn};

use rs_page::{ContentKind, PageNumber};
use rs_pages::Pages;
use rs_refusal::Refusal;

/// Brings pages into use until there are so many, and no more. It is refused as `allocate` is, with 92 only where there are
/// fewer, and for want of memory.
pub(crate) fn grow<P: Pages>(
    pages: &mut P,
    numbers: &mut Vec<PageNumber>,
    count: usize,
) -> Result<(), Refusal>
    requires begun { (P.store pages.old).is_begun ≡ true }
    ensures keeps { P.keeps pages.old pages.new }
    ensures works { WorksOn P.Pages (AreNotOwn (P.store pages.old).map numbers.old.items) result pages.old pages.new }
    ensures moves { Makes P.Pages (λ old new _. MovesPages old new numbers.old.items numbers.new.items) result
        pages.old pages.new }
    ensures enough { OnOk result (count ≤ length numbers.new.items) }
    ensures kept { OnOk result (take (length numbers.old.items) numbers.new.items ≡ numbers.old.items) }
    ensures few { OnOk result (length numbers.new.items ≤ max count (length numbers.old.items)) }
    ensures as_many { OnOk result ((P.store pages.new).map.fields.pages + length numbers.old.items
        ≤ (P.store pages.old).map.fields.pages + length numbers.new.items) }
    ensures room { result ≡ Err Refusal.FileFull → length numbers.old.items < count }
{
    while numbers.len() < count {
        let number = pages.allocate(ContentKind::Catalogue)?;
        numbers.push(number)?;
    }
    Ok(())
}

/// Releases pages until there are no more than so many, the last first. It is refused as `release` is. The file has as many
/// pages as before.
pub(crate) fn shrink<P: Pages>(
    pages: &mut P,
    numbers: &mut Vec<PageNumber>,
    count: usize,
) -> Result<(), Refusal>
    requires begun { (P.store pages.old).is_begun ≡ true }
    requires enough { count ≤ length numbers.old.items }
    ensures keeps { P.keeps pages.old pages.new }
    ensures works { WorksOn P.Pages (AreNotOwn (P.store pages.old).map numbers.old.items) result pages.old pages.new }
    ensures moves { Makes P.Pages (λ old new _. MovesPages old new numbers.old.items numbers.new.items) result
        pages.old pages.new }
    ensures enough { OnOk result (length numbers.new.items ≡ count) }
    ensures kept { OnOk result (numbers.new.items ≡ take (length numbers.new.items) numbers.old.items) }
    ensures as_many { (P.store pages.new).map.fields.pages ≡ (P.store pages.old).map.fields.pages }
    ensures room { result ≢ Err Refusal.FileFull }
{
    while numbers.len() > count {
        release_last(pages, numbers)?;
    }
    Ok(())
}

/// Releases the last page of the list.
fn release_last<P: Pages>(pages: &mut P, numbers: &mut Vec<PageNumber>) -> Result<(), Refusal>
    requires begun { (P.store pages.old).is_begun ≡ true }
    ensures keeps { P.keeps pages.old pages.new }
    ensures works { WorksOn P.Pages (AreNotOwn (P.store pages.old).map numbers.old.items) result pages.old pages.new }
    ensures moves { Makes P.Pages (λ old new _. MovesPages old new numbers.old.items numbers.new.items) result
        pages.old pages.new }
    ensures fewer { OnOk result (length numbers.new.items ≡ length numbers.old.items - 1) }
    ensures kept { OnOk result (numbers.new.items ≡ take (length numbers.new.items) numbers.old.items) }
    ensures as_many { (P.store pages.new).map.fields.pages ≡ (P.store pages.old).map.fields.pages }
    ensures room { result ≢ Err Refusal.FileFull }
{
    match numbers.pop() {
        Some(number) => pages.release(number),
        None => Ok(()),
    }
}
