//! Reads the catalogue from its pages.

ghost use Rattle.std.specs.Prelude.{◌≡◌, IfOk, length};
ghost use Rattle.rs_pages.specs.Calls.{OnlyReads};
ghost use Rattle.rs_page_marks.specs.Marks.{taken};
ghost use Rattle.rs_catalog_pages.specs.Calls.{Loads, RefusesToLoad};
ghost use Rattle.rs_catalog_pages.specs.Fitting.{FitsCatalogue};
ghost use Rattle.rs_catalog_pages.specs.Said.{said_catalogue};

use crate::chain::read_bytes;
use crate::items::StoredCatalogue;
use rs_bytes::read_whole;
use rs_page::PageNumber;
use rs_page_marks::Reached;
use rs_pages::Pages;
use rs_refusal::Refusal;
use std::alloc::Global;

/// Marks the pages of the catalogue and reads it: its pages in their order, and the definitions. It is refused with 90, with
/// 91, and with 94 only where no pages that weren't reached before hold bytes that say a catalogue. No page changes. Which
/// pages are marked after a refusal is unspecified.
pub fn load<P: Pages>(
    alloc: Global,
    pages: &mut P,
    reached: &mut Reached,
) -> Result<(Vec<PageNumber>, StoredCatalogue), Refusal>
    ensures rests { OnlyReads P.Pages result pages.old pages.new }
    ensures size { length reached.new ≡ length reached.old }
    ensures loads { Loads P.Pages (taken reached.old) (taken reached.new) result pages.old }
    ensures fits { IfOk result (λ loaded. FitsCatalogue (said_catalogue loaded.1)) }
    ensures refused { RefusesToLoad P.Pages (taken reached.old) result pages.old }
{
    let (numbers, bytes) = read_bytes(alloc, pages, reached)?;
    let catalogue = read_whole::<StoredCatalogue>(alloc, bytes.as_slice())?;
    Ok((numbers, catalogue))
}
