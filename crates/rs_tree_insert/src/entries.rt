//! The entries of a page below, and of the one that was split off it.

ghost use Rattle.std.specs.Prelude.{◌≡◌, ◌*◌, IfOk, length};
ghost use Rattle.rs_records.specs.Records.{records};
ghost use Rattle.rs_tree.specs.Layouts.{entry_bytes};
ghost use Rattle.rs_tree.specs.Forms.{form_in};
ghost use Rattle.rs_tree_insert.specs.Inserting.{HasNoTops, SaysTops, tops};
ghost use Rattle.rs_pages.specs.Calls.{OnlyReads, Reads};
ghost use Rattle.rs_page_owners.specs.Calls.{WorksOn};

use crate::answer::Put;
use rs_page::PageNumber;
use rs_pages::Pages;
use rs_refusal::Refusal;
use rs_tree::{GREATEST_ENTRY, Layout, Summary};
use rs_tree_edit::write_entry_of;

/// The bytes of two entries at the most.
pub const TWO_ENTRIES: usize = 2 * GREATEST_ENTRY;

/// The bytes that hold an entry of most layouts.
pub const NARROW_ENTRY: usize = 128;

/// The bytes that hold two such entries.
pub const TWO_NARROW_ENTRIES: usize = 2 * NARROW_ENTRY;

/// Writes the entry of a page, and that of the page that was split off it, and answers how many there are.
pub fn write_entries<P: Pages, S: Summary>(
    pages: &mut P,
    layout: Layout,
    first: PageNumber,
    put: Put,
    entries: &mut [u8],
) -> Result<usize, Refusal>
    requires room { length entries.old ≡ 2 * entry_bytes layout }
    requires summary { layout.summary ≡ S.WIDTH }
    ensures rests { OnlyReads P.Pages result pages.old pages.new }
    ensures works { WorksOn P.Pages (HasNoTops (form_in S.Summary layout) (P.store pages.old).map
        (tops first put)) result pages.old pages.new }
    ensures count { IfOk result (λ more. more ≡ length (tops first put)) }
    ensures says { Reads P.Pages (λ map more. SaysTops (form_in S.Summary layout) map (tops first put)
        (records more (entry_bytes layout) entries.new)) result pages.old }
{
    let width = layout.entry_width();
    write_entry_of::<P, S>(pages, layout, first, &mut entries[..width])?;
    match put {
        Put::Split(other) => {
            write_entry_of::<P, S>(pages, layout, other, &mut entries[width..2 * width])?;
            Ok(2)
        }
        _ => Ok(1),
    }
}
