//! A cell put into a whole tree, from its root.

ghost use Rattle.std.specs.Prelude.{◌≡◌, ◌≢◌, ◌≤◌, ◌*◌, ◌⊎◌, true, IfOk, length};
ghost use Rattle.rs_page_owners.specs.Calls.{Makes, WorksOn};
ghost use Rattle.rs_tree.specs.Calls.{LeavesTree};
ghost use Rattle.rs_tree.specs.Forms.{form_in};
ghost use Rattle.rs_tree.specs.Layouts.{entry_bytes};
ghost use Rattle.rs_tree.specs.declared.limits.TheConstants.{GREATEST_ENTRY};
ghost use Rattle.rs_tree_edit.specs.Editing.{HasNoFreeList};
ghost use Rattle.rs_tree_insert.specs.Inserting.{AddsAbove, HasNoTops, tops};
ghost use Rattle.rs_tree_insert.specs.declared.answer.Put.TheVariants as put;

use crate::answer::Put;
use crate::entries::{NARROW_ENTRY, TWO_ENTRIES, TWO_NARROW_ENTRIES, write_entries};
use crate::path::insert_below;
use rs_page::{ContentKind, PageNumber};
use rs_pages::Pages;
use rs_refusal::Refusal;
use rs_tree::{GREATEST_ENTRY, LEVELS, Layout, Summary};
use rs_tree_edit::add_page;

/// What became of a tree: its root, and whether the cell was not there before.
#[derive(Clone, Copy)]
pub struct Inserted {
    pub root: PageNumber,
    pub new: bool,
}

ghost use Rattle.rs_tree_insert.specs.Calls.{Inserts};

/// Puts a cell into the tree with this root (0: the empty one). Where the cell was there already nothing changes. It is
/// refused with 90, with 91, with 92 where the file is full, and with 94 only where no tree stands there whose pages are its
/// own; some pages may have been changed then.
pub fn insert<P: Pages, S: Summary>(
    pages: &mut P,
    layout: Layout,
    root: PageNumber,
    cell: &[u8],
) -> Result<Inserted, Refusal>
    requires begun { (P.store pages.old).is_begun ≡ true }
    requires summary { layout.summary ≡ S.WIDTH }
    requires width { length cell.now ≡ layout.width }
    ensures leaves { LeavesTree P.Pages (form_in S.Summary layout) root result pages.old pages.new }
    ensures inserts { Inserts P.Pages (form_in S.Summary layout) root cell.now result pages.old pages.new }
{
    if root.number() == 0 {
        let root = add_page(pages, ContentKind::Leaf, layout.width, 1, cell)?;
        return Ok(Inserted { root, new: true });
    }
    let two = 2 * layout.entry_width();
    if two <= TWO_NARROW_ENTRIES {
        let mut entries = [0; TWO_NARROW_ENTRIES];
        insert_in_room::<P, S, NARROW_ENTRY>(pages, layout, root, cell, &mut entries[..two])
    } else {
        let mut entries = [0; TWO_ENTRIES];
        insert_in_room::<P, S, GREATEST_ENTRY>(pages, layout, root, cell, &mut entries[..two])
    }
}

/// Puts a cell into a tree that isn't empty, with `N` bytes for an entry that is copied, and `entries` for two that are
/// written.
fn insert_in_room<P: Pages, S: Summary, const N: usize>(
    pages: &mut P,
    layout: Layout,
    root: PageNumber,
    cell: &[u8],
    entries: &mut [u8],
) -> Result<Inserted, Refusal>
    requires begun { (P.store pages.old).is_begun ≡ true }
    requires summary { layout.summary ≡ S.WIDTH }
    requires width { length cell.now ≡ layout.width }
    requires some { root ≢ 0 }
    requires room { entry_bytes layout ≤ N }
    requires few { N ≤ GREATEST_ENTRY }
    requires entries { length entries.old ≡ 2 * entry_bytes layout }
    ensures leaves { LeavesTree P.Pages (form_in S.Summary layout) root result pages.old pages.new }
    ensures inserts { Inserts P.Pages (form_in S.Summary layout) root cell.now result pages.old pages.new }
{
    // For the proof: there are fewer pages than a tree of more levels would have.
    let _count = pages.count();
    match insert_below::<P, S, N>(pages, layout, root, LEVELS, cell, entries, true)? {
        Put::Found => Ok(Inserted { root, new: false }),
        Put::Placed => Ok(Inserted { root, new: true }),
        Put::Kept => Ok(Inserted { root, new: true }),
        Put::Split(other) => {
            let root = add_root::<P, S>(pages, layout, root, other, entries)?;
            Ok(Inserted { root, new: true })
        }
    }
}

/// Brings an inner page into use above two pages, whose entries are written into `entries` first.
fn add_root<P: Pages, S: Summary>(
    pages: &mut P,
    layout: Layout,
    first: PageNumber,
    second: PageNumber,
    entries: &mut [u8],
) -> Result<PageNumber, Refusal>
    requires begun { (P.store pages.old).is_begun ≡ true }
    requires summary { layout.summary ≡ S.WIDTH }
    requires entries { length entries.old ≡ 2 * entry_bytes layout }
    ensures keeps { P.keeps pages.old pages.new }
    ensures works { WorksOn P.Pages (HasNoTops (form_in S.Summary layout) (P.store pages.old).map
        (tops first (put.Split second)) ⊎ HasNoFreeList (P.store pages.old).map) result pages.old pages.new }
    ensures above { Makes P.Pages (λ old new root. AddsAbove (form_in S.Summary layout) old new root (tops first
        (put.Split second))) result pages.old pages.new }
{
    let width = layout.entry_width();
    let more = write_entries::<P, S>(pages, layout, first, Put::Split(second), entries)?;
    add_page(
        pages,
        ContentKind::Inner,
        width,
        more,
        &entries[..more * width],
    )
}
