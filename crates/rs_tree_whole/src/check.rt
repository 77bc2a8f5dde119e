//! The check of a part of a tree, page by page.
//!
//! A part is checked against what the entry above says: its least cell, its summary, and what the next entry begins with.

ghost use Rattle.std.specs.Prelude.{◌≡◌, ◌⊎◌, ◌<◌, ◌≤◌, ◌+◌, ◌*◌, ◌^◌, IfOk, IfErr, Err, length};
ghost use Rattle.std.specs.Option.{option_copied};
ghost use Rattle.rs_page.specs.declared.header.TheConstants.{PAGE_ROOM};
ghost use Rattle.rs_page_marks.specs.Marks.{taken};
ghost use Rattle.rs_tree.specs.Form.{joined};
ghost use Rattle.rs_tree.specs.Layouts.{entry_bytes};
ghost use Rattle.rs_tree.specs.Forms.{form_in};
ghost use Rattle.rs_tree_whole.specs.Checking.{Reaches, HasNoSound, ReachesEntry, HasNoSoundEntry, ReachesEntries, HasNoSoundEntries};
ghost use Rattle.rs_pages.specs.Calls.{DamagedOnlyIf, OnlyReads, Reads};

use crate::enter::enter;
use crate::keys::{bound_at, least};
use crate::order::{begins_with, is_in_order};
use crate::saying::says;
use rs_page::{Page, PageNumber};
use rs_page_marks::Reached;
use rs_pages::Pages;
use rs_records::record_at;
use rs_refusal::Refusal;
use rs_tree::entry::{child, summary};
use rs_tree::{Layout, Node, Summary, content, inner_summary, leaf_summary};

/// What was found of a part: its height, how many cells it has, and their summary.
#[derive(Clone, Copy)]
pub struct Checked<S: Summary> {
    pub height: u32,
    pub total: u64,
    pub whole: S,
}

/// Checks the part with this page at its top, whose cells are to ascend from the first one that is given up to the bound.
#[cycle(checking)]
pub fn check_part<P: Pages, S: Summary>(
    pages: &mut P,
    layout: Layout,
    number: PageNumber,
    levels: u32,
    first: Option<&[u8]>,
    bound: Option<&[u8]>,
    reached: &mut Reached,
) -> Result<Checked<S>, Refusal>
    requires summary { layout.summary ≡ S.WIDTH }
    ensures rests { OnlyReads P.Pages result pages.old pages.new }
    ensures size { length reached.new ≡ length reached.old }
    ensures few { (P.store pages.old).map.fields.pages < 2 ^ 32 }
    ensures height { IfOk result (λ part. part.height ≤ levels) }
    ensures reaches { Reads P.Pages (λ map part. Reaches (joined S.unit S.join S.of) (form_in S.Summary layout) map number
        (option_copied first.entry) (option_copied bound.entry) (taken reached.old) (taken reached.new)
        part.height part.total part.whole) result pages.old }
    ensures refused { IfErr result (λ why. (why ≡ Refusal.Disk) ⊎ (why ≡ Refusal.DamagedFile)) }
    ensures damaged { DamagedOnlyIf P.Pages (λ map. HasNoSound (form_in S.Summary layout) map number
        (option_copied first.entry) (option_copied bound.entry) levels (taken reached.old)) result pages.old }
{
    let mut page = Page::new();
    let node = enter(pages, layout, number, reached, &mut page)?;
    match node {
        Node::Leaf(count) => {
            if !is_in_order(&page, count, layout, first, bound) {
                return Err(Refusal::DamagedFile);
            }
            let whole = leaf_summary::<S>(&page, count, layout);
            Ok(Checked {
                height: 0,
                total: count as u64,
                whole,
            })
        }
        Node::Inner(count) => {
            if levels == 0 || !begins_with(&page, count, layout, first) {
                return Err(Refusal::DamagedFile);
            }
            let (height, total) = check_entries::<P, S>(
                pages, layout, &page, count, levels, bound, reached,
            )?;
            let whole = inner_summary::<S>(&page, count, layout);
            Ok(Checked {
                height: height + 1,
                total,
                whole,
            })
        }
    }
}

/// Checks what the entries of an inner page say, each part up to what the next entry begins with. Answers the height of
/// the parts and the number of their cells.
#[cycle(checking)]
fn check_entries<P: Pages, S: Summary>(
    pages: &mut P,
    layout: Layout,
    page: &Page,
    count: usize,
    levels: u32,
    bound: Option<&[u8]>,
    reached: &mut Reached,
) -> Result<(u32, u64), Refusal>
    requires summary { layout.summary ≡ S.WIDTH }
    requires fit { count * entry_bytes layout ≤ PAGE_ROOM }
    requires levels { 0 < levels }
    ensures rests { OnlyReads P.Pages result pages.old pages.new }
    ensures size { length reached.new ≡ length reached.old }
    ensures height { IfOk result (λ parts. parts.0 < levels) }
    ensures reaches { Reads P.Pages (λ map parts. ReachesEntries (form_in S.Summary layout) map page.now.bytes count count
        (option_copied bound.entry) (taken reached.old) (taken reached.new) parts.0 parts.1) result pages.old }
    ensures refused { IfErr result (λ why. (why ≡ Refusal.Disk) ⊎ (why ≡ Refusal.DamagedFile)) }
    ensures damaged { DamagedOnlyIf P.Pages (λ map. HasNoSoundEntries (form_in S.Summary layout) map page.now.bytes count
        (option_copied bound.entry) levels (taken reached.old)) result pages.old }
{
    let bytes = content(page);
    let mut height = 0;
    let mut total: u64 = 0;
    for index in 0..count {
        let entry = record_at(bytes, layout.entry_width(), index);
        let next = bound_at(bytes, layout, count, index + 1, bound);
        let (found, more) = check_entry::<P, S>(pages, layout, entry, levels, next, reached)?;
        if index > 0 && found != height {
            return Err(Refusal::DamagedFile);
        }
        height = found;
        total = total.saturating_add(more);
    }
    Ok((height, total))
}

/// Checks what an entry says, up to a bound. Answers the height of the part below it and the number of its cells.
#[cycle(checking)]
fn check_entry<P: Pages, S: Summary>(
    pages: &mut P,
    layout: Layout,
    entry: &[u8],
    levels: u32,
    bound: Option<&[u8]>,
    reached: &mut Reached,
) -> Result<(u32, u64), Refusal>
    requires summary { layout.summary ≡ S.WIDTH }
    requires entry { length entry.now ≡ entry_bytes layout }
    requires levels { 0 < levels }
    ensures rests { OnlyReads P.Pages result pages.old pages.new }
    ensures size { length reached.new ≡ length reached.old }
    ensures height { IfOk result (λ part. part.0 < levels) }
    ensures reaches { Reads P.Pages (λ map part. ReachesEntry (form_in S.Summary layout) map entry.now
        (option_copied bound.entry) (taken reached.old) (taken reached.new) part.0 part.1) result pages.old }
    ensures refused { IfErr result (λ why. (why ≡ Refusal.Disk) ⊎ (why ≡ Refusal.DamagedFile)) }
    ensures damaged { DamagedOnlyIf P.Pages (λ map. HasNoSoundEntry (form_in S.Summary layout) map entry.now
        (option_copied bound.entry) levels (taken reached.old)) result pages.old }
{
    let number = child(entry, layout);
    let first = Some(least(entry, layout));
    let part = check_part::<P, S>(pages, layout, number, levels - 1, first, bound, reached)?;
    if !says(summary(entry, layout), part.whole) {
        return Err(Refusal::DamagedFile);
    }
    Ok((part.height, part.total))
}
