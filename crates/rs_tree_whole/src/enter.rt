//! Pages of a tree, reached once and read.

ghost use Rattle.std.specs.Prelude.{◌≡◌, ◌<◌, ◌⊎◌, ◌^◌, ℕ, IfOk, IfErr, OnOk, Err, length};
ghost use Rattle.rs_page_owners.specs.Counts.{◌&◌, one_at};
ghost use Rattle.rs_page_marks.specs.Marks.{taken};
ghost use Rattle.rs_tree_whole.specs.Entering.{Enters, HasNoFreshNode};
ghost use Rattle.rs_pages.specs.Calls.{DamagedOnlyIf, OnlyReads};

use rs_page::{Page, PageNumber};
use rs_page_marks::Reached;
use rs_pages::Pages;
use rs_refusal::Refusal;
use rs_tree::load::load;
use rs_tree::{Layout, Node};

/// Marks the page with this number, copies it and tells what it holds. It is refused with 91, and with 94 where it was reached before
/// or is no page of a tree. After a refusal, what the copy holds is unspecified.
pub fn enter<P: Pages>(
    pages: &mut P,
    layout: Layout,
    number: PageNumber,
    reached: &mut Reached,
    copy: &mut Page,
) -> Result<Node, Refusal>
    ensures rests { OnlyReads P.Pages result pages.old pages.new }
    ensures size { length reached.new ≡ length reached.old }
    ensures few { (P.store pages.old).map.fields.pages < 2 ^ 32 }
    ensures enters { IfOk result (Enters (P.is_tied pages.old) (P.store pages.old).map number layout copy.new.bytes) }
    ensures reaches { OnOk result ((n : ℕ) → taken reached.new n ≡ (taken reached.old & one_at number) n) }
    ensures refused { IfErr result (λ why. (why ≡ Refusal.Disk) ⊎ (why ≡ Refusal.DamagedFile)) }
    ensures damaged { DamagedOnlyIf P.Pages (λ map. HasNoFreshNode map number layout (taken reached.old)) result pages.old }
{
    let count = pages.count();
    if number.number() < 2 || number.number() >= count || !reached.reach(number) {
        return Err(Refusal::DamagedFile);
    }
    let mut reads = 1;
    load(pages, number, layout, &mut reads, copy)
}
