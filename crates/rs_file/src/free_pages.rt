//! This module walks the free list once.
//!
//! Each page is marked before it is read, so that the walk ends on pages that are no free list.

ghost use Rattle.std.specs.Prelude.{◌≡◌, length};
ghost use Rattle.rs_file.specs.Calls.{Reaches, RefusesToReach};
ghost use Rattle.rs_pages.specs.Calls.{OnlyReads};
ghost use Rattle.rs_page_marks.specs.Marks.{taken};

use rs_page_marks::Reached;
use rs_pages::Pages;
use rs_refusal::Refusal;

/// Marks the free pages. Ok only where as many as page 0 says follow one another and none of them was reached before; 94 only
/// where none do; 91 where a page couldn't be read. No page changes. Which pages are marked after a refusal is unspecified.
pub fn reach_free<P: Pages>(pages: &mut P, reached: &mut Reached) -> Result<(), Refusal>
    ensures rests { OnlyReads P.Pages result pages.old pages.new }
    ensures size { length reached.new ≡ length reached.old }
    ensures reaches { Reaches P.Pages (taken reached.old) (taken reached.new) result pages.old }
    ensures refused { RefusesToReach result }
{
    let (first, count) = pages.free_list();
    let mut next = first;
    let mut left = count;
    while next.number() != 0 {
        if left == 0 || !reached.reach(next) {
            return Err(Refusal::DamagedFile);
        }
        next = pages.next_free(next)?;
        left -= 1;
    }
    if left != 0 {
        return Err(Refusal::DamagedFile);
    }
    Ok(())
}
