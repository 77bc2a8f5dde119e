//! Whether spans that begin in turn lie apart: each is compared with those before it that end past its beginning, of which there
//! are mostly few.

ghost use Rattle.std.specs.Prelude.{◌≡◌, ◌⊎◌, ◌+◌, ◌≤◌, ◌≢◌, Contains, IsTrue, false, map};
ghost use Rattle.rs_attr.specs.Meant.{stretch_of};
ghost use Rattle.rs_attr.specs.declared.meant.RowStretch.{RowStretch as a_stretch};
ghost use Rattle.rs_facts.specs.Spans.{AreAllRunsOf, ArePlaced, gap_of, places_of};

use crate::meant::{RowStretch, is_past};
use arrayvec::ArrayVec;
use rs_value::{Kind, same_bytes};

/// How many spans that a later one may overlap are looked at.
const OPEN: usize = 16;

/// Spans that a later one may overlap.
type Open<'a> = ArrayVec<RowStretch<'a>, OPEN>;

/// Whether the spans begin in turn, each apart from all others of its row, and at most 16 of them are open at a time: then they are
/// maximal runs. Takes no memory.
pub(crate) fn lie_apart<'a>(kind: Kind, stretches: &[RowStretch<'a>]) -> bool
    requires { ArePlaced kind (map stretch_of stretches.now) }
    ensures { IsTrue result → AreAllRunsOf kind (places_of (map stretch_of stretches.now)) (map stretch_of stretches.now) }
{
    let mut opened: Open<'a> = Open::new();
    let mut lo = 0;
    for stretch in stretches {
        if stretch.lo < lo {
            return false;
        }
        lo = stretch.lo;
        close(kind, &mut opened, lo);
        if opened.is_full() || have_row(opened.as_slice(), stretch.row) {
            return false;
        }
        opened.push(*stretch);
    }
    true
}

/// Lets those go that a span that begins at `lo` is no run with, whatever its row.
fn close(kind: Kind, opened: &mut Open<'_>, lo: u32)
    ensures { (one : a_stretch) → Contains opened.old.items one → Contains opened.new.items one ⊎ (one.hi + gap_of kind ≤ lo) }
{
    let mut place = 0;
    while place < opened.len() {
        if is_past(kind, opened[place].hi, lo) {
            opened.swap_remove(place);
        } else {
            place += 1;
        }
    }
}

/// Whether one of the spans has this row.
fn have_row(opened: &[RowStretch<'_>], row: &[u8]) -> bool
    ensures { result ≡ false → (one : a_stretch) → Contains opened.now one → one.row.now ≢ row.now }
{
    opened.iter().any(|one| same_bytes(one.row, row))
}
