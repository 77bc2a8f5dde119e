//! The order of lists of spans: by where they begin, and those that begin at one place by row, so that the runs of what an operator
//! makes are in printing order without another sort.

ghost use Rattle.std.specs.Prelude.{◌≡◌, IsPermutation, map};
ghost use Rattle.rs_facts.specs.Spans.{seen};
ghost use Rattle.rs_sweep.specs.Lists.{AreSorted};

use rs_facts::Span;

/// Sorts spans by where they begin. It takes no memory.
pub fn sort_by_place(spans: &mut Vec<Span>)
    ensures moved { IsPermutation spans.old.items spans.new.items }
    ensures sorted { AreSorted (map seen spans.new.items) }
{
    rs_coalesce::sort_by_place(spans);
}
