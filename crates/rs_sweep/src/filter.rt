//! The spans of a list whose rows meet a condition.

ghost use Rattle.std.specs.Prelude.{◌≡◌, ℕ, map};
ghost use Rattle.rs_value.specs.declared.column.Kind.{Kind};
ghost use Rattle.rs_coalesce.specs.Joined.{AreJoined};
ghost use Rattle.rs_facts.specs.Condition.{meets};
ghost use Rattle.rs_facts.specs.ConditionView.{condition_of};
ghost use Rattle.rs_facts.specs.Fact.{keep};
ghost use Rattle.rs_facts.specs.Spans.{seen, places_of, ArePlaced};
ghost use Rattle.rs_sweep.specs.Lists.{AreSorted, AreWide};

use crate::conditions::meets;
use rs_facts::{Condition, Span};

/// Keeps the rows that meet a condition. It takes no memory.
pub fn select(spans: &mut Vec<Span>, condition: &Condition)
    requires sorted { AreSorted (map seen spans.old.items) }
    ensures means { (k : ℕ) → places_of (map seen spans.new.items) k
        ≡ keep (meets (condition_of condition.now)) (places_of (map seen spans.old.items) k) }
    ensures sorted { AreSorted (map seen spans.new.items) }
    ensures placed { (kind : Kind) → ArePlaced kind (map seen spans.old.items)
        → ArePlaced kind (map seen spans.new.items) }
    ensures width { (width : ℕ) → AreWide width (map seen spans.old.items)
        → AreWide width (map seen spans.new.items) }
    ensures joined { (kind : Kind) → AreJoined kind (map seen spans.old.items)
        → AreJoined kind (map seen spans.new.items) }
{
    spans.retain(|span| meets(condition, &span.tuple));
}
