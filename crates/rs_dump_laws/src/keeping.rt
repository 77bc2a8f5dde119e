//! What is left of a lawful state without some of its views and alignments can be dumped.

ghost use Rattle.std.specs.Prelude.{◌≡◌, Contains, Ok, Some};
ghost use Rattle.std.specs.FinMap as names;
ghost use Rattle.rs_dump_laws.specs.Dump.{ViewsPass};
ghost use Rattle.rs_dump_laws.specs.Kept.{IsKeeping, Keeping, kept_of};
ghost use Rattle.rs_facts.specs.Fact.{Name};
ghost use Rattle.rs_facts.specs.Query.{Query};
ghost use Rattle.rs_machine.specs.Checking.{checked};
ghost use Rattle.rs_machine.specs.Lawful.{IsLawful};
ghost use Rattle.rs_machine.specs.Opening.{names_in};
ghost use Rattle.rs_machine.specs.State.{State};
ghost use Rattle.rs_syntax.specs.Tree.{QueryTree};

/// Where each view that is kept passes now the checks of its DEFINE line, and what it names is kept, the state without the others is
/// lawful, and its views pass there.
pub fn kept_state_can_be_dumped()
    ensures lawful { (state : State) (keeping : Keeping) → IsLawful state → IsKeeping state keeping → IsLawful (kept_of keeping state) }
    ensures passes { (state : State) (keeping : Keeping) → IsLawful state → IsKeeping state keeping → ViewsPass (kept_of keeping state) }
{}

/// In a lawful state each view that is named by a view that passes now the checks of its DEFINE line passes them too.
pub fn views_named_by_one_that_passes_pass()
    ensures { (state : State) (name other : Name) (query inner : QueryTree) (made : Query) → IsLawful state
        → names.get state.views name ≡ Some query → names.get state.views other ≡ Some inner → Contains (names_in query) other
        → checked state query ≡ Ok made → (own : Query) × (checked state inner ≡ Ok own) }
{}
