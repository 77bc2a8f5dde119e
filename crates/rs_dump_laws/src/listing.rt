//! What a state has, listed in the order of names, makes a dump; and each lawful state has one.

ghost use Rattle.std.specs.Prelude.{List, ℕ};
ghost use Rattle.rs_dump_laws.specs.Dump.{IsDumpOf};
ghost use Rattle.rs_dump_laws.specs.Listed.{AreRunsOfTables, listed_parts};
ghost use Rattle.rs_dump_laws.specs.Parts.{AreAll, ArePartsOf, IsUnder, NameViewsBefore};
ghost use Rattle.rs_facts.specs.Fact.{Name};
ghost use Rattle.rs_facts.specs.Runs.{Stretch};
ghost use Rattle.rs_machine.specs.Lawful.{IsLawful};
ghost use Rattle.rs_machine.specs.State.{State};
ghost use Rattle.rs_syntax.specs.Tree.{CommandTree, QueryTree};

/// Of a lawful state routes, referents route by route, tables, rows table by table and route by route, alignments and indexes, listed in
/// the order of their names, are all its parts, with views in an order in which none names itself or a later one.
pub fn listed_parts_are_all()
    ensures { (state : State) (spans : Name → Name → List Stretch) (views : List (Name × QueryTree))
        → IsLawful state → AreRunsOfTables state spans → AreAll (IsUnder state.views) views → NameViewsBefore views
        → ArePartsOf state (listed_parts state spans views) }
{}

/// Each lawful state has a dump, whatever the texts of its views.
pub fn lawful_state_has_a_dump()
    ensures { (texts : Name → List ℕ) (state : State) → IsLawful state → (commands : List CommandTree) × IsDumpOf texts state commands }
{}
