//! A table has other rows on a route.

ghost use Rattle.std.specs.Prelude.{◌≡◌, ℕ, Bool, List, Some};
ghost use Rattle.std.specs.FinMap as names;
ghost use Rattle.rs_catalog.specs.Definitions.{AreDefinitions, Definitions, Rest, RouteItem, TableItem, state_from, table_from};
ghost use Rattle.rs_catalog_laws.specs.Rest.{ChangesRows, SameRows, one_more};
ghost use Rattle.rs_facts.specs.Fact.{Name, Names};
ghost use Rattle.rs_facts.specs.Insert.{missing, new_facts, with_row};
ghost use Rattle.rs_facts.specs.Query.{Table};
ghost use Rattle.rs_facts.specs.Remove.{going, removed_facts, without_rows};
ghost use Rattle.rs_facts.specs.Runs.{Stretch};
ghost use Rattle.rs_facts.specs.Spans.{places_of};
ghost use Rattle.rs_machine.specs.Step.{with_facts_along, with_table, without_facts};
ghost use Rattle.rs_value.specs.Row.{Row};

/// Spans with the same rows make the same state.
pub fn same_rows_make_the_same_state()
    ensures { (definitions : Definitions) (referents : ℕ → Names ℕ) (spans after : ℕ → ℕ → List Stretch) (rest : Rest)
        → SameRows spans after → state_from definitions referents after rest ≡ state_from definitions referents spans rest }
{}

/// A row that is put into a table's rows on a route is put into the table's facts, and as many of them are new.
pub fn state_has_a_row_more()
    ensures { (definitions : Definitions) (name route : Name) (table : TableItem) (on : RouteItem) (referents : ℕ → Names ℕ) (spans after : ℕ → ℕ → List Stretch) (rest : Rest)
        (lo hi : ℕ) (row : Row) (there : Table)
        → AreDefinitions definitions → names.get definitions.tables name ≡ Some table → names.get definitions.routes route ≡ Some on
        → names.get (state_from definitions referents spans rest).tables name ≡ Some there → ChangesRows table.number on.number spans after
        → places_of (after table.number on.number) ≡ with_row lo hi row (places_of (spans table.number on.number))
        → (state_from definitions referents after (one_more rest) ≡ with_table (state_from definitions referents spans rest) name (with_facts_along there route lo hi row))
        × (new_facts there.facts route lo hi row ≡ missing lo hi row (places_of (spans table.number on.number))) }
{}

/// Rows that are taken from a table's rows on a route are taken from the table's facts, and as many go.
pub fn state_has_rows_less()
    ensures { (definitions : Definitions) (name route : Name) (table : TableItem) (on : RouteItem) (referents : ℕ → Names ℕ) (spans after : ℕ → ℕ → List Stretch) (rest : Rest)
        (lo hi : ℕ) (goes : Row → Bool) (there : Table)
        → AreDefinitions definitions → names.get definitions.tables name ≡ Some table → names.get definitions.routes route ≡ Some on
        → names.get (state_from definitions referents spans rest).tables name ≡ Some there → ChangesRows table.number on.number spans after
        → places_of (after table.number on.number) ≡ without_rows lo hi goes (places_of (spans table.number on.number))
        → (state_from definitions referents after (one_more rest) ≡ with_table (state_from definitions referents spans rest) name (without_facts there route lo hi goes))
        × (removed_facts there.facts route lo hi goes ≡ going lo hi goes (places_of (spans table.number on.number))) }
{}
