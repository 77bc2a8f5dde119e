//! Definitions that come or go.

ghost use Rattle.std.specs.Prelude.{◌≡◌, ◌+◌, ℕ, List, None, Some};
ghost use Rattle.std.specs.FinMap as names;
ghost use Rattle.rs_catalog.specs.Changes as catalog;
ghost use Rattle.rs_catalog.specs.Definitions.{AreDefinitions, Definitions, IndexItem, IsFree, Rest, RouteItem, TableItem, ViewItem, indexed_column, no_places, state_from};
ghost use Rattle.rs_catalog.specs.Referents.{at_number};
ghost use Rattle.rs_catalog_laws.specs.Rest.{one_more};
ghost use Rattle.rs_facts.specs.Fact.{Name, Names};
ghost use Rattle.rs_facts.specs.Query.{Piece};
ghost use Rattle.rs_facts.specs.Runs.{Stretch};
ghost use Rattle.rs_facts.specs.Spans.{places_of};
ghost use Rattle.rs_machine.specs.Step as machine;
ghost use Rattle.rs_syntax.specs.QueryView.{query_tree};

/// A route of a free number without referents and rows comes, and one without rows goes with its referents.
pub fn state_has_one_route_more_or_less()
    ensures more { (definitions : Definitions) (name : Name) (item : RouteItem) (referents : ℕ → Names ℕ) (spans : ℕ → ℕ → List Stretch) (rest : Rest)
        → names.get definitions.routes name ≡ None → IsFree (λ (route : RouteItem). route.number) definitions.routes item.number
        → referents item.number ≡ names.empty → ((table : ℕ) → places_of (spans table item.number) ≡ no_places)
        → state_from (catalog.with_route definitions name item) referents spans (one_more rest)
        ≡ machine.with_route (state_from definitions referents spans rest) name item.ends.start item.ends.finish }
    ensures less { (definitions : Definitions) (name : Name) (item : RouteItem) (referents : ℕ → Names ℕ) (spans : ℕ → ℕ → List Stretch) (rest : Rest)
        → AreDefinitions definitions → names.get definitions.routes name ≡ Some item → ((table : ℕ) → places_of (spans table item.number) ≡ no_places)
        → state_from (catalog.without_route definitions name) (at_number item.number names.empty referents) spans (one_more rest)
        ≡ machine.without_route (state_from definitions referents spans rest) name }
{}

/// A table without rows comes, and one goes with its indexes.
pub fn state_has_one_table_more_or_less()
    ensures more { (definitions : Definitions) (name : Name) (item : TableItem) (referents : ℕ → Names ℕ) (spans : ℕ → ℕ → List Stretch) (rest : Rest)
        → names.get definitions.tables name ≡ None → ((route : ℕ) → places_of (spans item.number route) ≡ no_places)
        → state_from (catalog.with_table definitions name item) referents spans (one_more rest)
        ≡ machine.with_table (state_from definitions referents spans rest) name (machine.empty_table item.kind item.columns) }
    ensures less { (definitions : Definitions) (name : Name) (referents : ℕ → Names ℕ) (spans : ℕ → ℕ → List Stretch) (rest : Rest)
        → state_from (catalog.without_table definitions name) referents spans (one_more rest)
        ≡ machine.without_table (state_from definitions referents spans rest) name }
{}

/// An index, a view or an alignment comes or goes.
pub fn state_has_one_other_definition_more_or_less()
    ensures index_more { (definitions : Definitions) (name : Name) (item : IndexItem) (referents : ℕ → Names ℕ) (spans : ℕ → ℕ → List Stretch) (rest : Rest)
        → state_from (catalog.with_index definitions name item) referents spans (one_more rest)
        ≡ machine.with_index (state_from definitions referents spans rest) name (indexed_column item) }
    ensures index_less { (definitions : Definitions) (name : Name) (referents : ℕ → Names ℕ) (spans : ℕ → ℕ → List Stretch) (rest : Rest)
        → state_from (catalog.without_index definitions name) referents spans (one_more rest)
        ≡ machine.without_index (state_from definitions referents spans rest) name }
    ensures view_more { (definitions : Definitions) (name : Name) (item : ViewItem) (referents : ℕ → Names ℕ) (spans : ℕ → ℕ → List Stretch) (rest : Rest)
        → state_from (catalog.with_view definitions name item) referents spans (one_more rest)
        ≡ machine.with_view (state_from definitions referents spans rest) name (query_tree item.query) }
    ensures view_less { (definitions : Definitions) (name : Name) (referents : ℕ → Names ℕ) (spans : ℕ → ℕ → List Stretch) (rest : Rest)
        → state_from (catalog.without_view definitions name) referents spans (one_more rest)
        ≡ machine.without_view (state_from definitions referents spans rest) name }
    ensures alignment_more { (definitions : Definitions) (name : Name) (pieces : List Piece) (referents : ℕ → Names ℕ) (spans : ℕ → ℕ → List Stretch) (rest : Rest)
        → state_from (catalog.with_alignment definitions name pieces) referents spans (one_more rest)
        ≡ machine.with_alignment (state_from definitions referents spans rest) name pieces }
    ensures alignment_less { (definitions : Definitions) (name : Name) (referents : ℕ → Names ℕ) (spans : ℕ → ℕ → List Stretch) (rest : Rest)
        → state_from (catalog.without_alignment definitions name) referents spans (one_more rest)
        ≡ machine.without_alignment (state_from definitions referents spans rest) name }
{}
