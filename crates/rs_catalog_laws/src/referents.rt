//! A route has other referents.

ghost use Rattle.std.specs.Prelude.{◌≡◌, ℕ, List, Some};
ghost use Rattle.std.specs.FinMap as names;
ghost use Rattle.rs_catalog.specs.Definitions.{AreDefinitions, Definitions, Rest, RouteItem, state_from};
ghost use Rattle.rs_catalog.specs.Referents.{at_number};
ghost use Rattle.rs_catalog_laws.specs.Rest.{one_more};
ghost use Rattle.rs_facts.specs.Fact.{Name, Names};
ghost use Rattle.rs_facts.specs.Runs.{Stretch};
ghost use Rattle.rs_machine.specs.Step.{with_referents};

/// Other referents under a route's number are the route's in the state. A route that is there has the referents under its number.
pub fn state_has_other_referents_on_a_route()
    ensures others { (definitions : Definitions) (name : Name) (item : RouteItem) (after : Names ℕ) (referents : ℕ → Names ℕ) (spans : ℕ → ℕ → List Stretch) (rest : Rest)
        → AreDefinitions definitions → names.get definitions.routes name ≡ Some item
        → state_from definitions (at_number item.number after referents) spans (one_more rest)
        ≡ with_referents (state_from definitions referents spans rest) name after }
    ensures there { (definitions : Definitions) (name : Name) (item : RouteItem) (referents : ℕ → Names ℕ) (spans : ℕ → ℕ → List Stretch) (rest : Rest)
        → names.get definitions.routes name ≡ Some item → (state_from definitions referents spans rest).referents name ≡ referents item.number }
{}
