//! Whether a table has a fact on a route, by its spans there.

ghost use Rattle.std.specs.Prelude.{◌≡◌, ◌≢◌, [], true, false, Some};
ghost use Rattle.std.specs.FinMap as names;
ghost use Rattle.rs_facts.specs.Fact.{Name};
ghost use Rattle.rs_catalog.specs.Definitions.{RouteItem, TableItem};
ghost use Rattle.rs_catalog.specs.Events.{AreEventsOf};
ghost use Rattle.rs_command_checks.specs.declared.checks.Checks.{Checks};
ghost use Rattle.rs_command_checks.specs.Facts.{TellsOfFacts};
ghost use Rattle.rs_command_checks.specs.States.{Unseen, state_by};

/// Where no table that is there has a span on a route, none has a fact on it; where one has a span, some table has a fact.
pub fn spans_tell_of_facts()
    ensures none { (checks : Checks) (unseen : Unseen) (route : Name) (on : RouteItem) → names.get checks.catalog.now.routes route ≡ Some on
        → ((table : Name) (item : TableItem) → names.get checks.catalog.now.tables table ≡ Some item → unseen.spans item.number on.number ≡ [])
        → TellsOfFacts (state_by checks unseen) route false }
    ensures some { (checks : Checks) (unseen : Unseen) (route : Name) (on : RouteItem) → names.get checks.catalog.now.routes route ≡ Some on
        → AreEventsOf checks.catalog.now unseen.spans → (table : Name) (item : TableItem) → names.get checks.catalog.now.tables table ≡ Some item → unseen.spans item.number on.number ≢ []
        → TellsOfFacts (state_by checks unseen) route true }
{}
