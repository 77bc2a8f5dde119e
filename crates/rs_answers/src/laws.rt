//! What the present version of an inventory shows of a query.

ghost use Rattle.std.specs.Prelude.{◌≡◌};
ghost use Rattle.std.specs.FinMap as names;
ghost use Rattle.rs_answers.specs.Plans.{IsPlanFor};
ghost use Rattle.rs_answers.specs.Present.{IsPresent};
ghost use Rattle.rs_answers.specs.Shown.{HasDefinitions};
ghost use Rattle.rs_answers.specs.Versions.{SeenVersion, LiesOnRoutes, lines_seen};
ghost use Rattle.rs_catalog.specs.Definitions.{Definitions, Numbered};
ghost use Rattle.rs_catalog.specs.Referents.{HeldReferents, referents_on};
ghost use Rattle.rs_facts.specs.Query.{Query};
ghost use Rattle.rs_machine.specs.State.{State};
ghost use Rattle.rs_machine.specs.Step.{lines_of};
ghost use Rattle.rs_methods.specs.declared.position.Method.{Method};
ghost use Rattle.rs_plan.specs.declared.plan.Plan.{Plan};

use rs_machine_laws::printed::rows_lie_on_routes;

/// At a version that has the definitions, the referents and the rows of a lawful state, a plan for a query has the machine's lines of
/// the query, and rows only on routes that are there.
pub fn present_version_has_the_lines_of_the_query()
    ensures lines { (definitions : Definitions) (referents : Numbered HeldReferents) (state : State) (seen : SeenVersion)
        → HasDefinitions definitions (referents_on referents) seen → IsPresent definitions referents state seen.snapshot
        → (query : Query) (plan : Plan) → IsPlanFor definitions query plan
        → (method : Method) → lines_seen seen plan method (names.entries seen.routes) ≡ lines_of state query method }
    ensures lies { (definitions : Definitions) (referents : Numbered HeldReferents) (state : State) (seen : SeenVersion)
        → HasDefinitions definitions (referents_on referents) seen → IsPresent definitions referents state seen.snapshot
        → (query : Query) (plan : Plan) → IsPlanFor definitions query plan → LiesOnRoutes seen plan }
{
    rows_lie_on_routes();
}
