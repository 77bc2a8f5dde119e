//! Windows on routes: where the positions lie that bound them.

ghost use Rattle.std.specs.Prelude.{◌≡◌, IfOk, IfErr, Ok, Err};
ghost use Rattle.rs_syntax.specs.QueryView.{window_tree};
ghost use Rattle.rs_catalog.specs.Referents.{referents_on};
ghost use Rattle.rs_checker.specs.CheckedView.{query_of, window_of, named_in, named_by_window};
ghost use Rattle.rs_checker.specs.Numbers.{IsNumberedIn, AreNumberedIn};
ghost use Rattle.rs_checker.specs.Steps.{IsStep, Stands, checked_of};
ghost use Rattle.rs_checker.specs.Nodes.{located_window, window_step};

use crate::checked::{Checked, CheckedQuery, LocatedWindow};
use crate::operand::CheckedOperand;
use rs_catalog::{Catalog, RouteReferents};
use rs_refusal::Refusal;
use rs_syntax::Window;

/// WINDOW: the rows inside. A route that is missing is refused 20; of a part, the first position is located and then
/// the second (25, 30), and the first has to lie below the second (31).
pub fn window(
    catalog: &Catalog,
    referents: &RouteReferents,
    operand: CheckedOperand,
    window: &Window,
) -> Result<Checked, Refusal>
    ensures ok { IfOk result (λ made. IsStep (window_step catalog.now (referents_on referents.now) (query_of operand.query.value) (window_tree window.now))
        (λ world. Stands world (checked_of operand)) made) }
    ensures numbers { IfOk result (λ made. AreNumberedIn catalog.now (named_in operand.query.value) → AreNumberedIn catalog.now (named_in made.query)) }
    ensures refused { IfErr result (λ refusal. window_step catalog.now (referents_on referents.now) (query_of operand.query.value) (window_tree window.now) ≡ Err refusal) }
{
    let located = located(catalog, referents, window)?;
    Ok(Checked {
        query: CheckedQuery::Window(operand.query, located),
        kind: operand.kind,
        columns: operand.columns,
    })
}

// Where the window lies.
fn located(
    catalog: &Catalog,
    referents: &RouteReferents,
    window: &Window,
) -> Result<LocatedWindow, Refusal>
    ensures ok { IfOk result (λ located. located_window catalog.now (referents_on referents.now) (window_tree window.now) ≡ Ok (window_of located)) }
    ensures numbered { IfOk result (λ located. IsNumberedIn catalog.now (named_by_window located)) }
    ensures refused { IfErr result (λ refusal. located_window catalog.now (referents_on referents.now) (window_tree window.now) ≡ Err refusal) }
{
    match window {
        Window::Whole { route } => {
            let entry = catalog.named_route(route)?;
            Ok(LocatedWindow::Whole {
                route: *route,
                number: entry.number(),
            })
        }
        Window::Part { route, from, to } => {
            let entry = catalog.named_route(route)?;
            let from = referents.located(entry, from)?.thousandths();
            let to = referents.located(entry, to)?.thousandths();
            if from >= to {
                return Err(Refusal::EmptySpan);
            }
            Ok(LocatedWindow::Part {
                route: *route,
                number: entry.number(),
                from,
                to,
            })
        }
    }
}
