//! Views are meant where their widened ones pass the checks of a query, in whatever order they come.

ghost use Rattle.rs_machine.specs.Lawful.{AreViewsMeant, Each};
ghost use Rattle.rs_machine.specs.State.{State};
ghost use Rattle.rs_machine_laws.specs.WideViews.{AreWidened, PassesWidened};

/// Views are meant just where each passes the checks of a query once every window is as wide as its route, its own and those of
/// the views that it names. That they stand in an order follows: a query that passes names tables alone once it is opened.
pub fn views_are_meant_where_widened_ones_pass()
    ensures meant { (state wide : State) → AreWidened state wide → Each state.views (PassesWidened state wide) → AreViewsMeant state }
    ensures pass { (state wide : State) → AreWidened state wide → AreViewsMeant state → Each state.views (PassesWidened state wide) }
{}
