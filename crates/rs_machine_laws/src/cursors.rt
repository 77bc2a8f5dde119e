//! A cursor is a snapshot: what it gives is what SELECT would have printed when it was opened.

ghost use Rattle.std.specs.Prelude.{◌≡◌, ◌<◌, ℕ, ◌++◌, Contains, List, Some, length};
ghost use Rattle.std.specs.FinMap as names;
ghost use Rattle.rs_facts.specs.Fact.{Name};
ghost use Rattle.rs_methods.specs.declared.position.Method.{Method};
ghost use Rattle.rs_syntax.specs.Tree.{QueryTree, fetch};
ghost use Rattle.rs_machine.specs.State.{RowText};
ghost use Rattle.rs_machine.specs.Served.{Machine, done};
ghost use Rattle.rs_machine.specs.Answered.{Answer, Answered};
ghost use Rattle.rs_machine_laws.specs.Given.{AreCommandsOf, Exchange, IsOpenOver, Prints, Steps, exchange, given};

use rs_syntax::line_has_an_answer;

/// While a cursor is open, the rows that its FETCHes were answered, one after another, are the first of those that SELECT would
/// have printed at its OPEN, whatever any session has said since; the others are those that it has still to give. Once a FETCH
/// of it was answered fewer rows than it asked for, they are all of those.
pub fn cursors_give_what_select_would_have_printed()
    ensures prefix { (old new : Machine) (session : ℕ) (name : Name) (query : QueryTree) (method : Method) (steps : List Exchange)
        → IsOpenOver old session name query method steps new
        → (rest : List RowText) × Prints old.state query method (given session name steps ++ rest)
        × (names.get (new.state.cursors session) name ≡ Some rest) }
    ensures all { (old new : Machine) (session : ℕ) (name : Name) (query : QueryTree) (method : Method) (steps : List Exchange)
        → IsOpenOver old session name query method steps new
        → (asked count : ℕ) (rows : List RowText) → Contains steps (exchange session (fetch name asked) (done rows count)) → length rows < asked
        → Prints old.state query method (given session name steps) }
{}

/// Lines that are answered are steps: the commands of the lines, each with its session and its answer. So the law is one over
/// whatever lines are answered.
pub fn answered_lines_are_steps()
    ensures { (old new : Machine) (lines : List (List ℕ)) (answers : List Answer) → Answered old lines answers new
        → (steps : List Exchange) × AreCommandsOf lines answers steps × Steps old steps new }
{
    line_has_an_answer();
}
