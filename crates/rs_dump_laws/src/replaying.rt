//! The lines of a dump, answered from the state at the beginning, rebuild the state.

ghost use Rattle.std.specs.Prelude.{◌≡◌, List, ◌≤◌, ℕ, length};
ghost use Rattle.std.specs.List.{AllByRecursion};
ghost use Rattle.rs_dump_laws.specs.Dump.{IsDumpOf, ViewsPass, rebuilt};
ghost use Rattle.rs_dump_laws.specs.Replaying.{AreSaid, IsOkAnswer, NamesNoWant, dump_lines};
ghost use Rattle.rs_facts.specs.Fact.{Name};
ghost use Rattle.rs_machine.specs.Answered.{Answer, Answered};
ghost use Rattle.rs_machine.specs.Lawful.{IsLawful};
ghost use Rattle.rs_machine.specs.Served.{Machine};
ghost use Rattle.rs_machine.specs.State.{State, fresh};
ghost use Rattle.rs_machine.specs.declared.limits.TheConstants.{CHANGES};
ghost use Rattle.rs_syntax.specs.Tree.{CommandTree};

use rs_syntax::line_has_one_answer;

/// Where each line of a dump asks its command, the lines can be answered OK, each of them, from the state at the beginning. Whenever
/// they are answered from there, and no answer names a want of memory, of the disk or of room, each is answered OK and the last
/// leaves the state that was dumped, without its cursors.
pub fn lines_of_a_dump_rebuild_the_state()
    ensures can { (texts : Name → List ℕ) (state : State) (commands : List CommandTree)
        → IsLawful state → ViewsPass state → length commands ≤ CHANGES → IsDumpOf texts state commands → AreSaid commands
        → (old : Machine) → old.state ≡ fresh
        → (answers : List Answer) × (new : Machine) × Answered old (dump_lines commands) answers new × AllByRecursion IsOkAnswer answers }
    ensures all { (texts : Name → List ℕ) (state : State) (commands : List CommandTree)
        → IsLawful state → ViewsPass state → length commands ≤ CHANGES → IsDumpOf texts state commands → AreSaid commands
        → (old new : Machine) (answers : List Answer) → old.state ≡ fresh
        → Answered old (dump_lines commands) answers new → AllByRecursion NamesNoWant answers
        → AllByRecursion IsOkAnswer answers × (new.state ≡ rebuilt state (length commands)) }
{
    line_has_one_answer();
}
