//! The commands of a dump rebuild the state, and are sound.

ghost use Rattle.std.specs.Prelude.{List, ◌≤◌, ℕ, length};
ghost use Rattle.std.specs.List.{AllByRecursion};
ghost use Rattle.rs_dump_laws.specs.Accepted.{Accepted};
ghost use Rattle.rs_dump_laws.specs.Dump.{IsDumpOf, ViewsPass, rebuilt};
ghost use Rattle.rs_facts.specs.Fact.{Name};
ghost use Rattle.rs_machine.specs.Lawful.{IsLawful};
ghost use Rattle.rs_machine.specs.State.{State, fresh};
ghost use Rattle.rs_machine.specs.declared.limits.TheConstants.{CHANGES};
ghost use Rattle.rs_syntax.specs.Sound.{IsSound};
ghost use Rattle.rs_syntax.specs.Tree.{CommandTree};

/// From the state at the beginning the commands of a dump are accepted one after another, and the last leaves the state that was
/// dumped, without its cursors and with as many changes as there are commands. The state is lawful, each of its views passes now
/// the checks of its DEFINE line, and there are no more commands than a file's life has changes.
pub fn dump_rebuilds_the_state()
    ensures { (texts : Name → List ℕ) (state : State) (commands : List CommandTree)
        → IsLawful state → ViewsPass state → length commands ≤ CHANGES → IsDumpOf texts state commands
        → Accepted fresh commands (rebuilt state (length commands)) }
{}

/// Each command of a dump of a lawful state is sound: its names are names, its numbers are in their ranges, and its texts are
/// UTF-8 without control bytes.
pub fn commands_of_a_dump_are_sound()
    ensures { (texts : Name → List ℕ) (state : State) (commands : List CommandTree)
        → IsLawful state → IsDumpOf texts state commands → AllByRecursion IsSound commands }
{}
