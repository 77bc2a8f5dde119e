//! What is written of a state is a dump of it, whose lines rebuild the state.

ghost use Rattle.std.specs.Prelude.{◌≡◌, ◌≤◌, ℕ, Bool, false, List, Option, length};
ghost use Rattle.std.specs.List.{AllByRecursion};
ghost use Rattle.rs_catalog.specs.Definitions.{Definitions, Numbered};
ghost use Rattle.rs_catalog.specs.Referents.{HeldReferents};
ghost use Rattle.rs_dump.specs.Dumped.{WroteAll};
ghost use Rattle.rs_dump.specs.Shown.{Shown};
ghost use Rattle.rs_dump.specs.States.{CanBeDumpedWhole, IsDumped, IsStateOf};
ghost use Rattle.rs_dump_laws.specs.Dump.{rebuilt};
ghost use Rattle.rs_dump_laws.specs.Kept.{kept_of};
ghost use Rattle.rs_dump_laws.specs.Lines.{dump_line};
ghost use Rattle.rs_dump_laws.specs.Replaying.{IsOkAnswer, NamesNoWant, dump_lines};
ghost use Rattle.rs_machine.specs.Answered.{Answer, Answered};
ghost use Rattle.rs_machine.specs.Lawful.{IsLawful};
ghost use Rattle.rs_machine.specs.Served.{Machine};
ghost use Rattle.rs_machine.specs.State.{State, fresh};
ghost use Rattle.rs_machine.specs.declared.limits.TheConstants.{CHANGES};
ghost use Rattle.rs_machine_laws.specs.ViewLines.{IsReadable};

use rs_dump_laws::keeping::kept_state_can_be_dumped;
use rs_dump_laws::listing::{lawful_state_has_a_dump, listed_parts_are_all};
use rs_dump_laws::replaying::lines_of_a_dump_rebuild_the_state;
use rs_dump_lines::asking::lines_of_a_dump_ask_its_commands;

/// What is written of the definitions, referents and spans of a lawful state, rows among them, is a dump of it without the views and the
/// alignments that were left out.
pub fn what_is_written_is_a_dump()
    ensures { (definitions : Definitions) (held : Numbered HeldReferents) (shown : Shown) (state : State) (lacks : Bool) (before after : Option (List ℕ))
        → IsStateOf definitions held shown state → WroteAll definitions held shown false lacks before after → IsDumped state lacks before after }
{
    kept_state_can_be_dumped();
    listed_parts_are_all();
}

/// Just where no alignment of a lawful state is too long for a line and each of its views passes now the checks of its DEFINE line, nothing
/// lacks in what is written of it, with its rows or without.
pub fn state_that_passes_is_dumped_whole()
    ensures whole { (definitions : Definitions) (held : Numbered HeldReferents) (shown : Shown) (state : State) (omits_rows lacks : Bool) (before after : Option (List ℕ))
        → IsStateOf definitions held shown state → WroteAll definitions held shown omits_rows lacks before after → CanBeDumpedWhole state → lacks ≡ false }
    ensures only { (definitions : Definitions) (held : Numbered HeldReferents) (shown : Shown) (state : State) (omits_rows lacks : Bool) (before after : Option (List ℕ))
        → IsStateOf definitions held shown state → WroteAll definitions held shown omits_rows lacks before after → lacks ≡ false → CanBeDumpedWhole state }
{
    lawful_state_has_a_dump();
}

/// Where each line that was dumped is readable (no longer than a line may be, and text) and there are no more of them than a file's life
/// has changes, answers from the state at the beginning that name no want are all OK, and leave the state that was dumped, without what
/// was left out, its cursors, and how many changes were accepted.
pub fn dumped_lines_rebuild_the_state()
    ensures { (state : State) (lacks : Bool) (before after : Option (List ℕ)) (dumped : IsDumped state lacks before after) → IsLawful state
        → AllByRecursion (λ tree. IsReadable (dump_line tree)) dumped.commands → length dumped.commands ≤ CHANGES
        → (old new : Machine) (answers : List Answer) → old.state ≡ fresh
        → Answered old (dump_lines dumped.commands) answers new → AllByRecursion NamesNoWant answers
        → AllByRecursion IsOkAnswer answers × (new.state ≡ rebuilt (kept_of dumped.keeping state) (length dumped.commands)) }
{
    lines_of_a_dump_ask_its_commands();
    kept_state_can_be_dumped();
    lines_of_a_dump_rebuild_the_state();
}
