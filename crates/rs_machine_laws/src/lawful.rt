//! The state is lawful at the beginning, and each accepted command and whatever lines are answered leave it lawful.

ghost use Rattle.std.specs.Prelude.{◌≡◌, ◌<◌, List, Ok, ℕ};
ghost use Rattle.rs_machine.specs.declared.limits.TheConstants.{SESSIONS};
ghost use Rattle.rs_machine.specs.State.{State, fresh};
ghost use Rattle.rs_machine.specs.Step.{Effect, outcome};
ghost use Rattle.rs_machine.specs.Served.{Machine};
ghost use Rattle.rs_machine.specs.Answered.{Answer, Answered};
ghost use Rattle.rs_machine.specs.Lawful.{IsLawful};
ghost use Rattle.rs_syntax.specs.Sound.{IsSound};
ghost use Rattle.rs_syntax.specs.Tree.{CommandTree};

use rs_syntax::command_of_a_line_is_sound;

/// The state at the beginning is lawful.
pub fn fresh_state_is_lawful()
    ensures { IsLawful fresh }
{}

/// Each accepted command of a session leaves a lawful state lawful. It must be sound, as the command of each line is.
pub fn accepted_step_leaves_the_state_lawful()
    ensures { (state : State) (session : ℕ) (tree : CommandTree) (effect : Effect) → session < SESSIONS → IsSound tree
        → IsLawful state → outcome state session tree ≡ Ok effect → IsLawful effect.state }
{}

/// Whatever lines are answered, a lawful state stays lawful.
pub fn answering_leaves_the_state_lawful()
    ensures { (old new : Machine) (lines : List (List ℕ)) (answers : List Answer)
        → IsLawful old.state → Answered old lines answers new → IsLawful new.state }
{
    command_of_a_line_is_sound();
}
