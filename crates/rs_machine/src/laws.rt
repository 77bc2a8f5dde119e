//! What stays true whatever lines are answered: each referent has a name that a line can say.
//!
//! So a referent's name that is printed with a position can be written in a line again.

ghost use Rattle.std.specs.Prelude.{List, ℕ};
ghost use Rattle.std.specs.FinMap.{entries};
ghost use Rattle.rs_facts.specs.Fact.{Name};
ghost use Rattle.rs_methods.specs.PositionText.{AreWords};
ghost use Rattle.rs_machine.specs.State.{State, fresh};
ghost use Rattle.rs_machine.specs.Served.{Machine};
ghost use Rattle.rs_machine.specs.Answered.{Answer, Answered};
ghost use Rattle.rs_machine.specs.ReferentNames.{AreNamed};

use rs_syntax::command_of_a_line_is_sound;

/// At the beginning there is no referent.
pub fn fresh_referents_are_named()
    ensures { AreNamed fresh }
{}

/// Whatever lines are answered, the names of referents stay names that a line can say.
pub fn referents_stay_named()
    ensures { (old new : Machine) (lines : List (List ℕ)) (answers : List Answer)
        → AreNamed old.state → Answered old lines answers new → AreNamed new.state }
{
    command_of_a_line_is_sound();
}

/// They are words, which is what the printing of a position asks of them.
pub fn names_of_referents_are_words()
    ensures { (state : State) (route : Name) → AreNamed state → AreWords (entries (state.referents route)) }
{}
