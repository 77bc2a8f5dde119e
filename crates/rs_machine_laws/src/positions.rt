//! A printed position can be sent: where its text stands in a line, the tokens of the line say that position.
//!
//! What a text says and what the tokens of a line say are two definitions. The first law joins them; the second
//! is on the positions that are printed in a lawful state, which are located again where they came from.

ghost use Rattle.std.specs.Prelude.{◌≡◌, ℕ, ◌+◌, List, length, Some, Ok};
ghost use Rattle.std.specs.FinMap as names;
ghost use Rattle.rs_methods.specs.Position.{PositionExpression};
ghost use Rattle.rs_methods.specs.PositionText.{TextSaysPosition};
ghost use Rattle.rs_methods.specs.declared.position.Method.{Method};
ghost use Rattle.rs_facts.specs.Fact.{Name};
ghost use Rattle.rs_facts.specs.Query.{RouteEnds};
ghost use Rattle.rs_machine.specs.State.{State};
ghost use Rattle.rs_machine.specs.Checks.{position_on};
ghost use Rattle.rs_machine.specs.Step.{position_text};
ghost use Rattle.rs_machine.specs.Lawful.{IsPlaceOf, IsLawful};
ghost use Rattle.rs_machine_laws.specs.TokensSay.{StandsAt, TokensSay, HasName};
ghost use Rattle.rs_machine_laws.specs.PrintedPositions.{printed_expression};

use rs_machine::laws::names_of_referents_are_words;
use rs_methods::{ceiling_rounds_up, printed_position_is_read_back};

/// What a text says, the tokens of a line say wherever the text stands in it before a blank or the line's end.
pub fn tokens_say_what_the_text_says()
    ensures { (line : List ℕ) (place : ℕ) (text : List ℕ) (position : PositionExpression)
        → TextSaysPosition text position → HasName position → StandsAt line place text
        → TokensSay line place (place + length text) position }
{}

/// In a lawful state the printed position of a measure of a route is said by the tokens of each line in which it
/// stands, by each method.
pub fn printed_positions_are_said_by_lines()
    ensures { (state : State) (route : Name) (ends : RouteEnds) (method : Method) (k : ℕ) (line : List ℕ) (place : ℕ)
        → IsLawful state → names.get state.routes route ≡ Some ends → IsPlaceOf k ends
        → StandsAt line place (position_text state route ends method k)
        → TokensSay line place (place + length (position_text state route ends method k)) (printed_expression state route ends method k) }
{
    printed_position_is_read_back();
    names_of_referents_are_words();
}

/// And that position lies at the measure that was printed.
pub fn printed_positions_lie_where_they_were()
    ensures { (state : State) (route : Name) (ends : RouteEnds) (method : Method) (k : ℕ)
        → IsLawful state → names.get state.routes route ≡ Some ends → IsPlaceOf k ends
        → position_on state route ends (printed_expression state route ends method k) ≡ Ok k }
{
    ceiling_rounds_up();
}
