//! The shortest line that defines a view says what any line that defines it says.

ghost use Rattle.std.specs.Prelude.{List, Ok, ℕ};
ghost use Rattle.rs_machine.specs.Request.{Asks, command};
ghost use Rattle.rs_machine_laws.specs.ViewLines.{IsReadable, shortest_view_line};
ghost use Rattle.rs_syntax.specs.Sound.{IsName};
ghost use Rattle.rs_syntax.specs.Tree.{CommandTree, QueryTree, define_view};
ghost use Rattle.rs_syntax.specs.Verdict.{Reads};

use rs_syntax::command_of_a_line_is_sound;

/// Where some line defines a view, the shortest line says so too, with the same query and text: by its words, and as a line of
/// session 0. It is readable then, since no line that defines the view is shorter; and what a readable one says it asks.
pub fn shortest_line_defines_the_view()
    ensures words { (line : List ℕ) (from : ℕ) (name : List ℕ) (query : QueryTree) (text : List ℕ) → IsName name
        → Reads line from (Ok (define_view name query text)) → Reads (shortest_view_line name text) 1 (Ok (define_view name query text)) }
    ensures line { (line : List ℕ) (session : ℕ) (name : List ℕ) (query : QueryTree) (text : List ℕ)
        → Asks line (command session (define_view name query text))
        → Asks (shortest_view_line name text) (command 0 (define_view name query text)) }
    ensures readable { (line : List ℕ) (session : ℕ) (name : List ℕ) (query : QueryTree) (text : List ℕ)
        → Asks line (command session (define_view name query text)) → IsReadable (shortest_view_line name text) }
    ensures asks { (name text : List ℕ) (tree : CommandTree) → IsReadable (shortest_view_line name text)
        → Reads (shortest_view_line name text) 1 (Ok tree) → Asks (shortest_view_line name text) (command 0 tree) }
{
    command_of_a_line_is_sound();
}
