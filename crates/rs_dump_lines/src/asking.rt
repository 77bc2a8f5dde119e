//! The line of each command of a dump asks it.

ghost use Rattle.std.specs.Prelude.{List, ℕ};
ghost use Rattle.std.specs.List.{AllByRecursion};
ghost use Rattle.rs_dump_laws.specs.Dump.{IsDumpOf};
ghost use Rattle.rs_dump_laws.specs.Lines.{IsSaid, dump_line};
ghost use Rattle.rs_dump_laws.specs.Replaying.{AreSaid};
ghost use Rattle.rs_dump_lines.specs.Texts.{HaveLines};
ghost use Rattle.rs_facts.specs.Fact.{Name};
ghost use Rattle.rs_machine.specs.Lawful.{IsLawful};
ghost use Rattle.rs_machine.specs.State.{State};
ghost use Rattle.rs_machine_laws.specs.ViewLines.{IsReadable};
ghost use Rattle.rs_methods.specs.Position.{absolute};
ghost use Rattle.rs_syntax.specs.Sound.{IsSound};
ghost use Rattle.rs_syntax.specs.Tree.{CommandTree, PieceTree, along, at_point, define_alignment, define_index, define_referent, define_route, define_table, insert};
ghost use Rattle.rs_value.specs.Row.{Row};
ghost use Rattle.rs_value.specs.declared.column.ColumnType.{ColumnType};
ghost use Rattle.rs_value.specs.declared.column.Kind.{Kind};

use rs_dump_laws::dump::commands_of_a_dump_are_sound;
use rs_machine_laws::view_lines::shortest_line_defines_the_view;

/// The line of a sound definition asks it, where it is readable: of a route, a referent, a table, an alignment or an index.
pub fn lines_of_definitions_ask_them()
    ensures route { (name : List ℕ) (start finish : ℕ) → IsSound (define_route name start finish)
        → IsReadable (dump_line (define_route name start finish)) → IsSaid (define_route name start finish) }
    ensures referent { (route name : List ℕ) (measure : ℕ) → IsSound (define_referent route name (absolute measure))
        → IsReadable (dump_line (define_referent route name (absolute measure))) → IsSaid (define_referent route name (absolute measure)) }
    ensures table { (kind : Kind) (name : List ℕ) (columns : List (List ℕ × ColumnType)) → IsSound (define_table kind name columns)
        → IsReadable (dump_line (define_table kind name columns)) → IsSaid (define_table kind name columns) }
    ensures alignment { (name : List ℕ) (pieces : List PieceTree) → IsSound (define_alignment name pieces)
        → IsReadable (dump_line (define_alignment name pieces)) → IsSaid (define_alignment name pieces) }
    ensures index { (name table column : List ℕ) → IsSound (define_index name table column)
        → IsReadable (dump_line (define_index name table column)) → IsSaid (define_index name table column) }
{}

/// The line of a sound INSERT of a row between two measures, or at one, asks it, where it is readable.
pub fn lines_of_rows_ask_them()
    ensures along { (table route : List ℕ) (from to : ℕ) (row : Row) → IsSound (insert table route (along (absolute from) (absolute to)) row)
        → IsReadable (dump_line (insert table route (along (absolute from) (absolute to)) row)) → IsSaid (insert table route (along (absolute from) (absolute to)) row) }
    ensures at { (table route : List ℕ) (measure : ℕ) (row : Row) → IsSound (insert table route (at_point (absolute measure)) row)
        → IsReadable (dump_line (insert table route (at_point (absolute measure)) row)) → IsSaid (insert table route (at_point (absolute measure)) row) }
{}

/// The lines of a dump of a lawful state ask its commands, where they are readable and some line defines each view with its text.
pub fn lines_of_a_dump_ask_its_commands()
    ensures { (texts : Name → List ℕ) (state : State) (commands : List CommandTree) → IsLawful state → IsDumpOf texts state commands
        → HaveLines texts state → AllByRecursion (λ tree. IsReadable (dump_line tree)) commands → AreSaid commands }
{
    commands_of_a_dump_are_sound();
    shortest_line_defines_the_view();
}
