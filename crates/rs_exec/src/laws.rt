//! What joins plans by numbers with plans by names.

ghost use Rattle.rs_exec.specs.Agreement.{PlansAreTheSame};

/// Where a world and a snapshot agree on all that a plan names, the plan has the same rows by number and by name, the same
/// kind and the same width; and if it is well formed by name, it can be evaluated.
pub fn plans_are_the_same_by_number_and_by_name()
    ensures { PlansAreTheSame }
{}
