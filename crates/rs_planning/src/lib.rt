//! Plans: the rule of planning, the lines of EXPLAIN, and the law that a plan means its query.
//!
//! The definitions are in `specs/`: the conjuncts of a condition, the plan as a tree with its rows, the rule that gives a
//! query its plan, and the lines that EXPLAIN prints of it.
#![tactic(auto)]

pub mod laws;
