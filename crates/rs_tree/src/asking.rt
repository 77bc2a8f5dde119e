//! A caller's test of summaries.

ghost use Rattle.std.specs.Fn.{FnReturnsAt};

/// What the test answers.
pub fn accepts<S, F: Fn(&S) -> bool>(keep: &F, summary: &S) -> bool
    requires { F.IsAlwaysCallable keep.now }
    ensures { FnReturnsAt F.Fn keep.now summary.now result }
{
    keep(summary)
}
