//! Summaries of cells, which inner pages keep of what is below them.
//!
//! A summary of some cells is that of each, joined from the left to the right. Bytes say one summary at the most, and
//! one is said by the same bytes always.

ghost use Rattle.std.specs.Prelude.{◌≡◌, ℕ, List, [], length, refl};
ghost use Rattle.std.proofs.Common.{ap, sym, ◌∙◌};

/// What inner pages keep of the cells below them.
pub trait Summary: Copy {
    /// The bytes of a summary.
    const WIDTH: usize;

    ghost WIDTH: { ℕ };

    /// The summary of no cells.
    ghost unit: { Self };

    /// The summary of the cells of two summaries.
    ghost join: { Self → Self → Self };

    /// The summary of one cell.
    ghost of: { List ℕ → Self };

    /// These bytes say this summary.
    ghost says: { List ℕ → Self → Type 0 };

    /// The summary of no cells.
    fn unit() -> Self
        ensures { result ≡ unit };

    /// The summary of the cells of two summaries, the first's before the second's.
    fn join(self, other: Self) -> Self
        ensures { result ≡ join self other };

    /// The summary of one cell.
    fn of(cell: &[u8]) -> Self
        ensures { result ≡ of cell.now };

    /// Writes the summary.
    fn write(self, bytes: &mut [u8])
        requires { length bytes.old ≡ WIDTH }
        ensures { says bytes.new self };

    /// Reads the summary that the bytes say. Of bytes that say none it gives any.
    fn read(bytes: &[u8]) -> Self
        requires { length bytes.now ≡ WIDTH }
        ensures { (summary : Self) → says bytes.now summary → result ≡ summary };

    /// It doesn't matter which are joined first.
    ghost join_assoc: { (one two three : Self) → join (join one two) three ≡ join one (join two three) };

    /// Joining no cells before changes nothing.
    ghost unit_first: { (one : Self) → join unit one ≡ one };

    /// Joining no cells after changes nothing.
    ghost unit_last: { (one : Self) → join one unit ≡ one };

    /// A summary has the same bytes always, as many as its width.
    ghost says_width: { (bytes : List ℕ) (one : Self) → says bytes one → length bytes ≡ WIDTH };

    ghost says_same: { (bytes others : List ℕ) (one : Self) → says bytes one → says others one → bytes ≡ others };
}

/// The summary of no bytes, of a tree that keeps nothing of its cells.
#[derive(Clone, Copy)]
pub struct NoSummary;

impl Summary for NoSummary {
    const WIDTH: usize = 0;

    ghost WIDTH = { 0 };

    ghost unit = { record {} };

    ghost join = { λ _ _. record {} };

    ghost of = { λ _. record {} };

    ghost says = { λ bytes _. bytes ≡ [] };

    ghost join_assoc = { λ _ _ _. refl };

    ghost unit_first = { λ _. refl };

    ghost unit_last = { λ _. refl };

    ghost says_width = { λ _ _ none. ap length none };

    ghost says_same = { λ _ _ _ none other. none ∙ sym other };

    fn unit() -> NoSummary {
        NoSummary
    }

    fn join(self, _other: NoSummary) -> NoSummary {
        NoSummary
    }

    fn of(_cell: &[u8]) -> NoSummary {
        NoSummary
    }

    fn write(self, _bytes: &mut [u8]) {}

    fn read(_bytes: &[u8]) -> NoSummary {
        NoSummary
    }
}
