//! The stages of a checkpoint.

/// What a checkpoint has reached. A fault leaves it, and the next call resumes there.
#[derive(Clone, Copy, PartialEq, Eq, Debug)]
pub enum Stage {
    /// The gate was not touched: a crash leaves the pages kept last. The next call begins anew.
    Fresh,
    /// The journal is on the medium, and the gate may be open or not: a crash leaves the pages kept last or the
    /// checkpoint's. The next call opens the gate.
    Gate,
    /// The gate is open: a crash leaves the checkpoint's pages. The next call brings the copies home, and leaves the
    /// gate alone, since a byte that is written may be any other after a crash.
    Home,
    /// The copies are at home, and the gate may be open or not: a crash leaves the checkpoint's pages. The next call
    /// closes the gate.
    Closing,
}
