//! When a change is made.

ghost use Rattle.rs_table_changes.specs.Inner.{EndsSo};

// decision: ended-and-taken-out
/// When a change is made: the version that shows it first, and the oldest version that is to see what it saw.
#[derive(Clone, Copy)]
pub struct Moment {
    /// The version of the change.
    pub version: u64,
    /// The oldest version that is live after it.
    pub oldest: u64,
}

impl Moment {
    /// The version at which events end. It is 0 where no version before the change is live: they are taken out then.
    pub(crate) fn end(self) -> u64
        ensures { EndsSo result self.version self.oldest }
    {
        if self.oldest < self.version {
            self.version
        } else {
            0
        }
    }
}
