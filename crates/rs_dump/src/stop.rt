//! Why a dump ends before its end.

use rs_protocol::Fault;
use rs_refusal::Refusal;
use std::alloc::{AllocError, AllocFailed};

/// Why not all was written.
#[derive(Clone, Copy, PartialEq, Eq, Debug)]
pub enum Stop {
    /// A read was refused, or a growth: 90, 91 or 94; or there is no table of the name that was asked for: 21.
    Refused(Refusal),
    /// The output failed.
    Stream(Fault),
}

/// A refusal.
impl From<Refusal> for Stop {
    ghost use Rattle.std.specs.Prelude.{◌≡◌};
    ghost use Rattle.rs_dump.specs.declared.stop.Stop.TheVariants.{Refused};

    ghost from_gives = { λ refusal stop. stop ≡ Refused refusal };

    fn from(refusal: Refusal) -> Stop {
        Stop::Refused(refusal)
    }
}

/// Want of memory.
impl From<AllocError> for Stop {
    ghost use Rattle.std.specs.Prelude.{◌≡◌};
    ghost use Rattle.rs_dump.specs.declared.stop.Stop.TheVariants.{Refused};
    ghost use Rattle.rs_refusal.specs.declared.refusal.Refusal.TheVariants.{OutOfMemory};

    ghost from_gives = { λ _ stop. stop ≡ Refused OutOfMemory };

    fn from(_refused: AllocError) -> Stop {
        Stop::Refused(Refusal::OutOfMemory)
    }
}

/// Want of memory. The value that found no room is dropped.
impl<T: Drop> From<AllocFailed<T>> for Stop {
    ghost use Rattle.std.specs.Prelude.{◌≡◌};
    ghost use Rattle.rs_dump.specs.declared.stop.Stop.TheVariants.{Refused};
    ghost use Rattle.rs_refusal.specs.declared.refusal.Refusal.TheVariants.{OutOfMemory};

    ghost from_gives = { λ _ stop. stop ≡ Refused OutOfMemory };

    fn from(_refused: AllocFailed<T>) -> Stop {
        Stop::Refused(Refusal::OutOfMemory)
    }
}

/// A fault of the output.
impl From<Fault> for Stop {
    ghost use Rattle.std.specs.Prelude.{◌≡◌};
    ghost use Rattle.rs_dump.specs.declared.stop.Stop.TheVariants.{Stream};

    ghost from_gives = { λ fault stop. stop ≡ Stream fault };

    fn from(fault: Fault) -> Stop {
        Stop::Stream(fault)
    }
}
