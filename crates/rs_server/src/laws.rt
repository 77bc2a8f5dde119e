//! Laws of services on one disk, one after another: a clean end and a new beginning lose nothing but cursors.

ghost use Rattle.std.specs.Prelude.{◌≡◌, ◌⊎◌, ℕ, List, Ok, Option, Result};
ghost use Rattle.rs_engine.specs.Kept.{EngineState};
ghost use Rattle.rs_engine.specs.Single.{IsOneMachine};
ghost use Rattle.rs_machine.specs.Served.{Machine};
ghost use Rattle.rs_machine.specs.State.{State};
ghost use Rattle.rs_machine.specs.Step.{without_cursors};
ghost use Rattle.rs_server.specs.Disks.{IsClosedAs, RefusesFile, ServesState};
ghost use Rattle.rs_server.specs.Reopenings.{AreDone, GoOn, Part};
ghost use Rattle.rs_server.specs.declared.report.Failure.{Failure};

use rs_disk::Disk;
use rs_engine::engine::laws::machine_is_the_only_one;
use rs_engine::rs_store::laws::disk_stands_for_one_state;
use rs_refusal::Refusal;

/// What one service left, the next one on its disk begins with: the same state, without cursors.
pub fn next_service_goes_on<D: Disk>()
    ensures { (limit : ℕ) (old disk : D) (next : Result D (Option D × Failure)) (a b c d e f g h : Option (List ℕ))
        → (one : ServesState D.Disk limit old (Ok disk) a b c d) → (other : ServesState D.Disk limit disk next e f g h)
        → other.first.state ≡ without_cursors one.serves.last.state }
{
    disk_stands_for_one_state();
}

/// A disk that was closed is refused only for want of memory or of the disk.
pub fn closed_disk_is_opened<D: Disk>()
    ensures { (limit : ℕ) (disk : D) (state : State) (next : Result D (Option D × Failure)) (a b c d : Option (List ℕ))
        → IsClosedAs D.Disk limit state disk → (refuses : RefusesFile D.Disk limit disk next a b c d)
        → (refuses.why ≡ Refusal.OutOfMemory) ⊎ (refuses.why ≡ Refusal.Disk) }
{}

/// Whatever inputs engines serve, one after another, with reopenings among them, by `reopen` or by `close` and `open` on the disk that was
/// handed back: it is one machine that serves them all, whose cursors go where the file is opened again.
pub fn services_are_of_one_machine<D: Disk>()
    ensures { (parts : List Part) (old new : EngineState D) (machine : Machine) → AreDone D.Disk parts old new → IsOneMachine D.Disk old machine
        → (last : Machine) × IsOneMachine D.Disk new last × GoOn parts machine last }
{
    machine_is_the_only_one::<D>();
    disk_stands_for_one_state();
}
