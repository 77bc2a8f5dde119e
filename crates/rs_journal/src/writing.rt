//! Single calls of the disk, as the stages of a checkpoint make them.

ghost use Rattle.std.specs.Prelude.{◌≡◌, ◌+◌, ◌*◌, ◌^◌, ◌<◌, ◌≤◌, max, length, IsTrue, OnOk};
ghost use Rattle.rs_disk.specs.Content.{Holds};
ghost use Rattle.rs_disk.specs.Crash.{Same, Only};
ghost use Rattle.rs_disk.specs.Reaches.{IsOutside, KeepsWhere, Reaches};
ghost use Rattle.rs_journal.specs.Calls.{CallsDisk, SyncsDisk};

use rs_disk::Disk;
use rs_page::{PAGE_SIZE, Page};
use rs_refusal::Refusal;

/// Writes bytes from an offset on.
pub(crate) fn write_at<D: Disk>(disk: &mut D, at: u64, bytes: &[u8]) -> Result<(), Refusal>
    ensures written { IsTrue (D.is_honest disk.old) → OnOk result (Holds (D.seen disk.new) at bytes.now) }
    ensures reaches { Reaches D.Disk (KeepsWhere (IsOutside at (at + length bytes.now))) disk.old disk.new }
    ensures no_longer { IsTrue (D.is_honest disk.old) → (D.seen disk.new).size ≤ max (D.seen disk.old).size (at + length bytes.now) }
    ensures calls { CallsDisk D.Disk result disk.old disk.new }
{
    disk.write(at, bytes).map_err(|_| Refusal::Disk)
}

/// Writes a page where the page with this number lies.
pub(crate) fn write_page<D: Disk>(disk: &mut D, number: u64, page: &Page) -> Result<(), Refusal>
    requires { number < 2 ^ 40 }
    ensures written { IsTrue (D.is_honest disk.old)
        → OnOk result (Holds (D.seen disk.new) (PAGE_SIZE * number) page.now.bytes) }
    ensures size { length page.now.bytes ≡ PAGE_SIZE }
    ensures reaches { Reaches D.Disk
        (KeepsWhere (IsOutside (PAGE_SIZE * number) (PAGE_SIZE * number + PAGE_SIZE))) disk.old disk.new }
    ensures no_longer { IsTrue (D.is_honest disk.old) → (D.seen disk.new).size ≤ max (D.seen disk.old).size (PAGE_SIZE * number + PAGE_SIZE) }
    ensures calls { CallsDisk D.Disk result disk.old disk.new }
{
    write_at(disk, PAGE_SIZE as u64 * number, &page.bytes)
}

/// Waits until what was written is on the medium.
pub(crate) fn sync<D: Disk>(disk: &mut D) -> Result<(), Refusal>
    ensures reaches { Reaches D.Disk Same disk.old disk.new }
    ensures durable { IsTrue (D.keeps_crashes disk.old)
        → OnOk result (Only (D.seen disk.new) (D.may_leave disk.new)) }
    ensures calls { SyncsDisk D.Disk result disk.old disk.new }
{
    disk.sync().map_err(|_| Refusal::Disk)
}
