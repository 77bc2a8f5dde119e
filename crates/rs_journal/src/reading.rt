//! Single reads of the disk. They change nothing, neither of what a read gives nor of what a crash may leave.

ghost use Rattle.std.specs.Prelude.{◌≡◌, ℕ, ◌+◌, ◌*◌, ◌^◌, ◌<◌, slice_index, IsTrue, OnOk, IfOk};
ghost use Rattle.rs_disk.specs.Content.{Gives};
ghost use Rattle.rs_disk.specs.Crash.{Same};
ghost use Rattle.rs_page.specs.declared.page.TheConstants.{PAGE_SIZE};
ghost use Rattle.rs_journal.specs.Calls.{CallsDisk};
ghost use Rattle.rs_journal.specs.FilePages.{word_at};
ghost use Rattle.rs_journal.specs.declared.limits.TheConstants.{GATE};
ghost use Rattle.rs_disk.specs.Reaches.{Reaches};

use crate::limits::GATE;
use rs_disk::Disk;
use rs_page::bytes::number_of_four;
use rs_page::{PAGE_SIZE, Page};
use rs_refusal::Refusal;

/// Reads the bytes from an offset on.
pub(crate) fn read_at<D: Disk>(disk: &mut D, at: u64, buffer: &mut [u8]) -> Result<(), Refusal>
    ensures bytes { IsTrue (D.is_honest disk.old) → OnOk result (Gives (D.seen disk.old) at buffer.new) }
    ensures reaches { Reaches D.Disk Same disk.old disk.new }
    ensures calls { CallsDisk D.Disk result disk.old disk.new }
{
    disk.read(at, buffer).map_err(|_| Refusal::Disk)
}

/// Reads the number in the four bytes from an offset on.
pub(crate) fn read_word<D: Disk>(disk: &mut D, at: u64) -> Result<u32, Refusal>
    ensures word { IsTrue (D.is_honest disk.old)
        → IfOk result (λ word. word ≡ word_at (D.seen disk.old).byte at) }
    ensures reaches { Reaches D.Disk Same disk.old disk.new }
    ensures calls { CallsDisk D.Disk result disk.old disk.new }
{
    let mut bytes = [0; 4];
    read_at(disk, at, &mut bytes)?;
    Ok(number_of_four(&bytes, 0))
}

/// Reads the byte at an offset.
pub(crate) fn read_byte<D: Disk>(disk: &mut D, at: u64) -> Result<u8, Refusal>
    ensures byte { IsTrue (D.is_honest disk.old) → IfOk result (λ byte. byte ≡ (D.seen disk.old).byte at) }
    ensures reaches { Reaches D.Disk Same disk.old disk.new }
    ensures calls { CallsDisk D.Disk result disk.old disk.new }
{
    let mut bytes = [0; 1];
    read_at(disk, at, &mut bytes)?;
    Ok(bytes[0])
}

/// Reads the gate byte.
pub(crate) fn read_gate<D: Disk>(disk: &mut D) -> Result<u8, Refusal>
    ensures gate { IsTrue (D.is_honest disk.old)
        → IfOk result (λ byte. byte ≡ (D.seen disk.old).byte GATE) }
    ensures reaches { Reaches D.Disk Same disk.old disk.new }
    ensures calls { CallsDisk D.Disk result disk.old disk.new }
{
    read_byte(disk, GATE)
}

/// Reads the page with this number.
pub(crate) fn read_page<D: Disk>(disk: &mut D, number: u64, page: &mut Page) -> Result<(), Refusal>
    requires { number < 2 ^ 40 }
    ensures bytes { IsTrue (D.is_honest disk.old) → OnOk result ((j : ℕ) → j < PAGE_SIZE
        → slice_index page.new.bytes j ≡ (D.seen disk.old).byte (PAGE_SIZE * number + j)) }
    ensures reaches { Reaches D.Disk Same disk.old disk.new }
    ensures calls { CallsDisk D.Disk result disk.old disk.new }
{
    read_at(disk, PAGE_SIZE as u64 * number, &mut page.bytes)
}
