//! The disk as a trait: what its calls do to the bytes that it holds.
//!
//! A disk that keeps this model is honest. Whether it is honest is a fact of the disk that no call changes,
//! and each clause about bytes has it as its premise. The clauses about failures and syncs have none.
//!
//! Beside it is the model of crashes, with a premise of its own: what a crash may leave at each moment, and what it
//! might have left since an earlier one.

ghost use Rattle.std.specs.Prelude.{◌≡◌, ℕ, Bool, true, false, ◌*◌, ◌/◌, ◌-◌, ◌^◌, ◌≤◌, min, length, IsTrue, OnOk};
ghost use Rattle.rs_disk.specs.Content.{Content, Gives, Holds, KeepsOthers, CutsTo};
ghost use Rattle.rs_disk.specs.Counts.{Counts, Syncs};
ghost use Rattle.rs_disk.specs.Crash.{Same, Torn, CutOrNot, Passes, Only};

use rs_page::PAGE_SIZE;
use thiserror::Error;

/// A call of the disk failed. The disk has counted it.
#[derive(Clone, Copy, Debug, PartialEq, Eq, Error)]
#[error("a call of the disk failed")]
pub struct DiskFault;

/// Bytes at offsets from 0 on. Bytes past the end read as zeros.
pub trait Disk {
    /// How long the disk is, and the byte that a read gives at each offset.
    ghost seen: { Self → Content };

    /// The disk keeps this model. No call changes it, either way.
    ghost is_honest: { Self → Bool };

    /// How many calls have failed.
    ghost failures: { Self → ℕ };

    /// A sync has succeeded, and no write or cut was called since.
    ghost is_synced: { Self → Bool };

    /// The disk keeps the model of crashes. No call changes it, either way.
    ghost keeps_crashes: { Self → Bool };

    /// What a crash at this moment may leave.
    ghost may_leave: { Self → Content → Type 0 };

    /// What a crash might have left at some moment, during a call or between two, from the disk as the first is to
    /// the disk as the second is.
    ghost left_since: { Self → Self → Content → Type 0 };

    /// Fills `buffer` with the bytes from offset `at` on, zeros past the end. After a fault `buffer` may
    /// hold any bytes. The disk's bytes stay.
    fn read(&mut self, at: u64, buffer: &mut [u8]) -> Result<(), DiskFault>
        ensures bytes { IsTrue (is_honest self.old) → OnOk result (Gives (seen self.old) at buffer.new) }
        ensures same { IsTrue (is_honest self.old) → seen self.new ≡ seen self.old }
        ensures honesty { is_honest self.new ≡ is_honest self.old }
        ensures count { Counts result (failures self.old) (failures self.new) }
        ensures synced { is_synced self.new ≡ is_synced self.old }
        ensures keeping { keeps_crashes self.new ≡ keeps_crashes self.old }
        ensures crash { IsTrue (keeps_crashes self.old)
            → Passes may_leave left_since Same self.old self.new };

    /// Writes `bytes` from offset `at` on. A write past the end makes the disk longer, with zeros between;
    /// a write of no bytes changes nothing. After a fault the range has some bytes, not known which, until a
    /// write there succeeds. The bytes outside the range stay, and the size is no less than before, and no
    /// more than the greater of that and the range's end.
    fn write(&mut self, at: u64, bytes: &[u8]) -> Result<(), DiskFault>
        ensures written { IsTrue (is_honest self.old) → OnOk result (Holds (seen self.new) at bytes.now) }
        ensures others { IsTrue (is_honest self.old)
            → KeepsOthers at (length bytes.now) (seen self.old) (seen self.new) }
        ensures honesty { is_honest self.new ≡ is_honest self.old }
        ensures count { Counts result (failures self.old) (failures self.new) }
        ensures synced { is_synced self.new ≡ false }
        ensures keeping { keeps_crashes self.new ≡ keeps_crashes self.old }
        ensures crash { IsTrue (keeps_crashes self.old)
            → Passes may_leave left_since (Torn at (length bytes.now)) self.old self.new };

    /// Waits until what was written and cut is on the medium. The disk's bytes stay, after a fault too.
    fn sync(&mut self) -> Result<(), DiskFault>
        ensures same { IsTrue (is_honest self.old) → seen self.new ≡ seen self.old }
        ensures honesty { is_honest self.new ≡ is_honest self.old }
        ensures count { Counts result (failures self.old) (failures self.new) }
        ensures synced { Syncs result (is_synced self.old) (is_synced self.new) }
        ensures keeping { keeps_crashes self.new ≡ keeps_crashes self.old }
        ensures crash { IsTrue (keeps_crashes self.old)
            → Passes may_leave left_since Same self.old self.new }
        ensures durable { IsTrue (keeps_crashes self.old)
            → OnOk result (Only (seen self.new) (may_leave self.new)) };

    /// Drops all bytes past so many pages. It never makes the disk longer. After a fault it is done or not.
    fn cut(&mut self, pages: u32) -> Result<(), DiskFault>
        ensures cut { IsTrue (is_honest self.old)
            → CutsTo result (PAGE_SIZE * pages) (seen self.old) (seen self.new) }
        ensures honesty { is_honest self.new ≡ is_honest self.old }
        ensures count { Counts result (failures self.old) (failures self.new) }
        ensures synced { is_synced self.new ≡ false }
        ensures keeping { keeps_crashes self.new ≡ keeps_crashes self.old }
        ensures crash { IsTrue (keeps_crashes self.old)
            → Passes may_leave left_since (CutOrNot (PAGE_SIZE * pages)) self.old self.new };

    /// How many whole pages the disk holds, 2^32 - 1 at the most.
    fn pages(&self) -> u32
        ensures { IsTrue (is_honest self.now)
            → result ≡ min ((seen self.now).size / PAGE_SIZE) (2 ^ 32 - 1) };

    /// How many calls have failed. The count stops at 2^64 - 1.
    fn failures(&self) -> u64
        ensures { result ≡ failures self.now };

    /// Past the end an honest disk reads as zeros.
    ghost zeros_past_the_end: { (disk : Self) → IsTrue (is_honest disk)
        → (i : ℕ) → (seen disk).size ≤ i → (seen disk).byte i ≡ 0 };

    /// What a crash may leave reads as zeros past its end too.
    ghost zeros_past_an_image: { (disk : Self) → IsTrue (keeps_crashes disk)
        → (image : Content) → may_leave disk image → (i : ℕ) → image.size ≤ i → image.byte i ≡ 0 };

    /// The disk as it reads is among what a crash may leave.
    ghost reads_too: { (disk : Self) → IsTrue (keeps_crashes disk) → may_leave disk (seen disk) };

    /// A moment is among those since it.
    ghost starts_now: { (disk : Self) → IsTrue (keeps_crashes disk)
        → left_since disk disk (seen disk) };

    /// Since a start that is no later, what a crash may leave now counts.
    ghost counts_now: { (start disk : Self) → IsTrue (keeps_crashes disk)
        → (image other : Content) → left_since start disk other → may_leave disk image
        → left_since start disk image };

    /// Since this moment there was no other.
    ghost only_now: { (disk : Self) → IsTrue (keeps_crashes disk)
        → (image : Content) → left_since disk disk image → may_leave disk image };
}
