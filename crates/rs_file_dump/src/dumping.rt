//! The dump of the file that a disk holds.

ghost use Rattle.std.specs.Prelude.{◌≡◌, ◌⊎◌, Err, Ok, false, IfErr, IfOk, IfSome, IsTrue, None, OnOk};
ghost use Rattle.std.specs.Option.{option_map};
ghost use Rattle.rs_dump.specs.States.{CanBeDumpedWhole, IsDumped};
ghost use Rattle.rs_file_dump.specs.Files.{DumpsDisk, RefusesDisk, StopsDumping, WantsDumping};
ghost use Rattle.rs_machine.specs.State.{State};
ghost use Rattle.rs_pages.specs.declared.pages.TheConstants.{GREATEST_LIMIT};
ghost use Rattle.rs_refusal.specs.Counts.{Rose};
ghost use Rattle.rs_refusal.specs.declared.refusal.Refusal.TheVariants as refusal;
ghost use Rattle.rs_store_source.specs.Standing.{Stands};

use crate::held::HeldFile;
use rs_disk::Disk;
use rs_dump::laws::{state_that_passes_is_dumped_whole, what_is_written_is_a_dump};
use rs_dump::{Stop, Wanted, dump};
use rs_pager::look_at_file;
use rs_pages::GREATEST_LIMIT;
use rs_store_source::rs_store::Store;
use rs_store_source::rs_store::laws::{
    disk_stands_for_one_state, look_stands_for_the_state, state_of_a_disk_is_lawful,
    store_stands_in_one_state,
};
use rs_table_reads::laws::spans_within_hold_what_the_table_holds;
use std::alloc::Global;
use std::io::Write;

/// Writes the lines that rebuild what a file holds, as `dump_disk` does. The disk is looked at and not opened, so nothing is written to it:
/// what is dumped is what stands after recovery, and a file of version 1 stays one.
pub fn dump_file<D: Disk + Drop, W: Write, E: Write>(
    alloc: Global,
    disk: D,
    wanted: Wanted<'_>,
    output: &mut W,
    errors: &mut E,
) -> Result<bool, Stop>
    ensures quiet { IfOk result (λ lacks. lacks ≡ false → E.contents errors.new ≡ E.contents errors.old) }
    ensures dumps { IsTrue (D.is_honest disk) → IfOk result (λ lacks.
        DumpsDisk GREATEST_LIMIT (D.seen disk) (option_map (λ t. t.now) wanted.entry.table) wanted.entry.omits_rows lacks (W.contents output.old) (W.contents output.new)) }
    ensures whole { IsTrue (D.is_honest disk) → wanted.entry.table ≡ None → wanted.entry.omits_rows ≡ false → IfOk result (λ lacks.
        (state : State) × Stands GREATEST_LIMIT (D.seen disk) state × IsDumped state lacks (W.contents output.old) (W.contents output.new)) }
    ensures nothing_lacks { IsTrue (D.is_honest disk) → wanted.entry.table ≡ None → (state : State) → Stands GREATEST_LIMIT (D.seen disk) state
        → CanBeDumpedWhole state → IfOk result (λ lacks. lacks ≡ false) }
    ensures passes { IsTrue (D.is_honest disk) → wanted.entry.table ≡ None → (state : State) → Stands GREATEST_LIMIT (D.seen disk) state
        → result ≡ Ok false → CanBeDumpedWhole state }
    ensures whole_table { IfSome wanted.entry.table (λ _. IfOk result (λ lacks. lacks ≡ false)) }
    ensures wants { IfErr result WantsDumping }
    ensures stops { IsTrue (D.is_honest disk) → IfErr result (λ stop.
        RefusesDisk GREATEST_LIMIT (D.seen disk) stop (W.contents output.old) (W.contents output.new)
        ⊎ StopsDumping GREATEST_LIMIT (D.seen disk) (option_map (λ t. t.now) wanted.entry.table) wanted.entry.omits_rows stop (W.contents output.old) (W.contents output.new)) }
{
    look_stands_for_the_state();
    match look_at_file(alloc, disk) {
        Ok(looked) => {
            let (_looked, ended) = dump_disk(alloc, looked, wanted, output, errors);
            ended
        }
        Err((_disk, refusal)) => Err(Stop::Refused(refusal)),
    }
}

/// Writes the lines that rebuild what the file on the disk holds, and says whether something was told and left out. The file is read and
/// checked as a whole first: it is refused with 94 where it is damaged, with 95 where it was not closed, and with 90 or 91. Where one table
/// is wanted that is not there, it is refused with 21. The disk is handed back, whatever is answered. Of all, nothing is left out just where
/// no alignment of the file's state is too long for a line and each view passes now the checks of its DEFINE line.
///
/// Opening the disk may write to it: a file of version 2 is recovered, and one of version 1 that was closed becomes one of version 2.
pub fn dump_disk<D: Disk, W: Write, E: Write>(
    alloc: Global,
    disk: D,
    wanted: Wanted<'_>,
    output: &mut W,
    errors: &mut E,
) -> (D, Result<bool, Stop>)
    ensures honesty { D.is_honest result.0 ≡ D.is_honest disk }
    ensures quiet { IfOk result.1 (λ lacks. lacks ≡ false → E.contents errors.new ≡ E.contents errors.old) }
    ensures dumps { IsTrue (D.is_honest disk) → IfOk result.1 (λ lacks.
        DumpsDisk GREATEST_LIMIT (D.seen disk) (option_map (λ t. t.now) wanted.entry.table) wanted.entry.omits_rows lacks (W.contents output.old) (W.contents output.new)) }
    ensures whole { IsTrue (D.is_honest disk) → wanted.entry.table ≡ None → wanted.entry.omits_rows ≡ false → IfOk result.1 (λ lacks.
        (state : State) × Stands GREATEST_LIMIT (D.seen disk) state × IsDumped state lacks (W.contents output.old) (W.contents output.new)) }
    ensures nothing_lacks { IsTrue (D.is_honest disk) → wanted.entry.table ≡ None → (state : State) → Stands GREATEST_LIMIT (D.seen disk) state
        → CanBeDumpedWhole state → IfOk result.1 (λ lacks. lacks ≡ false) }
    ensures passes { IsTrue (D.is_honest disk) → wanted.entry.table ≡ None → (state : State) → Stands GREATEST_LIMIT (D.seen disk) state
        → result.1 ≡ Ok false → CanBeDumpedWhole state }
    ensures whole_state { IsTrue (D.is_honest disk) → wanted.entry.table ≡ None → wanted.entry.omits_rows ≡ false
        → (state : State) → Stands GREATEST_LIMIT (D.seen disk) state → CanBeDumpedWhole state
        → OnOk result.1 (IsDumped state false (W.contents output.old) (W.contents output.new)) }
    ensures whole_table { IfSome wanted.entry.table (λ _. IfOk result.1 (λ lacks. lacks ≡ false)) }
    ensures wants { IfErr result.1 WantsDumping }
    ensures failed { result.1 ≡ Err (Stop.Refused refusal.Disk) → Rose (D.failures disk) (D.failures result.0) }
    ensures stops { IsTrue (D.is_honest disk) → IfErr result.1 (λ stop.
        RefusesDisk GREATEST_LIMIT (D.seen disk) stop (W.contents output.old) (W.contents output.new)
        ⊎ StopsDumping GREATEST_LIMIT (D.seen disk) (option_map (λ t. t.now) wanted.entry.table) wanted.entry.omits_rows stop (W.contents output.old) (W.contents output.new)) }
{
    what_is_written_is_a_dump();
    state_that_passes_is_dumped_whole();
    disk_stands_for_one_state();
    spans_within_hold_what_the_table_holds();
    store_stands_in_one_state::<D>();
    state_of_a_disk_is_lawful();
    match Store::open(alloc, disk, GREATEST_LIMIT) {
        Ok(store) => {
            let mut held = HeldFile { store };
            let ended = dump(alloc, &mut held, wanted, output, errors);
            (held.store.into_disk(), ended)
        }
        Err((disk, refusal)) => (disk, Err(Stop::Refused(refusal))),
    }
}
