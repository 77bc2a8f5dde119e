//! The file, over any disk in its place: it is made, or opened, served and closed.
//!
//! A disk is handed back where it was closed, or not opened at all. The first failure alone is told: a file that is not closed after
//! another failure is no second one.

ghost use Rattle.std.specs.Prelude.{◌≡◌, IfSome, IsTrue};
ghost use Rattle.rs_engine.specs.Single.{IsOneMachine};
ghost use Rattle.rs_engine.specs.Lasting.{IsLast, LeavesOneOf};
ghost use Rattle.rs_machine.specs.Served.{Machine};
ghost use Rattle.rs_machine.specs.State.{State};
ghost use Rattle.rs_machine.specs.Step.{without_cursors};
ghost use Rattle.rs_pages.specs.declared.pages.TheConstants.{GREATEST_LIMIT};
ghost use Rattle.rs_server.specs.Disks.{Closes, CreatesFile, ServesAndCloses, ServesAtAndCloses, ServesFile, ServesFileAt, disk_of, failure_of};

use crate::listening::serve_address;
use crate::reopened::Reopened;
use crate::report::Failure;
use rs_disk::Disk;
use rs_engine::Engine;
use rs_engine::engine::laws::{machine_is_the_only_one, steps_leave_a_front};
use rs_protocol::{End, Fault, run};
use std::alloc::{AllocGlobal, Global};
use std::io::{Read, Write};
use std::net::{Net, TcpListener, TcpStream};
use std::time::Clock;

/// Writes the file in which nothing is defined in place of all that the disk holds, and closes it.
pub fn create_on<D: Disk + Drop>(alloc: Global, disk: D) -> Result<D, (Option<D>, Failure<'static>)>
    ensures { IsTrue (D.is_honest disk) → CreatesFile D.Disk GREATEST_LIMIT disk result }
{
    machine_is_the_only_one::<D>();
    match Engine::create(alloc, disk) {
        Ok(engine) => close_after(engine, None),
        Err((disk, refusal)) => Err((Some(disk), Failure::Refused(refusal))),
    }
}

/// Opens the file that the disk holds, serves the lines of the input on the output, and closes it, after a fault too. A file of version 2 is
/// recovered as it is opened, and one of version 1 that was closed becomes one of version 2.
pub fn serve_disk<D: Disk + Drop, R: Read, W: Write>(
    alloc: Global,
    disk: D,
    input: &mut R,
    output: &mut W,
) -> Result<D, (Option<D>, Failure<'static>)>
    ensures { IsTrue (D.is_honest disk) → ServesFile D.Disk GREATEST_LIMIT disk result (R.remaining input.old) (R.remaining input.new)
        (W.contents output.old) (W.contents output.new) }
{
    machine_is_the_only_one::<D>();
    match Engine::open(alloc, disk) {
        Ok(engine) => serve_and_close(alloc, engine, input, output),
        Err((disk, refusal)) => Err((Some(disk), Failure::Refused(refusal))),
    }
}

/// Serves the lines of the input on the output, and closes the file, after a fault too.
fn serve_and_close<D: Disk + Drop, R: Read, W: Write>(
    alloc: Global,
    engine: Engine<D>,
    input: &mut R,
    output: &mut W,
) -> Result<D, (Option<D>, Failure<'static>)>
    ensures { (machine : Machine) (kept : State) → IsOneMachine D.Disk engine machine → IsLast D.Disk engine.store.pager kept
        → ServesAndCloses D.Disk GREATEST_LIMIT machine kept engine.store.pager.disk result
        (R.remaining input.old) (R.remaining input.new) (W.contents output.old) (W.contents output.new) }
{
    steps_leave_a_front::<D>();
    let mut reopened = Reopened::new(engine);
    let outcome = run(alloc, &mut reopened, input, output);
    let (engine, failure) = reopened.end(failure_after(outcome));
    close_after(engine, failure)
}

// decision: port-told-where-chosen
/// Opens the file that the disk holds, serves so many connections at the address, one after another, and closes it, after a failure too.
pub fn serve_disk_at<
    'a,
    P: AllocGlobal + Clock + Net<Listener = TcpListener, Stream = TcpStream>,
    D: Disk + Drop,
    W: Write,
>(
    rt: &P,
    disk: D,
    address: &'a str,
    connections: u32,
    output: &mut W,
) -> Result<D, (Option<D>, Failure<'a>)>
    ensures { IsTrue (D.is_honest disk) → ServesFileAt D.Disk GREATEST_LIMIT address.entry connections disk result (W.contents output.old) (W.contents output.new) }
{
    machine_is_the_only_one::<D>();
    match Engine::open(rt.alloc(), disk) {
        Ok(engine) => serve_at_and_close(rt, engine, address, connections, output),
        Err((disk, refusal)) => Err((Some(disk), Failure::Refused(refusal))),
    }
}

/// Serves so many connections at the address, and closes the file, after a failure too.
fn serve_at_and_close<
    'a,
    P: AllocGlobal + Clock + Net<Listener = TcpListener, Stream = TcpStream>,
    D: Disk + Drop,
    W: Write,
>(
    rt: &P,
    engine: Engine<D>,
    address: &'a str,
    connections: u32,
    output: &mut W,
) -> Result<D, (Option<D>, Failure<'a>)>
    ensures { (machine : Machine) (kept : State) → IsOneMachine D.Disk engine machine → IsLast D.Disk engine.store.pager kept
        → ServesAtAndCloses D.Disk GREATEST_LIMIT address.entry connections machine kept engine.store.pager.disk result
        (W.contents output.old) (W.contents output.new) }
{
    steps_leave_a_front::<D>();
    let mut reopened = Reopened::new(engine);
    let failure = serve_address(rt, &mut reopened, address, connections, output);
    let (engine, failure) = reopened.end(failure);
    close_after(engine, failure)
}

/// The failure of a service, where there was one.
pub(crate) fn failure_after(outcome: Result<End, Fault>) -> Option<Failure<'static>>
    ensures { result ≡ failure_of outcome }
{
    match outcome {
        Ok(_) => None,
        Err(fault) => Some(Failure::Stream(fault)),
    }
}

/// Closes the file. Where that is refused (90, 91) the disk is not handed back, and the refusal is told where nothing failed before.
pub(crate) fn close_after<'a, D: Disk + Drop>(
    engine: Engine<D>,
    failure: Option<Failure<'a>>,
) -> Result<D, (Option<D>, Failure<'a>)>
    ensures closes { (machine : Machine) → IsOneMachine D.Disk engine machine → Closes D.Disk GREATEST_LIMIT machine failure.entry result }
    ensures meanwhile { (machine : Machine) (last : State) → IsOneMachine D.Disk engine machine → IsLast D.Disk engine.store.pager last
        → IsTrue (D.keeps_crashes engine.store.pager.disk)
        → IfSome (disk_of result) (LeavesOneOf D.Disk engine.store.pager.limit last (without_cursors machine.state) engine.store.pager.disk) }
{
    // For the proof: that the committed pages are within the limit.
    let _ = engine.limit();
    match (engine.close(), failure) {
        (Ok(disk), None) => Ok(disk),
        (Ok(disk), Some(failure)) => Err((Some(disk), failure)),
        // (the engine is dropped by a call, so that the proof does not take it apart)
        (Err((engine, _refusal)), Some(failure)) => {
            drop(engine);
            Err((None, failure))
        }
        (Err((engine, refusal)), None) => {
            drop(engine);
            Err((None, Failure::Refused(refusal)))
        }
    }
}
