//! Connections: the lines of each are served by an engine that outlives it.
//!
//! Sessions and cursors are the engine's, so what one connection did the next one finds. A fault ends the
//! connection alone.

ghost use Rattle.std.specs.Prelude.{◌≡◌, ◌↔◌, ℕ, List, IsTrue};
ghost use Rattle.std.specs.Io.KnownBytes.{Consumes};
ghost use Rattle.std.specs.IoError.{raw_os_error};
ghost use Rattle.rs_machine.specs.Served.{Machine};
ghost use Rattle.rs_protocol.specs.Ends.{Ends};
ghost use Rattle.rs_server.specs.Connections.{IsLack, ServesNext, ServesThem};

use rs_protocol::{End, Fault, run};
use rs_serve::Serve;
use std::alloc::Global;
use std::io::{Read, Write};
use std::net::{TcpListener, TcpStream};
use std::time::{Clock, Duration};
use std::{io, thread};

/// The system's numbers for what it lacks: memory, descriptors in all and of the process, and buffers.
const LACKS: [i32; 4] = [12, 23, 24, 105];

/// How often in a row the system may lack what a connection takes.
const TRIES: u32 = 100;

/// How many thousandths of a second are waited after each of these failures.
const PAUSE: u64 = 100;

/// The system went on lacking what a connection takes, so that none was accepted.
#[derive(Clone, Copy, Debug, PartialEq, Eq)]
pub struct CannotAccept;

/// The two halves of one stream: a peer's bytes are read from the one, and its replies written to the other.
#[derive(Drop)]
pub struct Connection<R, W> {
    /// What the peer sends.
    pub reader: R,
    /// What the peer receives.
    pub writer: W,
}

impl<'a> Connection<&'a TcpStream, &'a TcpStream> {
    /// Both halves of a TCP stream. The stream stays the caller's, who closes it by dropping it.
    pub fn over(stream: &'a TcpStream) -> Self
        ensures reader { result.reader.now ≡ stream.now }
        ensures writer { result.writer.now ≡ stream.now }
    {
        Connection {
            reader: stream,
            writer: stream,
        }
    }
}

// decision: two-halves-of-a-stream
/// Serves the lines of one connection, until its end or a fault.
///
/// It is `rs_protocol::run` over the two halves: the same replies, the same end or fault, and the same engine after it.
/// A fault is the connection's alone: the engine keeps what it had accepted by then, and can serve the next
/// connection. Nothing is shut or flushed.
pub fn serve_one<E: Serve, R: Read, W: Write>(
    alloc: Global,
    engine: &mut E,
    connection: &mut Connection<R, W>,
) -> Result<End, Fault>
    ensures served { (old : Machine) → E.is engine.old old → (new : Machine) × E.is engine.new new
        × ((told : List ℕ) × Consumes (R.remaining connection.old.reader) (R.remaining connection.new.reader) told
        × Ends result told (R.remaining connection.new.reader) old new
        (W.contents connection.old.writer) (W.contents connection.new.writer)) }
    ensures becomes { E.becomes engine.old engine.new }
{
    run(
        alloc,
        engine,
        &mut connection.reader,
        &mut connection.writer,
    )
}

/// Accepts so many connections, one after another, and serves each to its end or to a fault. One that fails counts, and the next one is
/// served; what it had done by then stays.
///
/// Where the system lacks descriptors or memory, no connection has failed: it is asked again after a tenth of a second, and refused that a
/// hundred times in a row this ends.
pub fn serve_connections<C: Clock, E: Serve>(
    clock: &C,
    alloc: Global,
    engine: &mut E,
    listener: &TcpListener,
    connections: u32,
) -> Result<(), CannotAccept>
    ensures served { (old : Machine) → E.is engine.old old → (new : Machine) × E.is engine.new new × ServesThem result connections old new }
    ensures becomes { E.becomes engine.old engine.new }
{
    for _ in 0..connections {
        serve_next(clock, alloc, engine, listener)?;
    }
    Ok(())
}

/// Accepts one connection, and serves it to its end or to a fault.
fn serve_next<C: Clock, E: Serve>(
    clock: &C,
    alloc: Global,
    engine: &mut E,
    listener: &TcpListener,
) -> Result<(), CannotAccept>
    ensures served { (old : Machine) → E.is engine.old old → (new : Machine) × E.is engine.new new × ServesNext result old new }
    ensures becomes { E.becomes engine.old engine.new }
{
    match next_stream(clock, listener) {
        Ok(Some(stream)) => {
            let mut connection = Connection::over(&stream);
            let _ = serve_one(alloc, engine, &mut connection);
            Ok(())
        }
        Ok(None) => Ok(()),
        Err(fault) => Err(fault),
    }
}

/// Waits for the next connection. `None` is one that failed before it began.
fn next_stream<C: Clock>(
    clock: &C,
    listener: &TcpListener,
) -> Result<Option<TcpStream>, CannotAccept> {
    for _ in 0..TRIES {
        match listener.accept() {
            Ok((stream, _)) => return Ok(Some(stream)),
            Err(error) if is_lack(&error) => thread::sleep(clock, Duration::from_millis(PAUSE)),
            Err(_) => return Ok(None),
        }
    }
    Err(CannotAccept)
}

// decision: lack-is-no-connection
/// Whether a call failed since the system lacks descriptors or memory.
fn is_lack(error: &io::Error) -> bool
    ensures { IsTrue result ↔ IsLack (raw_os_error error.now) }
{
    match error.raw_os_error() {
        Some(number) => LACKS.contains(&number),
        None => false,
    }
}
