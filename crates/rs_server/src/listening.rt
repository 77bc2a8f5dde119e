//! What `serve` does at its address: it binds it, says that it listens, and at which port where the address leaves that to the system, and
//! serves connections.

ghost use Rattle.rs_machine.specs.Served.{Machine};
ghost use Rattle.rs_protocol.specs.Puts.{Puts};
ghost use Rattle.rs_server.specs.Connections.{ServesAddress};
ghost use Rattle.rs_server.specs.Saying.{listening_text};

use crate::connection::{CannotAccept, serve_connections};
use crate::reasons::why_not_bound;
use crate::report::Failure;
use itoa::Buffer;
use rs_protocol::{Fault, put_parts};
use rs_serve::Serve;
use std::alloc::AllocGlobal;
use std::io;
use std::io::Write;
use std::net::{Net, TcpListener, TcpStream};
use std::time::Clock;

/// Binds the address, says so on the output, and serves so many connections, as `serve_connections` does. What failed, if anything did.
pub(crate) fn serve_address<
    'a,
    P: AllocGlobal + Clock + Net<Listener = TcpListener, Stream = TcpStream>,
    E: Serve,
    W: Write,
>(rt: &P, engine: &mut E, address: &'a str, connections: u32, output: &mut W) -> Option<Failure<'a>>
    ensures served { (old : Machine) → E.is engine.old old → (new : Machine) × E.is engine.new new
        × ServesAddress address.entry connections result old new (W.contents output.old) (W.contents output.new) }
    ensures becomes { E.becomes engine.old engine.new }
{
    let (listener, port) = match bound(rt, address) {
        Ok(bound) => bound,
        Err(error) => {
            let why = why_not_bound(&error);
            return Some(Failure::CannotListen { address, why });
        }
    };
    match say_listening(output, port) {
        Ok(()) => match serve_connections(rt, rt.alloc(), engine, &listener, connections) {
            Ok(()) => None,
            Err(CannotAccept) => Some(Failure::CannotAccept),
        },
        Err(fault) => Some(Failure::Stream(fault)),
    }
}

/// A listener at the address, and the port that the system chose, where the address has the port 0.
fn bound<R: Net<Listener = TcpListener, Stream = TcpStream>>(
    rt: &R,
    address: &str,
) -> io::Result<(TcpListener, Option<u16>)> {
    let listener = TcpListener::bind(rt, address)?;
    let port = if leaves_port_open(address) {
        Some(listener.local_addr()?.port())
    } else {
        None
    };
    Ok((listener, port))
}

/// Whether what follows the last colon is the number 0.
fn leaves_port_open(address: &str) -> bool {
    match address.rsplit_once(':') {
        Some((_, port)) => port.parse::<u16>() == Ok(0),
        None => false,
    }
}

/// Says that the address is bound, and the port that the system chose.
fn say_listening<W: Write>(output: &mut W, port: Option<u16>) -> Result<(), Fault>
    ensures { Puts result (listening_text port) (W.contents output.old) (W.contents output.new) }
{
    let Some(port) = port else {
        return put_parts(output, &[b"listening\n"]);
    };
    let mut digits = Buffer::new();
    let number = digits.format(port).as_bytes();
    put_parts(output, &[b"listening\nport ", number, b"\n"])
}
