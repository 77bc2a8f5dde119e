//! The program `roadseg`: it hands the process's words and streams to `rs_server::program`.
//!
//! The streams have no buffer: a reply is out once it is written, before the next line is read. No file takes the place of a stream that
//! is closed when the program starts: what is written to that stream, or read from it, would be written to the file or read from it.
#![tactic(auto)]

use rs_protocol::Fault;
use rs_server::{Failure, program, report_failure, report_unread_words};
use std::fs::{File, OpenOptions};
use std::io::{Read, Write};
use std::process::ExitCode;
use std::rt::{Env, Files};
use std::{env, io};

/// The system's number for a call on a stream that is closed.
const CLOSED: i32 = 9;

/// How much of the stack a step takes.
const STEP_BYTES: usize = 16_384;

/// How many steps the stack grows by as the program starts, to 256 KB. The system refuses a stack to grow only by ending the program; so it
/// has grown before memory gives out, and a line that then wants memory is refused by its number.
const STEPS: u32 = 15;

fn main(rt: HostRuntime) -> ExitCode {
    let (mut input, mut output, mut errors) = (rt.stdin(), rt.stdout(), rt.stderr());
    if is_closed(&output.write(&[])) {
        return ExitCode::from(report_failure(&mut errors, &Failure::Stream(Fault::Write)));
    }
    let lacks_one = is_closed(&read_nothing(&mut input, STEPS)) || is_closed(&errors.write(&[]));
    let places = if lacks_one {
        held_places(&rt).map(Some)
    } else {
        Ok(None)
    };
    let Ok(_places) = places else {
        return ExitCode::from(report_failure(&mut errors, &Failure::Stream(Fault::Read)));
    };
    let status = match own_words(&rt) {
        Ok(words) => {
            let words = words.as_slice();
            program(&rt, words, &mut input, &mut output, &mut errors)
        }
        Err(error) => report_unread_words(&mut errors, &error),
    };
    ExitCode::from(status)
}

/// Reads no byte, after so many steps down the stack and back.
fn read_nothing<R: Read>(input: &mut R, steps: u32) -> io::Result<usize> {
    let mut room = [0; STEP_BYTES];
    if steps > 0 {
        let _ = read_nothing(input, steps - 1);
    }
    input.read(&mut room[..0])
}

/// Whether a call found its stream closed.
fn is_closed(outcome: &io::Result<usize>) -> bool {
    match outcome {
        Ok(_) => false,
        Err(error) => error.raw_os_error() == Some(CLOSED),
    }
}

/// The words that the process was started with, its own name first.
fn own_words<R: Env + AllocGlobal>(rt: &R) -> io::Result<Vec<String>> {
    let words = env::args(rt)?.collect(rt.alloc())?;
    Ok(words)
}

/// What stands in the places of standard input and standard error, where these are closed: reading it fails, and what is written to it
/// goes nowhere. The system gives a file that is opened the least place that is free.
fn held_places<R: Files<File = File>>(rt: &R) -> io::Result<(File, File)> {
    let first = nothing(rt)?;
    let second = nothing(rt)?;
    Ok((first, second))
}

/// A file to which bytes may be written, and which keeps none.
fn nothing<R: Files<File = File>>(rt: &R) -> io::Result<File> {
    OpenOptions::new().write(true).open(rt, "/dev/null")
}
