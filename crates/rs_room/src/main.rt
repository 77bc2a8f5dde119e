//! A program for tests: it answers the lines of its input, and says after each reply what no line shows.
//!
//! Its words are a file and the greatest number of pages that the file may have; the file is made where there is none. Without words
//! it answers from a disk in memory. After each reply comes a line `# held C P garbage G`: how many changed and how many clean pages
//! are held in memory, and how many records are dead and not cleared. It answers nothing where a row and its bytes disagree.
#![tactic(auto)]

mod rows;

use rows::rows_agree;
use rs_disk::{Disk, FileDisk, MemoryDisk, OpenError};
use rs_engine::Engine;
use rs_pages::{GREATEST_LIMIT, LEAST_LIMIT};
use rs_protocol::answer;
use rs_refusal::Refusal;
use std::alloc::{AllocError, Global};
use std::io::{BufRead, BufReader, Write};
use std::process::ExitCode;
use std::{env, io};

/// Why not all lines were answered.
#[derive(Drop)]
enum Stop {
    /// The words are not a file and a number, or the file is not to be had.
    Words,
    /// A file was not made, opened or closed.
    Refused(Refusal),
    /// The input or the output failed, or memory for them.
    Stream,
    /// A row and its bytes disagree.
    Rows,
}

impl From<io::Error> for Stop {
    fn from(_: io::Error) -> Stop {
        Stop::Stream
    }
}

impl From<AllocError> for Stop {
    fn from(_: AllocError) -> Stop {
        Stop::Stream
    }
}

fn main(rt: HostRuntime) -> ExitCode {
    match serve(&rt) {
        Ok(()) => ExitCode::from(0),
        Err(stop) => {
            let _ = tell(&mut rt.stderr(), &stop);
            ExitCode::from(1)
        }
    }
}

/// Says why not all lines were answered.
fn tell<W: Write>(errors: &mut W, stop: &Stop) -> io::Result<()> {
    match stop {
        Stop::Words => writeln!(errors, "FILE PAGES"),
        Stop::Refused(refusal) => writeln!(errors, "ERR {}", refusal.number()),
        Stop::Stream => writeln!(errors, "stream"),
        Stop::Rows => writeln!(errors, "rows"),
    }
}

/// Answers the lines of the input as the words ask.
fn serve(rt: &HostRuntime) -> Result<(), Stop> {
    let alloc = rt.alloc();
    if !rows_agree(alloc)? {
        return Err(Stop::Rows);
    }
    let words: Vec<String> = env::args(rt)?.collect(alloc)?;
    let mut input = BufReader::new(alloc, rt.stdin())?;
    let mut output = rt.stdout();
    match words.as_slice() {
        [_, file, limit] => {
            let engine = engine_of_file(rt, file.as_str(), limit_of(limit.as_str())?)?;
            answer_and_close(alloc, engine, &mut input, &mut output)
        }
        [_] => {
            let engine = made(Engine::create(alloc, MemoryDisk::new(alloc)))?;
            answer_and_close(alloc, engine, &mut input, &mut output)
        }
        _ => Err(Stop::Words),
    }
}

/// The greatest number of pages that a word says.
fn limit_of(word: &str) -> Result<u32, Stop> {
    match word.parse::<u32>() {
        Ok(limit) => Ok(limit),
        Err(_) => Err(Stop::Words),
    }
}

/// The engine over a file, which is made where there is none.
fn engine_of_file(rt: &HostRuntime, file: &str, limit: u32) -> Result<Engine<FileDisk>, Stop> {
    let limit = limit.clamp(LEAST_LIMIT, GREATEST_LIMIT);
    match FileDisk::create(rt, file) {
        Ok(disk) => made(Engine::create_within(rt.alloc(), disk, limit)),
        Err(OpenError::Exists) => match FileDisk::open(rt, file) {
            Ok(disk) => made(Engine::open_within(rt.alloc(), disk, limit)),
            Err(_) => Err(Stop::Words),
        },
        Err(_) => Err(Stop::Words),
    }
}

/// The engine, where one was made.
fn made<D: Disk + Drop>(engine: Result<Engine<D>, (D, Refusal)>) -> Result<Engine<D>, Stop> {
    match engine {
        Ok(engine) => Ok(engine),
        Err((_, refusal)) => Err(Stop::Refused(refusal)),
    }
}

/// Answers the lines of the input, and closes the file.
fn answer_and_close<D: Disk + Drop, R: BufRead, W: Write>(
    alloc: Global,
    mut engine: Engine<D>,
    input: &mut R,
    output: &mut W,
) -> Result<(), Stop> {
    answer_lines(alloc, &mut engine, input, output)?;
    match engine.close() {
        Ok(_) => Ok(()),
        Err((_, refusal)) => Err(Stop::Refused(refusal)),
    }
}

/// Answers the lines of the input.
fn answer_lines<D: Disk + Drop, R: BufRead, W: Write>(
    alloc: Global,
    engine: &mut Engine<D>,
    input: &mut R,
    output: &mut W,
) -> Result<(), Stop> {
    for line in input.lines(alloc) {
        let mut line = line?;
        line.push('\n')?;
        answer_line(alloc, engine, line.as_bytes(), output)?;
    }
    Ok(())
}

/// Answers a line, and says what is held then.
fn answer_line<D: Disk + Drop, W: Write>(
    alloc: Global,
    engine: &mut Engine<D>,
    line: &[u8],
    output: &mut W,
) -> Result<(), Stop> {
    let Ok(reply) = answer(alloc, engine, line) else {
        return Err(Stop::Stream);
    };
    output.write_all(reply.as_slice())?;
    let (changed, clean) = engine.held();
    let garbage = engine.garbage();
    writeln!(output, "# held {changed} {clean} garbage {garbage}")?;
    Ok(())
}
