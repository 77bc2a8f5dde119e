//! The server's loop: what a reader tells is cut into lines, and each line is answered into a writer.
//!
//! Its own buffers are on the stack, 25 KB in all: only the reading of a command and the engine ask for memory. It flushes no
//! writer, and tries no failed call again.

ghost use Rattle.std.specs.Prelude.{◌≡◌, ◌==◌, ◌+◌, ◌<◌, ◌≤◌, ◌⊎◌, ℕ, List, if◌then◌else◌, IfOk, IfErr, IsTrue, false, is_err};
ghost use Rattle.std.specs.Io.KnownBytes.{Consumes, ReadConsumes};
ghost use Rattle.std.specs.Io.{ReadsAtMost};
ghost use Rattle.arrayvec.specs.ArrayVec.{array_vec_len};
ghost use Rattle.rs_machine.specs.Served.{Machine};
ghost use Rattle.rs_protocol.specs.declared.stream.End.TheVariants.{Whole, CutLine};
ghost use Rattle.rs_protocol.specs.Ends.{Ends, AnswersInput, StopsInInput};

use crate::lines::{Kept, serve_piece};
use crate::put::Pending;
use rs_serve::Serve;
use std::alloc::Global;
use std::io::{self, Read, Write};
use thiserror::Error;

/// How many bytes are read at once, at the most.
const PIECE_BYTES: usize = 4_096;

/// How many reads one service makes at the most.
const READS: u32 = u32::MAX;

/// The reads of one service, each counted.
#[derive(Drop)]
struct Reads {
    /// How many were made.
    made: u32,
    /// Whether the last one failed.
    failed: bool,
}

/// How the input ended.
#[derive(Clone, Copy, PartialEq, Eq, Debug)]
pub enum End {
    /// Right after an LF, or with no byte at all.
    Whole,
    /// After bytes that no LF follows; they get no reply.
    CutLine,
}

/// Why the service stopped before its input was served to the end.
#[derive(Clone, Copy, PartialEq, Eq, Debug, Error)]
pub enum Fault {
    /// The reader failed, or was asked 2^32 - 1 times and had still not told its end.
    #[error("read fault")]
    Read,
    /// The writer failed, or accepted no byte.
    #[error("write fault")]
    Write,
}

/// Serves the lines that the reader tells, until its end or a fault. Whichever reference machine the engine is, the
/// answers are that machine's.
///
/// As soon as a piece of the input has a line's LF, that line is served. The replies of a piece are gathered, 16 KB at the most, and
/// written before more is read. So `Read` leaves no whole line without its reply. `Write` may leave the replies cut off at any byte,
/// while the engine keeps what it had accepted by then, of the further lines of that piece too. `alloc` is for tokens and commands: a
/// line that finds no memory for them gets `Refusal::OutOfMemory` (90), and the next one is served.
pub fn run<E: Serve, R: Read, W: Write>(
    alloc: Global,
    engine: &mut E,
    reader: &mut R,
    writer: &mut W,
) -> Result<End, Fault>
    ensures served { (old : Machine) → E.is engine.old old → (new : Machine) × E.is engine.new new
        × ((told : List ℕ) × Consumes (R.remaining reader.old) (R.remaining reader.new) told
        × Ends result told (R.remaining reader.new) old new (W.contents writer.old) (W.contents writer.new)) }
    ensures becomes { E.becomes engine.old engine.new }
{
    let mut reads = Reads::none();
    serve_pieces(alloc, engine, reader, writer, &mut reads)
}

impl Reads {
    /// None was made yet.
    fn none() -> Self
        ensures made { result.made ≡ 0 }
        ensures failed { result.failed ≡ false }
    {
        Reads {
            made: 0,
            failed: false,
        }
    }

    /// Reads a piece, and counts it.
    fn read<R: Read>(&mut self, reader: &mut R, piece: &mut [u8]) -> io::Result<usize>
        requires { self.old.made < READS }
        ensures bound { ReadsAtMost result piece.new }
        ensures bytes { ReadConsumes (R.remaining reader.old) (R.remaining reader.new) result piece.new }
        ensures counted { self.new.made ≡ self.old.made + 1 }
        ensures failed { self.new.failed ≡ is_err result }
    {
        self.made += 1;
        let result = reader.read(piece);
        self.failed = result.is_err();
        result
    }
}

/// Serves what the reader tells, piece by piece, until its end or a fault. `Read` is answered where a read failed, and
/// where all reads were made and the end was not told; for no other reason.
fn serve_pieces<E: Serve, R: Read, W: Write>(
    alloc: Global,
    engine: &mut E,
    reader: &mut R,
    writer: &mut W,
    reads: &mut Reads,
) -> Result<End, Fault>
    requires { reads.old.made ≡ 0 }
    ensures served { (old : Machine) → E.is engine.old old → (new : Machine) × E.is engine.new new
        × ((told : List ℕ) × Consumes (R.remaining reader.old) (R.remaining reader.new) told
        × Ends result told (R.remaining reader.new) old new (W.contents writer.old) (W.contents writer.new)) }
    ensures stopped { (old : Machine) → E.is engine.old old → IfErr result (λ fault. fault ≡ Fault.Read
        → IsTrue reads.new.failed ⊎ (READS ≤ reads.new.made)) }
    ensures becomes { E.becomes engine.old engine.new }
{
    let mut kept = Kept::new();
    let mut pending = Pending::new();
    let mut piece = [0u8; PIECE_BYTES];
    while reads.made < READS {
        match reads.read(reader, &mut piece) {
            Ok(0) => return Ok(end_of(&kept)),
            Ok(count) => serve_piece(
                alloc,
                engine,
                &mut kept,
                &piece[..count],
                &mut pending,
                writer,
            )?,
            Err(_) => return Err(Fault::Read),
        }
    }
    Err(Fault::Read)
}

/// How the input ended, by what is kept of its last line.
fn end_of(kept: &Kept) -> End
    ensures { result ≡ (if array_vec_len kept.now == 0 then Whole else CutLine) }
{
    if kept.is_empty() {
        End::Whole
    } else {
        End::CutLine
    }
}

/// Serves the lines of the input, and gives what is answered.
///
/// `Write` where no memory is left for the replies, which are lost with it; `Read` where the input is longer than the
/// reads of one `run`. Either way the engine keeps what it had accepted by then.
pub fn answer<E: Serve>(alloc: Global, engine: &mut E, input: &[u8]) -> Result<Vec<u8>, Fault>
    ensures answered { (old : Machine) → E.is engine.old old → IfOk result (λ written.
        (new : Machine) × E.is engine.new new × AnswersInput input.now written.items old new) }
    ensures fault { (old : Machine) → E.is engine.old old → IfErr result (λ fault.
        (new : Machine) × E.is engine.new new × StopsInInput fault input.now old new) }
    ensures becomes { E.becomes engine.old engine.new }
{
    let mut reader = input;
    let mut written = Vec::new(alloc);
    run(alloc, engine, &mut reader, &mut written)?;
    Ok(written)
}
