//! Calls of a disk as a table, each with what it answers.
//!
//! A table's calls are made one after the other, up to one that fails or answers otherwise.

use rs_disk::{Disk, DiskFault};
use std::test::Fail;

/// A call of a disk, and what it answers.
#[derive(Clone, Copy)]
pub enum Step {
    Write(u64, &'static [u8]),
    /// A write that is refused.
    NoWrite(u64, &'static [u8]),
    /// Ten bytes from an offset on.
    Read(u64, &'static [u8; 10]),
    Sync,
    Cut(u32),
    Pages(u32),
    Failures(u64),
}

/// How many calls of a table were made: all, or those before one that failed or answered otherwise.
#[derive(Clone, Copy)]
pub enum Taken {
    All,
    Fault(usize),
    Otherwise(usize),
}

/// Whether the disk has these bytes from an offset on.
fn reads<D: Disk>(disk: &mut D, at: u64, wanted: &[u8; 10]) -> Result<bool, DiskFault> {
    let mut bytes = [0xee; 10];
    disk.read(at, &mut bytes)?;
    Ok(bytes == *wanted)
}

/// Makes a call, and answers whether the disk answers as wanted.
fn take<D: Disk>(disk: &mut D, step: Step) -> Result<bool, DiskFault> {
    match step {
        Step::Write(at, bytes) => disk.write(at, bytes)?,
        Step::NoWrite(at, bytes) => return Ok(disk.write(at, bytes).is_err()),
        Step::Read(at, wanted) => return reads(disk, at, wanted),
        Step::Sync => disk.sync()?,
        Step::Cut(pages) => disk.cut(pages)?,
        Step::Pages(pages) => return Ok(disk.pages() == pages),
        Step::Failures(failures) => return Ok(disk.failures() == failures),
    }
    Ok(true)
}

/// Makes the calls, one after the other.
pub fn take_all<D: Disk>(disk: &mut D, steps: &[Step]) -> Taken {
    for (k, step) in steps.iter().enumerate() {
        match take(disk, *step) {
            Ok(true) => {}
            Ok(false) => return Taken::Otherwise(k),
            Err(_) => return Taken::Fault(k),
        }
    }
    Taken::All
}

/// Fails the test unless all calls were made, and names the one that was the last.
pub fn expect_all(taken: Taken) -> Result<(), Fail> {
    match taken {
        Taken::All => Ok(()),
        Taken::Fault(k) => Err(Fail::new(format_args!("step {k} failed, counted from 0"))),
        Taken::Otherwise(k) => Err(Fail::new(format_args!("not so: step {k}, counted from 0"))),
    }
}
