//! A list of records in memory.
//!
//! It holds their bytes one after another, so that a record takes no allocation of its own.

ghost use Rattle.std.specs.Prelude.{◌≡◌, ◌≤◌, ◌<◌, ◌*◌, ◌++◌, [], ◌∷◌, Some, IfOk, OnOk, OnErr, length, slice_get, vec_len};

use crate::records::record_at;
use std::alloc::{AllocError, Global};

/// Records of one width.
#[derive(Drop)]
pub struct Cells {
    width: usize,
    count: usize,
    bytes: Vec<u8>,
    ghost some: { 0 < width },
    ghost whole: { vec_len bytes ≡ count * width },
}

impl Cells {
    ghost use Rattle.rs_records.specs.Listed.{listed, record_width};
    ghost use Rattle.rs_records.specs.Records.{records};

    /// No records of this width. Takes no memory.
    pub fn new(alloc: Global, width: usize) -> Cells
        requires { 0 < width }
        ensures none { listed result ≡ [] }
        ensures width { record_width result ≡ width }
    {
        Cells {
            width,
            count: 0,
            bytes: Vec::new(alloc),
        }
    }

    /// The records of this width that the bytes begin with, so many, copied at once. The only refusal is for want of memory.
    pub fn copied(
        alloc: Global,
        bytes: &[u8],
        width: usize,
        count: usize,
    ) -> Result<Cells, AllocError>
        requires some { 0 < width }
        requires inside { count * width ≤ length bytes.now }
        ensures width { IfOk result (λ cells. record_width cells ≡ width) }
        ensures records { IfOk result (λ cells. listed cells ≡ records count width bytes.now) }
    {
        let front = &bytes[..count * width];
        let mut copy = Vec::with_capacity(alloc, front.len())?;
        copy.extend_from_slice(front)?;
        Ok(Cells {
            width,
            count,
            bytes: copy,
        })
    }

    /// How many bytes each record has.
    pub fn width(&self) -> usize
        ensures width { result ≡ record_width self.now }
        ensures some { 0 < result }
    {
        self.width
    }

    /// How many records there are.
    pub fn len(&self) -> usize
        ensures { result ≡ length (listed self.now) }
    {
        self.count
    }

    /// The record with this index.
    pub fn get(&self, index: usize) -> &[u8]
        requires { index < length (listed self.now) }
        ensures { slice_get (listed self.now) index ≡ Some result.now }
    {
        record_at(&self.bytes, self.width, index)
    }

    /// Puts a record after the last. Without memory nothing changes.
    pub fn push(&mut self, cell: &[u8]) -> Result<(), AllocError>
        requires { length cell.now ≡ record_width self.old }
        ensures pushed { OnOk result (listed self.new ≡ listed self.old ++ cell.now ∷ []) }
        ensures stays { OnErr result (listed self.new ≡ listed self.old) }
        ensures width { record_width self.new ≡ record_width self.old }
    {
        self.bytes.extend_from_slice(cell)?;
        self.count += 1;
        Ok(())
    }
}
