//! This module lists the dead cells in the order in which they died, now and at the last commit.
//!
//! They lie one after another in one buffer. Those of the last commit are a part of the same bytes, so that neither a commit
//! nor an abandonment takes memory.

ghost use Rattle.std.specs.Prelude.{◌≡◌, ◌≤◌, ◌*◌, ◌-◌, ◌++◌, List, [], ◌∷◌, IfOk, OnOk, OnErr, take, drop, length};
ghost use Rattle.std.specs.List.{AllByRecursion};
ghost use Rattle.rs_records.specs.Listed.{listed, record_width};
ghost use Rattle.rs_cell_versions.specs.Changes.{cleared};
ghost use Rattle.rs_cell_versions.specs.Version.{died_of, ended};

use crate::cell::{end_at, is_clearable};
use rs_records::{Cells, record_at};
use std::alloc::{AllocError, Global};
use std::marker::Model;

/// Dead cells of one width, those that died first before the others.
#[derive(Drop)]
pub struct Dead {
    width: usize,
    /// The cells, and after the last of them one that is written and not listed yet.
    bytes: Vec<u8>,
    first: usize,
    end: usize,
    kept_first: usize,
    kept_end: usize,
}

impl Model for Dead {
    ghost use Rattle.std.specs.Prelude.{◌*◌, drop};
    ghost use Rattle.rs_cell_versions.specs.DeadCells.{DeadCells, HoldsDead, part};

    ghost Value = { DeadCells };

    ghost view = { λ dead. record {
      width = dead.width;
      working = part dead.first dead.end dead.width dead.bytes.items;
      committed = part dead.kept_first dead.kept_end dead.width dead.bytes.items;
      written = drop (dead.end * dead.width) dead.bytes.items;
    } };

    ghost invariant = { λ dead. HoldsDead dead.width dead.first dead.end dead.kept_first dead.kept_end dead.bytes.items };
}

impl Dead {
    /// No dead cells. Takes no memory.
    pub fn new(alloc: Global, width: usize) -> Dead
        requires { 20 ≤ width }
        ensures width { result.width ≡ width }
        ensures working { result.working ≡ [] }
        ensures committed { result.committed ≡ [] }
    {
        Dead {
            width,
            bytes: Vec::new(alloc),
            first: 0,
            end: 0,
            kept_first: 0,
            kept_end: 0,
        }
    }

    /// How many bytes a cell has.
    pub fn width(&self) -> usize
        ensures width { result ≡ self.now.width }
        ensures some { 20 ≤ result }
    {
        self.width
    }

    /// How many cells are listed.
    pub fn len(&self) -> usize
        ensures { result ≡ length self.now.working }
    {
        self.end - self.first
    }

    /// Writes a cell, ended at this version, to be listed.
    pub fn write(&mut self, cell: &[u8], version: u64) -> Result<(), AllocError>
        requires { length cell.now ≡ self.old.width }
        ensures written { OnOk result (self.new.written ≡ ended version cell.now) }
        ensures width { self.new.width ≡ self.old.width }
        ensures working { self.new.working ≡ self.old.working }
        ensures committed { self.new.committed ≡ self.old.committed }
    {
        self.bytes.truncate(self.end * self.width);
        append_ended(&mut self.bytes, cell, version)
    }

    /// What is written and not listed yet.
    pub fn written(&self) -> &[u8]
        ensures { result.now ≡ self.now.written }
    {
        &self.bytes[self.end * self.width..]
    }

    /// Lists the cell that is written as the one that died last.
    pub fn list_written(&mut self)
        requires whole { length self.old.written ≡ self.old.width }
        requires order { AllByRecursion (λ dead. died_of dead ≤ died_of self.old.written) self.old.working }
        ensures working { self.new.working ≡ self.old.working ++ self.old.written ∷ [] }
        ensures width { self.new.width ≡ self.old.width }
        ensures committed { self.new.committed ≡ self.old.committed }
    {
        self.end += 1;
    }

    /// Lists a cell as the one that died last.
    pub fn push(&mut self, cell: &[u8]) -> Result<(), AllocError>
        requires width { length cell.now ≡ self.old.width }
        requires order { AllByRecursion (λ dead. died_of dead ≤ died_of cell.now) self.old.working }
        ensures working { OnOk result (self.new.working ≡ self.old.working ++ cell.now ∷ []) }
        ensures width { self.new.width ≡ self.old.width }
    {
        self.bytes.truncate(self.end * self.width);
        self.bytes.extend_from_slice(cell)?;
        self.end += 1;
        Ok(())
    }

    /// The first cells that no version from `oldest` on sees, at most so many.
    pub fn clearable(&self, alloc: Global, oldest: u64, most: usize) -> Result<Cells, AllocError>
        ensures cleared { IfOk result (λ found. listed found ≡ cleared oldest most self.now.working) }
        ensures first { IfOk result (λ found. listed found ≡ take (length (listed found)) self.now.working) }
        ensures width { IfOk result (λ found. record_width found ≡ self.now.width) }
    {
        let mut found = Cells::new(alloc, self.width);
        for index in self.first..self.end {
            if found.len() == most {
                return Ok(found);
            }
            let cell = record_at(&self.bytes, self.width, index);
            if !is_clearable(oldest, cell) {
                return Ok(found);
            }
            found.push(cell)?;
        }
        Ok(found)
    }

    /// Takes so many off the front.
    pub fn take_front(&mut self, count: usize)
        requires { count ≤ length self.old.working }
        ensures working { self.new.working ≡ drop count self.old.working }
        ensures width { self.new.width ≡ self.old.width }
        ensures committed { self.new.committed ≡ self.old.committed }
    {
        self.first += count;
    }

    /// Takes all off.
    pub fn clear(&mut self)
        ensures working { self.new.working ≡ [] }
        ensures width { self.new.width ≡ self.old.width }
        ensures committed { self.new.committed ≡ self.old.committed }
    {
        self.first = self.end;
    }

    /// Keeps the list. Cells move to the front where at least as many were taken off it.
    pub fn commit(&mut self)
        ensures working { self.new.working ≡ self.old.working }
        ensures committed { self.new.committed ≡ self.old.working }
        ensures width { self.new.width ≡ self.old.width }
    {
        if self.first < self.end - self.first {
            self.kept_first = self.first;
            self.kept_end = self.end;
            return;
        }
        let start = self.first * self.width;
        let stop = self.end * self.width;
        move_to_front(&mut self.bytes, start, stop);
        self.end -= self.first;
        self.first = 0;
        self.kept_first = 0;
        self.kept_end = self.end;
    }

    /// Takes the list back to that of the last commit.
    pub fn abandon(&mut self)
        ensures working { self.new.working ≡ self.old.committed }
        ensures committed { self.new.committed ≡ self.old.committed }
        ensures width { self.new.width ≡ self.old.width }
    {
        self.first = self.kept_first;
        self.end = self.kept_end;
    }
}

/// Puts a cell, ended at this version, after the bytes. Without memory they stay.
fn append_ended(bytes: &mut Vec<u8>, cell: &[u8], version: u64) -> Result<(), AllocError>
    requires { 20 ≤ length cell.now }
    ensures appended { OnOk result (bytes.new.items ≡ bytes.old.items ++ ended version cell.now) }
    ensures stays { OnErr result (bytes.new.items ≡ bytes.old.items) }
{
    let start = bytes.len();
    bytes.extend_from_slice(cell)?;
    end_at(&mut bytes[start..], version);
    Ok(())
}

/// Moves the bytes from `start` up to `end` to the front. No others are left.
fn move_to_front(bytes: &mut Vec<u8>, start: usize, end: usize)
    requires order { start ≤ end }
    requires inside { end ≤ length bytes.old.items }
    ensures { bytes.new.items ≡ take (end - start) (drop start bytes.old.items) }
{
    bytes.copy_within(start..end, 0);
    bytes.truncate(end - start);
}
