//! A mark for each page of a file, and how many pages are not marked.

ghost use Rattle.std.specs.Prelude.{◌≡◌, ◌≤◌, ◌+◌, ◌↔◌, ℕ, Bool, List, false, IsTrue, IfOk, length, replicate};
ghost use Rattle.rs_page_owners.specs.Counts.{◌&◌, one_at};
ghost use Rattle.rs_page_marks.specs.Marks.{taken, unmarked};

use rs_page::PageNumber;
use std::alloc::{AllocError, Global};
use std::marker::Model;

/// Which pages of a file were reached: a mark for each, the first that of page 0. A number past the last is taken, since
/// no page has it.
#[derive(Drop)]
pub struct Reached {
    marks: Vec<bool>,
    left: u32,
}

impl Model for Reached {
    ghost Value = { List Bool };

    ghost view = { λ reached. reached.marks.items };

    ghost invariant = { λ reached. reached.left ≡ unmarked reached.marks.items };
}

impl Reached {
    /// None of so many pages is reached.
    pub fn new(alloc: Global, count: u32) -> Result<Reached, AllocError>
        ensures none { IfOk result (λ reached. reached ≡ replicate count false) }
    {
        let marks = vec![in alloc; false; count as usize]?;
        Ok(Reached { marks, left: count })
    }

    /// Reaches the page with this number. False where it was reached before, or there is none; then nothing changes.
    pub fn reach(&mut self, number: PageNumber) -> bool
        ensures free { IsTrue result ↔ (taken self.old number ≡ 0) }
        ensures reaches { IsTrue result → (n : ℕ) → taken self.new n ≡ (taken self.old & one_at number) n }
        ensures stays { result ≡ false → self.new ≡ self.old }
        ensures size { length self.new ≡ length self.old }
    {
        let place = number.number() as usize;
        if place >= self.marks.len() || self.marks[place] {
            return false;
        }
        self.marks[place] = true;
        self.left -= 1;
        true
    }

    /// How many pages are not reached.
    pub fn left(&self) -> u32
        ensures { result ≡ unmarked self.now }
    {
        self.left
    }
}
