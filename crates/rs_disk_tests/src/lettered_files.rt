//! Files whose pages are each of one letter, and checkpoints of them on a recording disk.
//!
//! A checkpoint copies page 0, leaves page 1, and copies the pages from 2 on, as many as it is to copy. Page 0 says how
//! many pages there are.

use rs_disk::{Disk, FailedCut};
use rs_journal::{Copies, Stage, complete, cut};
use rs_page::bytes::put_four;
use rs_page::{PAGE_SIZE, Page};
use rs_recording_disk::RecordingDisk;
use std::alloc::Global;
use std::test::Fail;

/// A checkpoint: how many pages were kept before it, how many there are after it, and how many of them it copies.
#[derive(Clone, Copy)]
pub struct Plan {
    pub kept: u32,
    pub pages: u32,
    pub copies: u32,
}

/// No page is copied.
pub const NONE: Plan = Plan {
    kept: 3,
    pages: 3,
    copies: 0,
};

/// Page 0 is copied.
pub const ONE: Plan = Plan {
    kept: 3,
    pages: 3,
    copies: 1,
};

/// Pages 0, 2 and a new page 3 are copied.
pub const THREE: Plan = Plan {
    kept: 3,
    pages: 4,
    copies: 3,
};

/// Of a file of 1,000 pages all but page 1 are copied, and 101 new ones. Their numbers take two pages.
pub const MANY: Plan = Plan {
    kept: 1_000,
    pages: 1_101,
    copies: 1_100,
};

/// The letters of two pages that are copied one after the other.
#[derive(Clone, Copy)]
pub struct Letters {
    even: u8,
    odd: u8,
}

/// The pages that are kept first.
const OLD: Letters = Letters {
    even: b'a',
    odd: b'a',
};

/// The pages of a checkpoint.
pub const NEW: Letters = Letters {
    even: b'b',
    odd: b'c',
};

/// The pages of a later checkpoint.
pub const LATER: Letters = Letters {
    even: b'd',
    odd: b'e',
};

/// A page of one letter.
fn page_of(letter: u8) -> Page {
    Page {
        bytes: [letter; PAGE_SIZE],
    }
}

/// The pages that a checkpoint copies.
#[derive(Drop)]
struct LetteredPages {
    copies: u32,
    first: Page,
    even: Page,
    odd: Page,
}

impl LetteredPages {
    fn new(plan: Plan, letters: Letters) -> LetteredPages {
        let mut first = page_of(letters.even);
        put_four(&mut first.bytes, 32, plan.pages);
        LetteredPages {
            copies: plan.copies,
            first,
            even: page_of(letters.even),
            odd: page_of(letters.odd),
        }
    }
}

impl Copies for LetteredPages {
    ghost use Rattle.std.specs.Prelude.{◌==◌, ◌+◌, ◌%◌, slice_index, if◌then◌else◌};

    ghost count = { λ pages. pages.copies };

    ghost number = { λ _ place. if place == 0 then 0 else place + 1 };

    ghost byte = { λ pages place k. if place == 0 then slice_index pages.first.bytes k
        else (if place % 2 == 0 then slice_index pages.even.bytes k else slice_index pages.odd.bytes k) };

    fn count(&self) -> u32 {
        self.copies
    }

    fn number(&self, place: u32) -> u32 {
        if place == 0 { 0 } else { place + 1 }
    }

    fn page(&self, place: u32) -> &Page {
        if place == 0 {
            &self.first
        } else if place % 2 == 0 {
            &self.even
        } else {
            &self.odd
        }
    }
}

/// The letter of the page with this number after a checkpoint.
fn letter_of(number: u32, plan: Plan, letters: Letters) -> u8 {
    if number == 1 || number > plan.copies || plan.copies == 0 {
        b'a'
    } else if number == 0 || number % 2 == 1 {
        letters.even
    } else {
        letters.odd
    }
}

/// The file of so many pages, of which the plan's are in these letters.
fn file_of(alloc: Global, pages: u32, plan: Plan, letters: Letters) -> Result<Vec<u8>, Fail> {
    let mut bytes = Vec::new(alloc);
    for number in 0..pages {
        let end = PAGE_SIZE * (number as usize + 1);
        bytes.resize(end, letter_of(number, plan, letters))?;
    }
    if bytes.len() >= PAGE_SIZE {
        put_four(&mut bytes, 32, pages);
    }
    Ok(bytes)
}

/// The file before any checkpoint.
pub fn file_before(alloc: Global, plan: Plan) -> Result<Vec<u8>, Fail> {
    file_of(alloc, plan.kept, plan, OLD)
}

/// The file after a checkpoint in these letters.
pub fn file_after(alloc: Global, plan: Plan, letters: Letters) -> Result<Vec<u8>, Fail> {
    file_of(alloc, plan.pages, plan, letters)
}

/// A disk of the pages that are kept first, of which the call with this number fails.
pub fn kept_disk(
    alloc: Global,
    plan: Plan,
    failing_call: u64,
    failed_cut: FailedCut,
) -> Result<RecordingDisk, Fail> {
    let bytes = file_before(alloc, plan)?;
    Ok(RecordingDisk::new(alloc, bytes, failing_call, failed_cut)?)
}

/// Takes a checkpoint as far as it goes, and cuts the file after its last stage.
pub fn checkpoint<D: Disk>(disk: &mut D, stage: &mut Stage, plan: Plan, letters: Letters) -> bool {
    let copies = LetteredPages::new(plan, letters);
    let first = plan.pages.max(1);
    complete(disk, stage, first, &copies).is_ok() && cut(disk, plan.pages).is_ok()
}
