//! The pages of a checkpoint as the journal asks for them: the committed pages where they are held as changes, and page 0.

ghost use Rattle.std.specs.Prelude.{◌≡◌, ◌<◌, ◌^◌, length, slice_index};
ghost use Rattle.rs_page_copies.specs.Listed.{copy_in};

use rs_journal::Copies;
use rs_page::{Page, PageNumber};
use rs_page_cache::Changes;
use std::marker::Model;

/// The pages with these numbers: the committed ones that are held, and page 0.
#[derive(Drop)]
pub(crate) struct Copied<'a> {
    numbers: &'a [u32],
    changes: &'a Changes,
    first_page: &'a Page,
}

impl<'a> Model for Copied<'a> {
    ghost use Rattle.std.specs.Prelude.{◌<◌, ◌^◌, length};
    ghost use Rattle.rs_page_copies.specs.Listed.{CopiedPages};

    ghost Value = { CopiedPages };

    ghost view = { λ c. record { numbers = c.numbers.now; changes = c.changes.now; first_page = c.first_page.now.bytes } };

    ghost invariant = { λ c. length c.numbers.now < 2 ^ 32 };
}

impl<'a> Copied<'a> {
    /// The pages with these numbers.
    pub(crate) fn new(numbers: &'a [u32], changes: &'a Changes, first_page: &'a Page) -> Copied<'a>
        requires { length numbers.now < 2 ^ 32 }
        ensures { result ≡ record { numbers = numbers.now; changes = changes.now; first_page = first_page.now.bytes } }
    {
        Copied {
            numbers,
            changes,
            first_page,
        }
    }
}

impl<'a> Copies for Copied<'a> {
    ghost use Rattle.std.specs.Prelude.{length, slice_index};
    ghost use Rattle.rs_page_copies.specs.Listed.{copy_in};

    ghost count = { λ c. length c.numbers };

    ghost number = { λ c place. slice_index c.numbers place };

    ghost byte = { λ c place k. slice_index (copy_in c.changes c.first_page (slice_index c.numbers place)) k };

    fn count(&self) -> u32 {
        self.numbers.len() as u32
    }

    fn number(&self, place: u32) -> u32 {
        self.numbers[place as usize]
    }

    fn page(&self, place: u32) -> &Page {
        let number = PageNumber::new(self.numbers[place as usize]);
        match self.changes.committed(number) {
            Some(page) => page,
            None => self.first_page,
        }
    }
}
