//! The numbers of pages.
//!
//! A number is a type of its own, so that no count of pages and no offset is taken for one. It says nothing of
//! whether there is such a page.

ghost use Rattle.std.specs.Prelude.{◌≡◌, ℕ, IsTrue, ◌↔◌};
ghost use Rattle.rs_page.specs.Follow.{MayFollow};

use std::marker::Model;

/// The number of a page, from 0. It lies at that many times `PAGE_SIZE` on the disk.
#[derive(Clone, Copy, PartialEq, Eq, PartialOrd, Ord, Debug)]
pub struct PageNumber {
    number: u32,
}

impl Model for PageNumber {
    ghost Value = { ℕ };

    ghost view = { λ page. page.number };

    ghost inverse = { λ number. record { number = number } };
}

impl PageNumber {
    /// The page with this number.
    pub fn new(number: u32) -> PageNumber
        ensures { result ≡ number }
    {
        PageNumber { number }
    }

    /// The number.
    pub fn number(self) -> u32
        ensures { result ≡ self }
    {
        self.number
    }

    /// Whether it may be the next page of another in a file of so many pages: 0 says that there is none, and
    /// pages 0 and 1 follow no page.
    pub fn may_follow(self, pages: u32) -> bool
        ensures { IsTrue result ↔ MayFollow self pages }
    {
        let PageNumber { number: next } = self;
        next == 0 || (next > 1 && next < pages)
    }
}
