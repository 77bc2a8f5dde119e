//! The pages that a checkpoint copies, as the journal asks for them.

ghost use Rattle.std.specs.Prelude.{◌≡◌, ℕ, ◌<◌, slice_index};
ghost use Rattle.rs_page.specs.declared.page.TheConstants.{PAGE_SIZE};

use rs_page::Page;

/// Pages by their place among the copies, each with the number of its home page.
pub trait Copies {
    /// How many there are.
    ghost count: { Self → ℕ };

    /// The number of the home page of the copy at a place.
    ghost number: { Self → ℕ → ℕ };

    /// The bytes of the copy at a place.
    ghost byte: { Self → ℕ → ℕ → ℕ };

    /// How many there are.
    fn count(&self) -> u32
        ensures { result ≡ count self.now };

    /// The number of the home page of the copy at a place.
    fn number(&self, place: u32) -> u32
        requires { place < count self.now }
        ensures { result ≡ number self.now place };

    /// The copy at a place.
    fn page(&self, place: u32) -> &Page
        requires { place < count self.now }
        ensures { (k : ℕ) → k < PAGE_SIZE → slice_index result.now.bytes k ≡ byte self.now place k };
}
