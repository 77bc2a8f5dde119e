//! The bytes of a page: numbers in them, the header of 16 bytes, and page 0.
//!
//! A page is told from its bytes alone. Where it lies, and who holds it, is left to the crates above.
#![tactic(auto)]

pub mod bytes;
pub mod file_header;
pub mod header;
pub mod laws;
pub mod limits;
pub mod number;
pub mod page;

pub use file_header::{FLAG_OFFSET, FileHeader};
pub use header::{ContentKind, HEADER_SIZE, PAGE_ROOM, PageHeader, PageKind};
pub use number::PageNumber;
pub use page::{PAGE_SIZE, Page};
