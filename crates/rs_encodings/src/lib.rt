//! Texts in Latin-1 and UTF-16, read as UTF-8.
//!
//! `Decoded` wraps a reader. It promises that its bytes are the text of that reader's bytes: of Latin-1 where that is said, of UTF-16
//! where they begin with its mark, and these bytes themselves elsewhere. It takes no memory.
#![tactic(auto)]

pub mod character;
pub mod decoded;
pub mod encoding;
pub mod laws;
pub mod window;

pub use decoded::Decoded;
pub use encoding::Encoding;
