//! It reads items from the front of bytes and appends them: numbers, texts, pairs and lists.
//!
//! It promises that reading finds what the bytes say, or that they say nothing.
#![tactic(auto)]

pub mod item;
pub mod lists;
pub mod numbers;
pub mod pairs;
pub mod reader;
pub mod texts;

pub use item::{Item, read_whole};
pub use lists::{ShortList, read_each, write_each};
pub use reader::Reader;
pub use texts::LongText;
