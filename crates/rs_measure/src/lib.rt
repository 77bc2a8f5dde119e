//! Measures along a route and parts of a route; the refusals are passed on.
//!
//! A measure is a whole number of thousandths, a part one of billionths. Exactly the texts of measures and
//! of parts are read, all others are refused, and what is printed is read back.
#![tactic(auto)]

mod digits;
mod fixed_point;
pub mod limits;
pub mod measure;
pub mod part;

pub use measure::{
    GREATEST_MEASURE, MEASURE_BYTES, Measure, printed_text_is_read_back, read_measure,
    text_says_one_measure, write_measure,
};
pub use part::{
    GREATEST_PART, PART_BYTES, Part, printed_part_is_read_back, read_part, text_says_one_part,
    write_part,
};
pub use rs_refusal::{Refusal, WORDS_BYTES};
