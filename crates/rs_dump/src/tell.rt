//! What is told on the errors stream: which definition was left out, and why.
//!
//! The status does not depend on that stream: a write to it that fails is ignored.

use itoa::Buffer;
use rs_methods::Name;
use rs_protocol::put_parts;
use rs_refusal::Refusal;
use std::io::Write;

/// Tells that a view was left out, with what its DEFINE line would be refused.
pub fn tell_view<E: Write>(errors: &mut E, name: &Name, refusal: &Refusal) {
    tell(errors, b"roadseg: left out view ", name, refusal);
}

/// Tells that an alignment was left out, with what its DEFINE line would be refused.
pub fn tell_alignment<E: Write>(errors: &mut E, name: &Name, refusal: &Refusal) {
    tell(errors, b"roadseg: left out alignment ", name, refusal);
}

// Tells it in one line.
fn tell<E: Write>(errors: &mut E, what: &[u8], name: &Name, refusal: &Refusal) {
    let mut digits = Buffer::new();
    let number = digits.format(refusal.number()).as_bytes();
    let words = refusal.words();
    let said = words.as_str().as_bytes();
    let _ = put_parts(
        errors,
        &[
            what,
            name.as_str().as_bytes(),
            b": ERR ",
            number,
            b" ",
            said,
            b"\n",
        ],
    );
}
