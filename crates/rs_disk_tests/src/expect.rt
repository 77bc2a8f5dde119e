//! What is wanted, said where it isn't so.

use std::test::Fail;

/// Fails with these words, unless all is right.
pub fn expect(is_right: bool, wanted: &str) -> Result<(), Fail> {
    if is_right {
        Ok(())
    } else {
        Err(Fail::new(format_args!("not so: {wanted}")))
    }
}
