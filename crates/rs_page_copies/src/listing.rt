//! The numbers of the pages that a checkpoint copies, in ascending order.

ghost use Rattle.std.specs.Prelude.{◌<◌, ℕ, IsSome, OnOk};
ghost use Rattle.rs_page_cache.specs.Changes.{held_at};
ghost use Rattle.rs_page_copies.specs.Listed.{ListsCommitted};

use rs_page_cache::Changes;
use std::alloc::AllocError;

/// Lists page 0, where its fields are changed, and the committed pages that are held, in place of what was listed. After a
/// refusal it may have listed some.
pub(crate) fn list_committed(
    numbers: &mut Vec<u32>,
    changes: &Changes,
    is_header_changed: bool,
) -> Result<(), AllocError>
    requires { (number : ℕ) → IsSome (held_at changes.now number).committed → 0 < number }
    ensures { OnOk result (ListsCommitted changes.now is_header_changed numbers.new.items) }
{
    changes.list_committed(numbers)?;
    if is_header_changed {
        numbers.insert(0, 0)?;
    }
    Ok(())
}
