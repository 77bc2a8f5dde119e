//! Whether an entry says the summary that it should.

ghost use Rattle.std.specs.Prelude.{◌≡◌, ◌≤◌, ◌↔◌, IsTrue, length};
ghost use Rattle.rs_tree.specs.declared.limits.TheConstants.{GREATEST_ENTRY};

use rs_tree::{GREATEST_ENTRY, Summary};

/// Whether the bytes say this summary.
pub fn says<S: Summary>(bytes: &[u8], whole: S) -> bool
    requires width { length bytes.now ≡ S.WIDTH }
    requires fits { length bytes.now ≤ GREATEST_ENTRY }
    ensures { IsTrue result ↔ S.says bytes.now whole }
{
    let mut buffer = [0; GREATEST_ENTRY];
    let said = &mut buffer[..bytes.len()];
    whole.write(said);
    are_same(bytes, said)
}

fn are_same(one: &[u8], other: &[u8]) -> bool
    ensures { IsTrue result ↔ (one.now ≡ other.now) }
{
    one == other
}
