//! Records of a page of a tree put in the place of others.

ghost use Rattle.std.specs.Prelude.{◌≡◌, ℕ, ◌+◌, ◌-◌, ◌*◌, ◌<◌, ◌≤◌, ◌++◌, length, take, drop};
ghost use Rattle.rs_page.specs.Header.{IsHeader};
ghost use Rattle.rs_page.specs.Number.{number_at};
ghost use Rattle.rs_page.specs.declared.header.TheConstants.{PAGE_ROOM};
ghost use Rattle.rs_records.specs.Records.{records};
ghost use Rattle.rs_tree.specs.Content.{content};

use crate::node::content;
use rs_page::{HEADER_SIZE, PAGE_SIZE, Page, PageHeader};
use rs_records::splice;

/// Puts whole records in the place of some of a page's, and counts them: those from `at` on, as many as `removed` says, give
/// way to the added ones.
pub fn splice_page(
    page: &mut Page,
    header: PageHeader,
    width: usize,
    count: usize,
    at: usize,
    removed: usize,
    added: &[u8],
)
    requires fit { count * width ≤ PAGE_ROOM }
    requires part { at + removed ≤ count }
    requires room { (count - removed) * width + length added.now ≤ PAGE_ROOM }
    ensures header { IsHeader page.new.bytes header }
    ensures size { length page.new.bytes ≡ PAGE_SIZE }
    ensures records { (more : ℕ) → length added.now ≡ more * width
        → records (count - removed + more) width (content page.new.bytes)
        ≡ take at (records count width (content page.old.bytes)) ++ (records more width added.now
        ++ drop (at + removed) (records count width (content page.old.bytes))) }
{
    // For the proof: how many bytes a page has.
    let _size = content(page).len();
    page.put_header(header);
    splice_content(&mut page.bytes, width, count, at, removed, added);
}

/// The same of the page's bytes. Its header stays.
fn splice_content(
    bytes: &mut [u8],
    width: usize,
    count: usize,
    at: usize,
    removed: usize,
    added: &[u8],
)
    requires size { length bytes.old ≡ PAGE_SIZE }
    requires fit { count * width ≤ PAGE_ROOM }
    requires part { at + removed ≤ count }
    requires room { (count - removed) * width + length added.now ≤ PAGE_ROOM }
    ensures before { (k n : ℕ) → k + n ≤ HEADER_SIZE → number_at k n bytes.new ≡ number_at k n bytes.old }
    ensures records { (more : ℕ) → length added.now ≡ more * width
        → records (count - removed + more) width (content bytes.new)
        ≡ take at (records count width (content bytes.old)) ++ (records more width added.now
        ++ drop (at + removed) (records count width (content bytes.old))) }
{
    splice(&mut bytes[HEADER_SIZE..], width, count, at, removed, added);
}
