//! Entries of inner pages, written anew from the pages that they say.

ghost use Rattle.std.specs.Prelude.{◌≡◌, ◌≢◌, OnOk, OnErr, IsOkUnless, length, Err};
ghost use Rattle.rs_tree.specs.Layouts.{entry_bytes};
ghost use Rattle.rs_tree.specs.Node.{IsNode};
ghost use Rattle.rs_tree.specs.declared.node.Node.{Node};
ghost use Rattle.rs_tree.specs.Reading.{HasNoNode};
ghost use Rattle.rs_tree.specs.Forms.{form_in};
ghost use Rattle.rs_tree_edit.specs.Parts.{SaysPart, SaysNode};
ghost use Rattle.rs_pages.specs.Calls.{OnlyReads, Reads};
ghost use Rattle.rs_page_owners.specs.Calls.{WorksOn};

use rs_page::{Page, PageNumber};
use rs_pages::Pages;
use rs_records::record_at;
use rs_refusal::Refusal;
use rs_tree::{
    Layout, Node, Summary, content, inner_summary, leaf_summary, read_node, write_entry,
};

/// Writes the entry that says the page with this number: the summary of its cells and the least of them are those of its
/// own bytes. It is refused with 91, and with 94 where it is no page of a tree.
pub fn write_entry_of<P: Pages, S: Summary>(
    pages: &mut P,
    layout: Layout,
    number: PageNumber,
    entry: &mut [u8],
) -> Result<(), Refusal>
    requires entry { length entry.old ≡ entry_bytes layout }
    requires summary { layout.summary ≡ S.WIDTH }
    ensures rests { OnlyReads P.Pages result pages.old pages.new }
    ensures works { WorksOn P.Pages (HasNoNode (P.store pages.old).map number layout) result pages.old pages.new }
    ensures room { result ≢ Err Refusal.FileFull }
    ensures says { Reads P.Pages (λ map _. SaysPart (form_in S.Summary layout) map number entry.new) result pages.old }
{
    match pages.page(number) {
        Ok(page) => write_node_entry::<S>(page, layout, number, entry),
        Err(refusal) => Err(refusal),
    }
}

/// Writes the entry that says this page. It is refused with 94 where it is no page of a tree.
fn write_node_entry<S: Summary>(
    page: &Page,
    layout: Layout,
    number: PageNumber,
    entry: &mut [u8],
) -> Result<(), Refusal>
    requires entry { length entry.old ≡ entry_bytes layout }
    requires summary { layout.summary ≡ S.WIDTH }
    ensures says { OnOk result
        (SaysNode (form_in S.Summary layout) number page.now.bytes entry.new) }
    ensures none { OnErr result ((node : Node) → IsNode page.now.bytes number layout node → ⊥) }
    ensures refused { IsOkUnless result Refusal.DamagedFile }
{
    match read_node(page, number, layout) {
        Some(Node::Leaf(count)) => write_leaf_entry::<S>(page, layout, number, count, entry),
        Some(Node::Inner(count)) => write_inner_entry::<S>(page, layout, number, count, entry),
        None => return Err(Refusal::DamagedFile),
    }
    Ok(())
}

/// Writes the entry that says a leaf.
fn write_leaf_entry<S: Summary>(
    page: &Page,
    layout: Layout,
    number: PageNumber,
    count: usize,
    entry: &mut [u8],
)
    requires entry { length entry.old ≡ entry_bytes layout }
    requires summary { layout.summary ≡ S.WIDTH }
    requires node { IsNode page.now.bytes number layout (Node.Leaf count) }
    ensures { SaysNode (form_in S.Summary layout) number page.now.bytes entry.new }
{
    let whole = leaf_summary::<S>(page, count, layout);
    let least = record_at(content(page), layout.width, 0);
    write_entry(entry, layout, number, whole, least);
}

/// Writes the entry that says an inner page.
fn write_inner_entry<S: Summary>(
    page: &Page,
    layout: Layout,
    number: PageNumber,
    count: usize,
    entry: &mut [u8],
)
    requires entry { length entry.old ≡ entry_bytes layout }
    requires summary { layout.summary ≡ S.WIDTH }
    requires node { IsNode page.now.bytes number layout (Node.Inner count) }
    ensures { SaysNode (form_in S.Summary layout) number page.now.bytes entry.new }
{
    let whole = inner_summary::<S>(page, count, layout);
    let first = record_at(content(page), layout.entry_width(), 0);
    write_entry(entry, layout, number, whole, &first[layout.least_from()..]);
}
