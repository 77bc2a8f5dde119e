//! This module puts one slot of the directory into its page: the tree of a table or of the referents, the root of an index, or the
//! version that was accepted last. All other bytes of the page stay.

ghost use Rattle.std.specs.Prelude.{◌≡◌, ◌<◌, ◌≤◌, ◌+◌, ◌^◌, length};
ghost use Rattle.rs_bytes.specs.Codes.{SaysNumber};
ghost use Rattle.rs_catalog_pages.specs.Directory.{SaysTree};
ghost use Rattle.rs_catalog_pages.specs.Said.{said_tree};
ghost use Rattle.rs_file_parts.specs.Slots.{ChangesDirectory, PutsSaid, tree_of, with_accepted, with_bytes, with_referents, with_root, with_tree};

use rs_catalog_pages::{INDEXES, StoredTree, TABLES};
use rs_page::{HEADER_SIZE, Page, PageNumber};

/// The bytes of a tree: its root, and how many of its records live and how many are dead.
const TREE_SIZE: usize = 20;

/// The bytes of a root.
const ROOT_SIZE: usize = 4;

/// Where the roots of the indexes begin in the page, after the trees of the tables.
const ROOTS: usize = HEADER_SIZE + TABLES as usize * TREE_SIZE;

/// Where the tree of the referents is.
const REFERENTS: usize = ROOTS + INDEXES as usize * ROOT_SIZE;

/// Where the version is that was accepted last.
const ACCEPTED: usize = REFERENTS + TREE_SIZE;

/// Puts the tree of the table with this number.
pub(crate) fn put_tree(page: &mut Page, number: u32, tree: &StoredTree)
    requires { number < TABLES }
    ensures { ChangesDirectory (with_tree number (said_tree tree.now)) page.old.bytes page.new.bytes }
{
    let at = HEADER_SIZE + number as usize * TREE_SIZE;
    put_tree_at(
        &mut page.bytes,
        at,
        tree.root.number(),
        tree.living,
        tree.garbage,
    );
}

/// Puts the root of the index with this number.
pub(crate) fn put_root(page: &mut Page, number: u32, root: PageNumber)
    requires { number < INDEXES }
    ensures puts { ChangesDirectory (with_root number root) page.old.bytes page.new.bytes }
    ensures fits { root < 2 ^ 32 }
{
    put_root_at(&mut page.bytes, ROOTS + number as usize * ROOT_SIZE, root);
}

/// Puts the tree of the referents.
pub(crate) fn put_referents(page: &mut Page, tree: &StoredTree)
    ensures { ChangesDirectory (with_referents (said_tree tree.now)) page.old.bytes page.new.bytes }
{
    put_tree_at(
        &mut page.bytes,
        REFERENTS,
        tree.root.number(),
        tree.living,
        tree.garbage,
    );
}

/// Puts the version that was accepted last.
pub(crate) fn put_accepted(page: &mut Page, version: u64)
    ensures { ChangesDirectory (with_accepted version) page.old.bytes page.new.bytes }
{
    put_version_at(&mut page.bytes, ACCEPTED, version);
}

/// Puts a tree at a place.
fn put_tree_at(page: &mut [u8], at: usize, root: u32, living: u64, garbage: u64)
    requires { at + TREE_SIZE ≤ length page.old }
    ensures { PutsSaid SaysTree at (tree_of root living garbage) page.old page.new }
{
    put_bytes(page, at, &root.to_be_bytes());
    put_bytes(page, at + 4, &living.to_be_bytes());
    put_bytes(page, at + 12, &garbage.to_be_bytes());
}

/// Puts a root at a place.
fn put_root_at(page: &mut [u8], at: usize, root: PageNumber)
    requires { at + ROOT_SIZE ≤ length page.old }
    ensures { PutsSaid (SaysNumber 4) at root page.old page.new }
{
    put_bytes(page, at, &root.number().to_be_bytes());
}

/// Puts a version at a place.
fn put_version_at(page: &mut [u8], at: usize, version: u64)
    requires { at + 8 ≤ length page.old }
    ensures { PutsSaid (SaysNumber 8) at version page.old page.new }
{
    put_bytes(page, at, &version.to_be_bytes());
}

/// Puts these bytes at a place.
fn put_bytes(page: &mut [u8], at: usize, part: &[u8])
    requires { at + length part.now ≤ length page.old }
    ensures { page.new ≡ with_bytes at part.now page.old }
{
    let end = at + part.len();
    page[at..end].copy_from_slice(part);
}
