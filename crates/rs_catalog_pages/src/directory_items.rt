//! Reads and writes the directory of a file as items: the trees of tables and indexes by their numbers, that of the referents, and the
//! version that was accepted last.

ghost use Rattle.std.specs.Prelude.{◌≡◌, ◌⊎◌, ◌<◌, ◌^◌, ℕ, List, All, length, map, IfOk, IfErr, OnOk};
ghost use Rattle.rs_refusal.specs.declared.refusal.Refusal.TheVariants as refusals;
ghost use Rattle.rs_bytes.specs.Codes.{SaysEach, SaysMany, SaysNumber};
ghost use Rattle.rs_bytes.specs.Laws.{each_fits, each_one, number_one};
ghost use Rattle.rs_catalog_pages.specs.Directory.{TreeItem, DirectoryItems, SaysTree, SaysDirectory};
ghost use Rattle.rs_catalog_pages.specs.Fitting.{FitsTree, FitsDirectory};
ghost use Rattle.rs_catalog_pages.specs.Laws.{many_one, tree_one, tree_fits, directory_one, directory_fits};
ghost use Rattle.rs_catalog_pages.specs.Said.{said_tree, said_directory};

use rs_bytes::{Item, Reader, read_each, write_each};
use rs_page::PageNumber;
use rs_refusal::Refusal;
use std::alloc::{AllocError, Global};

/// The greatest number of tables of a file.
pub const TABLES: u32 = 128;

/// The greatest number of indexes of a file.
pub const INDEXES: u32 = 64;

/// A list of just so many items, with no count before it.
#[derive(Drop)]
pub struct FixedList<T, const COUNT: u32> {
    /// The items.
    pub list: Vec<T>,
}

impl<T: Item, const COUNT: u32> Item for FixedList<T, COUNT> {
    ghost Said = { List T.Said };

    ghost said = { λ fixed. map T.said fixed.list.items };

    ghost says = { SaysMany COUNT (SaysEach T.says) };

    ghost fits = { λ values. (length values ≡ COUNT) × All T.fits values };

    ghost one = { many_one COUNT (SaysEach T.says) (each_one T.says T.one) };

    ghost fitting = { λ bytes values is. (is.0, each_fits T.says T.fits T.fitting bytes values is.1) };

    fn read(alloc: Global, reader: &mut Reader<'_>) -> Result<FixedList<T, COUNT>, Refusal> {
        let list = read_each(alloc, COUNT, reader)?;
        Ok(FixedList { list })
    }

    fn write(&self, bytes: &mut Vec<u8>) -> Result<(), AllocError> {
        write_each(self.list.as_slice(), bytes)
    }
}

/// The root of a tree; 0: it is empty.
#[derive(Drop)]
pub struct StoredRoot {
    /// The page at the top.
    pub root: PageNumber,
}

impl Item for StoredRoot {
    ghost Said = { ℕ };

    ghost said = { λ r. r.root };

    ghost says = { SaysNumber 4 };

    ghost fits = { λ root. root < 2 ^ 32 };

    ghost one = { number_one 4 };

    ghost fitting = { λ bytes root is. is.0 };

    fn read(alloc: Global, reader: &mut Reader<'_>) -> Result<StoredRoot, Refusal> {
        let number = u32::read(alloc, reader)?;
        Ok(StoredRoot {
            root: PageNumber::new(number),
        })
    }

    fn write(&self, bytes: &mut Vec<u8>) -> Result<(), AllocError> {
        self.root.number().write(bytes)
    }
}

/// A tree of records.
#[derive(Drop)]
pub struct StoredTree {
    /// The page at its top; 0: it is empty.
    pub root: PageNumber,
    /// How many of its records live.
    pub living: u64,
    /// How many of its records are dead.
    pub garbage: u64,
}

type TreeParts = (u32, (u64, u64));

impl Item for StoredTree {
    ghost Said = { TreeItem };

    ghost said = { said_tree };

    ghost says = { SaysTree };

    ghost fits = { FitsTree };

    ghost one = { tree_one };

    ghost fitting = { tree_fits };

    fn read(alloc: Global, reader: &mut Reader<'_>) -> Result<StoredTree, Refusal> {
        let (root, (living, garbage)) = TreeParts::read(alloc, reader)?;
        Ok(StoredTree {
            root: PageNumber::new(root),
            living,
            garbage,
        })
    }

    fn write(&self, bytes: &mut Vec<u8>) -> Result<(), AllocError> {
        self.root.number().write(bytes)?;
        self.living.write(bytes)?;
        self.garbage.write(bytes)
    }
}

/// The directory of a file.
#[derive(Drop)]
pub struct StoredDirectory {
    /// The trees of the tables, by number.
    pub tables: FixedList<StoredTree, TABLES>,
    /// The roots of the indexes, by number.
    pub indexes: FixedList<StoredRoot, INDEXES>,
    /// The tree of the referents.
    pub referents: StoredTree,
    /// The version that was accepted last.
    pub accepted: u64,
}

type DirectoryParts = (
    FixedList<StoredTree, TABLES>,
    (FixedList<StoredRoot, INDEXES>, (StoredTree, u64)),
);

impl Item for StoredDirectory {
    ghost Said = { DirectoryItems };

    ghost said = { said_directory };

    ghost says = { SaysDirectory };

    ghost fits = { FitsDirectory };

    ghost one = { directory_one };

    ghost fitting = { directory_fits };

    fn read(alloc: Global, reader: &mut Reader<'_>) -> Result<StoredDirectory, Refusal> {
        let (tables, (indexes, (referents, accepted))) = DirectoryParts::read(alloc, reader)?;
        Ok(StoredDirectory {
            tables,
            indexes,
            referents,
            accepted,
        })
    }

    fn write(&self, bytes: &mut Vec<u8>) -> Result<(), AllocError> {
        self.tables.write(bytes)?;
        self.indexes.write(bytes)?;
        self.referents.write(bytes)?;
        self.accepted.write(bytes)
    }
}
