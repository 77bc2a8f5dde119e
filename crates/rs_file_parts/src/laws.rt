//! These laws say what is so of what is open while its parts change.

ghost use Rattle.std.specs.Prelude.{◌≡◌};
ghost use Rattle.rs_catalog_pages.specs.Said.{said_catalogue};
ghost use Rattle.rs_file.specs.Contents.{Contents};
ghost use Rattle.rs_file.specs.Opening.{IsFile};
ghost use Rattle.rs_file.specs.declared.opened.OpenedFile.{OpenedFile};
ghost use Rattle.rs_file_parts.specs.Parts.{HaveAllDiedBy, IsAsItWas, IsCommitted, IsOpenedFile, IsReady, KeepsCommitted};

/// A file that was loaded can be changed, and nothing of it has changed since the last commit.
pub fn loaded_file_can_be_changed()
    ensures ready { (file : OpenedFile) → IsFile file → IsReady file }
    ensures committed { (file : OpenedFile) → IsFile file → IsCommitted file }
    ensures order { (file : OpenedFile) → IsFile file → HaveAllDiedBy file.accepted file }
{}

/// A file whose parts changed since the last commit can be changed further; what several changes keep, all keep. So it can beside other
/// definitions of the same tables and indexes.
pub fn changed_file_can_be_changed()
    ensures ready { (was is : OpenedFile) → KeepsCommitted was is → IsReady was → IsReady is }
    ensures unchanged { (file : OpenedFile) → KeepsCommitted file file }
    ensures joined { (was between is : OpenedFile) → KeepsCommitted was between → KeepsCommitted between is → KeepsCommitted was is }
    ensures defined { (was is : OpenedFile) → IsReady was → is.tables.items ≡ was.tables.items
        → (said_catalogue is.definitions).tables ≡ (said_catalogue was.definitions).tables
        → (said_catalogue is.definitions).indexes ≡ (said_catalogue was.definitions).indexes → IsReady is }
{}

/// What is open is the same contents' where it is as it was.
pub fn file_as_it_was_is_of_the_same_contents()
    ensures { (was is : OpenedFile) (contents : Contents) → IsAsItWas was is → IsOpenedFile was contents → IsOpenedFile is contents }
{}
