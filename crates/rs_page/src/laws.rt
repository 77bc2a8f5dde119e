//! What follows of the bytes of a page: they say one header at the most, and page 0 one set of fields.

ghost use Rattle.std.specs.Prelude.{◌≡◌, ◌↔◌, ℕ, List, IsTrue};
ghost use Rattle.rs_page.specs.declared.header.PageHeader.{PageHeader};
ghost use Rattle.rs_page.specs.declared.header.PageKind.TheVariants.{Free};
ghost use Rattle.rs_page.specs.declared.file_header.FileHeader.{FileHeader};
ghost use Rattle.rs_page.specs.Header.{IsHeader};
ghost use Rattle.rs_page.specs.FileHeader.{IsFileHeader};
ghost use Rattle.rs_page.specs.PageBytes.{is_free};

/// A page begins with one header at the most.
pub fn header_is_one()
    ensures { (page : List ℕ) (one other : PageHeader) → IsHeader page one → IsHeader page other → one ≡ other }
{}

/// Page 0 has one set of fields at the most.
pub fn file_header_is_one()
    ensures { (page : List ℕ) (one other : FileHeader)
        → IsFileHeader page one → IsFileHeader page other → one ≡ other }
{}

/// A page that begins with a header is free exactly where the header says so.
pub fn free_by_its_header()
    ensures { (page : List ℕ) (header : PageHeader) → IsHeader page header
        → (IsTrue (is_free page) ↔ header.kind ≡ Free) }
{}
