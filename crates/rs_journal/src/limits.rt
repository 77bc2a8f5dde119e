//! Where the gate, the journal's fields and what a look reads are in page 0, and how many numbers a page of the journal has.

ghost use Rattle.std.specs.Prelude.{◌≡◌};
ghost use Rattle.rs_journal.specs.declared.limits.TheConstants.{FORMAT, FORMAT_BYTE, FLAG, FIRST_FORMAT, LAST_FORMAT, PAGE_COUNT, GATE, GATE_END, OPEN, CLOSED, FIELDS, FIELDS_END, NUMBERS_OF_A_PAGE};

/// The offset of the format in page 0.
pub const FORMAT: u64 = 24;

/// The offset of the last byte of the format, which is the format where it is below 256.
pub const FORMAT_BYTE: u64 = 27;

/// The offset of the open flag in page 0. It is 0 in a file of version 1 that was closed.
pub const FLAG: u64 = 28;

/// The format of version 1.
pub const FIRST_FORMAT: u8 = 1;

/// The format of version 2.
pub const LAST_FORMAT: u8 = 2;

/// The offset of the count of pages in page 0.
pub const PAGE_COUNT: u64 = 32;

/// The offset of the gate byte in page 0. It is open where the byte is 1.
pub const GATE: u64 = 64;

/// The gate byte that is open. Every other byte is closed.
pub const OPEN: u8 = 1;

/// The gate byte that is written to close the gate.
pub const CLOSED: u8 = 0;

/// Where the gate byte ends.
pub const GATE_END: u64 = 65;

/// The offset of the journal's first page in page 0. Its number of copies follows.
pub const FIELDS: u64 = 68;

/// Where the journal's fields end. No map of pages has the bytes from the gate up to here.
pub const FIELDS_END: u64 = 76;

/// How many numbers of pages a page of the journal has.
pub const NUMBERS_OF_A_PAGE: u32 = 1024;

/// The limits are these numbers.
pub fn limits_are_those()
    ensures format { FORMAT ≡ 24 }
    ensures format_byte { FORMAT_BYTE ≡ 27 }
    ensures flag { FLAG ≡ 28 }
    ensures first_format { FIRST_FORMAT ≡ 1 }
    ensures last_format { LAST_FORMAT ≡ 2 }
    ensures page_count { PAGE_COUNT ≡ 32 }
    ensures gate { GATE ≡ 64 }
    ensures opened { OPEN ≡ 1 }
    ensures shut { CLOSED ≡ 0 }
    ensures gate_end { GATE_END ≡ 65 }
    ensures fields { FIELDS ≡ 68 }
    ensures fields_end { FIELDS_END ≡ 76 }
    ensures numbers_of_a_page { NUMBERS_OF_A_PAGE ≡ 1024 }
{}
