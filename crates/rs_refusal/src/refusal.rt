//! The refusals: why a line was not served.
//!
//! Each has one number and one text, in which they are answered.

use arrayvec::ArrayString;
use itoa::Buffer;
use std::alloc::{AllocError, AllocFailed};

/// How many bytes the words of a refusal have room for.
pub const WORDS_BYTES: usize = 32;

/// Why a line was refused. Its ERR line is made from `number` and `words`.
#[derive(Clone, Copy, PartialEq, Eq, Debug)]
pub enum Refusal {
    /// 1: the line holds bytes that are no UTF-8, or a control character.
    LineIsNotText,
    /// 2: the line has more than 4,096 bytes.
    LineTooLong,
    /// 3: the line does not begin with a session number from 0 to 63.
    SessionNumber,
    /// 10: a character, or a quote that is not closed, begins no token.
    UnknownCharacter,
    /// 11: the byte column, from 1, of the first token that fits no rule.
    Syntax(usize),
    /// 12: a number of the line is out of its range.
    NumberOutOfRange,
    /// 20: no such route.
    NoSuchRoute,
    /// 21: no such table, view, alignment or index.
    NoSuchName,
    /// 22: no such column.
    NoSuchColumn,
    /// 23: what would be dropped or moved is in use.
    InUse,
    /// 24: the name is taken.
    NameTaken,
    /// 25: no such referent.
    NoSuchReferent,
    /// 27: a limit would be passed.
    Limit,
    /// 30: the position lies outside the route.
    OutsideTheRoute,
    /// 31: a span's start is not below its end.
    EmptySpan,
    /// 32: a point where a line is wanted, or a line where a point is.
    PointOrLineWanted,
    /// 33: the wrong number of values, or a value of the wrong type.
    WrongValues,
    /// 34: a text is longer than its column.
    TextTooLong,
    /// 40: the columns of two operands differ.
    ColumnsDiffer,
    /// 41: two columns have one name.
    ColumnTwice,
    /// 42: the kinds of two operands differ.
    KindsDiffer,
    /// 50: a total is too large.
    TotalTooLarge,
    /// 60: no such cursor.
    NoSuchCursor,
    /// 61: the cursor's name is taken.
    CursorNameTaken,
    /// 62: the session has as many cursors as it may have.
    TooManyCursors,
    /// 90: a growth was refused.
    OutOfMemory,
    /// 91: a call of the disk failed.
    Disk,
    /// 92: the file has as many pages as it may have.
    FileFull,
    /// 94: the file is damaged.
    DamagedFile,
    /// 95: the file was not closed.
    FileNotClosed,
}

impl Refusal {
    ghost use Rattle.std.specs.Prelude.{◌≡◌, ◌+◌, ◌++◌, ◌≤◌, length};
    ghost use Rattle.rs_refusal.specs.Refusal.{number_of, words_of};
    ghost use Rattle.rs_refusal.specs.Inner.{column_digits};

    /// The number under which it is answered.
    pub fn number(&self) -> u8
        ensures { result ≡ number_of self.now }
    {
        match self {
            Refusal::LineIsNotText => 1,
            Refusal::LineTooLong => 2,
            Refusal::SessionNumber => 3,
            Refusal::UnknownCharacter => 10,
            Refusal::Syntax(_) => 11,
            Refusal::NumberOutOfRange => 12,
            Refusal::NoSuchRoute => 20,
            Refusal::NoSuchName => 21,
            Refusal::NoSuchColumn => 22,
            Refusal::InUse => 23,
            Refusal::NameTaken => 24,
            Refusal::NoSuchReferent => 25,
            Refusal::Limit => 27,
            Refusal::OutsideTheRoute => 30,
            Refusal::EmptySpan => 31,
            Refusal::PointOrLineWanted => 32,
            Refusal::WrongValues => 33,
            Refusal::TextTooLong => 34,
            Refusal::ColumnsDiffer => 40,
            Refusal::ColumnTwice => 41,
            Refusal::KindsDiffer => 42,
            Refusal::TotalTooLarge => 50,
            Refusal::NoSuchCursor => 60,
            Refusal::CursorNameTaken => 61,
            Refusal::TooManyCursors => 62,
            Refusal::OutOfMemory => 90,
            Refusal::Disk => 91,
            Refusal::FileFull => 92,
            Refusal::DamagedFile => 94,
            Refusal::FileNotClosed => 95,
        }
    }

    /// The words with which it is answered, the column of `Syntax` in decimal digits among them.
    pub fn words(&self) -> ArrayString<WORDS_BYTES>
        ensures { result.bytes ≡ words_of self.now }
    {
        let mut words = ArrayString::new();
        words.push_str(self.fixed_words());
        if let Refusal::Syntax(column) = self {
            words.push_str(Buffer::new().format(*column));
        }
        words
    }

    // The words before the column, and all of them where there is none.
    #[tactic(auto, using(crate::proofs::RefusalWords::column_digits_short))]
    fn fixed_words(self) -> &'static str
        ensures words { result.now ++ column_digits self ≡ words_of self }
        ensures short { length result.now + length (column_digits self) ≤ WORDS_BYTES }
    {
        match self {
            Refusal::LineIsNotText => "line is not text",
            Refusal::LineTooLong => "line too long",
            Refusal::SessionNumber => "session number",
            Refusal::UnknownCharacter => "unknown character",
            Refusal::Syntax(_) => "syntax at ",
            Refusal::NumberOutOfRange => "number out of range",
            Refusal::NoSuchRoute => "no such route",
            Refusal::NoSuchName => "no such name",
            Refusal::NoSuchColumn => "no such column",
            Refusal::InUse => "in use",
            Refusal::NameTaken => "name taken",
            Refusal::NoSuchReferent => "no such referent",
            Refusal::Limit => "limit",
            Refusal::OutsideTheRoute => "outside the route",
            Refusal::EmptySpan => "empty span",
            Refusal::PointOrLineWanted => "point or line wanted",
            Refusal::WrongValues => "wrong type or number of values",
            Refusal::TextTooLong => "text too long",
            Refusal::ColumnsDiffer => "columns differ",
            Refusal::ColumnTwice => "column twice",
            Refusal::KindsDiffer => "kinds differ",
            Refusal::TotalTooLarge => "total too large",
            Refusal::NoSuchCursor => "no such cursor",
            Refusal::CursorNameTaken => "cursor name taken",
            Refusal::TooManyCursors => "too many cursors",
            Refusal::OutOfMemory => "out of memory",
            Refusal::Disk => "disk",
            Refusal::FileFull => "file full",
            Refusal::DamagedFile => "damaged file",
            Refusal::FileNotClosed => "file not closed",
        }
    }
}

/// Want of memory is refusal 90.
impl From<AllocError> for Refusal {
    ghost use Rattle.std.specs.Prelude.{◌≡◌};
    ghost use Rattle.rs_refusal.specs.declared.refusal.Refusal.TheVariants.{OutOfMemory};

    ghost from_gives = { λ _ refusal. refusal ≡ OutOfMemory };

    fn from(_refused: AllocError) -> Refusal {
        Refusal::OutOfMemory
    }
}

/// Want of memory is refusal 90. The value that found no room is dropped.
impl<T: Drop> From<AllocFailed<T>> for Refusal {
    ghost use Rattle.std.specs.Prelude.{◌≡◌};
    ghost use Rattle.rs_refusal.specs.declared.refusal.Refusal.TheVariants.{OutOfMemory};

    ghost from_gives = { λ _ refusal. refusal ≡ OutOfMemory };

    fn from(_refused: AllocFailed<T>) -> Refusal {
        Refusal::OutOfMemory
    }
}
