//! The kinds of token, the reserved words, and the bounds of names, brackets and rows that are fetched.
//!
//! Each reserved word and each symbol of the language is a kind of its own, so the grammar speaks of kinds alone.

/// How many bytes a name has at the most.
pub const NAME_BYTES: usize = 32;

/// How many brackets may be open at once.
pub const BRACKETS: usize = 32;

/// How many rows may be fetched by one line at the most.
pub const FETCHED_ROWS: u32 = 1_000;

/// What a token is.
#[derive(Clone, Copy, PartialEq, Eq)]
pub enum TokenKind {
    /// `ABSOLUTE`.
    Absolute,
    /// `ALIGNMENT`.
    Alignment,
    /// `AND`.
    And,
    /// `AS`.
    As,
    /// `AT`.
    At,
    /// `BY`.
    By,
    /// `CLOSE`.
    Close,
    /// `COVER`.
    Cover,
    /// `DEFINE`.
    Define,
    /// `DISSOLVE`.
    Dissolve,
    /// `DROP`.
    Drop,
    /// `EXPLAIN`.
    Explain,
    /// `FETCH`.
    Fetch,
    /// `FOR`.
    For,
    /// `FROM`.
    From,
    /// `GAPS`.
    Gaps,
    /// `INDEX`.
    Index,
    /// `INSERT`.
    Insert,
    /// `INT`.
    Int,
    /// `INTERPOLATIVE`.
    Interpolative,
    /// `INTO`.
    Into,
    /// `IS`.
    Is,
    /// `LINE`.
    Line,
    /// `MERGE`.
    Merge,
    /// `MINUS`.
    Minus,
    /// `MOVE`.
    Move,
    /// `NOT`.
    Not,
    /// `NULL`.
    Null,
    /// `ON`.
    On,
    /// `OPEN`.
    Open,
    /// `OR`.
    Or,
    /// `OVERLAY`.
    Overlay,
    /// `POINT`.
    Point,
    /// `REFERENT`.
    Referent,
    /// `RELATIVE`.
    Relative,
    /// `REMOVE`.
    Remove,
    /// `RENAME`.
    Rename,
    /// `REOPEN`.
    Reopen,
    /// `ROUTE`.
    Route,
    /// `SAVE`.
    Save,
    /// `SELECT`.
    Select,
    /// `SUM`.
    Sum,
    /// `TABLE`.
    Table,
    /// `TEXT`.
    Text,
    /// `TO`.
    To,
    /// `TOTAL`.
    Total,
    /// `TRANSFORM`.
    Transform,
    /// `TRANSLATE`.
    Translate,
    /// `VALUES`.
    Values,
    /// `VIEW`.
    View,
    /// `WHERE`.
    Where,
    /// `WINDOW`.
    Window,
    /// Any other word of at most `NAME_BYTES` bytes.
    Name,
    /// Any other word: no rule takes it.
    LongWord,
    /// One or more digits.
    Whole,
    /// One or more digits, a point, one or more digits.
    Decimal,
    /// A text in quotes, a quote in it doubled.
    Quoted,
    /// `(`.
    LeftParen,
    /// `)`.
    RightParen,
    /// `,`.
    Comma,
    /// `=`.
    Equal,
    /// `<>`.
    Unequal,
    /// `<`.
    Less,
    /// `<=`.
    LessOrEqual,
    /// `>`.
    Greater,
    /// `>=`.
    GreaterOrEqual,
    /// `+`.
    PlusSign,
    /// `-`.
    MinusSign,
    /// `@`.
    AtSign,
    /// `%`.
    PercentSign,
}

/// A reserved word and its kind.
#[derive(Clone, Copy)]
pub struct Reserved {
    /// The word's text.
    pub word: &'static str,
    /// The kind of its token.
    pub kind: TokenKind,
}

macro_rules! reserved {
    ($($word:literal => $kind:ident,)*) => {
        [$(Reserved { word: $word, kind: TokenKind::$kind }),*]
    };
}

/// The reserved words.
pub const RESERVED: [Reserved; 52] = reserved![
    "ABSOLUTE" => Absolute,
    "ALIGNMENT" => Alignment,
    "AND" => And,
    "AS" => As,
    "AT" => At,
    "BY" => By,
    "CLOSE" => Close,
    "COVER" => Cover,
    "DEFINE" => Define,
    "DISSOLVE" => Dissolve,
    "DROP" => Drop,
    "EXPLAIN" => Explain,
    "FETCH" => Fetch,
    "FOR" => For,
    "FROM" => From,
    "GAPS" => Gaps,
    "INDEX" => Index,
    "INSERT" => Insert,
    "INT" => Int,
    "INTERPOLATIVE" => Interpolative,
    "INTO" => Into,
    "IS" => Is,
    "LINE" => Line,
    "MERGE" => Merge,
    "MINUS" => Minus,
    "MOVE" => Move,
    "NOT" => Not,
    "NULL" => Null,
    "ON" => On,
    "OPEN" => Open,
    "OR" => Or,
    "OVERLAY" => Overlay,
    "POINT" => Point,
    "REFERENT" => Referent,
    "RELATIVE" => Relative,
    "REMOVE" => Remove,
    "RENAME" => Rename,
    "REOPEN" => Reopen,
    "ROUTE" => Route,
    "SAVE" => Save,
    "SELECT" => Select,
    "SUM" => Sum,
    "TABLE" => Table,
    "TEXT" => Text,
    "TO" => To,
    "TOTAL" => Total,
    "TRANSFORM" => Transform,
    "TRANSLATE" => Translate,
    "VALUES" => Values,
    "VIEW" => View,
    "WHERE" => Where,
    "WINDOW" => Window,
];
