//! The syntax of a command, before its numbers are looked at.
//!
//! Names, numbers and texts are still tokens of the line.

use rs_lexer::Token;
use rs_methods::Method;
use rs_value::{Comparison, Kind};

/// The type of a column as written.
#[derive(Clone, Copy)]
pub enum WrittenType {
    /// `INT`.
    Int,
    /// `TEXT` with the number of its bytes.
    Text(Token),
}

/// A column of a table as written.
#[derive(Clone, Copy)]
pub struct WrittenColumn {
    /// Its name.
    pub name: Token,
    /// Its type.
    pub column_type: WrittenType,
}

/// A value of a row as written.
#[derive(Clone, Copy)]
pub enum WrittenValue {
    /// `NULL`.
    Null,
    /// A number: whether a minus sign comes before it, and its digits.
    Whole(bool, Token),
    /// A text in quotes.
    Quoted(Token),
}

/// A position as written.
#[derive(Clone, Copy)]
pub enum WrittenPosition {
    /// A measure.
    Measure(Token),
    /// The number of a percentage.
    Percentage(Token),
    /// A referent's name alone.
    Referent(Token),
    /// A referent's name and the measure beyond it.
    Beyond(Token, Token),
    /// A referent's name and the measure before it.
    Before(Token, Token),
}

/// Where an event is put, as written.
#[derive(Clone, Copy)]
pub enum WrittenLocation {
    /// `FROM` a position `TO` another.
    Along {
        /// Where it begins.
        from: WrittenPosition,
        /// Where it ends.
        to: WrittenPosition,
    },
    /// `AT` a position.
    At {
        /// Where it is.
        position: WrittenPosition,
    },
}

/// A whole route, or a part of it, as written.
#[derive(Clone, Copy)]
pub enum WrittenWindow {
    /// A route's name alone.
    Whole {
        /// The route's name.
        route: Token,
    },
    /// A route's name, `FROM` a position `TO` another.
    Part {
        /// The route's name.
        route: Token,
        /// Where the part begins.
        from: WrittenPosition,
        /// Where it ends.
        to: WrittenPosition,
    },
}

/// A piece of an alignment as written.
#[derive(Clone, Copy)]
pub struct WrittenPiece {
    /// The name of the route of which a part is carried.
    pub from_route: Token,
    /// The measure at which the part begins.
    pub from: Token,
    /// The measure at which it ends.
    pub to: Token,
    /// The name of the route onto which it is carried.
    pub onto_route: Token,
    /// The measure at which its beginning is put there.
    pub onto: Token,
}

/// What a column is compared with, as written.
#[derive(Clone, Copy)]
pub enum WrittenOperand {
    /// A column's name.
    Column(Token),
    /// A number: whether a minus sign comes before it, and its digits.
    Whole(bool, Token),
    /// A text in quotes.
    Quoted(Token),
}

/// A part of a condition as written, with `AND` and `OR` only in brackets.
#[derive(Drop)]
pub enum WrittenAtom {
    /// A column's name, a comparison, and what it is compared with.
    Compare(Token, Comparison, WrittenOperand),
    /// A column's name and `IS NULL`.
    IsNull(Token),
    /// A column's name and `IS NOT NULL`.
    IsNotNull(Token),
    /// `NOT` before a condition in brackets: an OR of ANDs.
    Negated(Vec<Vec<WrittenAtom>>),
    /// A condition in brackets: an OR of ANDs.
    Bracketed(Vec<Vec<WrittenAtom>>),
}

/// The word before two queries in brackets.
#[derive(Clone, Copy)]
pub enum PairOperator {
    /// `OVERLAY`.
    Overlay,
    /// `COVER`.
    Cover,
    /// `MERGE`.
    Merge,
    /// `MINUS`.
    Minus,
}

/// A query as written.
#[derive(Drop)]
pub enum WrittenQuery {
    /// The name of a table or a view.
    Named(Token),
    /// `WHERE`: a query and a condition, an OR of ANDs.
    Where(Box<WrittenQuery>, Vec<Vec<WrittenAtom>>),
    /// `DISSOLVE`: a query and names of columns, perhaps none.
    Dissolve(Box<WrittenQuery>, Vec<Token>),
    /// `RENAME`: a query, a column's name, and the name after `TO`.
    Rename(Box<WrittenQuery>, Token, Token),
    /// `OVERLAY`, `COVER`, `MERGE` or `MINUS`: two queries.
    Pair(PairOperator, Box<WrittenQuery>, Box<WrittenQuery>),
    /// `WINDOW`: a query and a window.
    Window(Box<WrittenQuery>, WrittenWindow),
    /// `TRANSFORM`: a query and an alignment's name.
    Transform(Box<WrittenQuery>, Token),
    /// `GAPS`: a query.
    Gaps(Box<WrittenQuery>),
}

/// A command as written.
///
/// Its queries are in boxes: the toolchain's own compiler takes no type of more than 8,192 parts.
#[derive(Drop)]
pub enum WrittenCommand {
    /// `DEFINE ROUTE`.
    DefineRoute {
        /// The route's name.
        name: Token,
        /// The measure at which it starts.
        start: Token,
        /// The measure at which it ends.
        finish: Token,
    },
    /// `DEFINE POINT TABLE` or `DEFINE LINE TABLE`.
    DefineTable {
        /// Whether it is for points or lines.
        kind: Kind,
        /// The table's name.
        name: Token,
        /// Its columns, from the left.
        columns: Vec<WrittenColumn>,
    },
    /// `DEFINE REFERENT`.
    DefineReferent {
        /// The route's name.
        route: Token,
        /// The referent's name.
        name: Token,
        /// Where it is put.
        position: WrittenPosition,
    },
    /// `DEFINE INDEX`.
    DefineIndex {
        /// The index's name.
        name: Token,
        /// The table's name.
        table: Token,
        /// The column's name.
        column: Token,
    },
    /// `DEFINE VIEW`.
    DefineView {
        /// The view's name.
        name: Token,
        /// Its query.
        query: Box<WrittenQuery>,
    },
    /// `DEFINE ALIGNMENT`.
    DefineAlignment {
        /// The alignment's name.
        name: Token,
        /// Its pieces.
        pieces: Vec<WrittenPiece>,
    },
    /// `MOVE REFERENT`.
    MoveReferent {
        /// The route's name.
        route: Token,
        /// The referent's name.
        name: Token,
        /// Where it is moved.
        position: WrittenPosition,
    },
    /// `DROP ROUTE`.
    DropRoute {
        /// The route's name.
        name: Token,
    },
    /// `DROP TABLE`.
    DropTable {
        /// The table's name.
        name: Token,
    },
    /// `DROP INDEX`.
    DropIndex {
        /// The index's name.
        name: Token,
    },
    /// `DROP VIEW`.
    DropView {
        /// The view's name.
        name: Token,
    },
    /// `DROP ALIGNMENT`.
    DropAlignment {
        /// The alignment's name.
        name: Token,
    },
    /// `DROP REFERENT`.
    DropReferent {
        /// The route's name.
        route: Token,
        /// The referent's name.
        name: Token,
    },
    /// `INSERT`.
    Insert {
        /// The table's name.
        table: Token,
        /// The route's name.
        route: Token,
        /// Where the event is put.
        place: WrittenLocation,
        /// Its row, from the left.
        values: Vec<WrittenValue>,
    },
    /// `REMOVE`.
    Remove {
        /// The table's name.
        table: Token,
        /// Where rows are removed.
        window: WrittenWindow,
        /// The condition after `WHERE`, an OR of ANDs, where there is one.
        condition: Option<Vec<Vec<WrittenAtom>>>,
    },
    /// `TRANSLATE`.
    Translate {
        /// The route's name.
        route: Token,
        /// The position on it.
        position: WrittenPosition,
        /// How it is to be printed.
        method: Method,
    },
    /// `SELECT`, with the method after `AS` where there is one.
    Select {
        /// What is asked for.
        query: Box<WrittenQuery>,
        /// How positions are to be printed, where the line says it.
        method: Option<Method>,
    },
    /// `TOTAL`, with the column after `SUM` where there is one.
    Total {
        /// The query whose rows are grouped.
        query: Box<WrittenQuery>,
        /// The columns in brackets after `BY`, perhaps none.
        by: Vec<Token>,
        /// The column that is summed, where the line says it.
        summed: Option<Token>,
    },
    /// `EXPLAIN`.
    Explain {
        /// What is asked for.
        query: Box<WrittenQuery>,
    },
    /// `OPEN`, with the method after `AS` where there is one.
    Open {
        /// The cursor's name.
        cursor: Token,
        /// What is asked for.
        query: Box<WrittenQuery>,
        /// How positions are to be printed, where the line says it.
        method: Option<Method>,
    },
    /// `FETCH`.
    Fetch {
        /// The cursor's name.
        cursor: Token,
        /// How many rows at the most.
        rows: Token,
    },
    /// `CLOSE`.
    Close {
        /// The cursor's name.
        cursor: Token,
    },
    /// `SAVE`.
    Save,
    /// `REOPEN`.
    Reopen,
}
