//! What each refusal means: what to look at, an example that is refused and then mended, and which option of `csv` makes lines that
//! are not refused so.
//!
//! It is one table, by the refusals themselves, so that none is missing: the program prints it, and docs/LANGUAGE.md has what it prints.
#![tactic(auto)]

use rs_refusal::Refusal;

/// What is said of a refusal.
#[derive(Clone, Copy)]
pub struct Explanation {
    /// What the refusal means.
    pub meaning: &'static str,
    /// What to look at.
    pub look: &'static str,
    /// An example that is refused.
    pub refused: &'static str,
    /// The example mended.
    pub mended: &'static str,
}

/// How many refusals there are.
pub const REFUSALS: usize = 30;

/// The refusals, in the order of their numbers. A syntax fault is one, at whichever column.
pub const ALL: [Refusal; REFUSALS] = [
    Refusal::LineIsNotText,
    Refusal::LineTooLong,
    Refusal::SessionNumber,
    Refusal::UnknownCharacter,
    Refusal::Syntax(0),
    Refusal::NumberOutOfRange,
    Refusal::NoSuchRoute,
    Refusal::NoSuchName,
    Refusal::NoSuchColumn,
    Refusal::InUse,
    Refusal::NameTaken,
    Refusal::NoSuchReferent,
    Refusal::Limit,
    Refusal::OutsideTheRoute,
    Refusal::EmptySpan,
    Refusal::PointOrLineWanted,
    Refusal::WrongValues,
    Refusal::TextTooLong,
    Refusal::ColumnsDiffer,
    Refusal::ColumnTwice,
    Refusal::KindsDiffer,
    Refusal::TotalTooLarge,
    Refusal::NoSuchCursor,
    Refusal::CursorNameTaken,
    Refusal::TooManyCursors,
    Refusal::OutOfMemory,
    Refusal::Disk,
    Refusal::FileFull,
    Refusal::DamagedFile,
    Refusal::FileNotClosed,
];

/// What is said of a refusal.
pub fn explain(refusal: &Refusal) -> Explanation {
    match refusal {
        Refusal::LineIsNotText => Explanation {
            meaning: "The line holds bytes that are no UTF-8, or a control character such as a tab.",
            look: "The encoding of what you send, and characters copied from a spreadsheet.",
            refused: "0 SELECT pavement, with a tab after SELECT",
            mended: "0 SELECT pavement",
        },
        Refusal::LineTooLong => Explanation {
            meaning: "The line has more than 4,096 bytes.",
            look: "Whether two lines ran together, and how long the texts of the line are.",
            refused: "one DEFINE VIEW of 5,000 bytes",
            mended: "two views, the second of which names the first",
        },
        Refusal::SessionNumber => Explanation {
            meaning: "The line does not begin with a number from 0 to 63 and a blank. Comments, blank lines and quit do not either.",
            look: "The beginning of the line. If you are alone, write 0. To quit, end the input: in a terminal with Ctrl-D.",
            refused: "SELECT pavement",
            mended: "0 SELECT pavement",
        },
        Refusal::UnknownCharacter => Explanation {
            meaning: "A character begins no word, number, text or sign of the language, as ; * \" != and a . that is not between digits, or a quote is not closed.",
            look: "Quotes round texts: single ones, and each quote within doubled. A line ends without ; and a query has no *; write <> for != and 0.5 for .5.",
            refused: "0 INSERT INTO signs ON SR12 AT 2 VALUES ('St. John's')",
            mended: "0 INSERT INTO signs ON SR12 AT 2 VALUES ('St. John''s')",
        },
        Refusal::Syntax(_) => Explanation {
            meaning: "The line is no command. C is the column of the first word that fits no rule, counted from 1 in bytes.",
            look: "The word at that column, and the command's form in docs/LANGUAGE.md. Words of the language are in capitals.",
            refused: "0 SELECT traffic WHERE aadt > 5000",
            mended: "0 SELECT WHERE(traffic, aadt > 5000)",
        },
        Refusal::NumberOutOfRange => Explanation {
            meaning: "A number of the line is out of its range: a measure has one to six digits and up to three decimals, a percentage is at most 100, a value at most 10^12, the length of a text 1 to 120, and the rows of a FETCH 1 to 1,000.",
            look: "Decimals past the third, and numbers in other units.",
            refused: "0 DEFINE ROUTE SR12 FROM 0 TO 14.25001",
            mended: "0 DEFINE ROUTE SR12 FROM 0 TO 14.250",
        },
        Refusal::NoSuchRoute => Explanation {
            meaning: "There is no route of this name.",
            look: "The spelling, capitals among it, and whether the route was defined before this line.",
            refused: "0 INSERT INTO pavement ON SR12 FROM 0 TO 1 VALUES ('asphalt', 2011), before the route",
            mended: "0 DEFINE ROUTE SR12 FROM 0 TO 14.250, and then the INSERT",
        },
        Refusal::NoSuchName => Explanation {
            meaning: "There is no table, view, alignment or index of this name.",
            look: "The spelling, capitals among it, and whether it was defined before this line.",
            refused: "0 SELECT crash",
            mended: "0 SELECT crashes",
        },
        Refusal::NoSuchColumn => Explanation {
            meaning: "What is asked has no column of this name at this point of the query.",
            look: "The columns of the tables, and RENAME and DISSOLVE below this point, which change them.",
            refused: "0 SELECT WHERE(traffic, surface = 'asphalt')",
            mended: "0 SELECT WHERE(pavement, surface = 'asphalt')",
        },
        Refusal::InUse => Explanation {
            meaning: "What would be dropped or moved is in use: a route with events, a table that a view names, START, or any of these while a cursor is open.",
            look: "Events on the route, views and alignments that name it, and open cursors.",
            refused: "0 DROP ROUTE SR12, with events on it",
            mended: "0 REMOVE pavement ON SR12, and so with each table, and then the DROP",
        },
        Refusal::NameTaken => Explanation {
            meaning: "There is something of this kind with this name already.",
            look: "Whether the line was sent twice.",
            refused: "0 DEFINE ROUTE SR12 FROM 0 TO 20, a second time",
            mended: "0 DEFINE ROUTE SR13 FROM 0 TO 20",
        },
        Refusal::NoSuchReferent => Explanation {
            meaning: "The route has no referent of this name.",
            look: "The spelling, and on which route the referent was defined. START is on every route.",
            refused: "0 TRANSLATE SR12 @BRDIGE AS ABSOLUTE",
            mended: "0 TRANSLATE SR12 @BRIDGE AS ABSOLUTE",
        },
        Refusal::Limit => Explanation {
            meaning: "A limit would be passed: so many routes, tables, columns, views, indexes or referents there may be, so wide a row, and so large a query.",
            look: "The table of limits in docs/LANGUAGE.md.",
            refused: "0 DEFINE LINE TABLE t with seventeen columns",
            mended: "two tables, of sixteen columns and of one",
        },
        Refusal::OutsideTheRoute => Explanation {
            meaning: "The position lies before the route's start or after its end.",
            look: "The route's ends, and the unit of the measures.",
            refused: "0 INSERT INTO crashes ON SR12 AT 14.251 VALUES (1, 'injury'), on a route to 14.250",
            mended: "0 INSERT INTO crashes ON SR12 AT 14.25 VALUES (1, 'injury')",
        },
        Refusal::EmptySpan => Explanation {
            meaning: "The span's start is not below its end.",
            look: "Whether FROM and TO are exchanged, or equal. A point goes into a POINT TABLE.",
            refused: "0 INSERT INTO pavement ON SR12 FROM 4 TO 4 VALUES ('asphalt', 2011)",
            mended: "0 INSERT INTO pavement ON SR12 FROM 4 TO 4.1 VALUES ('asphalt', 2011)",
        },
        Refusal::PointOrLineWanted => Explanation {
            meaning: "A point was given where the table holds lines, or a line where it holds points, or GAPS was asked of points.",
            look: "AT is for a POINT TABLE, FROM and TO are for a LINE TABLE; GAPS takes lines.",
            refused: "0 INSERT INTO pavement ON SR12 AT 4 VALUES ('asphalt', 2011)",
            mended: "0 INSERT INTO pavement ON SR12 FROM 4 TO 5 VALUES ('asphalt', 2011)",
        },
        Refusal::WrongValues => Explanation {
            meaning: "The number of the values is not that of the columns, or a value has the wrong type; a comparison has a number on one side and a text on the other; or SUM names a column of texts.",
            look: "The columns of the table in their order: numbers without quotes, texts with them.",
            refused: "0 INSERT INTO pavement ON SR12 FROM 0 TO 1 VALUES ('asphalt', '2011')",
            mended: "0 INSERT INTO pavement ON SR12 FROM 0 TO 1 VALUES ('asphalt', 2011)",
        },
        Refusal::TextTooLong => Explanation {
            meaning: "A text has more bytes than its column takes. A letter with an accent takes two.",
            look: "The TEXT(n) of the column.",
            refused: "0 INSERT INTO pavement ON SR12 FROM 0 TO 1 VALUES ('bituminous concrete', 2011), into TEXT(12)",
            mended: "0 INSERT INTO pavement ON SR12 FROM 0 TO 1 VALUES ('bituminous', 2011)",
        },
        Refusal::ColumnsDiffer => Explanation {
            meaning: "MERGE and MINUS want the same columns, in name, type and order, on both sides.",
            look: "DISSOLVE both sides to the columns that they share.",
            refused: "0 SELECT MINUS(traffic, pavement)",
            mended: "0 SELECT MINUS(DISSOLVE(traffic, ()), DISSOLVE(pavement, ()))",
        },
        Refusal::ColumnTwice => Explanation {
            meaning: "A table or the answer of a query would have two columns of one name.",
            look: "RENAME a column of one side first.",
            refused: "0 SELECT OVERLAY(pavement, pavement)",
            mended: "0 SELECT OVERLAY(pavement, DISSOLVE(RENAME(pavement, surface TO s2), (s2)))",
        },
        Refusal::KindsDiffer => Explanation {
            meaning: "One side holds points and the other lines, where the operator wants one kind.",
            look: "MERGE, MINUS and COVER want one kind on both sides; OVERLAY does not.",
            refused: "0 SELECT COVER(crashes, pavement)",
            mended: "0 SELECT OVERLAY(crashes, pavement)",
        },
        Refusal::TotalTooLarge => Explanation {
            meaning: "A total of the answer has more digits than are counted.",
            look: "The columns after BY and SUM.",
            refused: "a TOTAL with SUM over numbers near 10^12",
            mended: "the same by a further column, in smaller groups",
        },
        Refusal::NoSuchCursor => Explanation {
            meaning: "The session has no cursor of this name.",
            look: "The spelling, the session at the front of the line, and REOPEN, which closes cursors.",
            refused: "1 FETCH c 100, where session 0 opened c",
            mended: "0 FETCH c 100",
        },
        Refusal::CursorNameTaken => Explanation {
            meaning: "The session has a cursor of this name already.",
            look: "CLOSE it, or take another name.",
            refused: "0 OPEN c FOR pavement, a second time",
            mended: "0 CLOSE c, and then the OPEN",
        },
        Refusal::TooManyCursors => Explanation {
            meaning: "The session has four cursors, which is as many as it may have.",
            look: "CLOSE one that is no longer read.",
            refused: "0 OPEN e FOR pavement, after a, b, c and d",
            mended: "0 CLOSE a, and then the OPEN",
        },
        Refusal::OutOfMemory => Explanation {
            meaning: "The system gave no more memory. The line has changed nothing.",
            look: "What else runs on the machine, and whether a cursor can take the place of one large answer.",
            refused: "0 SELECT OVERLAY(pavement, traffic), on a machine without memory",
            mended: "0 OPEN c FOR OVERLAY(pavement, traffic), and then FETCH c 1000",
        },
        Refusal::Disk => Explanation {
            meaning: "A read or write of the file failed. The line has changed nothing.",
            look: "The disk: whether it is full, and whether it can be reached.",
            refused: "0 SAVE, on a full disk",
            mended: "0 SAVE, once there is room",
        },
        Refusal::FileFull => Explanation {
            meaning: "The file has as many pages as it may have. The line has changed nothing.",
            look: "What can be removed, or a second file.",
            refused: "0 INSERT ..., where the file has 1,048,576 pages",
            mended: "the INSERT, after a REMOVE of what is no longer asked for",
        },
        Refusal::DamagedFile => Explanation {
            meaning: "The file is not one that RoadSeg wrote, or was changed or cut off since by something else.",
            look: "The backup. Nothing of a damaged file is read.",
            refused: "roadseg run --file notes.txt",
            mended: "roadseg run --file roads.seg",
        },
        Refusal::FileNotClosed => Explanation {
            meaning: "An older program wrote the file and did not close it; it may have half of a change in it.",
            look: "The backup, and the lines that were sent since.",
            refused: "roadseg run --file old.seg, which an older program was writing when it was killed",
            mended: "roadseg run --file backup.seg",
        },
    }
}

/// Which option of `csv` makes lines that are not refused so, or what `csv` does by itself, where one does.
pub fn cure_by_csv(refusal: &Refusal) -> Option<&'static str> {
    match refusal {
        Refusal::LineIsNotText => {
            Some(
                "without an option it reads UTF-8, and UTF-16 by its mark; --latin1 reads Latin-1.",
            )
        }
        Refusal::SessionNumber => {
            Some("--session 7 begins each line with 7; without it they begin with 0.")
        }
        Refusal::UnknownCharacter => Some(
            "without an option it puts texts into quotes, doubles those within, and takes .5 and 1.; --separator ';' parts fields at ;, and --names makes names of routes with such a character.",
        ),
        Refusal::Syntax(_) => Some(
            "--names makes names of routes, and of columns of the header, that are none, as I_95 of I-95; --stations 100 reads 12+50.5 as 1250.5.",
        ),
        Refusal::NumberOutOfRange => {
            Some("--round takes measures with more decimals to the nearest thousandth.")
        }
        Refusal::NoSuchRoute => Some(
            "--routes defines the routes too, each from the least to the greatest measure met on it.",
        ),
        Refusal::NoSuchColumn => {
            Some("--column COLUMN=NAME says which name of the header is the column's.")
        }
        Refusal::NameTaken => {
            Some("--no-define leaves out the line that defines the table, which is there.")
        }
        Refusal::OutsideTheRoute => {
            Some("--routes defines routes that are not there yet, as long as the records need.")
        }
        Refusal::EmptySpan => { Some("--at names the column of the measure, for a POINT TABLE.") }
        Refusal::WrongValues => Some(
            "without an option it writes values in the order of the table's columns, and takes 2012.0 as 2012; --scale COLUMN=10 takes 115.8 as 1158.",
        ),
        _ => None,
    }
}
