//! The words are read: `create`, `run`, `ask`, `csv`, `table`, `dump`, `explain` and `serve`, each with its own arguments.
//!
//! `clap` writes the help and the messages, fills in the defaults, and checks the number of
//! connections.

ghost use Rattle.std.specs.Prelude.{◌≡◌, [], IfOk, Some, IsSome, map, option_and_then, unwrap_or};
ghost use Rattle.clap.specs.Words.{all_of, FailsBy, fault_of, first_of, found_of, rows_of};
ghost use Rattle.clap.specs.Words.{subcommand_rows_of};
ghost use Rattle.rs_command_line.specs.CommandLine.{command_line};
ghost use Rattle.rs_command_line.specs.Asked.{asked_of, asked_by, asked_by_ask, asked_by_csv, asked_by_dump, asked_by_run, flag_in};
ghost use Rattle.rs_command_line.specs.Asked.{said_by, HasConnectionsInRange};

use crate::subcommands::roadseg_command;
use clap::{ArgMatches, Error};
use std::alloc::{AllocError, Global};
use std::convert::AsStr;

/// What `csv` is told: the texts of its options, each as it was given.
#[derive(Drop)]
pub struct CsvWords<'a> {
    /// The DEFINE TABLE.
    pub define: Option<&'a str>,
    /// `--route`.
    pub route: Option<&'a str>,
    /// `--from`.
    pub from: Option<&'a str>,
    /// `--to`.
    pub to: Option<&'a str>,
    /// `--at`.
    pub at: Option<&'a str>,
    /// `--session`.
    pub session: Option<&'a str>,
    /// `--separator`.
    pub separator: Option<&'a str>,
    /// `--number`.
    pub number: Option<&'a str>,
    /// `--rejects`.
    pub rejects: Option<&'a str>,
    /// `--names-file`.
    pub names_file: Option<&'a str>,
    /// `--stations`.
    pub stations: Option<&'a str>,
    /// Each `--column`.
    pub columns: Vec<&'a str>,
    /// Each `--scale`.
    pub scales: Vec<&'a str>,
    /// Whether `--no-define` is given.
    pub omits_definition: bool,
    /// Whether `--routes` is given.
    pub defines_routes: bool,
    /// Whether `--round` is given.
    pub rounds: bool,
    /// Whether `--names` is given.
    pub makes_names: bool,
    /// Whether `--latin1` is given.
    pub is_latin1: bool,
}

/// What the words ask.
#[derive(Drop)]
pub enum Asked<'a> {
    /// `create --file F`: an empty file is made.
    Create {
        file: &'a str,
    },
    /// `run`: standard input is served over memory.
    Run,
    /// `run --file F`: standard input is served over a file.
    RunFile {
        file: &'a str,
    },
    /// `run` with `--bail` or `--report`, over memory or over a file.
    RunWatched {
        file: Option<&'a str>,
        bails: bool,
        reports: bool,
    },
    /// `run --csv`, over memory or over a file: the rows of answers are written as CSV.
    RunAsCsv {
        file: Option<&'a str>,
        bails: bool,
        reports: bool,
    },
    /// `ask --file F QUESTION ..`: questions are answered from a file as CSV.
    Ask {
        file: &'a str,
        questions: Vec<&'a str>,
    },
    /// `csv ..`: the CSV of standard input is made into lines.
    Csv(CsvWords<'a>),
    /// `table`: the columns of the CSV of standard input are aligned.
    Table {
        separator: Option<&'a str>,
    },
    /// `dump --file F ..`: the lines that rebuild what a file holds are written, or those of one table.
    Dump {
        file: &'a str,
        table: Option<&'a str>,
        omits_rows: bool,
    },
    /// `explain`: what a refusal means, or what each does.
    Explain {
        refusal: Option<&'a str>,
    },
    /// `serve --file F ..`: so many connections are served over a file, one after another.
    Serve {
        file: &'a str,
        address: &'a str,
        connections: u32,
    },
}

/// Reads the words, the program's own name first.
///
/// An error is a request for help or the version, a fault of the words, or want of memory: its kind
/// says which. Texts are passed on as they were written.
pub fn read_words<'a, S: AsStr>(alloc: Global, words: &'a [S]) -> Result<Asked<'a>, Error>
    ensures fails { FailsBy (fault_of command_line (map S.text words.now)) result }
    ensures asks { IfOk result (λ asked. asked_of (map S.text words.now) ≡ Some (said_by asked)) }
    ensures range { IfOk result HasConnectionsInRange }
{
    let command = roadseg_command(alloc)?;
    let matches = command.try_get_matches_from(words)?;
    let asked = asked_in(alloc, &matches);
    // (by a call, so that the proof does not take the matches apart)
    drop(matches);
    let asked = asked?;
    Ok(asked)
}

/// What is asked, by the matches of words that were taken.
fn asked_in<'a>(alloc: Global, matches: &ArgMatches<'a>) -> Result<Asked<'a>, AllocError>
    requires { IsSome (option_and_then asked_by (subcommand_rows_of matches.now)) }
    ensures { IfOk result (λ asked. option_and_then asked_by (subcommand_rows_of matches.now) ≡ Some (said_by asked)) }
{
    match matches.subcommand() {
        Some((name, given)) => asked_of_command(alloc, name, given),
        None => unreachable!(),
    }
}

/// What a command of this name asks, by the matches of its arguments.
fn asked_of_command<'a>(
    alloc: Global,
    name: &str,
    given: &ArgMatches<'a>,
) -> Result<Asked<'a>, AllocError>
    requires { IsSome (asked_by (name.now, rows_of (found_of given.now))) }
    ensures { IfOk result (λ asked. asked_by (name.now, rows_of (found_of given.now)) ≡ Some (said_by asked)) }
{
    match name {
        "create" => Ok(Asked::Create {
            file: text_of(given, "file"),
        }),
        "run" => Ok(asked_of_run(given)),
        "ask" => asked_of_ask(alloc, given),
        "csv" => asked_of_csv(alloc, given),
        "table" => Ok(Asked::Table {
            separator: given.get_str("separator"),
        }),
        "dump" => Ok(asked_of_dump(given)),
        "explain" => Ok(Asked::Explain {
            refusal: given.get_str("refusal"),
        }),
        "serve" => Ok(Asked::Serve {
            file: text_of(given, "file"),
            address: text_of(given, "listen"),
            connections: given.get_one::<u32>("connections").unwrap(),
        }),
        _ => unreachable!(),
    }
}

/// What `run` asks.
fn asked_of_run<'a>(given: &ArgMatches<'a>) -> Asked<'a>
    ensures { asked_by_run (rows_of (found_of given.now)) ≡ Some (said_by result) }
{
    let file = given.get_str("file");
    let bails = has_flag(given, "bail");
    let reports = has_flag(given, "report");
    let as_csv = has_flag(given, "csv");
    if as_csv {
        return Asked::RunAsCsv {
            file,
            bails,
            reports,
        };
    }
    if bails || reports {
        return Asked::RunWatched {
            file,
            bails,
            reports,
        };
    }
    match file {
        Some(file) => Asked::RunFile { file },
        None => Asked::Run,
    }
}

/// What `ask` asks.
fn asked_of_ask<'a>(alloc: Global, given: &ArgMatches<'a>) -> Result<Asked<'a>, AllocError>
    requires { IsSome (asked_by_ask (rows_of (found_of given.now))) }
    ensures { IfOk result (λ asked. asked_by_ask (rows_of (found_of given.now)) ≡ Some (said_by asked)) }
{
    let questions = texts_of(alloc, given, "question")?;
    Ok(Asked::Ask {
        file: text_of(given, "file"),
        questions,
    })
}

/// What `csv` asks.
fn asked_of_csv<'a>(alloc: Global, given: &ArgMatches<'a>) -> Result<Asked<'a>, AllocError>
    ensures { IfOk result (λ asked. asked_by_csv (rows_of (found_of given.now)) ≡ Some (said_by asked)) }
{
    let columns = texts_of(alloc, given, "column")?;
    let scales = texts_of(alloc, given, "scale")?;
    Ok(Asked::Csv(CsvWords {
        define: given.get_str("define"),
        route: given.get_str("route"),
        from: given.get_str("from"),
        to: given.get_str("to"),
        at: given.get_str("at"),
        session: given.get_str("session"),
        separator: given.get_str("separator"),
        number: given.get_str("number"),
        rejects: given.get_str("rejects"),
        names_file: given.get_str("names-file"),
        stations: given.get_str("stations"),
        columns,
        scales,
        omits_definition: has_flag(given, "no-define"),
        defines_routes: has_flag(given, "routes"),
        rounds: has_flag(given, "round"),
        makes_names: has_flag(given, "names"),
        is_latin1: has_flag(given, "latin1"),
    }))
}

/// What `dump` asks.
fn asked_of_dump<'a>(given: &ArgMatches<'a>) -> Asked<'a>
    requires { IsSome (asked_by_dump (rows_of (found_of given.now))) }
    ensures { asked_by_dump (rows_of (found_of given.now)) ≡ Some (said_by result) }
{
    Asked::Dump {
        file: text_of(given, "file"),
        table: given.get_str("table"),
        omits_rows: has_flag(given, "definitions"),
    }
}

/// The texts of an argument, one for each time that it is given.
fn texts_of<'a>(alloc: Global, given: &ArgMatches<'a>, id: &str) -> Result<Vec<&'a str>, AllocError>
    ensures { IfOk result (λ texts. map (λ t. t.now) texts.items ≡ unwrap_or (all_of id.now (rows_of (found_of given.now))) []) }
{
    match given.get_strs(id) {
        Some(texts) => Vec::from_slice(alloc, texts),
        None => Ok(Vec::new(alloc)),
    }
}

/// Whether a flag is given.
fn has_flag(given: &ArgMatches<'_>, id: &str) -> bool
    ensures { result ≡ flag_in id.now (rows_of (found_of given.now)) }
{
    match given.get_str(id) {
        Some(value) => value == "true",
        None => false,
    }
}

/// The text of an argument that has one.
fn text_of<'a>(given: &ArgMatches<'a>, id: &str) -> &'a str
    requires { IsSome (first_of id.now (rows_of (found_of given.now))) }
    ensures { first_of id.now (rows_of (found_of given.now)) ≡ Some result.now }
{
    given.get_str(id).unwrap()
}
