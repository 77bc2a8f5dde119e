//! The commands of the program and the arguments of each, in the order in which help has them.
//!
//! It promises that `clap` is given just this command line (`command_line`).

ghost use Rattle.std.specs.Prelude.{◌≡◌, IfOk};
ghost use Rattle.clap.specs.Words.{app_of};
ghost use Rattle.rs_command_line.specs.CommandLine.{command_line};
ghost use Rattle.rs_command_line.specs.Table.{app_by, with_arguments, with_subcommands};

use crate::arguments::{Argument, Form};
use clap::Command;
use std::alloc::{AllocError, Global};

/// A command of the program.
#[derive(Clone, Copy)]
pub(crate) struct Subcommand {
    /// Its word.
    pub(crate) name: &'static str,
    /// Its text for help.
    pub(crate) about: &'static str,
    /// Its arguments.
    pub(crate) arguments: &'static [Argument],
}

/// The commands.
const SUBCOMMANDS: [Subcommand; 8] = [
    Subcommand {
        name: "create",
        about: "Makes a new file for routes and events, with nothing in it, as: roadseg create --file roads.seg",
        arguments: &[Argument {
            id: "file",
            form: Form::Value("FILE"),
            is_required: true,
            help: "The file to make",
        }],
    },
    Subcommand {
        name: "run",
        about: "Answers the lines of standard input on standard output, as: echo '0 SELECT pavement' | roadseg run --file roads.seg",
        arguments: &[
            Argument {
                id: "file",
                form: Form::Value("FILE"),
                is_required: false,
                help: "The file to work on; without it, everything is kept in memory and lost at the end",
            },
            Argument {
                id: "bail",
                form: Form::Flag,
                is_required: false,
                help: "Stop at the first refused line, with status 1",
            },
            Argument {
                id: "report",
                form: Form::Flag,
                is_required: false,
                help: "Show each refused line, of each number the first ten, and count them at the end; with status 1 where there are any",
            },
            Argument {
                id: "csv",
                form: Form::Flag,
                is_required: false,
                help: "Write the rows of each answer as CSV with a header, and say of refused lines on standard error",
            },
        ],
    },
    Subcommand {
        name: "ask",
        about: "Answers questions from a file as CSV with a header, as: roadseg ask --file roads.seg 'SELECT pavement' > pavement.csv. A question is a SELECT or a TOTAL, without its session",
        arguments: &[
            Argument {
                id: "file",
                form: Form::Value("FILE"),
                is_required: true,
                help: "The file to read; nothing is written to it",
            },
            Argument {
                id: "question",
                form: Form::Words("QUESTION"),
                is_required: true,
                help: "A SELECT or a TOTAL; of several each is answered in turn",
            },
        ],
    },
    Subcommand {
        name: "csv",
        about: "Makes the CSV of standard input into lines, as: roadseg csv 'DEFINE LINE TABLE pavement (surface TEXT(12))' --route road < pavement.csv | roadseg run --file roads.seg",
        arguments: &[
            Argument {
                id: "define",
                form: Form::Word("DEFINE TABLE"),
                is_required: true,
                help: "The line that defines the table, without its session",
            },
            Argument {
                id: "route",
                form: Form::Value("TEXT"),
                is_required: false,
                help: "The column of the CSV that names the route [default: route]. The routes must be defined before, or each line is refused 20: see --routes",
            },
            Argument {
                id: "from",
                form: Form::Value("TEXT"),
                is_required: false,
                help: "The column that says where a span begins [default: from]",
            },
            Argument {
                id: "to",
                form: Form::Value("TEXT"),
                is_required: false,
                help: "The column that says where a span ends [default: to]",
            },
            Argument {
                id: "at",
                form: Form::Value("TEXT"),
                is_required: false,
                help: "The column that says where a point is [default: at]",
            },
            Argument {
                id: "column",
                form: Form::Values("COLUMN=NAME"),
                is_required: false,
                help: "The name that the CSV has for a column of the table, where it is another one; for each such column once",
            },
            Argument {
                id: "session",
                form: Form::Value("TEXT"),
                is_required: false,
                help: "The session of the lines, 0 to 63 [default: 0]",
            },
            Argument {
                id: "no-define",
                form: Form::Flag,
                is_required: false,
                help: "Leave out the line that defines the table",
            },
            Argument {
                id: "routes",
                form: Form::Flag,
                is_required: false,
                help: "Define the routes too, each from the least to the greatest measure met; the lines wait in memory for the end of the input",
            },
            Argument {
                id: "round",
                form: Form::Flag,
                is_required: false,
                help: "Take measures with more than three decimals to the nearest thousandth, of two the even one, and say of how many at the end",
            },
            Argument {
                id: "separator",
                form: Form::Value("TEXT"),
                is_required: false,
                help: "The byte between two fields, as ';', or the word tab [default: ,]",
            },
            Argument {
                id: "scale",
                form: Form::Values("COLUMN=NUMBER"),
                is_required: false,
                help: "A column whose numbers are multiplied by 10, 100 and so on up to 1000000, as length=10, so that 115.8 is 1158; for each such column once",
            },
            Argument {
                id: "names",
                form: Form::Flag,
                is_required: false,
                help: "Make names of routes, and of columns of the header, that are none: each byte that no name has becomes _, so that I-95 is I_95; R is put before what begins with no letter, and _ after a reserved word; past 32 bytes it is cut. Of two that would become one name the second is refused",
            },
            Argument {
                id: "latin1",
                form: Form::Flag,
                is_required: false,
                help: "Read the input as Latin-1, each byte a character. Without it the input is UTF-8, or UTF-16 where it begins with its byte order mark",
            },
            Argument {
                id: "number",
                form: Form::Value("TEXT"),
                is_required: false,
                help: "The INT column of the table that takes the number of each record, from 1, and not a field: equal records stay apart, and a refused line leads back to its record",
            },
            Argument {
                id: "rejects",
                form: Form::Value("TEXT"),
                is_required: false,
                help: "A file to write the records into that are left out, as CSV with the reason in a last column; mended, they are read again",
            },
            Argument {
                id: "names-file",
                form: Form::Value("TEXT"),
                is_required: false,
                help: "A file to write the names into that are made, as CSV: the text and the name of each; makes names as --names does",
            },
            Argument {
                id: "stations",
                form: Form::Value("TEXT"),
                is_required: false,
                help: "How many units a station has, 1 to 1000000, so that with 100 the measure 12+50.5 is 1250.5",
            },
        ],
    },
    Subcommand {
        name: "table",
        about: "Aligns the columns of the CSV of standard input for the eye, numbers to the right, as: roadseg ask --file roads.seg 'SELECT pavement' | roadseg table",
        arguments: &[Argument {
            id: "separator",
            form: Form::Value("TEXT"),
            is_required: false,
            help: "The byte between two fields, as ';', or the word tab [default: ,]",
        }],
    },
    Subcommand {
        name: "dump",
        about: "Prints the lines that rebuild what a file holds, as: roadseg dump --file roads.seg > roads.txt. To rebuild it: roadseg create --file new.seg && roadseg run --file new.seg < roads.txt",
        arguments: &[
            Argument {
                id: "file",
                form: Form::Value("FILE"),
                is_required: true,
                help: "The file to read; nothing is written to it",
            },
            Argument {
                id: "definitions",
                form: Form::Flag,
                is_required: false,
                help: "Leave out the rows of tables",
            },
            Argument {
                id: "table",
                form: Form::Value("TEXT"),
                is_required: false,
                help: "Print one table alone, its definition and its rows",
            },
        ],
    },
    Subcommand {
        name: "explain",
        about: "Says what a refusal means and what to look at, as: roadseg explain 21. Without a number it says so of each",
        arguments: &[Argument {
            id: "refusal",
            form: Form::Word("NUMBER"),
            is_required: false,
            help: "The number of a refusal",
        }],
    },
    Subcommand {
        name: "serve",
        about: "Answers the lines that arrive over the network, for one connection after another, as: roadseg serve --file roads.seg --connections 10",
        arguments: &[
            Argument {
                id: "file",
                form: Form::Value("FILE"),
                is_required: true,
                help: "The file to work on",
            },
            Argument {
                id: "listen",
                form: Form::Address,
                is_required: false,
                help: "The address and port to listen on",
            },
            Argument {
                id: "connections",
                form: Form::Connections,
                is_required: false,
                help: "How many connections to serve before the program ends, 1 to 1000000",
            },
        ],
    },
];

// decision: one-growing-version
/// The program with its commands.
pub(crate) fn roadseg_command<'a>(alloc: Global) -> Result<Command<'a>, AllocError>
    ensures { IfOk result (λ command. app_of command ≡ command_line) }
{
    let program = Command::new(alloc, "roadseg")
        .about(
            "Answers queries on routes and events by linear reference. A line is a session from 0 to 63 and a command, as: 0 DEFINE ROUTE SR12 FROM 0 TO 18.5, or: 0 SELECT WHERE(pavement, surface = 'gravel'). The page docs/LANGUAGE.md has them all",
        )
        .version("0.11.0 (for rattle-kit-13f logic dac8208d650f15bf)")
        .subcommand_required(true);
    with_subcommands(alloc, program, &SUBCOMMANDS)
}

/// A program with these commands added.
fn with_subcommands<'a>(
    alloc: Global,
    program: Command<'a>,
    subcommands: &[Subcommand],
) -> Result<Command<'a>, AllocError>
    ensures { IfOk result (λ added. app_of added ≡ with_subcommands (app_of program.entry) subcommands.now) }
{
    let mut program = program;
    for subcommand in subcommands {
        let command = command_of(alloc, subcommand)?;
        program = program.subcommand(command)?;
    }
    Ok(program)
}

/// A command with its arguments.
fn command_of<'a>(alloc: Global, subcommand: &Subcommand) -> Result<Command<'a>, AllocError>
    ensures { IfOk result (λ command. app_of command ≡ app_by subcommand.now) }
{
    let command = Command::new(alloc, subcommand.name).about(subcommand.about);
    with_arguments(alloc, command, subcommand.arguments)
}

/// A command with these arguments added.
fn with_arguments<'a>(
    alloc: Global,
    command: Command<'a>,
    arguments: &[Argument],
) -> Result<Command<'a>, AllocError>
    ensures { IfOk result (λ added. app_of added ≡ with_arguments (app_of command.entry) arguments.now) }
{
    let mut command = command;
    for argument in arguments {
        command = command.arg(argument.arg(alloc))?;
    }
    Ok(command)
}
