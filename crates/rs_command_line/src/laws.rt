//! Laws of the command line: what some words ask.
//!
//! It promises which words ask to work and with which texts and number, which ask for help or the
//! version, and what is at fault where a word is missing or out of range.

ghost use Rattle.std.specs.Prelude.{◌≡◌, List, ℕ, [], ◌∷◌, None, Some, codes, false, true};
ghost use Rattle.clap.specs.Words.{fault_of};
ghost use Rattle.clap.specs.declared.error.kind.ErrorKind.TheVariants.{DisplayHelp, DisplayVersion};
ghost use Rattle.clap.specs.declared.error.kind.ErrorKind.TheVariants.{MissingSubcommand};
ghost use Rattle.clap.specs.declared.error.kind.ErrorKind.TheVariants.{MissingRequiredArgument};
ghost use Rattle.clap.specs.declared.error.kind.ErrorKind.TheVariants.{ValueValidation};
ghost use Rattle.rs_command_line.specs.CommandLine.{command_line};
ghost use Rattle.rs_command_line.specs.Asked.{asked_of, creates, dumps, runs, runs_over, serves};
ghost use Rattle.rs_command_line.specs.Asked.{begins_with_hyphen};

/// The word `run` after the program's name asks to serve over memory.
pub fn run_asks_to_serve()
    ensures taken { (name : List ℕ) → fault_of command_line (name ∷ codes "run" ∷ []) ≡ [] }
    ensures asks { (name : List ℕ) → asked_of (name ∷ codes "run" ∷ []) ≡ Some runs }
{}

/// `run --file` and a file's name ask to serve over that file.
pub fn run_with_a_file_asks_for_it()
    ensures taken { (name file : List ℕ) → begins_with_hyphen file ≡ false
        → fault_of command_line (name ∷ codes "run" ∷ codes "--file" ∷ file ∷ []) ≡ [] }
    ensures asks { (name file : List ℕ) → begins_with_hyphen file ≡ false
        → asked_of (name ∷ codes "run" ∷ codes "--file" ∷ file ∷ []) ≡ Some (runs_over file) }
{}

/// `create --file` and a file's name ask to make that file.
pub fn create_asks_for_its_file()
    ensures taken { (name file : List ℕ) → begins_with_hyphen file ≡ false
        → fault_of command_line (name ∷ codes "create" ∷ codes "--file" ∷ file ∷ []) ≡ [] }
    ensures asks { (name file : List ℕ) → begins_with_hyphen file ≡ false
        → asked_of (name ∷ codes "create" ∷ codes "--file" ∷ file ∷ []) ≡ Some (creates file) }
{}

/// `dump --file` and a file's name ask for all lines that rebuild what it holds.
pub fn dump_asks_for_its_file()
    ensures taken { (name file : List ℕ) → begins_with_hyphen file ≡ false
        → fault_of command_line (name ∷ codes "dump" ∷ codes "--file" ∷ file ∷ []) ≡ [] }
    ensures asks { (name file : List ℕ) → begins_with_hyphen file ≡ false
        → asked_of (name ∷ codes "dump" ∷ codes "--file" ∷ file ∷ []) ≡ Some (dumps file None false) }
{}

/// `dump` takes a table, and `--definitions` to leave out its rows.
pub fn dump_asks_as_it_is_told()
    ensures taken { (name file table : List ℕ) → begins_with_hyphen file ≡ false
        → begins_with_hyphen table ≡ false
        → fault_of command_line (name ∷ codes "dump" ∷ codes "--file" ∷ file ∷ codes "--table"
        ∷ table ∷ codes "--definitions" ∷ []) ≡ [] }
    ensures asks { (name file table : List ℕ) → begins_with_hyphen file ≡ false
        → begins_with_hyphen table ≡ false
        → asked_of (name ∷ codes "dump" ∷ codes "--file" ∷ file ∷ codes "--table" ∷ table
        ∷ codes "--definitions" ∷ []) ≡ Some (dumps file (Some table) true) }
{}

/// `serve --file` and a file's name ask to serve one connection over that file, on 127.0.0.1:7400.
pub fn serve_asks_by_default()
    ensures taken { (name file : List ℕ) → begins_with_hyphen file ≡ false
        → fault_of command_line (name ∷ codes "serve" ∷ codes "--file" ∷ file ∷ []) ≡ [] }
    ensures asks { (name file : List ℕ) → begins_with_hyphen file ≡ false
        → asked_of (name ∷ codes "serve" ∷ codes "--file" ∷ file ∷ [])
        ≡ Some (serves file (codes "127.0.0.1:7400") 1) }
{}

/// `serve` takes an address, and as many as 1000000 connections.
pub fn serve_asks_as_it_is_told()
    ensures taken { (name file address : List ℕ) → begins_with_hyphen file ≡ false
        → begins_with_hyphen address ≡ false
        → fault_of command_line (name ∷ codes "serve" ∷ codes "--file" ∷ file ∷ codes "--listen"
        ∷ address ∷ codes "--connections" ∷ codes "1000000" ∷ []) ≡ [] }
    ensures asks { (name file address : List ℕ) → begins_with_hyphen file ≡ false
        → begins_with_hyphen address ≡ false
        → asked_of (name ∷ codes "serve" ∷ codes "--file" ∷ file ∷ codes "--listen" ∷ address
        ∷ codes "--connections" ∷ codes "1000000" ∷ []) ≡ Some (serves file address 1000000) }
{}

/// `serve` refuses 0 connections, and 1000001.
pub fn connections_out_of_range_are_refused()
    ensures none { (name file : List ℕ) → begins_with_hyphen file ≡ false
        → fault_of command_line (name ∷ codes "serve" ∷ codes "--file" ∷ file
        ∷ codes "--connections" ∷ codes "0" ∷ []) ≡ ValueValidation ∷ [] }
    ensures many { (name file : List ℕ) → begins_with_hyphen file ≡ false
        → fault_of command_line (name ∷ codes "serve" ∷ codes "--file" ∷ file
        ∷ codes "--connections" ∷ codes "1000001" ∷ []) ≡ ValueValidation ∷ [] }
{}

/// The program's name alone asks nothing: a command is missing.
pub fn no_word_lacks_a_command()
    ensures { (name : List ℕ) → fault_of command_line (name ∷ []) ≡ MissingSubcommand ∷ [] }
{}

/// `create` alone lacks its file.
pub fn create_lacks_a_file()
    ensures { (name : List ℕ)
        → fault_of command_line (name ∷ codes "create" ∷ []) ≡ MissingRequiredArgument ∷ [] }
{}

/// `dump` alone lacks its file.
pub fn dump_lacks_a_file()
    ensures { (name : List ℕ)
        → fault_of command_line (name ∷ codes "dump" ∷ []) ≡ MissingRequiredArgument ∷ [] }
{}

/// `serve` alone lacks its file.
pub fn serve_lacks_a_file()
    ensures { (name : List ℕ)
        → fault_of command_line (name ∷ codes "serve" ∷ []) ≡ MissingRequiredArgument ∷ [] }
{}

/// `--help` after the program's name asks for help.
pub fn help_is_asked_for()
    ensures { (name : List ℕ)
        → fault_of command_line (name ∷ codes "--help" ∷ []) ≡ DisplayHelp ∷ [] }
{}

/// `run --help` after the program's name asks for help.
pub fn help_on_run_is_asked_for()
    ensures { (name : List ℕ)
        → fault_of command_line (name ∷ codes "run" ∷ codes "--help" ∷ []) ≡ DisplayHelp ∷ [] }
{}

/// `--version` after the program's name asks for the version.
pub fn version_is_asked_for()
    ensures { (name : List ℕ)
        → fault_of command_line (name ∷ codes "--version" ∷ []) ≡ DisplayVersion ∷ [] }
{}
