//! An argument of the words, and what it is for `clap`.

ghost use Rattle.std.specs.Prelude.{◌≡◌, false};
ghost use Rattle.clap.specs.Words.{rule_of};
ghost use Rattle.rs_command_line.specs.Table.{rule_by};

use clap::{Arg, ArgAction};
use std::alloc::Global;

/// How an argument is written, with the name that help has for its value.
#[derive(Clone, Copy)]
pub(crate) enum Form {
    /// `--ID`.
    Flag,
    /// `--ID VALUE`.
    Value(&'static str),
    /// `--ID VALUE`, as often as it is wanted.
    Values(&'static str),
    /// `VALUE` by itself.
    Word(&'static str),
    /// `VALUE` by itself, one or more.
    Words(&'static str),
    /// `--ID ADDRESS`, 127.0.0.1:7400 by default.
    Address,
    /// `--ID NUMBER`, from 1 to 1000000 and 1 by default.
    Connections,
}

/// An argument.
#[derive(Clone, Copy)]
pub(crate) struct Argument {
    /// Its name, by which its value is found.
    pub(crate) id: &'static str,
    /// How it is written.
    pub(crate) form: Form,
    /// Whether it must be given.
    pub(crate) is_required: bool,
    /// Its text for help.
    pub(crate) help: &'static str,
}

impl Argument {
    /// The argument for `clap`.
    pub(crate) fn arg<'a>(&self, alloc: Global) -> Arg<'a>
        ensures rule { rule_of result ≡ rule_by self.now }
        ensures local { result.global ≡ false }
    {
        let arg = Arg::new(alloc, self.id)
            .required(self.is_required)
            .help(self.help);
        match self.form {
            Form::Flag => arg.long(self.id).action(ArgAction::SetTrue),
            Form::Value(name) => arg.long(self.id).value_name(name),
            Form::Values(name) => arg.long(self.id).value_name(name).action(ArgAction::Append),
            Form::Word(name) => arg.value_name(name),
            Form::Words(name) => arg.value_name(name).action(ArgAction::Append),
            Form::Address => arg
                .long(self.id)
                .value_name("ADDRESS")
                .default_value("127.0.0.1:7400"),
            Form::Connections => arg
                .long(self.id)
                .value_name("NUMBER")
                .value_parser(clap::value_parser!(u32).range(1..=1_000_000))
                .default_value("1"),
        }
    }
}
