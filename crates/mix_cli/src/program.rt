//! The words that the program takes, as clap reads them: the table of the commands, row by row.

use crate::about::{ABOUT, MORE};
use crate::commands::COMMANDS;
use crate::version::{LONG_VERSION, VERSION};
use clap::builder::ValueParser;
use clap::{Arg, ArgAction, Command};
use std::alloc::{AllocError, Global};

/// What an argument is: a word that is needed, one or more such words, or one that may be left out;
/// a flag; or an option with a file, a part of the machine, values of names, a number in a range, or
/// several numbers.
#[derive(Clone, Copy)]
pub enum Kind {
    Needed,
    Several,
    Free,
    Flag,
    File,
    Part,
    Names,
    Number(u64, u64),
    Numbers(u64, u64),
}

/// An argument, with its line of help, at most 53 characters for an option of `run`.
#[derive(Clone, Copy)]
pub(crate) struct Argument<'a> {
    pub(crate) name: &'a str,
    pub(crate) kind: Kind,
    pub(crate) help: &'a str,
}

/// A command: its name, what it does, what help says at its end, and its arguments.
#[derive(Clone, Copy)]
pub(crate) struct Subcommand<'a> {
    pub(crate) name: &'a str,
    pub(crate) about: &'a str,
    pub(crate) more: &'a str,
    pub(crate) arguments: &'a [Argument<'a>],
}

fn arg_of<'a>(alloc: Global, argument: &Argument<'a>) -> Arg<'a> {
    let name = argument.name;
    let arg = Arg::new(alloc, name).help(argument.help);
    match argument.kind {
        Kind::Needed => arg.required(true),
        Kind::Several => arg.required(true).action(ArgAction::Append),
        Kind::Free => arg,
        Kind::Flag => arg.long(name).action(ArgAction::SetTrue),
        Kind::File => arg.long(name).value_name("FILE"),
        Kind::Part => arg.long(name).value_name("PART"),
        Kind::Names => arg.long(name).value_name("NAMES"),
        Kind::Number(from, to) => arg
            .long(name)
            .value_name("N")
            .value_parser(ValueParser::Unsigned(from, to)),
        Kind::Numbers(from, to) => arg
            .long(name)
            .value_name("N")
            .action(ArgAction::Append)
            .value_parser(ValueParser::Unsigned(from, to)),
    }
}

// A subcommand. If it has arguments, it shows its help where it is given no word.
fn command_of<'a>(alloc: Global, row: &Subcommand<'a>) -> Result<Command<'a>, AllocError> {
    let mut command = Command::new(alloc, row.name)
        .about(row.about)
        .after_help(row.more)
        .arg_required_else_help(!row.arguments.is_empty());
    for one in row.arguments {
        command = command.arg(arg_of(alloc, one))?;
    }
    Ok(command)
}

/// The definitions by which clap reads the words.
pub(crate) fn program<'a>(alloc: Global) -> Result<Command<'a>, AllocError> {
    let mut command = Command::new(alloc, "mixrev")
        .about(ABOUT)
        .version(VERSION)
        .long_version(LONG_VERSION)
        .after_help(MORE)
        .arg_required_else_help(true)
        .subcommand_required(true)
        .disable_help_subcommand(true);
    for row in &COMMANDS {
        command = command.subcommand(command_of(alloc, row)?)?;
    }
    Ok(command)
}
