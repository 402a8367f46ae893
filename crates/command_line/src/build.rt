//! The command line that the tool takes, made of its tables.

use crate::table::{CODES, COMMANDS, CommandRow, OptionRow, SHELLS, Takes};
use clap::builder::ValueParser;
use clap::{Arg, ArgAction, Command};
use std::alloc::{AllocError, Global};

/// The version of the program, and the toolchain that it is proved with, as `rt version` prints it.
const VERSION: &str = "0.1.0 (rattle-kit-13b logic dac8208d650f15bf)";

/// The letter of an option with this name, if it has one.
pub(crate) fn letter_of(name: &str) -> Option<&'static str> {
    match name {
        "message" => Some("m"),
        "output" => Some("o"),
        "quiet" => Some("q"),
        "sign" => Some("s"),
        _ => None,
    }
}

/// An argument that is given by its name, or by its letter.
fn named<'a>(arg: Arg<'a>, name: &'a str) -> Arg<'a> {
    let arg = arg.long(name);
    let Some(letter) = letter_of(name) else {
        return arg;
    };
    match letter.chars().next() {
        Some(letter) => arg.short(letter),
        None => arg,
    }
}

/// An option.
fn arg_of<'a>(alloc: Global, row: &OptionRow) -> Result<Arg<'a>, AllocError> {
    let arg = Arg::new(alloc, row.name).help(row.help);
    let mut arg = match row.takes {
        Takes::Nothing => named(arg, row.name).action(ArgAction::SetTrue),
        Takes::Number(least, most) => named(arg, row.name)
            .value_name("N")
            .value_parser(ValueParser::Signed(least, most)),
        Takes::Word(what, words) => named(arg, row.name)
            .value_name(what)
            .value_parser(ValueParser::Names(words)),
        Takes::Text(what) => named(arg, row.name).value_name(what),
        Takes::Messages => named(arg, row.name)
            .value_name("TEXT")
            .action(ArgAction::Append)
            .allow_hyphen_values(true),
        Takes::Place => arg.value_name("FILE"),
        Takes::Places => arg
            .value_name("FILE")
            .num_args(0..)
            .action(ArgAction::Append),
        Takes::Codes => named(arg, row.name)
            .value_name("CODES")
            .value_delimiter(',')
            .hide_possible_values(true)
            .action(ArgAction::Append)
            .value_parser(ValueParser::Names(&CODES)),
        Takes::Shell => arg
            .value_name("SHELL")
            .required(true)
            .value_parser(ValueParser::Names(&SHELLS)),
    };
    if let Some(default) = row.default {
        arg = arg.default_value(default);
    }
    arg.conflicts_with_all(row.conflicts)?
        .requires_all(row.needs)
}

/// A command with its options.
fn command_of<'a>(alloc: Global, row: &CommandRow) -> Result<Command<'a>, AllocError> {
    let mut command = Command::new(alloc, row.name)
        .about(row.about)
        .after_help(row.examples);
    for options in row.options {
        for option in *options {
            command = command.arg(arg_of(alloc, option)?)?;
        }
    }
    Ok(command)
}

/// The tool with its commands.
pub(crate) fn tool<'a>(alloc: Global) -> Result<Command<'a>, AllocError> {
    let mut tool = Command::new(alloc, "signctl")
        .about("Checks and shows the messages of a roadside message sign, and runs its controller")
        .version(VERSION)
        .subcommand_required(true);
    for row in &COMMANDS {
        tool = tool.subcommand(command_of(alloc, row)?)?;
    }
    Ok(tool)
}
