//! The command line as `clap` knows it: what the table has is built, row by row.

use crate::help::{ABOUT, EXAMPLE, about, example};
use crate::table::{Item, Kind, TOOLS, Tool, Valued, Values};
use clap::builder::ValueParser;
use clap::{Arg, ArgAction, Command};
use std::alloc::{AllocError, Global};

/// The words that `--until` takes.
const UNTIL: &[&str] = &["deadlock"];

/// An option with a value.
fn valued_option<'a>(alloc: Global, id: &'a str, option: Valued, help: &'a str) -> Arg<'a> {
    let arg = Arg::new(alloc, id)
        .long(option.spelling)
        .value_name(option.shown)
        .required(option.required)
        .action(ArgAction::Set)
        .help(help);
    match option.values {
        Values::AnyWord => arg,
        Values::Numbers(number) => {
            arg.value_parser(ValueParser::unsigned(number.least as u64, number.most as u64))
        }
        Values::DeadlockAlone => arg.value_parser(ValueParser::Names(UNTIL)),
    }
}

/// An argument of a command, by its row of the table.
fn arg<'a>(alloc: Global, item: Item) -> Arg<'a> {
    match item.kind {
        Kind::File(place) => Arg::new(alloc, item.id)
            .index(place)
            .value_name(item.id)
            .required(true)
            .action(ArgAction::Set)
            .help(item.help),
        Kind::Flag => Arg::new(alloc, item.id)
            .long(item.id)
            .action(ArgAction::SetTrue)
            .help(item.help),
        Kind::Valued(option) => valued_option(alloc, item.id, option, item.help),
    }
}

/// A command, by its row of the table.
fn tool_command<'a>(alloc: Global, tool: Tool) -> Result<Command<'a>, AllocError> {
    let mut command = Command::new(alloc, tool.word())
        .about(about(tool))
        .after_help(example(tool));
    for name in tool.names() {
        command = command.arg(arg(alloc, name.item()))?;
    }
    Ok(command)
}

/// `mpdbg` and its commands.
pub(crate) fn program<'a>(alloc: Global) -> Result<Command<'a>, AllocError> {
    let mut program = Command::new(alloc, "mpdbg")
        .version("0.1.0")
        .about(ABOUT)
        .after_help(EXAMPLE)
        .no_binary_name(true)
        .subcommand_required(true)
        .bin_name("mpdbg")?;
    for tool in &TOOLS {
        let command = tool_command(alloc, *tool)?;
        program = program.subcommand(command)?;
    }
    Ok(program)
}
