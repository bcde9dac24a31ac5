//! The command line that the program accepts.
use crate::help::{CommandHelp, FILE, commands, more};
use crate::options::options;
use clap::{Arg, ArgAction, Command, Error};
use std::alloc::Global;

/// Returns the command line of the program.
///
/// # Errors
///
/// An error if memory allocation fails.
pub fn command_line<'a>(alloc: Global) -> Result<Command<'a>, Error> {
    let mut command = Command::new(alloc, "ptdump")
        .about("Prints what the page tables in a dump of physical memory map")
        .version("1.0.0")
        .arg_required_else_help(true)
        .subcommand_required(true)
        .after_help(more());
    for help in &commands() {
        command = command.subcommand(subcommand(alloc, help)?)?;
    }
    Ok(command)
}

/// Returns the command line of a command.
fn subcommand<'a>(alloc: Global, help: &CommandHelp) -> Result<Command<'a>, Error> {
    let mut command = Command::new(alloc, help.name)
        .about(help.about)
        .after_help(help.more)
        .arg(file(alloc))?;
    if let Some(text) = help.addresses {
        command = command.arg(addresses(alloc, text))?;
    }
    for option in options() {
        if option.is_common || help.options.contains(&option.name) {
            command = command.arg(option.argument(alloc)?)?;
        }
    }
    Ok(command)
}

/// Returns the argument for the dump.
fn file<'a>(alloc: Global) -> Arg<'a> {
    Arg::new(alloc, "file")
        .value_name("FILE")
        .required(true)
        .help(FILE)
}

/// Returns the argument for one or more addresses.
fn addresses<'a>(alloc: Global, help: &'static str) -> Arg<'a> {
    Arg::new(alloc, "addresses")
        .value_name("ADDRESS")
        .required(true)
        .num_args(1..)
        .action(ArgAction::Append)
        .help(help)
}
