//! Requests from the words of a command line.
ghost use Rattle.std.specs.Prelude.{Option, IfOk, IfErr, codes};
ghost use Rattle.clap.specs.Matches.{first_value, found_of, one_text};
ghost use Rattle.ptdump.specs.Options.{IsFlag};
ghost use Rattle.ptdump.specs.Reasons.{IsMistake, IsStopReason, IsReasonFor};
ghost use Rattle.ptdump.specs.Requests.{AreNamed, TextsAreNumbers, IsCommand, IsLevels, IsRequest, IsUnreadArgument, is_json, values};
ghost use Rattle.x86_64_addr.specs.declared.level_count.Levels.{Levels};

use crate::asked::{bits_of, options_of};
use crate::columns::columns_of;
use crate::direct_map::direct_map_of;
use crate::flags::is_given;
use crate::numbers::{NumberOption, numbers_of, option_of};
use crate::placement::placement_of;
use crate::selection::selection_of;
use crate::stop::Stop;
use clap::ArgMatches;
use ptdump_engine::{AreaNames, Checking, Command, Form, Levels, Request};
use std::alloc::Global;

/// Returns the request for a command and its arguments, with standard output a terminal or not.
///
/// # Errors
///
/// `Failure::OutOfMemory` if memory allocation fails, otherwise what is wrong with the words.
pub fn request_of<'a>(
    alloc: Global,
    name: &'a str,
    arguments: &ArgMatches<'a>,
    is_terminal: bool,
) -> Result<Request, Stop<'a>>
    ensures ok { IfOk result (IsRequest is_terminal name.now (found_of arguments.now)) }
    ensures err { IfErr result (IsUnreadArgument (IsRequest is_terminal name.now (found_of arguments.now))) }
    ensures reason { IfErr result (IsReasonFor name.now (found_of arguments.now)) }
{
    Ok(Request {
        command: command_of(alloc, name, arguments)?,
        form: form_of(arguments),
        columns: columns_of(arguments, is_terminal),
        areas: areas_of(arguments),
        cr3: option_of(arguments, NumberOption::Cr3)?,
        vmcoreinfo: option_of(arguments, NumberOption::VmCoreInfo)?,
        levels: levels_of(arguments)?,
        placement: placement_of(alloc, arguments)?,
        is_raw: is_given(arguments, "raw"),
        cpu: option_of(arguments, NumberOption::Cpu)?,
        all_cpus: is_given(arguments, "all-cpus"),
    })
}

/// Returns the form that the arguments ask for.
fn form_of(arguments: &ArgMatches<'_>) -> Form
    ensures { IsFlag (one_text (found_of arguments.now) (codes "json")) (is_json result) }
{
    if is_given(arguments, "json") {
        Form::Json
    } else {
        Form::Text
    }
}

/// Returns whether lines name areas by the arguments.
fn areas_of(arguments: &ArgMatches<'_>) -> AreaNames
    ensures { AreNamed (one_text (found_of arguments.now) (codes "linux")) result }
{
    if is_given(arguments, "linux") {
        AreaNames::Always
    } else {
        AreaNames::OfKernel
    }
}

/// Returns the command with a name and its arguments.
fn command_of<'a>(
    alloc: Global,
    name: &'a str,
    arguments: &ArgMatches<'a>,
) -> Result<Command, Stop<'a>>
    ensures ok { IfOk result (IsCommand name.now (found_of arguments.now)) }
    ensures err { IfErr result (IsUnreadArgument (IsCommand name.now (found_of arguments.now))) }
    ensures reason { IfErr result (IsReasonFor name.now (found_of arguments.now)) }
{
    if name == "regions" {
        regions_of(arguments)
    } else if name == "pages" {
        pages_of(arguments)
    } else if name == "walk" {
        walk_of(alloc, arguments)
    } else if name == "find" {
        search_of(alloc, arguments)
    } else if name == "check" {
        check_of(alloc, arguments)
    } else if name == "image" {
        Ok(Command::Image)
    } else if name == "picture" {
        Ok(Command::Picture)
    } else if name == "info" {
        Ok(Command::Info)
    } else {
        Err(Stop::NoCommand(name))
    }
}

/// Returns the list of regions that the arguments describe.
fn regions_of<'a>(arguments: &ArgMatches<'a>) -> Result<Command, Stop<'a>>
    ensures ok { IfOk result (IsCommand (codes "regions") (found_of arguments.now)) }
    ensures err { IfErr result (IsUnreadArgument (IsCommand (codes "regions") (found_of arguments.now))) }
    ensures reason { IfErr result (IsMistake (found_of arguments.now)) }
{
    Ok(Command::Regions(selection_of(arguments)?))
}

/// Returns the list of mappings that the arguments describe.
fn pages_of<'a>(arguments: &ArgMatches<'a>) -> Result<Command, Stop<'a>>
    ensures ok { IfOk result (IsCommand (codes "pages") (found_of arguments.now)) }
    ensures err { IfErr result (IsUnreadArgument (IsCommand (codes "pages") (found_of arguments.now))) }
    ensures reason { IfErr result (IsMistake (found_of arguments.now)) }
{
    Ok(Command::Pages {
        selection: selection_of(arguments)?,
        has_names: is_given(arguments, "names"),
    })
}

/// Returns the walk that the arguments describe.
#[tactic(auto, using(crate::proofs::Reasons::of_mistake))]
fn walk_of<'a>(alloc: Global, arguments: &ArgMatches<'a>) -> Result<Command, Stop<'a>>
    ensures ok { IfOk result (IsCommand (codes "walk") (found_of arguments.now)) }
    ensures err { IfErr result (IsUnreadArgument (IsCommand (codes "walk") (found_of arguments.now))) }
    ensures reason { IfErr result (IsStopReason (found_of arguments.now)) }
{
    let addresses = addresses_of(alloc, arguments)?;
    let options = options_of(arguments)?;
    Ok(Command::Walk { addresses, options })
}

/// Returns the search that the arguments describe.
fn search_of<'a>(alloc: Global, arguments: &ArgMatches<'a>) -> Result<Command, Stop<'a>>
    ensures ok { IfOk result (IsCommand (codes "find") (found_of arguments.now)) }
    ensures err { IfErr result (IsUnreadArgument (IsCommand (codes "find") (found_of arguments.now))) }
    ensures reason { IfErr result (IsStopReason (found_of arguments.now)) }
{
    Ok(Command::Find(addresses_of(alloc, arguments)?))
}

/// Returns the check that the arguments describe.
#[tactic(auto, using(crate::proofs::Reasons::of_mistake))]
fn check_of<'a>(alloc: Global, arguments: &ArgMatches<'a>) -> Result<Command, Stop<'a>>
    ensures ok { IfOk result (IsCommand (codes "check") (found_of arguments.now)) }
    ensures err { IfErr result (IsUnreadArgument (IsCommand (codes "check") (found_of arguments.now))) }
    ensures reason { IfErr result (IsStopReason (found_of arguments.now)) }
{
    let physical_bits = bits_of(arguments)?;
    let direct_map = direct_map_of(alloc, arguments)?;
    let selection = selection_of(arguments)?;
    Ok(Command::Check(Checking {
        physical_bits,
        direct_map,
        selection,
        aliases: is_given(arguments, "aliases"),
    }))
}

/// Reads the addresses of a command.
fn addresses_of<'a>(alloc: Global, arguments: &ArgMatches<'a>) -> Result<Vec<u64>, Stop<'a>>
    ensures ok { IfOk result (λ numbers.
        TextsAreNumbers (values (found_of arguments.now) (codes "addresses")) numbers.items) }
    ensures err { IfErr result
        (IsUnreadArgument (TextsAreNumbers (values (found_of arguments.now) (codes "addresses")))) }
    ensures reason { IfErr result (IsStopReason (found_of arguments.now)) }
{
    numbers_of(alloc, arguments.get_strs("addresses").unwrap_or(&[]))
}

/// Reads the number of levels, if it is given.
fn levels_of<'a>(arguments: &ArgMatches<'a>) -> Result<Option<Levels>, Stop<'a>>
    ensures ok { IfOk result (IsLevels (first_value (found_of arguments.now) (codes "levels"))) }
    ensures err { IfErr result (λ _. (levels : Option Levels) →
        ¬ (IsLevels (first_value (found_of arguments.now) (codes "levels")) levels)) }
    ensures reason { IfErr result (IsMistake (found_of arguments.now)) }
{
    match option_of(arguments, NumberOption::Levels)? {
        None => Ok(None),
        Some(4) => Ok(Some(Levels::Four)),
        Some(5) => Ok(Some(Levels::Five)),
        Some(levels) => Err(Stop::NoLevels(levels)),
    }
}
