//! Prints what the page tables in a dump of physical memory map.
#![tactic(auto)]

ghost use Rattle.std.specs.Prelude.{◌≡◌, ◌⊎◌, if◌then◌else◌, [], IfErr, IfOk, Ok, codes, is_ok, unwrap_or};
ghost use Rattle.std.specs.Process.{exit_status};
ghost use Rattle.std.specs.IoError.{error_kind};
ghost use Rattle.clap.specs.Matches.{first_value, found_of};
ghost use Rattle.ptdump.specs.Exit.{exit_status_of, stop_status};
ghost use Rattle.ptdump.specs.declared.stop.Stop.TheVariants.{Failed, NoText};
ghost use Rattle.ptdump_engine.specs.Failure.{failure_status};
ghost use Rattle.ptdump_engine.specs.declared.failure.Failure.TheVariants.{OutOfMemory, Output};

mod asked;
mod columns;
mod command_line;
mod direct_map;
mod flags;
mod help;
mod numbers;
mod options;
mod placement;
mod progress;
mod request;
mod selection;
mod standard_output;
mod stop;

use clap::ArgMatches;
use command_line::command_line;
use progress::ProgressLine;
use ptdump_engine::{Failure, Outcome, Request};
use request::request_of;
use standard_output::StandardOutput;
use std::fs::File;
use std::io::{ErrorKind, IsTerminal};
use std::process::ExitCode;
use std::{env, io};
use stop::Stop;
use x86_64_dump::FileSource;

fn main(rt: HostRuntime) -> ExitCode {
    match words(&rt) {
        Ok(words) => report(&rt, run(&rt, words.as_slice())),
        Err(error) => report(&rt, Err(stop_of(&error))),
    }
}

/// Lists the words of the command line, including the program's name.
fn words(rt: &HostRuntime) -> io::Result<Vec<String>> {
    Ok(env::args(rt)?.collect(rt.alloc())?)
}

/// Returns why the words can't be listed: memory allocation failed, or one of them isn't text.
fn stop_of(error: &io::Error) -> Stop<'static>
    ensures memory { error_kind error.now ≡ ErrorKind.OutOfMemory → result ≡ Failed OutOfMemory }
    ensures text { ¬ (error_kind error.now ≡ ErrorKind.OutOfMemory) → result ≡ NoText }
{
    if error.kind() == ErrorKind::OutOfMemory {
        Stop::Failed(Failure::OutOfMemory)
    } else {
        Stop::NoText
    }
}

/// Parses the words of a command line, and runs the command.
fn run<'a>(rt: &HostRuntime, words: &'a [String]) -> Result<Outcome, Stop<'a>> {
    let command = command_line(rt.alloc())?;
    let matches = command.try_get_matches_from(words)?;
    match matches.subcommand() {
        Some((name, arguments)) => {
            let is_terminal = rt.stdout().is_terminal();
            let request = request_of(rt.alloc(), name, arguments, is_terminal)?;
            report_on(rt, path_of(arguments), request)
        }
        None => Err(Stop::NoCommand("")),
    }
}

/// Returns the path of the dump, which the command line requires.
fn path_of<'a>(arguments: &ArgMatches<'a>) -> &'a str
    ensures { result.now ≡ unwrap_or (first_value (found_of arguments.now) (codes "file")) [] }
{
    arguments.get_str("file").unwrap_or("")
}

/// Reports on a dump.
fn report_on<'a>(rt: &HostRuntime, path: &'a str, request: Request) -> Result<Outcome, Stop<'a>> {
    let source = open(rt, path)?;
    let mut progress = ProgressLine::new(rt, rt.stderr().is_terminal());
    let mut output = StandardOutput::new(rt.stdout());
    let mut errors = rt.stderr();
    let ended = ptdump_engine::run(
        rt.alloc(),
        source,
        request,
        &mut output,
        &mut errors,
        &mut progress,
    );
    let has_reader_left = output.has_reader_left();
    ended.map_err(|failure| Stop::of_run(path, failure, has_reader_left))
}

/// Opens a dump, which is standard input if the path is `-`.
fn open<'a>(rt: &HostRuntime, path: &'a str) -> Result<FileSource, Stop<'a>>
    ensures { IfErr result (λ stop. stop_status stop ≡ 3) }
{
    let name = if path == "-" { "/dev/stdin" } else { path };
    let file = match File::open(rt, name) {
        Ok(file) => file,
        Err(error) => return Err(Stop::Unopened { path, error }),
    };
    FileSource::new(file).map_err(|error| Stop::NoLength { path, error })
}

/// Prints the reason if a run stopped early, and returns the exit code. If printing fails, the exit code is that of a failed
/// write.
fn report(rt: &(impl Print + Eprint), ended: Result<Outcome, Stop<'_>>) -> ExitCode
    ensures done { IfOk ended.entry (λ outcome. exit_status result ≡ exit_status_of (Ok outcome)) }
    ensures stopped { (exit_status result ≡ exit_status_of ended.entry)
        ⊎ (exit_status result ≡ failure_status Output) }
{
    let told = match &ended {
        Ok(_) => Ok(()),
        Err(stop) => stop.tell(rt),
    };
    code_after(&ended, &told)
}

/// Returns the exit code for the end of a run, or that of a failed write if the reason wasn't printed.
fn code_after(ended: &Result<Outcome, Stop<'_>>, told: &io::Result<()>) -> ExitCode
    ensures { exit_status result ≡ (if is_ok told.now then exit_status_of ended.now
        else failure_status Output) }
{
    match told {
        Ok(()) => exit_code(ended),
        Err(_) => ExitCode::from(Failure::Output.status()),
    }
}

/// Returns the exit code for the end of a run.
fn exit_code(ended: &Result<Outcome, Stop<'_>>) -> ExitCode
    ensures { exit_status result ≡ exit_status_of ended.now }
{
    match ended {
        Ok(outcome) if outcome.is_complete => ExitCode::SUCCESS,
        Ok(_) => ExitCode::FAILURE,
        Err(stop) => ExitCode::from(stop.status()),
    }
}
