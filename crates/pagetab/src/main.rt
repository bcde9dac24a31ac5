//! Runs the engine on the program's arguments, standard input and standard output.
#![tactic(auto)]

ghost use Rattle.std.specs.Prelude.{◌≡◌, map, string_bytes};
ghost use Rattle.std.specs.Process.{exit_status};
ghost use Rattle.pagetab.specs.Exit.{EndsRun, Reports};
ghost use Rattle.pagetab_engine.specs.Ending.{status_of};

use pagetab_engine::ending::{Ending, Fault};
use pagetab_engine::engine;
use std::io::ErrorKind;
use std::process::ExitCode;
use std::{env, io};

fn main(rt: HostRuntime) -> ExitCode {
    match arguments(&rt) {
        Ok(words) => run(&rt, words.as_slice()),
        Err(error) => report(&rt, Ending::Stopped(fault_of(&error))),
    }
}

/// Runs the engine on words, standard input and standard output, and reports how the run ended.
fn run(rt: &HostRuntime, words: &[String]) -> ExitCode
    ensures { EndsRun (map string_bytes words.now) result }
{
    let mut reader = rt.reader();
    let mut writer = io::writer(rt);
    let ending = engine::run(rt.alloc(), words, &mut reader, &mut writer);
    report(rt, ending)
}

/// Returns the words after the program's name.
fn arguments(rt: &HostRuntime) -> io::Result<Vec<String>> {
    let mut words = Vec::new(rt.alloc());
    for word in env::args(rt)?.skip(1) {
        words.push(word)?;
    }
    Ok(words)
}

/// Returns the fault if the arguments can't be listed: memory allocation failed, or one of them is no text.
fn fault_of(error: &io::Error) -> Fault {
    if error.kind() == ErrorKind::OutOfMemory {
        Fault::OutOfMemory
    } else {
        Fault::Usage
    }
}

/// Writes the text of a fault to standard error, and returns the exit code, which is that of a failed write if this
/// write fails.
fn report(rt: &impl Eprint, ending: Ending) -> ExitCode
    ensures { Reports ending result }
{
    let told = match ending {
        Ending::Done => Ok(()),
        Ending::Stopped(fault) => eprintln!(rt; "{fault}"),
    };
    match told {
        Ok(()) => exit_code(ending),
        Err(_) => exit_code(Ending::Stopped(Fault::Output)),
    }
}

/// Returns the exit code of an ending.
fn exit_code(ending: Ending) -> ExitCode
    ensures { exit_status result ≡ status_of ending }
{
    ExitCode::from(ending.status())
}
