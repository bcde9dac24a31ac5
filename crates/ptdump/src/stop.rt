//! Why the program ends without the requested report.
ghost use Rattle.std.specs.Prelude.{◌≡◌};
ghost use Rattle.ptdump.specs.Exit.{stop_of_output, stop_of_run, stop_status};

use crate::numbers::{NumberOption, has_zero_in_front};
use clap::error::ErrorKind;
use ptdump_engine::Failure;
use std::alloc::{AllocError, AllocFailed};
use std::fmt::{Display, Formatter, Result as FmtResult, Write};
use std::io;

/// Why a text is no number, and how numbers are written.
const NO_NUMBER: &str =
    "is no number below 2^64: write decimal digits, or hexadecimal ones after 0x";

/// Likewise for digits behind a zero.
const ZERO_IN_FRONT: &str =
    "begins with 0: write 0x before hexadecimal digits, and no 0 before decimal ones";

/// The reason why the program ends without the requested report.
#[derive(Drop)]
pub enum Stop<'a> {
    /// Help or the version was requested.
    Help(clap::Error),
    /// The words aren't a command line that the program accepts.
    Usage(clap::Error),
    /// A word of the command line isn't text.
    NoText,
    /// There is no command with this name.
    NoCommand(&'a str),
    /// An address isn't a number.
    NoAddress(&'a str),
    /// The value of an option isn't a number.
    NoNumber {
        /// The option.
        option: NumberOption,
        /// Its value.
        text: &'a str,
    },
    /// There are no page tables with this number of levels.
    NoLevels(u64),
    /// The value of `--range` isn't a range.
    NoRange(&'a str),
    /// Both a base and ranges are given.
    BaseAndRanges,
    /// There is no access with this name.
    NoAccess(&'a str),
    /// A processor has no setting with this name.
    NoSetting(&'a str),
    /// No processor has this number of bits of physical addresses.
    NoPhysicalBits(u64),
    /// The value of `--direct-map` isn't two addresses.
    NoDirectMap(&'a str),
    /// The text isn't one of letters of rights, each once.
    NoRights(&'a str),
    /// The file can't be opened.
    Unopened {
        /// The path of the file.
        path: &'a str,
        /// The error of opening it.
        error: io::Error,
    },
    /// The length of the file can't be found.
    NoLength {
        /// The path of the file.
        path: &'a str,
        /// The error of finding its end.
        error: io::Error,
    },
    /// A read of the file failed.
    Unread {
        /// The path of the file.
        path: &'a str,
        /// The error of the read.
        error: io::Error,
    },
    /// A write failed, since the reader of standard output has left. No reason is told for that.
    ReaderLeft,
    /// The run failed for another reason, or memory allocation failed before it.
    Failed(Failure),
}

impl<'a> Stop<'a> {
    /// Returns the reason for which a run on the file at a path failed. A failed read is one of this file. A failed write needn't be
    /// told if the reader of standard output has left.
    pub fn of_run(path: &'a str, failure: Failure, has_reader_left: bool) -> Stop<'a>
        ensures { result ≡ stop_of_run path.entry has_reader_left failure }
    {
        match failure {
            Failure::Read(error) => Stop::Unread { path, error },
            Failure::Output => Stop::of_output(has_reader_left),
            failure => Stop::Failed(failure),
        }
    }

    /// Returns the reason if a write failed.
    fn of_output(has_reader_left: bool) -> Stop<'a>
        ensures { result ≡ stop_of_output has_reader_left }
    {
        if has_reader_left {
            Stop::ReaderLeft
        } else {
            Stop::Failed(Failure::Output)
        }
    }

    /// Returns the exit status: 0 for help, 2 for the command line, 3 for the file, 4 for a failed memory allocation, 5 for a
    /// failed write.
    pub fn status(&self) -> u8
        ensures { result ≡ stop_status self.now }
    {
        match self {
            Stop::Help(_) => 0,
            Stop::Usage(_)
            | Stop::NoText
            | Stop::NoCommand(_)
            | Stop::NoAddress(_)
            | Stop::NoNumber { .. }
            | Stop::NoLevels(_)
            | Stop::NoRange(_)
            | Stop::BaseAndRanges
            | Stop::NoAccess(_)
            | Stop::NoSetting(_)
            | Stop::NoPhysicalBits(_)
            | Stop::NoDirectMap(_)
            | Stop::NoRights(_) => 2,
            Stop::Unopened { .. } | Stop::NoLength { .. } | Stop::Unread { .. } => 3,
            Stop::ReaderLeft => Failure::Output.status(),
            Stop::Failed(failure) => failure.status(),
        }
    }

    /// Prints the reason: help and the version on standard output, everything else on standard error, and nothing if a reader has left.
    ///
    /// # Errors
    ///
    /// An error if it can't be written.
    pub fn tell(&self, rt: &(impl Print + Eprint)) -> io::Result<()> {
        match self {
            Stop::Help(text) | Stop::Usage(text) => text.print(rt),
            Stop::ReaderLeft => Ok(()),
            _ => eprintln!(rt; "error: {self}"),
        }
    }
}

impl Display for Stop<'_> {
    fn fmt<W: Write>(&self, f: &mut Formatter<W>) -> FmtResult {
        match self {
            Stop::Help(text) | Stop::Usage(text) => write!(f, "{text}"),
            Stop::NoText => f.write_str("a word of the command line is no text: write it in UTF-8"),
            Stop::NoCommand(name) => write!(
                f,
                "{name} is no command: `ptdump --help` lists those that are"
            ),
            Stop::NoAddress(text) => {
                let reason = number_reason(text);
                write!(f, "address {text} {reason}")
            }
            Stop::NoNumber { option, text } => {
                let name = option.name();
                let reason = number_reason(text);
                write!(f, "--{name} {text} {reason}")
            }
            Stop::Unopened { .. } | Stop::NoLength { .. } | Stop::Unread { .. } => {
                self.write_file_reason(f)
            }
            Stop::ReaderLeft => f.write_str("the reader of the output has left"),
            Stop::Failed(failure) => write!(f, "{failure}"),
            _ => self.write_option_reason(f),
        }
    }
}

impl Stop<'_> {
    /// Writes which file can't be read, and why. Writes nothing for other reasons.
    fn write_file_reason<W: Write>(&self, f: &mut Formatter<W>) -> FmtResult {
        match self {
            Stop::Unopened { path, error } => write!(f, "{path} can't be opened: {error}"),
            Stop::NoLength { path, error } => write!(
                f,
                "the end of {path} can't be seeked, as that of a pipe: write it into a file first ({error})"
            ),
            Stop::Unread { path, error } => write!(f, "{path} can't be read: {error}"),
            _ => Ok(()),
        }
    }

    /// Writes which option's value can't be taken. Writes nothing for other reasons.
    fn write_option_reason<W: Write>(&self, f: &mut Formatter<W>) -> FmtResult {
        match self {
            Stop::NoLevels(levels) => write!(
                f,
                "--levels {levels}: give 4 or 5, which page tables have"
            ),
            Stop::NoRange(text) => {
                let zeros = zeros_told(text);
                write!(
                    f,
                    "--range {text} is no range: give OFFSET:ADDRESS:SIZE, three numbers below 2^64 with colons between, decimal or hexadecimal after 0x{zeros}"
                )
            }
            Stop::BaseAndRanges => f.write_str(
                "--base and --range both say where the file's bytes lie: give one of them",
            ),
            Stop::NoAccess(name) => write!(
                f,
                "--as {name}: give user or supervisor, and then -read, -write or -fetch, as in user-write"
            ),
            Stop::NoSetting(word) => write!(
                f,
                "'{word}' is no setting for --controls: list those of wp,nxe,smep,smap,ac that are on, or give none"
            ),
            Stop::NoPhysicalBits(bits) => write!(
                f,
                "--maxphyaddr {bits}: give a number from 32 to 52"
            ),
            Stop::NoDirectMap(text) => {
                let zeros = zeros_told(text);
                write!(
                    f,
                    "--direct-map {text} is no range: give FIRST:LAST, two addresses with a colon between, decimal or hexadecimal after 0x{zeros}"
                )
            }
            Stop::NoRights(text) => write!(
                f,
                "--rights {text}: give one or more of the letters r, w, x and u, each once, as in wx"
            ),
            _ => Ok(()),
        }
    }
}

/// Returns why a text is no number, and how numbers are written.
fn number_reason(text: &str) -> &'static str {
    if has_zero_in_front(text) {
        ZERO_IN_FRONT
    } else {
        NO_NUMBER
    }
}

/// Returns how decimal numbers are written, if one between the colons of a text has a zero in front, or else nothing.
fn zeros_told(text: &str) -> &'static str {
    if text.split(':').any(|part| has_zero_in_front(part)) {
        ", and no 0 before decimal digits"
    } else {
        ""
    }
}

impl From<AllocError> for Stop<'_> {
    ghost use Rattle.ptdump_engine.specs.declared.failure.Failure.TheVariants.{OutOfMemory};
    ghost use Rattle.ptdump.specs.declared.stop.Stop.TheVariants.{Failed};

    ghost from_gives = { λ _ stop. stop ≡ Failed OutOfMemory };

    fn from(_error: AllocError) -> Self {
        Stop::Failed(Failure::OutOfMemory)
    }
}

impl<T: Drop> From<AllocFailed<T>> for Stop<'_> {
    ghost use Rattle.ptdump_engine.specs.declared.failure.Failure.TheVariants.{OutOfMemory};
    ghost use Rattle.ptdump.specs.declared.stop.Stop.TheVariants.{Failed};

    ghost from_gives = { λ _ stop. stop ≡ Failed OutOfMemory };

    fn from(_error: AllocFailed<T>) -> Self {
        Stop::Failed(Failure::OutOfMemory)
    }
}

impl From<clap::Error> for Stop<'_> {
    ghost use Rattle.clap.specs.Values.{kind_of};
    ghost use Rattle.ptdump.specs.Exit.{stop_for};

    ghost from_gives = { λ error stop. stop ≡ stop_for (kind_of error) error };

    fn from(error: clap::Error) -> Self {
        match error.kind() {
            ErrorKind::OutOfMemory => Stop::Failed(Failure::OutOfMemory),
            ErrorKind::DisplayHelp | ErrorKind::DisplayVersion => Stop::Help(error),
            _ => Stop::Usage(error),
        }
    }
}
