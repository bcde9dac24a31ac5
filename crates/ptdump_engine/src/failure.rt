//! Why runs fail.
ghost use Rattle.std.specs.Prelude.{◌≡◌};
ghost use Rattle.std.specs.Fmt.{WritesOnOk};
ghost use Rattle.ptdump_engine.specs.FailureTexts as texts;

use crate::destination::Destination;
use crate::output::OutputError;
use crate::request::Levels;
use ptdump_json::Mode;
use std::alloc::{AllocError, AllocFailed};
use std::error::Error;
use std::fmt::{Display, Formatter, Result as FmtResult, Write};
use std::io;
use x86_64_dump::{DumpError, Fault};

/// The reason why a run failed.
#[derive(Debug, Drop)]
pub enum Failure {
    /// Neither the request nor a note of the file has the CR3, and neither a note nor memory has VMCOREINFO.
    NoCr3,
    /// The request has no CR3, and the file is a core of VirtualBox.
    VirtualBox,
    /// The file has no note of the requested processor.
    NoProcessor {
        /// The processor.
        cpu: u64,
        /// The number of notes of processors.
        count: usize,
    },
    /// The roots of all processors are requested, and the file has no note of a processor.
    NoProcessors,
    /// The CR3 of a processor is needed that isn't in 64-bit paging.
    WrongMode {
        /// The processor.
        cpu: u64,
        /// Its mode.
        mode: Mode,
    },
    /// An address isn't canonical.
    NotCanonical {
        /// The address.
        address: u64,
        /// The number of levels of tables.
        levels: Levels,
    },
    /// A physical address is 2^52 or more.
    NotPhysical {
        /// The address.
        address: u64,
    },
    /// The first of the addresses to report on is above the last one.
    FromAboveTo {
        /// The first address.
        from: u64,
        /// The last address.
        to: u64,
    },
    /// The first address of the direct map is above its last one.
    DirectMapReversed {
        /// The first address.
        first: u64,
        /// The last address.
        last: u64,
    },
    /// The root's table isn't in the dump.
    NoRoot {
        /// The address of the root's frame.
        root: u64,
    },
    /// The file isn't a readable dump.
    Dump(Fault),
    /// A read of the file failed.
    Read(io::Error),
    /// Memory allocation failed.
    OutOfMemory,
    /// A write failed.
    Output,
}

impl Failure {
    ghost use Rattle.std.specs.Prelude.{is_some};
    ghost use Rattle.ptdump_engine.specs.Failure.{failure_status};
    ghost use Rattle.ptdump_engine.specs.FailureTexts.{failure_text};

    /// Returns the exit status: 2 for the request, 3 for the file, 4 for a failed memory allocation, 5 for a failed write.
    pub fn status(&self) -> u8
        ensures { result ≡ failure_status self.now }
    {
        match self {
            Failure::NoCr3
            | Failure::VirtualBox
            | Failure::NoProcessor { .. }
            | Failure::NoProcessors
            | Failure::WrongMode { .. }
            | Failure::NotCanonical { .. }
            | Failure::NotPhysical { .. }
            | Failure::FromAboveTo { .. }
            | Failure::DirectMapReversed { .. }
            | Failure::Dump(
                Fault::PlacementGiven
                | Fault::RangeEmpty { .. }
                | Fault::RangeOutside { .. }
                | Fault::RangeTooHigh { .. },
            ) => 2,
            Failure::NoRoot { .. } | Failure::Dump(_) | Failure::Read(_) => 3,
            Failure::OutOfMemory => 4,
            Failure::Output => 5,
        }
    }

    /// Returns true if it says why no root is found in a dump.
    pub fn is_of_start(&self) -> bool
        ensures { result ≡ is_some (failure_text self.now) }
    {
        matches!(
            self,
            Failure::NoCr3
                | Failure::VirtualBox
                | Failure::NoProcessor { .. }
                | Failure::NoProcessors
                | Failure::WrongMode { .. }
                | Failure::NoRoot { .. }
                | Failure::Dump(Fault::NoteCut { .. } | Fault::VmCoreInfo(_))
        )
    }
}

impl Display for Failure {
    ghost use Rattle.ptdump_engine.specs.FailureTexts.{failure_text};

    ghost output = { failure_text };

    fn fmt<W: Write>(&self, f: &mut Formatter<W>) -> FmtResult {
        match self {
            Failure::NoCr3 => f.write_str(
                "no CR3 and no VMCOREINFO in the file: give --cr3, 0x and the digits that QEMU's `info registers` prints; on Linux `ptdump info /proc/kcore` shows it",
            ),
            Failure::VirtualBox => f.write_str(
                "the file is a core of VirtualBox, of which no CR3 is read: give --cr3",
            ),
            Failure::NoProcessor { cpu, count } => write_no_processor(f, *cpu, *count),
            Failure::NoProcessors => f.write_str(
                "no notes of processors in the file, which --all-cpus needs: leave it out, and give --cr3 if it is needed",
            ),
            Failure::WrongMode { cpu, mode } => write_wrong_mode(f, *cpu, *mode),
            Failure::NotCanonical { address, levels } => write_not_canonical(f, *address, *levels),
            Failure::NotPhysical { address } => write!(
                f,
                "0x{address:x} is no physical address: give one below 0x10000000000000"
            ),
            Failure::FromAboveTo { from, to } => write!(
                f,
                "--from 0x{from:x} is above --to 0x{to:x}: give the lower address first"
            ),
            Failure::DirectMapReversed { first, last } => write!(
                f,
                "--direct-map 0x{first:x}:0x{last:x} ends before it begins: give the lower address first"
            ),
            Failure::NoRoot { root } => write!(
                f,
                "the root's table 0x{root:x} is not in the dump: give another --cr3, or --base or --range for a raw file"
            ),
            Failure::Dump(fault) => write!(f, "{fault}"),
            Failure::Read(error) => write!(f, "the file can't be read: {error}"),
            Failure::OutOfMemory => f.write_str("out of memory"),
            Failure::Output => f.write_str("the output can't be written"),
        }
    }
}

/// Writes that the file has no note of a processor.
#[tactic(auto, unfolding(crate::specs::FailureTexts::no_processor_text))]
fn write_no_processor<W: Write>(f: &mut Formatter<W>, cpu: u64, count: usize) -> FmtResult
    ensures { WritesOnOk W.write_str_gives f.old result (texts.no_processor_text cpu count) f.new }
{
    write!(f, "no note of processor {cpu} in the file")?;
    write!(
        f,
        ", which has {count}: give a smaller --cpu, or --cr3 and --levels"
    )
}

/// Writes that a processor isn't in 64-bit paging.
#[tactic(auto, unfolding(crate::specs::FailureTexts::wrong_mode_text))]
fn write_wrong_mode<W: Write>(f: &mut Formatter<W>, cpu: u64, mode: Mode) -> FmtResult
    ensures { WritesOnOk W.write_str_gives f.old result (texts.wrong_mode_text cpu mode) f.new }
{
    write!(f, "processor {cpu} {mode}")?;
    f.write_str(": give another --cpu, or --cr3 and --levels to go on")
}

/// Writes that an address isn't canonical.
fn write_not_canonical<W: Write>(f: &mut Formatter<W>, address: u64, levels: Levels) -> FmtResult {
    let (number, highest) = match levels {
        Levels::Four => (4, 47),
        Levels::Five => (5, 56),
    };
    write!(
        f,
        "0x{address:x} is not canonical with {number} levels of tables: give an address whose bits above bit {highest} equal it"
    )
}

impl Error for Failure {}

impl From<AllocError> for Failure {
    ghost use Rattle.ptdump_engine.specs.declared.failure.Failure.TheVariants.{OutOfMemory};

    ghost from_gives = { λ _ failure. failure ≡ OutOfMemory };

    fn from(_error: AllocError) -> Failure {
        Failure::OutOfMemory
    }
}

impl<T: Drop> From<AllocFailed<T>> for Failure {
    ghost use Rattle.ptdump_engine.specs.declared.failure.Failure.TheVariants.{OutOfMemory};

    ghost from_gives = { λ _ failure. failure ≡ OutOfMemory };

    fn from(_error: AllocFailed<T>) -> Failure {
        Failure::OutOfMemory
    }
}

impl<W: Destination> From<OutputError<W>> for Failure {
    ghost use Rattle.std.specs.Prelude.{◌≡◌, false};
    ghost use Rattle.ptdump_engine.specs.Output.{output_failure};
    ghost use Rattle.ptdump_engine.specs.Steps.{MayBeForced};

    ghost from_gives = { λ error failure.
        MayBeForced false W.may_refuse failure × (failure ≡ output_failure error) };

    fn from(error: OutputError<W>) -> Failure {
        match error {
            OutputError::OutOfMemory => Failure::OutOfMemory,
            OutputError::Write(refusal) => refusal.failure(),
        }
    }
}

impl From<DumpError> for Failure {
    ghost use Rattle.ptdump_engine.specs.Failure.{failure_of};

    ghost from_gives = { λ error failure. failure ≡ failure_of error };

    fn from(error: DumpError) -> Failure {
        match error {
            DumpError::OutOfMemory => Failure::OutOfMemory,
            DumpError::Read(cause) => Failure::Read(cause),
            DumpError::Fault(fault) => Failure::Dump(fault),
        }
    }
}
