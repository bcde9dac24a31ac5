//! The processors of a dump.
ghost use Rattle.std.specs.Prelude.{◌≡◌};
ghost use Rattle.std.specs.List.{list_any};
ghost use Rattle.x86_64_dump.specs.Notes.{processors_of};
ghost use Rattle.x86_64_dump.specs.Opened.{opened};
ghost use Rattle.ptdump_engine.specs.Processors as specs;
ghost use Rattle.ptdump_engine.specs.Steps.{FindsAs};

use crate::failure::Failure;
use crate::request::Levels;
use crate::start::start_by_processor;
use ptdump_json::{Mode, Registers, Start};
use std::alloc::Global;
use x86_64_dump::{ByteSource, Dump, Note};

/// A processor, by its note.
#[derive(Clone, Copy)]
pub struct Processor {
    /// Its number, counted from 0 in the order of the notes.
    pub cpu: usize,
    /// Its mode of paging. It has tables only if that is 64-bit paging.
    pub mode: Mode,
    /// The start of its page walks, if it has tables.
    pub start: Start,
}

impl Processor {
    /// Returns a processor with some control registers. Levels that are given go before those that CR4 says.
    fn new(cpu: usize, registers: Registers, given: Option<Levels>) -> Processor
        ensures { result ≡ specs.processor_with given cpu registers }
    {
        Processor {
            cpu,
            mode: Mode::of(registers.cr0, registers.cr4),
            start: start_by_processor(given, registers),
        }
    }

    /// Returns true if it is in 64-bit paging, and so has tables that are read here.
    pub fn has_tables(&self) -> bool
        ensures { result ≡ specs.has_tables self.now }
    {
        matches!(self.mode, Mode::Paging64)
    }
}

/// Reads the notes of the processors, in order. A number of levels that is given goes before those that CR4 says.
///
/// # Errors
///
/// `Failure::Dump` if a note is too short, `Failure::OutOfMemory` if memory allocation fails, `Failure::Read` if the dump can't be
/// read.
pub fn read_processors<S: ByteSource>(
    alloc: Global,
    dump: &Dump<S>,
    given: Option<Levels>,
) -> Result<Vec<Processor>, Failure>
    ensures { S.IsKnown → FindsAs S.may_fail (λ processors. processors.items) result
        (specs.processors_from (opened S.bytes dump.now).file given 0
        (processors_of (opened S.bytes dump.now))) }
{
    let notes = dump.processors(alloc)?;
    read_notes(alloc, dump, &notes, given)
}

/// Reads notes of processors, in order.
fn read_notes<S: ByteSource>(
    alloc: Global,
    dump: &Dump<S>,
    notes: &[Note],
    given: Option<Levels>,
) -> Result<Vec<Processor>, Failure>
    ensures { S.IsKnown → FindsAs S.may_fail (λ processors. processors.items) result
        (specs.processors_from (opened S.bytes dump.now).file given 0 notes.now) }
{
    let mut processors = Vec::new(alloc);
    for (cpu, note) in notes.iter().enumerate() {
        let registers = Registers::read(dump, note)?;
        processors.push(Processor::new(cpu, registers, given))?;
    }
    Ok(processors)
}

/// Returns why none of some processors has tables, or `None` if one of them has.
pub fn modes_failure(processors: &[Processor]) -> Option<Failure>
    ensures { result ≡ specs.modes_failure processors.now }
{
    if have_tables(processors) {
        return None;
    }
    match processors.first() {
        Some(first) => Some(Failure::WrongMode {
            cpu: first.cpu as u64,
            mode: first.mode,
        }),
        None => Some(Failure::NoProcessors),
    }
}

/// Returns true if one of some processors has tables.
fn have_tables(processors: &[Processor]) -> bool
    ensures { result ≡ list_any specs.has_tables processors.now }
{
    processors.iter().any(|processor| processor.has_tables())
}
