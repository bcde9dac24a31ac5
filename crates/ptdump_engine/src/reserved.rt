//! Words with reserved bits. A processor faults at them.
ghost use Rattle.std.specs.Prelude.{◌≡◌, ◌-◌, ◌^◌, IfOk, OnOk, length, map, min};
ghost use Rattle.x86_64_dump.specs.Loaded.{frames_in, loaded_words};
ghost use Rattle.x86_64_model.specs.Memory.{identity_places, words_of};
ghost use Rattle.ptdump_check.specs.Findings.{flawed_entries, tables_from_level, HasBits};
ghost use Rattle.ptdump_check.specs.Loaded.{HasAllTables, words_loaded};
ghost use Rattle.ptdump_check.specs.ReservedEntries.{reserved_entries};
ghost use Rattle.ptdump_engine.specs.CheckReports.{said_of};
ghost use Rattle.ptdump_engine.specs.Output.{Puts};
ghost use Rattle.ptdump_engine.specs.Reserved as specs;

use crate::destination::Destination;
use crate::flawed_entries::{PROCESSOR, write_flawed_in};
use crate::line_count::LineCount;
use crate::line_output::LineOutput;
use crate::output::{Output, OutputError};
use crate::request::Command;
use ptdump_check::{EntryFlaw, Loaded, Table};
use std::alloc::AllocError;
use x86_64_addr::level_count::LevelCount;
use x86_64_dump::DumpTables;
use x86_64_page::frame::PhysFrame;
use x86_64_page::page::Size4KiB;
use x86_64_tables::phys_memory::PhysMemory;

/// Writes how many words have reserved bits, if there are any and the command lists what is mapped. The number is 2^64 - 1 if there
/// are more.
///
/// # Errors
///
/// `OutputError::OutOfMemory` if memory allocation fails, `OutputError::Write` if a write fails.
pub fn write_reserved<L: LevelCount, E: Destination>(
    command: &Command,
    loaded: &Loaded<'_, L>,
    notes: &mut Output<'_, E>,
) -> Result<(), OutputError<E>>
    ensures { HasAllTables L.LEVELS loaded.now → OnOk result (Puts E.contents notes.old notes.new
        (specs.reserved_note command.now L.LEVELS (words_loaded loaded.now) loaded.now.root)) }
{
    if lists_mappings(command) {
        let count = count_reserved(loaded.tables)?;
        return write_count(count, notes);
    }
    Ok(())
}

/// Returns true if a command lists what is mapped.
fn lists_mappings(command: &Command) -> bool
    ensures { result ≡ specs.lists_mappings command.now }
{
    matches!(command, Command::Regions(_) | Command::Pages { .. })
}

/// Writes the number of words with reserved bits, if there are any.
fn write_count<E: Destination>(count: u64, notes: &mut Output<'_, E>) -> Result<(), OutputError<E>>
    ensures { OnOk result (Puts E.contents notes.old notes.new (specs.reserved_line count)) }
{
    if count > 0 {
        writeln!(
            notes,
            "words with reserved bits, at which a processor faults: {count}"
        )?;
    }
    Ok(())
}

/// Returns the number of words with reserved bits in the tables, or 2^64 - 1 if there are more.
fn count_reserved(tables: &DumpTables) -> Result<u64, AllocError>
    ensures { IfOk result (λ count. count ≡ min (length (reserved_entries (loaded_words tables.now)
        (tables_from_level 1 (frames_in tables.now)))) (2 ^ 64 - 1)) }
{
    let mut count = LineCount::new();
    write_reserved_entries::<LineCount>(tables, &mut count)?;
    Ok(count.lines())
}

/// Writes a line for each word with reserved bits in the tables.
fn write_reserved_entries<O: LineOutput>(
    tables: &DumpTables,
    output: &mut O,
) -> Result<(), O::Error>
    ensures { OnOk result (O.Lines output.old output.new (map said_of
        (reserved_entries (loaded_words tables.now) (tables_from_level 1 (frames_in tables.now))))) }
{
    write_flawed_by_level::<O>(tables, EntryFlaw::HugePage, output)?;
    write_flawed_by_level::<O>(tables, EntryFlaw::ReservedBits(PROCESSOR), output)
}

/// Writes a line for each entry of the tables that has `PRESENT` and a flaw, level by level.
fn write_flawed_by_level<O: LineOutput>(
    tables: &DumpTables,
    flaw: EntryFlaw,
    output: &mut O,
) -> Result<(), O::Error>
    requires { HasBits flaw }
    ensures { OnOk result (O.Lines output.old output.new (map said_of
        (flawed_entries flaw (loaded_words tables.now) (tables_from_level 1 (frames_in tables.now))))) }
{
    let memory = tables.memory();
    let levels = tables.frames();
    let mut level = 0;
    for frames in levels {
        level += 1;
        write_flawed_at::<O>(memory, level, frames, flaw, output)?;
    }
    Ok(())
}

/// Writes a line for each entry of the tables of a level that has `PRESENT` and a flaw.
fn write_flawed_at<O: LineOutput>(
    memory: &PhysMemory,
    level: u64,
    frames: &[PhysFrame<Size4KiB>],
    flaw: EntryFlaw,
    output: &mut O,
) -> Result<(), O::Error>
    requires { HasBits flaw }
    ensures { OnOk result (O.Lines output.old output.new (map said_of
        (flawed_entries flaw (words_of memory.now identity_places)
        (map (λ frame. record { frame = frame; level = level }) frames.now)))) }
{
    for frame in frames {
        let table = Table {
            frame: *frame,
            level,
        };
        write_flawed_in::<O>(memory, &table, flaw, output)?;
    }
    Ok(())
}
