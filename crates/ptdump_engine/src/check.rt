//! The report of a check.
ghost use Rattle.std.specs.Prelude.{◌≡◌, ◌≤◌, OnOk, IfOk};
ghost use Rattle.std.specs.List.{flat_map};
ghost use Rattle.ptdump_check.specs.Ascending.{Ascend};
ghost use Rattle.ptdump_check.specs.Findings as findings;
ghost use Rattle.ptdump_check.specs.Loaded.{HasAllTables, IsLoadedDump, words_loaded};
ghost use Rattle.ptdump_engine.specs.CheckReports as reports;
ghost use Rattle.ptdump_engine.specs.Output.{Puts};
ghost use Rattle.ptdump_engine.specs.Said.{line_of};
ghost use Rattle.ptdump_engine.specs.private.Checked.{finding_lines_by};

mod aliases;
mod regions;
mod subject;
mod tables;

use crate::check::aliases::write_aliases;
use crate::check::regions::write_flawed;
use crate::check::subject::Subject;
use crate::check::tables::write_table_findings;
use crate::counted_lines::CountedLines;
use crate::destination::Destination;
use crate::flawed_entries::PROCESSOR;
use crate::line_output::LineOutput;
use crate::output::{Output, OutputError};
use crate::request::{Checking, Form};
use ptdump_check::{FindingCount, Flaw, Loaded, mapped_tables, names_in_order, tables_in_order};
use ptdump_json::{Lines, write_as};
use std::alloc::Global;
use x86_64_access::Controls;
use x86_64_addr::level_count::LevelCount;

/// Writes a line in a form for each finding and a line with their number, and returns true if there is none. The number is
/// 2^64 - 1 if there are more.
///
/// # Errors
///
/// `OutputError::OutOfMemory` if memory allocation fails, `OutputError::Write` if a write fails.
pub fn write_findings<L: LevelCount, W: Destination>(
    alloc: Global,
    loaded: &Loaded<'_, L>,
    checking: Checking,
    form: Form,
    output: &mut Output<'_, W>,
) -> Result<bool, OutputError<W>>
    requires { IsLoadedDump loaded.now }
    ensures text { HasAllTables L.LEVELS loaded.now → OnOk result (Puts W.contents output.old output.new
        (reports.check_text form checking L.LEVELS (words_loaded loaded.now) loaded.now.root)) }
    ensures nothing { HasAllTables L.LEVELS loaded.now → IfOk result (λ nothing.
        nothing ≡ reports.finds_nothing checking L.LEVELS (words_loaded loaded.now) loaded.now.root) }
{
    let memory = loaded.tables.memory();
    let tables = tables_in_order(alloc, loaded.tables.frames())?;
    let names = names_in_order(alloc, memory, &tables)?;
    let reached = mapped_tables::<L>(alloc, memory, loaded.root, checking.direct_map, &tables)?;
    let subject = Subject {
        memory,
        selection: checking.selection,
        aliases: checking.aliases,
        processor: processor_of(&checking),
        root: loaded.root,
        tables: &tables,
        names: &names,
        reached: &reached,
    };
    let count = write_counted::<L, Output<'_, W>>(alloc, loaded, &subject, form, output)?;
    write_as(alloc, form, FindingCount(count), output)?;
    Ok(count == 0)
}

/// Returns the processor whose reserved bits a check looks for.
fn processor_of(checking: &Checking) -> Controls
    ensures { result ≡ findings.processor_of checking.now }
{
    Controls {
        physical_bits: checking.physical_bits.min(PROCESSOR.physical_bits),
        ..PROCESSOR
    }
}

/// Writes a line in a form for each finding, and returns their number, or 2^64 - 1 if there are more.
fn write_counted<L: LevelCount, O: Lines>(
    alloc: Global,
    loaded: &Loaded<'_, L>,
    subject: &Subject<'_>,
    form: Form,
    output: &mut O,
) -> Result<u64, O::Error>
    requires loaded { IsLoadedDump loaded.now }
    requires bits { subject.now.processor.physical_bits ≤ 52 }
    requires names { Ascend (λ name. name.frame) subject.now.names.now }
    ensures lines { OnOk result (O.puts output.old output.new
        (flat_map (line_of form) (finding_lines_by L.LEVELS loaded.now subject.now))) }
    ensures count { IfOk result (λ count. count
        ≡ reports.line_count (finding_lines_by L.LEVELS loaded.now subject.now)) }
{
    let mut lines = CountedLines::new(alloc, form, output);
    write_lines::<L, CountedLines<'_, O>>(alloc, loaded, subject, &mut lines)?;
    Ok(lines.count())
}

/// Writes a line for each finding.
fn write_lines<L: LevelCount, O: LineOutput>(
    alloc: Global,
    loaded: &Loaded<'_, L>,
    subject: &Subject<'_>,
    output: &mut O,
) -> Result<(), O::Error>
    requires loaded { IsLoadedDump loaded.now }
    requires bits { subject.now.processor.physical_bits ≤ 52 }
    requires names { Ascend (λ name. name.frame) subject.now.names.now }
    ensures { OnOk result (O.Lines output.old output.new
        (finding_lines_by L.LEVELS loaded.now subject.now)) }
{
    let selection = &subject.selection;
    write_flawed::<L, O>(loaded, selection, Flaw::WritableAndExecutable, output)?;
    write_flawed::<L, O>(loaded, selection, Flaw::UserInUpperHalf, output)?;
    write_table_findings::<O>(subject, output)?;
    write_aliases::<L, O>(alloc, loaded, subject, output)
}
