//! Findings in tables.
ghost use Rattle.std.specs.Prelude.{◌≡◌, ◌≤◌, ◌++◌, OnOk, map, length};
ghost use Rattle.std.specs.List.{filter_map};
ghost use Rattle.x86_64_model.specs.Memory.{identity_places, words_of};
ghost use Rattle.ptdump_check.specs.Ascending.{Ascend};
ghost use Rattle.ptdump_check.specs.Findings as findings;
ghost use Rattle.ptdump_engine.specs.CheckReports.{said_of};
ghost use Rattle.ptdump_engine.specs.private.Alike.{alike};

use crate::check::subject::Subject;
use crate::flawed_entries::{write_finding, write_flawed_entries};
use crate::line_output::LineOutput;
use ptdump_check::{EntryFlaw, Finding, Name};
use x86_64_page::frame::PhysFrame;
use x86_64_page::page::Size4KiB;
use x86_64_tables::phys_memory::PhysMemory;

/// Writes a line for each finding in the tables.
pub fn write_table_findings<O: LineOutput>(
    subject: &Subject<'_>,
    output: &mut O,
) -> Result<(), O::Error>
    requires bits { subject.now.processor.physical_bits ≤ 52 }
    requires names { Ascend (λ name. name.frame) subject.now.names.now }
    ensures { OnOk result (O.Lines output.old output.new (map said_of
        (findings.findings_by subject.now.processor (words_of subject.now.memory.now identity_places)
        subject.now.root subject.now.tables.now subject.now.names.now ++ subject.now.reached.now))) }
{
    write_named_often::<O>(subject.names, subject.root, output)?;
    write_missing::<O>(subject.memory, subject.names, output)?;
    let reserved = EntryFlaw::ReservedBits(subject.processor);
    write_flawed_entries::<O>(subject.memory, subject.tables, EntryFlaw::HugePage, output)?;
    write_flawed_entries::<O>(subject.memory, subject.tables, reserved, output)?;
    write_each::<O>(subject.reached, output)
}

/// Writes a line for each of some findings.
fn write_each<O: LineOutput>(findings: &[Finding], output: &mut O) -> Result<(), O::Error>
    ensures { OnOk result (O.Lines output.old output.new (map said_of findings.now)) }
{
    for finding in findings {
        output.write_line(*finding)?;
    }
    Ok(())
}

/// Writes a line for each frame that is named more than once, as which the root counts once more.
fn write_named_often<O: LineOutput>(
    names: &[Name],
    root: PhysFrame<Size4KiB>,
    output: &mut O,
) -> Result<(), O::Error>
    requires { Ascend (λ name. name.frame) names.now }
    ensures { OnOk result (O.Lines output.old output.new
        (map said_of (findings.all_named_often names.now root))) }
{
    let mut start = 0;
    while start < names.len() {
        let frame = names[start].frame;
        let count = count_alike(&names[start..], frame);
        let times = count + usize::from(frame == root);
        write_finding::<O>(Finding::of_frame(frame, times), output)?;
        start += count;
    }
    Ok(())
}

/// Returns how many of the first names are of a frame.
#[tactic(auto, using(crate::proofs::Alikes::alike_more, crate::proofs::Alikes::alike_end, crate::proofs::Alikes::alike_all))]
fn count_alike(names: &[Name], frame: PhysFrame<Size4KiB>) -> usize
    ensures count { result ≡ alike (λ name. name.frame) frame names.now }
    ensures bound { result ≤ length names.now }
{
    let mut count = 0;
    for name in names {
        if name.frame != frame {
            return count;
        }
        count += 1;
    }
    count
}

/// Writes a line for each name of a table that isn't in the memory.
fn write_missing<O: LineOutput>(
    memory: &PhysMemory,
    names: &[Name],
    output: &mut O,
) -> Result<(), O::Error>
    ensures { OnOk result (O.Lines output.old output.new (map said_of
        (filter_map (findings.missing (words_of memory.now identity_places)) names.now))) }
{
    for name in names {
        write_finding::<O>(Finding::of_name(memory, name), output)?;
    }
    Ok(())
}
