//! Reports on the tables of all processors.
ghost use Rattle.std.specs.Prelude.{◌≡◌, ◌++◌, ◌||◌, Option, List, ℕ, [], codes, OnOk, IfOk, IfErr, string_bytes, decimal, true};
ghost use Rattle.std.specs.Io.KnownBytes.{Appends};
ghost use Rattle.std.specs.List.{flat_map, join_by, list_all};
ghost use Rattle.x86_64_dump.specs.Opened.{opened, words_opened};
ghost use Rattle.ptdump_engine.specs.Output.{Puts, put_in};
ghost use Rattle.ptdump_engine.specs.Processors as specs;
ghost use Rattle.ptdump_engine.specs.Program as program;
ghost use Rattle.ptdump_engine.specs.Steps.{FindsAs, InTurn, MayBeForced};
ghost use Rattle.ptdump_json.specs.Walks.{line};
ghost use Rattle.ptdump_json.specs.declared.options.Form.TheVariants.{Text};
ghost use Rattle.ptdump_engine.specs.private.ProcessorGroups as grouping;
ghost use Rattle.ptdump_engine.specs.private.Roots.{AreNoted, number_at};

use crate::arguments::{argument_failure, root_failure};
use crate::destination::Destination;
use crate::engine::report_from;
use crate::failure::Failure;
use crate::output::{Output, OutputError};
use crate::processor_groups::{ProcessorGroups, firsts_of};
use crate::processors::{Processor, modes_failure, read_processors};
use crate::request::{Form, Outcome, Request};
use ptdump_json::{Mode, ProcessorGroup, write_json};
use std::alloc::Global;
use x86_64_dump::{ByteSource, Dump, Progress};
use x86_64_page::frame::PhysFrame;
use x86_64_page::page::Size4KiB;

/// Reads the processors of a dump, and tests the request for the tables of each.
///
/// # Errors
///
/// `Failure::NoProcessors` if the dump has no note of a processor, `Failure::WrongMode` if none is in 64-bit paging,
/// `Failure::Dump` if a note is too short, and why an address is invalid or a root isn't in the dump.
#[tactic(auto, unfolding(crate::specs::Program::processors_for))]
pub fn processors_for<S: ByteSource>(
    alloc: Global,
    dump: &Dump<S>,
    request: &Request,
) -> Result<Vec<Processor>, Failure>
    ensures { S.IsKnown → FindsAs S.may_fail (λ processors. processors.items) result
        (program.processors_for request.now (opened S.bytes dump.now)) }
{
    let processors = read_processors(alloc, dump, request.levels)?;
    if let Some(failure) = modes_failure(&processors) {
        return Err(failure);
    }
    let firsts = firsts_of(alloc, &processors)?;
    if let Some(failure) = first_failure(dump, request, &firsts) {
        return Err(failure);
    }
    Ok(processors)
}

/// Returns why the tables of the first processors of which that is so can't be reported on, or `None` if there is no reason.
fn first_failure<S: ByteSource>(
    dump: &Dump<S>,
    request: &Request,
    processors: &[Processor],
) -> Option<Failure>
    ensures { S.IsKnown → result
        ≡ program.first_failure request.now (words_opened S.bytes dump.now) processors.now }
{
    for processor in processors {
        if let Some(failure) = tables_failure(dump, request, processor) {
            return Some(failure);
        }
    }
    None
}

/// Returns why the tables of a processor can't be reported on, or `None` if there is no reason.
fn tables_failure<S: ByteSource>(
    dump: &Dump<S>,
    request: &Request,
    processor: &Processor,
) -> Option<Failure>
    ensures { S.IsKnown → result
        ≡ program.tables_failure request.now (words_opened S.bytes dump.now) processor.now }
{
    argument_failure(&request.command, processor.start.levels).or(root_failure(
        dump,
        &request.command,
        processor.start.root,
    ))
}

/// Reports on the tables of all processors, on those of several once.
#[tactic(auto, using(crate::proofs::Turns::told_nothing))]
pub fn report_on_processors<S: ByteSource, W: Destination, E: Destination, G: Progress>(
    alloc: Global,
    dump: &Dump<S>,
    processors: &[Processor],
    request: &Request,
    writer: &mut W,
    notes: &mut Output<'_, E>,
    progress: &mut G,
) -> Result<Outcome, Failure>
    requires all { program.is_of_processors request.now ≡ true }
    requires noted { string_bytes notes.old.text ≡ [] }
    ensures written { S.IsKnown → IfOk result (program.ReportsAll request.now
        (words_opened S.bytes dump.now) processors.now (W.contents writer.old) (W.contents writer.new)) }
    ensures notes { S.IsKnown → OnOk result (AreNoted E.contents request.now.command
        (words_opened S.bytes dump.now) processors.now notes.old notes.new) }
    ensures told { S.IsKnown → OnOk result (InTurn (program.ToldOfTablesOf G.Told G.Ended
        (words_opened S.bytes dump.now)) (specs.firsts_of processors.now) progress.old progress.new) }
    ensures counted { program.ToldInTurn G.Told G.Ended progress.old progress.new }
    ensures errors { IfErr result (MayBeForced S.may_fail (W.may_refuse || E.may_refuse)) }
{
    let groups = ProcessorGroups::of(alloc, processors)?;
    let firsts = groups.firsts(alloc)?;
    write_left_out(processors, notes)?;
    let is_complete = write_reports(
        alloc, dump, &groups, &firsts, request, writer, notes, progress,
    )?;
    Ok(Outcome { is_complete })
}

/// Reports on the tables of some of the processors, one after the other, and returns true if the request is fulfilled for each.
fn write_reports<S: ByteSource, W: Destination, E: Destination, G: Progress>(
    alloc: Global,
    dump: &Dump<S>,
    groups: &ProcessorGroups<'_>,
    firsts: &[Processor],
    request: &Request,
    writer: &mut W,
    notes: &mut Output<'_, E>,
    progress: &mut G,
) -> Result<bool, Failure>
    requires groups { grouping.AreGrouped groups.now }
    requires all { program.is_of_processors request.now ≡ true }
    requires noted { string_bytes notes.old.text ≡ [] }
    ensures text { S.IsKnown → OnOk result (Appends (W.contents writer.old) (W.contents writer.new)
        (flat_map (program.report_below request.now (words_opened S.bytes dump.now)
        groups.now.processors.now) firsts.now)) }
    ensures complete { S.IsKnown → IfOk result (λ all. all ≡ list_all
        (program.is_complete_for request.now (words_opened S.bytes dump.now)) firsts.now) }
    ensures name { S.IsKnown → OnOk result (notes.new.writer.ghost_name ≡ notes.old.writer.ghost_name) }
    ensures totals { S.IsKnown → OnOk result (InTurn
        (program.EndsByTotalsOf request.now.command (words_opened S.bytes dump.now)) firsts.now
        (E.contents notes.old.writer.now) (E.contents notes.new.writer.now)) }
    ensures told { S.IsKnown → OnOk result (InTurn
        (program.ToldOfTablesOf G.Told G.Ended (words_opened S.bytes dump.now)) firsts.now
        progress.old progress.new) }
    ensures counted { program.ToldInTurn G.Told G.Ended progress.old progress.new }
    ensures errors { IfErr result (MayBeForced S.may_fail (W.may_refuse || E.may_refuse)) }
{
    let mut is_complete = true;
    for first in firsts {
        let is_fulfilled = write_report_below(
            alloc, dump, groups, first, request, writer, notes, progress,
        )?;
        is_complete &= is_fulfilled;
    }
    Ok(is_complete)
}

/// Reports on the tables of a processor, below the numbers of the processors that have the same, and returns true if the request is
/// fulfilled.
#[tactic(auto, using(crate::proofs::Failing::forced_first, crate::proofs::Failing::forced_second, crate::proofs::Failing::first_write, crate::proofs::Failing::second_write, crate::proofs::Turns::told_nothing))]
fn write_report_below<S: ByteSource, W: Destination, E: Destination, G: Progress>(
    alloc: Global,
    dump: &Dump<S>,
    groups: &ProcessorGroups<'_>,
    first: &Processor,
    request: &Request,
    writer: &mut W,
    notes: &mut Output<'_, E>,
    progress: &mut G,
) -> Result<bool, Failure>
    requires groups { grouping.AreGrouped groups.now }
    requires all { program.is_of_processors request.now ≡ true }
    requires noted { string_bytes notes.old.text ≡ [] }
    ensures text { S.IsKnown → OnOk result (Appends (W.contents writer.old) (W.contents writer.new)
        (program.report_below request.now (words_opened S.bytes dump.now)
        groups.now.processors.now first.now)) }
    ensures complete { S.IsKnown → IfOk result (λ is.
        is ≡ program.is_complete_for request.now (words_opened S.bytes dump.now) first.now) }
    ensures noted { OnOk result (string_bytes notes.new.text ≡ []) }
    ensures name { S.IsKnown → OnOk result (notes.new.writer.ghost_name ≡ notes.old.writer.ghost_name) }
    ensures totals { S.IsKnown → OnOk result (program.EndsByTotalsOf request.now.command
        (words_opened S.bytes dump.now) first.now
        (E.contents notes.old.writer.now) (E.contents notes.new.writer.now)) }
    ensures told { S.IsKnown → OnOk result (program.ToldOfTablesOf G.Told G.Ended
        (words_opened S.bytes dump.now) first.now progress.old progress.new) }
    ensures counted { program.ToldInTurn G.Told G.Ended progress.old progress.new }
    ensures errors { IfErr result (MayBeForced S.may_fail (W.may_refuse || E.may_refuse)) }
{
    write_heading(alloc, request.form, groups, first, writer)?;
    let outcome = report_from(alloc, dump, &first.start, request, writer, notes, progress)?;
    Ok(outcome.is_complete)
}

/// Writes the numbers of the processors that have the tables of one, and the root.
fn write_heading<W: Destination>(
    alloc: Global,
    form: Form,
    groups: &ProcessorGroups<'_>,
    first: &Processor,
    writer: &mut W,
) -> Result<(), OutputError<W>>
    requires { grouping.AreGrouped groups.now }
    ensures { OnOk result (Appends (W.contents writer.old) (W.contents writer.new)
        (specs.heading_text form (specs.cpus_with groups.now.processors.now first.now)
        first.now.start.root)) }
{
    let cpus = groups.cpus_with(first);
    let mut output = Output::new(alloc, writer);
    write_heading_in(alloc, form, cpus, first.start.root, &mut output)?;
    output.finish()?;
    Ok(())
}

/// Writes the numbers of some processors, and their root, in a form.
fn write_heading_in<W: Destination>(
    alloc: Global,
    form: Form,
    cpus: &[usize],
    root: PhysFrame<Size4KiB>,
    output: &mut Output<'_, W>,
) -> Result<(), OutputError<W>>
    ensures { OnOk result (Puts W.contents output.old output.new (specs.heading_text form cpus.now root)) }
{
    match form {
        Form::Text => write_text_heading(cpus, root, output),
        Form::Json => {
            let group = ProcessorGroup { cpus, root };
            write_json::<ProcessorGroup<'_>, Output<'_, W>>(alloc, &group, output)
        }
    }
}

/// Writes the numbers of some processors, and their root, as text.
fn write_text_heading<W: Destination>(
    cpus: &[usize],
    root: PhysFrame<Size4KiB>,
    output: &mut Output<'_, W>,
) -> Result<(), OutputError<W>>
    ensures { OnOk result (Puts W.contents output.old output.new (specs.heading_text Text cpus.now root)) }
{
    write!(output, "cpu ")?;
    write_numbers(cpus, output)?;
    let root = root.start_address().as_u64();
    writeln!(output, " root 0x{root:x}")
}

/// Writes numbers, with commas between them.
fn write_numbers<W: Destination>(
    numbers: &[usize],
    output: &mut Output<'_, W>,
) -> Result<(), OutputError<W>>
    ensures { OnOk result (Puts W.contents output.old output.new (join_by decimal (codes ",") numbers.now)) }
{
    for (index, number) in numbers.iter().enumerate() {
        write_number(index, *number, output)?;
    }
    Ok(())
}

/// Writes the number at an index of a list, after a comma if it isn't the first.
fn write_number<W: Destination>(
    index: usize,
    number: usize,
    output: &mut Output<'_, W>,
) -> Result<(), OutputError<W>>
    ensures { OnOk result (Puts W.contents output.old output.new (number_at index number)) }
{
    if index == 0 {
        write!(output, "{number}")
    } else {
        write!(output, ",{number}")
    }
}

/// Writes immediately which processors have no tables.
fn write_left_out<E: Destination>(
    processors: &[Processor],
    notes: &mut Output<'_, E>,
) -> Result<(), OutputError<E>>
    ensures text { OnOk result (Puts E.contents notes.old notes.new (specs.left_out_text processors.now)) }
    ensures all { OnOk result (string_bytes notes.new.text ≡ []) }
{
    for processor in processors {
        write_mode(processor, notes)?;
    }
    notes.finish()
}

/// Writes the mode of a processor if it has no tables.
fn write_mode<E: Destination>(
    processor: &Processor,
    notes: &mut Output<'_, E>,
) -> Result<(), OutputError<E>>
    ensures { OnOk result (Puts E.contents notes.old notes.new (specs.left_out_line processor.now)) }
{
    if processor.has_tables() {
        return Ok(());
    }
    write_without_tables(processor.cpu, processor.mode, notes)
}

/// Writes that a processor has no tables, as it is in another mode.
fn write_without_tables<E: Destination>(
    cpu: usize,
    mode: Mode,
    notes: &mut Output<'_, E>,
) -> Result<(), OutputError<E>>
    ensures { OnOk result (Puts E.contents notes.old notes.new (line (specs.left_out_told cpu mode))) }
{
    writeln!(notes, "processor {cpu} {mode}: it is left out")
}
