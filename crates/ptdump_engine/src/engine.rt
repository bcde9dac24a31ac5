//! The run of the program.
ghost use Rattle.std.specs.Prelude.{◌≡◌, ◌⊎◌, ◌||◌, [], false, None, OnOk, IfOk, IfErr, IfSome, string_bytes};
ghost use Rattle.std.specs.FinMap as finite;
ghost use Rattle.std.specs.Io.KnownBytes.{Appends};
ghost use Rattle.x86_64_dump.specs.Opened.{opened, words_opened};
ghost use Rattle.x86_64_model.specs.Mappings.{mappings_of};
ghost use Rattle.ptdump_check.specs.Loaded.{HasAllTables, IsLoadedDump, words_loaded};
ghost use Rattle.ptdump_engine.specs.Output.{Puts, put_in};
ghost use Rattle.ptdump_engine.specs.Program as program;
ghost use Rattle.ptdump_engine.specs.Steps.{Finds, MayBeForced};
ghost use Rattle.ptdump_engine.specs.Totals.{IsMappedMemory, totals_text};
ghost use Rattle.ptdump_json.specs.Walks.{line};
ghost use Rattle.ptdump_json.specs.declared.start.Origin.TheVariants.{ByText};
ghost use Rattle.ptdump_engine.specs.declared.totals.Totals.{Totals};

use crate::arguments::{argument_failure, root_failure};
use crate::check::write_findings;
use crate::destination::Destination;
use crate::failure::Failure;
use crate::image::write_image;
use crate::info::write_info;
use crate::noted_levels::write_levels;
use crate::opening::{open, write_opening};
use crate::output::{Output, OutputError};
use crate::picture::write_picture;
use crate::report::{write_found, write_pages, write_regions, write_walks};
use crate::request::{Command, Levels, Outcome, Request};
use crate::reserved::write_reserved;
use crate::resolving::resolve;
use crate::roots::{processors_for, report_on_processors};
use crate::start::start_of;
use crate::totals::Totals;
use ptdump_check::Loaded;
use ptdump_json::{Listing, Origin, Start};
use std::alloc::Global;
use std::marker::PhantomData;
use x86_64_addr::level_count::{FiveLevels, FourLevels, LevelCount};
use x86_64_dump::{ByteSource, Dump, Progress, read_tables};
use x86_64_mappings::Summaries;
use x86_64_page::frame::PhysFrame;
use x86_64_page::page::Size4KiB;
use x86_64_tables::phys_memory::IdentityMapping;

/// Runs the program on the bytes of a file: opens it as a dump, reads the tables that a root leads to, and writes the requested
/// report to `writer`. The request is tested before anything is written there. A walk's access is answered by the controls that the
/// note of a processor tells, if the request only assumes them. `progress` is called as memory is searched for VMCOREINFO, and as the
/// tables are read.
///
/// `errors` receives the rest of the text for standard error: that the file is raw, or shorter than its headers say, that the root is
/// the kernel's own by VMCOREINFO, that the dump says another number of levels than the request, which processors have no tables, how an image
/// was created, and finally for each root how many words have reserved bits, if the report lists what is mapped, the number of tables
/// that were read, and how much they map.
///
/// # Errors
///
/// A failure if the file isn't a dump, the start of page walks can't be determined, an address is invalid, or the root isn't in
/// the dump, all before anything is written to `writer`; likewise for each root of the processors, if the report is on all of them. A
/// walk reports a missing root itself. A failure if memory allocation, a read or a write fails.
#[tactic(auto, using(crate::proofs::Wholly::forced_run, crate::proofs::Turns::told_nothing, crate::proofs::Failing::first_write, crate::proofs::Failing::second_write))]
pub fn run<S: ByteSource, W: Destination, E: Destination, G: Progress>(
    alloc: Global,
    source: S,
    request: Request,
    writer: &mut W,
    errors: &mut E,
    progress: &mut G,
) -> Result<Outcome, Failure>
    ensures run { S.IsKnown → program.Runs S.may_fail (W.may_refuse || E.may_refuse) request
        (S.bytes source) (W.contents writer.old) (W.contents writer.new) result }
    ensures notes { S.IsKnown → OnOk result (program.is_image request.command ≡ false →
        program.StderrIs request (S.bytes source) (E.contents errors.old) (E.contents errors.new)) }
    ensures told { S.IsKnown → OnOk result
        (program.ToldOfRun G.Told G.Ended request (S.bytes source) progress.old progress.new) }
    ensures counted { program.ToldInTurn G.Told G.Ended progress.old progress.new }
    ensures untold { IfErr result (λ failure. MayBeForced S.may_fail (W.may_refuse || E.may_refuse) failure
        ⊎ (progress.new ≡ progress.old)) }
{
    let mut notes = Output::new(alloc, errors);
    let dump = open(alloc, source, &request, &*progress)?;
    write_opening(&dump, &mut notes)?;
    if request.command.is_info() {
        return write_info(alloc, &dump, &request, writer);
    }
    if request.is_of_processors() {
        let processors = processors_for(alloc, &dump, &request)?;
        return report_on_processors(
            alloc,
            &dump,
            &processors,
            &request,
            writer,
            &mut notes,
            progress,
        );
    }
    let start = start_for(alloc, &dump, &request)?;
    write_source(start.origin, &mut notes)?;
    write_levels(request.levels, start.noted_levels, &mut notes)?;
    let resolved = resolve(alloc, &dump, request, &start)?;
    report_from(
        alloc, &dump, &start, &resolved, writer, &mut notes, progress,
    )
}

/// Writes immediately if the root is the kernel's own, and what says so.
fn write_source<E: Destination>(
    origin: Origin,
    notes: &mut Output<'_, E>,
) -> Result<(), OutputError<E>>
    ensures text { OnOk result (Puts E.contents notes.old notes.new (program.source_text origin)) }
    ensures all { OnOk result (string_bytes notes.old.text ≡ [] → string_bytes notes.new.text ≡ []) }
{
    match origin {
        Origin::ByRequest | Origin::ByProcessor => Ok(()),
        Origin::ByKernel => {
            writeln!(
                notes,
                "the root is the kernel's own, as the note VMCOREINFO says"
            )?;
            notes.finish()
        }
        Origin::ByText(offset) => {
            write_text_source(offset, notes)?;
            notes.finish()
        }
    }
}

/// Writes which text says where the root is.
fn write_text_source<E: Destination>(
    offset: u64,
    notes: &mut Output<'_, E>,
) -> Result<(), OutputError<E>>
    ensures { OnOk result (Puts E.contents notes.old notes.new (program.source_text (ByText offset))) }
{
    writeln!(
        notes,
        "the root is the kernel's own, as VMCOREINFO at byte {offset} of the file says"
    )
}

/// Determines the start of page walks, and tests the request.
///
/// # Errors
///
/// Why the start can't be determined, an address is invalid, or the root isn't in the dump.
#[tactic(auto, unfolding(crate::specs::Program::start_for))]
pub fn start_for<S: ByteSource>(
    alloc: Global,
    dump: &Dump<S>,
    request: &Request,
) -> Result<Start, Failure>
    ensures start { S.IsKnown → Finds S.may_fail result
        (program.start_for request.now (opened S.bytes dump.now)) }
    ensures arguments { IfOk result (λ start.
        program.argument_failure start.levels request.now.command ≡ None) }
{
    let start = start_of(alloc, dump, request)?;
    if let Some(failure) = argument_failure(&request.command, start.levels) {
        return Err(failure);
    }
    if let Some(failure) = root_failure(dump, &request.command, start.root) {
        return Err(failure);
    }
    Ok(start)
}

/// Reads the tables at the start of page walks, and writes a command's report on them, how many of their words have reserved bits,
/// and the totals.
///
/// # Errors
///
/// A failure if memory allocation, a read or a write fails.
pub fn report_from<S: ByteSource, W: Destination, E: Destination, G: Progress>(
    alloc: Global,
    dump: &Dump<S>,
    start: &Start,
    request: &Request,
    writer: &mut W,
    notes: &mut Output<'_, E>,
    progress: &mut G,
) -> Result<Outcome, Failure>
    requires { program.IsTested request.now.command }
    ensures written { S.IsKnown → IfOk result (program.ReportsOnWords request.now
        (program.level_count start.now.levels) (words_opened S.bytes dump.now) start.now.root
        (W.contents writer.old) (W.contents writer.new)) }
    ensures totals { S.IsKnown → OnOk result (program.is_image request.now.command ≡ false →
        (notes.new.writer.ghost_name ≡ notes.old.writer.ghost_name)
        × program.EndsByTotals request.now.command (program.level_count start.now.levels)
        (words_opened S.bytes dump.now) start.now.root
        (put_in E.contents notes.old) (E.contents notes.new.writer.now)) }
    ensures noted { OnOk result (string_bytes notes.new.text ≡ []) }
    ensures told { S.IsKnown → OnOk result (program.ToldOfTables G.Told G.Ended
        (program.level_count start.now.levels) (words_opened S.bytes dump.now) start.now.root
        progress.old progress.new) }
    ensures counted { program.ToldInTurn G.Told G.Ended progress.old progress.new }
    ensures errors { IfErr result (MayBeForced S.may_fail (W.may_refuse || E.may_refuse)) }
{
    match start.levels {
        Levels::Four => report::<FourLevels, S, W, E, G>(
            alloc, dump, start.root, request, writer, notes, progress,
        ),
        Levels::Five => report::<FiveLevels, S, W, E, G>(
            alloc, dump, start.root, request, writer, notes, progress,
        ),
    }
}

/// Reads the tables that a root leads to, and writes a command's report on them, how many of their words have reserved bits, and the
/// totals.
#[tactic(auto, using(crate::proofs::Failing::forced_first, crate::proofs::Failing::forced_second, crate::proofs::Failing::first_write, crate::proofs::Failing::second_write))]
fn report<L: LevelCount, S: ByteSource, W: Destination, E: Destination, G: Progress>(
    alloc: Global,
    dump: &Dump<S>,
    root: PhysFrame<Size4KiB>,
    request: &Request,
    writer: &mut W,
    notes: &mut Output<'_, E>,
    progress: &mut G,
) -> Result<Outcome, Failure>
    requires { program.IsTested request.now.command }
    ensures written { S.IsKnown → IfOk result (program.ReportsOnWords request.now L.LEVELS
        (words_opened S.bytes dump.now) root (W.contents writer.old) (W.contents writer.new)) }
    ensures totals { S.IsKnown → OnOk result (program.is_image request.now.command ≡ false →
        (notes.new.writer.ghost_name ≡ notes.old.writer.ghost_name)
        × program.EndsByTotals request.now.command L.LEVELS (words_opened S.bytes dump.now) root
        (put_in E.contents notes.old) (E.contents notes.new.writer.now)) }
    ensures noted { OnOk result (string_bytes notes.new.text ≡ []) }
    ensures told { S.IsKnown → OnOk result (program.ToldOfTables G.Told G.Ended L.LEVELS
        (words_opened S.bytes dump.now) root progress.old progress.new) }
    ensures counted { program.ToldInTurn G.Told G.Ended progress.old progress.new }
    ensures errors { IfErr result (MayBeForced S.may_fail (W.may_refuse || E.may_refuse)) }
{
    let tables = read_tables::<L, S, G>(alloc, dump, root, progress);
    progress.end();
    let tables = tables?;
    let memory = tables.memory();
    let summaries = Summaries::new(alloc, memory, &IdentityMapping, tables.frames(), None)?;
    let loaded = Loaded::<L> {
        root,
        tables: &tables,
        summaries: &summaries,
        levels: PhantomData,
    };
    let is_complete = write_whole(alloc, dump, &loaded, request, writer, notes)?;
    write_reserved(&request.command, &loaded, notes)?;
    write_totals(&loaded, notes)?;
    Ok(Outcome { is_complete })
}

/// Writes a command's whole report, and returns true if the request is fulfilled.
#[tactic(auto, using(crate::proofs::Failing::forced_first, crate::proofs::Failing::forced_second, crate::proofs::Failing::first_write, crate::proofs::Failing::second_write))]
fn write_whole<L: LevelCount, S: ByteSource, W: Destination, E: Destination>(
    alloc: Global,
    dump: &Dump<S>,
    loaded: &Loaded<'_, L>,
    request: &Request,
    writer: &mut W,
    notes: &mut Output<'_, E>,
) -> Result<bool, Failure>
    requires loaded { IsLoadedDump loaded.now }
    requires tables { S.IsKnown → HasAllTables L.LEVELS loaded.now }
    requires tested { program.IsTested request.now.command }
    ensures text { S.IsKnown → OnOk result (
        IfSome (program.report_of request.now L.LEVELS (words_loaded loaded.now) loaded.now.root)
        (Appends (W.contents writer.old) (W.contents writer.new))) }
    ensures complete { S.IsKnown → IfOk result (λ is. is
        ≡ program.completeness_of request.now.command L.LEVELS (words_loaded loaded.now) loaded.now.root) }
    ensures notes { OnOk result (program.is_image request.now.command ≡ false → notes.new ≡ notes.old) }
    ensures errors { IfErr result (MayBeForced S.may_fail (W.may_refuse || E.may_refuse)) }
{
    let mut output = Output::new(alloc, writer);
    let is_complete = write_report(alloc, dump, loaded, request, &mut output, notes)?;
    output.finish()?;
    Ok(is_complete)
}

/// Writes a command's report, and returns true if the request is fulfilled.
#[tactic(auto, using(crate::proofs::Failing::forced_first, crate::proofs::Failing::forced_second, crate::proofs::Failing::first_write, crate::proofs::Failing::second_write))]
fn write_report<L: LevelCount, S: ByteSource, W: Destination, E: Destination>(
    alloc: Global,
    dump: &Dump<S>,
    loaded: &Loaded<'_, L>,
    request: &Request,
    output: &mut Output<'_, W>,
    notes: &mut Output<'_, E>,
) -> Result<bool, Failure>
    requires loaded { IsLoadedDump loaded.now }
    requires tables { S.IsKnown → HasAllTables L.LEVELS loaded.now }
    requires tested { program.IsTested request.now.command }
    ensures text { S.IsKnown → OnOk result (
        IfSome (program.report_of request.now L.LEVELS (words_loaded loaded.now) loaded.now.root)
        (Puts W.contents output.old output.new)) }
    ensures complete { S.IsKnown → IfOk result (λ is. is
        ≡ program.completeness_of request.now.command L.LEVELS (words_loaded loaded.now) loaded.now.root) }
    ensures notes { OnOk result (program.is_image request.now.command ≡ false → notes.new ≡ notes.old) }
    ensures errors { IfErr result (MayBeForced S.may_fail (W.may_refuse || E.may_refuse)) }
{
    let form = request.form;
    let columns = request.columns;
    let layout = request.areas.layout();
    match &request.command {
        Command::Regions(selection) => {
            let listing = Listing {
                columns,
                has_names: false,
                layout,
            };
            write_regions::<L, Output<'_, W>>(alloc, loaded, *selection, form, listing, output)?;
            Ok(true)
        }
        Command::Pages {
            selection,
            has_names,
        } => {
            let listing = Listing {
                columns,
                has_names: *has_names,
                layout,
            };
            write_pages::<L, Output<'_, W>>(alloc, loaded, *selection, form, listing, output)?;
            Ok(true)
        }
        Command::Walk { addresses, options } => {
            Ok(write_walks(alloc, loaded, addresses, *options, form, output)?)
        }
        Command::Find(addresses) => Ok(write_found(alloc, loaded, addresses, form, output)?),
        Command::Check(checking) => Ok(write_findings(alloc, loaded, *checking, form, output)?),
        Command::Image => {
            write_image(alloc, dump, loaded, output, notes)?;
            Ok(true)
        }
        Command::Picture => {
            write_picture(alloc, loaded, output)?;
            Ok(true)
        }
        Command::Info => Ok(true),
    }
}

/// Writes the number of tables that were read, and how much they map.
fn write_totals<L: LevelCount, E: Destination>(
    loaded: &Loaded<'_, L>,
    notes: &mut Output<'_, E>,
) -> Result<(), OutputError<E>>
    requires { IsLoadedDump loaded.now }
    ensures text { OnOk result ((totals : Totals)
        × (totals.tables ≡ finite.len loaded.now.tables.now.memory)
        × IsMappedMemory (mappings_of L.LEVELS (words_loaded loaded.now) loaded.now.root) totals
        × Puts E.contents notes.old notes.new (line (totals_text totals))) }
    ensures all { OnOk result (string_bytes notes.new.text ≡ []) }
{
    let totals = Totals::of(loaded);
    writeln!(notes, "{totals}")?;
    notes.finish()
}
