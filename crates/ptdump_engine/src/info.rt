//! What a dump says of its machine.
ghost use Rattle.std.specs.Prelude.{◌≡◌, ◌⊎◌, None, false, true, IfOk, IfErr, IfSome, IsSome, Ok, OnOk, string_bytes};
ghost use Rattle.std.specs.Io.KnownBytes.{Appends};
ghost use Rattle.std.specs.List.{flat_map};
ghost use Rattle.std.specs.Option.{unwrap_or};
ghost use Rattle.x86_64_dump.specs.FaultTexts.{dump_fault_text};
ghost use Rattle.x86_64_dump.specs.Opened.{opened};
ghost use Rattle.x86_64_dump.specs.VmCoreInfo.{kernel_in};
ghost use Rattle.ptdump_engine.specs.FailureTexts.{failure_text};
ghost use Rattle.ptdump_engine.specs.Info as info;
ghost use Rattle.ptdump_engine.specs.Output.{Puts};
ghost use Rattle.ptdump_engine.specs.Program.{info_of, is_info, start_for};
ghost use Rattle.ptdump_json.specs.Paging.{registers_of};
ghost use Rattle.ptdump_engine.specs.Steps.{MayBeForced};

use crate::destination::Destination;
use crate::engine::start_for;
use crate::failure::Failure;
use crate::output::{Output, OutputError};
use crate::request::{Form, Outcome, Request};
use ptdump_json::{
    DumpFormat, KernelRoot, MemoryRange, NoKernelRoot, NoRoot, Processor, Registers, Root, Start,
    UnplacedMemory, write_as,
};
use std::alloc::{AllocError, Global};
use std::fmt::Display;
use x86_64_dump::{ByteSource, Dump, DumpError, Fault, Format, Note, Segment};

/// Writes what a dump says of its machine, in the form of the request: the format, the memory, the processors, the kernel, and the
/// root that other commands take. If they find none, the line says why. A processor whose note is too short has a line, too.
///
/// # Errors
///
/// `Failure::OutOfMemory` if memory allocation fails, `Failure::Output` if a write fails, `Failure::Read` if the dump can't be read.
#[tactic(auto, using(crate::proofs::Failing::forced_write))]
pub fn write_info<S: ByteSource, W: Destination>(
    alloc: Global,
    dump: &Dump<S>,
    request: &Request,
    writer: &mut W,
) -> Result<Outcome, Failure>
    requires { is_info request.now.command ≡ true }
    ensures written { S.IsKnown → OnOk result (Appends (W.contents writer.old) (W.contents writer.new)
        (info_of request.now (opened S.bytes dump.now))) }
    ensures complete { IfOk result (λ outcome. outcome.is_complete ≡ true) }
    ensures errors { S.IsKnown → IfErr result (MayBeForced S.may_fail W.may_refuse) }
{
    let mut output = Output::new(alloc, writer);
    write_lines(alloc, dump, request, &mut output)?;
    output.finish()?;
    Ok(Outcome { is_complete: true })
}

/// Writes all lines.
#[tactic(auto, using(crate::proofs::Failing::forced_write), unfolding(crate::specs::Info::info_in))]
fn write_lines<S: ByteSource, W: Destination>(
    alloc: Global,
    dump: &Dump<S>,
    request: &Request,
    output: &mut Output<'_, W>,
) -> Result<(), Failure>
    requires { is_info request.now.command ≡ true }
    ensures text { S.IsKnown → OnOk result (Puts W.contents output.old output.new
        (info_of request.now (opened S.bytes dump.now))) }
    ensures errors { S.IsKnown → IfErr result (MayBeForced S.may_fail W.may_refuse) }
{
    let form = request.form;
    write_format(alloc, form, dump.format(), output)?;
    write_memory(alloc, form, dump.segments(), output)?;
    let processors = dump.processors(alloc)?;
    write_processors(alloc, form, dump, &processors, output)?;
    write_kernel(alloc, form, dump, output)?;
    write_root(alloc, dump, request, output)
}

/// Writes the format of a dump.
fn write_format<W: Destination>(
    alloc: Global,
    form: Form,
    format: Format,
    output: &mut Output<'_, W>,
) -> Result<(), OutputError<W>>
    ensures { OnOk result (Puts W.contents output.old output.new (info.format_line form format)) }
{
    write_as::<DumpFormat, Output<'_, W>>(alloc, form, DumpFormat(format), output)
}

// ---- memory

/// Writes a line for each segment of memory that has bytes.
fn write_memory<W: Destination>(
    alloc: Global,
    form: Form,
    segments: &[Segment],
    output: &mut Output<'_, W>,
) -> Result<(), OutputError<W>>
    ensures { OnOk result (Puts W.contents output.old output.new
        (flat_map (info.memory_line form) segments.now)) }
{
    for segment in segments {
        write_segment(alloc, form, segment, output)?;
    }
    Ok(())
}

/// Writes the line of a segment, if its kind is memory and it has bytes.
fn write_segment<W: Destination>(
    alloc: Global,
    form: Form,
    segment: &Segment,
    output: &mut Output<'_, W>,
) -> Result<(), OutputError<W>>
    ensures { OnOk result (Puts W.contents output.old output.new (info.memory_line form segment.now)) }
{
    if segment.kind != Segment::LOAD || segment.size == 0 {
        return Ok(());
    }
    if !segment.has_address() {
        let memory = UnplacedMemory { size: segment.size };
        return write_as::<UnplacedMemory, Output<'_, W>>(alloc, form, memory, output);
    }
    let range = MemoryRange {
        first: segment.address,
        last: segment.address.saturating_add(segment.size - 1),
        size: segment.size,
    };
    write_as::<MemoryRange, Output<'_, W>>(alloc, form, range, output)
}

// ---- processors

/// Writes a line for each processor.
fn write_processors<S: ByteSource, W: Destination>(
    alloc: Global,
    form: Form,
    dump: &Dump<S>,
    notes: &[Note],
    output: &mut Output<'_, W>,
) -> Result<(), Failure>
    ensures text { S.IsKnown → OnOk result (Puts W.contents output.old output.new
        (info.processor_lines form (opened S.bytes dump.now).file notes.now)) }
    ensures errors { S.IsKnown → IfErr result (MayBeForced S.may_fail W.may_refuse) }
{
    for (cpu, note) in notes.iter().enumerate() {
        write_noted(alloc, form, dump, cpu, note, output)?;
    }
    Ok(())
}

/// Writes the line of the processor that has a note.
#[tactic(auto, using(crate::proofs::Failing::forced_write))]
fn write_noted<S: ByteSource, W: Destination>(
    alloc: Global,
    form: Form,
    dump: &Dump<S>,
    cpu: usize,
    note: &Note,
    output: &mut Output<'_, W>,
) -> Result<(), Failure>
    ensures text { S.IsKnown → OnOk result (Puts W.contents output.old output.new
        (info.processor_line form cpu (info.known_registers
        (registers_of (opened S.bytes dump.now).file note.now)))) }
    ensures errors { S.IsKnown → IfErr result (MayBeForced S.may_fail W.may_refuse) }
{
    match Registers::read(dump, note) {
        Ok(registers) => Ok(write_processor(alloc, form, cpu, Some(registers), output)?),
        Err(DumpError::Fault(_)) => Ok(write_processor(alloc, form, cpu, None, output)?),
        Err(DumpError::OutOfMemory) => Err(Failure::OutOfMemory),
        Err(DumpError::Read(error)) => Err(Failure::Read(error)),
    }
}

/// Writes the line of a processor, with its registers if they are known.
fn write_processor<W: Destination>(
    alloc: Global,
    form: Form,
    cpu: usize,
    registers: Option<Registers>,
    output: &mut Output<'_, W>,
) -> Result<(), OutputError<W>>
    ensures { OnOk result (Puts W.contents output.old output.new (info.processor_line form cpu registers)) }
{
    let processor = Processor { cpu, registers };
    write_as::<Processor, Output<'_, W>>(alloc, form, processor, output)
}

// ---- roots

/// Writes what the note VMCOREINFO says of the kernel, if there is one.
#[tactic(auto, using(crate::proofs::Failing::forced_write))]
fn write_kernel<S: ByteSource, W: Destination>(
    alloc: Global,
    form: Form,
    dump: &Dump<S>,
    output: &mut Output<'_, W>,
) -> Result<(), Failure>
    ensures text { S.IsKnown → OnOk result (Puts W.contents output.old output.new
        (info.kernel_line form (kernel_in (opened S.bytes dump.now)))) }
    ensures errors { S.IsKnown → IfErr result (MayBeForced S.may_fail W.may_refuse) }
{
    match dump.kernel(alloc) {
        Ok(None) => Ok(()),
        Ok(Some(kernel)) => Ok(write_as::<KernelRoot, Output<'_, W>>(
            alloc,
            form,
            KernelRoot(kernel),
            output,
        )?),
        Err(DumpError::Fault(fault)) => Ok(write_fault(alloc, form, &fault, output)?),
        Err(DumpError::OutOfMemory) => Err(Failure::OutOfMemory),
        Err(DumpError::Read(error)) => Err(Failure::Read(error)),
    }
}

/// Writes why the note VMCOREINFO doesn't say where the kernel's root is.
fn write_fault<W: Destination>(
    alloc: Global,
    form: Form,
    fault: &Fault,
    output: &mut Output<'_, W>,
) -> Result<(), OutputError<W>>
    ensures { OnOk result (IfSome (dump_fault_text fault.now)
        (λ text. Puts W.contents output.old output.new (info.no_kernel_line form text))) }
{
    let error = text_of(alloc, fault)?;
    write_as::<NoKernelRoot, Output<'_, W>>(alloc, form, NoKernelRoot { error }, output)
}

/// Returns the text of a value.
fn text_of<D: Display>(alloc: Global, value: &D) -> Result<String, AllocError>
    ensures { IfOk result (λ written. IfSome (D.output value.now) (λ text. string_bytes written ≡ text)) }
{
    format!(in alloc; "{value}")
}

/// Writes the root that other commands take, or why they find none.
#[tactic(auto, using(crate::proofs::Failing::forced_write))]
fn write_root<S: ByteSource, W: Destination>(
    alloc: Global,
    dump: &Dump<S>,
    request: &Request,
    output: &mut Output<'_, W>,
) -> Result<(), Failure>
    requires { is_info request.now.command ≡ true }
    ensures text { S.IsKnown → OnOk result (Puts W.contents output.old output.new
        (info.root_line request.now.form (unwrap_or request.now.cpu 0)
        (start_for request.now (opened S.bytes dump.now)))) }
    ensures errors { S.IsKnown → IfErr result (MayBeForced S.may_fail W.may_refuse) }
{
    match start_for(alloc, dump, request) {
        Ok(start) => {
            let cpu = request.cpu.unwrap_or(0);
            Ok(write_start(alloc, request.form, &start, cpu, output)?)
        }
        Err(failure) => write_failure(alloc, request.form, failure, output),
    }
}

/// Writes the start of page walks, if this processor is requested.
fn write_start<W: Destination>(
    alloc: Global,
    form: Form,
    start: &Start,
    cpu: u64,
    output: &mut Output<'_, W>,
) -> Result<(), OutputError<W>>
    ensures { OnOk result (Puts W.contents output.old output.new (info.root_line form cpu (Ok start.now))) }
{
    let root = Root { start: *start, cpu };
    write_as::<Root, Output<'_, W>>(alloc, form, root, output)
}

/// Writes why no root is found, or returns a failure for another reason.
fn write_failure<W: Destination>(
    alloc: Global,
    form: Form,
    failure: Failure,
    output: &mut Output<'_, W>,
) -> Result<(), Failure>
    ensures told { OnOk result (IsSome (failure_text failure)) }
    ensures text { OnOk result (IfSome (failure_text failure)
        (λ text. Puts W.contents output.old output.new (info.no_root_line form text))) }
    ensures errors { IfErr result (λ error. MayBeForced false W.may_refuse error
        ⊎ ((failure_text failure ≡ None) × (error ≡ failure))) }
{
    if failure.is_of_start() {
        Ok(write_none(alloc, form, &failure, output)?)
    } else {
        Err(failure)
    }
}

/// Writes why no root is found.
fn write_none<W: Destination>(
    alloc: Global,
    form: Form,
    failure: &Failure,
    output: &mut Output<'_, W>,
) -> Result<(), OutputError<W>>
    ensures { OnOk result (IfSome (failure_text failure.now)
        (λ text. Puts W.contents output.old output.new (info.no_root_line form text))) }
{
    let error = text_of(alloc, failure)?;
    write_as::<NoRoot, Output<'_, W>>(alloc, form, NoRoot { error }, output)
}
