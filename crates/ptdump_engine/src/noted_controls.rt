//! The controls of a processor that its note tells.
ghost use Rattle.std.specs.Prelude.{◌≡◌, IfOk, Ok, slice_get};
ghost use Rattle.x86_64_dump.specs.Notes.{processors_of};
ghost use Rattle.x86_64_dump.specs.Opened.{opened};
ghost use Rattle.ptdump_engine.specs.NotedControls as specs;
ghost use Rattle.ptdump_engine.specs.Program.{IsTested};
ghost use Rattle.ptdump_json.specs.Paging.{registers_of};
ghost use Rattle.ptdump_engine.specs.Steps.{Finds};
ghost use Rattle.ptdump_json.specs.declared.options.ControlsSource.TheVariants.{Assumed};

use crate::failure::Failure;
use crate::request::{Command, ControlsSource, Request, WalkOptions};
use ptdump_json::{Mode, Registers};
use std::alloc::Global;
use x86_64_access::Controls;
use x86_64_dump::{ByteSource, Dump, DumpError, Note};

/// The bit of CR0 that keeps a supervisor from writing to pages without `WRITABLE`.
const WP: u64 = 0x1_0000;

/// The bit of CR4 that keeps a supervisor from fetching instructions from users' pages.
const SMEP: u64 = 0x10_0000;

/// The bit of CR4 that keeps a supervisor from reading and writing users' pages.
const SMAP: u64 = 0x20_0000;

/// Returns a request, with the controls of its walk that the note of its processor tells in place of assumed ones. A note tells them
/// if it isn't too short, and the processor is in 64-bit paging. It isn't read if its registers were read before.
///
/// # Errors
///
/// `Failure::OutOfMemory` if memory allocation fails, `Failure::Read` if the dump can't be read.
pub fn with_noted_controls<S: ByteSource>(
    alloc: Global,
    dump: &Dump<S>,
    request: Request,
    read: Option<Registers>,
) -> Result<Request, Failure>
    ensures request { S.IsKnown → Finds S.may_fail result
        (Ok (specs.with_noted_controls request (opened S.bytes dump.now) read)) }
    ensures tested { IsTested request.command → IfOk result (λ resolved. IsTested resolved.command) }
{
    let cpu = request.cpu.unwrap_or(0);
    let command = command_by_note(alloc, dump, cpu, read, request.command)?;
    Ok(Request { command, ..request })
}

/// Returns a command, with the controls that the note of a processor tells in place of assumed ones.
fn command_by_note<S: ByteSource>(
    alloc: Global,
    dump: &Dump<S>,
    cpu: u64,
    read: Option<Registers>,
    command: Command,
) -> Result<Command, Failure>
    ensures command { S.IsKnown → Finds S.may_fail result
        (Ok (specs.command_by (specs.registers_for read cpu (opened S.bytes dump.now)) command)) }
    ensures tested { IsTested command → IfOk result IsTested }
{
    match command {
        Command::Walk { addresses, options } => {
            let options = options_by_note(alloc, dump, cpu, read, options)?;
            Ok(Command::Walk { addresses, options })
        }
        other => Ok(other),
    }
}

/// Returns what is asked of a walk, with the controls that the note of a processor tells in place of assumed ones.
fn options_by_note<S: ByteSource>(
    alloc: Global,
    dump: &Dump<S>,
    cpu: u64,
    read: Option<Registers>,
    options: WalkOptions,
) -> Result<WalkOptions, Failure>
    ensures { S.IsKnown → Finds S.may_fail result (Ok (specs.options_by options.source
        (specs.registers_for read cpu (opened S.bytes dump.now)) options)) }
{
    match options.source {
        ControlsSource::Assumed => {
            let registers = registers_for(alloc, dump, cpu, read)?;
            Ok(options_by(registers, options))
        }
        ControlsSource::Given | ControlsSource::Noted => Ok(options),
    }
}

/// Returns what is asked of a walk, with the controls that registers say if these are known.
fn options_by(registers: Option<Registers>, options: WalkOptions) -> WalkOptions
    ensures { result ≡ specs.options_by Assumed registers options }
{
    match registers {
        Some(registers) => WalkOptions {
            controls: controls_by(registers, options.controls),
            source: ControlsSource::Noted,
            ..options
        },
        None => options,
    }
}

/// Returns controls with WP, SMEP and SMAP as registers say.
#[tactic(auto, unfolding(x86_64_model::specs::Entry::has))]
fn controls_by(registers: Registers, controls: Controls) -> Controls
    ensures { result ≡ specs.controls_by registers controls }
{
    Controls {
        write_protect: registers.cr0 & WP == WP,
        smep: registers.cr4 & SMEP == SMEP,
        smap: registers.cr4 & SMAP == SMAP,
        ..controls
    }
}

/// Returns the control registers that were read, or else those that the note of a processor tells.
fn registers_for<S: ByteSource>(
    alloc: Global,
    dump: &Dump<S>,
    cpu: u64,
    read: Option<Registers>,
) -> Result<Option<Registers>, Failure>
    ensures { S.IsKnown → Finds S.may_fail result
        (Ok (specs.registers_for read cpu (opened S.bytes dump.now))) }
{
    match read {
        Some(registers) => Ok(Some(registers)),
        None => noted_registers(alloc, dump, cpu),
    }
}

/// Returns the control registers that the note of a processor tells, if there is this note and they are those of 64-bit paging.
fn noted_registers<S: ByteSource>(
    alloc: Global,
    dump: &Dump<S>,
    cpu: u64,
) -> Result<Option<Registers>, Failure>
    ensures { S.IsKnown → Finds S.may_fail result
        (Ok (specs.noted_registers cpu (opened S.bytes dump.now))) }
{
    let notes = dump.processors(alloc)?;
    registers_among(dump, &notes, cpu)
}

/// Returns the control registers that one of some notes of processors tells, if there is this one and they are those of 64-bit paging.
fn registers_among<S: ByteSource>(
    dump: &Dump<S>,
    notes: &[Note],
    cpu: u64,
) -> Result<Option<Registers>, Failure>
    ensures { S.IsKnown → Finds S.may_fail result (Ok (specs.registers_of_note
        (opened S.bytes dump.now).file (slice_get notes.now cpu))) }
{
    match notes.get(cpu as usize) {
        Some(note) => registers_in(dump, note),
        None => Ok(None),
    }
}

/// Returns the control registers that a processor's note tells, if it isn't too short and they are those of 64-bit paging.
fn registers_in<S: ByteSource>(dump: &Dump<S>, note: &Note) -> Result<Option<Registers>, Failure>
    ensures { S.IsKnown → Finds S.may_fail result
        (Ok (specs.registers_in (registers_of (opened S.bytes dump.now).file note.now))) }
{
    match Registers::read(dump, note) {
        Ok(registers) => Ok(if_paging_64(registers)),
        Err(DumpError::Fault(_)) => Ok(None),
        Err(DumpError::OutOfMemory) => Err(Failure::OutOfMemory),
        Err(DumpError::Read(error)) => Err(Failure::Read(error)),
    }
}

/// Returns control registers if they are those of 64-bit paging.
fn if_paging_64(registers: Registers) -> Option<Registers>
    ensures { result ≡ specs.registers_in (Ok registers) }
{
    match Mode::of(registers.cr0, registers.cr4) {
        Mode::Paging64 => Some(registers),
        Mode::NoPaging | Mode::Paging32 => None,
    }
}
