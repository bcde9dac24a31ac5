//! The start of page walks.
ghost use Rattle.std.specs.Prelude.{◌≡◌};
ghost use Rattle.x86_64_dump.specs.Notes.{processors_of};
ghost use Rattle.x86_64_dump.specs.Opened.{opened};
ghost use Rattle.x86_64_model.specs.Entry.{address};
ghost use Rattle.ptdump_engine.specs.Start as starts;
ghost use Rattle.ptdump_engine.specs.Steps.{Finds};

use crate::failure::Failure;
use crate::request::{Levels, Request};
use ptdump_json::{Mode, Origin, Registers, Start, levels_by};
use std::alloc::Global;
use x86_64_addr::addr::PhysAddr;
use x86_64_dump::{ByteSource, Dump, Note};
use x86_64_page::frame::PhysFrame;
use x86_64_page::page::Size4KiB;

/// The bits of CR3 that are the address of the root's table.
const ROOT_MASK: u64 = 0x000f_ffff_ffff_f000;

/// Determines the start of page walks from the request, a processor's note, or VMCOREINFO.
///
/// # Errors
///
/// `Failure::NoCr3` or `Failure::VirtualBox` if neither the request nor a note says where the root is, `Failure::NoProcessor` if
/// the note of a processor is needed and the file has such notes but not this one, `Failure::Dump` if a note is too short or
/// doesn't say it, `Failure::WrongMode` if the CR3 is needed of a processor that isn't in 64-bit paging.
#[tactic(auto, unfolding(crate::specs::Start::start_of))]
pub fn start_of<S: ByteSource>(
    alloc: Global,
    dump: &Dump<S>,
    request: &Request,
) -> Result<Start, Failure>
    ensures { S.IsKnown → Finds S.may_fail result (starts.start_of request.now (opened S.bytes dump.now)) }
{
    let note = needed_note(alloc, dump, request)?;
    start_with(alloc, dump, request, note)
}

/// Returns the start at the CR3 of the request, or else of a processor, or else at the kernel's root.
fn start_with<S: ByteSource>(
    alloc: Global,
    dump: &Dump<S>,
    request: &Request,
    note: Option<Note>,
) -> Result<Start, Failure>
    ensures { S.IsKnown → Finds S.may_fail result
        (starts.start_with request.now (opened S.bytes dump.now) request.now.cr3 note) }
{
    match (request.cr3, note) {
        (Some(cr3), note) => {
            let levels = levels_of(dump, request.levels, note)?;
            Ok(start_by_request(cr3, levels))
        }
        (None, Some(note)) => {
            let registers = paging_registers(dump, request.cpu.unwrap_or(0), &note)?;
            Ok(start_by_processor(request.levels, registers))
        }
        (None, None) => kernel_start(alloc, dump, request.levels),
    }
}

/// Returns the start at the root of a CR3 that the request gives.
fn start_by_request(cr3: u64, levels: Levels) -> Start
    ensures { result ≡ starts.start_by_request cr3 levels }
{
    Start {
        root: root_of(cr3),
        levels,
        origin: Origin::ByRequest,
        noted_levels: None,
        registers: None,
    }
}

/// Returns the start at the root of a processor. Levels that are given go before those that CR4 says.
pub fn start_by_processor(given: Option<Levels>, registers: Registers) -> Start
    ensures { result ≡ starts.start_by_processor given registers }
{
    let noted = levels_by(registers.cr4);
    Start {
        root: root_of(registers.cr3),
        levels: given.unwrap_or(noted),
        origin: Origin::ByProcessor,
        noted_levels: Some(noted),
        registers: Some(registers),
    }
}

/// Returns the start at the kernel's root, by Linux's VMCOREINFO.
#[tactic(auto, unfolding(crate::specs::Start::kernel_start))]
fn kernel_start<S: ByteSource>(
    alloc: Global,
    dump: &Dump<S>,
    levels: Option<Levels>,
) -> Result<Start, Failure>
    ensures { S.IsKnown → Finds S.may_fail result (starts.kernel_start (opened S.bytes dump.now) levels) }
{
    if let Some(kernel) = dump.kernel(alloc)? {
        return Ok(Start {
            root: kernel.root,
            levels: levels.unwrap_or(kernel.levels),
            origin: origin_of(dump),
            noted_levels: Some(kernel.levels),
            registers: None,
        });
    }
    if dump.is_of_virtualbox(alloc)? {
        Err(Failure::VirtualBox)
    } else {
        Err(Failure::NoCr3)
    }
}

/// Returns what says where the kernel's root is: the first of the texts in memory, or if there are none the note.
fn origin_of<S: ByteSource>(dump: &Dump<S>) -> Origin
    ensures { result ≡ starts.origin_of (opened S.bytes dump.now) }
{
    match dump.texts().first() {
        Some(text) => Origin::ByText(text.offset),
        None => Origin::ByKernel,
    }
}

/// Finds the note of the requested processor, if it is needed.
fn needed_note<S: ByteSource>(
    alloc: Global,
    dump: &Dump<S>,
    request: &Request,
) -> Result<Option<Note>, Failure>
    ensures { S.IsKnown → Finds S.may_fail result (starts.note_needed request.now (opened S.bytes dump.now)) }
{
    let is_stated = request.cr3.is_some() && request.levels.is_some();
    if is_stated || request.vmcoreinfo.is_some() {
        return Ok(None);
    }
    let notes = dump.processors(alloc)?;
    note_of(&notes, request.cpu.unwrap_or(0))
}

/// Returns the note of a processor, or `None` if there are no notes at all.
fn note_of(notes: &[Note], cpu: u64) -> Result<Option<Note>, Failure>
    ensures { result ≡ starts.note_of cpu notes.now }
{
    if notes.is_empty() {
        return Ok(None);
    }
    let count = notes.len();
    match notes.get(cpu as usize) {
        Some(note) => Ok(Some(*note)),
        None => Err(Failure::NoProcessor { cpu, count }),
    }
}

/// Reads the control registers of a processor in 64-bit paging from its note.
#[tactic(auto, unfolding(crate::specs::Start::paging_registers))]
fn paging_registers<S: ByteSource>(
    dump: &Dump<S>,
    cpu: u64,
    note: &Note,
) -> Result<Registers, Failure>
    ensures { S.IsKnown → Finds S.may_fail result
        (starts.paging_registers (opened S.bytes dump.now).file cpu note.now) }
{
    let registers = Registers::read(dump, note)?;
    match Mode::of(registers.cr0, registers.cr4) {
        Mode::Paging64 => Ok(registers),
        mode => Err(Failure::WrongMode { cpu, mode }),
    }
}

/// Returns the levels of the request, or reads their number from a note.
fn levels_of<S: ByteSource>(
    dump: &Dump<S>,
    given: Option<Levels>,
    note: Option<Note>,
) -> Result<Levels, Failure>
    ensures { S.IsKnown → Finds S.may_fail result
        (starts.levels_in_file (opened S.bytes dump.now).file given note) }
{
    match (given, note) {
        (Some(levels), _) => Ok(levels),
        (None, Some(note)) => Ok(levels_by(dump.cr4(&note)?)),
        (None, None) => Ok(Levels::Four),
    }
}

/// Returns the frame of the root for a CR3.
#[tactic(auto, using(x86_64_model::proofs::Lemmas::Entries::Words::address_aligned), unfolding(x86_64_model::specs::Entry::address))]
fn root_of(cr3: u64) -> PhysFrame<Size4KiB>
    ensures { result ≡ address cr3 }
{
    PhysFrame::from_start_address_unchecked(PhysAddr::new(cr3 & ROOT_MASK))
}
