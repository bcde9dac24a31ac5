//! Lines on accesses. They say what a processor does with one, and by which controls.
ghost use Rattle.std.specs.Prelude.{◌≡◌, Some};
ghost use Rattle.std.specs.Fmt.{WritesOnOk};
ghost use Rattle.x86_64_access.specs.Accesses.{fault_of, outcome_of};
ghost use Rattle.x86_64_model.specs.Memory.{words_of, identity_places};
ghost use Rattle.ptdump_check.specs.Loaded.{words_loaded};
ghost use Rattle.ptdump_json.specs.Accesses as accesses;

use crate::options::ControlsSource;
use bitflags::Flags;
use ptdump_check::Loaded;
use std::fmt::{Display, Formatter, Result as FmtResult, Write};
use text::write_hexadecimal;
use x86_64_access::{Access, AccessKind, Controls, Fault, PageFaultCode, access};
use x86_64_addr::addr::{PhysAddr, VirtAddrIn};
use x86_64_addr::level_count::LevelCount;
use x86_64_page::frame::PhysFrame;
use x86_64_page::page::Size4KiB;
use x86_64_tables::phys_memory::{IdentityMapping, PhysMemory};

/// The largest number of bits of a physical address.
const PHYSICAL_BITS: u8 = 52;

/// Returns what a processor does with an access at an address, and by which controls.
pub fn access_end<L: LevelCount>(
    loaded: &Loaded<'_, L>,
    address: VirtAddrIn<L>,
    controls: Controls,
    source: ControlsSource,
    asked: Access,
) -> AccessLine
    ensures access { result.access ≡ asked }
    ensures controls { result.controls ≡ controls }
    ensures source { result.source ≡ source }
    ensures end { outcome_of result.end
        ≡ accesses.outcome_in L.LEVELS (words_loaded loaded.now) loaded.now.root address controls asked }
{
    let end = end_of(
        loaded.tables.memory(),
        loaded.root,
        address,
        controls,
        asked,
    );
    AccessLine {
        access: asked,
        controls,
        source,
        end,
    }
}

/// Returns what a processor does with an access at an address: the physical address at which it arrives, or the fault.
fn end_of<L: LevelCount>(
    memory: &PhysMemory,
    root: PhysFrame<Size4KiB>,
    address: VirtAddrIn<L>,
    controls: Controls,
    asked: Access,
) -> Result<PhysAddr, Fault>
    ensures { outcome_of result
        ≡ accesses.outcome_in L.LEVELS (words_of memory.now identity_places) root address controls asked }
{
    let limits = limited(controls);
    access(memory, &IdentityMapping, root, address, asked, &limits)
}

/// Returns settings with at most 52 bits of physical addresses. Entries have no higher address bits, so accesses are the same.
pub fn limited(controls: Controls) -> Controls
    ensures { result ≡ accesses.limited controls }
{
    Controls {
        physical_bits: controls.physical_bits.min(PHYSICAL_BITS),
        ..controls
    }
}

/// An access, what a processor does with it, and the controls that decide it, as text.
#[derive(Clone, Copy)]
pub struct AccessLine {
    /// The access.
    pub access: Access,
    /// What the processor is set to.
    pub controls: Controls,
    /// What says so.
    pub source: ControlsSource,
    /// The physical address at which it arrives, or the fault.
    pub end: Result<PhysAddr, Fault>,
}

impl Display for AccessLine {
    ghost output = { λ line. Some (
        accesses.access_text line.access line.controls line.source (outcome_of line.end)) };

    fn fmt<W: Write>(&self, f: &mut Formatter<W>) -> FmtResult {
        f.write_str(access_name(self.access))?;
        write_end(f, self.end)?;
        write_controls(f, self.controls, self.source)
    }
}

/// Returns the name of an access.
pub fn access_name(access: Access) -> &'static str
    ensures { result.now ≡ accesses.access_name access }
{
    match (access.user, access.kind) {
        (true, AccessKind::Read) => "user-read",
        (true, AccessKind::Write) => "user-write",
        (true, AccessKind::Fetch) => "user-fetch",
        (false, AccessKind::Read) => "supervisor-read",
        (false, AccessKind::Write) => "supervisor-write",
        (false, AccessKind::Fetch) => "supervisor-fetch",
    }
}

/// Writes what a processor does with an access.
fn write_end<W: Write>(f: &mut Formatter<W>, end: Result<PhysAddr, Fault>) -> FmtResult
    ensures { WritesOnOk W.write_str_gives f.old result (accesses.outcome_text (outcome_of end)) f.new }
{
    match end {
        Ok(address) => {
            f.write_str(" arrives at ")?;
            write_hexadecimal(f, address.as_u64())
        }
        Err(fault) => write_fault(f, fault),
    }
}

/// Writes why an access doesn't arrive.
fn write_fault<W: Write>(f: &mut Formatter<W>, fault: Fault) -> FmtResult
    ensures { WritesOnOk W.write_str_gives f.old result (accesses.outcome_text (fault_of fault)) f.new }
{
    match fault {
        Fault::PageFault { code, level } => {
            write!(f, " faults at level {level}, code ")?;
            write_code(f, code)
        }
        Fault::NoMemory { frame } => {
            f.write_str(" needs the table at ")?;
            write_hexadecimal(f, frame.start_address().as_u64())?;
            f.write_str(", which the dump lacks")
        }
    }
}

/// Writes the error code of a page fault, with the names of its bits.
#[tactic(auto, unfolding(crate::specs::Accesses::code_text))]
fn write_code<W: Write>(f: &mut Formatter<W>, code: PageFaultCode) -> FmtResult
    ensures { WritesOnOk W.write_str_gives f.old result (accesses.code_text code.0) f.new }
{
    let code = code.bits();
    write_hexadecimal(f, code)?;
    write_bit(f, code, 0x1, ", present")?;
    write_bit(f, code, 0x2, ", write")?;
    write_bit(f, code, 0x4, ", user")?;
    write_bit(f, code, 0x8, ", reserved bit")?;
    write_bit(f, code, 0x10, ", fetch")
}

/// Writes a text if a code has a bit.
#[tactic(auto, unfolding(crate::specs::Accesses::bit_text))]
fn write_bit<W: Write>(f: &mut Formatter<W>, code: u64, bit: u64, text: &'static str) -> FmtResult
    ensures { WritesOnOk W.write_str_gives f.old result (accesses.bit_text code bit text.now) f.new }
{
    f.write_str(if code & bit != 0 { text } else { "" })
}

/// Writes the controls of a processor, and what says them.
#[tactic(auto, unfolding(crate::specs::Accesses::controls_text))]
fn write_controls<W: Write>(
    f: &mut Formatter<W>,
    controls: Controls,
    source: ControlsSource,
) -> FmtResult
    ensures { WritesOnOk W.write_str_gives f.old result (accesses.controls_text controls source) f.new }
{
    write_source(f, source)?;
    write_notable(f, controls)?;
    f.write_str(between(source))?;
    write_others(f, controls)?;
    f.write_str(")")
}

/// Writes what says the controls.
#[tactic(auto, unfolding(crate::specs::Accesses::controls_source_text))]
fn write_source<W: Write>(f: &mut Formatter<W>, source: ControlsSource) -> FmtResult
    ensures { WritesOnOk W.write_str_gives f.old result (accesses.controls_source_text source) f.new }
{
    f.write_str(" (")?;
    f.write_str(source.name())?;
    f.write_str(":")
}

/// Writes the controls that a processor's note may tell.
#[tactic(auto, unfolding(crate::specs::Accesses::notable_text))]
fn write_notable<W: Write>(f: &mut Formatter<W>, controls: Controls) -> FmtResult
    ensures { WritesOnOk W.write_str_gives f.old result (accesses.notable_text controls) f.new }
{
    write_control(f, controls.write_protect, "wp")?;
    write_control(f, controls.smep, "smep")?;
    write_control(f, controls.smap, "smap")
}

/// Writes the controls that no note tells.
#[tactic(auto, unfolding(crate::specs::Accesses::other_text))]
fn write_others<W: Write>(f: &mut Formatter<W>, controls: Controls) -> FmtResult
    ensures { WritesOnOk W.write_str_gives f.old result (accesses.other_text controls) f.new }
{
    write_control(f, controls.no_execute, "nxe")?;
    write_control(f, controls.ac, "ac")
}

/// Returns what stands between the controls that a note may tell and the others.
fn between(source: ControlsSource) -> &'static str
    ensures { result.now ≡ accesses.between_text source }
{
    match source {
        ControlsSource::Noted => ", assumed:",
        ControlsSource::Given | ControlsSource::Assumed => "",
    }
}

/// Writes the name of a control, behind `+` if it is on, and `-` if it is off.
#[tactic(auto, unfolding(crate::specs::Accesses::control_text))]
fn write_control<W: Write>(f: &mut Formatter<W>, is_on: bool, name: &'static str) -> FmtResult
    ensures { WritesOnOk W.write_str_gives f.old result (accesses.control_text is_on name.now) f.new }
{
    f.write_str(if is_on { " +" } else { " -" })?;
    f.write_str(name)
}
