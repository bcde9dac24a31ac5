//! What a dump says of its machine, as values.
ghost use Rattle.std.specs.Prelude.{◌≡◌, Some, string_bytes};
ghost use Rattle.std.specs.Fmt.{WritesOnOk};
ghost use Rattle.ptdump_json.specs.InfoTexts as texts;

use crate::registers::{Registers, levels_name};
use crate::start::{Origin, Start};
use std::fmt::{Display, Formatter, Result as FmtResult, Write};
use text::{write_hexadecimal, write_size};
use x86_64_addr::level_count::Levels;
use x86_64_dump::{Format, Kernel, KernelText};
use x86_64_page::frame::PhysFrame;
use x86_64_page::page::Size4KiB;

/// The format of a dump.
#[derive(Clone, Copy)]
pub struct DumpFormat(pub Format);

impl Display for DumpFormat {
    ghost output = { λ format. Some (texts.format_text format.0) };

    fn fmt<W: Write>(&self, f: &mut Formatter<W>) -> FmtResult {
        let name = self.0.name();
        write!(f, "format: {name}")
    }
}

/// A range of physical memory.
#[derive(Clone, Copy)]
pub struct MemoryRange {
    /// Its first address.
    pub first: u64,
    /// Its last address.
    pub last: u64,
    /// The number of its bytes.
    pub size: u64,
}

impl Display for MemoryRange {
    ghost output = { λ range. Some (texts.memory_text range.first range.last range.size) };

    #[tactic(auto, unfolding(crate::specs::InfoTexts::memory_text))]
    fn fmt<W: Write>(&self, f: &mut Formatter<W>) -> FmtResult {
        f.write_str("memory ")?;
        write_hexadecimal(f, self.first)?;
        f.write_str("-")?;
        write_hexadecimal(f, self.last)?;
        f.write_str(" ")?;
        write_size(f, self.size)
    }
}

/// Memory without a physical address, as in Linux's /proc/kcore.
#[derive(Clone, Copy)]
pub struct UnplacedMemory {
    /// The number of its bytes.
    pub size: u64,
}

impl Display for UnplacedMemory {
    ghost output = { λ memory. Some (texts.unplaced_text memory.size) };

    fn fmt<W: Write>(&self, f: &mut Formatter<W>) -> FmtResult {
        f.write_str("memory without a physical address ")?;
        write_size(f, self.size)
    }
}

/// A processor.
#[derive(Clone, Copy)]
pub struct Processor {
    /// Its number, in the order of the notes.
    pub cpu: usize,
    /// Its control registers, if its note has them all.
    pub registers: Option<Registers>,
}

impl Processor {
    /// Why the registers of a processor aren't known.
    pub const CUT: &'static str = "its note ends before CR4 does";
}

impl Display for Processor {
    ghost output = { λ processor. Some (texts.processor_text processor.cpu processor.registers) };

    fn fmt<W: Write>(&self, f: &mut Formatter<W>) -> FmtResult {
        let cpu = self.cpu;
        write!(f, "processor {cpu}: ")?;
        match self.registers {
            Some(registers) => write!(f, "{registers}"),
            None => f.write_str(Processor::CUT),
        }
    }
}

/// A root as text, with the number of levels.
#[derive(Clone, Copy)]
struct Place {
    root: PhysFrame<Size4KiB>,
    levels: Levels,
}

impl Display for Place {
    ghost output = { λ place. Some (texts.root_place_text place.root place.levels) };

    #[tactic(auto, unfolding(crate::specs::InfoTexts::root_place_text))]
    fn fmt<W: Write>(&self, f: &mut Formatter<W>) -> FmtResult {
        write_hexadecimal(f, self.root.start_address().as_u64())?;
        let levels = levels_name(self.levels);
        write!(f, ", {levels}")
    }
}

/// The root of the kernel's own page tables, as VMCOREINFO says it.
#[derive(Clone, Copy)]
pub struct KernelRoot(pub Kernel);

impl Display for KernelRoot {
    ghost output = { λ kernel. Some (texts.kernel_text kernel.0) };

    fn fmt<W: Write>(&self, f: &mut Formatter<W>) -> FmtResult {
        let place = Place {
            root: self.0.root,
            levels: self.0.levels,
        };
        write!(f, "kernel (VMCOREINFO): root {place}")?;
        write_mask(f, self.0.encryption_mask)
    }
}

/// What a text of VMCOREINFO in memory says.
#[derive(Clone, Copy)]
pub struct ToldText(pub KernelText);

impl Display for ToldText {
    ghost output = { λ told. Some (texts.text_told told.0) };

    #[tactic(auto, unfolding(crate::specs::InfoTexts::text_told))]
    fn fmt<W: Write>(&self, f: &mut Formatter<W>) -> FmtResult {
        let KernelText { offset, kernel } = self.0;
        write_text_place(f, offset)?;
        let place = Place {
            root: kernel.root,
            levels: kernel.levels,
        };
        write!(f, "{place}")?;
        write_mask(f, kernel.encryption_mask)
    }
}

/// Writes where a text of VMCOREINFO begins.
#[tactic(auto, unfolding(crate::specs::InfoTexts::text_place))]
fn write_text_place<W: Write>(f: &mut Formatter<W>, offset: u64) -> FmtResult
    ensures { WritesOnOk W.write_str_gives f.old result (texts.text_place offset) f.new }
{
    write!(f, "VMCOREINFO at byte {offset} of the file: root ")
}

/// Writes the bits by which the kernel marks encrypted memory, if there are such bits.
fn write_mask<W: Write>(f: &mut Formatter<W>, mask: u64) -> FmtResult
    ensures { WritesOnOk W.write_str_gives f.old result (texts.mask_text mask) f.new }
{
    if mask == 0 {
        return Ok(());
    }
    write!(f, ", encryption mask 0x{mask:x}")
}

/// Why VMCOREINFO doesn't say where the kernel's root is.
#[derive(Drop)]
pub struct NoKernelRoot {
    /// The reason.
    pub error: String,
}

impl Display for NoKernelRoot {
    ghost output = { λ kernel. Some (texts.no_kernel_text (string_bytes kernel.error)) };

    fn fmt<W: Write>(&self, f: &mut Formatter<W>) -> FmtResult {
        let error = &self.error;
        write!(f, "kernel (VMCOREINFO): {error}")
    }
}

/// What says where a root is, as text.
#[derive(Clone, Copy)]
struct Source {
    origin: Origin,
    cpu: u64,
}

impl Display for Source {
    ghost output = { λ source. Some (texts.origin_text source.cpu source.origin) };

    fn fmt<W: Write>(&self, f: &mut Formatter<W>) -> FmtResult {
        match self.origin {
            Origin::ByRequest => f.write_str("as --cr3 says"),
            Origin::ByProcessor => {
                let cpu = self.cpu;
                write!(f, "of processor {cpu}")
            }
            Origin::ByKernel => f.write_str("of the kernel"),
            Origin::ByText(offset) => {
                write!(f, "of the kernel, as the text at byte {offset} says")
            }
        }
    }
}

/// The start of page walks.
#[derive(Clone, Copy)]
pub struct Root {
    /// The start.
    pub start: Start,
    /// The processor that is requested.
    pub cpu: u64,
}

impl Display for Root {
    ghost output = { λ root. Some (texts.root_text root.cpu root.start) };

    fn fmt<W: Write>(&self, f: &mut Formatter<W>) -> FmtResult {
        let place = Place {
            root: self.start.root,
            levels: self.start.levels,
        };
        let source = Source {
            origin: self.start.origin,
            cpu: self.cpu,
        };
        write!(f, "root: {place}, {source}")
    }
}

/// Why no root is found.
#[derive(Drop)]
pub struct NoRoot {
    /// The reason.
    pub error: String,
}

impl Display for NoRoot {
    ghost output = { λ root. Some (texts.no_root_text (string_bytes root.error)) };

    fn fmt<W: Write>(&self, f: &mut Formatter<W>) -> FmtResult {
        let error = &self.error;
        write!(f, "root: none: {error}")
    }
}
