//! The control registers of processors.
ghost use Rattle.std.specs.Prelude.{◌≡◌, Some};
ghost use Rattle.std.specs.Fmt.{WritesOnOk};
ghost use Rattle.x86_64_dump.specs.Opened.{opened};
ghost use Rattle.x86_64_dump.specs.Opening.{GivesAtOnce};
ghost use Rattle.ptdump_json.specs.InfoTexts as texts;
ghost use Rattle.ptdump_json.specs.Paging as paging;

use crate::mode::Mode;
use std::fmt::{Display, Formatter, Result as FmtResult, Write};
use text::write_hexadecimal;
use x86_64_addr::level_count::Levels;
use x86_64_dump::{ByteSource, Dump, DumpError, Note};

/// The bit of CR4 that enables five levels of tables.
const LA57: u64 = 0x1000;

/// The control registers of a processor that say how it pages.
#[derive(Clone, Copy)]
pub struct Registers {
    /// CR0.
    pub cr0: u64,
    /// CR3.
    pub cr3: u64,
    /// CR4.
    pub cr4: u64,
}

impl Registers {
    /// Reads the control registers of a processor from its note.
    ///
    /// # Errors
    ///
    /// `Fault::NoteCut` if the note, or the file, ends before one of them does, `DumpError::Read` if a read fails.
    #[tactic(auto, unfolding(crate::specs::Paging::registers_of))]
    pub fn read<S: ByteSource>(dump: &Dump<S>, note: &Note) -> Result<Registers, DumpError>
        ensures { S.IsKnown → GivesAtOnce S.may_fail (λ registers. registers) result
            (paging.registers_of (opened S.bytes dump.now).file note.now) }
    {
        let cr3 = dump.cr3(note)?;
        let cr0 = dump.cr0(note)?;
        let cr4 = dump.cr4(note)?;
        Ok(Registers { cr0, cr3, cr4 })
    }
}

impl Display for Registers {
    ghost output = { λ registers. Some (texts.registers_text registers) };

    #[tactic(auto, unfolding(crate::specs::InfoTexts::registers_text))]
    fn fmt<W: Write>(&self, f: &mut Formatter<W>) -> FmtResult {
        write_values(f, *self)?;
        f.write_str(", ")?;
        write_paging(f, Mode::of(self.cr0, self.cr4), self.cr4)
    }
}

/// Writes the names and the values of registers.
#[tactic(auto, unfolding(crate::specs::InfoTexts::values_text))]
fn write_values<W: Write>(f: &mut Formatter<W>, registers: Registers) -> FmtResult
    ensures { WritesOnOk W.write_str_gives f.old result (texts.values_text registers) f.new }
{
    write_register(f, "CR0", registers.cr0)?;
    f.write_str(", ")?;
    write_register(f, "CR3", registers.cr3)?;
    f.write_str(", ")?;
    write_register(f, "CR4", registers.cr4)
}

/// Writes the name and the value of a register.
#[tactic(auto, unfolding(crate::specs::InfoTexts::register_text))]
fn write_register<W: Write>(f: &mut Formatter<W>, name: &'static str, value: u64) -> FmtResult
    ensures { WritesOnOk W.write_str_gives f.old result (texts.register_text name.now value) f.new }
{
    write!(f, "{name} ")?;
    write_hexadecimal(f, value)
}

/// Writes a mode of paging, and for 64 bits how many levels CR4 says.
fn write_paging<W: Write>(f: &mut Formatter<W>, mode: Mode, cr4: u64) -> FmtResult
    ensures { WritesOnOk W.write_str_gives f.old result (texts.paging_text cr4 mode) f.new }
{
    let name = mode.name();
    match mode {
        Mode::NoPaging | Mode::Paging32 => f.write_str(name),
        Mode::Paging64 => {
            let levels = levels_name(levels_by(cr4));
            write!(f, "{name}, {levels}")
        }
    }
}

/// Returns a number of levels as text.
pub fn levels_name(levels: Levels) -> &'static str
    ensures { result.now ≡ texts.levels_text levels }
{
    match levels {
        Levels::Four => "4 levels",
        Levels::Five => "5 levels",
    }
}

/// Returns a number of levels.
pub fn level_count(levels: Levels) -> u64
    ensures { result ≡ paging.level_count levels }
{
    match levels {
        Levels::Four => 4,
        Levels::Five => 5,
    }
}

/// Returns the number of levels for a CR4.
#[tactic(auto, unfolding(x86_64_model::specs::Entry::has))]
pub fn levels_by(cr4: u64) -> Levels
    ensures { result ≡ paging.levels_by_cr4 cr4 }
{
    if cr4 & LA57 == LA57 {
        Levels::Five
    } else {
        Levels::Four
    }
}
