//! Findings in page tables that were read from a dump.
ghost use Rattle.std.specs.Prelude.{◌≡◌, ◌≤◌, ◌||◌, false, nat_lt, not, None, Some};
ghost use Rattle.std.specs.Fmt.{WritesOnOk};
ghost use Rattle.x86_64_model.specs.Memory.{identity_places, words_of};
ghost use Rattle.ptdump_check.specs.FindingTexts.{at_text, for_user_text};
ghost use Rattle.ptdump_check.specs.Findings.{HasBits};

use crate::findings::entry::{Entry, HIGHEST_OF_PAGES, Slot};
use crate::findings::names::Name;
use std::fmt::{Display, Formatter, Result as FmtResult, Write};
use text::write_hexadecimal;
use x86_64_access::Controls;
use x86_64_page::frame::PhysFrame;
use x86_64_page::page::Size4KiB;
use x86_64_tables::page_table::PageTableEntry;
use x86_64_tables::phys_memory::{IdentityMapping, PhysMemory, table_in};

/// The level of the tables whose entries only map pages of 4KiB.
const LEVEL_ONE: u64 = 1;

/// The number of bits of the addresses that entries can hold.
const ADDRESS_BITS: u8 = 52;

/// A problem in page tables.
#[derive(Clone, Copy)]
pub enum Finding {
    /// A frame is named as a table more than once.
    NamedOften {
        /// The frame.
        frame: PhysFrame<Size4KiB>,
        /// The number of entries that name it, and one more for the root.
        count: usize,
    },
    /// An entry names a table that the dump lacks.
    NotInDump {
        /// The frame of the table.
        frame: PhysFrame<Size4KiB>,
        /// The slot of the entry.
        by: Slot,
    },
    /// An entry above level three has `HUGE_PAGE`.
    HugePage {
        /// The slot of the entry.
        slot: Slot,
        /// The level of its table.
        level: u64,
    },
    /// An entry has other reserved bits.
    ReservedBits(Entry),
    /// User code can write to a table.
    WritableForUser {
        /// The frame of the table.
        frame: PhysFrame<Size4KiB>,
        /// The first virtual address of the table in the first mapping through which user code can write to it.
        at: u64,
    },
    /// User code can access a table, but can't write to it.
    MappedForUser {
        /// The frame of the table.
        frame: PhysFrame<Size4KiB>,
        /// The first virtual address of the table in the first mapping for user code that leads to it.
        at: u64,
    },
    /// Code can write to a table through a mapping that doesn't lie in the direct map.
    WritableOutside {
        /// The frame of the table.
        frame: PhysFrame<Size4KiB>,
        /// The virtual address of the table in the first writable mapping that leads to it and doesn't lie in the direct map.
        at: u64,
    },
}

/// A flaw of an entry.
#[derive(Clone, Copy)]
pub enum EntryFlaw {
    /// `HUGE_PAGE` above level three.
    HugePage,
    /// Other reserved bits, for a processor with these settings.
    ReservedBits(Controls),
}

impl EntryFlaw {
    ghost use Rattle.ptdump_check.specs.Findings.{flaw_in};
    ghost use Rattle.ptdump_check.specs.declared.findings.entry.Entry.{Entry};

    /// Returns true if an entry of a level may have the flaw. If it returns false, none has, whatever its word.
    pub fn may_be_at(self, level: u64) -> bool
        ensures { result ≡ false → (entry : Entry) → entry.level ≡ level → flaw_in self entry ≡ None }
    {
        match self {
            EntryFlaw::HugePage => level > HIGHEST_OF_PAGES,
            EntryFlaw::ReservedBits(controls) => level > LEVEL_ONE || is_limited(&controls),
        }
    }
}

/// Returns true if a processor lacks address bits that entries can hold, or `NO_EXECUTE` is off.
fn is_limited(controls: &Controls) -> bool
    ensures { result ≡ (nat_lt controls.now.physical_bits 52 || not controls.now.no_execute) }
{
    controls.physical_bits < ADDRESS_BITS || !controls.no_execute
}

impl Finding {
    ghost use Rattle.ptdump_check.specs.Findings as findings;
    ghost use Rattle.ptdump_check.specs.ReachedTables.{reached_at};
    ghost use Rattle.ptdump_check.specs.WritableTables.{writable_at};

    /// Returns the finding of a frame that is named as a table so many times, if that is more than once.
    pub fn of_frame(frame: PhysFrame<Size4KiB>, count: usize) -> Option<Finding>
        ensures { result ≡ findings.often frame count }
    {
        if count > 1 {
            Some(Finding::NamedOften { frame, count })
        } else {
            None
        }
    }

    /// Returns the finding of a name, if the memory lacks the table.
    pub fn of_name(memory: &PhysMemory, name: &Name) -> Option<Finding>
        ensures { result ≡ findings.missing (words_of memory.now identity_places) name.now }
    {
        if table_in(memory, &IdentityMapping, name.frame).is_some() {
            return None;
        }
        Some(Finding::NotInDump {
            frame: name.frame,
            by: name.by,
        })
    }

    /// Returns the finding of an entry, if it has `PRESENT` and a flaw.
    ///
    /// Requires at most 52 bits of physical addresses.
    pub fn of_entry(flaw: EntryFlaw, entry: &Entry) -> Option<Finding>
        requires { HasBits flaw }
        ensures { result ≡ findings.flaw_in flaw entry.now }
    {
        match flaw {
            EntryFlaw::HugePage => Finding::of_huge_page(entry),
            EntryFlaw::ReservedBits(controls) => Finding::of_reserved_bits(&controls, entry),
        }
    }

    /// Returns the finding of a frame's table, given at which virtual address user code can write to it, and at which it can
    /// access it, if there are such.
    pub fn of_reached(
        frame: PhysFrame<Size4KiB>,
        writable: Option<u64>,
        mapped: Option<u64>,
    ) -> Option<Finding>
        ensures { result ≡ reached_at frame writable mapped }
    {
        match (writable, mapped) {
            (Some(at), _) => Some(Finding::WritableForUser { frame, at }),
            (None, Some(at)) => Some(Finding::MappedForUser { frame, at }),
            (None, None) => None,
        }
    }

    /// Returns the finding of a frame's table, given at which virtual address it is writable outside the direct map, if there is one.
    pub fn of_writable(frame: PhysFrame<Size4KiB>, address: Option<u64>) -> Option<Finding>
        ensures { result ≡ writable_at frame address }
    {
        address.map(|at| Finding::WritableOutside { frame, at })
    }

    /// Returns the finding of an entry, if it has `PRESENT` and `HUGE_PAGE` above level three.
    fn of_huge_page(entry: &Entry) -> Option<Finding>
        ensures { result ≡ findings.huge_page entry.now }
    {
        if entry.is_present() && entry.is_huge_above() {
            Some(Finding::HugePage {
                slot: entry.slot,
                level: entry.level,
            })
        } else {
            None
        }
    }

    /// Returns the finding of an entry, if it has `PRESENT` and a reserved bit, and not `HUGE_PAGE` above level three.
    fn of_reserved_bits(controls: &Controls, entry: &Entry) -> Option<Finding>
        requires { controls.now.physical_bits ≤ 52 }
        ensures { result ≡ findings.reserved_bits controls.now entry.now }
    {
        let word = PageTableEntry::from_word(entry.word);
        let is_reserved = controls.is_reserved(entry.level, &word);
        if entry.is_present() && !entry.is_huge_above() && is_reserved {
            Some(Finding::ReservedBits(*entry))
        } else {
            None
        }
    }
}

impl Display for Finding {
    ghost use Rattle.ptdump_check.specs.FindingTexts.{finding_text};

    ghost output = { λ finding. Some (finding_text finding) };

    fn fmt<W: Write>(&self, f: &mut Formatter<W>) -> FmtResult {
        match self {
            Finding::NamedOften { frame, count } => {
                let address = frame.start_address().as_u64();
                write!(f, "table 0x{address:x} named {count} times")
            }
            Finding::NotInDump { frame, by } => {
                let address = frame.start_address().as_u64();
                write!(f, "table 0x{address:x} not in the dump")?;
                write!(f, ", named by {by}")
            }
            Finding::HugePage { slot, level } => write!(f, "HUGE_PAGE at level {level} in {slot}"),
            Finding::ReservedBits(entry) => {
                let level = entry.level;
                write!(f, "reserved bits at level {level} in {entry}")
            }
            Finding::WritableForUser { frame, at } => {
                let address = frame.start_address().as_u64();
                write!(f, "table 0x{address:x} is mapped writable")?;
                write_for_user(f, *at)
            }
            Finding::MappedForUser { frame, at } => {
                let address = frame.start_address().as_u64();
                write!(f, "table 0x{address:x} is mapped")?;
                write_for_user(f, *at)
            }
            Finding::WritableOutside { frame, at } => {
                let address = frame.start_address().as_u64();
                write!(f, "table 0x{address:x} is mapped writable")?;
                write_at(f, *at)
            }
        }
    }
}

/// Writes where a table is mapped.
fn write_at<W: Write>(f: &mut Formatter<W>, at: u64) -> FmtResult
    ensures { WritesOnOk W.write_str_gives f.old result (at_text at) f.new }
{
    f.write_str(" at ")?;
    write_hexadecimal(f, at)
}

/// Writes for whom a table is mapped, and where.
fn write_for_user<W: Write>(f: &mut Formatter<W>, at: u64) -> FmtResult
    ensures { WritesOnOk W.write_str_gives f.old result (for_user_text at) f.new }
{
    f.write_str(" for user at ")?;
    write_hexadecimal(f, at)
}
