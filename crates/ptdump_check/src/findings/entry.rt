//! Page table entries and their slots.
ghost use Rattle.std.specs.Prelude.{◌≡◌, ◌&&◌, nat_lt, Some};
ghost use Rattle.x86_64_model.specs.Entry.{present, huge, address, flags};

use std::fmt::{Display, Formatter, Result as FmtResult, Write};
use x86_64_addr::addr::PhysAddr;
use x86_64_page::frame::PhysFrame;
use x86_64_page::page::Size4KiB;

/// The bits of an entry that are an address.
const ADDRESS_MASK: u64 = 0x000f_ffff_ffff_f000;

/// The bits of an entry that are flags.
const FLAGS_MASK: u64 = 0xfff0_0000_0000_0fff;

/// The highest level at which an entry may map a page.
pub const HIGHEST_OF_PAGES: u64 = 3;

/// A table: its frame and its level.
#[derive(Clone, Copy)]
pub struct Table {
    /// The frame of the table.
    pub frame: PhysFrame<Size4KiB>,
    /// The level, counted from 1 for the tables whose entries map pages of 4KiB.
    pub level: u64,
}

/// The slot of an entry: a table and an index. Slots are ordered as they are in memory.
#[derive(Clone, Copy, PartialEq, Eq, PartialOrd, Ord)]
pub struct Slot {
    /// The frame of the table.
    pub table: PhysFrame<Size4KiB>,
    /// The index in the table.
    pub index: usize,
}

impl Display for Slot {
    ghost use Rattle.ptdump_check.specs.FindingTexts.{slot_text};

    ghost output = { λ slot. Some (slot_text slot) };

    fn fmt<W: Write>(&self, f: &mut Formatter<W>) -> FmtResult {
        let table = self.table.start_address().as_u64();
        let index = self.index;
        write!(f, "0x{table:x}[{index}]")
    }
}

/// The word of an entry, with its slot.
#[derive(Clone, Copy)]
pub struct Entry {
    /// The slot of the entry.
    pub slot: Slot,
    /// The level of its table.
    pub level: u64,
    /// Its word.
    pub word: u64,
}

impl Entry {
    ghost use Rattle.ptdump_check.specs.Entries as entries;

    /// Creates the entry at an index of a table.
    pub fn new(table: &Table, index: usize, word: u64) -> Entry
        ensures { result ≡ record {
          slot = record { table = table.now.frame; index = index };
          level = table.now.level;
          word = word;
        } }
    {
        Entry {
            slot: Slot {
                table: table.frame,
                index,
            },
            level: table.level,
            word,
        }
    }

    /// Returns true if the entry has `PRESENT`.
    #[tactic(auto, unfolding(x86_64_model::specs::Entry::has))]
    pub fn is_present(&self) -> bool
        ensures { result ≡ present self.now.word }
    {
        self.word & 0x1 == 0x1
    }

    /// Returns true if the entry has `HUGE_PAGE`, whatever its level.
    #[tactic(auto, unfolding(x86_64_model::specs::Entry::has))]
    pub fn is_huge(&self) -> bool
        ensures { result ≡ huge self.now.word }
    {
        self.word & 0x80 == 0x80
    }

    /// Returns true if the entry has no meaning although it isn't 0: it is above level one and lacks `PRESENT`.
    #[tactic(auto, unfolding(x86_64_model::specs::Entry::used))]
    pub fn is_left_out(&self) -> bool
        ensures { result ≡ entries.is_left_out self.now }
    {
        self.word != 0 && self.level > 1 && !self.is_present()
    }

    /// Returns true if the entry has `HUGE_PAGE` above level three, where no entry maps a page.
    pub fn is_huge_above(&self) -> bool
        ensures { result ≡ (nat_lt 3 self.now.level && huge self.now.word) }
    {
        self.level > HIGHEST_OF_PAGES && self.is_huge()
    }

    /// Returns true if the entry names a table: it is above level one, has `PRESENT` and maps no page. Above level three no
    /// entry maps a page, even with `HUGE_PAGE`.
    pub fn names_table(&self) -> bool
        ensures { result ≡ entries.entry_names_table self.now }
    {
        self.is_present() && self.level > 1 && (self.level > HIGHEST_OF_PAGES || !self.is_huge())
    }

    /// Returns the frame that the entry names.
    #[tactic(auto, unfolding(x86_64_model::specs::Entry::address))]
    pub fn frame(&self) -> PhysFrame<Size4KiB>
        ensures { result ≡ address self.now.word }
    {
        PhysFrame::from_start_address_unchecked(PhysAddr::new(self.word & ADDRESS_MASK))
    }

    /// Returns the word with the address of another frame and unchanged flags.
    #[tactic(auto, unfolding(x86_64_model::specs::Entry::flags))]
    pub fn renamed(&self, frame: PhysFrame<Size4KiB>) -> u64
        ensures flags { flags result ≡ flags self.now.word }
        ensures frame { address result ≡ frame }
    {
        self.word & FLAGS_MASK | frame.start_address().as_u64()
    }
}

impl Display for Entry {
    ghost use Rattle.ptdump_check.specs.FindingTexts.{entry_text};

    ghost output = { λ entry. Some (entry_text entry) };

    fn fmt<W: Write>(&self, f: &mut Formatter<W>) -> FmtResult {
        let slot = self.slot;
        let word = self.word;
        write!(f, "{slot} = 0x{word:x}")
    }
}
