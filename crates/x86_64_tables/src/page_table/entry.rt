//! Entries of page tables.
ghost use Rattle.std.specs.Prelude.{◌≡◌, ◌<◌, ◌%◌, ◌^◌, false, not, bit_and, bit_or};
ghost use Rattle.x86_64_model.specs.Entry.{has, used, huge, address, flags};
ghost use Rattle.x86_64_tables.specs.PageTableEntry.{frame_of};
ghost use Rattle.x86_64_tables.specs.PageTableFlags.{bits_of};

use super::PageTableFlags;
use bitflags::Flags;
use std::fmt;
use std::marker::Model;
use x86_64_addr::addr::PhysAddr;
use x86_64_page::frame::PhysFrame;
use x86_64_page::page::Size4KiB;

/// The bits of an entry that hold an address: bits 12 to 51. All others are flags.
pub const ADDRESS_MASK: u64 = 0x000f_ffff_ffff_f000;

/// The bits of an entry that are flags.
const FLAGS_MASK: u64 = 0xfff0_0000_0000_0fff;

/// The reason why an entry names no 4KiB frame.
#[derive(Clone, Copy, Debug, PartialEq)]
pub enum FrameError {
    /// The entry lacks `PRESENT`.
    FrameNotPresent,
    /// The entry has `PRESENT` and `HUGE_PAGE`.
    HugeFrame,
}

/// An entry of a page table. Contracts see it as its word.
///
/// Bits 12 to 51 hold an address, the other bits are flags. Intel SDM vol. 3A, "Formats of paging-structure entries".
#[derive(Clone, Drop)]
#[repr(C)]
pub struct PageTableEntry(u64);

impl Model for PageTableEntry {
    ghost use Rattle.std.specs.Prelude.{ℕ};

    ghost Value = { ℕ };

    ghost view = { λ entry. entry.0 };

    ghost inverse = { λ word. record { 0 = word } };
}

impl PageTableEntry {
    /// Creates an unused entry, whose word is 0.
    pub const fn new() -> PageTableEntry
        ensures { result ≡ 0 }
    {
        PageTableEntry(0)
    }

    /// Creates the entry with the given word.
    pub fn from_word(word: u64) -> PageTableEntry
        ensures { result ≡ word }
    {
        PageTableEntry(word)
    }

    /// Returns the word.
    pub fn word(&self) -> u64
        ensures { result ≡ self.now }
    {
        self.0
    }

    /// Sets the word.
    pub fn set_word(&mut self, word: u64)
        ensures { self.new ≡ word }
    {
        self.0 = word;
    }

    /// Returns true if the entry is unused, that is, if its word is 0.
    #[tactic(auto, unfolding(x86_64_model::specs::Entry::used))]
    pub fn is_unused(&self) -> bool
        ensures { result ≡ not (used self.now) }
    {
        self.0 == 0
    }

    /// Makes the entry unused: sets its word to 0.
    pub fn set_unused(&mut self)
        ensures { self.new ≡ 0 }
    {
        self.0 = 0;
    }

    /// Returns the flags: the word without bits 12 to 51.
    #[tactic(auto, unfolding(x86_64_model::specs::Entry::flags))]
    pub fn flags(&self) -> PageTableFlags
        ensures value { bits_of result ≡ flags self.now }
        ensures below { self.now < 2 ^ 64 }
    {
        PageTableFlags::from_bits_retain(self.0 & FLAGS_MASK)
    }

    /// Returns the address: bits 12 to 51 of the word, so a multiple of 4096. It may be 0.
    #[tactic(auto, unfolding(x86_64_model::specs::Entry::address))]
    pub fn addr(&self) -> PhysAddr
        ensures { result ≡ address self.now }
    {
        PhysAddr::new(self.0 & ADDRESS_MASK)
    }

    /// Returns the 4KiB frame that the entry names.
    ///
    /// # Errors
    ///
    /// `FrameNotPresent` if the entry lacks `PRESENT`, else `HugeFrame` if it has `HUGE_PAGE`.
    pub fn frame(&self) -> Result<PhysFrame<Size4KiB>, FrameError>
        ensures { result ≡ frame_of self.now }
    {
        let flags = self.flags();
        if !flags.contains(PageTableFlags::PRESENT) {
            Err(FrameError::FrameNotPresent)
        } else if flags.contains(PageTableFlags::HUGE_PAGE) {
            Err(FrameError::HugeFrame)
        } else {
            Ok(PhysFrame::from_start_address_unchecked(self.addr()))
        }
    }

    /// Sets the word to the bitwise or of the address and the flags.
    ///
    /// Requires that the address is a multiple of 4096.
    pub fn set_addr(&mut self, addr: PhysAddr, flags: PageTableFlags)
        requires { addr % 4096 ≡ 0 }
        ensures { self.new ≡ bit_or addr (bits_of flags) }
    {
        self.0 = addr.as_u64() | flags.bits();
    }

    /// Sets the word to the bitwise or of the frame's start address and the flags.
    ///
    /// Requires that the flags lack `HUGE_PAGE`.
    pub fn set_frame(&mut self, frame: PhysFrame<Size4KiB>, flags: PageTableFlags)
        requires { huge (bits_of flags) ≡ false }
        ensures { self.new ≡ bit_or frame (bits_of flags) }
    {
        self.set_addr(frame.start_address(), flags);
    }

    /// Sets the flags and keeps the address. If the flags have any of the bits 12 to 51, these bits are added to the address.
    pub fn set_flags(&mut self, flags: PageTableFlags)
        ensures { self.new ≡ bit_or (address self.old) (bits_of flags) }
    {
        self.0 = self.addr().as_u64() | flags.bits();
    }
}

impl Default for PageTableEntry {
    ghost is_default = { λ entry. entry ≡ 0 };

    fn default() -> PageTableEntry {
        PageTableEntry::new()
    }
}

impl fmt::Debug for PageTableEntry {
    fn fmt<W: fmt::Write>(&self, f: &mut fmt::Formatter<W>) -> fmt::Result {
        let addr = self.addr();
        let flags = self.flags();
        f.debug_struct("PageTableEntry")
            .field("addr", &addr)
            .field("flags", &flags)
            .finish()
    }
}

/// Returns true if an entry has a flag, or each of several flags.
///
/// Requires that none of the bits 12 to 51, which hold the address, is among the flags.
pub fn has_flag(entry: &PageTableEntry, flag: PageTableFlags) -> bool
    requires { bit_and 0xfff0_0000_0000_0fff (bits_of flag) ≡ bits_of flag }
    ensures { result ≡ has entry.now (bits_of flag) }
{
    entry.flags().contains(flag)
}
