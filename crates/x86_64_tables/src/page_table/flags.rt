//! The flags of page table entries.
//!
//! Intel SDM vol. 3A, "Formats of paging-structure entries"; AMD APM vol. 2, "Page-Translation-Table Entry Fields".
ghost use Rattle.std.specs.Prelude.{⊤};
ghost use Rattle.x86_64_tables.specs.PageTableFlags.{flag_table};

use super::entry::ADDRESS_MASK;
use bitflags::{Flag, Flags, bitflag_items};
use std::fmt;

/// The flags of a page table entry: all bits except 12 to 51, which hold the address.
///
/// The methods of the trait `Flags` of `bitflags` are methods of this type. `from_bits` returns `Some` if and only if none
/// of the bits 12 to 51 is set.
#[derive(Clone, Copy, PartialEq, Eq, PartialOrd, Ord, Hash)]
pub struct PageTableFlags(u64);

bitflag_items! {
    impl PageTableFlags: u64 {
        /// The page or table is in memory. Without it, the processor ignores the other bits of the entry.
        const PRESENT = 1 << 0;
        /// Allows writes to the page, or to all pages below the table.
        const WRITABLE = 1 << 1;
        /// Allows user code to access the page, or all pages below the table.
        const USER_ACCESSIBLE = 1 << 2;
        /// The bit PWT: uses write-through caching in place of write-back for the page, or for the table that the entry names.
        const WRITE_THROUGH = 1 << 3;
        /// The bit PCD: disables caching of the page, or of the table that the entry names.
        const NO_CACHE = 1 << 4;
        /// Set by the processor when it translates an address through the entry.
        const ACCESSED = 1 << 5;
        /// Set by the processor on a write to the page. Ignored in an entry that names a table.
        const DIRTY = 1 << 6;
        /// The bit PS: at level two the entry maps a 2MiB page, at level three a 1GiB page, instead of naming a table. At level
        /// one it is the bit PAT, and above level three it is reserved.
        const HUGE_PAGE = 1 << 7;
        /// Keeps the page's translation in the TLB when the address space is switched, if the processor has this feature
        /// enabled. Ignored in an entry that names a table.
        const GLOBAL = 1 << 8;
        /// Ignored by the processor.
        const BIT_9 = 1 << 9;
        /// Ignored by the processor.
        const BIT_10 = 1 << 10;
        /// Ignored by the processor.
        const BIT_11 = 1 << 11;
        /// Ignored by the processor.
        const BIT_52 = 1 << 52;
        /// Ignored by the processor.
        const BIT_53 = 1 << 53;
        /// Ignored by the processor.
        const BIT_54 = 1 << 54;
        /// Ignored by the processor.
        const BIT_55 = 1 << 55;
        /// Ignored by the processor.
        const BIT_56 = 1 << 56;
        /// Ignored by the processor.
        const BIT_57 = 1 << 57;
        /// Ignored by the processor.
        const BIT_58 = 1 << 58;
        /// Ignored by the processor unless protection keys are enabled.
        const BIT_59 = 1 << 59;
        /// Ignored by the processor unless protection keys are enabled.
        const BIT_60 = 1 << 60;
        /// Ignored by the processor unless protection keys are enabled.
        const BIT_61 = 1 << 61;
        /// Ignored by the processor unless protection keys are enabled.
        const BIT_62 = 1 << 62;
        /// Forbids instruction fetches from the page, or from all pages below the table, if the processor has this feature
        /// enabled. Otherwise it is reserved.
        const NO_EXECUTE = 1 << 63;
    }
}

impl PageTableFlags {
    ghost use Rattle.std.specs.Prelude.{◌≡◌, not};
    ghost use Rattle.x86_64_model.specs.Entry.{no_address};

    /// Returns true if the flags contain any of the bits 12 to 51, which belong to an entry's address and to no flag.
    #[tactic(auto, unfolding(x86_64_model::specs::Entry::address))]
    pub fn has_address_bits(self) -> bool
        ensures { result ≡ not (no_address self.0) }
    {
        self.0 & ADDRESS_MASK != 0
    }
}

impl Flags for PageTableFlags {
    type Bits = u64;

    ghost exact = { ⊤ };

    ghost table = { flag_table };

    ghost set_of = { λ flags. flags.0 };

    fn flags<'a>() -> &'a [Flag<PageTableFlags>] {
        PageTableFlags::FLAGS
    }

    fn bits(&self) -> u64 {
        self.0
    }

    fn from_bits_retain(bits: u64) -> PageTableFlags {
        PageTableFlags(bits)
    }
}

impl fmt::Debug for PageTableFlags {
    fn fmt<W: fmt::Write>(&self, f: &mut fmt::Formatter<W>) -> fmt::Result {
        let bits = self.bits();
        write!(f, "PageTableFlags({bits:#x})")
    }
}
