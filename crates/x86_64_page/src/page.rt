//! Pages: aligned blocks of virtual memory of one of three sizes.
//!
//! Intel SDM vol. 3A, "4-Level Paging and 5-Level Paging"; AMD APM vol. 2, "Long-Mode Page Translation".
ghost use Rattle.std.specs.Prelude.{◌≡◌, ℕ, ◌-◌, ◌%◌, ◌^◌, ◌<◌, ◌≤◌, ◌↔◌, IsOk, IfOk};
ghost use Rattle.x86_64_addr.specs.Levels.{level_number};
ghost use Rattle.x86_64_addr.specs.Levels57.{level_number_57};
ghost use Rattle.x86_64_addr.specs.Position.{span, index};

use crate::range::places;
use std::fmt::{Debug, Display, Formatter, Result as FmtResult, Write};
use std::marker::{Model, PhantomData};
use x86_64_addr::addr::VirtAddrIn;
use x86_64_addr::index::{PageTableIndex, PageTableLevel, PageTableLevel57};
use x86_64_addr::level_count::{FiveLevels, FourLevels, LevelCount};

mod indices;
mod operators;
mod ranges;
mod steps;

pub use ranges::{PageRange, PageRangeInclusive, PageRangeInclusive57};

mod sealed {
    /// Keeps other crates from adding sizes.
    pub trait Sealed {}

    impl Sealed for super::Size4KiB {}

    impl Sealed for super::Size2MiB {}

    impl Sealed for super::Size1GiB {}
}

/// A size of pages and frames: 4KiB, 2MiB or 1GiB.
pub trait PageSize: Copy + Eq + PartialOrd + Ord + sealed::Sealed {
    ghost SIZE: { ℕ };

    ghost LEVEL: { ℕ };

    /// The size in bytes.
    const SIZE: u64;

    /// The name of the size in formatted text.
    const DEBUG_STR: &'static str;

    /// The level of the entries that map pages of this size.
    const LEVEL: u64;

    // Only entries of levels one, two and three map pages.
    ghost low: { 1 ≤ LEVEL };

    ghost high: { LEVEL ≤ 3 };

    // The size of a page is the span of an entry of its level.
    ghost size: { SIZE ≡ span LEVEL };
}

/// A size below 1GiB, whose pages have an index of level two.
pub trait NotGiantPageSize: PageSize {
    ghost not_giant: { Self.LEVEL ≤ 2 };
}

/// The size 4KiB, of pages that entries of level one map.
#[derive(Debug, Clone, Copy, PartialEq, Eq, PartialOrd, Ord, Hash)]
pub struct Size4KiB;

impl PageSize for Size4KiB {
    ghost use Rattle.std.proofs.Common.{refl, lit≤};

    ghost SIZE = { 0x1000 };

    ghost LEVEL = { 1 };

    const SIZE: u64 = 0x1000;

    const DEBUG_STR: &'static str = "4KiB";

    const LEVEL: u64 = 1;

    ghost low = { lit≤ tt };

    ghost high = { lit≤ tt };

    ghost size = { refl };
}

impl NotGiantPageSize for Size4KiB {
    ghost use Rattle.std.proofs.Common.{lit≤};

    ghost not_giant = { lit≤ tt };
}

/// The size 2MiB, of pages that entries of level two map.
#[derive(Debug, Clone, Copy, PartialEq, Eq, PartialOrd, Ord, Hash)]
pub struct Size2MiB;

impl PageSize for Size2MiB {
    ghost use Rattle.std.proofs.Common.{refl, lit≤};

    ghost SIZE = { 0x20_0000 };

    ghost LEVEL = { 2 };

    const SIZE: u64 = 0x20_0000;

    const DEBUG_STR: &'static str = "2MiB";

    const LEVEL: u64 = 2;

    ghost low = { lit≤ tt };

    ghost high = { lit≤ tt };

    ghost size = { refl };
}

impl NotGiantPageSize for Size2MiB {
    ghost use Rattle.std.proofs.Common.{lit≤};

    ghost not_giant = { lit≤ tt };
}

/// The size 1GiB, of pages that entries of level three map.
#[derive(Debug, Clone, Copy, PartialEq, Eq, PartialOrd, Ord, Hash)]
pub struct Size1GiB;

impl PageSize for Size1GiB {
    ghost use Rattle.std.proofs.Common.{refl, lit≤};

    ghost SIZE = { 0x4000_0000 };

    ghost LEVEL = { 3 };

    const SIZE: u64 = 0x4000_0000;

    const DEBUG_STR: &'static str = "1GiB";

    const LEVEL: u64 = 3;

    ghost low = { lit≤ tt };

    ghost high = { lit≤ tt };

    ghost size = { refl };
}

/// The error for an address that isn't aligned to the size.
#[derive(Debug, PartialEq, Drop)]
pub struct AddressNotAligned;

impl Display for AddressNotAligned {
    fn fmt<W: Write>(&self, f: &mut Formatter<W>) -> FmtResult {
        write!(f, "the given address was not sufficiently aligned")
    }
}

/// A page of size `S`, with `L` levels of page tables. It starts at a multiple of the size.
///
/// Contracts see it as the position of its start address: the number of the address counted without the gap in the middle of the
/// address space. Equality, order and hash are those of the start address. Equality and order are also those of the position.
#[derive(Clone, Copy)]
#[derive_where(PartialEq, Eq, PartialOrd, Ord, Hash)]
pub struct PageIn<S: PageSize, L: LevelCount> {
    start_address: VirtAddrIn<L>,
    size: PhantomData<S>,
}

/// A page of size `S`, with four levels of page tables.
pub type Page<S = Size4KiB> = PageIn<S, FourLevels>;

/// A page of size `S`, with five levels of page tables.
pub type Page57<S = Size4KiB> = PageIn<S, FiveLevels>;

impl<S: PageSize, L: LevelCount> Model for PageIn<S, L> {
    ghost use Rattle.std.specs.Prelude.{◌≡◌, ℕ, ◌%◌, ◌<◌};
    ghost use Rattle.x86_64_addr.specs.Position.{position_count};

    ghost Value = { ℕ };

    ghost view = { λ page. page.start_address };

    ghost invariant = { λ page. (page.start_address < position_count L.LEVELS)
        × (page.start_address % S.SIZE ≡ 0) };

    ghost inverse = { λ n. record { start_address = n; size = record {} } };
}

impl<S: PageSize, L: LevelCount> PageIn<S, L> {
    /// Returns the page that starts at an address.
    ///
    /// # Errors
    ///
    /// `AddressNotAligned` if the address isn't a multiple of the size.
    pub fn from_start_address(address: VirtAddrIn<L>) -> Result<Self, AddressNotAligned>
        ensures aligned { IsOk result ↔ (address % S.SIZE ≡ 0) }
        ensures value { IfOk result (λ page. page ≡ address) }
    {
        places::starting_at(address.position())
    }

    /// Returns the page that starts at an address.
    ///
    /// Requires that the address is a multiple of the size. Check this with [`from_start_address`](Self::from_start_address) or
    /// [`VirtAddrIn::is_aligned`].
    pub fn from_start_address_unchecked(start_address: VirtAddrIn<L>) -> Self
        requires { start_address % S.SIZE ≡ 0 }
        ensures { result ≡ start_address }
    {
        // Each position is below the number of positions, as the start of each page must be.
        let _raw = start_address.as_u64();
        PageIn {
            start_address,
            size: PhantomData,
        }
    }

    /// Returns the page that contains an address: it starts at the address rounded down to the size.
    pub fn containing_address(address: VirtAddrIn<L>) -> Self
        ensures { result ≡ address - address % S.SIZE }
    {
        places::containing(address.position())
    }

    /// Returns the start address.
    pub const fn start_address(self) -> VirtAddrIn<L>
        ensures value { result ≡ self }
        ensures aligned { self % S.SIZE ≡ 0 }
    {
        self.start_address
    }

    /// Returns the size in bytes, which is also the constant `SIZE` of [`Block`](crate::range::Block).
    pub fn size(self) -> u64
        ensures { result ≡ S.SIZE }
    {
        S::SIZE
    }

    /// Returns the index of level four: bits 39 to 47 of the start address.
    pub fn p4_index(self) -> PageTableIndex
        ensures { result ≡ index 4 self }
    {
        self.start_address.p4_index()
    }

    /// Returns the index of level three: bits 30 to 38 of the start address.
    pub fn p3_index(self) -> PageTableIndex
        ensures { result ≡ index 3 self }
    {
        self.start_address.p3_index()
    }

    /// Returns the index of a level: the nine bits of the start address from bit 9 * `level` + 3 on.
    ///
    /// Requires that the level is from one to the number of levels.
    pub fn table_index(self, level: u64) -> PageTableIndex
        requires { (1 ≤ level) × (level ≤ L.LEVELS) }
        ensures { result ≡ index level self }
    {
        self.start_address.table_index(level)
    }
}

impl<S: PageSize> Page<S> {
    /// Returns the index of a level.
    pub fn page_table_index(self, level: PageTableLevel) -> PageTableIndex
        ensures { result ≡ index (level_number level) self }
    {
        self.start_address.page_table_index(level)
    }
}

impl<S: PageSize> Page57<S> {
    /// Returns the index of a level.
    pub fn page_table_index(self, level: PageTableLevel57) -> PageTableIndex
        ensures { result ≡ index (level_number_57 level) self }
    {
        self.start_address.page_table_index(level)
    }

    /// Returns the index of level five: bits 48 to 56 of the start address.
    pub fn p5_index(self) -> PageTableIndex
        ensures { result ≡ index 5 self }
    {
        self.start_address.p5_index()
    }
}

impl<S: NotGiantPageSize, L: LevelCount> PageIn<S, L> {
    /// Returns the index of level two: bits 21 to 29 of the start address.
    pub fn p2_index(self) -> PageTableIndex
        ensures { result ≡ index 2 self }
    {
        self.start_address.p2_index()
    }
}

impl<L: LevelCount> PageIn<Size4KiB, L> {
    /// Returns the index of level one: bits 12 to 20 of the start address.
    pub fn p1_index(self) -> PageTableIndex
        ensures { result ≡ index 1 self }
    {
        self.start_address.p1_index()
    }
}

impl<S: PageSize, L: LevelCount> Debug for PageIn<S, L> {
    fn fmt<W: Write>(&self, f: &mut Formatter<W>) -> FmtResult {
        let start = self.start_address.as_u64();
        write!(f, "Page{}", L::SUFFIX)?;
        write_block::<S, W>(f, start)
    }
}

/// Writes the size and the start of a page or a frame, as in `[4KiB](0x1000)`.
pub(crate) fn write_block<S: PageSize, W: Write>(f: &mut Formatter<W>, start: u64) -> FmtResult {
    let size = S::DEBUG_STR;
    write!(f, "[{size}]({start:#x})")
}
