//! Virtual addresses.
ghost use Rattle.std.specs.Prelude.{◌≡◌, ℕ, ◌%◌, ◌^◌, ◌<◌, ◌≤◌, ◌↔◌, IsTrue, IsOk, IfOk, IfErr, IsSome, IfSome};
ghost use Rattle.x86_64_addr.specs.Levels.{level_number};
ghost use Rattle.x86_64_addr.specs.Levels57.{level_number_57};
ghost use Rattle.x86_64_model.specs.Position.{raw, IsCanonical, position_count, index};

use crate::index::{PageOffset, PageTableIndex, PageTableLevel, PageTableLevel57};
use crate::level_count::{FiveLevels, FourLevels, LevelCount};
use std::fmt::{Debug, Formatter, Result as FmtResult, Write};
use std::marker::{Model, PhantomData};

/// A canonical virtual address, with `L` levels of page tables.
///
/// Contracts see it as its position, the number of the address counted without the gap in the middle of the address space.
/// Equality, order and hash are those of the raw value. Equality and order are also those of the position.
#[derive(Clone, Copy)]
#[derive_where(PartialEq, Eq, PartialOrd, Ord, Hash)]
pub struct VirtAddrIn<L: LevelCount> {
    value: u64,
    levels: PhantomData<L>,
}

/// A canonical virtual address of 48 bits, with four levels of page tables.
pub type VirtAddr = VirtAddrIn<FourLevels>;

/// A canonical virtual address of 57 bits, with five levels of page tables.
pub type VirtAddr57 = VirtAddrIn<FiveLevels>;

impl<L: LevelCount> Model for VirtAddrIn<L> {
    ghost use Rattle.std.specs.Prelude.{◌≡◌, ℕ, ◌%◌};
    ghost use Rattle.std.proofs.Common.{ap};
    ghost use Rattle.x86_64_model.specs.Position.{raw, position_count};

    ghost Value = { ℕ };

    ghost view = { λ a. a.value % position_count L.LEVELS };

    ghost invariant = { λ a. raw L.LEVELS (a.value % position_count L.LEVELS) ≡ a.value };

    ghost inverse = { λ p. record { value = raw L.LEVELS p; levels = record {} } };

    ghost inverse_ok = { λ a h. ap (λ n. record { value = n; levels = record {} }) h };
}

/// The error for a value that isn't a canonical virtual address: bits 48 to 63 aren't copies of bit 47.
///
/// Contains the value.
#[derive(PartialEq, Drop)]
pub struct VirtAddrNotValid(pub u64);

impl Debug for VirtAddrNotValid {
    fn fmt<W: Write>(&self, f: &mut Formatter<W>) -> FmtResult {
        let VirtAddrNotValid(value) = self;
        write!(f, "VirtAddrNotValid({value:#x})")
    }
}

/// The error for a value that isn't a canonical virtual address of 57 bits: bits 57 to 63 aren't copies of bit 56.
///
/// Contains the value.
#[derive(PartialEq, Drop)]
pub struct VirtAddr57NotValid(pub u64);

impl Debug for VirtAddr57NotValid {
    fn fmt<W: Write>(&self, f: &mut Formatter<W>) -> FmtResult {
        let VirtAddr57NotValid(value) = self;
        write!(f, "VirtAddr57NotValid({value:#x})")
    }
}

impl<L: LevelCount> VirtAddrIn<L> {
    /// Creates an address from its raw value.
    ///
    /// Requires that the value is canonical. Check this with [`try_new`](VirtAddr::try_new).
    #[tactic(auto, using(crate::proofs::Canonical::raw_of_canonical))]
    pub const fn new(addr: u64) -> Self
        requires { IsCanonical L.LEVELS addr }
        ensures position { result ≡ addr % position_count L.LEVELS }
        ensures value { raw L.LEVELS result ≡ addr }
    {
        VirtAddrIn {
            value: addr,
            levels: PhantomData,
        }
    }

    /// Creates the address whose position is a value modulo the number of positions, 2^48 or 2^57. The highest bit of the
    /// position is copied to the bits above it.
    pub const fn new_truncate(addr: u64) -> Self
        ensures { result ≡ addr % position_count L.LEVELS }
    {
        // Compiles to two shifts, without a branch.
        let half = L::POSITION_COUNT / 2;
        Self::new((addr.wrapping_add(half) % L::POSITION_COUNT).wrapping_sub(half))
    }

    /// Creates an address from its raw value, or returns `None` if it isn't canonical.
    pub const fn checked_new(addr: u64) -> Option<Self>
        ensures canonical { IsSome result ↔ IsCanonical L.LEVELS addr }
        ensures position { IfSome result (λ a. a ≡ addr % position_count L.LEVELS) }
        ensures value { IfSome result (λ a. raw L.LEVELS a ≡ addr) }
    {
        let address = Self::new_truncate(addr);
        if address.value == addr {
            Some(address)
        } else {
            None
        }
    }

    /// Creates an address from its raw value, like [`new`](Self::new).
    ///
    /// Requires that the value is canonical.
    pub const fn new_unsafe(addr: u64) -> Self
        requires { IsCanonical L.LEVELS addr }
        ensures position { result ≡ addr % position_count L.LEVELS }
        ensures value { raw L.LEVELS result ≡ addr }
    {
        Self::new(addr)
    }

    /// Returns the address 0.
    pub const fn zero() -> Self
        ensures { result ≡ 0 }
    {
        VirtAddrIn {
            value: 0,
            levels: PhantomData,
        }
    }

    /// Returns the raw value.
    pub const fn as_u64(self) -> u64
        ensures value { result ≡ raw L.LEVELS self }
        ensures position { self < position_count L.LEVELS }
    {
        self.value
    }

    /// Returns the position: the raw value modulo the number of positions.
    pub const fn position(self) -> u64
        ensures value { result ≡ self }
        ensures below { result < position_count L.LEVELS }
    {
        self.value % L::POSITION_COUNT
    }

    /// Returns true if the address is 0.
    pub fn is_null(self) -> bool
        ensures { IsTrue result ↔ (self ≡ 0) }
    {
        self == Self::zero()
    }

    /// Returns the offset in the 4KiB page that contains the address: the position modulo 4096.
    pub fn page_offset(self) -> PageOffset
        ensures { result ≡ self % 4096 }
    {
        PageOffset::new((self.position() % 4096) as u16)
    }

    /// Returns the index in the root table, which is of level `L::LEVELS`.
    pub fn root_index(self) -> PageTableIndex
        ensures { result ≡ index L.LEVELS self }
    {
        self.table_index(L::LEVELS)
    }

    /// Returns the index of level one, bits 12 to 20.
    pub fn p1_index(self) -> PageTableIndex
        ensures { result ≡ index 1 self }
    {
        self.table_index(1)
    }

    /// Returns the index of level two, bits 21 to 29.
    pub fn p2_index(self) -> PageTableIndex
        ensures { result ≡ index 2 self }
    {
        self.table_index(2)
    }

    /// Returns the index of level three, bits 30 to 38.
    pub fn p3_index(self) -> PageTableIndex
        ensures { result ≡ index 3 self }
    {
        self.table_index(3)
    }

    /// Returns the index of level four, bits 39 to 47.
    pub fn p4_index(self) -> PageTableIndex
        ensures { result ≡ index 4 self }
    {
        self.table_index(4)
    }

    /// Returns the index of a level: the nine bits from bit 9 * `level` + 3 on.
    ///
    /// Requires that the level is from one to the number of levels.
    pub fn table_index(self, level: u64) -> PageTableIndex
        requires { (1 ≤ level) × (level ≤ L.LEVELS) }
        ensures { result ≡ index level self }
    {
        PageTableIndex::new(((self.as_u64() >> (9 * level + 3)) % 512) as u16)
    }
}

impl VirtAddr {
    /// Creates an address from its raw value.
    ///
    /// # Errors
    ///
    /// `VirtAddrNotValid`, with the value, if it isn't canonical.
    pub fn try_new(addr: u64) -> Result<VirtAddr, VirtAddrNotValid>
        ensures canonical { IsOk result ↔ IsCanonical 4 addr }
        ensures position { IfOk result (λ a. a ≡ addr % 2 ^ 48) }
        ensures value { IfOk result (λ a. raw 4 a ≡ addr) }
        ensures error { IfErr result (λ e. e.0 ≡ addr) }
    {
        Self::checked_new(addr).ok_or(VirtAddrNotValid(addr))
    }

    /// Returns the index of a level.
    pub fn page_table_index(self, level: PageTableLevel) -> PageTableIndex
        ensures { result ≡ index (level_number level) self }
    {
        self.table_index(level.number())
    }
}

impl VirtAddr57 {
    /// Creates an address from its raw value.
    ///
    /// # Errors
    ///
    /// `VirtAddr57NotValid`, with the value, if it isn't canonical.
    pub fn try_new(addr: u64) -> Result<VirtAddr57, VirtAddr57NotValid>
        ensures canonical { IsOk result ↔ IsCanonical 5 addr }
        ensures position { IfOk result (λ a. a ≡ addr % 2 ^ 57) }
        ensures value { IfOk result (λ a. raw 5 a ≡ addr) }
        ensures error { IfErr result (λ e. e.0 ≡ addr) }
    {
        Self::checked_new(addr).ok_or(VirtAddr57NotValid(addr))
    }

    /// Returns the index of a level.
    pub fn page_table_index(self, level: PageTableLevel57) -> PageTableIndex
        ensures { result ≡ index (level_number_57 level) self }
    {
        self.table_index(level.number())
    }

    /// Returns the index of level five, bits 48 to 56.
    pub fn p5_index(self) -> PageTableIndex
        ensures { result ≡ index 5 self }
    {
        self.table_index(5)
    }
}

impl<L: LevelCount> Debug for VirtAddrIn<L> {
    fn fmt<W: Write>(&self, f: &mut Formatter<W>) -> FmtResult {
        let (suffix, value) = (L::SUFFIX, self.as_u64());
        write!(f, "VirtAddr{suffix}({value:#x})")
    }
}
