//! The number of levels of page tables.
ghost use Rattle.std.specs.Prelude.{◌≡◌, ◌<◌, ◌≤◌, ℕ};
ghost use Rattle.x86_64_addr.specs.Levels.{IsLevelCount};
ghost use Rattle.x86_64_model.specs.Position.{position_count};

mod sealed {
    /// Keeps other crates from adding level counts.
    pub trait Sealed {}

    impl Sealed for super::FourLevels {}

    impl Sealed for super::FiveLevels {}
}

/// A number of levels of page tables: four with 4-level paging, or five with 5-level paging.
///
/// Intel SDM vol. 3A, "Linear-Address Translation with 4-Level Paging and 5-Level Paging".
pub trait LevelCount: Copy + sealed::Sealed {
    ghost LEVELS: { ℕ };

    ghost POSITION_COUNT: { ℕ };

    /// The number of levels.
    const LEVELS: u64;

    /// The number of positions, which are the numbers of addresses counted without the gap in the middle of the address space.
    const POSITION_COUNT: u64;

    /// The suffix of the names of addresses and pages in formatted text.
    const SUFFIX: &'static str;

    ghost known_levels: { IsLevelCount LEVELS };

    // There is a level above those that map pages, levels one to three.
    ghost at_least_four: { 3 < LEVELS };

    // Processors support no more.
    ghost at_most_five: { LEVELS ≤ 5 };

    ghost known_count: { POSITION_COUNT ≡ position_count LEVELS };
}

/// Four levels of page tables, as with 4-level paging.
#[derive(Clone, Copy, Debug, PartialEq)]
pub struct FourLevels;

impl LevelCount for FourLevels {
    ghost use Rattle.std.proofs.Common.{inl, lit≤, refl};

    ghost LEVELS = { 4 };

    ghost POSITION_COUNT = { 0x1_0000_0000_0000 };

    const LEVELS: u64 = 4;

    const POSITION_COUNT: u64 = 0x1_0000_0000_0000;

    const SUFFIX: &'static str = "";

    ghost known_levels = { inl refl };

    ghost at_least_four = { lit≤ tt };

    ghost at_most_five = { lit≤ tt };

    ghost known_count = { refl };
}

/// Five levels of page tables, as with 5-level paging.
#[derive(Clone, Copy, Debug, PartialEq)]
pub struct FiveLevels;

impl LevelCount for FiveLevels {
    ghost use Rattle.std.proofs.Common.{inr, lit≤, refl};

    ghost LEVELS = { 5 };

    ghost POSITION_COUNT = { 0x200_0000_0000_0000 };

    const LEVELS: u64 = 5;

    const POSITION_COUNT: u64 = 0x200_0000_0000_0000;

    const SUFFIX: &'static str = "57";

    ghost known_levels = { inr refl };

    ghost at_least_four = { lit≤ tt };

    ghost at_most_five = { lit≤ tt };

    ghost known_count = { refl };
}

/// The number of levels of page tables, as a value that a program can read or write.
#[derive(Clone, Copy, Debug, PartialEq, Eq)]
pub enum Levels {
    /// Four levels, for addresses of 48 bits.
    Four,
    /// Five levels, for addresses of 57 bits.
    Five,
}
