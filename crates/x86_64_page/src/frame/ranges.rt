//! Ranges of frames.
ghost use Rattle.std.specs.Prelude.{◌≡◌, ℕ, ◌%◌};

use crate::frame::PhysFrame;
use crate::page::{PageSize, Size4KiB};
use crate::range::{Block, BlockRange, BlockRangeInclusive};
use x86_64_addr::addr::PhysAddr;

/// The frames from `start` up to but excluding `end`.
pub type PhysFrameRange<S = Size4KiB> = BlockRange<PhysFrame<S>>;

/// The frames from `start` up to and including `end`.
pub type PhysFrameRangeInclusive<S = Size4KiB> = BlockRangeInclusive<PhysFrame<S>>;

impl<S: PageSize> Block for PhysFrame<S> {
    ghost use Rattle.std.proofs.Common.{inl, inr, refl};
    ghost use Rattle.std.specs.Prelude.{◌^◌};
    ghost use Rattle.x86_64_page.specs.Blocks.{size_of_level};

    ghost SIZE = { S.SIZE };

    ghost LIMIT = { 0x10_0000_0000_0000 };

    ghost place = { λ f. f };

    const SIZE: u64 = S::SIZE;

    const LIMIT: u64 = 0x10_0000_0000_0000;

    const RANGE: &'static str = "PhysFrameRange";

    const RANGE_INCLUSIVE: &'static str = "PhysFrameRangeInclusive";

    fn place(&self) -> u64 {
        self.start_address.as_u64()
    }

    fn at(start: u64) -> Self {
        PhysFrame::from_start_address_unchecked(PhysAddr::new(start))
    }

    ghost known_size = { size_of_level S.SIZE S.LEVEL S.low S.high S.size };

    ghost known_limit = { inr (inl refl) };
}

impl<S: PageSize> PhysFrame<S> {
    /// Returns the frames from `start` up to but excluding `end`. The range is empty unless `start` lies before `end`.
    pub fn range(start: Self, end: Self) -> PhysFrameRange<S>
        ensures start { result.start ≡ start }
        ensures end { result.end ≡ end }
    {
        PhysFrameRange { start, end }
    }

    /// Returns the frames from `start` up to and including `end`. The range is empty if `start` lies after `end`.
    pub fn range_inclusive(start: Self, end: Self) -> PhysFrameRangeInclusive<S>
        ensures start { result.start ≡ start }
        ensures end { result.end ≡ end }
    {
        PhysFrameRangeInclusive { start, end }
    }
}
