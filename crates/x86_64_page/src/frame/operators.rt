//! Sums and differences of frames and numbers of frames.
ghost use Rattle.std.specs.Prelude.{◌≡◌, ◌+◌, ◌-◌, ◌*◌, ◌/◌, ◌^◌, ◌<◌, ◌≤◌};

use crate::frame::PhysFrame;
use crate::page::PageSize;
use std::ops::{Add, AddAssign, Sub, SubAssign};

impl<S: PageSize> Add<u64> for PhysFrame<S> {
    type Output = PhysFrame<S>;

    ghost can_add = { λ frame count. frame + count * S.SIZE < 2 ^ 52 };

    ghost add_gives = { λ frame count sum. sum ≡ frame + count * S.SIZE };

    /// Returns the frame `rhs` frames above.
    ///
    /// Requires that its start is below 2^52. Check this with [`u64::checked_add`] on the frame number and
    /// [`PhysFrame::try_from_pfn`].
    fn add(self, rhs: u64) -> PhysFrame<S> {
        PhysFrame::from_start_address_unchecked(self.start_address() + rhs * S::SIZE)
    }
}

impl<S: PageSize> AddAssign<u64> for PhysFrame<S> {
    ghost can_add_assign = { λ frame count. frame + count * S.SIZE < 2 ^ 52 };

    ghost add_assign_gives = { λ frame count sum. sum ≡ frame + count * S.SIZE };

    /// Moves up by `rhs` frames.
    ///
    /// Requires that the new start is below 2^52, as for `+`.
    fn add_assign(&mut self, rhs: u64) {
        *self = *self + rhs;
    }
}

impl<S: PageSize> Sub<u64> for PhysFrame<S> {
    type Output = PhysFrame<S>;

    ghost can_sub = { λ frame count. count * S.SIZE ≤ frame };

    ghost sub_gives = { λ frame count difference. difference ≡ frame - count * S.SIZE };

    /// Returns the frame `rhs` frames below.
    ///
    /// Requires that its start isn't below 0. Check this with `<=` on the count and [`PhysFrame::pfn`].
    fn sub(self, rhs: u64) -> PhysFrame<S> {
        PhysFrame::from_start_address_unchecked(self.start_address() - rhs * S::SIZE)
    }
}

impl<S: PageSize> SubAssign<u64> for PhysFrame<S> {
    ghost can_sub_assign = { λ frame count. count * S.SIZE ≤ frame };

    ghost sub_assign_gives = { λ frame count difference. difference ≡ frame - count * S.SIZE };

    /// Moves down by `rhs` frames.
    ///
    /// Requires that the new start isn't below 0, as for `-`.
    fn sub_assign(&mut self, rhs: u64) {
        *self = *self - rhs;
    }
}

impl<S: PageSize> Sub<PhysFrame<S>> for PhysFrame<S> {
    type Output = u64;

    ghost can_sub = { λ frame other. other ≤ frame };

    ghost sub_gives = { λ frame other count. count ≡ (frame - other) / S.SIZE };

    /// Returns the number of frames from `rhs` up to `self`.
    ///
    /// Requires that `rhs` isn't above `self`. Check this with `<=` on the frames.
    fn sub(self, rhs: PhysFrame<S>) -> u64 {
        (self.start_address() - rhs.start_address()) / S::SIZE
    }
}
