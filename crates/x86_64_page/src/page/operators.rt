//! Sums and differences of pages and numbers of pages, by raw value. Unlike [`PageIn::forward_checked`] and
//! [`PageIn::backward_checked`], they don't step over the gap in the middle of the address space.
ghost use Rattle.std.specs.Prelude.{◌≡◌, ◌+◌, ◌-◌, ◌*◌, ◌/◌, ◌^◌, ◌<◌, ◌≤◌};
ghost use Rattle.x86_64_addr.specs.Position.{raw, IsCanonical};

use crate::page::{PageIn, PageSize};
use std::ops::{Add, AddAssign, Sub, SubAssign};
use x86_64_addr::level_count::LevelCount;

impl<S: PageSize, L: LevelCount> Add<u64> for PageIn<S, L> {
    type Output = PageIn<S, L>;

    ghost can_add = { λ page count. (count * S.SIZE < 2 ^ 64)
        × IsCanonical L.LEVELS (raw L.LEVELS page + count * S.SIZE) };

    ghost add_gives = { λ page count sum. raw L.LEVELS sum ≡ raw L.LEVELS page + count * S.SIZE };

    /// Returns the page whose raw start is `rhs` pages above.
    ///
    /// Requires that this raw start is canonical, and that `rhs` pages have less than 2^64 bytes. Check this with
    /// [`u64::checked_mul`], [`u64::checked_add`] and [`try_new`](x86_64_addr::addr::VirtAddr::try_new).
    fn add(self, rhs: u64) -> PageIn<S, L> {
        PageIn::from_start_address_unchecked(self.start_address() + rhs * S::SIZE)
    }
}

impl<S: PageSize, L: LevelCount> AddAssign<u64> for PageIn<S, L> {
    ghost can_add_assign = { λ page count. (count * S.SIZE < 2 ^ 64)
        × IsCanonical L.LEVELS (raw L.LEVELS page + count * S.SIZE) };

    ghost add_assign_gives = { λ page count sum. raw L.LEVELS sum ≡ raw L.LEVELS page + count * S.SIZE };

    /// Moves up by `rhs` pages, by raw start.
    ///
    /// Requires that the new raw start is canonical, and that `rhs` pages have less than 2^64 bytes, as for `+`.
    fn add_assign(&mut self, rhs: u64) {
        *self = *self + rhs;
    }
}

impl<S: PageSize, L: LevelCount> Sub<u64> for PageIn<S, L> {
    type Output = PageIn<S, L>;

    ghost can_sub = { λ page count. (count * S.SIZE ≤ raw L.LEVELS page)
        × IsCanonical L.LEVELS (raw L.LEVELS page - count * S.SIZE) };

    ghost sub_gives = { λ page count rest. raw L.LEVELS rest ≡ raw L.LEVELS page - count * S.SIZE };

    /// Returns the page whose raw start is `rhs` pages below.
    ///
    /// Requires that this raw start is canonical and isn't below 0. Check this with [`u64::checked_mul`], [`u64::checked_sub`]
    /// and [`try_new`](x86_64_addr::addr::VirtAddr::try_new).
    fn sub(self, rhs: u64) -> PageIn<S, L> {
        PageIn::from_start_address_unchecked(self.start_address() - rhs * S::SIZE)
    }
}

impl<S: PageSize, L: LevelCount> SubAssign<u64> for PageIn<S, L> {
    ghost can_sub_assign = { λ page count. (count * S.SIZE ≤ raw L.LEVELS page)
        × IsCanonical L.LEVELS (raw L.LEVELS page - count * S.SIZE) };

    ghost sub_assign_gives = { λ page count rest. raw L.LEVELS rest ≡ raw L.LEVELS page - count * S.SIZE };

    /// Moves down by `rhs` pages, by raw start.
    ///
    /// Requires that the new raw start is canonical and isn't below 0, as for `-`.
    fn sub_assign(&mut self, rhs: u64) {
        *self = *self - rhs;
    }
}

impl<S: PageSize, L: LevelCount> Sub<PageIn<S, L>> for PageIn<S, L> {
    type Output = u64;

    ghost can_sub = { λ page other. raw L.LEVELS other ≤ raw L.LEVELS page };

    ghost sub_gives = { λ page other count. count ≡ (raw L.LEVELS page - raw L.LEVELS other) / S.SIZE };

    /// Returns the number of pages from the raw start of `rhs` up to that of `self`, which includes the gap if that lies between
    /// the pages.
    ///
    /// Requires that `rhs` isn't above `self`. Check this with `<=` on the pages.
    fn sub(self, rhs: PageIn<S, L>) -> u64 {
        (self.start_address() - rhs.start_address()) / S::SIZE
    }
}
