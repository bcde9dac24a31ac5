//! Sums and differences of virtual addresses, by raw value. Unlike [`VirtAddrIn::forward_checked`] and
//! [`VirtAddrIn::backward_checked`], they don't step over the gap in the middle of the address space.
ghost use Rattle.std.specs.Prelude.{◌≡◌, ◌+◌, ◌-◌, ◌≤◌};
ghost use Rattle.x86_64_model.specs.Position.{raw, IsCanonical};

use crate::addr::VirtAddrIn;
use crate::level_count::LevelCount;
use std::ops::{Add, AddAssign, Sub, SubAssign};

impl<L: LevelCount> Add<u64> for VirtAddrIn<L> {
    type Output = Self;

    ghost can_add = { λ address count. IsCanonical L.LEVELS (raw L.LEVELS address + count) };

    ghost add_gives = { λ address count sum. raw L.LEVELS sum ≡ raw L.LEVELS address + count };

    /// Returns the address whose raw value is the sum.
    ///
    /// Requires that the sum is canonical, and so below 2^64. Check this with [`u64::checked_add`] and
    /// [`try_new`](crate::addr::VirtAddr::try_new).
    #[tactic(auto, using(crate::proofs::Canonical::canonical_below))]
    fn add(self, rhs: u64) -> Self {
        Self::new(self.as_u64() + rhs)
    }
}

impl<L: LevelCount> AddAssign<u64> for VirtAddrIn<L> {
    ghost can_add_assign = { λ address count. IsCanonical L.LEVELS (raw L.LEVELS address + count) };

    ghost add_assign_gives = { λ address count sum. raw L.LEVELS sum ≡ raw L.LEVELS address + count };

    /// Adds to the raw value.
    ///
    /// Requires that the sum is canonical, as for `+`.
    fn add_assign(&mut self, rhs: u64) {
        *self = *self + rhs;
    }
}

impl<L: LevelCount> Sub<u64> for VirtAddrIn<L> {
    type Output = Self;

    ghost can_sub = { λ address count. (count ≤ raw L.LEVELS address)
        × IsCanonical L.LEVELS (raw L.LEVELS address - count) };

    ghost sub_gives = { λ address count rest. raw L.LEVELS rest ≡ raw L.LEVELS address - count };

    /// Returns the address whose raw value is the difference.
    ///
    /// Requires that the difference is canonical and isn't below 0. Check this with [`u64::checked_sub`] and
    /// [`try_new`](crate::addr::VirtAddr::try_new).
    fn sub(self, rhs: u64) -> Self {
        Self::new(self.as_u64() - rhs)
    }
}

impl<L: LevelCount> SubAssign<u64> for VirtAddrIn<L> {
    ghost can_sub_assign = { λ address count. (count ≤ raw L.LEVELS address)
        × IsCanonical L.LEVELS (raw L.LEVELS address - count) };

    ghost sub_assign_gives = { λ address count rest. raw L.LEVELS rest ≡ raw L.LEVELS address - count };

    /// Subtracts from the raw value.
    ///
    /// Requires that the difference is canonical and isn't below 0, as for `-`.
    fn sub_assign(&mut self, rhs: u64) {
        *self = *self - rhs;
    }
}

impl<L: LevelCount> Sub<VirtAddrIn<L>> for VirtAddrIn<L> {
    type Output = u64;

    ghost can_sub = { λ address other. raw L.LEVELS other ≤ raw L.LEVELS address };

    ghost sub_gives = { λ address other count. count ≡ raw L.LEVELS address - raw L.LEVELS other };

    /// Returns the difference of the raw values, which includes the gap if that lies between the addresses.
    ///
    /// Requires that the difference isn't below 0. Check this with `<=` on the addresses.
    fn sub(self, rhs: VirtAddrIn<L>) -> u64 {
        self.as_u64() - rhs.as_u64()
    }
}
