//! Sums and differences of physical addresses.
ghost use Rattle.std.specs.Prelude.{◌≡◌, ◌+◌, ◌-◌, ◌^◌, ◌<◌, ◌≤◌};

use crate::addr::PhysAddr;
use std::ops::{Add, AddAssign, Sub, SubAssign};

impl Add<u64> for PhysAddr {
    type Output = PhysAddr;

    ghost can_add = { λ address count. address + count < 2 ^ 52 };

    ghost add_gives = { λ address count sum. sum ≡ address + count };

    /// Returns the sum.
    ///
    /// Requires that the sum is below 2^52. Check this with [`u64::checked_add`] and [`PhysAddr::try_new`].
    fn add(self, rhs: u64) -> PhysAddr {
        PhysAddr::new(self.as_u64() + rhs)
    }
}

impl AddAssign<u64> for PhysAddr {
    ghost can_add_assign = { λ address count. address + count < 2 ^ 52 };

    ghost add_assign_gives = { λ address count sum. sum ≡ address + count };

    /// Adds to the address.
    ///
    /// Requires that the sum is below 2^52, as for `+`.
    fn add_assign(&mut self, rhs: u64) {
        *self = *self + rhs;
    }
}

impl Sub<u64> for PhysAddr {
    type Output = PhysAddr;

    ghost can_sub = { λ address count. count ≤ address };

    ghost sub_gives = { λ address count rest. rest ≡ address - count };

    /// Returns the difference.
    ///
    /// Requires that the difference isn't below 0. Check this with `<=` on the numbers.
    fn sub(self, rhs: u64) -> PhysAddr {
        PhysAddr::new(self.as_u64() - rhs)
    }
}

impl SubAssign<u64> for PhysAddr {
    ghost can_sub_assign = { λ address count. count ≤ address };

    ghost sub_assign_gives = { λ address count rest. rest ≡ address - count };

    /// Subtracts from the address.
    ///
    /// Requires that the difference isn't below 0, as for `-`.
    fn sub_assign(&mut self, rhs: u64) {
        *self = *self - rhs;
    }
}

impl Sub<PhysAddr> for PhysAddr {
    type Output = u64;

    ghost can_sub = { λ address other. other ≤ address };

    ghost sub_gives = { λ address other count. count ≡ address - other };

    /// Returns the difference.
    ///
    /// Requires that the difference isn't below 0. Check this with `<=` on the addresses.
    fn sub(self, rhs: PhysAddr) -> u64 {
        self.as_u64() - rhs.as_u64()
    }
}
