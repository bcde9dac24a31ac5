//! Addresses rounded down and up to a multiple of a power of two.
ghost use Rattle.std.specs.Prelude.{◌≡◌, ◌-◌, ◌%◌, ◌^◌, ◌<◌, ◌↔◌, IsTrue};
ghost use Rattle.std.specs.Int.{is_power_of_two, next_multiple_of};
ghost use Rattle.x86_64_model.specs.Position.{raw, position_count};
ghost use Rattle.x86_64_model.specs.Alignment.{IsGreatestMultiple, IsLeastMultiple};

use crate::addr::{PhysAddr, VirtAddrIn};
use crate::level_count::LevelCount;

/// Returns the greatest multiple of `align` that isn't above `addr`.
///
/// Requires that `align` is a power of two. Check this with [`u64::is_power_of_two`].
pub fn align_down(addr: u64, align: u64) -> u64
    requires { IsTrue (is_power_of_two align) }
    ensures value { result ≡ addr - addr % align }
    ensures greatest { IsGreatestMultiple align addr result }
{
    addr - remainder(addr, align)
}

/// Returns the least multiple of `align` that isn't below `addr`.
///
/// Requires that `align` is a power of two, and that the multiple is below 2^64. Check this with [`u64::is_power_of_two`] and
/// [`u64::checked_next_multiple_of`].
#[tactic(auto, using(crate::proofs::Alignments::least))]
pub fn align_up(addr: u64, align: u64) -> u64
    requires power { IsTrue (is_power_of_two align) }
    requires fits { next_multiple_of addr align < 2 ^ 64 }
    ensures value { result ≡ next_multiple_of addr align }
    ensures least { IsLeastMultiple align addr result }
{
    let rest = remainder(addr, align);
    if rest == 0 {
        addr
    } else {
        addr + (align - rest)
    }
}

/// Returns the distance of a number from the greatest multiple of `align` that isn't above it.
///
/// Requires that `align` is a power of two.
#[tactic(auto, using(crate::proofs::Alignments::masked, crate::proofs::Alignments::positive, crate::proofs::Alignments::remainder_below))]
fn remainder(addr: u64, align: u64) -> u64
    requires { IsTrue (is_power_of_two align) }
    ensures value { result ≡ addr % align }
    ensures below { addr % align < align }
{
    addr & (align - 1)
}

impl<L: LevelCount> VirtAddrIn<L> {
    /// Returns the address at the position of the raw value aligned up by [`align_up`], which is the position aligned up, both
    /// modulo the number of positions. If `align` is at least 2^48, or 2^57 with five levels, this is the address 0.
    ///
    /// Requires that `align` is a power of two, and that the raw value aligned up is below 2^64. Check this with
    /// [`u64::is_power_of_two`] and [`u64::checked_next_multiple_of`].
    pub fn align_up(self, align: u64) -> Self
        requires power { IsTrue (is_power_of_two align) }
        requires fits { next_multiple_of (raw L.LEVELS self) align < 2 ^ 64 }
        ensures value { result ≡ next_multiple_of (raw L.LEVELS self) align % position_count L.LEVELS }
        ensures position { result ≡ next_multiple_of self align % position_count L.LEVELS }
    {
        Self::new_truncate(align_up(self.as_u64(), align))
    }

    /// Returns the address at the position of the raw value aligned down by [`align_down`], which is the position aligned down.
    ///
    /// Requires that `align` is a power of two. Check this with [`u64::is_power_of_two`].
    pub fn align_down(self, align: u64) -> Self
        requires { IsTrue (is_power_of_two align) }
        ensures value { result ≡ (raw L.LEVELS self - raw L.LEVELS self % align) % position_count L.LEVELS }
        ensures position { result ≡ self - self % align }
    {
        Self::new_truncate(align_down(self.as_u64(), align))
    }

    /// Returns true if the position is a multiple of `align`. If `align` is at least 2^48, or 2^57 with five levels, only the
    /// address 0 is aligned.
    ///
    /// Requires that `align` is a power of two. Check this with [`u64::is_power_of_two`].
    pub fn is_aligned(self, align: u64) -> bool
        requires { IsTrue (is_power_of_two align) }
        ensures { IsTrue result ↔ (self % align ≡ 0) }
    {
        remainder(self.position(), align) == 0
    }
}

impl PhysAddr {
    /// Returns the least multiple of `align` that isn't below the address.
    ///
    /// Requires that `align` is a power of two, and that the multiple is below 2^52. Check this with [`u64::is_power_of_two`],
    /// and with [`u64::checked_next_multiple_of`] and [`try_new`](Self::try_new).
    pub fn align_up(self, align: u64) -> PhysAddr
        requires power { IsTrue (is_power_of_two align) }
        requires fits { next_multiple_of self align < 2 ^ 52 }
        ensures value { result ≡ next_multiple_of self align }
        ensures least { IsLeastMultiple align self result }
    {
        PhysAddr::new(align_up(self.as_u64(), align))
    }

    /// Returns the greatest multiple of `align` that isn't above the address.
    ///
    /// Requires that `align` is a power of two. Check this with [`u64::is_power_of_two`].
    pub fn align_down(self, align: u64) -> PhysAddr
        requires { IsTrue (is_power_of_two align) }
        ensures value { result ≡ self - self % align }
        ensures greatest { IsGreatestMultiple align self result }
    {
        PhysAddr::new(align_down(self.as_u64(), align))
    }

    /// Returns true if the address is a multiple of `align`.
    ///
    /// Requires that `align` is a power of two. Check this with [`u64::is_power_of_two`].
    pub fn is_aligned(self, align: u64) -> bool
        requires { IsTrue (is_power_of_two align) }
        ensures { IsTrue result ↔ (self % align ≡ 0) }
    {
        remainder(self.as_u64(), align) == 0
    }
}
