//! Joins regions that arrive in order.
ghost use Rattle.std.specs.Prelude.{◌≡◌, Some, None};
ghost use Rattle.x86_64_mappings.specs.private.Joined.{held_with, given_with, listed};

use crate::RegionIn;
use std::marker::Model;
use x86_64_addr::level_count::LevelCount;

/// A joiner of regions that arrive in order. It joins each with the one before if it follows that. Contracts see it as the
/// region that is held back because it may still grow.
#[derive(Clone, Copy)]
pub(crate) struct Joiner<L: LevelCount> {
    held: Option<RegionIn<L>>,
}

impl<L: LevelCount> Model for Joiner<L> {
    ghost use Rattle.std.specs.Prelude.{Option, refl};
    ghost use Rattle.x86_64_model.specs.Regions.{Region};

    ghost Value = { Option Region };

    ghost view = { λ joiner. joiner.held };

    ghost inverse = { λ held. record { held = held } };

    ghost inverse_ok = { λ held _. refl };
}

impl<L: LevelCount> Joiner<L> {
    /// Creates a joiner that holds no region back.
    pub(crate) fn new() -> Joiner<L>
        ensures { result ≡ None }
    {
        Joiner { held: None }
    }

    /// Takes a region that comes after those taken before, and returns the region that was held back if that can't grow
    /// any more.
    #[inline(always)]
    pub(crate) fn join(&mut self, region: RegionIn<L>) -> Option<RegionIn<L>>
        ensures given { listed result ≡ given_with L.LEVELS self.old region }
        ensures held { self.new ≡ Some (held_with L.LEVELS self.old region) }
    {
        if let Some(held) = &mut self.held {
            if held.is_followed_by(&region) {
                *held = held.grown_to(&region);
                return None;
            }
        }
        let before = self.held;
        self.held = Some(region);
        before
    }

    /// Returns the region that is held back, since no other region comes after it.
    pub(crate) fn finish(&mut self) -> Option<RegionIn<L>>
        ensures given { result ≡ self.old }
        ensures held { self.new ≡ None }
    {
        let held = self.held;
        self.held = None;
        held
    }
}
