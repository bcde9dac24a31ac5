//! Ranges of positions, which are the numbers of addresses counted without the gap.
ghost use Rattle.std.specs.Prelude.{◌≡◌, ◌≤◌, ◌<◌, ◌%◌, ◌-◌, ◌+◌, Some};
ghost use Rattle.x86_64_model.specs.Position.{position_count};
ghost use Rattle.ptdump_check.specs.private.Reaching as reaching;

use crate::checking::AddressRange;
use x86_64_addr::addr::VirtAddrIn;
use x86_64_addr::level_count::LevelCount;
use x86_64_mappings::MappingIn;

/// The positions from a first one to a last one, both included.
#[derive(Clone, Copy)]
pub struct Positions {
    /// The first.
    pub first: u64,
    /// The last.
    pub last: u64,
}

impl Positions {
    /// Returns the positions of the addresses of a range.
    pub fn of_range<L: LevelCount>(range: AddressRange) -> Positions
        ensures { result ≡ record {
          first = range.first % position_count L.LEVELS;
          last = range.last % position_count L.LEVELS;
        } }
    {
        Positions {
            first: VirtAddrIn::<L>::new_truncate(range.first).position(),
            last: VirtAddrIn::<L>::new_truncate(range.last).position(),
        }
    }

    /// Returns the positions of a mapping.
    pub fn of_mapping<L: LevelCount>(mapping: &MappingIn<L>) -> Positions
        requires { mapping.now.start + mapping.now.size ≤ position_count L.LEVELS }
        ensures { result ≡ reaching.positions_of mapping.now }
    {
        let first = mapping.start.position();
        let last = first + (mapping.size() - 1);
        Positions { first, last }
    }

    /// Returns true if others are all among these.
    pub fn contains(self, others: Positions) -> bool
        ensures { result ≡ reaching.are_left_out (Some self) others }
    {
        self.first <= others.first && others.last <= self.last
    }

    /// Returns true if none of others is among these.
    pub fn is_apart(self, others: Positions) -> bool
        ensures { result ≡ reaching.are_apart (Some self) others }
    {
        others.last < self.first || self.last < others.first
    }
}
