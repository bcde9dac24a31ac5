//! Steps through the virtual addresses, in order of their positions: they continue after the gap in the middle of the address
//! space.
//!
//! A position is the number of an address counted without the gap.
ghost use Rattle.std.specs.Prelude.{◌≡◌, ◌%◌, ◌^◌, ◌<◌};
ghost use Rattle.x86_64_model.specs.Position.{position_count};
ghost use Rattle.x86_64_model.specs.Successor.{forward, backward, steps_between};

use crate::addr::VirtAddrIn;
use crate::level_count::LevelCount;

impl<L: LevelCount> VirtAddrIn<L> {
    /// Returns the address `count` bytes after `start`.
    ///
    /// Returns `None` if the sum of the position and the count isn't below the number of positions, 2^48 or 2^57.
    pub fn forward_checked(start: Self, count: usize) -> Option<Self>
        ensures { result ≡ forward (position_count L.LEVELS) start count }
    {
        let position = start.position();
        let count = count as u64;
        if count < L::POSITION_COUNT - position {
            Some(Self::new_truncate(position + count))
        } else {
            None
        }
    }

    /// Returns the address `count` bytes before `start`.
    ///
    /// Returns `None` if the count is above the position.
    pub fn backward_checked(start: Self, count: usize) -> Option<Self>
        ensures { result ≡ backward start count }
    {
        let position = start.position();
        let count = count as u64;
        if count <= position {
            Some(Self::new_truncate(position - count))
        } else {
            None
        }
    }

    /// Returns the number of bytes from `start` to `end`, as equal lower and upper bounds.
    ///
    /// Returns `(0, None)` if `end` is below `start`.
    pub fn steps_between(start: &Self, end: &Self) -> (usize, Option<usize>)
        ensures { result ≡ steps_between start.now end.now }
    {
        let (start, end) = (start.position(), end.position());
        if start <= end {
            let count = (end - start) as usize;
            (count, Some(count))
        } else {
            (0, None)
        }
    }
}
