//! Steps through the pages of a size, in order of their positions: they continue after the gap in the middle of the address
//! space.
//!
//! A position is the number of an address counted without the gap.
ghost use Rattle.std.specs.Prelude.{◌≡◌, ◌*◌};
ghost use Rattle.x86_64_addr.specs.Position.{position_count};
ghost use Rattle.x86_64_addr.specs.Successor.{forward, backward};
ghost use Rattle.x86_64_page.specs.Steps.{pages_between};

use crate::page::{PageIn, PageSize};
use crate::range::places;
use x86_64_addr::level_count::LevelCount;

impl<S: PageSize, L: LevelCount> PageIn<S, L> {
    /// Returns the page `count` pages after `start`.
    ///
    /// Returns `None` if its position wouldn't be below the number of positions, 2^48 or 2^57.
    pub fn forward_checked(start: Self, count: usize) -> Option<Self>
        ensures { result ≡ forward (position_count L.LEVELS) start (count * S.SIZE) }
    {
        places::forward_checked(start, count)
    }

    /// Returns the page `count` pages before `start`.
    ///
    /// Returns `None` if `count` pages have more bytes than the position of `start`.
    pub fn backward_checked(start: Self, count: usize) -> Option<Self>
        ensures { result ≡ backward start (count * S.SIZE) }
    {
        places::backward_checked(start, count)
    }

    /// Returns the number of pages from `start` up to but excluding `end`, as equal lower and upper bounds.
    ///
    /// Returns `(0, None)` if `end` is below `start`.
    pub fn steps_between(start: &Self, end: &Self) -> (usize, Option<usize>)
        ensures { result ≡ pages_between S.SIZE start.now end.now }
    {
        places::steps_between(*start, *end)
    }
}
