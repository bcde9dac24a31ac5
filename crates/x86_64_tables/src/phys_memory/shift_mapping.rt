//! A mapping of the frames from a first one on to the places from 0 on.
ghost use Rattle.std.specs.Prelude.{◌≡◌};
ghost use Rattle.x86_64_tables.specs.Shifted.{shifted_places};

use super::{FramePlace, PageTableFrameMapping};
use x86_64_page::frame::PhysFrame;
use x86_64_page::page::Size4KiB;

/// The mapping of each 4KiB frame from a first one on to a place (the number of its table in the memory): the frame's number
/// minus that of the first. Frames before the first aren't covered.
#[derive(Clone, Copy, Debug)]
pub struct ShiftMapping {
    first: u64,
}

impl ShiftMapping {
    /// Creates the mapping of the frame with number `first` to place 0.
    pub fn new(first: u64) -> ShiftMapping
        ensures { ⟦<Self as PageTableFrameMapping>⟧.places result ≡ shifted_places first }
    {
        ShiftMapping { first }
    }
}

impl PageTableFrameMapping for ShiftMapping {
    ghost use Rattle.x86_64_tables.specs.Shifted.{shifted_is_mapping};

    ghost places = { λ mapping. shifted_places mapping.first };

    fn frame_to_pointer(&self, frame: PhysFrame<Size4KiB>) -> FramePlace {
        FramePlace::new(frame.pfn() - self.first)
    }

    fn covers(&self, frame: PhysFrame<Size4KiB>) -> bool {
        let _start = frame.start_address();
        self.first <= frame.pfn()
    }

    ghost is_mapping = { λ mapping. shifted_is_mapping mapping.first };
}
