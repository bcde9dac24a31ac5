//! A frame allocator over a queue.
use std::collections::VecDeque;
use x86_64::FrameKeeper;
use x86_64::structures::paging::{FrameAllocator, PhysFrame, Size4KiB};

/// A queue of free frames.
#[derive(Drop)]
pub struct Queue {
    frames: VecDeque<PhysFrame<Size4KiB>>,
}

impl FrameKeeper<Size4KiB> for Queue {
    ghost use Rattle.std.specs.Prelude.{true};

    ghost serves = { λ queue frame. true };
}

impl FrameAllocator<Size4KiB> for Queue {
    ghost use Rattle.std.specs.Prelude.{refl};

    ghost supply = { λ queue. queue.frames.items };

    fn allocate_frame(&mut self) -> Option<PhysFrame<Size4KiB>> {
        self.frames.pop_front()
    }

    ghost supply_is_served = { λ queue frame is_in. refl };
}
