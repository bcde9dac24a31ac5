//! Sets of frames.
ghost use Rattle.std.specs.Prelude.{◌≡◌, [], OnOk};
ghost use Rattle.x86_64_dump.specs.Tables.{met};

use std::alloc::{AllocError, Global};
use std::collections::HashSet;
use std::marker::Model;
use x86_64_page::frame::PhysFrame;
use x86_64_page::page::Size4KiB;

/// A set of frames, in the order in which they were first inserted. Its model is their list.
#[derive(Drop)]
pub struct FrameSet {
    frames: Vec<PhysFrame<Size4KiB>>,
    seen: HashSet<u64>,
}

impl Model for FrameSet {
    ghost use Rattle.std.specs.Prelude.{◌≡◌, List, ℕ, nat_eq};
    ghost use Rattle.std.specs.HashSet as set;
    ghost use Rattle.std.specs.List.{list_any};

    ghost Value = { List ℕ };

    ghost view = { λ set. set.frames.items };

    ghost invariant = { λ s. (frame : ℕ) → set.contains nat_eq s.seen frame
        ≡ list_any (nat_eq frame) s.frames.items };
}

impl FrameSet {
    /// Creates an empty set.
    pub fn new(alloc: Global) -> FrameSet
        ensures { result ≡ [] }
    {
        FrameSet {
            frames: Vec::new(alloc),
            seen: HashSet::new(alloc),
        }
    }

    /// Adds a frame, unless it is already in the set.
    ///
    /// # Errors
    ///
    /// `AllocError` if memory allocation fails.
    pub fn insert(&mut self, frame: PhysFrame<Size4KiB>) -> Result<(), AllocError>
        ensures { OnOk result (self.new ≡ met self.old frame) }
    {
        self.frames.reserve(1)?;
        if self.seen.insert(frame.start_address().as_u64())? {
            self.frames.push_reserved(frame);
        }
        Ok(())
    }

    /// Returns the frames in order.
    pub fn into_frames(self) -> Vec<PhysFrame<Size4KiB>>
        ensures { result.items ≡ self }
    {
        self.frames
    }
}
