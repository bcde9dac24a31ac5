//! A pool of free frames.
ghost use Rattle.std.specs.Prelude.{◌≡◌, ◌≢◌, ◌↔◌, ℕ, ◌/◌, ◌<◌, ◌≤◌, [], ◌∷◌, ◌++◌, true, length, drop, slice_get, vec_len, IfOk, OnOk, OnErr, IsTrue};
ghost use Rattle.x86_64_model.specs.Lists.{In};
ghost use Rattle.x86_64_model.specs.Pool.{serves_below};

use super::{FrameAllocator, FrameDeallocator, FrameKeeper, FrameStore};
use std::alloc::{AllocError, Global};
use std::collections::VecDeque;
use std::marker::Model;
use x86_64_page::frame::PhysFrame;
use x86_64_page::page::{PageSize, Size4KiB};

/// The reason why a pool refuses a frame.
#[derive(Clone, Copy, Debug, PartialEq)]
pub enum PoolRefusal {
    /// The frame starts at address 0.
    Zero,
    /// The frame's number isn't below the pool's limit.
    OutOfRange,
    /// The frame is already free.
    AlreadyFree,
}

/// A pool of free 4KiB frames. It serves the frames with numbers from 1 to a limit minus 1, and the limit never changes.
/// Contracts see its frames as a list.
///
/// Frames are taken from the front of the list, and put back at the front. Only `new` allocates memory. Adding a frame,
/// taking one, putting one back and `contains` take constant time.
///
/// Two pools are equal if they have the same frames in the same order.
#[derive(Drop)]
pub struct FramePool {
    frames: VecDeque<PhysFrame<Size4KiB>>,
    // For each number below the limit, whether the frame with this number is free.
    is_free: Vec<bool>,
    // The laws of the allocator are about every value that contracts see, so this fact is part of the value.
    ghost served: { (f : ℕ) → In frames.items f → serves_below (vec_len is_free) f ≡ true },
}

impl Model for FramePool {
    ghost use Rattle.std.specs.Prelude.{◌≤◌, vec_len};
    ghost use Rattle.std.specs.VecDeque.{deque_capacity};
    ghost use Rattle.x86_64_tables.specs.FramePool.{FreeFrames, IsMarked};

    ghost Value = { FreeFrames };

    ghost view = { λ pool.
        record { frames = pool.frames.items; limit = vec_len pool.is_free; served = pool.served } };

    ghost invariant = { λ pool. IsMarked pool.frames.items pool.is_free.items
        × (vec_len pool.is_free ≤ deque_capacity pool.frames) };
}

impl FramePool {
    /// Creates an empty pool that serves the frames with numbers from 1 to `limit` - 1, and reserves room for all of them.
    ///
    /// # Errors
    ///
    /// `AllocError` if memory allocation fails. A pool with the limit 0 needs no allocation.
    pub fn new(alloc: Global, limit: u64) -> Result<FramePool, AllocError>
        ensures empty { IfOk result (λ pool. pool.frames ≡ []) }
        ensures limit { IfOk result (λ pool. pool.limit ≡ limit) }
        ensures needs_memory { OnErr result (0 < limit) }
    {
        let places = limit as usize;
        let frames = VecDeque::with_capacity(alloc, places)?;
        let mut is_free = Vec::new(alloc);
        is_free.resize(places, false)?;
        Ok(FramePool { frames, is_free })
    }

    /// Adds a frame at the back of the list.
    ///
    /// # Errors
    ///
    /// `Zero` for the frame at address 0, else `OutOfRange` if the frame's number isn't below the limit, else `AlreadyFree` if
    /// the frame is free. On an error nothing changes.
    pub fn try_add(&mut self, frame: PhysFrame<Size4KiB>) -> Result<(), PoolRefusal>
        ensures zero { (result ≡ Err PoolRefusal.Zero) ↔ (frame ≡ 0) }
        ensures out_of_range { (result ≡ Err PoolRefusal.OutOfRange)
            ↔ ((frame ≢ 0) × (self.old.limit ≤ frame / 4096)) }
        ensures already_free { (result ≡ Err PoolRefusal.AlreadyFree) ↔ In self.old.frames frame }
        ensures added { OnOk result (self.new.frames ≡ self.old.frames ++ frame ∷ []) }
        ensures refused { OnErr result (self.new ≡ self.old) }
        ensures limit { self.new.limit ≡ self.old.limit }
    {
        let number = number_of(frame);
        if number == 0 {
            return Err(PoolRefusal::Zero);
        }
        if self.is_free.len() <= number {
            return Err(PoolRefusal::OutOfRange);
        }
        if self.is_free[number] {
            return Err(PoolRefusal::AlreadyFree);
        }
        self.is_free[number] = true;
        // There are more numbers than free frames, so the reserved room suffices.
        self.frames.push_back(frame).unwrap();
        Ok(())
    }

    /// Returns the number of free frames.
    pub fn len(&self) -> usize
        ensures { result ≡ length self.now.frames }
    {
        self.frames.len()
    }

    /// Returns true if a frame is free.
    pub fn contains(&self, frame: PhysFrame<Size4KiB>) -> bool
        ensures { IsTrue result ↔ In self.now.frames frame }
    {
        self.is_free.get(number_of(frame)) == Some(&true)
    }

    /// Returns the `n`-th frame of the list, counted from 0, or `None` if the list has no more than `n` frames.
    pub fn frame_at(&self, n: usize) -> Option<PhysFrame<Size4KiB>>
        ensures { result ≡ slice_get self.now.frames n }
    {
        self.frames.get(n).copied()
    }

    /// Returns the limit. The numbers of all served frames are below it.
    pub fn limit(&self) -> u64
        ensures { result ≡ self.now.limit }
    {
        self.is_free.len() as u64
    }
}

impl PartialEq for FramePool {
    ghost use Rattle.std.specs.Prelude.{◌==◌};
    ghost use Rattle.std.specs.Cmp.Lexicographic.{pointwise};
    ghost use Rattle.std.specs.Ordering.{on};
    ghost use Rattle.std.specs.Cmp.Rules.{comparing};
    ghost use Rattle.std.proofs.Common.{rules};

    ghost eq = { on (λ pool. pool.frames) (pointwise ◌==◌) };

    ghost laws = { Prim.search (comparing, rules) };

    fn eq(&self, other: &FramePool) -> bool
        ensures value { result ≡ pointwise ◌==◌ self.now.frames other.now.frames }
        ensures same_frames { IsTrue result ↔ (self.now.frames ≡ other.now.frames) }
    {
        self.frames == other.frames
    }
}

impl Eq for FramePool {
    ghost use Rattle.std.specs.Cmp.Rules.{comparing};
    ghost use Rattle.std.proofs.Common.{rules};

    ghost laws = { Prim.search (comparing, rules) };
}

impl FrameKeeper<Size4KiB> for FramePool {
    ghost serves = { λ pool. serves_below pool.limit };
}

impl FrameAllocator<Size4KiB> for FramePool {
    ghost supply = { λ pool. pool.frames };

    // Mapping a page rarely creates a table, so this is kept out of the common path.
    #[cold]
    #[inline(never)]
    fn allocate_frame(&mut self) -> Option<PhysFrame<Size4KiB>>
        ensures first { result ≡ slice_get self.old.frames 0 }
        ensures rest { self.new.frames ≡ drop 1 self.old.frames }
        ensures limit { self.new.limit ≡ self.old.limit }
    {
        let frame = self.frames.pop_front()?;
        self.is_free[number_of(frame)] = false;
        Some(frame)
    }

    ghost supply_is_served = { λ pool. pool.served };
}

impl FrameDeallocator<Size4KiB> for FramePool {
    ghost use Rattle.std.specs.Prelude.{◌∷◌};
    ghost use Rattle.std.proofs.lemmas.List.Sorted.{IsPermutation-refl};

    ghost held = { λ pool. pool.frames };

    ghost take_back = { λ held frame. frame ∷ held };

    fn deallocate_frame(&mut self, frame: PhysFrame<Size4KiB>)
        requires served { serves_below self.old.limit frame ≡ true }
        requires not_held { In self.old.frames frame → ⊥ }
        ensures held { self.new.frames ≡ frame ∷ self.old.frames }
        ensures limit { self.new.limit ≡ self.old.limit }
    {
        self.is_free[number_of(frame)] = true;
        // The frame was not free, so the reserved room suffices.
        self.frames.push_front(frame).unwrap();
    }

    ghost held_is_served = { λ pool. pool.served };

    ghost take_back_rearranges = { λ held frame. IsPermutation-refl (frame ∷ held) };
}

impl FrameStore for FramePool {
    ghost use Rattle.std.specs.Prelude.{refl};

    ghost one_list = { λ pool. refl };
}

/// Returns the number of a frame.
fn number_of(frame: PhysFrame<Size4KiB>) -> usize
    ensures { result ≡ frame / 4096 }
{
    (frame.start_address().as_u64() / Size4KiB::SIZE) as usize
}
