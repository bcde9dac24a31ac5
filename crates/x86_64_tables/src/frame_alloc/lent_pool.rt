//! A pool of free frames in an array that its owner lends.
ghost use Rattle.std.specs.Prelude.{◌≡◌, ℕ, List, ◌∷◌, ◌≤◌, true, length, drop, slice_get, slice_set};
ghost use Rattle.std.specs.Borrow.{ftrue};
ghost use Rattle.x86_64_model.specs.Entry.{is_frame};
ghost use Rattle.x86_64_model.specs.Lists.{In, EachOnce};
ghost use Rattle.x86_64_tables.specs.LentPool.{stacked, is_in, served_by};
ghost use Rattle.x86_64_tables.specs.private.PoolLaws.{EachOnce-prop};

use super::{FrameAllocator, FrameDeallocator, FrameKeeper, FrameStore};
use std::marker::Model;
use x86_64_addr::addr::PhysAddr;
use x86_64_page::frame::PhysFrame;
use x86_64_page::page::Size4KiB;

/// The frames that a pool may ever hold: a list that only contracts read. It takes no memory.
#[derive(Drop)]
pub struct OwnFrames {
    pub ghost frames: { List ℕ },
}

impl Model for OwnFrames {
    ghost also_owns = { λ _. ftrue };
}

impl OwnFrames {
    /// Returns the list that the caller's contract names.
    pub fn of() -> OwnFrames
        ghost own: { List ℕ }
        ensures { result.frames ≡ own }
    {
        OwnFrames {}
    }
}

/// Holds free 4KiB frames in an array that is lent, beside their number, and takes no memory.
///
/// The first `count` entries of the array are the addresses of the free frames, a stack: the last of them is handed out first, and
/// a frame that comes back goes on top. Each call takes constant time. Taking a frame writes no entry, and a frame that comes back
/// is written to the first entry behind the free ones; all other entries stay.
///
/// It serves the frames of a list, [`OwnFrames`], which is no longer than the array: so there is an entry for each frame that comes
/// back. Two numbers that it serves are no frames and name the loans. So a call that keeps what is served keeps the loans too, and
/// once they end, the owner of the array and of the count knows which frames are free.
pub struct LentPool<'a> {
    entries: &'a mut [u64],
    count: &'a mut usize,
    own: OwnFrames,
    ghost in_array: { count.now ≤ length entries.now },
    ghost room: { length own.frames ≤ length entries.now },
    ghost each_once: { EachOnce (stacked entries.now count.now) } by { EachOnce-prop _ },
    ghost are_frames: { (f : ℕ) → In (stacked entries.now count.now) f → is_frame f ≡ true },
    ghost served: { (f : ℕ) → In (stacked entries.now count.now) f → is_in own.frames f ≡ true },
}

impl<'a> LentPool<'a> {
    /// Makes a pool of an array whose first `count` entries are the addresses of the free frames, the last of which is handed out
    /// first. Neither the array nor the count changes.
    ///
    /// Requires that the array has at least `count` entries, and at least as many as `own` has frames. Each of its first `count`
    /// entries must be the address of a 4KiB frame (a multiple of 4096 below 2^52) that is there once and that `own` has.
    pub fn new(entries: &'a mut [u64], count: &'a mut usize, own: OwnFrames) -> LentPool<'a>
        requires in_array { count.old ≤ length entries.old }
        requires room { length own.frames ≤ length entries.old }
        requires each_once { EachOnce (stacked entries.old count.old) }
        requires are_frames { (f : ℕ) → In (stacked entries.old count.old) f → is_frame f ≡ true }
        requires served { (f : ℕ) → In (stacked entries.old count.old) f → is_in own.frames f ≡ true }
        ensures supply { ⟦<Self as FrameAllocator<Size4KiB>>⟧.supply result ≡ stacked entries.old count.old }
        ensures serves { ⟦<Self as FrameKeeper<Size4KiB>>⟧.serves result
            ≡ served_by own.frames entries.entry.ghost_name count.entry.ghost_name }
        ensures array { result.entries.now ≡ entries.old }
        ensures count { result.count.now ≡ count.old }
    {
        LentPool {
            entries,
            count,
            own,
        }
    }
}

impl<'a> Drop for LentPool<'a> {
    // The array's front is the frames that are free then, and the count is their number.
    fn drop(self)
        ensures in_array { self.exit.1.0.now ≤ length self.exit.0.now }
        ensures free { stacked self.exit.0.now self.exit.1.0.now
            ≡ ⟦<Self as FrameAllocator<Size4KiB>>⟧.supply self.entry }
        ensures array { self.exit.0.now ≡ self.entry.entries.now }
        ensures count { self.exit.1.0.now ≡ self.entry.count.now }
    {
        let LentPool {
            entries: _,
            count: _,
            own: _,
        } = self;
    }
}

impl<'a> FrameKeeper<Size4KiB> for LentPool<'a> {
    ghost serves = { λ pool. served_by pool.own.frames pool.entries.ghost_name pool.count.ghost_name };
}

impl<'a> FrameAllocator<Size4KiB> for LentPool<'a> {
    ghost use Rattle.x86_64_tables.specs.private.PoolLaws.{served_frame};

    ghost supply = { λ pool. stacked pool.entries.now pool.count.now };

    // Few maps of pages make a table, so this stays out of the way of the others.
    #[cold]
    #[inline(never)]
    fn allocate_frame(&mut self) -> Option<PhysFrame<Size4KiB>>
        ensures first { result ≡ slice_get (stacked self.old.entries.now self.old.count.now) 0 }
        ensures rest { stacked self.new.entries.now self.new.count.now
            ≡ drop 1 (stacked self.old.entries.now self.old.count.now) }
        ensures serves { ⟦<Self as FrameKeeper<Size4KiB>>⟧.serves self.new
            ≡ ⟦<Self as FrameKeeper<Size4KiB>>⟧.serves self.old }
        ensures array { self.new.entries.now ≡ self.old.entries.now }
    {
        if *self.count == 0 {
            return None;
        }
        let top = *self.count - 1;
        let address = PhysAddr::new(self.entries[top]);
        *self.count = top;
        Some(PhysFrame::from_start_address_unchecked(address))
    }

    ghost supply_is_served = { λ pool frame free. served_frame pool.own.frames pool.entries.ghost_name
        pool.count.ghost_name frame (pool.are_frames frame free) (pool.served frame free) };
}

impl<'a> FrameDeallocator<Size4KiB> for LentPool<'a> {
    ghost use Rattle.std.proofs.lemmas.List.Sorted.{IsPermutation-refl};
    ghost use Rattle.x86_64_tables.specs.private.PoolLaws.{served_frame};

    ghost held = { λ pool. stacked pool.entries.now pool.count.now };

    ghost take_back = { λ held frame. frame ∷ held };

    fn deallocate_frame(&mut self, frame: PhysFrame<Size4KiB>)
        requires served { ⟦<Self as FrameKeeper<Size4KiB>>⟧.serves self.old frame ≡ true }
        requires not_held { In (stacked self.old.entries.now self.old.count.now) frame → ⊥ }
        ensures held { stacked self.new.entries.now self.new.count.now
            ≡ frame ∷ stacked self.old.entries.now self.old.count.now }
        ensures serves { ⟦<Self as FrameKeeper<Size4KiB>>⟧.serves self.new
            ≡ ⟦<Self as FrameKeeper<Size4KiB>>⟧.serves self.old }
        ensures array { self.new.entries.now
            ≡ slice_set self.old.entries.now self.old.count.now frame }
    {
        // The frame is served and not among the others, so these are fewer than the entries.
        let end = *self.count;
        self.entries[end] = frame.start_address().as_u64();
        *self.count = end + 1;
    }

    ghost held_is_served = { λ pool frame free. served_frame pool.own.frames pool.entries.ghost_name
        pool.count.ghost_name frame (pool.are_frames frame free) (pool.served frame free) };

    ghost take_back_rearranges = { λ held frame. IsPermutation-refl (frame ∷ held) };
}

impl<'a> FrameStore for LentPool<'a> {
    ghost use Rattle.std.specs.Prelude.{refl};

    ghost one_list = { λ pool. refl };
}
