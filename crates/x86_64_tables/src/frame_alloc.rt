//! Allocators that hand out frames for new page tables and take them back.
ghost use Rattle.std.specs.Prelude.{◌≡◌, ℕ, Bool, true, List, ◌∷◌, drop, slice_get, IsPermutation};
ghost use Rattle.x86_64_model.specs.Lists.{In};

mod lent_pool;
mod pool;

pub use lent_pool::{LentPool, OwnFrames};
pub use pool::{FramePool, PoolRefusal};
use x86_64_page::frame::PhysFrame;
use x86_64_page::page::{PageSize, Size4KiB};

/// A keeper of frames of one size. It serves the frames that it may hand out and take back, a set that no call changes.
pub trait FrameKeeper<S: PageSize> {
    /// The frames that may be handed out and taken back.
    ghost serves: { Self → (frame : ℕ) → Bool };
}

/// An allocator of frames. Its supply is the list of the frames that can be handed out, in order.
///
/// Law: the allocator serves each frame of its supply.
pub trait FrameAllocator<S: PageSize>: FrameKeeper<S> {
    /// The frames that can be handed out, in order.
    ghost supply: { Self → List ℕ };

    /// Takes the first frame of the supply, or returns `None` if and only if the supply is empty.
    fn allocate_frame(&mut self) -> Option<PhysFrame<S>>
        ensures first { result ≡ slice_get (supply self.old) 0 }
        ensures rest { supply self.new ≡ drop 1 (supply self.old) }
        ensures serves { Self.serves self.new ≡ Self.serves self.old };

    ghost supply_is_served: { (allocator : Self) (frame : ℕ) → In (supply allocator) frame
        → Self.serves allocator frame ≡ true };
}

/// A deallocator of frames: it takes frames back, and has a list of the frames that it holds.
///
/// Laws: it serves each frame that it holds. After taking a frame back, it holds this frame and those that it held before,
/// in some order.
pub trait FrameDeallocator<S: PageSize>: FrameKeeper<S> {
    /// The frames that it holds now.
    ghost held: { Self → List ℕ };

    /// The frames that are held after a frame is taken back, as a function that the type fixes.
    ghost take_back: { (held : List ℕ) → (frame : ℕ) → List ℕ };

    /// Takes a frame back.
    ///
    /// Requires that the frame is served and not held.
    fn deallocate_frame(&mut self, frame: PhysFrame<S>)
        requires served { Self.serves self.old frame ≡ true }
        requires not_held { In (held self.old) frame → ⊥ }
        ensures held { held self.new ≡ take_back (held self.old) frame }
        ensures serves { Self.serves self.new ≡ Self.serves self.old };

    ghost held_is_served: { (deallocator : Self) (frame : ℕ) → In (held deallocator) frame
        → Self.serves deallocator frame ≡ true };

    ghost take_back_rearranges: { (held : List ℕ) (frame : ℕ)
        → IsPermutation (frame ∷ held) (take_back held frame) };
}

/// A store of 4KiB frames, which hands them out and takes them back.
///
/// Law: its supply is the list of the frames that it holds.
pub trait FrameStore: FrameAllocator<Size4KiB> + FrameDeallocator<Size4KiB> {
    ghost one_list: { (store : Self) → Self.supply store ≡ Self.held store };
}
