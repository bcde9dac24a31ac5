//! The frames of a hierarchy. The root is in the frame 0x1000, and each frame lies at the place of its number (a
//! place is the index of a table in memory).
ghost use Rattle.std.specs.Prelude.{◌≡◌, ◌↔◌, [], ℕ, if◌then◌else◌, IsOk, IfOk, IfErr, OnOk, OnErr, IsTrue, Some, None, nat_lt, option_map};
ghost use Rattle.std.specs.FinMap as map;
ghost use Rattle.x86_64_model.specs.Hierarchy.{◌laid_in◌};
ghost use Rattle.x86_64_model.specs.Memory.{words_of, identity_places};
ghost use Rattle.x86_64_model.specs.PageWalk as model;
ghost use Rattle.x86_64_model.specs.Store.{StoreFits};
ghost use Rattle.x86_64_tables.specs.PageTable.{zero_words};
ghost use Rattle.x86_64_tables.specs.Walks.{walked_of};
ghost use Rattle.x86_64.specs.Pairs.{pool_store};
ghost use Rattle.pagetab_engine.specs.Arguments.{count};
ghost use Rattle.pagetab_engine.specs.Frames.{direct_layout, recursive_layout, IsLoadable, IsRefusedFor, memory_loaded, free_after, without_self_entry};
ghost use Rattle.pagetab_engine.specs.Slot.{word_at_place};

use crate::slot::Slot;
use crate::statement::ImageLine;
use std::alloc::{AllocError, Global};
use x86_64::structures::paging::{PageTableIndex, PhysFrame, Size4KiB};
use x86_64::{
    FramePool, IdentityMapping, LevelCount, PhysAddr, PhysMemory, PoolRefusal, VirtAddrIn, Walked,
    page_walk, pool_fits, pool_fits_57, pool_fits_recursive, pool_fits_recursive_57,
};
use x86_64_addr::level_count::Levels;

/// Page tables in a memory, and the frames that are free for new ones.
#[derive(Drop)]
pub struct Frames {
    /// The tables.
    pub memory: PhysMemory,
    /// The free frames.
    pub pool: FramePool,
}

impl Frames {
    /// Creates a memory with this number of places, with all words 0 and no free frames.
    ///
    /// # Errors
    ///
    /// `AllocError` if memory allocation fails.
    pub fn new(alloc: Global, places: u64) -> Result<Frames, AllocError>
        ensures memory { IfOk result (λ frames. (place : ℕ) →
            map.get frames.memory place ≡ (if nat_lt place places then Some zero_words else None)) }
        ensures pool { IfOk result (λ frames. frames.pool.frames ≡ []) }
        ensures limit { IfOk result (λ frames. frames.pool.limit ≡ places) }
    {
        Ok(Frames {
            memory: PhysMemory::new(alloc, places)?,
            pool: FramePool::new(alloc, places)?,
        })
    }

    /// Loads a line of the image: sets its word, or adds its frame behind the other free ones.
    ///
    /// # Errors
    ///
    /// Those of [`FramePool::try_add`]. Then nothing changes.
    pub fn load(&mut self, line: &ImageLine) -> Result<(), PoolRefusal>
        ensures accepted { IsOk result ↔ IsLoadable self.old line.now }
        ensures memory { OnOk result (self.new.memory ≡ memory_loaded self.old line.now) }
        ensures free { OnOk result (self.new.pool.frames ≡ free_after self.old line.now) }
        ensures why { IfErr result (IsRefusedFor self.old line.now) }
        ensures refused { OnErr result (self.new ≡ self.old) }
        ensures limit { self.new.pool.limit ≡ self.old.pool.limit }
    {
        match line {
            ImageLine::Word { slot, value } => {
                slot.set_word(&mut self.memory, *value);
                Ok(())
            }
            ImageLine::Free(frame) => self.pool.try_add(*frame),
        }
    }

    /// Sets the root's word at a recursive index to 0. The recursive index is that of the root's entry for itself.
    pub fn clear_self_entry(&mut self, index: PageTableIndex)
        ensures memory { self.new.memory ≡ without_self_entry index self.old.memory }
        ensures pool { self.new.pool ≡ self.old.pool }
    {
        Slot::at(root(), index).set_word(&mut self.memory, 0);
    }

    /// Returns true if the hierarchy is valid, and the free frames fit it.
    ///
    /// # Errors
    ///
    /// `AllocError` if memory allocation fails.
    pub fn fits(&self, alloc: Global, levels: Levels) -> Result<bool, AllocError>
        ensures { IfOk result (λ fits. IsTrue fits
            ↔ StoreFits (direct_layout (count levels) laid_in self.now.memory) (pool_store self.now.pool)) }
    {
        let (memory, pool) = (&self.memory, &self.pool);
        match levels {
            Levels::Four => pool_fits(alloc, memory, &IdentityMapping, root(), pool),
            Levels::Five => pool_fits_57(alloc, memory, &IdentityMapping, root(), pool),
        }
    }

    /// Returns true if the hierarchy is valid for a recursive index, and the free frames fit it.
    ///
    /// # Errors
    ///
    /// `AllocError` if memory allocation fails.
    pub fn fits_recursive(
        &self,
        alloc: Global,
        levels: Levels,
        index: PageTableIndex,
    ) -> Result<bool, AllocError>
        ensures { IfOk result (λ fits. IsTrue fits
            ↔ StoreFits (recursive_layout (count levels) self.now.memory index laid_in self.now.memory)
            (pool_store self.now.pool)) }
    {
        let (memory, pool) = (&self.memory, &self.pool);
        match levels {
            Levels::Four => pool_fits_recursive(alloc, memory, root(), index, pool),
            Levels::Five => pool_fits_recursive_57(alloc, memory, root(), index, pool),
        }
    }

    /// Returns the word in a slot, or 0 if the memory lacks the table.
    pub fn word(&self, slot: Slot) -> u64
        ensures { result ≡ word_at_place self.now.memory slot.place slot.index }
    {
        slot.word(&self.memory)
    }

    /// Returns where the page walk of an address arrives, or `None` if the address isn't mapped.
    pub fn walk<L: LevelCount>(&self, address: VirtAddrIn<L>) -> Option<Walked>
        ensures { option_map walked_of result
            ≡ model.page_walk L.LEVELS (words_of self.now.memory identity_places) 0x1000 address }
    {
        page_walk(&self.memory, &IdentityMapping, root(), address)
    }

    /// Returns the free frames, in order.
    ///
    /// # Errors
    ///
    /// `AllocError` if memory allocation fails.
    pub fn free_frames(&self, alloc: Global) -> Result<Vec<PhysFrame<Size4KiB>>, AllocError>
        ensures { IfOk result (λ frames. frames.items ≡ self.now.pool.frames) }
    {
        let mut frames = Vec::new(alloc);
        for n in 0..self.pool.len() {
            if let Some(frame) = self.pool.frame_at(n) {
                frames.push(frame)?;
            }
        }
        Ok(frames)
    }
}

/// Returns the root's frame.
pub fn root() -> PhysFrame<Size4KiB>
    ensures { result ≡ 0x1000 }
{
    PhysFrame::containing_address(PhysAddr::new(0x1000))
}
