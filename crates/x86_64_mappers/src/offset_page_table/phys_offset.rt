//! Frames that are found at an offset.
ghost use Rattle.std.specs.Prelude.{◌≡◌, ◌↔◌, ◌+◌, ◌*◌, IsTrue};
ghost use Rattle.x86_64_model.specs.Position.{raw, IsCanonical};
ghost use Rattle.x86_64_mappers.specs.Offsets.{offset_places};

use std::marker::Model;
use x86_64_addr::addr::VirtAddrIn;
use x86_64_addr::level_count::LevelCount;
use x86_64_page::frame::PhysFrame;
use x86_64_page::page::{PageSize, Size4KiB};
use x86_64_tables::phys_memory::{FramePlace, PageTableFrameMapping};

/// The frame mapping of a memory at an offset. A 4KiB frame lies at the virtual address that is the sum of the offset
/// and of the frame's address, and is covered if that sum is canonical.
#[derive(Clone, Copy)]
pub struct PhysOffset<L: LevelCount> {
    offset: VirtAddrIn<L>,
}

impl<L: LevelCount> Model for PhysOffset<L> {
    ghost use Rattle.std.specs.Prelude.{ℕ};

    ghost Value = { ℕ };

    ghost view = { λ mapping. mapping.offset };

    ghost inverse = { λ offset. record { offset = offset } };
}

impl<L: LevelCount> PhysOffset<L> {
    /// Creates the mapping of a memory at an offset.
    pub fn new(offset: VirtAddrIn<L>) -> PhysOffset<L>
        ensures { result ≡ offset }
    {
        PhysOffset { offset }
    }

    /// Returns the offset.
    pub fn offset(&self) -> VirtAddrIn<L>
        ensures { result ≡ self.now }
    {
        self.offset
    }
}

impl<L: LevelCount> PageTableFrameMapping for PhysOffset<L> {
    ghost use Rattle.x86_64_mappers.specs.private.ImplLaws.{offset_is_mapping};

    ghost places = { offset_places L.LEVELS };

    fn frame_to_pointer(&self, frame: PhysFrame<Size4KiB>) -> FramePlace {
        let address = self.offset + frame.start_address().as_u64();
        FramePlace::new((address - self.offset) / Size4KiB::SIZE)
    }

    fn covers(&self, frame: PhysFrame<Size4KiB>) -> bool {
        reaches(self.offset, frame.start_address().as_u64())
    }

    ghost is_mapping = { offset_is_mapping L.LEVELS };
}

/// Returns true if the sum of an offset and of the start of a frame is canonical.
pub fn reaches<L: LevelCount>(phys_offset: VirtAddrIn<L>, start: u64) -> bool
    ensures { IsTrue result ↔ IsCanonical L.LEVELS (raw L.LEVELS phys_offset + start) }
{
    match phys_offset.as_u64().checked_add(start) {
        Some(address) => VirtAddrIn::<L>::checked_new(address).is_some(),
        None => false,
    }
}

/// Returns true if the sum of an offset and of the address of a place's frame is canonical. A place is the index of a
/// table in memory.
pub fn reaches_place<L: LevelCount>(phys_offset: VirtAddrIn<L>, place: FramePlace) -> bool
    ensures { IsTrue result ↔ IsCanonical L.LEVELS (raw L.LEVELS phys_offset + place * 4096) }
{
    match place.number().checked_mul(Size4KiB::SIZE) {
        Some(start) => reaches(phys_offset, start),
        None => false,
    }
}
