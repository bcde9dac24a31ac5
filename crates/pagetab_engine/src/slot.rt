//! Words in memory.
ghost use Rattle.std.specs.Prelude.{◌≡◌, ◌/◌};
ghost use Rattle.pagetab_engine.specs.Slot.{slot_in, word_at_place, stored};
ghost use Rattle.pagetab_engine.specs.Starts.{index_in, table_in};

use x86_64::structures::paging::page_table::PageTableIndex;
use x86_64::structures::paging::{PageSize, PhysFrame, Size4KiB};
use x86_64::{FramePlace, PhysAddr, PhysMemory};

/// A word in memory, as the place of a table (its index in memory) and an index in the table.
#[derive(Clone, Copy)]
pub struct Slot {
    place: FramePlace,
    index: PageTableIndex,
}

impl Slot {
    /// Returns the slot at an index of the table in a frame, if each frame lies at the place of its number.
    pub fn at(frame: PhysFrame<Size4KiB>, index: PageTableIndex) -> Slot
        ensures place { result.place ≡ frame / 4096 }
        ensures index { result.index ≡ index }
    {
        let number = frame.start_address().as_u64() / Size4KiB::SIZE;
        Slot {
            place: FramePlace::new(number),
            index,
        }
    }

    /// Returns the word, or 0 if the memory lacks the table.
    pub fn word(self, memory: &PhysMemory) -> u64
        ensures { result ≡ word_at_place memory.now self.place self.index }
    {
        match memory.table(self.place) {
            Some(table) => table[self.index].word(),
            None => 0,
        }
    }

    /// Sets the word. Changes nothing if the memory lacks the table.
    pub fn set_word(self, memory: &mut PhysMemory, word: u64)
        ensures { memory.new ≡ stored memory.old self.place self.index word }
    {
        if let Some(table) = memory.table_mut(self.place) {
            table[self.index].set_word(word);
        }
    }
}

/// Returns the 4KiB frame that starts at an address, for a memory with this number of places.
///
/// Returns `None` if and only if no such frame starts there, or its number isn't below `places`.
pub fn frame_at(start: u64, places: u64) -> Option<PhysFrame<Size4KiB>>
    ensures { result ≡ table_in places start }
{
    let frame = PhysFrame::from_start_address(PhysAddr::try_new(start).ok()?).ok()?;
    if start / Size4KiB::SIZE < places {
        Some(frame)
    } else {
        None
    }
}

/// Returns the slot at an index of the table in the 4KiB frame that starts at an address, for a memory with this
/// number of places.
///
/// Returns `None` if and only if [`frame_at`] does, or `index` isn't below 512.
pub fn slot_at(start: u64, index: u64, places: u64) -> Option<Slot>
    ensures { result ≡ slot_in places start index }
{
    let frame = frame_at(start, places)?;
    Some(Slot::at(frame, index_at(index)?))
}

/// Returns a number as an index of a table, or `None` if it isn't below 512.
pub fn index_at(number: u64) -> Option<PageTableIndex>
    ensures { result ≡ index_in number }
{
    if number < 512 {
        Some(PageTableIndex::new(number as u16))
    } else {
        None
    }
}
