//! The search for the next page of a range. It passes over what a missing table spans by one look.
ghost use Rattle.std.specs.Prelude.{◌≡◌, ◌<◌, ◌≤◌, ◌+◌, ◌*◌, ◌/◌, ◌%◌, ◌==◌, ◌&&◌, false, nat_le};
ghost use Rattle.x86_64_mappers.specs.Layouts.{direct_at};
ghost use Rattle.x86_64_live.specs.PageRanges.{is_page};
ghost use Rattle.x86_64_live.specs.private.RangeSteps.{wanted_by, below_of, leads_down, IsOnWay, LooksDown, StartsAt, SearchFinds};
ghost use Rattle.x86_64_model.specs.Hierarchy.{◌laid_in◌, Valid, paths};
ghost use Rattle.x86_64_model.specs.Memory.{word, words_of};
ghost use Rattle.x86_64_model.specs.Position.{index, span as span_of, position_count};

use super::RangeEnd;
use x86_64_addr::level_count::LevelCount;
use x86_64_page::frame::PhysFrame;
use x86_64_page::page::{PageIn, Size4KiB};
use x86_64_page::range::Block;
use x86_64_tables::page_table::{PageTableEntry, PageTableFlags, has_flag};
use x86_64_tables::phys_memory::{PageTableFrameMapping, TableMemory, index_of, table_in};

/// Which words of pages are wanted.
#[derive(Clone, Copy)]
pub(super) enum Wanted {
    /// All but 0.
    Used,
    /// Those with `PRESENT`.
    Present,
}

impl Wanted {
    /// Returns true if the word of a page is wanted.
    fn has(self, word: u64) -> bool
        ensures { result ≡ wanted_by self word }
    {
        let entry = PageTableEntry::from_word(word);
        match self {
            Wanted::Used => !entry.is_unused(),
            Wanted::Present => has_flag(&entry, PageTableFlags::PRESENT),
        }
    }
}

/// Where a range goes on: at a position (the number of an address counted without the gap), from a table on the way to it.
#[derive(Clone, Copy)]
pub(super) struct Cursor {
    /// The position.
    pub(super) position: u64,
    /// The frame of the table.
    pub(super) frame: PhysFrame<Size4KiB>,
    /// The level of the table.
    pub(super) level: u64,
}

impl Cursor {
    /// Returns the cursor at a position, before any table but the root.
    pub(super) fn at_root<L: LevelCount>(position: u64, root: PhysFrame<Size4KiB>) -> Cursor
        ensures position { result.position ≡ position }
        ensures frame { result.frame ≡ root }
        ensures level { result.level ≡ L.LEVELS }
    {
        Cursor {
            position,
            frame: root,
            level: L::LEVELS,
        }
    }

    /// Returns the word that the cursor's table has for its position, or 0 if its frame has no table.
    #[tactic(auto, unfolding(x86_64_model::specs::Memory::word))]
    fn word<T: TableMemory, P: PageTableFrameMapping>(&self, memory: &T, mapping: &P) -> u64
        requires low { 1 ≤ self.now.level }
        requires high { self.now.level ≤ 5 }
        ensures { result ≡ word (words_of (T.tables memory.now) (P.places mapping.now))
            self.now.frame (index self.now.level self.now.position) }
    {
        match table_in(memory, mapping, self.frame) {
            Some(table) => table[index_of(self.position, self.level)].word(),
            None => 0,
        }
    }
}

/// An entry on the way to a position, and its word.
#[derive(Clone, Copy)]
pub(super) struct Spot {
    /// The position to which the way leads.
    pub(super) position: u64,
    /// The frame of the table.
    pub(super) frame: PhysFrame<Size4KiB>,
    /// The level of the table.
    pub(super) level: u64,
    /// The word.
    pub(super) word: u64,
}

impl Spot {
    /// Reads the entry that a cursor's table has for its position.
    fn read<T: TableMemory, P: PageTableFrameMapping>(memory: &T, mapping: &P, at: &Cursor) -> Spot
        requires low { 1 ≤ at.now.level }
        requires high { at.now.level ≤ 5 }
        ensures position { result.position ≡ at.now.position }
        ensures frame { result.frame ≡ at.now.frame }
        ensures level { result.level ≡ at.now.level }
        ensures word { result.word ≡ word (words_of (T.tables memory.now) (P.places mapping.now))
            at.now.frame (index at.now.level at.now.position) }
    {
        Spot {
            position: at.position,
            frame: at.frame,
            level: at.level,
            word: at.word(memory, mapping),
        }
    }

    /// Returns the table that the word names, on the way to the same position.
    #[tactic(auto, using(x86_64_model::proofs::Lemmas::Entries::Words::address_aligned))]
    fn below(&self) -> Option<Cursor>
        requires { 1 ≤ self.now.level }
        ensures { result ≡ below_of self.now }
    {
        let entry = PageTableEntry::from_word(self.word);
        if self.level == 1 || entry.is_unused() || has_flag(&entry, PageTableFlags::HUGE_PAGE) {
            return None;
        }
        Some(Cursor {
            position: self.position,
            frame: PhysFrame::from_start_address_unchecked(entry.addr()),
            level: self.level - 1,
        })
    }

    /// Returns true if the entry is that of a page, and wanted.
    fn is_page(&self, wanted: Wanted) -> bool
        ensures { result ≡ is_page (wanted_by wanted) self.now.level self.now.word }
    {
        let entry = PageTableEntry::from_word(self.word);
        wanted.has(self.word) && (self.level == 1 || has_flag(&entry, PageTableFlags::HUGE_PAGE))
    }

    /// Returns the number of positions that the entry spans.
    pub(super) fn span(&self) -> u64
        requires low { 1 ≤ self.now.level }
        requires high { self.now.level ≤ 5 }
        ensures { result ≡ span_of self.now.level }
    {
        1 << (12 + 9 * (self.level - 1))
    }

    /// Returns true if what the entry spans begins at the cursor's position, and ends before `end` or there.
    fn is_whole(&self, end: u64) -> bool
        requires low { 1 ≤ self.now.level }
        requires high { self.now.level ≤ 5 }
        requires inside { self.now.position < position_count 5 }
        ensures { result ≡ ((self.now.position % span_of self.now.level == 0)
            && nat_le (self.now.position + span_of self.now.level) end) }
    {
        let span = self.span();
        let position = self.position;
        position % span == 0 && position + span <= end
    }

    /// Returns the cursor behind what the entry spans: in the same table, or at the root if the table ends there.
    pub(super) fn past<L: LevelCount>(&self, root: PhysFrame<Size4KiB>) -> Cursor
        requires low { 1 ≤ self.now.level }
        requires high { self.now.level ≤ L.LEVELS }
        requires inside { self.now.position < position_count L.LEVELS }
        ensures position { result.position
            ≡ self.now.position / span_of self.now.level * span_of self.now.level + span_of self.now.level }
        ensures table { StartsAt L.LEVELS root self.now.frame self.now.level result }
    {
        let span = self.span();
        let position = self.position / span * span + span;
        if index_of(position, self.level) == 0 {
            return Cursor::at_root::<L>(position, root);
        }
        Cursor {
            position,
            frame: self.frame,
            level: self.level,
        }
    }
}

/// Looks down from a cursor's table to the entry that names no table.
fn look_down<T: TableMemory, P: PageTableFrameMapping>(
    memory: &T,
    mapping: &P,
    levels: u64,
    from: &Cursor,
) -> Spot
    requires low { 1 ≤ from.now.level }
    requires high { from.now.level ≤ levels }
    requires few { levels ≤ 5 }
    ensures position { result.position ≡ from.now.position }
    ensures low { 1 ≤ result.level }
    ensures high { result.level ≤ levels }
    ensures ends { leads_down result.level result.word ≡ false }
    ensures spot { LooksDown levels (P.places mapping.now) (T.tables memory.now) from.now result }
{
    let mut spot = Spot::read(memory, mapping, from);
    while let Some(below) = spot.below() {
        spot = Spot::read(memory, mapping, &below);
    }
    spot
}

/// Returns the first wanted page from a cursor on, up to but excluding the position `end`, or why there is none: it is a larger one that
/// lies only partly before `end` or from the cursor on, or there is no page at all.
pub(super) fn next_page<L: LevelCount, T: TableMemory, P: PageTableFrameMapping>(
    memory: &T,
    mapping: &P,
    root: PhysFrame<Size4KiB>,
    end: u64,
    wanted: Wanted,
    from: Cursor,
) -> Result<Spot, RangeEnd<L>>
    requires valid { Valid (direct_at L.LEVELS (P.places mapping.now) root laid_in T.tables memory.now) }
    requires inside { end ≤ position_count L.LEVELS }
    requires aligned { from.position % 4096 ≡ 0 }
    requires way { from.position < end → IsOnWay L.LEVELS root
        (paths (direct_at L.LEVELS (P.places mapping.now) root laid_in T.tables memory.now))
        from.position from.level from.frame }
    ensures { SearchFinds L.LEVELS root (wanted_by wanted)
        (paths (direct_at L.LEVELS (P.places mapping.now) root laid_in T.tables memory.now))
        from.position end result }
{
    let mut cursor = from;
    while cursor.position < end {
        let spot = look_down(memory, mapping, L::LEVELS, &cursor);
        if spot.is_page(wanted) {
            return if spot.is_whole(end) {
                Ok(spot)
            } else {
                Err(RangeEnd::LargerPage(PageIn::at(spot.position)))
            };
        }
        cursor = spot.past::<L>(root);
    }
    Err(RangeEnd::All)
}
