//! Ranges of pages and of frames: lists of blocks, each named by its place, where it starts.
//!
//! The place of a page is its position, the number of its address counted without the gap, so a range of pages continues after
//! the gap of the address space. The place of a frame is its address.
ghost use Rattle.std.specs.Prelude.{◌≡◌, ℕ, ◌+◌, ◌*◌, ◌%◌, ◌<◌, ◌↔◌, IsTrue, IfSome, Some, option_map, [], length, slice_get, reverse};
ghost use Rattle.std.specs.Iterator.{YieldsFirstBy, YieldsLastBy, item_count, UpTo, at_most};
ghost use Rattle.std.specs.Iterator.SizeHint.{IsWithinCount};
ghost use Rattle.x86_64_page.specs.BlockRanges.{blocks_in};
ghost use Rattle.x86_64_page.specs.Blocks.{IsBlockSize, IsLimit, block_ends, front_taken, back_taken};

use crate::frame::PhysFrame;
use crate::page::{PageIn, PageSize};
use std::fmt::{Debug, Formatter, Result as FmtResult, Write};
use x86_64_addr::level_count::LevelCount;

mod inclusive;
pub(crate) mod places;

pub use inclusive::BlockRangeInclusive;

mod sealed {
    use super::{LevelCount, PageIn, PageSize, PhysFrame};

    /// Keeps other crates from adding blocks.
    pub trait Sealed {}

    impl<S: PageSize, L: LevelCount> Sealed for PageIn<S, L> {}

    impl<S: PageSize> Sealed for PhysFrame<S> {}
}

/// A page or a frame: a block of memory of one of the three sizes, which starts at a multiple of its size.
pub trait Block: Copy + sealed::Sealed {
    ghost SIZE: { ℕ };

    ghost LIMIT: { ℕ };

    // The start of a block: the position of a page, the address of a frame.
    ghost place: { Self → ℕ };

    /// The size in bytes.
    const SIZE: u64;

    /// The end of the last block: 2^48 or 2^57 for pages with four or five levels of page tables, and 2^52 for frames.
    const LIMIT: u64;

    /// The name of a range that excludes its end.
    const RANGE: &'static str;

    /// The name of a range that includes its end.
    const RANGE_INCLUSIVE: &'static str;

    /// Returns the start of the block: the position of a page, the address of a frame.
    fn place(&self) -> u64
        ensures value { result ≡ place self.now }
        ensures aligned { result % SIZE ≡ 0 }
        ensures below { result < LIMIT };

    /// Returns the block that starts at a place.
    ///
    /// Requires that the place is a multiple of the size and below the limit.
    fn at(start: u64) -> Self
        requires aligned { start % SIZE ≡ 0 }
        requires below { start < LIMIT }
        ensures { place result ≡ start };

    ghost known_size: { IsBlockSize SIZE };

    ghost known_limit: { IsLimit LIMIT };
}

/// The blocks from `start` up to but excluding `end`. The range is empty unless `start` lies before `end`.
#[derive(Clone, Copy, PartialEq, Eq, Hash)]
pub struct BlockRange<B: Block> {
    /// The first block.
    pub start: B,
    /// The block after the last one.
    pub end: B,
}

impl<B: Block> BlockRange<B> {
    /// Returns true if the range has no block.
    pub fn is_empty(&self) -> bool
        ensures { IsTrue result ↔ (blocks_in B.SIZE B.place self.now ≡ []) }
    {
        self.end.place() <= self.start.place()
    }

    /// Returns the number of blocks.
    pub fn len(&self) -> u64
        ensures { result ≡ length (blocks_in B.SIZE B.place self.now) }
    {
        self.size() / B::SIZE
    }

    /// Returns the number of bytes in the blocks.
    pub fn size(&self) -> u64
        ensures { result ≡ length (blocks_in B.SIZE B.place self.now) * B.SIZE }
    {
        self.end.place().saturating_sub(self.start.place())
    }

    /// Skips `n` blocks and returns the next one, in constant time. Leaves the range as `n + 1` calls of `next` do.
    pub fn nth(&mut self, n: usize) -> Option<B>
        ensures item { option_map B.place result ≡ slice_get (blocks_in B.SIZE B.place self.old) n }
        ensures ends { block_ends B.place self.new.start self.new.end
            ≡ front_taken B.SIZE (n + 1) (block_ends B.place self.old.start self.old.end) }
    {
        let start = self.start.place();
        let end = self.end.place();
        if (n as u64) < self.len() {
            let place = start + n as u64 * B::SIZE;
            self.start = B::at(place + B::SIZE);
            return Some(B::at(place));
        }
        if start < end {
            self.start = self.end;
        }
        None
    }

    /// Skips `n` blocks from the back and returns the next one, in constant time. Leaves the range as `n + 1` calls of
    /// `next_back` do.
    pub fn nth_back(&mut self, n: usize) -> Option<B>
        ensures item { option_map B.place result ≡ slice_get (reverse (blocks_in B.SIZE B.place self.old)) n }
        ensures ends { block_ends B.place self.new.start self.new.end
            ≡ back_taken B.SIZE (n + 1) (block_ends B.place self.old.start self.old.end) }
    {
        let start = self.start.place();
        let end = self.end.place();
        if (n as u64) < self.len() {
            self.end = B::at(end - n as u64 * B::SIZE - B::SIZE);
            return Some(self.end);
        }
        if start < end {
            self.end = self.start;
        }
        None
    }
}

impl<B: Block> Iterator for BlockRange<B> {
    type Item = B;

    ghost next_gives = { λ r block s.
        YieldsFirstBy B.place (blocks_in B.SIZE B.place) r block s
        × (block_ends B.place s.start s.end ≡ front_taken B.SIZE 1 (block_ends B.place r.start r.end)) };

    ghost remaining = { item_count (blocks_in B.SIZE B.place) };

    fn next(&mut self) -> Option<B> {
        let start = self.start.place();
        if self.end.place() <= start {
            return None;
        }
        let block = self.start;
        self.start = B::at(start + B::SIZE);
        Some(block)
    }

    fn size_hint(&self) -> (usize, Option<usize>)
        ensures lower { IsWithinCount result.0 (at_most (length (blocks_in B.SIZE B.place self.now))) }
        ensures ends { IfSome result.1 (UpTo (at_most (length (blocks_in B.SIZE B.place self.now)))) }
        ensures exact { result.0 ≡ length (blocks_in B.SIZE B.place self.now) }
        ensures upper { result.1 ≡ Some (length (blocks_in B.SIZE B.place self.now)) }
    {
        let len = self.len() as usize;
        (len, Some(len))
    }
}

impl<B: Block> DoubleEndedIterator for BlockRange<B> {
    ghost next_back_gives = { λ r block s.
        YieldsLastBy B.place (blocks_in B.SIZE B.place) r block s
        × (block_ends B.place s.start s.end ≡ back_taken B.SIZE 1 (block_ends B.place r.start r.end)) };

    fn next_back(&mut self) -> Option<B> {
        let end = self.end.place();
        if end <= self.start.place() {
            return None;
        }
        self.end = B::at(end - B::SIZE);
        Some(self.end)
    }
}

impl<B: Block + Debug> Debug for BlockRange<B> {
    fn fmt<W: Write>(&self, f: &mut Formatter<W>) -> FmtResult {
        write_range(f, B::RANGE, &self.start, &self.end)
    }
}

/// Writes the name of a range and its ends.
fn write_range<B: Block + Debug, W: Write>(
    f: &mut Formatter<W>,
    name: &str,
    start: &B,
    end: &B,
) -> FmtResult {
    f.debug_struct(name)
        .field("start", start)
        .field("end", end)
        .finish()
}
