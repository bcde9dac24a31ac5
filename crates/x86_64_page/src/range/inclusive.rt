//! Ranges that include their end.
//!
//! No block comes after the greatest one, and none before the first. So if the greatest is taken from the front, `end` is lowered
//! below `start`, and if the first is taken from the back, `start` is raised above `end`.
ghost use Rattle.std.specs.Prelude.{◌≡◌, ℕ, ◌+◌, ◌-◌, ◌*◌, ◌<◌, ◌≤◌, ◌↔◌, IsTrue, IfSome, Some, option_map, [], length, slice_get, reverse};
ghost use Rattle.std.specs.Iterator.{YieldsFirstBy, YieldsLastBy, item_count, UpTo, at_most};
ghost use Rattle.std.specs.Iterator.SizeHint.{IsWithinCount};
ghost use Rattle.x86_64_page.specs.BlockRanges.{inclusive_blocks_in};
ghost use Rattle.x86_64_page.specs.Blocks.{block_ends, front_taken_inclusive, back_taken_inclusive};

use crate::range::{Block, write_range};
use std::fmt::{Debug, Formatter, Result as FmtResult, Write};

/// The blocks from `start` up to and including `end`. The range is empty if `start` lies after `end`.
#[derive(Clone, Copy, PartialEq, Eq, Hash)]
pub struct BlockRangeInclusive<B: Block> {
    /// The first block.
    pub start: B,
    /// The last block.
    pub end: B,
}

impl<B: Block> BlockRangeInclusive<B> {
    /// Returns true if the range has no block.
    pub fn is_empty(&self) -> bool
        ensures { IsTrue result ↔ (inclusive_blocks_in B.SIZE B.place self.now ≡ []) }
    {
        self.start.place() > self.end.place()
    }

    /// Returns the number of blocks.
    pub fn len(&self) -> u64
        ensures { result ≡ length (inclusive_blocks_in B.SIZE B.place self.now) }
    {
        self.size() / B::SIZE
    }

    /// Returns the number of bytes in the blocks.
    pub fn size(&self) -> u64
        ensures { result ≡ length (inclusive_blocks_in B.SIZE B.place self.now) * B.SIZE }
    {
        (self.end.place() + B::SIZE).saturating_sub(self.start.place())
    }

    /// Skips `n` blocks and returns the next one, in constant time. Leaves the range as `n + 1` calls of `next` do.
    pub fn nth(&mut self, n: usize) -> Option<B>
        ensures item { option_map B.place result ≡ slice_get (inclusive_blocks_in B.SIZE B.place self.old) n }
        ensures ends { block_ends B.place self.new.start self.new.end
            ≡ front_taken_inclusive B.SIZE B.LIMIT (n + 1) (block_ends B.place self.old.start self.old.end) }
    {
        let start = self.start.place();
        let end = self.end.place();
        if (n as u64) < self.len() {
            let block = B::at(start + n as u64 * B::SIZE);
            self.leave_at_front(block);
            return Some(block);
        }
        if start <= end {
            self.leave_at_front(self.end);
        }
        None
    }

    /// Skips `n` blocks from the back and returns the next one, in constant time. Leaves the range as `n + 1` calls of
    /// `next_back` do.
    pub fn nth_back(&mut self, n: usize) -> Option<B>
        ensures item { option_map B.place result
            ≡ slice_get (reverse (inclusive_blocks_in B.SIZE B.place self.old)) n }
        ensures ends { block_ends B.place self.new.start self.new.end
            ≡ back_taken_inclusive B.SIZE (n + 1) (block_ends B.place self.old.start self.old.end) }
    {
        let start = self.start.place();
        let end = self.end.place();
        if (n as u64) < self.len() {
            let block = B::at(end - n as u64 * B::SIZE);
            self.leave_at_back(block);
            return Some(block);
        }
        if start <= end {
            self.leave_at_back(self.start);
        }
        None
    }

    /// Leaves the blocks after a block. If it is the greatest, `end` is lowered, since no block comes after it.
    fn leave_at_front(&mut self, block: B)
        ensures raised { B.place block + B.SIZE < B.LIMIT →
            (B.place self.new.start ≡ B.place block + B.SIZE)
            × (B.place self.new.end ≡ B.place self.old.end) }
        ensures lowered { B.LIMIT ≤ B.place block + B.SIZE →
            (B.place self.new.start ≡ B.place block) × (B.place self.new.end ≡ B.place block - B.SIZE) }
    {
        let place = block.place();
        if place < B::LIMIT - B::SIZE {
            self.start = B::at(place + B::SIZE);
        } else {
            self.start = block;
            self.end = B::at(place - B::SIZE);
        }
    }

    /// Leaves the blocks before a block. If it is the first, `start` is raised, since no block comes before it.
    fn leave_at_back(&mut self, block: B)
        ensures lowered { B.SIZE ≤ B.place block →
            (B.place self.new.start ≡ B.place self.old.start)
            × (B.place self.new.end + B.SIZE ≡ B.place block) }
        ensures raised { B.place block < B.SIZE →
            (B.place self.new.start ≡ B.SIZE) × (B.place self.new.end ≡ 0) × (B.place block ≡ 0) }
    {
        let start = block.place();
        if 0 < start {
            self.end = B::at(start - B::SIZE);
        } else {
            self.start = B::at(B::SIZE);
            self.end = block;
        }
    }
}

impl<B: Block> Iterator for BlockRangeInclusive<B> {
    type Item = B;

    ghost next_gives = { λ r block s. YieldsFirstBy B.place (inclusive_blocks_in B.SIZE B.place) r block s
        × (block_ends B.place s.start s.end
        ≡ front_taken_inclusive B.SIZE B.LIMIT 1 (block_ends B.place r.start r.end)) };

    ghost remaining = { item_count (inclusive_blocks_in B.SIZE B.place) };

    fn next(&mut self) -> Option<B> {
        if self.end.place() < self.start.place() {
            return None;
        }
        let block = self.start;
        self.leave_at_front(block);
        Some(block)
    }

    fn size_hint(&self) -> (usize, Option<usize>)
        ensures lower { IsWithinCount result.0
            (at_most (length (inclusive_blocks_in B.SIZE B.place self.now))) }
        ensures ends { IfSome result.1
            (UpTo (at_most (length (inclusive_blocks_in B.SIZE B.place self.now)))) }
        ensures exact { result.0 ≡ length (inclusive_blocks_in B.SIZE B.place self.now) }
        ensures upper { result.1 ≡ Some (length (inclusive_blocks_in B.SIZE B.place self.now)) }
    {
        let len = self.len() as usize;
        (len, Some(len))
    }
}

impl<B: Block> DoubleEndedIterator for BlockRangeInclusive<B> {
    ghost next_back_gives = { λ r block s.
        YieldsLastBy B.place (inclusive_blocks_in B.SIZE B.place) r block s
        × (block_ends B.place s.start s.end ≡ back_taken_inclusive B.SIZE 1
        (block_ends B.place r.start r.end)) };

    fn next_back(&mut self) -> Option<B> {
        if self.end.place() < self.start.place() {
            return None;
        }
        let block = self.end;
        self.leave_at_back(block);
        Some(block)
    }
}

impl<B: Block + Debug> Debug for BlockRangeInclusive<B> {
    fn fmt<W: Write>(&self, f: &mut Formatter<W>) -> FmtResult {
        write_range(f, B::RANGE_INCLUSIVE, &self.start, &self.end)
    }
}
