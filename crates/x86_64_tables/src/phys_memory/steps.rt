//! The steps of a page walk: the words that it reads.
ghost use Rattle.std.specs.Prelude.{◌≡◌};
ghost use Rattle.std.specs.Iterator.{YieldsFirst, item_count};
ghost use Rattle.x86_64_model.specs.Memory.{words_of};
ghost use Rattle.x86_64_model.specs.Steps.{steps};
ghost use Rattle.x86_64_tables.specs.EntryTargets.{target_of};
ghost use Rattle.x86_64_tables.specs.Walks.{address_by};

use super::walk::{entry_at, index_of, span};
use super::{PageTableFrameMapping, TableMemory};
use crate::page_table::{EntryTarget, PageTableEntry};
use std::marker::Model;
use x86_64_addr::addr::{PhysAddr, VirtAddrIn};
use x86_64_addr::level_count::LevelCount;
use x86_64_page::frame::PhysFrame;
use x86_64_page::page::Size4KiB;

/// A word that a page walk reads.
#[derive(Clone, Copy, Debug, PartialEq)]
pub struct Step {
    /// The level of its table, from one to five.
    pub level: u64,
    /// The frame of its table.
    pub frame: PhysFrame<Size4KiB>,
    /// Its index in the table.
    pub index: usize,
    /// The word.
    pub word: u64,
}

impl Model for Step {
    ghost use Rattle.std.specs.Prelude.{◌≤◌, refl};
    ghost use Rattle.x86_64_model.specs.Steps.{Step as WordRead};

    ghost Value = { WordRead };

    ghost view = { λ s. record { level = s.level; frame = s.frame; index = s.index; word = s.word } };

    ghost invariant = { λ s. (1 ≤ s.level) × (s.level ≤ 5) };

    ghost inverse = { λ s. record { level = s.level; frame = s.frame; index = s.index; word = s.word } };

    ghost inverse_ok = { λ s _. refl };
}

impl Step {
    /// Returns the word as an entry.
    pub fn entry(&self) -> PageTableEntry
        ensures { result ≡ self.now.word }
    {
        PageTableEntry::from_word(self.word)
    }

    /// Returns what the word leads to.
    pub fn target(&self) -> EntryTarget
        ensures { result ≡ target_of self.now.level self.now.word }
    {
        self.entry().target(self.level)
    }

    /// Returns the physical address of a position (the number of an address counted without the gap) in the page that the word maps,
    /// or `None` if it maps none.
    pub fn address(&self, position: u64) -> Option<PhysAddr>
        ensures { result ≡ address_by position self.now }
    {
        if self.target() != EntryTarget::Page {
            return None;
        }
        let size = span(self.level);
        let start = self.entry().addr().as_u64() / size * size;
        Some(PhysAddr::new(start + position % size))
    }
}

/// An iterator over the words that a page walk reads, from the root's on. Contracts see it as the list of those that are still to
/// come. After the last it always returns `None`.
///
/// The walk ends with the first word that leads to no further table, or before a table that isn't in the memory.
#[derive(Drop)]
pub struct Steps<'a, T: TableMemory, P: PageTableFrameMapping> {
    memory: &'a T,
    mapping: &'a P,
    position: u64,
    level: u64,
    frame: PhysFrame<Size4KiB>,
}

impl<'a, T: TableMemory, P: PageTableFrameMapping> Model for Steps<'a, T, P> {
    ghost use Rattle.std.specs.Prelude.{List, ◌≤◌};
    ghost use Rattle.x86_64_model.specs.Memory.{words_of};
    ghost use Rattle.x86_64_model.specs.Steps.{Step as WordRead, steps};

    ghost Value = { List WordRead };

    ghost view = { λ s. steps (words_of (T.tables s.memory.now) (P.places s.mapping.now))
        s.position s.level s.frame };

    ghost invariant = { λ s. s.level ≤ 5 };
}

impl<'a, T: TableMemory, P: PageTableFrameMapping> Steps<'a, T, P> {
    /// Creates the iterator over the words that the page walk to an address reads. There are as many levels of page tables as the
    /// address has. The tables may contain any words.
    ///
    /// Intel SDM vol. 3A, "Linear-Address Translation with 4-Level Paging and 5-Level Paging"; AMD APM vol. 2, "Long-Mode Page
    /// Translation".
    pub fn new<L: LevelCount>(
        memory: &'a T,
        mapping: &'a P,
        root: PhysFrame<Size4KiB>,
        address: VirtAddrIn<L>,
    ) -> Steps<'a, T, P>
        ensures { result
            ≡ steps (words_of (T.tables memory.now) (P.places mapping.now)) address L.LEVELS root }
    {
        Steps {
            memory,
            mapping,
            position: address.position(),
            level: L::LEVELS,
            frame: root,
        }
    }
}

impl<'a, T: TableMemory, P: PageTableFrameMapping> Iterator for Steps<'a, T, P> {
    type Item = Step;

    ghost next_gives = { YieldsFirst (λ s. s) };

    ghost remaining = { item_count (λ s. s) };

    fn next(&mut self) -> Option<Step> {
        if self.level == 0 {
            return None;
        }
        let index = index_of(self.position, self.level);
        let entry = entry_at(self.memory, self.mapping, self.frame, index)?;
        let step = Step {
            level: self.level,
            frame: self.frame,
            index,
            word: entry.word(),
        };
        if let EntryTarget::Table(frame) = step.target() {
            self.level -= 1;
            self.frame = frame;
        } else {
            self.level = 0;
        }
        Some(step)
    }
}
