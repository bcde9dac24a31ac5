//! What page table entries lead to.
ghost use Rattle.std.specs.Prelude.{◌≡◌, ◌<◌, ◌≤◌, true};
ghost use Rattle.x86_64_model.specs.Mappings.{maps_page};
ghost use Rattle.x86_64_tables.specs.EntryTargets.{target_of, NamesTable};
ghost use Rattle.x86_64_tables.specs.declared.page_table.target.EntryTarget.TheVariants.{Page};

use super::{PageTableEntry, PageTableFlags, has_flag};
use x86_64_page::frame::PhysFrame;
use x86_64_page::page::Size4KiB;

/// What an entry of a page table leads to.
#[derive(Clone, Copy, Debug, PartialEq)]
pub enum EntryTarget {
    /// Nothing: the entry lacks `PRESENT`, or has `HUGE_PAGE` at a level at which no entry maps a page.
    Nothing,
    /// The page that it maps: of 4KiB at level one, 2MiB at level two, and 1GiB at level three.
    Page,
    /// The table in a frame.
    Table(PhysFrame<Size4KiB>),
}

impl PageTableEntry {
    /// Returns what the entry leads to if it is in a table of a level. Entries of level one map 4KiB pages.
    ///
    /// Requires that the level is at least one.
    #[tactic(auto, using(x86_64_model::proofs::Lemmas::Entries::Words::address_aligned))]
    pub fn target(&self, level: u64) -> EntryTarget
        requires { 1 ≤ level }
        ensures value { result ≡ target_of level self.now }
        ensures page { result ≡ Page → maps_page level self.now ≡ true }
        ensures table { NamesTable result → 1 < level }
    {
        if !has_flag(self, PageTableFlags::PRESENT) {
            EntryTarget::Nothing
        } else if self.maps_page(level) {
            EntryTarget::Page
        } else if has_flag(self, PageTableFlags::HUGE_PAGE) {
            EntryTarget::Nothing
        } else {
            EntryTarget::Table(PhysFrame::from_start_address_unchecked(self.addr()))
        }
    }

    /// Returns true if the entry maps a page in a table of a level, provided that it has `PRESENT`.
    pub fn maps_page(&self, level: u64) -> bool
        ensures { result ≡ maps_page level self.now }
    {
        level == 1 || (has_flag(self, PageTableFlags::HUGE_PAGE) && (level == 2 || level == 3))
    }
}
