//! Tables, as walks down from a root reach them.
ghost use Rattle.std.specs.Prelude.{◌≡◌, ◌-◌, ◌≤◌};
ghost use Rattle.x86_64_model.specs.Mappings.{every_right, granted};

use x86_64_addr::level_count::LevelCount;
use x86_64_page::frame::PhysFrame;
use x86_64_page::page::Size4KiB;
use x86_64_tables::page_table::{PageTableEntry, Rights};

/// A table, as a walk down from a root reaches it.
#[derive(Drop)]
pub(crate) struct ReachedTable {
    /// The frame of the table.
    pub(crate) frame: PhysFrame<Size4KiB>,
    /// Its level.
    pub(crate) level: u64,
    /// The position (the number of an address counted without the gap) at which its span starts.
    pub(crate) start: u64,
    /// What the entries above it allow.
    pub(crate) above: Rights,
}

impl ReachedTable {
    /// Returns the table in a root's frame.
    pub(crate) fn root<L: LevelCount>(frame: PhysFrame<Size4KiB>) -> ReachedTable
        ensures { result ≡ record { frame = frame; level = L.LEVELS; start = 0; above = every_right } }
    {
        ReachedTable {
            frame,
            level: L::LEVELS,
            start: 0,
            above: Rights::ALL,
        }
    }

    /// Returns the table in a frame that an entry of this table names. `start` is the position at which the entry's span
    /// starts.
    pub(crate) fn below(
        &self,
        entry: &PageTableEntry,
        frame: PhysFrame<Size4KiB>,
        start: u64,
    ) -> ReachedTable
        requires { 1 ≤ self.now.level }
        ensures { result ≡ record {
          frame = frame;
          level = self.now.level - 1;
          start = start;
          above = granted self.now.above entry.now;
        } }
    {
        ReachedTable {
            frame,
            level: self.level - 1,
            start,
            above: self.above.below(entry),
        }
    }
}
