//! Walks as values. They have the words that are read, and say how the walk ends.
ghost use Rattle.std.specs.Prelude.{◌≡◌, IfOk, Some};
ghost use Rattle.ptdump_check.specs.Loaded.{words_loaded};
ghost use Rattle.ptdump_json.specs.Walks as walks;
ghost use Rattle.ptdump_json.specs.Walked.{IsWalk, end_said, is_arrival, text_of_end, walk_end_at};

use crate::word_read::{MissingTable, WordRead};
use ptdump_check::{Loaded, RightsAt};
use std::alloc::{AllocError, Global};
use std::fmt::{Display, Formatter, Result as FmtResult, Write};
use x86_64_addr::addr::VirtAddrIn;
use x86_64_addr::level_count::LevelCount;
use x86_64_mappings::span;
use x86_64_page::frame::PhysFrame;
use x86_64_page::page::Size4KiB;
use x86_64_tables::page_table::{EntryTarget, PageTableFlags, Rights, has_flag};
use x86_64_tables::phys_memory::{IdentityMapping, Step, Steps};

/// How a walk ends.
#[derive(Clone, Copy)]
pub enum WalkEnd {
    /// It arrives.
    Arrives {
        /// The physical address, with the rights that all words allow.
        at: RightsAt,
        /// The number of bytes of the page.
        size: u64,
    },
    /// The last word lacks `PRESENT`.
    NotPresent,
    /// The table in a frame isn't in the dump.
    MissingTable(PhysFrame<Size4KiB>),
    /// The last word, of this level, has `HUGE_PAGE` although no entry of the level maps a page.
    HugePage(u64),
}

impl Display for WalkEnd {
    ghost output = { λ end. Some (text_of_end end) };

    fn fmt<W: Write>(&self, f: &mut Formatter<W>) -> FmtResult {
        match *self {
            WalkEnd::Arrives { at, size: _ } => write!(f, "{at}"),
            WalkEnd::NotPresent => f.write_str("not present"),
            WalkEnd::MissingTable(frame) => {
                let missing = MissingTable(frame);
                write!(f, "{missing}")
            }
            WalkEnd::HugePage(level) => write!(f, "HUGE_PAGE at level {level}"),
        }
    }
}

/// A walk to an address.
#[derive(Drop)]
pub struct Walk {
    /// The words that it reads, one below the other.
    pub words: Vec<WordRead>,
    /// How it ends.
    pub end: WalkEnd,
}

impl Walk {
    /// Returns true if it arrives.
    pub fn arrives(&self) -> bool
        ensures { result ≡ is_arrival (end_said self.now.end) }
    {
        matches!(self.end, WalkEnd::Arrives { .. })
    }
}

/// Walks to an address.
///
/// # Errors
///
/// `AllocError` if memory allocation fails.
pub fn walk_to<L: LevelCount>(
    alloc: Global,
    loaded: &Loaded<'_, L>,
    address: VirtAddrIn<L>,
) -> Result<Walk, AllocError>
    ensures { IfOk result (IsWalk
        (walks.walk_of L.LEVELS (words_loaded loaded.now) loaded.now.root address)) }
{
    let position = address.position();
    let mut words = Vec::new(alloc);
    let mut rights = Rights::ALL;
    let mut end = WalkEnd::MissingTable(loaded.root);
    for step in Steps::new(
        loaded.tables.memory(),
        &IdentityMapping,
        loaded.root,
        address,
    ) {
        words.push(WordRead::of(&step))?;
        rights = rights.below(&step.entry());
        end = end_at(position, &step, rights);
    }
    Ok(Walk { words, end })
}

/// Returns how a walk to a position, the number of an address counted without the gap, ends at a word if it goes on to no further
/// one. All words of the walk allow `rights`.
fn end_at(position: u64, step: &Step, rights: Rights) -> WalkEnd
    ensures { result ≡ walk_end_at rights (walks.end_by position step.now) }
{
    if let Some(to) = step.address(position) {
        let at = RightsAt {
            address: to.as_u64(),
            rights,
        };
        return WalkEnd::Arrives {
            at,
            size: span(step.level),
        };
    }
    match step.target() {
        EntryTarget::Table(frame) => WalkEnd::MissingTable(frame),
        _ if has_flag(&step.entry(), PageTableFlags::PRESENT) => WalkEnd::HugePage(step.level),
        _ => WalkEnd::NotPresent,
    }
}
