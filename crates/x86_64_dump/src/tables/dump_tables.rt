//! The tables below a root.
ghost use Rattle.std.specs.Prelude.{◌≡◌, ◌==◌, ℕ, IfOk, IfErr};
ghost use Rattle.std.specs.FinMap as finite;
ghost use Rattle.x86_64_dump.specs.Opened.{words_opened};
ghost use Rattle.x86_64_model.specs.Mappings.{mappings_of};
ghost use Rattle.x86_64_dump.specs.Reached.{SameBelow};
ghost use Rattle.x86_64_dump.specs.Loaded.{loaded_words, up_to, AreTables, Counts, HasCount, MayFail, SameWalks};

use crate::tables::levels::read_levels;
use crate::tables::loading::read_memory;
use crate::tables::progress::Progress;
use crate::tables::tables_read::TablesRead;
use crate::{ByteSource, Dump, DumpError};
use std::alloc::Global;
use x86_64_addr::level_count::LevelCount;
use x86_64_page::frame::PhysFrame;
use x86_64_page::page::Size4KiB;
use x86_64_tables::phys_memory::PhysMemory;

/// The frames of tables by level, level one first.
pub type TablesByLevel<'a> = &'a [Vec<PhysFrame<Size4KiB>>];

/// The page tables that a root leads to, as far as a dump has them.
#[derive(Drop)]
pub struct DumpTables {
    memory: PhysMemory,
    frames: Vec<Vec<PhysFrame<Size4KiB>>>,
}

impl DumpTables {
    /// Returns the memory that holds the tables. Each table's place, its index in memory, is the number of its frame.
    pub fn memory(&self) -> &PhysMemory
        ensures { result.now ≡ self.now.memory }
    {
        &self.memory
    }

    /// Returns the frames of the tables by level, level one first. Those of a level are in the order in which they are found. A
    /// frame may be at several levels.
    pub fn frames(&self) -> TablesByLevel<'_>
        ensures { result.now ≡ self.now.frames.items }
    {
        &self.frames
    }

    /// Returns the number of tables.
    pub fn len(&self) -> usize
        ensures { result ≡ finite.len self.now.memory }
    {
        self.memory.len()
    }

    /// Returns true if there are no tables, as is the case if the dump lacks the root.
    pub fn is_empty(&self) -> bool
        ensures { result ≡ (finite.len self.now.memory == 0) }
    {
        self.len() == 0
    }
}

/// Reads the tables that a root leads to, each once, as far as the dump has them, and reports each to `progress`: first 1, then 2, and so on.
///
/// A page walk from the root finds the words that the dump has, so the mappings are those of the dump. The memory holds each
/// table once, however many entries name it.
///
/// # Errors
///
/// `DumpError::OutOfMemory` if memory allocation fails, `DumpError::Read` if the source can't be read.
pub fn read_tables<L: LevelCount, S: ByteSource, G: Progress>(
    alloc: Global,
    dump: &Dump<S>,
    root: PhysFrame<Size4KiB>,
    progress: &mut G,
) -> Result<DumpTables, DumpError>
    ensures tables { S.IsKnown → IfOk result (AreTables L.LEVELS (words_opened S.bytes dump.now) root) }
    ensures same { S.IsKnown → IfOk result (λ tables.
        SameBelow L.LEVELS (loaded_words tables) (words_opened S.bytes dump.now) root) }
    ensures mappings { S.IsKnown → IfOk result (λ tables. mappings_of L.LEVELS (loaded_words tables) root
        ≡ mappings_of L.LEVELS (words_opened S.bytes dump.now) root) }
    ensures walks { S.IsKnown → IfOk result (λ tables.
        SameWalks L.LEVELS (loaded_words tables) (words_opened S.bytes dump.now) root) }
    ensures count { S.IsKnown → IfOk result (HasCount L.LEVELS (words_opened S.bytes dump.now) root) }
    ensures told { IfOk result (λ read. G.Told progress.old progress.new (up_to (finite.len read.memory))) }
    ensures counted { Counts G.Told progress.old progress.new }
    ensures errors { IfErr result (MayFail S.may_fail) }
{
    let mut read = TablesRead::new(alloc);
    let frames = read_levels(alloc, dump, root, L::LEVELS, &mut read)?;
    let memory = read_memory(alloc, dump, &frames, &read, progress)?;
    Ok(DumpTables { memory, frames })
}
