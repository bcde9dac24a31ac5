//! Memories that hold the tables in some frames.
ghost use Rattle.std.specs.Prelude.{◌≡◌, ◌||◌, ◌<◌, ◌≤◌, ◌+◌, ◌*◌, ℕ, true, length, map, slice_index, Some, IfOk, IfErr, OnOk};
ghost use Rattle.std.specs.FinMap as finite;
ghost use Rattle.std.specs.List.Sorted.{IsStrictlyIncreasing};
ghost use Rattle.x86_64_dump.specs.Dump.{words_of_dump};
ghost use Rattle.x86_64_dump.specs.Opened.{holds, opened};
ghost use Rattle.x86_64_model.specs.Entry.{is_frame};
ghost use Rattle.x86_64_dump.specs.Loaded.{Counts, HoldsTables, MayFail, frames_of, up_to};
ghost use Rattle.x86_64_dump.specs.Tables.{is_among, is_in_levels};
ghost use Rattle.x86_64_dump.specs.private.TablesRead.{AreOf};
ghost use Rattle.x86_64_dump.specs.private.FrameNumbers.{has_number, words_numbered, AreAllHeld, AreHeldBy, AreFrameNumbers};
ghost use Rattle.x86_64_dump.specs.private.FileParts.{IsOf};

use crate::file_part::{FilePart, MOST_FRAMES};
use crate::tables::dump_tables::TablesByLevel;
use crate::tables::progress::Progress;
use crate::tables::tables_read::TablesRead;
use crate::{ByteSource, Dump, DumpError};
use std::alloc::{AllocError, Global};
use x86_64_page::frame::PhysFrame;
use x86_64_page::page::{PageSize, Size4KiB};
use x86_64_tables::page_table::PageTable;
use x86_64_tables::phys_memory::PhysMemory;

/// Collects the tables in the frames, reading those that weren't read before, and reports each to `progress`. Each table's place,
/// its index in memory, is the number of its frame.
pub fn read_memory<S: ByteSource, G: Progress>(
    alloc: Global,
    dump: &Dump<S>,
    frames: TablesByLevel<'_>,
    read: &TablesRead,
    progress: &mut G,
) -> Result<PhysMemory, DumpError>
    requires read { S.IsKnown → AreOf (words_of_dump (opened S.bytes dump.now)) read.now }
    requires there { AreAllHeld (holds S.size dump.now) frames.now }
    ensures tables { S.IsKnown → IfOk result
        (HoldsTables (frames_of frames.now) (words_of_dump (opened S.bytes dump.now))) }
    ensures told { IfOk result (λ memory.
        G.Told progress.old progress.new (up_to (finite.len memory))) }
    ensures counted { Counts G.Told progress.old progress.new }
    ensures errors { IfErr result (MayFail S.may_fail) }
{
    let numbers = numbers_of(alloc, frames)?;
    let tables = tables_of(alloc, dump, &numbers, read, progress)?;
    match PhysMemory::with_tables(numbers, tables) {
        Some(memory) => Ok(memory),
        None => unreachable!(),
    }
}

/// Reads the tables in the frames of these numbers, in order, those that weren't read before from the dump, and reports each to
/// `progress`.
fn tables_of<S: ByteSource, G: Progress>(
    alloc: Global,
    dump: &Dump<S>,
    numbers: &[u64],
    read: &TablesRead,
    progress: &mut G,
) -> Result<Vec<PageTable>, DumpError>
    requires numbers { AreFrameNumbers numbers.now }
    requires there { AreHeldBy (holds S.size dump.now) numbers.now }
    requires read { S.IsKnown → AreOf (words_of_dump (opened S.bytes dump.now)) read.now }
    ensures tables { S.IsKnown → IfOk result (λ tables. map Some tables.items
        ≡ map (words_numbered (words_of_dump (opened S.bytes dump.now))) numbers.now) }
    ensures count { IfOk result (λ tables. length tables.items ≡ length numbers.now) }
    ensures told { OnOk result (G.Told progress.old progress.new (up_to (length numbers.now))) }
    ensures counted { Counts G.Told progress.old progress.new }
    ensures errors { IfErr result (MayFail S.may_fail) }
{
    let mut part = FilePart::new();
    let mut tables = Vec::with_capacity(alloc, numbers.len())?;
    for i in 0..numbers.len() {
        tables.push_reserved(PageTable::new());
        fill_table(dump, read, &numbers[i..], &mut part, &mut tables[i])?;
        progress.tables(i + 1);
    }
    Ok(tables)
}

/// Returns the numbers of the frames, in order and each once.
fn numbers_of(alloc: Global, frames: TablesByLevel<'_>) -> Result<Vec<u64>, AllocError>
    ensures numbers { IfOk result (λ numbers. (frame : ℕ) → is_frame frame ≡ true →
        has_number numbers.items frame ≡ is_in_levels (frames_of frames.now) frame) }
    ensures below { IfOk result (λ numbers. AreFrameNumbers numbers.items) }
    ensures increasing { IfOk result (λ numbers. IsStrictlyIncreasing numbers.items) }
{
    let mut numbers = Vec::new(alloc);
    for level in frames {
        add_numbers(&mut numbers, level)?;
    }
    numbers.sort_unstable();
    numbers.dedup();
    Ok(numbers)
}

/// Adds the numbers of the frames.
fn add_numbers(numbers: &mut Vec<u64>, frames: &[PhysFrame<Size4KiB>]) -> Result<(), AllocError>
    ensures numbers { OnOk result ((frame : ℕ) → is_frame frame ≡ true →
        has_number numbers.new.items frame
        ≡ (has_number numbers.old.items frame || is_among frames.now frame)) }
    ensures below { OnOk result (AreFrameNumbers numbers.old.items → AreFrameNumbers numbers.new.items) }
{
    for frame in frames {
        numbers.push(frame.start_address().as_u64() / Size4KiB::SIZE)?;
    }
    Ok(())
}

/// Fills a table with the words in the first of the frames of these numbers, which the dump has. They are copied if they were read
/// before. Otherwise they come from the part of the file that was read last, or from a new one if that lacks them.
///
/// # Errors
///
/// `DumpError::OutOfMemory` if memory allocation fails, `DumpError::Read` if the read fails.
fn fill_table<S: ByteSource>(
    dump: &Dump<S>,
    read: &TablesRead,
    numbers: &[u64],
    part: &mut FilePart,
    table: &mut PageTable,
) -> Result<(), DumpError>
    requires some { 0 < length numbers.now }
    requires numbers { AreFrameNumbers numbers.now }
    requires there { holds S.size dump.now (slice_index numbers.now 0 * 4096) ≡ true }
    requires read { S.IsKnown → AreOf (words_of_dump (opened S.bytes dump.now)) read.now }
    requires part { S.IsKnown → IsOf (S.bytes dump.now.source) part.old }
    ensures words { S.IsKnown → OnOk result (Some table.new
        ≡ words_numbered (words_of_dump (opened S.bytes dump.now)) (slice_index numbers.now 0)) }
    ensures part { S.IsKnown → OnOk result (IsOf (S.bytes dump.now.source) part.new) }
    ensures errors { IfErr result (MayFail S.may_fail) }
{
    let frame = PhysFrame::from_pfn(numbers[0]);
    if let Some(before) = read.table(frame) {
        *table = copied(before)?;
        return Ok(());
    }
    let Some(offset) = dump.offset_of(frame) else {
        unreachable!();
    };
    if !part.has_frame(offset) {
        let count = frames_together(dump, read, numbers, offset);
        dump.read_part(part, offset, count)?;
    }
    dump.set_table(table, part, offset);
    Ok(())
}

/// Returns how many of the frames of these numbers, the first of which is at this offset of the file, follow each other in the file.
/// Counts up to the first that was read before, and no more than a part has.
fn frames_together<S: ByteSource>(
    dump: &Dump<S>,
    read: &TablesRead,
    numbers: &[u64],
    offset: u64,
) -> usize
    requires some { 0 < length numbers.now }
    requires numbers { AreFrameNumbers numbers.now }
    requires inside { offset + 4096 ≤ S.size dump.now.source }
    ensures few { result ≤ 8 }
    ensures some { 0 < result }
    ensures inside { offset + 4096 * result ≤ S.size dump.now.source }
{
    let most = numbers.len().min(MOST_FRAMES);
    for count in 1..most {
        let frame = PhysFrame::from_pfn(numbers[count]);
        let Some(next) = dump.offset_of(frame) else {
            return count;
        };
        let is_next = next.checked_sub(offset) == Some(count as u64 * Size4KiB::SIZE);
        if !is_next || read.table(frame).is_some() {
            return count;
        }
    }
    most
}

/// Returns a table with the words of another.
fn copied(table: &PageTable) -> Result<PageTable, AllocError>
    ensures { IfOk result (λ copy. copy ≡ table.now) }
{
    table.clone()
}
