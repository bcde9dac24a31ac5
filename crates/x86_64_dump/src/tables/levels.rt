//! The frames of the tables that a root leads to, level by level.
ghost use Rattle.std.specs.Prelude.{◌≡◌, ◌<◌, true, IfOk, IfErr, IfSome, OnOk};
ghost use Rattle.std.specs.List.{filter_map, flat_map, fold};
ghost use Rattle.x86_64_dump.specs.Dump.{words_of_dump};
ghost use Rattle.x86_64_dump.specs.Opened.{holds, opened};
ghost use Rattle.x86_64_dump.specs.Loaded.{MayFail, frames_of};
ghost use Rattle.x86_64_dump.specs.private.FrameNumbers.{AreAllHeld, HasAll};
ghost use Rattle.x86_64_dump.specs.private.TablesRead.{AreOf};
ghost use Rattle.x86_64_dump.specs.Tables.{table_named, tables_named, met, each_once, tables_by_level, if_there};

use crate::tables::frame_set::FrameSet;
use crate::tables::tables_read::TablesRead;
use crate::{ByteSource, Dump, DumpError};
use std::alloc::{AllocError, Global};
use x86_64_page::frame::PhysFrame;
use x86_64_page::page::Size4KiB;
use x86_64_tables::page_table::PageTableEntry;

/// Finds the tables that a root leads to, and returns their frames by level, level one first. Those of a level are in the order
/// in which they are found. The tables above level one are added to those that were read.
pub fn read_levels<S: ByteSource>(
    alloc: Global,
    dump: &Dump<S>,
    root: PhysFrame<Size4KiB>,
    levels: u64,
    read: &mut TablesRead,
) -> Result<Vec<Vec<PhysFrame<Size4KiB>>>, DumpError>
    requires some { 0 < levels }
    requires read { S.IsKnown → AreOf (words_of_dump (opened S.bytes dump.now)) read.old }
    ensures read { S.IsKnown → OnOk result (AreOf (words_of_dump (opened S.bytes dump.now)) read.new) }
    ensures frames { S.IsKnown → IfOk result (λ frames. frames_of frames.items
        ≡ tables_by_level levels (words_of_dump (opened S.bytes dump.now)) root) }
    ensures there { IfOk result (λ frames. AreAllHeld (holds S.size dump.now) frames.items) }
    ensures errors { IfErr result (MayFail S.may_fail) }
{
    let mut frames = Vec::new(alloc);
    let mut level = root_level(alloc, dump, root)?;
    for _ in 1..levels {
        let below = read_below(alloc, dump, &level, read)?;
        frames.push(level)?;
        level = below;
    }
    frames.push(level)?;
    frames.reverse();
    Ok(frames)
}

/// Returns the root's frame, if the dump has it.
fn root_level<S: ByteSource>(
    alloc: Global,
    dump: &Dump<S>,
    root: PhysFrame<Size4KiB>,
) -> Result<Vec<PhysFrame<Size4KiB>>, AllocError>
    ensures frames { S.IsKnown → IfOk result (λ frames.
        frames.items ≡ if_there (words_of_dump (opened S.bytes dump.now)) root) }
    ensures held { IfOk result (λ frames. HasAll (holds S.size dump.now) frames.items) }
{
    let mut frames = Vec::new(alloc);
    if dump.has_frame(root) {
        frames.push(root)?;
    }
    Ok(frames)
}

/// Returns the frames of the tables that the tables in some frames name, each once.
fn read_below<S: ByteSource>(
    alloc: Global,
    dump: &Dump<S>,
    frames: &[PhysFrame<Size4KiB>],
    read: &mut TablesRead,
) -> Result<Vec<PhysFrame<Size4KiB>>, DumpError>
    requires { S.IsKnown → AreOf (words_of_dump (opened S.bytes dump.now)) read.old }
    ensures read { S.IsKnown → OnOk result (AreOf (words_of_dump (opened S.bytes dump.now)) read.new) }
    ensures frames { S.IsKnown → IfOk result (λ below. below.items
        ≡ each_once (flat_map (tables_named (words_of_dump (opened S.bytes dump.now))) frames.now)) }
    ensures held { IfOk result (λ below. HasAll (holds S.size dump.now) below.items) }
    ensures errors { IfErr result (MayFail S.may_fail) }
{
    let mut below = FrameSet::new(alloc);
    for frame in frames {
        read.read(alloc, dump, *frame)?;
        if let Some(table) = read.table(*frame) {
            add_named(dump, table.as_slice(), &mut below)?;
        }
    }
    Ok(below.into_frames())
}

/// Adds the frames of the tables that some words name.
fn add_named<S: ByteSource>(
    dump: &Dump<S>,
    words: &[PageTableEntry],
    below: &mut FrameSet,
) -> Result<(), AllocError>
    ensures named { S.IsKnown → OnOk result (below.new ≡ fold met below.old
        (filter_map (table_named (words_of_dump (opened S.bytes dump.now))) words.now)) }
    ensures held { OnOk result (
        HasAll (holds S.size dump.now) below.old → HasAll (holds S.size dump.now) below.new) }
{
    for word in words {
        if let Some(named) = table_named(dump, word) {
            below.insert(named)?;
        }
    }
    Ok(())
}

/// Returns the frame of the table that a word above level one names, if the dump has it.
fn table_named<S: ByteSource>(dump: &Dump<S>, word: &PageTableEntry) -> Option<PhysFrame<Size4KiB>>
    ensures named { S.IsKnown → result ≡ table_named (words_of_dump (opened S.bytes dump.now)) word.now }
    ensures held { IfSome result (λ frame. holds S.size dump.now frame ≡ true) }
{
    let frame = word.frame().ok()?;
    if dump.has_frame(frame) {
        Some(frame)
    } else {
        None
    }
}
