//! Walks down to tables that exist.
ghost use Rattle.std.specs.Prelude.{◌≡◌, ◌<◌, ◌≤◌, ◌+◌, ◌-◌, length, take, Ok, IfOk, IfErr};
ghost use Rattle.x86_64_model.specs.Memory.{word};
ghost use Rattle.x86_64_model.specs.Hierarchy.{Valid, words};
ghost use Rattle.x86_64_mappers.specs.private.OwnedSteps.{FindsTable, RefusesBelow};
ghost use Rattle.x86_64_mappers.specs.Reached.{PathReaches};
ghost use Rattle.x86_64_mappers.specs.private.Results.{walk_refusal, walk_result};
ghost use Rattle.x86_64_mappers.specs.private.Stops.{table_below};
ghost use Rattle.x86_64_tables.specs.MapperAnswers.{refusal_of_unmap, refusal_of_update, refusal_of_translate};

use super::{TableAccess, entry};
use x86_64_addr::index::PageTableIndex;
use x86_64_page::frame::PhysFrame;
use x86_64_page::page::{PageSize, Size4KiB};
use x86_64_tables::errors::{FlagUpdateError, TranslateError, UnmapError};
use x86_64_tables::page_table::FrameError;

/// The reason why a walk down to a table ends above it.
#[derive(Clone, Copy, Debug, PartialEq)]
pub enum PageTableWalkError {
    /// An entry on the path lacks `PRESENT`.
    NotMapped,
    /// An entry on the path has `PRESENT` and `HUGE_PAGE`.
    MappedToHugePage,
}

impl From<PageTableWalkError> for UnmapError {
    ghost from_gives = { λ error gives. refusal_of_unmap gives ≡ walk_refusal error };

    fn from(error: PageTableWalkError) -> UnmapError {
        match error {
            PageTableWalkError::NotMapped => UnmapError::PageNotMapped,
            PageTableWalkError::MappedToHugePage => UnmapError::ParentEntryHugePage,
        }
    }
}

impl From<PageTableWalkError> for FlagUpdateError {
    ghost from_gives = { λ error gives. refusal_of_update gives ≡ walk_refusal error };

    fn from(error: PageTableWalkError) -> FlagUpdateError {
        match error {
            PageTableWalkError::NotMapped => FlagUpdateError::PageNotMapped,
            PageTableWalkError::MappedToHugePage => FlagUpdateError::ParentEntryHugePage,
        }
    }
}

impl From<PageTableWalkError> for TranslateError {
    ghost from_gives = { λ error gives. refusal_of_translate gives ≡ walk_refusal error };

    fn from(error: PageTableWalkError) -> TranslateError {
        match error {
            PageTableWalkError::NotMapped => TranslateError::PageNotMapped,
            PageTableWalkError::MappedToHugePage => TranslateError::ParentEntryHugePage,
        }
    }
}

/// Returns the frame of the table that an entry names. The entry is at an index of the table that a path leads to.
///
/// # Errors
///
/// `NotMapped` if the entry lacks `PRESENT`, otherwise `MappedToHugePage` if it has `HUGE_PAGE`.
pub fn next_table<M: TableAccess>(
    mapper: &M,
    path: &[PageTableIndex],
    table: PhysFrame<Size4KiB>,
    index: PageTableIndex,
) -> Result<PhysFrame<Size4KiB>, PageTableWalkError>
    requires reached { PathReaches (M.hierarchy mapper.now) path.now table }
    requires short { length path.now < (M.hierarchy mapper.now).layout.levels }
    ensures below { walk_result result ≡ table_below (word (words (M.hierarchy mapper.now)) table index) }
    ensures index { index < 512 }
{
    match entry(mapper, path, table, index).frame() {
        Ok(next) => Ok(next),
        Err(FrameError::FrameNotPresent) => Err(PageTableWalkError::NotMapped),
        Err(FrameError::HugeFrame) => Err(PageTableWalkError::MappedToHugePage),
    }
}

/// The parent of a page at which a walk down to the table below the parents ends.
#[derive(Clone, Copy, Debug, PartialEq)]
pub struct WalkEnd {
    /// The number of parents from the root down to this one.
    pub depth: usize,
    /// The reason why it leads to no table.
    pub why: PageTableWalkError,
}

/// Returns the frame of the table below the parents of a page, which are given by their indices from the root down.
///
/// # Errors
///
/// The first parent that lacks `PRESENT` or has `HUGE_PAGE`: `NotMapped` if it lacks `PRESENT`, otherwise
/// `MappedToHugePage`.
// Inlined, since callers know the number of indices, and then the window of each table takes a few instructions.
#[inline]
pub fn walk_to_table<M: TableAccess>(
    mapper: &M,
    parents: &[PageTableIndex],
) -> Result<PhysFrame<Size4KiB>, WalkEnd>
    requires valid { Valid (M.hierarchy mapper.now) }
    requires short { length parents.now < (M.hierarchy mapper.now).layout.levels }
    ensures found { IfOk result (λ table. FindsTable (M.hierarchy mapper.now) parents.now (Ok table)) }
    ensures reached { IfOk result (λ table. PathReaches (M.hierarchy mapper.now) parents.now table) }
    ensures ends { IfErr result (λ end.
        RefusesBelow (M.hierarchy mapper.now) (take end.depth parents.now) (walk_refusal end.why)) }
    ensures depth { IfErr result (λ end. (0 < end.depth) × (end.depth ≤ length parents.now)) }
{
    let mut table = mapper.root();
    for k in 0..parents.len() {
        table = match next_table(mapper, &parents[..k], table, parents[k]) {
            Ok(next) => next,
            Err(why) => return Err(WalkEnd { depth: k + 1, why }),
        };
    }
    Ok(table)
}

/// Returns the frame of the table below the parents of a page.
///
/// # Errors
///
/// The reason of [`walk_to_table`].
#[inline]
pub fn find_table<M: TableAccess>(
    mapper: &M,
    parents: &[PageTableIndex],
) -> Result<PhysFrame<Size4KiB>, PageTableWalkError>
    requires valid { Valid (M.hierarchy mapper.now) }
    requires short { length parents.now < (M.hierarchy mapper.now).layout.levels }
    ensures found { FindsTable (M.hierarchy mapper.now) parents.now (walk_result result) }
    ensures reached { IfOk result (λ table. PathReaches (M.hierarchy mapper.now) parents.now table) }
{
    match walk_to_table(mapper, parents) {
        Ok(table) => Ok(table),
        Err(end) => Err(end.why),
    }
}

/// Returns the path of the entry of a level on the path of a page, whose own entry is on a lower level.
pub fn path_to_level<S: PageSize>(path: &[PageTableIndex], level: u64) -> &[PageTableIndex]
    requires above { S.LEVEL < level }
    requires within { level < length path.now + S.LEVEL }
    ensures { result.now ≡ take (length path.now + S.LEVEL - level) path.now }
{
    &path[..path.len() - (level - S::LEVEL) as usize]
}
