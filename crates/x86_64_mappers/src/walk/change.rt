//! Calls that change one entry.
ghost use Rattle.std.specs.Prelude.{◌≡◌, ◌<◌, ◌≤◌, ◌+◌, length, not};
ghost use Rattle.std.specs.Fn.{FnOnceReturnsAtMut};
ghost use Rattle.x86_64_model.specs.Allowed.{update_allowed};
ghost use Rattle.x86_64_model.specs.Hierarchy.{MayIf, Valid};
ghost use Rattle.x86_64_model.specs.Refusal.{refusal_of};
ghost use Rattle.x86_64_model.specs.Window.{begins_with};
ghost use Rattle.x86_64_mappers.specs.private.EntryCalls.{answer_said, word_said};
ghost use Rattle.x86_64_mappers.specs.private.PageCalls.{unmap_says, update_says};
ghost use Rattle.x86_64_mappers.specs.private.PathCalls.{flags_may_be_set, SetsFlagsOnPath, UnmapsPath, UpdatesPath};
ghost use Rattle.x86_64_mappers.specs.private.Results.{walk_result};
ghost use Rattle.x86_64_mappers.specs.private.TableFlags.{flags_say};
ghost use Rattle.x86_64_mappers.specs.private.OwnedSteps.{ChangesEntry};
ghost use Rattle.x86_64_tables.specs.MapperAnswers.{frame_answer, flags_refusal};
ghost use Rattle.x86_64_tables.specs.PageTableFlags.{bits_of};

use super::leaf::{leaf_flags, leaf_frame, maps_page};
use super::parents::{PageTableWalkError, find_table, path_to_level};
use super::{TableAccess, entry_mut};
use x86_64_addr::index::PageTableIndex;
use x86_64_page::frame::PhysFrame;
use x86_64_page::page::PageSize;
use x86_64_tables::errors::{FlagUpdateError, UnmapError};
use x86_64_tables::page_table::{PageTableEntry, PageTableFlags};

/// Unmaps the page that a path leads to.
///
/// # Errors
///
/// Those of [`find_table`], then those of [`unmap_entry`].
pub fn unmap_path<S: PageSize, M: TableAccess>(
    mapper: &mut M,
    path: &[PageTableIndex],
) -> Result<PhysFrame<S>, UnmapError>
    requires levels { length path.now + S.LEVEL ≡ (M.hierarchy mapper.old).layout.levels + 1 }
    requires may { MayIf (M.hierarchy mapper.old)
        (not (begins_with (M.hierarchy mapper.old).layout.window path.now)) }
    ensures { UnmapsPath (M.hierarchy mapper.old) path.now (frame_answer result) (M.hierarchy mapper.new) }
{
    change_entry(mapper, path, |entry| unmap_entry(entry))?
}

/// Sets the flags of the page that a path leads to, and `HUGE_PAGE` for 2MiB and 1GiB pages.
///
/// # Errors
///
/// Those of [`find_table`], then those of [`update_entry`].
pub fn update_path<S: PageSize, M: TableAccess>(
    mapper: &mut M,
    path: &[PageTableIndex],
    flags: PageTableFlags,
) -> Result<(), FlagUpdateError>
    requires levels { length path.now + S.LEVEL ≡ (M.hierarchy mapper.old).layout.levels + 1 }
    requires may { MayIf (M.hierarchy mapper.old)
        (update_allowed (M.hierarchy mapper.old).layout.window path.now (bits_of flags)) }
    ensures { UpdatesPath (M.hierarchy mapper.old) path.now (bits_of flags) result (M.hierarchy mapper.new) }
{
    change_entry(mapper, path, |entry| update_entry::<S>(entry, flags))?
}

/// Sets the flags of the entry of a level on the path of a page.
///
/// # Errors
///
/// `ParentEntryHugePage` if the level isn't above that of the page's own entry. Otherwise those of [`find_table`],
/// then those of [`set_entry_flags`].
pub fn set_table_flags<S: PageSize, M: TableAccess>(
    mapper: &mut M,
    path: &[PageTableIndex],
    level: u64,
    flags: PageTableFlags,
) -> Result<(), FlagUpdateError>
    requires levels { length path.now + S.LEVEL ≡ (M.hierarchy mapper.old).layout.levels + 1 }
    requires low { 2 ≤ level }
    requires high { level ≤ (M.hierarchy mapper.old).layout.levels }
    requires may { MayIf (M.hierarchy mapper.old)
        (flags_may_be_set (M.hierarchy mapper.old) level path.now (bits_of flags)) }
    ensures { SetsFlagsOnPath (M.hierarchy mapper.old) level path.now (bits_of flags) result
        (M.hierarchy mapper.new) }
{
    if level <= S::LEVEL {
        return Err(FlagUpdateError::ParentEntryHugePage);
    }
    change_entry(mapper, path_to_level::<S>(path, level), |entry| {
        set_entry_flags(entry, flags)
    })?
}

/// Changes the entry that a path leads to, and returns the result of the change.
///
/// # Errors
///
/// Those of [`find_table`].
fn change_entry<M: TableAccess, R, F: FnOnce(&mut PageTableEntry) -> R>(
    mapper: &mut M,
    path: &[PageTableIndex],
    change: F,
) -> Result<R, PageTableWalkError>
    requires valid { Valid (M.hierarchy mapper.old) }
    requires some { 0 < length path.now }
    requires levels { length path.now ≤ (M.hierarchy mapper.old).layout.levels }
    requires called { F.IsAlwaysCallable change }
    ensures changed { ChangesEntry (M.hierarchy mapper.old) path.now (FnOnceReturnsAtMut F.FnOnce change)
        (walk_result result) (M.hierarchy mapper.new) }
    ensures layout { (M.hierarchy mapper.new).layout ≡ (M.hierarchy mapper.old).layout }
    ensures lent { (M.hierarchy mapper.new).lent ≡ (M.hierarchy mapper.old).lent }
{
    let last = path.len() - 1;
    let parents = &path[..last];
    let table = find_table(mapper, parents)?;
    Ok(change(entry_mut(mapper, parents, table, path[last])))
}

/// Makes the entry of a page unused, and returns the frame that it named.
///
/// # Errors
///
/// Those of [`leaf_frame`].
pub fn unmap_entry<S: PageSize>(entry: &mut PageTableEntry) -> Result<PhysFrame<S>, UnmapError>
    ensures answer { frame_answer result ≡ answer_said (unmap_says S.LEVEL entry.old) }
    ensures word { entry.new ≡ word_said entry.old (unmap_says S.LEVEL entry.old) }
{
    let frame = leaf_frame(entry)?;
    entry.set_unused();
    Ok(frame)
}

/// Sets the flags of the entry of a page, and `HUGE_PAGE` for 2MiB and 1GiB pages.
///
/// # Errors
///
/// `PageNotMapped` if the entry maps no page of the size.
pub fn update_entry<S: PageSize>(
    entry: &mut PageTableEntry,
    flags: PageTableFlags,
) -> Result<(), FlagUpdateError>
    ensures refusal { flags_refusal result
        ≡ refusal_of (answer_said (update_says S.LEVEL (bits_of flags) entry.old)) }
    ensures word { entry.new ≡ word_said entry.old (update_says S.LEVEL (bits_of flags) entry.old) }
{
    if !maps_page::<S>(entry) {
        return Err(FlagUpdateError::PageNotMapped);
    }
    entry.set_flags(leaf_flags::<S>(flags));
    Ok(())
}

/// Sets the flags of the entry of a table.
///
/// # Errors
///
/// `PageNotMapped` if the entry is unused.
fn set_entry_flags(entry: &mut PageTableEntry, flags: PageTableFlags) -> Result<(), FlagUpdateError>
    ensures refusal { flags_refusal result ≡ refusal_of (answer_said (flags_say (bits_of flags) entry.old)) }
    ensures word { entry.new ≡ word_said entry.old (flags_say (bits_of flags) entry.old) }
{
    if entry.is_unused() {
        return Err(FlagUpdateError::PageNotMapped);
    }
    entry.set_flags(flags);
    Ok(())
}
