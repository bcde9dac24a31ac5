//! The calls that map a page.
ghost use Rattle.std.specs.Prelude.{◌≡◌, OnOk, IfOk, filter, drop};
ghost use Rattle.std.specs.List.{list_any};
ghost use Rattle.x86_64_model.specs.Path.{parents};
ghost use Rattle.x86_64_model.specs.MapRule.{with_flags, with_tables, map_call as map_call_of};
ghost use Rattle.test_reference.specs.Calls.{plain_map};
ghost use Rattle.test_reference.specs.Fronts.{fronts, is_wanted_front, has_huge_page};

use crate::changes::leaf_entry;
use crate::entries::PathEntries;
use crate::machine::PlainMachine;
use crate::plain_calls::{Answer, Refusal};
use crate::positions::front;
use crate::words::{is_used, is_used_and_huge};
use std::alloc::{AllocError, Global};

/// Returns the lengths of the parents of a path whose entry is used, or of those whose entry is unused.
fn parents_where(
    alloc: Global,
    paths: &PathEntries,
    path: &[u64],
    used: bool,
) -> Result<Vec<usize>, AllocError>
    ensures { let found = filter (is_wanted_front paths.now used) (parents path.now) in
        IfOk result (λ lengths. fronts path.now lengths.items ≡ found) }
{
    let mut lengths = Vec::new(alloc);
    for length in 1..path.len() {
        if is_used(paths.entry(&path[..length])) == used {
            lengths.push(length)?;
        }
    }
    Ok(lengths)
}

/// Returns true if a parent of a path is used and huge.
fn has_huge_parent(paths: &PathEntries, path: &[u64]) -> bool
    ensures { result ≡ list_any (has_huge_page paths.now) (parents path.now) }
{
    for length in 1..path.len() {
        if is_used_and_huge(paths.entry(&path[..length])) {
            return true;
        }
    }
    false
}

/// Adds flags to the entries at the front parts of a path of these lengths.
fn add_flags(
    paths: &mut PathEntries,
    flags: u64,
    path: &[u64],
    lengths: &[usize],
) -> Result<(), AllocError>
    ensures { OnOk result (paths.new ≡ with_flags paths.old flags (fronts path.now lengths.now)) }
{
    match lengths {
        [] => Ok(()),
        [length, others @ ..] => {
            let parent = front(path, *length);
            let word = paths.entry(parent);
            paths.put(parent, word | flags)?;
            add_flags(paths, flags, path, others)
        }
    }
}

/// Creates tables at the front parts of a path of these lengths, in the given frames in order, as far as they go.
fn make_tables(
    paths: &mut PathEntries,
    flags: u64,
    path: &[u64],
    lengths: &[usize],
    frames: &[u64],
) -> Result<(), AllocError>
    ensures { OnOk result (paths.new ≡ with_tables paths.old flags (fronts path.now lengths.now) frames.now) }
{
    match lengths {
        [] => Ok(()),
        [length, other_lengths @ ..] => match frames {
            [] => Ok(()),
            [frame, other_frames @ ..] => {
                paths.put(front(path, *length), frame | flags)?;
                make_tables(paths, flags, path, other_lengths, other_frames)
            }
        },
    }
}

/// Removes the first `count` frames from a pool, or all if there are fewer.
fn take_frames(pool: &mut Vec<u64>, count: usize)
    ensures { pool.new.items ≡ drop count pool.old.items }
{
    let _ = pool.drain(..count.min(pool.len()));
}

impl PlainMachine {
    /// Maps a page to a frame, with these flags for the page's parents, and the added flags for new ones.
    ///
    /// # Errors
    ///
    /// `AllocError` if memory allocation fails. The entries and the pool are then unspecified.
    pub fn map_call(
        &self,
        paths: &mut PathEntries,
        pool: &mut Vec<u64>,
        page: &[u64],
        frame: u64,
        flags: u64,
        parent_flags: u64,
    ) -> Result<Answer, AllocError>
        ensures { let map = map_call_of self.now.levels paths.old pool.old.items in
            let before = map parent_flags self.now.added_flags in
            IfOk result (λ answer. plain_map paths.new pool.new.items answer ≡ before page.now frame flags) }
    {
        let alloc = *pool.allocator();
        let used = parents_where(alloc, paths, page, true)?;
        let missing = parents_where(alloc, paths, page, false)?;
        let is_stopped = has_huge_parent(paths, page);
        let is_mapped = is_used(paths.entry(page));
        add_flags(paths, parent_flags, page, &used)?;
        if is_stopped {
            return Ok(Answer::Refused(Refusal::ParentEntryHugePage));
        }
        make_tables(paths, parent_flags | self.added_flags, page, &missing, pool)?;
        let is_short = pool.len() < missing.len();
        take_frames(pool, missing.len());
        if is_short {
            return Ok(Answer::Refused(Refusal::FrameAllocationFailed));
        }
        if is_mapped {
            return Ok(Answer::Refused(Refusal::PageAlreadyMapped(frame)));
        }
        paths.put(page, leaf_entry(self.levels, page, frame, flags))?;
        Ok(Answer::Done(frame))
    }
}
